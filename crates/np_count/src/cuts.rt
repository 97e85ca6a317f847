//! Cuts: the coefficient of a step, and the right side.
ghost use Rattle.std.specs.Prelude.{◌≡◌, ◌<◌, ◌≤◌, ◌^◌, ◌&&◌, not, true, length, unsigned_abs};
ghost use Rattle.std.specs.List.{list_any};
ghost use Rattle.np_flat.specs.States.{has, holds};
ghost use Rattle.np_flat.specs.Flats.{IsFlat, IsStep, IsStateOf, IsAscending, AreSmall};
ghost use Rattle.np_flat.specs.Achieving.{achieves_at};
ghost use Rattle.np_count.specs.Rows.{one_if, are_between, is_cut};

use crate::facts::{has, has_wide, one_if};
use np_flat::{Flat, FlatState, FlatStep, Parts, Subgoal};

/// Whether the subgoal of this number holds in a state.
fn holds(parts: &Parts, state: &FlatState, number: u64) -> bool
    requires flat { IsFlat parts.now }
    requires state { IsStateOf parts.now state.now }
    requires small { AreSmall state.now.values }
    ensures { result ≡ holds parts.now state.now number }
{
    match parts.subgoals.as_slice().get(number as usize) {
        Some(Subgoal::Fact(fact)) => state.has(*fact),
        Some(Subgoal::NotFact(fact)) => !state.has(*fact),
        Some(Subgoal::Form(form)) => form.value(state) >= 0,
        None => false,
    }
}

/// Whether one of these numbers is among the others, which ascend.
fn is_among(numbers: &[u32], others: &[u64]) -> bool
    requires { IsAscending others.now }
    ensures { result ≡ list_any (has others.now) numbers.now }
{
    numbers.iter().any(|n| has_wide(others, u64::from(*n)))
}

/// Whether one of these numbers is in the ascending list.
fn has_one(numbers: &[u32], others: &[u64]) -> bool
    requires { IsAscending numbers.now }
    ensures { result ≡ list_any (has numbers.now) others.now }
{
    others.iter().any(|n| has(numbers, *n))
}

/// Whether one of these subgoals holds.
fn holds_one(parts: &Parts, state: &FlatState, subgoals: &[u64]) -> bool
    requires flat { IsFlat parts.now }
    requires state { IsStateOf parts.now state.now }
    requires small { AreSmall state.now.values }
    ensures { result ≡ list_any (holds parts.now state.now) subgoals.now }
{
    subgoals.iter().any(|q| holds(parts, state, *q))
}

/// 1 where the step achieves one of these subgoals and requires none of them. It looks only at the subgoals that read what the
/// step touches and at those that it requires, however many there are.
#[tactic(auto, using(crate::proofs::Common::common))]
pub fn cut_coefficient(flat: &Flat, step: &FlatStep, subgoals: &[u64]) -> i128
    requires step { IsStep (length flat.now.facts) (length flat.now.values) (length flat.now.subgoals) step.now }
    requires subgoals { is_cut (length flat.now.subgoals) subgoals.now ≡ true }
    ensures value { result ≡ one_if (list_any (achieves_at flat.now step.now) subgoals.now && not (list_any (has step.now.needs) subgoals.now)) }
    ensures small { unsigned_abs result ≤ 1 }
{
    let achieved = flat.achieves_one(step, subgoals);
    one_if(achieved && !is_among(step.needs.as_slice(), subgoals))
}

/// 1 where none of these subgoals holds and the goal has one of them.
pub fn cut_right(parts: &Parts, state: &FlatState, subgoals: &[u64]) -> i128
    requires flat { IsFlat parts.now }
    requires state { IsStateOf parts.now state.now }
    requires small { AreSmall state.now.values }
    ensures { result ≡ one_if (not (list_any (holds parts.now state.now) subgoals.now) && list_any (has parts.now.goal) subgoals.now) }
{
    let held = holds_one(parts, state, subgoals);
    one_if(!held && has_one(parts.goal.as_slice(), subgoals))
}

/// Whether the numbers ascend from the least, below the limit.
fn are_between(limit: u64, numbers: &[u64]) -> bool
    requires { limit < 2 ^ 63 }
    ensures { result ≡ are_between limit 0 numbers.now }
{
    let mut least = 0;
    for number in numbers {
        if *number < least || limit <= *number {
            return false;
        }
        least = *number + 1;
    }
    true
}

/// Whether there are such numbers.
pub fn is_cut(limit: u64, numbers: &[u64]) -> bool
    requires { limit < 2 ^ 63 }
    ensures { result ≡ is_cut limit numbers.now }
{
    !numbers.is_empty() && are_between(limit, numbers)
}
