//! Facts and their negations: what a step makes of them, and how it counts for them.
ghost use Rattle.std.specs.Prelude.{◌≡◌, ◌≤◌, ◌-ℤ◌, false, unsigned_abs, slice_get};
ghost use Rattle.std.specs.Option.{option_map_or};
ghost use Rattle.np_flat.specs.States.{has};
ghost use Rattle.np_flat.specs.Flats.{IsAscending};
ghost use Rattle.np_flat.specs.Achieving.{is_fact, names_fact};
ghost use Rattle.np_count.specs.Rows.{makes, is_so, one_if, flow};

use np_flat::{FlatState, FlatStep, Parts, Subgoal};

/// Whether a number is in an ascending list.
pub fn has(numbers: &[u32], number: u64) -> bool
    requires { IsAscending numbers.now }
    ensures { result ≡ has numbers.now number }
{
    numbers
        .binary_search_by_key(&number, |n| u64::from(*n))
        .is_ok()
}

/// Whether a wide number is in an ascending list of wide numbers.
#[tactic(auto, using(np_flat::proofs::Ascending::has_found))]
pub fn has_wide(numbers: &[u64], number: u64) -> bool
    requires { IsAscending numbers.now }
    ensures { result ≡ has numbers.now number }
{
    numbers.binary_search(&number).is_ok()
}

/// Whether the subgoal of this number is this fact, or for false its negation.
fn is_fact(subgoals: &[Subgoal], positive: bool, fact: u64, number: u32) -> bool
    ensures { result ≡ option_map_or (is_fact positive fact) (slice_get subgoals.now number) false }
{
    match subgoals.get(number as usize) {
        Some(Subgoal::Fact(f)) => positive && u64::from(*f) == fact,
        Some(Subgoal::NotFact(f)) => !positive && u64::from(*f) == fact,
        _ => false,
    }
}

/// Whether the fact, or for false its negation, is among these subgoals.
fn names_fact(parts: &Parts, positive: bool, fact: u64, numbers: &[u32]) -> bool
    ensures { result ≡ names_fact parts.now positive fact numbers.now }
{
    let subgoals = parts.subgoals.as_slice();
    numbers
        .iter()
        .any(|q| is_fact(subgoals, positive, fact, *q))
}

/// Whether the step makes the fact true, or for false makes it false.
fn makes(positive: bool, step: &FlatStep, fact: u64) -> bool
    requires adds { IsAscending step.now.adds }
    requires deletes { IsAscending step.now.deletes }
    ensures { result ≡ makes positive step.now fact }
{
    if positive {
        has(step.adds.as_slice(), fact)
    } else {
        has(step.deletes.as_slice(), fact)
    }
}

/// Whether the fact is true, or for false is false.
fn is_so(positive: bool, state: &FlatState, fact: u64) -> bool
    requires { IsAscending state.now.facts }
    ensures { result ≡ is_so positive state.now fact }
{
    has(state.facts.as_slice(), fact) == positive
}

/// 1 where it is so, else 0.
pub fn one_if(so: bool) -> i128
    ensures { result ≡ one_if so }
{
    if so { 1 } else { 0 }
}

/// How the step counts for a fact, or for false its negation.
pub fn flow(parts: &Parts, positive: bool, fact: u64, step: &FlatStep) -> i128
    requires adds { IsAscending step.now.adds }
    requires deletes { IsAscending step.now.deletes }
    ensures value { result ≡ flow parts.now positive fact step.now }
    ensures small { unsigned_abs result ≤ 1 }
{
    let achieved = makes(positive, step, fact);
    let broken = makes(!positive, step, fact);
    if !achieved && !broken {
        return 0;
    }
    let needed = names_fact(parts, positive, fact, step.needs.as_slice());
    if achieved && !needed {
        1
    } else if needed && broken {
        -1
    } else {
        0
    }
}

/// 1 where the goal has the fact, or for false its negation, less 1 where it is so.
pub fn flow_right(parts: &Parts, positive: bool, fact: u64, state: &FlatState) -> i128
    requires { IsAscending state.now.facts }
    ensures { result ≡ one_if (names_fact parts.now positive fact parts.now.goal) -ℤ one_if (is_so positive state.now fact) }
{
    let asked = one_if(names_fact(parts, positive, fact, parts.goal.as_slice()));
    let held = one_if(is_so(positive, state, fact));
    asked - held
}
