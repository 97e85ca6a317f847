//! What holds in a state.
ghost use Rattle.std.specs.Prelude.{◌≡◌, ◌<◌, ◌≤◌, ◌^◌, ◌+ℤ◌, ◌*ℤ◌, length, All, unsigned_abs};
ghost use Rattle.std.specs.List.{list_all};
ghost use Rattle.np_flat.specs.declared.limits.TheConstants.{COEFFICIENT_SIZE};
ghost use Rattle.np_flat.specs.Flats.{IsForm, AreSmall};
ghost use Rattle.np_flat.specs.States.{holds, terms_value};
ghost use Rattle.np_blind.specs.Readings.{read};
ghost use Rattle.np_blind.specs.Sizes.{IsSmallState};

use np_flat::{Form, Parts, Subgoal};
use np_state::State;

/// A sum with one more term, a coefficient times a value.
fn with_term(sum: i128, coefficient: i128, value: i128) -> i128
    requires sum { unsigned_abs sum ≤ 2 ^ 126 }
    requires coefficient { unsigned_abs coefficient ≤ COEFFICIENT_SIZE }
    requires value { unsigned_abs value ≤ 2 ^ 88 }
    ensures { result ≡ sum +ℤ (coefficient *ℤ value) }
{
    sum + coefficient * value
}

/// The exact value of a form. It takes no memory.
fn value(form: &Form, cells: &[i128]) -> i128
    requires form { IsForm (length cells.now) form.now }
    requires small { AreSmall cells.now }
    ensures { result ≡ form.now.constant +ℤ terms_value cells.now form.now.terms }
{
    let mut sum = form.constant;
    for (number, coefficient) in form.terms.as_slice() {
        sum = with_term(sum, *coefficient, cells[*number as usize]);
    }
    sum
}

/// Whether the subgoal of this number holds in a state. It takes no memory.
fn holds(parts: &Parts, state: &State<i128>, subgoal: u32) -> bool
    requires number { subgoal < length parts.now.subgoals }
    requires state { IsSmallState parts.now state.now }
    ensures { result ≡ holds parts.now (read state.now) subgoal }
{
    match &parts.subgoals.as_slice()[subgoal as usize] {
        Subgoal::Fact(fact) => state.facts.get(*fact as usize),
        Subgoal::NotFact(fact) => !state.facts.get(*fact as usize),
        Subgoal::Form(form) => value(form, state.cells.as_slice()) >= 0,
    }
}

/// Whether all these subgoals hold in a state. It takes no memory.
pub(crate) fn all_hold(parts: &Parts, state: &State<i128>, subgoals: &[u32]) -> bool
    requires numbers { All (λ q. q < length parts.now.subgoals) subgoals.now }
    requires state { IsSmallState parts.now state.now }
    ensures { result ≡ list_all (holds parts.now (read state.now)) subgoals.now }
{
    subgoals.iter().all(|subgoal| holds(parts, state, *subgoal))
}
