//! Forms by number: net changes and values.
ghost use Rattle.std.specs.Prelude.{◌≡◌, ◌<◌, ◌≤◌, ◌^◌, pos, length, unsigned_abs, Some, None, MatchOption};
ghost use Rattle.std.specs.Option.{option_map_or};
ghost use Rattle.np_flat.specs.Flats.{IsFlat, IsForm, IsStep, IsStateOf, AreSmall, AreAmounts};
ghost use Rattle.np_flat.specs.Achieving.{net, form_at};
ghost use Rattle.np_count.specs.Rows.{value_of};

use np_flat::{FlatState, FlatStep, Form, Parts, Subgoal, net_terms};

/// The form of this number, where there is one.
pub fn form_at(parts: &Parts, number: u64) -> Option<&Form>
    requires { IsFlat parts.now }
    ensures value { MatchOption result (form_at parts.now number ≡ None) (λ f. form_at parts.now number ≡ Some f.now) }
    ensures kept { MatchOption result (form_at parts.now number ≡ None) (λ f. IsForm (length parts.now.values) f.now) }
{
    match parts.subgoals.as_slice().get(number as usize) {
        Some(Subgoal::Form(form)) => Some(form),
        _ => None,
    }
}

/// The net change of a step on a form.
pub fn net(parts: &Parts, step: &FlatStep, form: &Form) -> i128
    requires form { IsForm (length parts.now.values) form.now }
    requires changes { AreAmounts (length parts.now.values) (2 ^ 62) step.now.changes }
    ensures value { result ≡ net step.now form.now }
    ensures small { unsigned_abs result < 2 ^ 99 }
{
    net_terms(step.changes.as_slice(), form.terms.as_slice())
}

/// The net change on the form of this number, and 0 where there is none.
pub fn net_on(parts: &Parts, step: &FlatStep, number: u64) -> i128
    requires flat { IsFlat parts.now }
    requires step { IsStep (length parts.now.facts) (length parts.now.values) (length parts.now.subgoals) step.now }
    ensures value { result ≡ option_map_or (net step.now) (form_at parts.now number) (pos 0) }
    ensures small { unsigned_abs result < 2 ^ 99 }
{
    match form_at(parts, number) {
        Some(form) => net(parts, step, form),
        None => 0,
    }
}

/// The value of the form of this number, and 0 where there is none.
pub fn value_of(parts: &Parts, number: u64, state: &FlatState) -> i128
    requires flat { IsFlat parts.now }
    requires state { IsStateOf parts.now state.now }
    requires small { AreSmall state.now.values }
    ensures value { result ≡ value_of parts.now number state.now }
    ensures small { unsigned_abs result < 2 ^ 125 }
{
    match form_at(parts, number) {
        Some(form) => form.value(state),
        None => 0,
    }
}
