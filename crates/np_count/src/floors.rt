//! Floors: where a form may have one, and its right side.
ghost use Rattle.std.specs.Prelude.{◌≡◌, ◌<◌, ◌≤◌, ◌^◌, pos, ◌-ℤ◌, int_le, ◌&&◌, false, length, unsigned_abs, All};
ghost use Rattle.std.specs.Int.{int_min};
ghost use Rattle.std.specs.List.{list_any, list_all};
ghost use Rattle.std.specs.Option.{option_map_or};
ghost use Rattle.np_flat.specs.Flats.{IsFlat, IsForm, IsStep};
ghost use Rattle.np_flat.specs.Achieving.{form_at};
ghost use Rattle.np_count.specs.Rows.{same_terms, guards, is_guarded};

use crate::forms::{form_at, net};
use np_flat::{FlatStep, Form, Parts};

/// The smaller of 0 and the number less the value.
pub fn floor_right(number: i128, value: i128) -> i128
    requires number { unsigned_abs number < 2 ^ 125 }
    requires value { unsigned_abs value ≤ 2 ^ 125 }
    ensures { result ≡ int_min (pos 0) (number -ℤ value) }
{
    let gap = number - value;
    if gap < 0 { gap } else { 0 }
}

/// Whether two lists of terms are the same.
fn same_terms(left: &[(u32, i128)], right: &[(u32, i128)]) -> bool
    ensures { result ≡ same_terms left.now right.now }
{
    left == right
}

/// Whether a form has another form's very terms, and a constant that is at least so much smaller.
fn is_guard(guard: &Form, form: &Form, least: i128) -> bool
    requires guard { unsigned_abs guard.now.constant < 2 ^ 100 }
    requires form { unsigned_abs form.now.constant < 2 ^ 100 }
    ensures { result ≡ (same_terms guard.now.terms form.now.terms && int_le least (form.now.constant -ℤ guard.now.constant)) }
{
    let gap = form.constant - guard.constant;
    same_terms(guard.terms.as_slice(), form.terms.as_slice()) && least <= gap
}

/// Whether a need keeps the form at this number or above.
fn guards(parts: &Parts, form: &Form, least: i128, need: u32) -> bool
    requires flat { IsFlat parts.now }
    requires form { IsForm (length parts.now.values) form.now }
    ensures { result ≡ guards parts.now form.now least need }
{
    match form_at(parts, u64::from(need)) {
        Some(guard) => is_guard(guard, form, least),
        None => false,
    }
}

/// Whether one of these needs does.
fn guards_one(parts: &Parts, form: &Form, least: i128, needs: &[u32]) -> bool
    requires flat { IsFlat parts.now }
    requires form { IsForm (length parts.now.values) form.now }
    ensures { result ≡ list_any (guards parts.now form.now least) needs.now }
{
    needs.iter().any(|need| guards(parts, form, least, *need))
}

/// Whether a step doesn't lower the form, or lowers it by k and has a need that keeps it at `number + k` or above.
fn is_guarded(parts: &Parts, form: &Form, number: i128, step: &FlatStep) -> bool
    requires flat { IsFlat parts.now }
    requires form { IsForm (length parts.now.values) form.now }
    requires number { unsigned_abs number < 2 ^ 125 }
    requires step { IsStep (length parts.now.facts) (length parts.now.values) (length parts.now.subgoals) step.now }
    ensures { result ≡ is_guarded parts.now form.now number step.now }
{
    let change = net(parts, step, form);
    change >= 0 || guards_one(parts, form, number - change, step.needs.as_slice())
}

/// Whether all of these steps are guarded.
fn all_guarded(parts: &Parts, form: &Form, number: i128, steps: &[FlatStep]) -> bool
    requires flat { IsFlat parts.now }
    requires form { IsForm (length parts.now.values) form.now }
    requires number { unsigned_abs number < 2 ^ 125 }
    requires steps { All (IsStep (length parts.now.facts) (length parts.now.values) (length parts.now.subgoals)) steps.now }
    ensures { result ≡ list_all (is_guarded parts.now form.now number) steps.now }
{
    steps
        .iter()
        .all(|step| is_guarded(parts, form, number, step))
}

/// Whether the form of this number may have this floor.
pub fn is_floor(parts: &Parts, number: u64, floor: i128) -> bool
    requires flat { IsFlat parts.now }
    requires floor { unsigned_abs floor < 2 ^ 125 }
    ensures { result ≡ option_map_or (λ form. list_all (is_guarded parts.now form floor) parts.now.steps) (form_at parts.now number) false }
{
    match form_at(parts, number) {
        Some(form) => all_guarded(parts, form, floor, parts.steps.as_slice()),
        None => false,
    }
}
