//! The unit of a flat task.
ghost use Rattle.std.specs.Prelude.{◌≡◌, ◌<◌, [], ◌∷◌, map, fold};
ghost use Rattle.std.specs.List.{flat_map};
ghost use Rattle.np_bind.specs.Grounding.{number_on};
ghost use Rattle.np_flat.specs.declared.limits.TheConstants.{CHANGE_SIZE};
ghost use Rattle.np_scale.specs.Wholes.{lcm};
ghost use Rattle.np_scale.specs.Code.{below, dens, changes_on, unit_for};

use crate::numbering::Values;
use crate::whole::lcm_below;
use np_bind::BoundStep;
use np_flat::CHANGE_SIZE;
use np_frac::{Frac, Scalar};
use np_model::{Term, ValueMap};

/// The start value of a term; 0 where it has none.
pub fn start_of(starts: &ValueMap<'_>, term: &Term) -> Frac
    ensures { result ≡ number_on starts.now term.now }
{
    match starts.get(term) {
        Some(number) => number,
        None => Frac::zero(),
    }
}

/// The least common multiple of the denominators of the start values and of the net changes on values, where it's below `CHANGE_SIZE`.
pub fn unit_of(values: &Values<'_>, starts: &ValueMap<'_>, steps: &[BoundStep]) -> Option<u128>
    ensures { result ≡ below CHANGE_SIZE (unit_for values.now starts.now steps.now) }
{
    let mut unit = with_starts(values, starts)?;
    for step in steps {
        unit = with_changes(unit, values, step.changes.as_slice())?;
    }
    Some(unit)
}

/// The least common multiple of the denominators of the start values, where it's below `CHANGE_SIZE`.
fn with_starts(values: &Values<'_>, starts: &ValueMap<'_>) -> Option<u128>
    ensures { result ≡ below CHANGE_SIZE (fold lcm 1 (dens (map (number_on starts.now) values.now))) }
{
    let mut unit = 1;
    for term in values.as_slice() {
        unit = lcm_below(CHANGE_SIZE, unit, start_of(starts, term).den())?;
    }
    Some(unit)
}

/// The least common multiple of a unit and the denominators of the changes on values, where it's below `CHANGE_SIZE`.
fn with_changes(unit: u128, values: &Values<'_>, changes: &[(Term, Frac)]) -> Option<u128>
    requires small { unit < CHANGE_SIZE }
    requires positive { 0 < unit }
    ensures { result ≡ below CHANGE_SIZE (fold lcm unit (dens (changes_on values.now changes.now))) }
{
    let mut multiple = unit;
    for (term, change) in changes {
        multiple = with_change(multiple, values, term, change)?;
    }
    Some(multiple)
}

/// The least common multiple of a unit and the denominator of a change, if it's on a value, where it's below `CHANGE_SIZE`.
fn with_change(unit: u128, values: &Values<'_>, term: &Term, change: &Frac) -> Option<u128>
    requires small { unit < CHANGE_SIZE }
    ensures { result ≡ below CHANGE_SIZE (fold lcm unit (dens (changes_on values.now ((term.now, change.now) ∷ [])))) }
{
    if values.find(term).is_some() {
        lcm_below(CHANGE_SIZE, unit, change.den())
    } else {
        Some(unit)
    }
}
