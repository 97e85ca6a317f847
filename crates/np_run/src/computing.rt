//! Expressions and conditions, computed in order.
ghost use Rattle.std.specs.Prelude.{◌≡◌, map, IfOk};
ghost use Rattle.np_frac.specs.Checked.{is_zero};
ghost use Rattle.np_model.specs.Ground.{atom_of, term_of};
ghost use Rattle.np_run.specs.Kept.{kept};
ghost use Rattle.np_run.specs.Computing.{added, subtracted, multiplied, divided, found, taken_in, begin, parts_from, computed_value, compared, or_no, computed_holds, computed_all_hold};
ghost use Rattle.np_run.specs.CodeAnswers.{Gives};

use crate::halt::{Halt, Lack};
use crate::kept_state::KeptState;
use np_frac::{Frac, Scalar};
use np_model::{Cond, Op, Ref, Sum, atom_of, object_of, term_of, with_sign};
use std::alloc::{AllocError, Global};

/// The sum.
pub(crate) fn added(x: &Frac, y: &Frac) -> Result<Frac, Halt<Lack>>
    ensures { Gives result (added x.now y.now) }
{
    x.add(y).ok_or(Halt::Cause(Lack::Wide))
}

/// The difference.
pub(crate) fn subtracted(x: &Frac, y: &Frac) -> Result<Frac, Halt<Lack>>
    ensures { Gives result (subtracted x.now y.now) }
{
    x.sub(y).ok_or(Halt::Cause(Lack::Wide))
}

/// The product.
fn multiplied(x: &Frac, y: &Frac) -> Result<Frac, Halt<Lack>>
    ensures { Gives result (multiplied x.now y.now) }
{
    x.mul(y).ok_or(Halt::Cause(Lack::Wide))
}

/// Whether a number is 0.
fn is_zero(x: &Frac) -> bool
    ensures { result ≡ is_zero x.now }
{
    x.num() == 0
}

/// The quotient. There is none by 0.
fn divided(x: &Frac, y: &Frac) -> Result<Frac, Halt<Lack>>
    ensures { Gives result (divided x.now y.now) }
{
    if is_zero(y) {
        return Err(Halt::Cause(Lack::Missing));
    }
    x.div(y).ok_or(Halt::Cause(Lack::Wide))
}

/// A value, where it is there.
pub(crate) fn found(value: Option<Frac>) -> Result<Frac, Halt<Lack>>
    ensures { Gives result (found value) }
{
    value.ok_or(Halt::Cause(Lack::Missing))
}

/// What a sum begins with, and a product where the flag is false.
fn begin(adds: bool) -> Frac
    ensures { result ≡ begin adds }
{
    if adds { Frac::zero() } else { Frac::one() }
}

/// One more part added to a sum, or multiplied with a product where the flag is false.
fn taken_in(adds: bool, total: &Frac, part: &Frac) -> Result<Frac, Halt<Lack>>
    ensures { Gives result (taken_in adds total.now part.now) }
{
    if adds {
        added(total, part)
    } else {
        multiplied(total, part)
    }
}

/// The value of the term of a function and references.
fn value_at(
    alloc: Global,
    objects: &[u32],
    state: &KeptState,
    function: u32,
    refs: &[Ref],
) -> Result<Frac, Halt<Lack>>
    ensures { Gives result (found ((kept state.now).value (term_of objects.now function refs.now))) }
{
    let term = term_of(alloc, objects, function, refs)?;
    found(state.value(&term))
}

/// The value of an expression in a state, where the parameters stand for these objects.
#[cycle(value)]
pub(crate) fn value_of(
    alloc: Global,
    objects: &[u32],
    state: &KeptState,
    sum: &Sum,
) -> Result<Frac, Halt<Lack>>
    ensures { Gives result (computed_value objects.now (kept state.now) sum.now) }
{
    match sum {
        Sum::Number(x) => Ok(*x),
        Sum::Value(function, refs) => value_at(alloc, objects, state, *function, refs.as_slice()),
        Sum::Minus(x) => {
            let value = value_of(alloc, objects, state, x.get())?;
            subtracted(&Frac::zero(), &value)
        }
        Sum::Sub(x, y) => {
            let left = value_of(alloc, objects, state, x.get())?;
            let right = value_of(alloc, objects, state, y.get())?;
            subtracted(&left, &right)
        }
        Sum::Div(x, y) => {
            let left = value_of(alloc, objects, state, x.get())?;
            let right = value_of(alloc, objects, state, y.get())?;
            divided(&left, &right)
        }
        Sum::Add(parts) => parts_of(alloc, objects, state, true, parts.as_slice()),
        Sum::Mul(parts) => parts_of(alloc, objects, state, false, parts.as_slice()),
    }
}

/// The sum of several expressions, or their product where the flag is false, each taken in before the next is looked at.
#[cycle(value)]
#[tactic(auto, using(crate::proofs::Parts::parts_step))]
fn parts_of(
    alloc: Global,
    objects: &[u32],
    state: &KeptState,
    adds: bool,
    parts: &[Sum],
) -> Result<Frac, Halt<Lack>>
    ensures { Gives result (parts_from adds (begin adds) (map (computed_value objects.now (kept state.now)) parts.now)) }
{
    let mut total = begin(adds);
    for part in parts {
        let value = value_of(alloc, objects, state, part)?;
        total = taken_in(adds, &total, &value)?;
    }
    Ok(total)
}

/// Whether two expressions compare so.
fn compared(
    alloc: Global,
    objects: &[u32],
    state: &KeptState,
    op: Op,
    x: &Sum,
    y: &Sum,
) -> Result<bool, Halt<Lack>>
    ensures { Gives result (compared op (computed_value objects.now (kept state.now) x.now) (computed_value objects.now (kept state.now) y.now)) }
{
    let left = value_of(alloc, objects, state, x)?;
    let right = value_of(alloc, objects, state, y)?;
    Ok(op.compares(&left, &right))
}

/// Whether two expressions compare so. Where a side has no value, they don't.
fn comparison_holds(
    alloc: Global,
    objects: &[u32],
    state: &KeptState,
    op: Op,
    x: &Sum,
    y: &Sum,
) -> Result<bool, Halt<Lack>>
    ensures { Gives result (or_no (compared op (computed_value objects.now (kept state.now) x.now) (computed_value objects.now (kept state.now) y.now))) }
{
    match compared(alloc, objects, state, op, x, y) {
        Ok(yes) => Ok(yes),
        Err(Halt::Cause(Lack::Missing)) => Ok(false),
        Err(Halt::Cause(Lack::Wide)) => Err(Halt::Cause(Lack::Wide)),
        Err(Halt::Memory) => Err(Halt::Memory),
    }
}

/// Whether the atom of a predicate and references is true.
fn has_at(
    alloc: Global,
    objects: &[u32],
    state: &KeptState,
    predicate: u32,
    refs: &[Ref],
) -> Result<bool, AllocError>
    ensures { IfOk result (λ there. there ≡ (kept state.now).has (atom_of objects.now predicate refs.now)) }
{
    let atom = atom_of(alloc, objects, predicate, refs)?;
    Ok(state.has(&atom))
}

/// Whether a condition holds.
fn holds(alloc: Global, objects: &[u32], state: &KeptState, cond: &Cond) -> Result<bool, Halt<Lack>>
    ensures { Gives result (computed_holds objects.now (kept state.now) cond.now) }
{
    match cond {
        Cond::Atom(positive, predicate, refs) => {
            let there = has_at(alloc, objects, state, *predicate, refs.as_slice())?;
            Ok(with_sign(*positive, there))
        }
        Cond::Same(positive, a, b) => {
            let same = object_of(objects, *a) == object_of(objects, *b);
            Ok(with_sign(*positive, same))
        }
        Cond::Compare(op, x, y) => comparison_holds(alloc, objects, state, *op, x, y),
    }
}

/// Whether all of the conditions hold. After one that doesn't, none is looked at.
pub(crate) fn all_hold(
    alloc: Global,
    objects: &[u32],
    state: &KeptState,
    conditions: &[Cond],
) -> Result<bool, Halt<Lack>>
    ensures { Gives result (computed_all_hold objects.now (kept state.now) conditions.now) }
{
    for cond in conditions {
        if !holds(alloc, objects, state, cond)? {
            return Ok(false);
        }
    }
    Ok(true)
}
