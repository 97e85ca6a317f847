//! A look at an action's conditions before all of its parameters stand for objects.
ghost use Rattle.std.specs.Prelude.{◌≡◌, ◌==◌, length, IfOk};
ghost use Rattle.std.specs.List.{list_all};
ghost use Rattle.std.specs.Option.{option_copied};
ghost use Rattle.np_model.specs.Ground.{object_of};
ghost use Rattle.np_model.specs.Conditions.{with_sign};
ghost use Rattle.np_bind.specs.Looking.{is_chosen, look_by, look_at_atom, look_at, look_past};

use crate::known::Known;
use np_model::{Cond, Ref, atom_of, object_of, with_sign};
use std::alloc::{AllocError, Global};

/// What a look at a condition says of all bindings that begin with the same objects.
#[derive(Debug, Drop)]
pub(crate) enum Look {
    /// There is no finding at it in any of them.
    Passes,
    /// It fails in each of them.
    Fails,
    /// That isn't known yet.
    Waits,
}

/// Whether a reference stands for an object where so many parameters do.
fn is_chosen(count: usize, part: Ref) -> bool
    ensures { result ≡ is_chosen count part }
{
    match part {
        Ref::Object(_) => true,
        Ref::Parameter(place) => (place as usize) < count,
    }
}

/// Whether all of them do.
fn are_chosen(count: usize, refs: &[Ref]) -> bool
    ensures { result ≡ list_all (is_chosen count) refs.now }
{
    for part in refs {
        if !is_chosen(count, *part) {
            return false;
        }
    }
    true
}

/// The look at a condition that is known.
fn look_by(holds: bool) -> Look
    ensures { result ≡ look_by holds }
{
    if holds { Look::Passes } else { Look::Fails }
}

/// The look at an atom of a predicate and references, which is to be true, or false where the flag is.
fn look_at_atom(
    alloc: Global,
    known: &Known<'_>,
    objects: &[u32],
    positive: bool,
    predicate: u32,
    refs: &[Ref],
) -> Result<Look, AllocError>
    ensures { IfOk result (λ look. look ≡ look_at_atom known.now.task objects.now positive predicate refs.now) }
{
    if !known.is_static(predicate) {
        return Ok(Look::Passes);
    }
    if !are_chosen(objects.len(), refs) {
        return Ok(Look::Waits);
    }
    let atom = atom_of(alloc, objects, predicate, refs)?;
    Ok(look_by(with_sign(positive, known.has(&atom))))
}

/// The look at a condition where the first parameters stand for these objects.
fn look_at(
    alloc: Global,
    known: &Known<'_>,
    objects: &[u32],
    condition: &Cond,
) -> Result<Look, AllocError>
    ensures { IfOk result (λ look. look ≡ look_at known.now.task objects.now condition.now) }
{
    match condition {
        Cond::Atom(positive, predicate, refs) => {
            look_at_atom(
                alloc,
                known,
                objects,
                *positive,
                *predicate,
                refs.as_slice(),
            )
        }
        Cond::Same(positive, a, b) => {
            if !is_chosen(objects.len(), *a) || !is_chosen(objects.len(), *b) {
                return Ok(Look::Waits);
            }
            let same = object_of(objects, *a) == object_of(objects, *b);
            Ok(look_by(with_sign(*positive, same)))
        }
        Cond::Compare(_, _, _) => Ok(Look::Waits),
    }
}

/// The conditions from the first one on that isn't known yet; None where one before it fails in each binding that begins so.
pub(crate) fn look_past<'a>(
    alloc: Global,
    known: &Known<'_>,
    objects: &[u32],
    conditions: &'a [Cond],
) -> Result<Option<&'a [Cond]>, AllocError>
    ensures { IfOk result (λ left. option_copied left ≡ look_past known.now.task objects.now conditions.now) }
{
    for place in 0..conditions.len() {
        match look_at(alloc, known, objects, &conditions[place])? {
            Look::Passes => {}
            Look::Fails => return Ok(None),
            Look::Waits => return Ok(Some(&conditions[place..])),
        }
    }
    Ok(Some(&conditions[conditions.len()..]))
}
