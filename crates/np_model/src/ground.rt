//! Ground atoms and terms, and the objects that references stand for.
ghost use Rattle.std.specs.Prelude.{◌≡◌, IfOk};
ghost use Rattle.np_model.specs.Ground.{object_of, objects_of, atom_of, term_of};

use crate::objects::Objects;
use crate::task::{Atom, Ref, Step, Term};
use std::alloc::{AllocError, Global};

/// The object that a reference stands for, where the parameters stand for these objects; 0 where none stands for it.
pub fn object_of(objects: &[u32], part: Ref) -> u32
    ensures { result ≡ object_of objects.now part }
{
    match part {
        Ref::Object(number) => number,
        Ref::Parameter(place) => objects.get(place as usize).copied().unwrap_or(0),
    }
}

/// The objects that references stand for. Out of memory is an error.
pub fn objects_of(alloc: Global, objects: &[u32], refs: &[Ref]) -> Result<Objects, AllocError>
    ensures { IfOk result (λ new. new ≡ objects_of objects.now refs.now) }
{
    let mut new = Objects::new(alloc);
    for part in refs {
        new.push(object_of(objects, *part))?;
    }
    Ok(new)
}

/// The ground atom of a predicate and references. Out of memory is an error.
pub fn atom_of(
    alloc: Global,
    objects: &[u32],
    predicate: u32,
    refs: &[Ref],
) -> Result<Atom, AllocError>
    ensures { IfOk result (λ atom. atom ≡ atom_of objects.now predicate refs.now) }
{
    let objects = objects_of(alloc, objects, refs)?;
    Ok(Atom { predicate, objects })
}

/// The ground term of a function and references. Out of memory is an error.
pub fn term_of(
    alloc: Global,
    objects: &[u32],
    function: u32,
    refs: &[Ref],
) -> Result<Term, AllocError>
    ensures { IfOk result (λ term. term ≡ term_of objects.now function refs.now) }
{
    let objects = objects_of(alloc, objects, refs)?;
    Ok(Term { function, objects })
}

impl Atom {
    /// A copy. Out of memory is an error.
    pub fn copy(&self, alloc: Global) -> Result<Atom, AllocError>
        ensures { IfOk result (λ copy. copy ≡ self.now) }
    {
        let objects = self.objects.copy(alloc)?;
        Ok(Atom {
            predicate: self.predicate,
            objects,
        })
    }
}

impl Term {
    /// A copy. Out of memory is an error.
    pub fn copy(&self, alloc: Global) -> Result<Term, AllocError>
        ensures { IfOk result (λ copy. copy ≡ self.now) }
    {
        let objects = self.objects.copy(alloc)?;
        Ok(Term {
            function: self.function,
            objects,
        })
    }
}

impl Step {
    /// A copy. Out of memory is an error.
    pub fn copy(&self, alloc: Global) -> Result<Step, AllocError>
        ensures { IfOk result (λ copy. copy ≡ self.now) }
    {
        let objects = self.objects.copy(alloc)?;
        Ok(Step {
            action: self.action,
            objects,
        })
    }
}
