//! A list of atoms, and one of values, in which a look-up takes no walk.
ghost use Rattle.std.specs.Prelude.{◌≡◌, IfOk};
ghost use Rattle.np_model.specs.States.{is_among, value_among};

use crate::task::{Atom, Term};
use indexmap::{IndexMap, IndexSet};
use np_frac::Frac;
use std::alloc::{AllocError, Global};
use std::marker::Model;

/// Ground atoms as a set. Contracts see the list that it was made from.
#[derive(Drop)]
pub struct AtomSet<'a> {
    atoms: &'a [Atom],
    set: IndexSet<&'a Atom>,
}

impl<'a> Model for AtomSet<'a> {
    ghost use Rattle.std.specs.Prelude.{List};
    ghost use Rattle.np_model.specs.declared.task.Atom.{Atom};
    ghost use Rattle.np_model.specs.Maps.{HasAtoms};

    ghost Value = { List Atom };

    ghost view = { λ s. s.atoms.now };

    ghost invariant = { λ s. HasAtoms s.set s.atoms.now };
}

impl<'a> AtomSet<'a> {
    /// The set of the atoms of a list. Out of memory is an error.
    pub fn new(alloc: Global, atoms: &'a [Atom]) -> Result<AtomSet<'a>, AllocError>
        ensures { IfOk result (λ set. set ≡ atoms.now) }
    {
        let mut set = IndexSet::with_capacity(alloc, atoms.len())?;
        for atom in atoms {
            set.insert(atom)?;
        }
        Ok(AtomSet { atoms, set })
    }

    /// Whether an atom is among them.
    pub fn has(&self, atom: &Atom) -> bool
        ensures { result ≡ is_among self.now atom.now }
    {
        self.set.contains(&atom)
    }
}

/// Values of ground terms as a map. Contracts see the list that it was made from.
#[derive(Drop)]
pub struct ValueMap<'a> {
    values: &'a [(Term, Frac)],
    map: IndexMap<&'a Term, &'a (Term, Frac)>,
}

impl<'a> Model for ValueMap<'a> {
    ghost use Rattle.std.specs.Prelude.{List};
    ghost use Rattle.np_frac.specs.Fractions.{Fraction};
    ghost use Rattle.np_model.specs.declared.task.Term.{Term};
    ghost use Rattle.np_model.specs.Maps.{HasValues};

    ghost Value = { List (Term × Fraction) };

    ghost view = { λ m. m.values.now };

    ghost invariant = { λ m. HasValues m.map m.values.now };
}

impl<'a> ValueMap<'a> {
    /// The map of the values of a list. Where it gives a term several, the first one counts. Out of memory is an error.
    pub fn new(alloc: Global, values: &'a [(Term, Frac)]) -> Result<ValueMap<'a>, AllocError>
        ensures { IfOk result (λ map. map ≡ values.now) }
    {
        let mut map = IndexMap::with_capacity(alloc, values.len())?;
        for number in (0..values.len()).rev() {
            let value = &values[number];
            map.insert(&value.0, value)?;
        }
        Ok(ValueMap { values, map })
    }

    /// The value of a term; None where it has none.
    pub fn get(&self, term: &Term) -> Option<Frac>
        ensures { result ≡ value_among self.now term.now }
    {
        match self.map.get(&term) {
            Some(value) => Some(value.1),
            None => None,
        }
    }
}
