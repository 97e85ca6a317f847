//! Atoms and terms by number.
ghost use Rattle.std.specs.Prelude.{◌≡◌, map, IfOk, OnOk};
ghost use Rattle.std.specs.List.{flat_map};
ghost use Rattle.np_model.specs.Ground.{same_atom, same_term};
ghost use Rattle.np_flat.specs.declared.limits.TheConstants.{MOST_FACTS, MOST_VALUES};
ghost use Rattle.np_scale.specs.declared.fault.ScaleFault.TheVariants.{TooManyFacts, TooManyValues};
ghost use Rattle.np_scale.specs.Answers.{Answers};
ghost use Rattle.np_scale.specs.Tables.{each_once, number_of, atoms_in, terms_in, conditions_of, facts_of, values_of};
ghost use Rattle.np_scale.specs.Code.{few, pointed, place_of};

use crate::fault::ScaleFault;
use indexmap::IndexSet;
use np_bind::{BoundCond, BoundParts};
use np_flat::{MOST_FACTS, MOST_VALUES};
use np_frac::Frac;
use np_model::{Atom, Term};
use sqlite_items::Items;
use std::alloc::{AllocError, Global};
use std::marker::Model;

/// The facts of a flat task: the atoms that conditions read, each with its number. Contracts see their list.
#[derive(Drop)]
pub struct Facts<'a> {
    set: IndexSet<&'a Atom>,
}

impl<'a> Model for Facts<'a> {
    ghost use Rattle.std.specs.Prelude.{List, length, ◌≤◌};
    ghost use Rattle.np_model.specs.declared.task.Atom.{Atom};
    ghost use Rattle.np_flat.specs.declared.limits.TheConstants.{MOST_FACTS};
    ghost use Rattle.np_scale.specs.Code.{pointed};

    ghost Value = { List Atom };

    ghost view = { λ f. pointed f.set.keys };

    ghost invariant = { λ f. length f.set.keys ≤ MOST_FACTS };
}

impl<'a> Facts<'a> {
    /// The facts of a bound task. `TooManyFacts` exactly where there are more than `MOST_FACTS`; else only `Memory` comes.
    pub fn new(alloc: Global, bound: &'a BoundParts) -> Result<Facts<'a>, ScaleFault>
        ensures { Answers result (few MOST_FACTS TooManyFacts (facts_of bound.now)) }
    {
        let mut set = IndexSet::new(alloc);
        for step in bound.steps.as_slice() {
            put_atoms(&mut set, step.needs.as_slice())?;
        }
        put_atoms(&mut set, bound.goal.as_slice())?;
        if set.len() > MOST_FACTS {
            return Err(ScaleFault::TooManyFacts);
        }
        Ok(Facts { set })
    }

    /// The number of an atom, where it's a fact.
    pub fn find(&self, atom: &Atom) -> Option<u32>
        ensures { result ≡ place_of same_atom self.now atom.now }
    {
        match self.set.get_index_of(&atom) {
            Some(number) => Some(number as u32),
            None => None,
        }
    }

    /// The number of an atom; the number of facts where it isn't one.
    pub fn number(&self, atom: &Atom) -> u32
        ensures { result ≡ number_of same_atom self.now atom.now }
    {
        match self.set.get_index_of(&atom) {
            Some(number) => number as u32,
            None => self.set.len() as u32,
        }
    }

    /// A copy of the facts. Out of memory is an error.
    pub fn copy(&self, alloc: Global) -> Result<Items<Atom>, AllocError>
        ensures { IfOk result (λ facts. facts ≡ self.now) }
    {
        let mut facts = Items::new(alloc);
        for atom in self.set.as_slice() {
            facts.push(atom.copy(alloc)?)?;
        }
        Ok(facts)
    }
}

/// The values of a flat task: the terms that comparisons read, each with its number. Contracts see their list.
#[derive(Drop)]
pub struct Values<'a> {
    set: IndexSet<&'a Term>,
}

impl<'a> Model for Values<'a> {
    ghost use Rattle.std.specs.Prelude.{List, length, ◌≤◌};
    ghost use Rattle.np_model.specs.declared.task.Term.{Term};
    ghost use Rattle.np_flat.specs.declared.limits.TheConstants.{MOST_VALUES};
    ghost use Rattle.np_scale.specs.Code.{pointed};

    ghost Value = { List Term };

    ghost view = { λ v. pointed v.set.keys };

    ghost invariant = { λ v. length v.set.keys ≤ MOST_VALUES };
}

impl<'a> Values<'a> {
    /// The values of a bound task. `TooManyValues` exactly where there are more than `MOST_VALUES`; else only `Memory` comes.
    pub fn new(alloc: Global, bound: &'a BoundParts) -> Result<Values<'a>, ScaleFault>
        ensures { Answers result (few MOST_VALUES TooManyValues (values_of bound.now)) }
    {
        let mut set = IndexSet::new(alloc);
        for step in bound.steps.as_slice() {
            put_terms(&mut set, step.needs.as_slice())?;
        }
        put_terms(&mut set, bound.goal.as_slice())?;
        if set.len() > MOST_VALUES {
            return Err(ScaleFault::TooManyValues);
        }
        Ok(Values { set })
    }

    /// The number of a term, where it's a value.
    pub fn find(&self, term: &Term) -> Option<u32>
        ensures { result ≡ place_of same_term self.now term.now }
    {
        match self.set.get_index_of(&term) {
            Some(number) => Some(number as u32),
            None => None,
        }
    }

    /// The number of a term; the number of values where it isn't one.
    pub fn number(&self, term: &Term) -> u32
        ensures { result ≡ number_of same_term self.now term.now }
    {
        match self.set.get_index_of(&term) {
            Some(number) => number as u32,
            None => self.set.len() as u32,
        }
    }

    /// The values in order.
    pub fn as_slice(&self) -> &[&'a Term]
        ensures { pointed result.now ≡ self.now }
    {
        self.set.as_slice()
    }

    /// A copy of the values. Out of memory is an error.
    pub fn copy(&self, alloc: Global) -> Result<Items<Term>, AllocError>
        ensures { IfOk result (λ values. values ≡ self.now) }
    {
        let mut values = Items::new(alloc);
        for term in self.set.as_slice() {
            values.push(term.copy(alloc)?)?;
        }
        Ok(values)
    }
}

/// Puts the atoms of conditions after those of the set, each once.
fn put_atoms<'a>(
    set: &mut IndexSet<&'a Atom>,
    conditions: &'a [BoundCond],
) -> Result<(), AllocError>
    ensures { OnOk result (pointed set.new.keys ≡ each_once same_atom (pointed set.old.keys) (flat_map atoms_in conditions.now)) }
{
    for condition in conditions {
        put_atom(set, condition)?;
    }
    Ok(())
}

/// Puts the atom of a condition, if it has one, after those of the set, unless it's among them.
fn put_atom<'a>(set: &mut IndexSet<&'a Atom>, condition: &'a BoundCond) -> Result<(), AllocError>
    ensures { OnOk result (pointed set.new.keys ≡ each_once same_atom (pointed set.old.keys) (atoms_in condition.now)) }
{
    if let BoundCond::Atom(_, atom) = condition {
        set.insert(atom)?;
    }
    Ok(())
}

/// Puts the terms of conditions after those of the set, each once.
fn put_terms<'a>(
    set: &mut IndexSet<&'a Term>,
    conditions: &'a [BoundCond],
) -> Result<(), AllocError>
    ensures { OnOk result (pointed set.new.keys ≡ each_once same_term (pointed set.old.keys) (flat_map terms_in conditions.now)) }
{
    for condition in conditions {
        put_compared(set, condition)?;
    }
    Ok(())
}

/// Puts the terms of a condition after those of the set, each once.
fn put_compared<'a>(
    set: &mut IndexSet<&'a Term>,
    condition: &'a BoundCond,
) -> Result<(), AllocError>
    ensures { OnOk result (pointed set.new.keys ≡ each_once same_term (pointed set.old.keys) (terms_in condition.now)) }
{
    match condition {
        BoundCond::Compare(_, sum) => put_sum(set, sum.terms.as_slice()),
        _ => Ok(()),
    }
}

/// Puts the terms of a linear sum after those of the set, each once.
fn put_sum<'a>(set: &mut IndexSet<&'a Term>, terms: &'a [(Term, Frac)]) -> Result<(), AllocError>
    ensures { OnOk result (pointed set.new.keys ≡ each_once same_term (pointed set.old.keys) (map (λ t. t.0) terms.now)) }
{
    for (term, _) in terms {
        set.insert(term)?;
    }
    Ok(())
}
