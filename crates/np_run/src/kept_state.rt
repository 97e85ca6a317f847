//! A state that is kept and changed in place.
ghost use Rattle.std.specs.Prelude.{◌≡◌, ◌++◌, [], map, pos, None, Some, IfOk, OnOk, if◌then◌else◌};
ghost use Rattle.std.specs.List.{flat_map, list_any};
ghost use Rattle.std.specs.Option.{option_or, option_copied, option_map_or};
ghost use Rattle.indexmap.specs.IndexMap as maps;
ghost use Rattle.indexmap.specs.IndexSet as sets;
ghost use Rattle.np_frac.specs.Fractions.{whole};
ghost use Rattle.np_model.specs.declared.task.Atom.{Atom};
ghost use Rattle.np_model.specs.declared.task.Term.{Term};
ghost use Rattle.np_model.specs.Ground.{same_atom, same_term};
ghost use Rattle.np_model.specs.States.{is_among, value_among};
ghost use Rattle.np_model.specs.Values.{terms_of};
ghost use Rattle.np_model.specs.Plans.{start_of};
ghost use Rattle.np_run.specs.Changing.{grown};
ghost use Rattle.np_run.specs.Kept.{kept};
ghost use Rattle.np_run.specs.ChangeSteps.{without_atom, with_atom};
ghost use Rattle.np_run.specs.CodeAnswers.{GivesNew};

use crate::computing::added;
use crate::halt::{Halt, Lack};
use indexmap::{IndexMap, IndexSet};
use np_frac::{Frac, Scalar};
use np_model::{Atom, Sum, TaskParts, Term, term_of};
use sqlite_items::Items;
use std::alloc::{AllocError, Global};

/// The true atoms, and the terms that have values. A look-up or a change takes no walk.
#[derive(Drop)]
pub(crate) struct KeptState {
    atoms: IndexSet<Atom>,
    values: IndexMap<Term, Frac>,
}

/// A set of these atoms.
fn atom_set(alloc: Global, atoms: &[Atom]) -> Result<IndexSet<Atom>, AllocError>
    ensures { IfOk result (λ set. (a : Atom) → sets.contains same_atom set a ≡ is_among atoms.now a) }
{
    let mut set = IndexSet::with_capacity(alloc, atoms.len())?;
    for atom in atoms {
        set.insert(atom.copy(alloc)?)?;
    }
    Ok(set)
}

/// A map of these values. Where a term has several, the first one counts.
fn value_map(alloc: Global, values: &[(Term, Frac)]) -> Result<IndexMap<Term, Frac>, AllocError>
    ensures { IfOk result (λ map. (t : Term) → maps.get same_term map t ≡ value_among values.now t) }
{
    let mut map = IndexMap::with_capacity(alloc, values.len())?;
    for number in (0..values.len()).rev() {
        let value = &values[number];
        map.insert(value.0.copy(alloc)?, value.1)?;
    }
    Ok(map)
}

/// The ground terms that an expression without parameters reads, after others.
#[cycle(terms)]
fn terms_after(alloc: Global, sum: &Sum, before: Items<Term>) -> Result<Items<Term>, AllocError>
    ensures { IfOk result (λ all. all ≡ before ++ terms_of sum.now) }
{
    match sum {
        Sum::Number(_) => Ok(before),
        Sum::Value(function, refs) => {
            let mut all = before;
            all.push(term_of(alloc, &[], *function, refs.as_slice())?)?;
            Ok(all)
        }
        Sum::Minus(x) => terms_after(alloc, x.get(), before),
        Sum::Sub(x, y) => {
            let all = terms_after(alloc, x.get(), before)?;
            terms_after(alloc, y.get(), all)
        }
        Sum::Div(x, y) => {
            let all = terms_after(alloc, x.get(), before)?;
            terms_after(alloc, y.get(), all)
        }
        Sum::Add(parts) => terms_of_parts(alloc, parts.as_slice(), before),
        Sum::Mul(parts) => terms_of_parts(alloc, parts.as_slice(), before),
    }
}

/// The ground terms that expressions without parameters read, after others.
#[cycle(terms)]
fn terms_of_parts(
    alloc: Global,
    parts: &[Sum],
    before: Items<Term>,
) -> Result<Items<Term>, AllocError>
    ensures { IfOk result (λ all. all ≡ before ++ flat_map (λ x. x) (map terms_of parts.now)) }
{
    let mut all = before;
    for part in parts {
        all = terms_after(alloc, part, all)?;
    }
    Ok(all)
}

/// Gives a term the value 0, unless it has one.
fn give_zero(map: &mut IndexMap<Term, Frac>, term: Term) -> Result<(), AllocError>
    ensures { OnOk result ((t : Term) → maps.get same_term map.new t
        ≡ option_or (maps.get same_term map.old t) (if same_term t term then Some (whole (pos 0)) else None)) }
{
    if map.get(&term).is_none() {
        map.insert(term, Frac::zero())?;
    }
    Ok(())
}

/// Gives each of these terms the value 0, unless it has one.
fn give_zeros(
    alloc: Global,
    map: &mut IndexMap<Term, Frac>,
    terms: &[Term],
) -> Result<(), AllocError>
    ensures { OnOk result ((t : Term) → maps.get same_term map.new t
        ≡ option_or (maps.get same_term map.old t) (if list_any (same_term t) terms.now then Some (whole (pos 0)) else None)) }
{
    for term in terms {
        give_zero(map, term.copy(alloc)?)?;
    }
    Ok(())
}

/// The terms that the metric reads.
fn metric_terms(alloc: Global, metric: Option<&Sum>) -> Result<Items<Term>, AllocError>
    ensures { IfOk result (λ terms. terms ≡ option_map_or terms_of (option_copied metric.entry) []) }
{
    match metric {
        Some(metric) => terms_after(alloc, metric, Items::new(alloc)),
        None => Ok(Items::new(alloc)),
    }
}

impl KeptState {
    /// The start of a task. Out of memory is an error.
    pub(crate) fn start(alloc: Global, task: &TaskParts) -> Result<KeptState, AllocError>
        ensures { IfOk result (λ state. kept state ≡ start_of task.now) }
    {
        let atoms = atom_set(alloc, task.atoms.as_slice())?;
        let mut values = value_map(alloc, task.values.as_slice())?;
        let terms = metric_terms(alloc, task.metric.as_ref())?;
        give_zeros(alloc, &mut values, terms.as_slice())?;
        Ok(KeptState { atoms, values })
    }

    /// Whether an atom is true.
    pub(crate) fn has(&self, atom: &Atom) -> bool
        ensures { result ≡ (kept self.now).has atom.now }
    {
        self.atoms.contains(atom)
    }

    /// The value of a term; None where it has none.
    pub(crate) fn value(&self, term: &Term) -> Option<Frac>
        ensures { result ≡ (kept self.now).value term.now }
    {
        self.values.get(term).copied()
    }

    /// Makes an atom false.
    pub(crate) fn delete(&mut self, atom: &Atom)
        ensures { kept self.new ≡ without_atom (kept self.old) atom.now }
    {
        let _ = self.atoms.swap_remove(atom);
    }

    /// Makes an atom true. Out of memory is an error.
    pub(crate) fn add(&mut self, atom: Atom) -> Result<(), AllocError>
        ensures { OnOk result (kept self.new ≡ with_atom (kept self.old) atom) }
    {
        self.atoms.insert(atom)?;
        Ok(())
    }

    /// Adds a number to the value of a term, which has to have one.
    pub(crate) fn grow(&mut self, term: &Term, by: &Frac) -> Result<(), Halt<Lack>>
        ensures { GivesNew result (kept self.new) (grown (kept self.old) term.now by.now) }
    {
        let Some(place) = self.values.get_mut(term) else {
            return Err(Halt::Cause(Lack::Missing));
        };
        *place = added(place, by)?;
        Ok(())
    }
}
