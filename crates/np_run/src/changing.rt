//! What a step changes.
ghost use Rattle.std.specs.Prelude.{◌≡◌, [], OnOk};
ghost use Rattle.np_run.specs.Kept.{kept};
ghost use Rattle.np_run.specs.Changing.{sum_so_far, summed, with_amount, with_change, with_effect, sums_from, computed_sums, all_grown, with_atoms_after, computed_result};
ghost use Rattle.np_run.specs.ChangeSteps.{deleted, all_deleted, atoms_added, all_added};
ghost use Rattle.np_run.specs.CodeAnswers.{Gives, GivesNew};

use crate::computing::{added, all_hold, found, subtracted, value_of};
use crate::halt::{Halt, Lack};
use crate::kept_state::KeptState;
use indexmap::IndexMap;
use np_frac::{Frac, Scalar};
use np_model::{Action, Eff, Ref, Sum, Term, atom_of, term_of};
use std::alloc::{AllocError, Global};
use std::marker::Model;

/// The sums of a step's amounts, by the terms whose values they change. Contracts see a list.
#[derive(Drop)]
pub(crate) struct Sums {
    map: IndexMap<Term, Frac>,
}

impl Model for Sums {
    ghost use Rattle.std.specs.Prelude.{List};
    ghost use Rattle.np_frac.specs.Fractions.{Fraction};
    ghost use Rattle.np_model.specs.declared.task.Term.{Term};

    ghost Value = { List (Term × Fraction) };

    ghost view = { λ s. s.map.entries };
}

/// A sum with one more amount, which is subtracted where the flag is false.
fn summed(up: bool, sum: &Frac, amount: &Frac) -> Result<Frac, Halt<Lack>>
    ensures { Gives result (summed up sum.now amount.now) }
{
    if up {
        added(sum, amount)
    } else {
        subtracted(sum, amount)
    }
}

impl Sums {
    /// No sums.
    fn new(alloc: Global) -> Sums
        ensures { result ≡ [] }
    {
        Sums {
            map: IndexMap::new(alloc),
        }
    }

    /// The sum of a term so far.
    fn so_far(&self, term: &Term) -> Frac
        ensures { result ≡ sum_so_far self.now term.now }
    {
        self.map.get(term).copied().unwrap_or(Frac::zero())
    }

    /// Takes an amount into its term's sum.
    fn take_in(&mut self, up: bool, term: Term, amount: &Frac) -> Result<(), Halt<Lack>>
        ensures { GivesNew result self.new (with_amount self.old up term amount.now) }
    {
        let sum = summed(up, &self.so_far(&term), amount)?;
        self.map.insert(term, sum)?;
        Ok(())
    }
}

/// Takes a change into its term's sum.
fn take_change(
    alloc: Global,
    objects: &[u32],
    state: &KeptState,
    sums: &mut Sums,
    up: bool,
    term: Term,
    amount: &Sum,
) -> Result<(), Halt<Lack>>
    ensures { GivesNew result sums.new (with_change objects.now (kept state.now) sums.old up term amount.now) }
{
    let _old = found(state.value(&term))?;
    let amount = value_of(alloc, objects, state, amount)?;
    sums.take_in(up, term, &amount)
}

/// Takes an effect into the sums.
fn take_effect(
    alloc: Global,
    objects: &[u32],
    state: &KeptState,
    sums: &mut Sums,
    effect: &Eff,
) -> Result<(), Halt<Lack>>
    ensures { GivesNew result sums.new (with_effect objects.now (kept state.now) sums.old effect.now) }
{
    match effect {
        Eff::Add(_, _) => Ok(()),
        Eff::Delete(_, _) => Ok(()),
        Eff::Change(up, function, refs, amount) => {
            let term = term_of(alloc, objects, *function, refs.as_slice())?;
            take_change(alloc, objects, state, sums, *up, term, amount)
        }
    }
}

/// The sums of the amounts of effects.
fn sums_of(
    alloc: Global,
    objects: &[u32],
    state: &KeptState,
    effects: &[Eff],
) -> Result<Sums, Halt<Lack>>
    ensures { Gives result (sums_from objects.now (kept state.now) [] effects.now) }
{
    let mut sums = Sums::new(alloc);
    for effect in effects {
        take_effect(alloc, objects, state, &mut sums, effect)?;
    }
    Ok(sums)
}

/// The sums of an action's amounts, where its conditions hold.
pub(crate) fn sums_where_applicable(
    alloc: Global,
    action: &Action,
    objects: &[u32],
    state: &KeptState,
) -> Result<Sums, Halt<Lack>>
    ensures { Gives result (computed_sums action.now objects.now (kept state.now)) }
{
    if !all_hold(alloc, objects, state, action.needs.as_slice())? {
        return Err(Halt::Cause(Lack::Missing));
    }
    sums_of(alloc, objects, state, action.effects.as_slice())
}

/// Takes out what an effect deletes.
fn delete(
    alloc: Global,
    objects: &[u32],
    state: &mut KeptState,
    effect: &Eff,
) -> Result<(), AllocError>
    ensures { OnOk result (kept state.new ≡ deleted objects.now (kept state.old) effect.now) }
{
    match effect {
        Eff::Add(_, _) => Ok(()),
        Eff::Change(_, _, _, _) => Ok(()),
        Eff::Delete(predicate, refs) => {
            let atom = atom_of(alloc, objects, *predicate, refs.as_slice())?;
            state.delete(&atom);
            Ok(())
        }
    }
}

/// Takes out what effects delete.
fn delete_all(
    alloc: Global,
    objects: &[u32],
    state: &mut KeptState,
    effects: &[Eff],
) -> Result<(), AllocError>
    ensures { OnOk result (kept state.new ≡ all_deleted objects.now (kept state.old) effects.now) }
{
    for effect in effects {
        delete(alloc, objects, state, effect)?;
    }
    Ok(())
}

/// Puts in what an effect adds.
fn add(
    alloc: Global,
    objects: &[u32],
    state: &mut KeptState,
    effect: &Eff,
) -> Result<(), AllocError>
    ensures { OnOk result (kept state.new ≡ atoms_added objects.now (kept state.old) effect.now) }
{
    match effect {
        Eff::Delete(_, _) => Ok(()),
        Eff::Change(_, _, _, _) => Ok(()),
        Eff::Add(predicate, refs) => {
            let atom = atom_of(alloc, objects, *predicate, refs.as_slice())?;
            state.add(atom)
        }
    }
}

/// Puts in what effects add.
fn add_all(
    alloc: Global,
    objects: &[u32],
    state: &mut KeptState,
    effects: &[Eff],
) -> Result<(), AllocError>
    ensures { OnOk result (kept state.new ≡ all_added objects.now (kept state.old) effects.now) }
{
    for effect in effects {
        add(alloc, objects, state, effect)?;
    }
    Ok(())
}

/// Changes the atoms: the deleted ones go, then the added ones come.
fn change_atoms(
    alloc: Global,
    action: &Action,
    objects: &[u32],
    state: &mut KeptState,
) -> Result<(), AllocError>
    ensures { OnOk result (kept state.new ≡ with_atoms_after action.now objects.now (kept state.old)) }
{
    delete_all(alloc, objects, state, action.effects.as_slice())?;
    add_all(alloc, objects, state, action.effects.as_slice())
}

/// Adds each sum to its term's value.
fn change_values(state: &mut KeptState, sums: &Sums) -> Result<(), Halt<Lack>>
    ensures { GivesNew result (kept state.new) (all_grown (kept state.old) sums.now) }
{
    for number in 0..sums.map.len() {
        let Some((term, sum)) = sums.map.get_index(number) else {
            return Ok(());
        };
        state.grow(term, sum)?;
    }
    Ok(())
}

/// Changes a state as a step of the action with these sums does.
pub(crate) fn change(
    alloc: Global,
    action: &Action,
    objects: &[u32],
    state: &mut KeptState,
    sums: &Sums,
) -> Result<(), Halt<Lack>>
    ensures { GivesNew result (kept state.new) (computed_result action.now objects.now (kept state.old) sums.now) }
{
    change_atoms(alloc, action, objects, state)?;
    change_values(state, sums)
}
