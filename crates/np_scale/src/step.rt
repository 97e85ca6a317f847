//! The steps of a flat task.
ghost use Rattle.std.specs.Prelude.{◌≡◌, ◌<◌, true, not, filter, unsigned_abs, All, IfOk, OnOk};
ghost use Rattle.std.specs.Int.{◌∣◌};
ghost use Rattle.std.specs.List.{list_any};
ghost use Rattle.np_model.specs.Ground.{same_term};
ghost use Rattle.np_model.specs.States.{is_among};
ghost use Rattle.np_flat.specs.Flats.{IsAscending};
ghost use Rattle.np_flat.specs.States.{put_all};
ghost use Rattle.np_flat.specs.declared.limits.TheConstants.{CHANGE_SIZE};
ghost use Rattle.np_linear.specs.Answers.{and_then};
ghost use Rattle.np_scale.specs.Answers.{Answers};
ghost use Rattle.np_scale.specs.Limits.{checked_cost, checked_step, checked_steps};
ghost use Rattle.np_scale.specs.Code.{AnswersInto, IsStepOf, AreStepsOf, AreMultiples, is_small_change, with_amount, checked_amounts, IsReady, fact_of, facts_in};

use crate::fault::ScaleFault;
use crate::numbering::Facts;
use crate::place::put_in_place;
use crate::reading::{Tables, copy_spot, subgoal_numbers};
use crate::subgoal::Subgoals;
use crate::whole::scaled;
use np_bind::{BoundStep, Spot};
use np_flat::{COST_SIZE, FlatStep, put_in};
use np_frac::Frac;
use np_model::{Atom, AtomSet, Term};
use sqlite_items::Items;
use std::alloc::{AllocError, Global};

/// The flat steps of bound steps; new subgoals come after the known ones. A fault is the first in order; after it nothing is said of
/// the subgoals.
pub fn flat_steps(
    alloc: Global,
    tables: &Tables<'_>,
    steps: &[BoundStep],
    subgoals: &mut Subgoals,
) -> Result<Items<FlatStep>, ScaleFault>
    requires unit { tables.now.unit < CHANGE_SIZE }
    requires steps { All (IsReady tables.now.values tables.now.unit) steps.now }
    ensures known { AnswersInto result subgoals.new (checked_steps tables.now.facts tables.now.values tables.now.unit subgoals.old steps.now) }
    ensures steps { IfOk result (AreStepsOf tables.now.facts tables.now.values tables.now.unit subgoals.new steps.now) }
{
    let mut flat = Items::new(alloc);
    for step in steps {
        flat.push(flat_step(alloc, tables, step, subgoals)?)?;
    }
    Ok(flat)
}

/// The flat step of a bound step, or its first fault: its conditions in order, then its changes, then its cost.
fn flat_step(
    alloc: Global,
    tables: &Tables<'_>,
    step: &BoundStep,
    subgoals: &mut Subgoals,
) -> Result<FlatStep, ScaleFault>
    requires unit { tables.now.unit < CHANGE_SIZE }
    requires step { IsReady tables.now.values tables.now.unit step.now }
    ensures known { AnswersInto result subgoals.new (checked_step tables.now.facts tables.now.values tables.now.unit subgoals.old step.now) }
    ensures step { IfOk result (IsStepOf tables.now.facts tables.now.values tables.now.unit subgoals.new step.now) }
{
    let spot = Spot::Step(step.step.copy(alloc)?);
    let needs = subgoal_numbers(alloc, &spot, tables, step.needs.as_slice(), subgoals)?;
    let changes = scaled_changes(alloc, tables, step)?;
    let cost = whole_cost(alloc, step)?;
    let adds = fact_numbers(alloc, &tables.facts, step.adds.as_slice())?;
    let deletes = deleted_numbers(
        alloc,
        &tables.facts,
        step.adds.as_slice(),
        step.deletes.as_slice(),
    )?;
    Ok(FlatStep {
        step: step.step.copy(alloc)?,
        needs,
        adds,
        deletes,
        changes,
        cost,
    })
}

/// The numbers of those atoms that are facts, ascending. Out of memory is an error.
pub fn fact_numbers(
    alloc: Global,
    facts: &Facts<'_>,
    atoms: &[Atom],
) -> Result<Items<u32>, AllocError>
    ensures { IfOk result (λ numbers. numbers ≡ facts_in facts.now atoms.now) }
{
    let mut numbers = Vec::with_capacity(alloc, atoms.len())?;
    for atom in atoms {
        put_fact(facts, atom, &mut numbers)?;
    }
    Ok(Items::from_vec(numbers))
}

/// The numbers of those atoms that are facts and aren't added, ascending. Out of memory is an error.
fn deleted_numbers(
    alloc: Global,
    facts: &Facts<'_>,
    adds: &[Atom],
    deletes: &[Atom],
) -> Result<Items<u32>, AllocError>
    ensures { IfOk result (λ numbers. numbers ≡ facts_in facts.now (filter (λ a. not (is_among adds.now a)) deletes.now)) }
{
    let added = AtomSet::new(alloc, adds)?;
    let mut numbers = Vec::with_capacity(alloc, deletes.len())?;
    for atom in deletes {
        if !added.has(atom) {
            put_fact(facts, atom, &mut numbers)?;
        }
    }
    Ok(Items::from_vec(numbers))
}

/// Puts the number of an atom in its place, where it's a fact.
fn put_fact(facts: &Facts<'_>, atom: &Atom, numbers: &mut Vec<u32>) -> Result<(), AllocError>
    requires { IsAscending numbers.old.items }
    ensures put { OnOk result (numbers.new.items ≡ put_all (fact_of facts.now atom.now) numbers.old.items) }
    ensures ascending { OnOk result (IsAscending numbers.new.items) }
{
    if let Some(number) = facts.find(atom) {
        put_in(numbers, number)?;
    }
    Ok(())
}

/// The scaled net changes of a step on the values, by number, without those that are 0; `NumberWide` where one is past its limit.
fn scaled_changes(
    alloc: Global,
    tables: &Tables<'_>,
    step: &BoundStep,
) -> Result<Items<(u32, i128)>, ScaleFault>
    requires unit { tables.now.unit < CHANGE_SIZE }
    requires positive { 0 < tables.now.unit }
    requires changes { AreMultiples tables.now.values tables.now.unit step.now.changes }
    ensures { Answers result (checked_amounts tables.now.values tables.now.unit step.now) }
{
    let mut changes = Vec::with_capacity(alloc, step.changes.len())?;
    for place in (0..step.changes.len()).rev() {
        let (term, change) = &step.changes.as_slice()[place];
        if !put_change(tables, term, change, &mut changes)? {
            return Err(ScaleFault::NumberWide(Spot::Step(step.step.copy(alloc)?)));
        }
    }
    Ok(Items::from_vec(changes))
}

/// Puts the scaled change on a term in its place, where the term is a value and the change isn't 0; false where it is past its limit.
fn put_change(
    tables: &Tables<'_>,
    term: &Term,
    change: &Frac,
    changes: &mut Vec<(u32, i128)>,
) -> Result<bool, AllocError>
    requires unit { tables.now.unit < CHANGE_SIZE }
    requires positive { 0 < tables.now.unit }
    requires multiple { list_any (same_term term.now) tables.now.values ≡ true → change.now.den ∣ tables.now.unit }
    ensures small { IfOk result (λ small. small ≡ is_small_change tables.now.values tables.now.unit (term.now, change.now)) }
    ensures put { IfOk result (λ small. small ≡ true → changes.new.items ≡ with_amount tables.now.values tables.now.unit (term.now, change.now) changes.old.items) }
{
    if change.num() == 0 {
        return Ok(true);
    }
    let Some(number) = tables.values.find(term) else {
        return Ok(true);
    };
    let Some(amount) = scaled(tables.unit, change) else {
        return Ok(false);
    };
    put_in_place(changes, number, amount)?;
    Ok(true)
}

/// The cost of a step; `CostNegative`, `CostNotWhole` or `CostWide` where it is below 0, or else not whole, or else past its limit.
fn whole_cost(alloc: Global, step: &BoundStep) -> Result<u64, ScaleFault>
    ensures { Answers result (and_then (checked_cost step.now) (λ _. Ok (unsigned_abs step.now.cost.num))) }
{
    let whole = step.cost.num();
    if whole < 0 {
        return Err(ScaleFault::CostNegative(step.step.copy(alloc)?));
    }
    if step.cost.den() != 1 {
        return Err(ScaleFault::CostNotWhole(step.step.copy(alloc)?));
    }
    if whole.unsigned_abs() >= COST_SIZE as u128 {
        return Err(ScaleFault::CostWide(step.step.copy(alloc)?));
    }
    Ok(whole as u64)
}
