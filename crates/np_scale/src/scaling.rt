//! The flat task of a bound task.
ghost use Rattle.std.specs.Prelude.{◌≡◌, ◌<◌, IfOk, IfErr};
ghost use Rattle.np_bind.specs.BoundTasks.{IsBound};
ghost use Rattle.np_flat.specs.declared.limits.TheConstants.{CHANGE_SIZE};
ghost use Rattle.np_scale.specs.Answers.{Answers, Refuses};
ghost use Rattle.np_scale.specs.Scaling.{scale_task};
ghost use Rattle.np_scale.specs.ScaledParts.{AreStarts, AreTablesOf, ArePartsReady, checked_values, checked_state, checked_parts};

use crate::fault::ScaleFault;
use crate::laws::flat_is_flat;
use crate::numbering::{Facts, Values};
use crate::reading::{Tables, subgoal_numbers};
use crate::step::{fact_numbers, flat_steps};
use crate::subgoal::Subgoals;
use crate::unit::{start_of, unit_of};
use crate::whole::scaled;
use np_bind::{BoundParts, BoundTask, Spot};
use np_flat::{Flat, FlatState, Parts};
use np_model::{Atom, ValueMap};
use sqlite_items::Items;
use std::alloc::Global;

/// The flat task of a bound task. A fault is the first in order: facts, values, the unit; the start values by number; each kept
/// step's conditions in order of text, its changes by number and its cost; the goal. Only `Memory` comes where none of these is.
pub fn scale(alloc: Global, bound: &BoundTask) -> Result<Flat, ScaleFault>
    ensures { Answers result (scale_task bound.now) }
{
    let parts = flat_parts(alloc, bound.parts())?;
    flat_is_flat();
    Ok(Flat::new(alloc, parts)?)
}

/// The parts of the flat task of a bound task, or the first fault.
fn flat_parts(alloc: Global, bound: &BoundParts) -> Result<Parts, ScaleFault>
    requires { IsBound bound.now }
    ensures { Answers result (scale_task bound.now) }
{
    let starts = ValueMap::new(alloc, bound.values.as_slice())?;
    let tables = tables_of(alloc, bound, &starts)?;
    let start = start_state(alloc, &tables, &starts, bound.atoms.as_slice())?;
    parts_from(alloc, &tables, start, bound)
}

/// The facts, the values and the unit of a bound task, or `TooManyFacts`, `TooManyValues` or `UnitWide`, in this order.
fn tables_of<'a>(
    alloc: Global,
    bound: &'a BoundParts,
    starts: &ValueMap<'_>,
) -> Result<Tables<'a>, ScaleFault>
    requires { starts.now ≡ bound.now.values }
    ensures tables { IfOk result (λ tables. AreTablesOf bound.now tables.facts tables.values tables.unit) }
    ensures fault { IfErr result (λ e. Refuses e (scale_task bound.now)) }
{
    let facts = Facts::new(alloc, bound)?;
    let values = Values::new(alloc, bound)?;
    let Some(unit) = unit_of(&values, starts, bound.steps.as_slice()) else {
        return Err(ScaleFault::UnitWide);
    };
    Ok(Tables {
        facts,
        values,
        unit,
    })
}

/// The start: the facts that are true, and the scaled start values; `NumberWide` at the first value that is past its limit.
fn start_state(
    alloc: Global,
    tables: &Tables<'_>,
    starts: &ValueMap<'_>,
    atoms: &[Atom],
) -> Result<FlatState, ScaleFault>
    requires unit { tables.now.unit < CHANGE_SIZE }
    requires positive { 0 < tables.now.unit }
    requires starts { AreStarts tables.now.values tables.now.unit starts.now }
    ensures { Answers result (checked_state tables.now.facts tables.now.values tables.now.unit starts.now atoms.now) }
{
    let values = scaled_starts(alloc, tables, starts)?;
    let facts = fact_numbers(alloc, &tables.facts, atoms)?;
    Ok(FlatState { facts, values })
}

/// The scaled start values, by number; `NumberWide` at the first one that is past its limit.
fn scaled_starts(
    alloc: Global,
    tables: &Tables<'_>,
    starts: &ValueMap<'_>,
) -> Result<Items<i128>, ScaleFault>
    requires unit { tables.now.unit < CHANGE_SIZE }
    requires positive { 0 < tables.now.unit }
    requires starts { AreStarts tables.now.values tables.now.unit starts.now }
    ensures { Answers result (checked_values tables.now.values tables.now.unit starts.now) }
{
    let mut values = Items::new(alloc);
    for term in tables.values.as_slice() {
        let Some(value) = scaled(tables.unit, &start_of(starts, term)) else {
            return Err(ScaleFault::NumberWide(Spot::Value(term.copy(alloc)?)));
        };
        values.push(value)?;
    }
    Ok(values)
}

/// The parts of the flat task with these tables and this start, or the first fault of steps and the goal.
fn parts_from(
    alloc: Global,
    tables: &Tables<'_>,
    start: FlatState,
    bound: &BoundParts,
) -> Result<Parts, ScaleFault>
    requires { ArePartsReady tables.now.values tables.now.unit bound.now }
    ensures { Answers result (checked_parts tables.now.facts tables.now.values tables.now.unit start bound.now) }
{
    let mut subgoals = Subgoals::new(alloc);
    let steps = flat_steps(alloc, tables, bound.steps.as_slice(), &mut subgoals)?;
    let goal = subgoal_numbers(
        alloc,
        &Spot::Goal,
        tables,
        bound.goal.as_slice(),
        &mut subgoals,
    )?;
    Ok(Parts {
        unit: tables.unit as i128,
        facts: tables.facts.copy(alloc)?,
        values: tables.values.copy(alloc)?,
        start,
        subgoals: subgoals.copy(alloc)?,
        steps,
        goal,
    })
}
