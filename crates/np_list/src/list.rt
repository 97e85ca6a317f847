//! The whole text of a flat task.
ghost use Rattle.std.specs.Prelude.{◌≡◌, ◌++◌, string_bytes, slice_get, IfOk, OnOk};
ghost use Rattle.np_flat.specs.Flats.{IsFlat};
ghost use Rattle.np_list.specs.ListText.{unit_line, truth_text, fact_line, facts_text, start_text, value_line, values_text, goal_line, list_text};

use crate::names::{push_atom, push_term};
use crate::numbers::{push_line_start, push_numbers_after, push_spaced_value};
use crate::steps::push_steps;
use crate::subgoals::push_subgoals;
use np_flat::{Flat, Parts};
use np_model::{Atom, TaskParts, Term};
use std::alloc::{AllocError, Global};

/// The text of the flat task of a task: a line each for the unit, the facts, the values, the subgoals, the steps and the goal,
/// each kind by number. A number that names nothing in the task prints nothing. Out of memory is an error.
pub fn list_text(alloc: Global, task: &TaskParts, flat: &Flat) -> Result<String, AllocError>
    ensures { IfOk result (λ text. string_bytes text ≡ list_text task.now flat.now) }
{
    let parts = flat.parts();
    let mut text = String::new(alloc);
    push_unit(&mut text, parts.unit)?;
    push_facts(&mut text, task, parts)?;
    push_values(&mut text, task, parts)?;
    push_subgoals(&mut text, parts.subgoals.as_slice())?;
    push_steps(&mut text, task, parts.steps.as_slice())?;
    push_goal(&mut text, parts.goal.as_slice())?;
    Ok(text)
}

/// Adds the line of the unit.
fn push_unit(text: &mut String, unit: i128) -> Result<(), AllocError>
    ensures { OnOk result (string_bytes text.new ≡ string_bytes text.old ++ unit_line unit) }
{
    text.push_str("unit")?;
    push_spaced_value(text, unit)?;
    text.push_str("\n")?;
    Ok(())
}

/// Adds a line for each fact, by number.
fn push_facts(text: &mut String, task: &TaskParts, parts: &Parts) -> Result<(), AllocError>
    requires { IsFlat parts.now }
    ensures { OnOk result (string_bytes text.new ≡ string_bytes text.old ++ facts_text task.now parts.now) }
{
    for (number, atom) in parts.facts.as_slice().iter().enumerate() {
        let holds = parts.start.has(number as u32);
        push_fact(text, task, number, atom, holds)?;
    }
    Ok(())
}

/// Adds the line of the fact of this number, which is true at the start or not.
fn push_fact(
    text: &mut String,
    task: &TaskParts,
    number: usize,
    atom: &Atom,
    holds: bool,
) -> Result<(), AllocError>
    ensures { OnOk result (string_bytes text.new ≡ string_bytes text.old ++ fact_line task.now holds number atom.now) }
{
    push_line_start(text, "fact", number)?;
    push_atom(text, task, atom)?;
    push_truth(text, holds)
}

/// Adds whether a fact is true.
fn push_truth(text: &mut String, holds: bool) -> Result<(), AllocError>
    ensures { OnOk result (string_bytes text.new ≡ string_bytes text.old ++ truth_text holds) }
{
    if holds {
        text.push_str(" true\n")
    } else {
        text.push_str(" false\n")
    }
}

/// The value of this number, where there is one.
fn value_of(values: &[i128], number: usize) -> Option<i128>
    ensures { result ≡ slice_get values.now number }
{
    values.get(number).copied()
}

/// Adds a line for each value, by number.
fn push_values(text: &mut String, task: &TaskParts, parts: &Parts) -> Result<(), AllocError>
    ensures { OnOk result (string_bytes text.new ≡ string_bytes text.old ++ values_text task.now parts.now) }
{
    let starts = parts.start.values.as_slice();
    for (number, term) in parts.values.as_slice().iter().enumerate() {
        push_value_line(text, task, number, term, value_of(starts, number))?;
    }
    Ok(())
}

/// Adds the line of the value of this number, with its start value.
fn push_value_line(
    text: &mut String,
    task: &TaskParts,
    number: usize,
    term: &Term,
    start: Option<i128>,
) -> Result<(), AllocError>
    ensures { OnOk result (string_bytes text.new ≡ string_bytes text.old ++ value_line task.now start number term.now) }
{
    push_line_start(text, "value", number)?;
    push_term(text, task, term)?;
    push_start(text, start)?;
    text.push_str("\n")?;
    Ok(())
}

/// Adds a start value after a space, where there is one.
fn push_start(text: &mut String, start: Option<i128>) -> Result<(), AllocError>
    ensures { OnOk result (string_bytes text.new ≡ string_bytes text.old ++ start_text start) }
{
    match start {
        Some(value) => push_spaced_value(text, value),
        None => Ok(()),
    }
}

/// Adds the line of the goal.
fn push_goal(text: &mut String, goal: &[u32]) -> Result<(), AllocError>
    ensures { OnOk result (string_bytes text.new ≡ string_bytes text.old ++ goal_line goal.now) }
{
    push_numbers_after(text, "goal", goal)?;
    text.push_str("\n")?;
    Ok(())
}
