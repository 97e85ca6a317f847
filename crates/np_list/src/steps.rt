//! The lines of steps.
ghost use Rattle.std.specs.Prelude.{◌≡◌, ◌++◌, string_bytes, OnOk};
ghost use Rattle.std.specs.List.{enumerate_from, flat_map};
ghost use Rattle.np_list.specs.ListText.{change_text, changes_text, lists_text, step_line};

use crate::names::push_step;
use crate::numbers::{push_line_start, push_numbers_after, push_spaced_number, push_value};
use np_flat::FlatStep;
use np_model::TaskParts;
use std::alloc::AllocError;

/// Adds a line for each step, by number.
pub fn push_steps(text: &mut String, task: &TaskParts, steps: &[FlatStep]) -> Result<(), AllocError>
    ensures { OnOk result (string_bytes text.new ≡ string_bytes text.old ++ flat_map (λ p. step_line task.now p.0 p.1) (enumerate_from 0 steps.now)) }
{
    for (number, step) in steps.iter().enumerate() {
        push_step_line(text, task, number, step)?;
    }
    Ok(())
}

/// Adds the line of the step of this number.
fn push_step_line(
    text: &mut String,
    task: &TaskParts,
    number: usize,
    step: &FlatStep,
) -> Result<(), AllocError>
    ensures { OnOk result (string_bytes text.new ≡ string_bytes text.old ++ step_line task.now number step.now) }
{
    push_line_start(text, "step", number)?;
    push_step(text, task, &step.step)?;
    text.push_str(" cost")?;
    push_spaced_number(text, step.cost)?;
    push_lists(text, step)?;
    text.push_str("\n")?;
    Ok(())
}

/// Adds what a step needs and does.
fn push_lists(text: &mut String, step: &FlatStep) -> Result<(), AllocError>
    ensures { OnOk result (string_bytes text.new ≡ string_bytes text.old ++ lists_text step.now) }
{
    push_numbers_after(text, " needs", step.needs.as_slice())?;
    push_numbers_after(text, " adds", step.adds.as_slice())?;
    push_numbers_after(text, " deletes", step.deletes.as_slice())?;
    push_changes(text, step.changes.as_slice())
}

/// Adds the changes of a step.
fn push_changes(text: &mut String, changes: &[(u32, i128)]) -> Result<(), AllocError>
    ensures { OnOk result (string_bytes text.new ≡ string_bytes text.old ++ changes_text changes.now) }
{
    text.push_str(" changes")?;
    push_each_change(text, changes)
}

/// Adds changes, each after a space.
fn push_each_change(text: &mut String, changes: &[(u32, i128)]) -> Result<(), AllocError>
    ensures { OnOk result (string_bytes text.new ≡ string_bytes text.old ++ flat_map change_text changes.now) }
{
    for change in changes {
        push_change(text, *change)?;
    }
    Ok(())
}

/// Adds a change, after a space.
fn push_change(text: &mut String, change: (u32, i128)) -> Result<(), AllocError>
    ensures { OnOk result (string_bytes text.new ≡ string_bytes text.old ++ change_text change) }
{
    push_spaced_number(text, u64::from(change.0))?;
    text.push_str(":")?;
    push_value(text, change.1)
}
