//! What a step makes of a state.
ghost use Rattle.std.specs.Prelude.{◌≡◌, length, not, filter, IfOk, OnOk};
ghost use Rattle.np_flat.specs.declared.limits.TheConstants.{CHANGE_SIZE};
ghost use Rattle.np_flat.specs.Flats.{IsAscending, AreWithinLimit, AreAmounts};
ghost use Rattle.np_flat.specs.States.{has, facts_after, all_changed, state_after};

use crate::numbers::{has, put_all};
use crate::parts::FlatStep;
use crate::state::FlatState;
use sqlite_items::Items;
use std::alloc::{AllocError, Global};

/// Leaves the state after a step in `after`, whether or not the step is applicable. Its memory is used again. After an error
/// nothing is said of it.
pub fn leave_after(
    alloc: Global,
    step: &FlatStep,
    state: &FlatState,
    after: &mut FlatState,
) -> Result<(), AllocError>
    requires facts { IsAscending state.now.facts }
    requires deletes { IsAscending step.now.deletes }
    requires changes { AreAmounts (length state.now.values) CHANGE_SIZE step.now.changes }
    requires within { AreWithinLimit state.now.values }
    ensures { OnOk result (after.new ≡ state_after step.now state.now) }
{
    leave_facts(alloc, step, state.facts.as_slice(), &mut after.facts)?;
    copy_values(alloc, state.values.as_slice(), &mut after.values)?;
    make_changes(&mut after.values, step.changes.as_slice());
    Ok(())
}

/// Leaves the facts after a step in `after`. They stay where they are there already, and the step names none.
fn leave_facts(
    alloc: Global,
    step: &FlatStep,
    facts: &[u32],
    after: &mut Items<u32>,
) -> Result<(), AllocError>
    requires facts { IsAscending facts.now }
    requires deletes { IsAscending step.now.deletes }
    ensures { OnOk result (after.new ≡ facts_after step.now facts.now) }
{
    if step.adds.is_empty() && step.deletes.is_empty() && after.as_slice() == facts {
        return Ok(());
    }
    *after = facts_after(alloc, step, facts)?;
    Ok(())
}

/// The facts after a step: those that it doesn't delete, and those that it adds.
fn facts_after(alloc: Global, step: &FlatStep, facts: &[u32]) -> Result<Items<u32>, AllocError>
    requires facts { IsAscending facts.now }
    requires deletes { IsAscending step.now.deletes }
    ensures { IfOk result (λ after. after ≡ facts_after step.now facts.now) }
{
    let mut after = without(alloc, facts, step.deletes.as_slice())?;
    put_all(&mut after, step.adds.as_slice())?;
    Ok(Items::from_vec(after))
}

/// The facts that aren't deleted.
fn without(alloc: Global, facts: &[u32], deletes: &[u32]) -> Result<Vec<u32>, AllocError>
    requires { IsAscending deletes.now }
    ensures { IfOk result (λ kept. kept.items ≡ filter (λ p. not (has deletes.now p)) facts.now) }
{
    facts
        .iter()
        .filter(|fact| !has(deletes, **fact))
        .copied()
        .collect(alloc)
}

/// Leaves a copy of the values. Memory is taken only where there were fewer or more values before.
fn copy_values(alloc: Global, values: &[i128], copy: &mut Items<i128>) -> Result<(), AllocError>
    ensures { OnOk result (copy.new ≡ values.now) }
{
    if copy.len() == values.len() {
        overwrite(copy, values);
    } else {
        *copy = Items::from_slice(alloc, values)?;
    }
    Ok(())
}

/// Writes these values over as many others.
fn overwrite(values: &mut Items<i128>, others: &[i128])
    requires { length values.old ≡ length others.now }
    ensures { values.new ≡ others.now }
{
    for (number, value) in others.iter().enumerate() {
        values.set(number, *value);
    }
}

/// Adds all changes.
fn make_changes(values: &mut Items<i128>, changes: &[(u32, i128)])
    requires changes { AreAmounts (length values.old) CHANGE_SIZE changes.now }
    requires within { AreWithinLimit values.old }
    ensures { values.new ≡ all_changed changes.now values.old }
{
    for (number, change) in changes {
        let number = *number as usize;
        let value = values.as_slice()[number];
        values.set(number, value + *change);
    }
}
