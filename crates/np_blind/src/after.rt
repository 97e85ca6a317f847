//! The state after a step.
ghost use Rattle.std.specs.Prelude.{◌≡◌, ◌<◌, length, All, IfOk, true, false};
ghost use Rattle.np_frac.specs.Fractions.{whole};
ghost use Rattle.np_state.specs.States.{value_of};
ghost use Rattle.np_flat.specs.declared.limits.TheConstants.{CHANGE_SIZE};
ghost use Rattle.np_flat.specs.Flats.{AreWithinLimit, AreAmounts};
ghost use Rattle.np_flat.specs.States.{all_changed, state_after};
ghost use Rattle.np_blind.specs.Readings.{read, state_with};
ghost use Rattle.np_blind.specs.Bits.{IsSet, AreFactsAfter};

use np_flat::FlatStep;
use np_state::{BitRow, State};
use std::alloc::{AllocError, Global};

/// Changes the bits at these places, and no others.
pub(crate) fn set_all(bits: &mut BitRow, places: &[u32], on: bool)
    requires { All (λ p. p < length bits.old) places.now }
    ensures { IsSet on places.now bits.old bits.new }
{
    for place in places {
        bits.set(*place as usize, on);
    }
}

/// The facts after a step.
fn facts_after(alloc: Global, step: &FlatStep, facts: &BitRow) -> Result<BitRow, AllocError>
    requires adds { All (λ p. p < length facts.now) step.now.adds }
    requires deletes { All (λ p. p < length facts.now) step.now.deletes }
    ensures { IfOk result (AreFactsAfter step.now facts.now) }
{
    let mut after = facts.copy(alloc)?;
    set_all(&mut after, step.deletes.as_slice(), false);
    set_all(&mut after, step.adds.as_slice(), true);
    Ok(after)
}

/// Adds all changes.
fn add_changes(cells: &mut [i128], changes: &[(u32, i128)])
    requires changes { AreAmounts (length cells.old) CHANGE_SIZE changes.now }
    requires within { AreWithinLimit cells.old }
    ensures { cells.new ≡ all_changed changes.now cells.old }
{
    for (number, change) in changes {
        cells[*number as usize] += *change;
    }
}

/// The cells after a step.
fn cells_after(alloc: Global, step: &FlatStep, cells: &[i128]) -> Result<Vec<i128>, AllocError>
    requires changes { AreAmounts (length cells.now) CHANGE_SIZE step.now.changes }
    requires within { AreWithinLimit cells.now }
    ensures { IfOk result (λ after. after.items ≡ all_changed step.now.changes cells.now) }
{
    let mut after = Vec::from_slice(alloc, cells)?;
    add_changes(after.as_mut_slice(), step.changes.as_slice());
    Ok(after)
}

/// The state after a step, whether or not the step is applicable.
pub(crate) fn after(
    alloc: Global,
    step: &FlatStep,
    state: &State<i128>,
) -> Result<State<i128>, AllocError>
    requires adds { All (λ p. p < length state.now.facts) step.now.adds }
    requires deletes { All (λ p. p < length state.now.facts) step.now.deletes }
    requires changes { AreAmounts (length state.now.cells.items) CHANGE_SIZE step.now.changes }
    requires within { AreWithinLimit state.now.cells.items }
    ensures { IfOk result (λ after. value_of whole after ≡ state_with (length state.now.facts) (state_after step.now (read state.now))) }
{
    let facts = facts_after(alloc, step, &state.facts)?;
    let cells = cells_after(alloc, step, state.cells.as_slice())?;
    Ok(State { facts, cells })
}
