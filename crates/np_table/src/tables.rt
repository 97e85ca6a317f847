//! The greatest table at a state.
ghost use Rattle.std.specs.Prelude.{◌≡◌, length, IfOk};
ghost use Rattle.np_flat.specs.Flats.{IsStateOf, AreSmall};
ghost use Rattle.np_relax.specs.Needing.{IsNeeding};
ghost use Rattle.np_table.specs.Tables.{IsGreatest, at};
ghost use Rattle.np_table.specs.Listed.{as_entry, entry_in, AreEntries};

use crate::listed::listed;
use crate::lower::entries;
use crate::units::units;
use np_flat::{Flat, FlatState};
use np_relax::{Needing, reach};
use np_space::Bound;
use np_state::BitRow;
use std::alloc::{AllocError, Global};

/// The entries above 0 of a table at a state, by ascending subgoal. All other subgoals have 0. `NoPlan` is none.
#[derive(Debug, Drop)]
pub struct TableAt {
    pub numbers: Vec<(u32, Bound)>,
}

/// The greatest table at the state, as the list of its entries above 0. By `tables_bound` a run that ends where a subgoal holds
/// costs at least its entry, and with none there is no such run. `needing` is made once per task. Out of memory is an error.
pub fn table(
    alloc: Global,
    flat: &Flat,
    needing: &Needing,
    state: &FlatState,
) -> Result<TableAt, AllocError>
    requires needing { IsNeeding flat.now needing.now }
    requires state { IsStateOf flat.now state.now }
    requires small { AreSmall state.now.values }
    ensures greatest { IfOk result (λ table. IsGreatest flat.now state.now (entry_in as_entry table.numbers.items)) }
    ensures entries { IfOk result (λ table. AreEntries (length flat.now.subgoals) table.numbers.items) }
{
    let entries = greatest(alloc, flat, needing, state)?;
    let numbers = listed(alloc, flat, entries.as_slice())?;
    Ok(TableAt { numbers })
}

/// The entries of the greatest table at the state, by subgoal: a number below 2^62, or none where no run from the state comes to
/// the subgoal even if what steps make false is forgotten. By `tables_bound` a run that ends where a subgoal holds costs at
/// least its entry. `needing` is made once per task. Out of memory is an error.
pub fn greatest(
    alloc: Global,
    flat: &Flat,
    needing: &Needing,
    state: &FlatState,
) -> Result<Vec<Option<u64>>, AllocError>
    requires needing { IsNeeding flat.now needing.now }
    requires state { IsStateOf flat.now state.now }
    requires small { AreSmall state.now.values }
    ensures greatest { IfOk result (λ entries. IsGreatest flat.now state.now (at entries.items)) }
    ensures count { IfOk result (λ entries. length entries.items ≡ length flat.now.subgoals) }
{
    let removed = BitRow::new(alloc, flat.parts().steps.len())?;
    let reached = reach(alloc, flat, needing, state, &removed)?;
    let can = reached.can.as_slice();
    let units = units(alloc, flat, state, can)?;
    entries(alloc, flat, needing, state, can, units.as_slice())
}
