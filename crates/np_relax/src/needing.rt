//! Which steps need each subgoal.
ghost use Rattle.std.specs.Prelude.{◌≡◌, ◌<◌, ◌++◌, ◌∷◌, [], length, All, slice_set, IfOk, OnOk};
ghost use Rattle.np_flat.specs.Readers.{row, rows};
ghost use Rattle.np_relax.specs.Needing.{needs_of, filed, IsFiled, IsNeeding};

use np_flat::Flat;
use std::alloc::{AllocError, Global};

/// By subgoal of a flat task, the numbers of the steps that need it. It is made once per task.
#[derive(Debug, Drop)]
pub struct Needing {
    rows: Vec<Vec<u32>>,
}

impl Needing {
    /// The steps of this task by what they need: each step comes under each of its needs. Out of memory is an error.
    pub fn new(alloc: Global, flat: &Flat) -> Result<Needing, AllocError>
        ensures { IfOk result (IsNeeding flat.now) }
    {
        let mut rows = empty_rows(alloc, flat.parts().subgoals.len())?;
        let count = flat.parts().steps.len();
        for step in 0..count {
            file(&mut rows, needs(flat, step as u32), step as u32)?;
        }
        Ok(Needing { rows })
    }

    /// The steps that need the subgoal of this number; a step may come more than once, and others may come.
    pub fn of(&self, subgoal: u32) -> &[u32]
        requires { subgoal < length (rows self.now.rows.items) }
        ensures { result.now ≡ row (rows self.now.rows.items) subgoal }
    {
        self.rows[subgoal as usize].as_slice()
    }
}

/// What the step of this number needs.
pub(crate) fn needs(flat: &Flat, step: u32) -> &[u32]
    requires { step < length flat.now.steps }
    ensures needs { result.now ≡ needs_of flat.now step }
    ensures within { All (λ q. q < length flat.now.subgoals) result.now }
{
    flat.parts().steps.as_slice()[step as usize]
        .needs
        .as_slice()
}

/// So many empty rows.
fn empty_rows(alloc: Global, count: usize) -> Result<Vec<Vec<u32>>, AllocError>
    ensures count { IfOk result (λ table. length (rows table.items) ≡ count) }
    ensures empty { IfOk result (λ table. All (λ r. r ≡ []) (rows table.items)) }
{
    let mut table = Vec::new(alloc);
    for _ in 0..count {
        table.push(Vec::new(alloc))?;
    }
    Ok(table)
}

/// Puts the number at the end of each of these rows.
fn file(table: &mut Vec<Vec<u32>>, places: &[u32], number: u32) -> Result<(), AllocError>
    requires { All (λ q. q < length (rows table.old.items)) places.now }
    ensures { OnOk result (rows table.new.items ≡ filed places.now number (rows table.old.items)) }
{
    for place in places {
        put_at(table, *place as usize, number)?;
    }
    Ok(())
}

/// Puts the number at the end of the row of this place.
fn put_at(table: &mut Vec<Vec<u32>>, place: usize, number: u32) -> Result<(), AllocError>
    requires { place < length (rows table.old.items) }
    ensures { OnOk result (rows table.new.items ≡ slice_set (rows table.old.items) place (row (rows table.old.items) place ++ number ∷ [])) }
{
    table[place].push(number)?;
    Ok(())
}
