//! The steps of a flat task by a fact that they need.
ghost use Rattle.std.specs.Prelude.{◌≡◌, ℕ, ◌<◌, ◌+◌, ◌==◌, [], length, All, IfOk, OnOk};
ghost use Rattle.np_flat.specs.Flats.{IsFlat, IsStep};
ghost use Rattle.np_flat.specs.Readers.{rows, row, IsNoted};
ghost use Rattle.np_check.specs.Watched.{IsPlaceOf, AreFiled};

use np_flat::{Flat, FlatStep, Parts, Subgoal};
use std::alloc::{AllocError, Global};
use std::marker::Model;

/// A flat task with its steps filed: each under a fact that it needs to be true, or after all facts where it needs none. Only
/// steps under the facts of a state, and those after all, can be applicable there. Contracts see the task's parts.
#[derive(Drop)]
pub struct Watched<'a> {
    flat: &'a Flat,
    table: Vec<Vec<u32>>,
}

impl<'a> Model for Watched<'a> {
    ghost use Rattle.std.specs.Prelude.{length};
    ghost use Rattle.np_flat.specs.Readers.{rows};
    ghost use Rattle.np_flat.specs.declared.parts.Parts.{Parts};
    ghost use Rattle.np_check.specs.Watched.{AreFiled};

    ghost Value = { Parts };

    ghost view = { λ w. w.flat.now };

    ghost invariant = { λ w. AreFiled w.flat.now (length w.flat.now.steps) (rows w.table.items) };
}

impl<'a> Watched<'a> {
    /// The task with its steps filed. Out of memory is an error.
    pub fn new(alloc: Global, flat: &'a Flat) -> Result<Watched<'a>, AllocError>
        ensures { IfOk result (λ w. w ≡ flat.now) }
    {
        let table = filed(alloc, flat.parts())?;
        Ok(Watched { flat, table })
    }

    /// The task.
    pub fn task(&self) -> &'a Flat
        ensures { result.now ≡ self.now }
    {
        self.flat
    }

    /// All rows: one for each fact, and the last one for the steps that need no fact.
    pub fn rows(&self) -> &[Vec<u32>]
        ensures { AreFiled self.now (length self.now.steps) (rows result.now) }
    {
        self.table.as_slice()
    }
}

/// The row of this place; nothing where there is none.
pub fn row_at(table: &[Vec<u32>], place: usize) -> &[u32]
    ensures { result.now ≡ row (rows table.now) place }
{
    match table.get(place) {
        Some(row) => row.as_slice(),
        None => &[],
    }
}

/// The steps by a fact that they need.
fn filed(alloc: Global, parts: &Parts) -> Result<Vec<Vec<u32>>, AllocError>
    requires { IsFlat parts.now }
    ensures { IfOk result (λ table. AreFiled parts.now (length parts.now.steps) (rows table.items)) }
{
    let mut table = empty_rows(alloc, parts.facts.len() + 1)?;
    for (number, step) in parts.steps.as_slice().iter().enumerate() {
        note(&mut table, place_of(parts, step), number as u32)?;
    }
    Ok(table)
}

/// So many empty rows.
fn empty_rows(alloc: Global, count: usize) -> Result<Vec<Vec<u32>>, AllocError>
    ensures { IfOk result (λ table. length (rows table.items) ≡ count) }
{
    let mut table = Vec::new(alloc);
    for _ in 0..count {
        table.push(Vec::new(alloc))?;
    }
    Ok(table)
}

/// Notes a number at the end of the row of this place.
fn note(table: &mut Vec<Vec<u32>>, place: usize, number: u32) -> Result<(), AllocError>
    requires { place < length (rows table.old.items) }
    ensures { OnOk result (IsNoted (λ p. place == p) number (rows table.old.items) (rows table.new.items)) }
{
    table[place].push(number)?;
    Ok(())
}

/// The first fact that a step needs to be true, or how many facts there are.
fn place_of(parts: &Parts, step: &FlatStep) -> usize
    requires flat { IsFlat parts.now }
    requires step { IsStep (length parts.now.facts) (length parts.now.values) (length parts.now.subgoals) step.now }
    ensures own { IsPlaceOf parts.now step.now result }
    ensures within { result < length parts.now.facts + 1 }
{
    for need in step.needs.as_slice() {
        if let Subgoal::Fact(fact) = &parts.subgoals.as_slice()[*need as usize] {
            return *fact as usize;
        }
    }
    parts.facts.len()
}
