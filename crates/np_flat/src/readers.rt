//! Which subgoals read each fact and each value.
ghost use Rattle.std.specs.Prelude.{◌≡◌, ◌<◌, ◌==◌, ◌++◌, [], length, All, IfOk, OnOk};
ghost use Rattle.std.specs.List.{list_any, flat_map};
ghost use Rattle.np_flat.specs.Flats.{IsFlat};
ghost use Rattle.np_flat.specs.Readers.{reads_fact, reads_value, ReadsFactBelow, ReadsValuesBelow, rows, row, touched, IsNoted, AreReaders, IsIndex};

use crate::parts::{FlatStep, Parts, Subgoal};
use std::alloc::{AllocError, Global};

/// By fact and by value, the numbers of the subgoals that read it.
#[derive(Debug, Drop)]
pub struct Readers {
    /// Those that are the fact or its negation: at most one entry for each such subgoal.
    pub by_fact: Vec<Vec<u32>>,
    /// Those that are a form with a term of the value: one entry for each term.
    pub by_value: Vec<Vec<u32>>,
}

impl Readers {
    /// The readers of the facts and values of a flat task. Out of memory is an error.
    pub fn new(alloc: Global, parts: &Parts) -> Result<Readers, AllocError>
        requires { IsFlat parts.now }
        ensures { IfOk result (IsIndex parts.now) }
    {
        let by_fact = fact_readers(alloc, parts)?;
        let by_value = value_readers(alloc, parts)?;
        Ok(Readers { by_fact, by_value })
    }

    /// Puts what reads a fact that the step adds or deletes, or a value that it changes, at the end of the numbers. A number
    /// may come more than once. Out of memory is an error, and then nothing is said of the numbers.
    pub fn put_touched(&self, step: &FlatStep, numbers: &mut Vec<u32>) -> Result<(), AllocError>
        requires adds { All (λ p. p < length (rows self.now.by_fact.items)) step.now.adds }
        requires deletes { All (λ p. p < length (rows self.now.by_fact.items)) step.now.deletes }
        requires changes { All (λ c. c.0 < length (rows self.now.by_value.items)) step.now.changes }
        requires empty { numbers.old.items ≡ [] }
        ensures { OnOk result (numbers.new.items ≡ touched self.now step.now) }
    {
        put_rows(&self.by_fact, step.adds.as_slice(), numbers)?;
        put_rows(&self.by_fact, step.deletes.as_slice(), numbers)?;
        put_changed_rows(&self.by_value, step.changes.as_slice(), numbers)
    }
}

/// Puts the rows of these numbers at the end.
fn put_rows(table: &[Vec<u32>], places: &[u32], numbers: &mut Vec<u32>) -> Result<(), AllocError>
    requires { All (λ p. p < length (rows table.now)) places.now }
    ensures { OnOk result (numbers.new.items ≡ numbers.old.items ++ flat_map (row (rows table.now)) places.now) }
{
    for place in places {
        put_row(table, *place as usize, numbers)?;
    }
    Ok(())
}

/// Puts the rows of the numbers of these changes at the end.
fn put_changed_rows(
    table: &[Vec<u32>],
    changes: &[(u32, i128)],
    numbers: &mut Vec<u32>,
) -> Result<(), AllocError>
    requires { All (λ c. c.0 < length (rows table.now)) changes.now }
    ensures { OnOk result (numbers.new.items ≡ numbers.old.items ++ flat_map (λ c. row (rows table.now) c.0) changes.now) }
{
    for (value, _) in changes {
        put_row(table, *value as usize, numbers)?;
    }
    Ok(())
}

/// The row of this number.
pub fn row_of(table: &[Vec<u32>], place: usize) -> &[u32]
    requires { place < length (rows table.now) }
    ensures { result.now ≡ row (rows table.now) place }
{
    table[place].as_slice()
}

/// Puts the row of this number at the end.
fn put_row(table: &[Vec<u32>], place: usize, numbers: &mut Vec<u32>) -> Result<(), AllocError>
    requires { place < length (rows table.now) }
    ensures { OnOk result (numbers.new.items ≡ numbers.old.items ++ row (rows table.now) place) }
{
    numbers.extend_from_slice(table[place].as_slice())
}

/// By fact, the subgoals that read it.
fn fact_readers(alloc: Global, parts: &Parts) -> Result<Vec<Vec<u32>>, AllocError>
    requires { IsFlat parts.now }
    ensures { IfOk result (λ table. AreReaders reads_fact (length parts.now.facts) parts.now.subgoals (rows table.items)) }
{
    let mut table = empty_rows(alloc, parts.facts.len())?;
    for (number, subgoal) in parts.subgoals.as_slice().iter().enumerate() {
        note_fact(&mut table, subgoal, number as u32)?;
    }
    Ok(table)
}

/// By value, the subgoals that read it.
fn value_readers(alloc: Global, parts: &Parts) -> Result<Vec<Vec<u32>>, AllocError>
    requires { IsFlat parts.now }
    ensures { IfOk result (λ table. AreReaders reads_value (length parts.now.values) parts.now.subgoals (rows table.items)) }
{
    let mut table = empty_rows(alloc, parts.values.len())?;
    for (number, subgoal) in parts.subgoals.as_slice().iter().enumerate() {
        note_value(&mut table, subgoal, number as u32)?;
    }
    Ok(table)
}

/// So many empty rows.
fn empty_rows(alloc: Global, count: usize) -> Result<Vec<Vec<u32>>, AllocError>
    ensures count { IfOk result (λ table. length (rows table.items) ≡ count) }
    ensures empty { IfOk result (λ table. All (λ r. r ≡ []) (rows table.items)) }
{
    let mut table = Vec::new(alloc);
    for _ in 0..count {
        table.push(Vec::new(alloc))?;
    }
    Ok(table)
}

/// Notes a number in the row of the fact that the subgoal reads, if any.
fn note_fact(table: &mut Vec<Vec<u32>>, subgoal: &Subgoal, number: u32) -> Result<(), AllocError>
    requires { ReadsFactBelow (length (rows table.old.items)) subgoal.now }
    ensures { OnOk result (IsNoted (λ p. reads_fact p subgoal.now) number (rows table.old.items) (rows table.new.items)) }
{
    match subgoal {
        Subgoal::Fact(fact) => note(table, *fact as usize, number),
        Subgoal::NotFact(fact) => note(table, *fact as usize, number),
        Subgoal::Form(_) => Ok(()),
    }
}

/// Notes a number in the rows of the values that the subgoal reads.
fn note_value(table: &mut Vec<Vec<u32>>, subgoal: &Subgoal, number: u32) -> Result<(), AllocError>
    requires { ReadsValuesBelow (length (rows table.old.items)) subgoal.now }
    ensures { OnOk result (IsNoted (λ v. reads_value v subgoal.now) number (rows table.old.items) (rows table.new.items)) }
{
    match subgoal {
        Subgoal::Form(form) => note_terms(table, form.terms.as_slice(), number),
        _ => Ok(()),
    }
}

/// Notes a number in the row of the value of each term.
fn note_terms(
    table: &mut Vec<Vec<u32>>,
    terms: &[(u32, i128)],
    number: u32,
) -> Result<(), AllocError>
    requires { All (λ t. t.0 < length (rows table.old.items)) terms.now }
    ensures { OnOk result (IsNoted (λ v. list_any (λ t. t.0 == v) terms.now) number (rows table.old.items) (rows table.new.items)) }
{
    for (value, _) in terms {
        note(table, *value as usize, number)?;
    }
    Ok(())
}

/// Notes a number at the end of the row of this place.
fn note(table: &mut Vec<Vec<u32>>, place: usize, number: u32) -> Result<(), AllocError>
    requires { place < length (rows table.old.items) }
    ensures { OnOk result (IsNoted (λ p. place == p) number (rows table.old.items) (rows table.new.items)) }
{
    table[place].push(number)?;
    Ok(())
}
