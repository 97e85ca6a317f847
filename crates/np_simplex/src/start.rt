//! The first tableau.
ghost use Rattle.std.specs.Prelude.{◌≡◌, ℕ, ℤ, true, ◌≤◌, ◌<◌, ◌+◌, ◌^◌, ◌++◌, IfOk, OnOk, IsErrOf, map, length, slice_index_or};
ghost use Rattle.std.specs.List.{range_with_len};
ghost use Rattle.np_frac.specs.Fractions.{whole};
ghost use Rattle.np_frac.specs.Sizes.{Rose};
ghost use Rattle.np_simplex.specs.Tableau.{nought, column};
ghost use Rattle.np_simplex.specs.Packed.{slot_line_of, slot_start};
ghost use Rattle.np_simplex.specs.Views.{line, tableau, rows_of};
ghost use Rattle.np_simplex.specs.Widths.{HasUnfit, HasUnfitIn, IsUnfitStep, IsUnfit};

use crate::fault::Halt;
use crate::pivot::{Row, Table};
use np_frac::{Arith, Scalar};
use std::alloc::Global;

/// A linear program in whole numbers: a count per column, none below 0, such that each row's coefficients times the counts add up
/// to at least its right side, at the least cost.
#[derive(Drop)]
pub struct Lp {
    /// The coefficients, by row; each row has as many as there are costs.
    pub rows: Vec<Vec<i128>>,
    /// What each row is to reach, in the units of its row.
    pub right: Vec<i128>,
    /// What one unit of each column costs.
    pub costs: Vec<u64>,
}

/// Appends whole numbers.
fn push_wholes<A: Arith>(
    arith: &mut A,
    values: &[i128],
    numbers: &mut Vec<A::N>,
) -> Result<(), Halt>
    ensures value { OnOk result (map A.N.value numbers.new.items ≡ map A.N.value numbers.old.items ++ map whole values.now) }
    ensures same { A.sure arith.new ≡ A.sure arith.old }
    ensures later { A.refused arith.old ≤ A.refused arith.new }
    ensures counted { IsErrOf result Halt.Wide → Rose (A.refused arith.old) (A.refused arith.new) }
    ensures only { A.sure arith.old ≡ true → IsErrOf result Halt.Wide → HasUnfit values.now }
{
    for value in values {
        numbers.push(arith.whole(*value)?)?;
    }
    Ok(())
}

/// Appends the rows' coefficients in a column.
fn push_column<A: Arith>(
    arith: &mut A,
    rows: &[Vec<i128>],
    step: usize,
    numbers: &mut Vec<A::N>,
) -> Result<(), Halt>
    requires { (k : ℕ) (d : _) → k < length rows.now → step < length (slice_index_or rows.now k d).items }
    ensures value { OnOk result (map A.N.value numbers.new.items ≡ map A.N.value numbers.old.items ++ column (rows_of rows.now) step) }
    ensures same { A.sure arith.new ≡ A.sure arith.old }
    ensures later { A.refused arith.old ≤ A.refused arith.new }
    ensures counted { IsErrOf result Halt.Wide → Rose (A.refused arith.old) (A.refused arith.new) }
    ensures only { A.sure arith.old ≡ true → IsErrOf result Halt.Wide → HasUnfitIn (rows_of rows.now) step }
{
    for row in rows {
        numbers.push(arith.whole(row[step])?)?;
    }
    Ok(())
}

/// Appends zeros.
pub fn push_zeros<N: Scalar>(numbers: &mut Vec<N>, count: usize) -> Result<(), Halt>
    ensures value { OnOk result (map N.value numbers.new.items ≡ map N.value numbers.old.items ++ map (λ k. nought) (range_with_len 0 count)) }
    ensures kind { IsErrOf result Halt.Wide → ⊥ }
{
    for k in 0..count {
        let _place = k;
        numbers.push(N::zero())?;
    }
    Ok(())
}

/// The places from 0 on.
fn places(alloc: Global, count: usize) -> Result<Vec<usize>, Halt>
    ensures value { IfOk result (λ made. made.items ≡ range_with_len 0 count) }
    ensures kind { IsErrOf result Halt.Wide → ⊥ }
{
    let mut made = Vec::new(alloc);
    for k in 0..count {
        made.push(k)?;
    }
    Ok(made)
}

/// The line of a step, without the columns that are basic at first.
fn step_row<A: Arith>(alloc: Global, arith: &mut A, lp: &Lp, step: usize) -> Result<Row<A::N>, Halt>
    requires wide { (k : ℕ) (d : _) → k < length lp.now.rows.items → step < length (slice_index_or lp.now.rows.items k d).items }
    requires step { step < length lp.now.costs.items }
    requires fits { length lp.now.rows.items + step < 2 ^ 64 }
    ensures value { IfOk result (λ row. line A.N.value row ≡ slot_line_of (rows_of lp.now.rows.items) lp.now.costs.items step) }
    ensures same { A.sure arith.new ≡ A.sure arith.old }
    ensures later { A.refused arith.old ≤ A.refused arith.new }
    ensures counted { IsErrOf result Halt.Wide → Rose (A.refused arith.old) (A.refused arith.new) }
    ensures only { A.sure arith.old ≡ true → IsErrOf result Halt.Wide → IsUnfitStep (rows_of lp.now.rows.items) lp.now.costs.items step }
{
    let mut numbers = Vec::new(alloc);
    push_column(arith, lp.rows.as_slice(), step, &mut numbers)?;
    numbers.push(arith.whole(lp.costs[step] as i128)?)?;
    Ok(Row {
        basic: lp.rows.len() + step,
        numbers,
    })
}

/// The first tableau, without the columns that are basic at first: the rows' columns are stored.
pub fn start<A: Arith>(alloc: Global, arith: &mut A, lp: &Lp) -> Result<Table<A::N>, Halt>
    requires wide { (k step : ℕ) (d : _) → k < length lp.now.rows.items → step < length lp.now.costs.items →
        step < length (slice_index_or lp.now.rows.items k d).items }
    requires fits { length lp.now.rows.items + length lp.now.costs.items < 2 ^ 64 }
    ensures value { IfOk result (λ table. tableau A.N.value table ≡ slot_start (rows_of lp.now.rows.items) lp.now.right.items lp.now.costs.items) }
    ensures columns { IfOk result (λ table. table.columns.items ≡ range_with_len 0 (length lp.now.rows.items)) }
    ensures same { A.sure arith.new ≡ A.sure arith.old }
    ensures later { A.refused arith.old ≤ A.refused arith.new }
    ensures counted { IsErrOf result Halt.Wide → Rose (A.refused arith.old) (A.refused arith.new) }
    ensures only { A.sure arith.old ≡ true → IsErrOf result Halt.Wide →
        IsUnfit (rows_of lp.now.rows.items) lp.now.right.items lp.now.costs.items }
{
    let columns = places(alloc, lp.rows.len())?;
    let mut top = Vec::new(alloc);
    push_wholes(arith, lp.right.as_slice(), &mut top)?;
    top.push(A::N::zero())?;
    let mut rows = Vec::new(alloc);
    for step in 0..lp.costs.len() {
        rows.push(step_row(alloc, arith, lp, step)?)?;
    }
    Ok(Table { columns, top, rows })
}
