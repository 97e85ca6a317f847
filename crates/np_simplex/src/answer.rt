//! What is read off at the end of a run.
ghost use Rattle.std.specs.Prelude.{◌≡◌, ℕ, true, ◌≤◌, ◌<◌, ◌+◌, ◌^◌, ◌==◌, IfOk, OnErr, IsErrOf, map, length, get_or};
ghost use Rattle.std.specs.List.{position};
ghost use Rattle.np_frac.specs.Fractions.{minus};
ghost use Rattle.np_frac.specs.Sizes.{are_wide, Rose};
ghost use Rattle.np_simplex.specs.Tableau.{nought, at, basic_amount, best_weights, IsShaped, IsSized};
ghost use Rattle.np_simplex.specs.Packed.{stored_number, slot_counts, slot_ray_number, slot_ray_weights};
ghost use Rattle.np_simplex.specs.Views.{line, tableau};
ghost use Rattle.np_simplex.specs.Widths.{HasWideTop, HasWideLine};

use crate::fault::Halt;
use crate::pivot::{Row, Table};
use np_frac::{Arith, Refused, Scalar};
use std::alloc::Global;

/// The line in which a column is basic.
fn basic_place<N>(rows: &[Row<N>], column: usize) -> Option<usize>
    ensures { result ≡ position (λ row. row.basic == column) rows.now }
{
    rows.iter().position(|row| row.basic == column)
}

/// The last number of the line in which a column is basic, or 0.
fn weight<N: Scalar>(rows: &[Row<N>], column: usize, last: usize) -> N
    requires { IsShaped (last + 1) (map (line N.value) rows.now) }
    ensures { N.value result ≡ basic_amount (λ row. at row.numbers last) (map (line N.value) rows.now) column }
{
    match basic_place(rows, column) {
        None => N::zero(),
        Some(place) => rows[place].numbers[last],
    }
}

/// The weights at a best end.
pub fn best_weights<N: Scalar>(alloc: Global, table: &Table<N>, rows: usize) -> Result<Vec<N>, Halt>
    requires { IsSized (length table.now.columns.items + 1) (tableau N.value table.now) }
    ensures value { IfOk result (λ made. map N.value made.items ≡ best_weights rows (length table.now.columns.items) (tableau N.value table.now)) }
    ensures kind { IsErrOf result Halt.Wide → ⊥ }
{
    let mut made = Vec::new(alloc);
    for k in 0..rows {
        made.push(weight(table.rows.as_slice(), k, table.columns.len()))?;
    }
    Ok(made)
}

/// 0 less a number.
fn negated<A: Arith>(arith: &mut A, x: &A::N) -> Result<A::N, Refused>
    ensures value { IfOk result (λ z. A.N.value z ≡ minus nought (A.N.value x.now)) }
    ensures same { A.sure arith.new ≡ A.sure arith.old }
    ensures later { A.refused arith.old ≤ A.refused arith.new }
    ensures counted { OnErr result (Rose (A.refused arith.old) (A.refused arith.new)) }
    ensures only { A.sure arith.old ≡ true → OnErr result (are_wide nought (A.N.value x.now) ≡ true) }
{
    arith.sub(&A::N::zero(), x)
}

/// The slot that holds a column.
fn slot_of(columns: &[usize], column: usize) -> Option<usize>
    ensures { result ≡ position (λ c. c == column) columns.now }
{
    columns.iter().position(|c| *c == column)
}

/// 0 less the number in a column, or 0 where it isn't stored.
fn count<A: Arith>(
    arith: &mut A,
    columns: &[usize],
    top: &[A::N],
    column: usize,
) -> Result<A::N, Refused>
    requires { length columns.now < length top.now }
    ensures value { IfOk result (λ z. A.N.value z ≡ minus nought (stored_number columns.now (map A.N.value top.now) column)) }
    ensures same { A.sure arith.new ≡ A.sure arith.old }
    ensures later { A.refused arith.old ≤ A.refused arith.new }
    ensures counted { OnErr result (Rose (A.refused arith.old) (A.refused arith.new)) }
    ensures only { A.sure arith.old ≡ true → OnErr result (HasWideTop (map A.N.value top.now)) }
{
    match slot_of(columns, column) {
        None => Ok(A::N::zero()),
        Some(slot) => negated(arith, &top[slot]),
    }
}

/// The counts at a best end: 0 less the top numbers in the steps' columns.
pub fn best_counts<A: Arith>(
    alloc: Global,
    arith: &mut A,
    table: &Table<A::N>,
    rows: usize,
    columns: usize,
) -> Result<Vec<A::N>, Halt>
    requires sized { IsSized (length table.now.columns.items + 1) (tableau A.N.value table.now) }
    requires fits { rows + columns < 2 ^ 64 }
    ensures value { IfOk result (λ made. map A.N.value made.items ≡ slot_counts rows columns table.now.columns.items (tableau A.N.value table.now)) }
    ensures same { A.sure arith.new ≡ A.sure arith.old }
    ensures later { A.refused arith.old ≤ A.refused arith.new }
    ensures counted { IsErrOf result Halt.Wide → Rose (A.refused arith.old) (A.refused arith.new) }
    ensures only { A.sure arith.old ≡ true → IsErrOf result Halt.Wide → HasWideTop (tableau A.N.value table.now).top }
{
    let mut made = Vec::new(alloc);
    for k in 0..columns {
        made.push(count(
            arith,
            table.columns.as_slice(),
            table.top.as_slice(),
            rows + k,
        )?)?;
    }
    Ok(made)
}

/// The negated number in the entering slot of the line in which a column is basic, or 0.
fn slope<A: Arith>(
    arith: &mut A,
    rows: &[Row<A::N>],
    column: usize,
    last: usize,
    slot: usize,
) -> Result<A::N, Refused>
    requires shaped { IsShaped (last + 1) (map (line A.N.value) rows.now) }
    requires within { slot < last }
    ensures value { IfOk result (λ x. A.N.value x ≡ basic_amount (λ row. minus nought (at row.numbers slot)) (map (line A.N.value) rows.now) column) }
    ensures same { A.sure arith.new ≡ A.sure arith.old }
    ensures later { A.refused arith.old ≤ A.refused arith.new }
    ensures counted { OnErr result (Rose (A.refused arith.old) (A.refused arith.new)) }
    ensures only { A.sure arith.old ≡ true → OnErr result (HasWideLine (map (line A.N.value) rows.now)) }
{
    match basic_place(rows, column) {
        None => Ok(A::N::zero()),
        Some(place) => negated(arith, &rows[place].numbers[slot]),
    }
}

/// A column's weight at a ray.
fn ray_weight<A: Arith>(
    arith: &mut A,
    table: &Table<A::N>,
    column: usize,
    slot: usize,
) -> Result<A::N, Refused>
    requires sized { IsSized (length table.now.columns.items + 1) (tableau A.N.value table.now) }
    requires within { slot < length table.now.columns.items }
    ensures value { IfOk result (λ x. A.N.value x ≡
        slot_ray_number (get_or table.now.columns.items slot 0) slot (tableau A.N.value table.now).lines column) }
    ensures same { A.sure arith.new ≡ A.sure arith.old }
    ensures later { A.refused arith.old ≤ A.refused arith.new }
    ensures counted { OnErr result (Rose (A.refused arith.old) (A.refused arith.new)) }
    ensures only { A.sure arith.old ≡ true → OnErr result (HasWideLine (tableau A.N.value table.now).lines) }
{
    if column == table.columns[slot] {
        Ok(A::N::one())
    } else {
        slope(
            arith,
            table.rows.as_slice(),
            column,
            table.columns.len(),
            slot,
        )
    }
}

/// The weights at a ray.
pub fn ray_weights<A: Arith>(
    alloc: Global,
    arith: &mut A,
    table: &Table<A::N>,
    rows: usize,
    slot: usize,
) -> Result<Vec<A::N>, Halt>
    requires sized { IsSized (length table.now.columns.items + 1) (tableau A.N.value table.now) }
    requires within { slot < length table.now.columns.items }
    ensures value { IfOk result (λ made. map A.N.value made.items ≡
        slot_ray_weights rows (get_or table.now.columns.items slot 0) slot (tableau A.N.value table.now)) }
    ensures same { A.sure arith.new ≡ A.sure arith.old }
    ensures later { A.refused arith.old ≤ A.refused arith.new }
    ensures counted { IsErrOf result Halt.Wide → Rose (A.refused arith.old) (A.refused arith.new) }
    ensures only { A.sure arith.old ≡ true → IsErrOf result Halt.Wide → HasWideLine (tableau A.N.value table.now).lines }
{
    let mut made = Vec::new(alloc);
    for k in 0..rows {
        made.push(ray_weight(arith, table, k, slot)?)?;
    }
    Ok(made)
}
