//! Which column enters, and which line leaves.
ghost use Rattle.std.specs.Prelude.{◌≡◌, ℕ, true, ◌≤◌, ◌<◌, ◌+◌, IfOk, OnErr, map, length};
ghost use Rattle.np_frac.specs.Sizes.{Rose};
ghost use Rattle.np_simplex.specs.Tableau.{is_above, is_before, better, leaving, IsShaped, IsSized};
ghost use Rattle.np_simplex.specs.Packed.{earlier, entering_slot, slot_next};
ghost use Rattle.np_simplex.specs.Views.{line, tableau};
ghost use Rattle.np_simplex.specs.Widths.{is_wide_pair, IsWideQuotient, IsWideSlotTurn};

use crate::pivot::{Row, Table};
use np_frac::{Arith, Refused, Scalar};
use std::cmp::Ordering;

/// How a tableau goes on. Columns are told by the slots that hold them.
#[derive(Clone, Copy, Debug)]
pub enum Course {
    /// No column enters.
    Best,
    /// This column enters, and no line leaves.
    Ray(usize),
    /// This column enters, and this line leaves.
    Turn(usize, usize),
}

/// Where a run ends. A column is told by the slot that holds it.
#[derive(Clone, Copy, Debug)]
pub enum End {
    /// No column enters.
    Best,
    /// This column enters, and no line leaves.
    Ray(usize),
}

/// Whether it is above 0.
fn is_above<N: Scalar>(x: &N) -> bool
    ensures { result ≡ is_above (N.value x.now) }
{
    x.order(&N::zero()).is_gt()
}

/// The better of the slot that may enter so far and another one: its number on top is above 0, and its column is the lesser.
fn earlier<N: Scalar>(columns: &[usize], top: &[N], best: Option<usize>, k: usize) -> Option<usize>
    requires width { length columns.now < length top.now }
    requires slot { k < length columns.now }
    requires so_far { best ≡ entering_slot columns.now (map N.value top.now) k }
    ensures { result ≡ earlier columns.now (map N.value top.now) best k }
{
    if !is_above(&top[k]) {
        return best;
    }
    match best {
        None => Some(k),
        Some(b) => {
            if columns[k] < columns[b] {
                Some(k)
            } else {
                Some(b)
            }
        }
    }
}

/// The slot of the first column before the last one whose top number is above 0.
fn entering<N: Scalar>(columns: &[usize], top: &[N]) -> Option<usize>
    requires { length columns.now < length top.now }
    ensures { result ≡ entering_slot columns.now (map N.value top.now) (length columns.now) }
{
    let mut best = None;
    for k in 0..columns.len() {
        best = earlier(columns, top, best, k);
    }
    best
}

/// Whether the first line's quotient is less, or it is equal and its basic column is before the other's.
#[tactic(auto, unfolding(crate::specs::Widths::is_wide_pair))]
fn is_before<A: Arith>(
    arith: &mut A,
    a: &Row<A::N>,
    b: &Row<A::N>,
    last: usize,
    entering: usize,
) -> Result<bool, Refused>
    requires a_width { length a.now.numbers.items ≡ last + 1 }
    requires b_width { length b.now.numbers.items ≡ last + 1 }
    requires within { entering < last }
    ensures value { IfOk result (λ x. x ≡ is_before last entering (line A.N.value a.now) (line A.N.value b.now)) }
    ensures same { A.sure arith.new ≡ A.sure arith.old }
    ensures later { A.refused arith.old ≤ A.refused arith.new }
    ensures counted { OnErr result (Rose (A.refused arith.old) (A.refused arith.new)) }
    ensures only { A.sure arith.old ≡ true → OnErr result (is_wide_pair last entering (line A.N.value a.now) (line A.N.value b.now) ≡ true) }
{
    let left = arith.div(&a.numbers[last], &a.numbers[entering])?;
    let right = arith.div(&b.numbers[last], &b.numbers[entering])?;
    let order = left.order(&right);
    if order.is_eq() {
        Ok(a.basic < b.basic)
    } else {
        Ok(order.is_lt())
    }
}

/// The better of a line that may leave and the one at a place.
fn better<A: Arith>(
    arith: &mut A,
    rows: &[Row<A::N>],
    last: usize,
    entering: usize,
    best: Option<usize>,
    k: usize,
) -> Result<Option<usize>, Refused>
    requires shaped { IsShaped (last + 1) (map (line A.N.value) rows.now) }
    requires within { entering < last }
    requires place { k < length rows.now }
    requires so_far { best ≡ leaving last entering (map (line A.N.value) rows.now) k }
    ensures value { IfOk result (λ x. x ≡ better last entering (map (line A.N.value) rows.now) best k) }
    ensures same { A.sure arith.new ≡ A.sure arith.old }
    ensures later { A.refused arith.old ≤ A.refused arith.new }
    ensures counted { OnErr result (Rose (A.refused arith.old) (A.refused arith.new)) }
    ensures only { A.sure arith.old ≡ true → OnErr result (IsWideQuotient last entering (map (line A.N.value) rows.now)) }
{
    if !is_above(&rows[k].numbers[entering]) {
        return Ok(best);
    }
    match best {
        None => Ok(Some(k)),
        Some(b) => {
            if is_before(arith, &rows[k], &rows[b], last, entering)? {
                Ok(Some(k))
            } else {
                Ok(Some(b))
            }
        }
    }
}

/// The leaving line.
pub fn leaving<A: Arith>(
    arith: &mut A,
    rows: &[Row<A::N>],
    last: usize,
    entering: usize,
) -> Result<Option<usize>, Refused>
    requires shaped { IsShaped (last + 1) (map (line A.N.value) rows.now) }
    requires within { entering < last }
    ensures value { IfOk result (λ x. x ≡ leaving last entering (map (line A.N.value) rows.now) (length rows.now)) }
    ensures same { A.sure arith.new ≡ A.sure arith.old }
    ensures later { A.refused arith.old ≤ A.refused arith.new }
    ensures counted { OnErr result (Rose (A.refused arith.old) (A.refused arith.new)) }
    ensures only { A.sure arith.old ≡ true → OnErr result (IsWideQuotient last entering (map (line A.N.value) rows.now)) }
{
    let mut best = None;
    for k in 0..rows.len() {
        best = better(arith, rows, last, entering, best, k)?;
    }
    Ok(best)
}

/// How the tableau goes on, by slots.
pub fn next<A: Arith>(arith: &mut A, table: &Table<A::N>) -> Result<Course, Refused>
    requires { IsSized (length table.now.columns.items + 1) (tableau A.N.value table.now) }
    ensures value { IfOk result (λ x. x ≡ slot_next table.now.columns.items (tableau A.N.value table.now)) }
    ensures same { A.sure arith.new ≡ A.sure arith.old }
    ensures later { A.refused arith.old ≤ A.refused arith.new }
    ensures counted { OnErr result (Rose (A.refused arith.old) (A.refused arith.new)) }
    ensures only { A.sure arith.old ≡ true → OnErr result (IsWideSlotTurn table.now.columns.items (tableau A.N.value table.now)) }
{
    match entering(table.columns.as_slice(), table.top.as_slice()) {
        None => Ok(Course::Best),
        Some(slot) => match leaving(arith, table.rows.as_slice(), table.columns.len(), slot)? {
            None => Ok(Course::Ray(slot)),
            Some(line) => Ok(Course::Turn(slot, line)),
        },
    }
}
