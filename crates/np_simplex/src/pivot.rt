//! The lines of a tableau, and what a pivot does to them.
ghost use Rattle.std.specs.Prelude.{◌≡◌, ℕ, true, ◌≤◌, ◌<◌, ◌+◌, IfOk, OnOk, OnErr, map, set, get_or, pos, length};
ghost use Rattle.np_frac.specs.Fractions.{whole, minus, times};
ghost use Rattle.np_frac.specs.Sizes.{Rose};
ghost use Rattle.np_simplex.specs.Tableau.{nought, at, less, divided, line_at, IsShaped, IsSized};
ghost use Rattle.np_simplex.specs.Packed.{slot_leaver, slot_less, slot_cleared, slot_pivot};
ghost use Rattle.np_simplex.specs.Views.{line, tableau};
ghost use Rattle.np_simplex.specs.Widths.{is_wide_multiple, IsWideLess, IsWideDivided, IsWideSlotLess, IsWideOther, IsWideSlot};

use np_frac::{Arith, Refused, Scalar};

/// A line of a tableau.
#[derive(Drop)]
pub struct Row<N> {
    /// Its basic column.
    pub basic: usize,
    /// A number per stored column, and the last one.
    pub numbers: Vec<N>,
}

/// A tableau without its basic columns: they are 1 in their own line and 0 elsewhere.
#[derive(Drop)]
pub struct Table<N> {
    /// The stored columns, a slot each.
    pub columns: Vec<usize>,
    /// The top line: a number per stored column, and the last one.
    pub top: Vec<N>,
    /// A line per step.
    pub rows: Vec<Row<N>>,
}

/// `x` less `k` times `y`.
#[tactic(auto, unfolding(crate::specs::Widths::is_wide_multiple))]
fn less_multiple<A: Arith>(arith: &mut A, x: &A::N, k: &A::N, y: &A::N) -> Result<A::N, Refused>
    ensures value { IfOk result (λ z. A.N.value z ≡ minus (A.N.value x.now) (times (A.N.value k.now) (A.N.value y.now))) }
    ensures same { A.sure arith.new ≡ A.sure arith.old }
    ensures later { A.refused arith.old ≤ A.refused arith.new }
    ensures counted { OnErr result (Rose (A.refused arith.old) (A.refused arith.new)) }
    ensures only { A.sure arith.old ≡ true → OnErr result (is_wide_multiple (A.N.value x.now) (A.N.value k.now) (A.N.value y.now) ≡ true) }
{
    let product = arith.mul(k, y)?;
    arith.sub(x, &product)
}

/// Takes `k` times the other line from a line.
fn subtract<A: Arith>(
    arith: &mut A,
    numbers: &mut [A::N],
    k: &A::N,
    other: &[A::N],
) -> Result<(), Refused>
    requires { length numbers.old ≡ length other.now }
    ensures value { OnOk result (map A.N.value numbers.new ≡ less (map A.N.value numbers.old) (A.N.value k.now) (map A.N.value other.now)) }
    ensures count { length numbers.new ≡ length numbers.old }
    ensures same { A.sure arith.new ≡ A.sure arith.old }
    ensures later { A.refused arith.old ≤ A.refused arith.new }
    ensures counted { OnErr result (Rose (A.refused arith.old) (A.refused arith.new)) }
    ensures only { A.sure arith.old ≡ true → OnErr result (IsWideLess (map A.N.value numbers.old) (A.N.value k.now) (map A.N.value other.now)) }
{
    for c in 0..numbers.len() {
        numbers[c] = less_multiple(arith, &numbers[c], k, &other[c])?;
    }
    Ok(())
}

/// Divides the numbers of a line by one.
fn divide<A: Arith>(arith: &mut A, numbers: &mut [A::N], by: &A::N) -> Result<(), Refused>
    ensures value { OnOk result (map A.N.value numbers.new ≡ divided (map A.N.value numbers.old) (A.N.value by.now)) }
    ensures count { length numbers.new ≡ length numbers.old }
    ensures same { A.sure arith.new ≡ A.sure arith.old }
    ensures later { A.refused arith.old ≤ A.refused arith.new }
    ensures counted { OnErr result (Rose (A.refused arith.old) (A.refused arith.new)) }
    ensures only { A.sure arith.old ≡ true → OnErr result (IsWideDivided (map A.N.value numbers.old) (A.N.value by.now)) }
{
    for c in 0..numbers.len() {
        numbers[c] = arith.div(&numbers[c], by)?;
    }
    Ok(())
}

/// Makes the leaving line of a pivot on a slot: 1 there, then divided by what stood there.
fn divide_by_slot<A: Arith>(arith: &mut A, numbers: &mut [A::N], slot: usize) -> Result<(), Refused>
    requires { slot < length numbers.old }
    ensures value { OnOk result (map A.N.value numbers.new ≡ slot_leaver slot (map A.N.value numbers.old)) }
    ensures count { length numbers.new ≡ length numbers.old }
    ensures same { A.sure arith.new ≡ A.sure arith.old }
    ensures later { A.refused arith.old ≤ A.refused arith.new }
    ensures counted { OnErr result (Rose (A.refused arith.old) (A.refused arith.new)) }
    ensures only { A.sure arith.old ≡ true →
        OnErr result (IsWideDivided (set (map A.N.value numbers.old) slot (whole (pos 1))) (at (map A.N.value numbers.old) slot)) }
{
    let by = numbers[slot];
    numbers[slot] = A::N::one();
    divide(arith, numbers, &by)
}

/// The same in a line.
fn leave<A: Arith>(arith: &mut A, row: &mut Row<A::N>, slot: usize) -> Result<(), Refused>
    requires { slot < length row.old.numbers.items }
    ensures value { OnOk result (map A.N.value row.new.numbers.items ≡ slot_leaver slot (map A.N.value row.old.numbers.items)) }
    ensures basic { row.new.basic ≡ row.old.basic }
    ensures count { length row.new.numbers.items ≡ length row.old.numbers.items }
    ensures same { A.sure arith.new ≡ A.sure arith.old }
    ensures later { A.refused arith.old ≤ A.refused arith.new }
    ensures counted { OnErr result (Rose (A.refused arith.old) (A.refused arith.new)) }
    ensures only { A.sure arith.old ≡ true →
        OnErr result (IsWideDivided (set (map A.N.value row.old.numbers.items) slot (whole (pos 1)))
        (at (map A.N.value row.old.numbers.items) slot)) }
{
    divide_by_slot(arith, row.numbers.as_mut_slice(), slot)
}

/// Whether it is 0.
fn is_nought<N: Scalar>(x: &N) -> bool
    ensures { result ≡ true → N.value x.now ≡ nought }
{
    x.order(&N::zero()).is_eq()
}

/// Clears a slot in the numbers of a line. Where it holds 0 nothing changes.
fn clear_numbers<A: Arith>(
    arith: &mut A,
    numbers: &mut [A::N],
    slot: usize,
    leaver: &[A::N],
) -> Result<(), Refused>
    requires width { length numbers.old ≡ length leaver.now }
    requires within { slot < length leaver.now }
    ensures value { OnOk result (map A.N.value numbers.new ≡ slot_less slot (map A.N.value leaver.now) (map A.N.value numbers.old)) }
    ensures count { length numbers.new ≡ length numbers.old }
    ensures same { A.sure arith.new ≡ A.sure arith.old }
    ensures later { A.refused arith.old ≤ A.refused arith.new }
    ensures counted { OnErr result (Rose (A.refused arith.old) (A.refused arith.new)) }
    ensures only { A.sure arith.old ≡ true → OnErr result (IsWideSlotLess slot (map A.N.value leaver.now) (map A.N.value numbers.old)) }
{
    let factor = numbers[slot];
    if is_nought(&factor) {
        return Ok(());
    }
    numbers[slot] = A::N::zero();
    subtract(arith, numbers, &factor, leaver)
}

/// The same in a list.
fn clear_list<A: Arith>(
    arith: &mut A,
    numbers: &mut Vec<A::N>,
    slot: usize,
    leaver: &[A::N],
) -> Result<(), Refused>
    requires width { length numbers.old.items ≡ length leaver.now }
    requires within { slot < length leaver.now }
    ensures value { OnOk result (map A.N.value numbers.new.items ≡ slot_less slot (map A.N.value leaver.now) (map A.N.value numbers.old.items)) }
    ensures count { length numbers.new.items ≡ length numbers.old.items }
    ensures same { A.sure arith.new ≡ A.sure arith.old }
    ensures later { A.refused arith.old ≤ A.refused arith.new }
    ensures counted { OnErr result (Rose (A.refused arith.old) (A.refused arith.new)) }
    ensures only { A.sure arith.old ≡ true → OnErr result (IsWideSlotLess slot (map A.N.value leaver.now) (map A.N.value numbers.old.items)) }
{
    clear_numbers(arith, numbers.as_mut_slice(), slot, leaver)
}

/// Clears a slot in a line.
fn clear<A: Arith>(
    arith: &mut A,
    row: &mut Row<A::N>,
    slot: usize,
    leaver: &[A::N],
) -> Result<(), Refused>
    requires width { length row.old.numbers.items ≡ length leaver.now }
    requires within { slot < length leaver.now }
    ensures value { OnOk result (line A.N.value row.new ≡ slot_cleared slot (map A.N.value leaver.now) (line A.N.value row.old)) }
    ensures count { length row.new.numbers.items ≡ length row.old.numbers.items }
    ensures same { A.sure arith.new ≡ A.sure arith.old }
    ensures later { A.refused arith.old ≤ A.refused arith.new }
    ensures counted { OnErr result (Rose (A.refused arith.old) (A.refused arith.new)) }
    ensures only { A.sure arith.old ≡ true → OnErr result (IsWideSlotLess slot (map A.N.value leaver.now) (line A.N.value row.old).numbers) }
{
    clear_list(arith, &mut row.numbers, slot, leaver)
}

/// Clears a slot in each line but the leaving one.
fn clear_others<A: Arith>(
    arith: &mut A,
    rows: &mut [Row<A::N>],
    slot: usize,
    leaving: usize,
    leaver: &[A::N],
) -> Result<(), Refused>
    requires shaped { IsShaped (length leaver.now) (map (line A.N.value) rows.old) }
    requires within { slot < length leaver.now }
    ensures value { OnOk result (map (line A.N.value) rows.new ≡
        set (map (slot_cleared slot (map A.N.value leaver.now)) (map (line A.N.value) rows.old)) leaving
        (line_at (map (line A.N.value) rows.old) leaving)) }
    ensures count { length rows.new ≡ length rows.old }
    ensures same { A.sure arith.new ≡ A.sure arith.old }
    ensures later { A.refused arith.old ≤ A.refused arith.new }
    ensures counted { OnErr result (Rose (A.refused arith.old) (A.refused arith.new)) }
    ensures only { A.sure arith.old ≡ true →
        OnErr result (IsWideOther (map (line A.N.value) rows.old) slot leaving (map A.N.value leaver.now)) }
{
    for i in 0..rows.len() {
        if i != leaving {
            clear(arith, &mut rows[i], slot, leaver)?;
        }
    }
    Ok(())
}

/// The same in a list of lines.
fn clear_rows<A: Arith>(
    arith: &mut A,
    rows: &mut Vec<Row<A::N>>,
    slot: usize,
    leaving: usize,
    leaver: &[A::N],
) -> Result<(), Refused>
    requires shaped { IsShaped (length leaver.now) (map (line A.N.value) rows.old.items) }
    requires within { slot < length leaver.now }
    ensures value { OnOk result (map (line A.N.value) rows.new.items ≡
        set (map (slot_cleared slot (map A.N.value leaver.now)) (map (line A.N.value) rows.old.items)) leaving
        (line_at (map (line A.N.value) rows.old.items) leaving)) }
    ensures count { length rows.new.items ≡ length rows.old.items }
    ensures same { A.sure arith.new ≡ A.sure arith.old }
    ensures later { A.refused arith.old ≤ A.refused arith.new }
    ensures counted { OnErr result (Rose (A.refused arith.old) (A.refused arith.new)) }
    ensures only { A.sure arith.old ≡ true →
        OnErr result (IsWideOther (map (line A.N.value) rows.old.items) slot leaving (map A.N.value leaver.now)) }
{
    clear_others(arith, rows.as_mut_slice(), slot, leaving, leaver)
}

/// One pivot: the column of a slot becomes basic in the leaving line, and the slot gets the column that was basic there.
///
/// `leaver` is scratch of the lines' length, so that nothing is allocated.
pub fn pivot<A: Arith>(
    arith: &mut A,
    table: &mut Table<A::N>,
    leaver: &mut Vec<A::N>,
    slot: usize,
    leaving: usize,
) -> Result<(), Refused>
    requires sized { IsSized (length table.old.columns.items + 1) (tableau A.N.value table.old) }
    requires scratch { length leaver.old.items ≡ length table.old.columns.items + 1 }
    requires slot { slot < length table.old.columns.items }
    requires place { leaving < length table.old.rows.items }
    ensures value { OnOk result (tableau A.N.value table.new ≡
        slot_pivot (tableau A.N.value table.old) (get_or table.old.columns.items slot 0) slot leaving) }
    ensures columns { OnOk result (table.new.columns.items ≡
        set table.old.columns.items slot (line_at (tableau A.N.value table.old).lines leaving).basic) }
    ensures scratch { length leaver.new.items ≡ length leaver.old.items }
    ensures same { A.sure arith.new ≡ A.sure arith.old }
    ensures later { A.refused arith.old ≤ A.refused arith.new }
    ensures counted { OnErr result (Rose (A.refused arith.old) (A.refused arith.new)) }
    ensures only { A.sure arith.old ≡ true → OnErr result (IsWideSlot (tableau A.N.value table.old) slot leaving) }
{
    leave(arith, &mut table.rows[leaving], slot)?;
    leaver.copy_from_slice(table.rows[leaving].numbers.as_slice());
    clear_list(arith, &mut table.top, slot, leaver.as_slice())?;
    clear_rows(arith, &mut table.rows, slot, leaving, leaver.as_slice())?;
    let entering = table.columns[slot];
    table.columns[slot] = table.rows[leaving].basic;
    table.rows[leaving].basic = entering;
    Ok(())
}
