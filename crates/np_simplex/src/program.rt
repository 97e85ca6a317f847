//! The exact simplex.
ghost use Rattle.std.specs.Prelude.{◌≡◌, ℕ, ◌≤◌, ◌<◌, ◌+◌, ◌*◌, ◌^◌, true, nat_lt, [], IfOk, IsErrOf, ◌↔◌, length, slice_index_or};
ghost use Rattle.np_frac.specs.Sizes.{Rose};
ghost use Rattle.np_simplex.specs.Tableau.{GoesOn, IsSized};
ghost use Rattle.np_simplex.specs.Views.{rows_of, tableau, last_of, start_of};
ghost use Rattle.np_simplex.specs.Promises.{IsAnswer, IsSlotRead, IsWithin, IsFromRun, most_pivots};
ghost use Rattle.np_simplex.specs.Widths.{AreSmall, HasWide, IsWideRun, MeetsPast};

use crate::answer::{best_counts, best_weights, ray_weights};
use crate::choice::End;
use crate::fault::{Halt, LpFault};
use crate::pivot::Table;
use crate::run::run;
use crate::start::{Lp, start};
use np_frac::Arith;
use std::alloc::Global;

/// An answer to a linear program, in fractions.
#[derive(Drop)]
pub enum LpAnswer<N> {
    /// Weights and counts of one value: the weighted right sides are what the counts cost, so both are best.
    Best {
        /// A weight per row, none below 0, such that no column's weighted coefficients add up to more than its cost.
        weights: Vec<N>,
        /// A count per column, none below 0, that meet each row.
        counts: Vec<N>,
    },
    /// Weights whose value has no bound, so that no counts meet all rows.
    Ray {
        /// A weight per row, none below 0: each column's weighted coefficients add up to at most 0, the right sides to more.
        weights: Vec<N>,
    },
}

/// Whether rows times columns pass `2^20`.
fn is_too_large(rows: usize, columns: usize) -> bool
    ensures { result ≡ nat_lt (2 ^ 20) (rows * columns) }
{
    match rows.checked_mul(columns) {
        Some(product) => product > 1048576,
        None => true,
    }
}

/// What is read off at an end.
fn read<A: Arith>(
    alloc: Global,
    arith: &mut A,
    table: &Table<A::N>,
    rows: usize,
    columns: usize,
    end: End,
) -> Result<LpAnswer<A::N>, Halt>
    requires sized { IsSized (length table.now.columns.items + 1) (tableau A.N.value table.now) }
    requires fits { rows + columns < 2 ^ 64 }
    requires end { IsWithin (length table.now.columns.items) end }
    ensures value { IfOk result (λ answer. IsSlotRead A.N.value rows columns table.now.columns.items (tableau A.N.value table.now) end answer) }
    ensures same { A.sure arith.new ≡ A.sure arith.old }
    ensures later { A.refused arith.old ≤ A.refused arith.new }
    ensures counted { IsErrOf result Halt.Wide → Rose (A.refused arith.old) (A.refused arith.new) }
    ensures only { A.sure arith.old ≡ true → IsErrOf result Halt.Wide → HasWide (tableau A.N.value table.now) }
{
    match end {
        End::Best => {
            let weights = best_weights(alloc, table, rows)?;
            let counts = best_counts(alloc, arith, table, rows, columns)?;
            Ok(LpAnswer::Best { weights, counts })
        }
        End::Ray(slot) => {
            let weights = ray_weights(alloc, arith, table, rows, slot)?;
            Ok(LpAnswer::Ray { weights })
        }
    }
}

/// Weights and counts of one value, or a ray, of a linear program that isn't too large.
fn solve<A: Arith>(lp: &Lp, arith: &mut A) -> Result<LpAnswer<A::N>, LpFault>
    requires wide { (k : ℕ) → k < length lp.now.rows.items → length (slice_index_or (rows_of lp.now.rows.items) k []) ≡ length lp.now.costs.items }
    requires right { length lp.now.right.items ≡ length lp.now.rows.items }
    ensures answer { IfOk result (λ answer. IsAnswer A.N.value (rows_of lp.now.rows.items) lp.now.right.items lp.now.costs.items answer) }
    ensures run { IfOk result (λ answer. IsFromRun A.N.value (rows_of lp.now.rows.items) lp.now.right.items lp.now.costs.items answer) }
    ensures kind { IsErrOf result LpFault.TooLarge → ⊥ }
    ensures pivots { IsErrOf result LpFault.Pivots →
        GoesOn (last_of lp.now) (most_pivots (length lp.now.rows.items) (length lp.now.costs.items)) (start_of lp.now) }
    ensures same { A.sure arith.new ≡ A.sure arith.old }
    ensures later { A.refused arith.old ≤ A.refused arith.new }
    ensures counted { IsErrOf result LpFault.Wide → Rose (A.refused arith.old) (A.refused arith.new) }
    ensures only { A.sure arith.old ≡ true → IsErrOf result LpFault.Wide → IsWideRun (last_of lp.now) (start_of lp.now) }
{
    let alloc = *lp.rows.allocator();
    let rows = lp.rows.as_slice().len();
    let columns = lp.costs.as_slice().len();
    let mut table = start(alloc, arith, lp)?;
    let end = run(alloc, arith, lp, &mut table)?;
    let answer = read(alloc, arith, &table, rows, columns, end)?;
    Ok(answer)
}

/// Weights and counts of one value, or a ray, of a linear program, by the simplex method over exact fractions.
///
/// The pivots begin where all weights are 0, which is allowed since no cost is below 0, and take the weights' value up.
/// The first column enters, and ties of the least quotient go to the first basic column: Bland, 'New finite pivoting
/// rules for the simplex method' (Mathematics of Operations Research 2, 1977).
///
/// # Errors
/// - `TooLarge` exactly where rows times columns are above `2^20`.
/// - `Pivots` only where the run makes more than `64 + 8 * (rows + columns)` pivots.
/// - `Wide` only where the arithmetic refused and counted it. A sure arithmetic refuses only where the run meets a number
///   whose size is above `2^30`.
/// - `Memory` where there was no memory.
///
/// With one row there are never too many pivots; if moreover all numbers are below `2^40` in size and the arithmetic is sure, it
/// refuses nothing.
pub fn best<A: Arith>(lp: &Lp, arith: &mut A) -> Result<LpAnswer<A::N>, LpFault>
    requires wide { (k : ℕ) → k < length lp.now.rows.items → length (slice_index_or (rows_of lp.now.rows.items) k []) ≡ length lp.now.costs.items }
    requires right { length lp.now.right.items ≡ length lp.now.rows.items }
    ensures answer { IfOk result (λ answer. IsAnswer A.N.value (rows_of lp.now.rows.items) lp.now.right.items lp.now.costs.items answer) }
    ensures run { IfOk result (λ answer. IsFromRun A.N.value (rows_of lp.now.rows.items) lp.now.right.items lp.now.costs.items answer) }
    ensures too_large { IsErrOf result LpFault.TooLarge ↔ (2 ^ 20 < length lp.now.rows.items * length lp.now.costs.items) }
    ensures pivots { IsErrOf result LpFault.Pivots →
        GoesOn (last_of lp.now) (most_pivots (length lp.now.rows.items) (length lp.now.costs.items)) (start_of lp.now) }
    ensures same { A.sure arith.new ≡ A.sure arith.old }
    ensures later { A.refused arith.old ≤ A.refused arith.new }
    ensures counted { IsErrOf result LpFault.Wide → Rose (A.refused arith.old) (A.refused arith.new) }
    ensures only { A.sure arith.old ≡ true → IsErrOf result LpFault.Wide → MeetsPast (2 ^ 30) (last_of lp.now) (start_of lp.now) }
    ensures one_row { length lp.now.rows.items ≡ 1 → AreSmall (rows_of lp.now.rows.items) lp.now.right.items lp.now.costs.items →
        A.sure arith.old ≡ true → IsErrOf result LpFault.Wide → ⊥ }
    ensures one_row_pivots { length lp.now.rows.items ≡ 1 → IsErrOf result LpFault.Pivots → ⊥ }
{
    if is_too_large(lp.rows.as_slice().len(), lp.costs.as_slice().len()) {
        return Err(LpFault::TooLarge);
    }
    solve(lp, arith)
}
