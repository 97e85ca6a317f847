//! Pivots up to an end.
ghost use Rattle.std.specs.Prelude.{◌≡◌, ℕ, true, ◌≤◌, ◌<◌, ◌+◌, ◌++◌, ◌^◌, IfOk, IsErrOf, map, length};
ghost use Rattle.std.specs.List.{range_with_len};
ghost use Rattle.np_frac.specs.Sizes.{Rose};
ghost use Rattle.np_simplex.specs.Tableau.{nought, GoesOn};
ghost use Rattle.np_simplex.specs.Packed.{IsPacked};
ghost use Rattle.np_simplex.specs.Views.{last_of, start_of};
ghost use Rattle.np_simplex.specs.Promises.{IsRunOut, most_pivots};
ghost use Rattle.np_simplex.specs.Widths.{IsStrained};

use crate::choice::{Course, End, next};
use crate::fault::{Halt, LpFault};
use crate::pivot::{Table, pivot};
use crate::start::{Lp, push_zeros};
use np_frac::{Arith, Scalar};
use std::alloc::Global;

/// So many zeros.
fn zeros<N: Scalar>(alloc: Global, count: usize) -> Result<Vec<N>, Halt>
    ensures value { IfOk result (λ made. length made.items ≡ count) }
    ensures kind { IsErrOf result Halt.Wide → ⊥ }
{
    let mut made = Vec::new(alloc);
    push_zeros(&mut made, count)?;
    Ok(made)
}

/// Pivots from the first tableau up to an end, at most `64 + 8 * (rows + columns)`.
pub fn run<A: Arith>(
    alloc: Global,
    arith: &mut A,
    lp: &Lp,
    table: &mut Table<A::N>,
) -> Result<End, LpFault>
    requires right { length lp.now.right.items ≡ length lp.now.rows.items }
    requires packed { IsPacked A.N.value (last_of lp.now) table.old (start_of lp.now) }
    ensures value { IfOk result (λ end.
        IsRunOut A.N.value (last_of lp.now) (most_pivots (length lp.now.rows.items) (length lp.now.costs.items)) (start_of lp.now) table.new end) }
    ensures pivots { IsErrOf result LpFault.Pivots →
        GoesOn (last_of lp.now) (most_pivots (length lp.now.rows.items) (length lp.now.costs.items)) (start_of lp.now) }
    ensures kind { IsErrOf result LpFault.TooLarge → ⊥ }
    ensures same { A.sure arith.new ≡ A.sure arith.old }
    ensures later { A.refused arith.old ≤ A.refused arith.new }
    ensures counted { IsErrOf result LpFault.Wide → Rose (A.refused arith.old) (A.refused arith.new) }
    ensures only { A.sure arith.old ≡ true → IsErrOf result LpFault.Wide →
        IsStrained (last_of lp.now) (most_pivots (length lp.now.rows.items) (length lp.now.costs.items)) (start_of lp.now) }
{
    let most = 64 + 8 * (lp.rows.as_slice().len() + lp.costs.as_slice().len());
    let mut leaver = zeros(alloc, table.top.len())?;
    let mut made = 0;
    'pivots: loop {
        match next(arith, table)? {
            Course::Turn(slot, leaving) => {
                if made == most {
                    return Err(LpFault::Pivots);
                }
                pivot(arith, table, &mut leaver, slot, leaving)?;
                made += 1;
            }
            Course::Best => return Ok(End::Best),
            Course::Ray(slot) => return Ok(End::Ray(slot)),
        }
    }
}
