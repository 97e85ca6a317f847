//! Programs by hand, and what the simplex answers to them.
ghost use Rattle.std.specs.Prelude.{◌≡◌, true, ℕ, [], ◌<◌, ◌==◌, length, slice_index_or};
ghost use Rattle.std.specs.List.{list_all};
ghost use Rattle.np_simplex.specs.Views.{rows_of};

use np_frac::{Arith, Frac};
use np_simplex::{Lp, LpAnswer, LpFault, best};
use std::process::Abort;

/// A list of these numbers.
pub fn list<T: Copy>(rt: &(impl Abort + AllocGlobal), numbers: &[T]) -> Vec<T> {
    Vec::from_slice(rt.alloc(), numbers).expect(rt, "memory")
}

/// The program of these rows, right sides and costs.
pub fn program(
    rt: &(impl Abort + AllocGlobal),
    rows: &[&[i128]],
    right: &[i128],
    costs: &[u64],
) -> Lp {
    let mut all = Vec::new(rt.alloc());
    for row in rows {
        all.push(list(rt, row)).expect(rt, "memory");
    }
    Lp {
        rows: all,
        right: list(rt, right),
        costs: list(rt, costs),
    }
}

/// Whether each row has so many numbers.
fn all_wide(rows: &[Vec<i128>], columns: usize) -> bool
    ensures { result ≡ list_all (λ row. length row.items == columns) rows.now }
{
    rows.iter().all(|row| row.len() == columns)
}

/// The same, said of each row.
fn are_wide(rows: &[Vec<i128>], columns: usize) -> bool
    ensures { result ≡ true → (k : ℕ) → k < length rows.now → length (slice_index_or (rows_of rows.now) k []) ≡ columns }
{
    all_wide(rows, columns)
}

/// What the simplex answers; None where the program isn't of the shape that it wants.
pub fn asked<A: Arith>(lp: &Lp, arith: &mut A) -> Option<Result<LpAnswer<A::N>, LpFault>> {
    if lp.right.len() == lp.rows.len() && are_wide(lp.rows.as_slice(), lp.costs.len()) {
        Some(best(lp, arith))
    } else {
        None
    }
}

/// Whether these are the fractions with these numerators and denominators.
pub fn are(numbers: &[Frac], expected: &[(i128, u128)]) -> bool {
    numbers.len() == expected.len()
        && numbers
            .iter()
            .zip(expected)
            .all(|(x, (num, den))| x.num() == *num && x.den() == *den)
}
