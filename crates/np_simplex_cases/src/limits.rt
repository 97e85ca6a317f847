//! Programs at the limits of size and pivots.
ghost use Rattle.std.specs.Prelude.{◌≤◌};

use crate::asking::{asked, list};
use np_frac::Exact128;
use np_simplex::{Lp, LpAnswer, LpFault};
use std::cmp::Ordering;
use std::process::Abort;

/// A program of zeros, with costs of 0 and right sides of -1.
fn zeros(rt: &(impl Abort + AllocGlobal), rows: usize, columns: usize) -> Lp {
    let row = repeated(rt, 0i128, columns);
    let mut all = Vec::new(rt.alloc());
    for _ in 0..rows {
        all.push(list(rt, row.as_slice())).expect(rt, "memory");
    }
    Lp {
        rows: all,
        right: repeated(rt, -1, rows),
        costs: repeated(rt, 0, columns),
    }
}

/// The number so many times.
fn repeated<T: Copy>(rt: &(impl Abort + AllocGlobal), number: T, count: usize) -> Vec<T> {
    let mut numbers = Vec::new(rt.alloc());
    for _ in 0..count {
        numbers.push(number).expect(rt, "memory");
    }
    numbers
}

/// How a program ends.
#[derive(Clone, Copy, PartialEq, Debug)]
enum End {
    Best,
    Ray,
    TooLarge,
    Wide,
    Pivots,
    Memory,
    Unasked,
}

/// How this one ends.
fn end_of(lp: &Lp) -> End {
    match asked(lp, &mut Exact128 { refused: 0 }) {
        Some(Ok(LpAnswer::Best { .. })) => End::Best,
        Some(Ok(LpAnswer::Ray { .. })) => End::Ray,
        Some(Err(LpFault::TooLarge)) => End::TooLarge,
        Some(Err(LpFault::Wide)) => End::Wide,
        Some(Err(LpFault::Pivots)) => End::Pivots,
        Some(Err(LpFault::Memory)) => End::Memory,
        None => End::Unasked,
    }
}

#[test]
fn rows_times_columns(rt: HostRuntime) {
    for (rows, columns, expected) in [
        (1024, 1024, End::Best),
        (17, 61681, End::TooLarge),
        (1, 1048577, End::TooLarge),
        (1048577, 1, End::TooLarge),
        (1048577, 0, End::Best),
    ] {
        assert_eq!(&rt;
            end_of(&zeros(&rt, rows, columns)),
            expected,
            "{rows} {columns}"
        );
    }
}

/// How many rows and columns the program of many pivots has.
const LONG: usize = 12;

/// A row of the program of many pivots: in column k it has 2 below the place, 1 at it and 0 above.
fn long_row(rt: &(impl Abort + AllocGlobal), place: usize, columns: usize) -> Vec<i128> {
    let mut row = Vec::new(rt.alloc());
    for k in 0..columns {
        let number = match k.cmp(&place) {
            Ordering::Less => 0,
            Ordering::Equal => 1,
            Ordering::Greater if k < LONG && place < LONG => 2,
            Ordering::Greater => 0,
        };
        row.push(number).expect(rt, "memory");
    }
    row
}

/// The program of 465 pivots, more of one pivot each, and then rows of zeros.
///
/// After D. Avis and V. Chvátal, Notes on Bland's pivoting rule (1978): with n rows and columns the pivots of the first part are
/// 2 F - 1 with F the Fibonacci number n + 1, which is 233 for 12.
fn long(rt: &(impl Abort + AllocGlobal), single: usize, idle: usize) -> Lp
    requires small { single ≤ 50 }
    requires few { idle ≤ 50 }
{
    let columns = LONG + single;
    let mut rows = Vec::new(rt.alloc());
    for place in 0..columns {
        rows.push(long_row(rt, place, columns)).expect(rt, "memory");
    }
    for _ in 0..idle {
        rows.push(repeated(rt, 0i128, columns)).expect(rt, "memory");
    }
    let mut right = repeated(rt, 1i128, columns);
    for _ in 0..idle {
        right.push(0).expect(rt, "memory");
    }
    let mut costs = Vec::new(rt.alloc());
    for place in 0..columns {
        let cost = if place < LONG { (2u64 << place) - 1 } else { 1 };
        costs.push(cost).expect(rt, "memory");
    }
    Lp { rows, right, costs }
}

#[test]
fn pivots(rt: HostRuntime) {
    // 465 pivots and a limit of 464; 465 and 472; 472 and 472; 472 and 464
    for (single, idle, expected) in [
        (0, 26, End::Pivots),
        (0, 27, End::Best),
        (7, 13, End::Best),
        (7, 12, End::Pivots),
    ] {
        assert_eq!(&rt;
            end_of(&long(&rt, single, idle)),
            expected,
            "{single} {idle}"
        );
    }
}
