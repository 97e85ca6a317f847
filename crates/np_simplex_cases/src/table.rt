//! Programs that were worked by hand.
use crate::asking::{are, asked, program};
use np_frac::{Exact128, Frac};
use np_simplex::{LpAnswer, LpFault};
use std::process::Abort;

/// Numerators and denominators.
type Fractions = &'static [(i128, u128)];

/// What a program comes to.
#[derive(Clone, Copy, Drop)]
enum Expected {
    /// Weights and counts.
    Best(Fractions, Fractions),
    /// The weights of a ray.
    Ray(Fractions),
}

/// Rows, right sides, costs, and what they come to.
type Case = (
    &'static [&'static [i128]],
    &'static [i128],
    &'static [u64],
    Expected,
);

/// A number near 2^127.
const LARGE: i128 = i128::MAX;

/// The same as a denominator.
const WHOLE: u128 = 170141183460469231731687303715884105727;

/// The programs.
const CASES: [Case; 16] = [
    (
        &[&[3, -1]],
        &[4],
        &[2, 1],
        Expected::Best(&[(2, 3)], &[(4, 3), (0, 1)]),
    ),
    (&[&[-1]], &[1], &[5], Expected::Ray(&[(1, 1)])),
    (
        &[&[1, 1]],
        &[0],
        &[0, 3],
        Expected::Best(&[(0, 1)], &[(0, 1), (0, 1)]),
    ),
    // no rows; no columns
    (&[], &[], &[2], Expected::Best(&[], &[(0, 1)])),
    (&[], &[], &[], Expected::Best(&[], &[])),
    (&[&[]], &[1], &[], Expected::Ray(&[(1, 1)])),
    (&[&[]], &[0], &[], Expected::Best(&[(0, 1)], &[])),
    (&[&[], &[]], &[-1, 1], &[], Expected::Ray(&[(0, 1), (1, 1)])),
    // a row of zeros
    (&[&[0]], &[1], &[5], Expected::Ray(&[(1, 1)])),
    (&[&[0]], &[0], &[5], Expected::Best(&[(0, 1)], &[(0, 1)])),
    // rows that repeat
    (
        &[&[1, 1], &[1, 1]],
        &[2, 2],
        &[3, 5],
        Expected::Best(&[(3, 1), (0, 1)], &[(2, 1), (0, 1)]),
    ),
    // ties: the first basic column leaves, which stands in the first line, and then in the second one
    (
        &[&[1, 1]],
        &[1],
        &[1, 1],
        Expected::Best(&[(1, 1)], &[(1, 1), (0, 1)]),
    ),
    (
        &[&[1, 1], &[2, 1]],
        &[1, 3],
        &[2, 1],
        Expected::Best(&[(0, 1), (1, 1)], &[(0, 1), (3, 1)]),
    ),
    // E. M. L. Beale 1955: it cycles where the column with the greatest top number enters
    (
        &[
            &[25, 25, 0],
            &[-6000, -4500, 0],
            &[-4, -1, 1],
            &[900, 150, 0],
        ],
        &[75, -15000, 2, -600],
        &[0, 0, 1],
        Expected::Best(
            &[(1, 25), (0, 1), (1, 1), (0, 1)],
            &[(0, 1), (3, 1), (5, 1)],
        ),
    ),
    // a ray with two weights: of the entering column, and of a basic one
    (
        &[&[1], &[-1]],
        &[2, -1],
        &[1],
        Expected::Ray(&[(1, 1), (1, 1)]),
    ),
    // large numbers that are no trouble
    (
        &[&[LARGE, 3]],
        &[LARGE - 1],
        &[1, 1],
        Expected::Best(&[(1, WHOLE)], &[(LARGE - 1, WHOLE), (0, 1)]),
    ),
];

/// Whether that is the answer.
fn is_answer(answer: &LpAnswer<Frac>, expected: &Expected) -> bool {
    match (answer, expected) {
        (LpAnswer::Best { weights, counts }, Expected::Best(prices, amounts)) => {
            are(weights.as_slice(), prices) && are(counts.as_slice(), amounts)
        }
        (LpAnswer::Ray { weights }, Expected::Ray(prices)) => are(weights.as_slice(), prices),
        _ => false,
    }
}

/// Whether a program comes to that, and no operation is refused.
fn comes_to(rt: &(impl Abort + AllocGlobal), case: &Case) -> bool {
    let lp = program(rt, case.0, case.1, case.2);
    let mut arith = Exact128 { refused: 0 };
    match asked(&lp, &mut arith) {
        Some(Ok(answer)) => is_answer(&answer, &case.3) && arith.refused == 0,
        _ => false,
    }
}

#[test]
fn programs_by_hand(rt: HostRuntime) {
    for place in 0..CASES.len() {
        assert!(rt; comes_to(&rt, &CASES[place]), "{place}");
    }
}

/// Whether a program with these numbers is refused, and how often the arithmetic then has.
fn is_wide(rt: &(impl Abort + AllocGlobal), number: i128, side: i128, cost: u64) -> bool {
    let lp = program(rt, &[&[number]], &[side], &[cost]);
    let mut arith = Exact128 { refused: 5 };
    matches!(asked(&lp, &mut arith), Some(Err(LpFault::Wide))) && arith.refused == 6
}

#[test]
fn numbers_too_large(rt: HostRuntime) {
    assert!(rt; is_wide(&rt, i128::MIN, 1, 1));
    assert!(rt; is_wide(&rt, 1, i128::MIN, 1));
    assert!(rt; is_wide(&rt, 2, i128::MAX, u64::MAX));
    assert!(rt; is_wide(&rt, 1, 1 << 126, 2));
}
