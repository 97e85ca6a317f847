//! Fractions, and arithmetic that counts its refusals.
use np_frac::{Arith, Exact128, Frac, Scalar};
use std::cmp::Ordering;

/// The whole number.
fn whole(n: i128) -> Option<Frac> {
    <Frac as Scalar>::whole(n)
}

/// Fractions are in lowest terms, and equal where they are the same number.
fn reduces(third: &Frac) -> bool {
    third.num() == 1
        && third.den() == 3
        && Frac::of(2, -4) == Frac::of(-1, 2)
        && Frac::of(0, -7) == whole(0)
}

/// What is too large, or over 0, is no fraction.
fn refuses() -> bool {
    Frac::of(1, 0).is_none()
        && Frac::of(i128::MIN, 2).is_none()
        && Frac::of(2, i128::MIN).is_none()
        && whole(i128::MIN).is_none()
        && whole(i128::MAX).is_some()
}

/// What a half and a third come to.
fn works(half: &Frac, third: &Frac) -> bool {
    half.add(third) == Frac::of(5, 6)
        && half.sub(third) == Frac::of(1, 6)
        && half.mul(third) == Frac::of(1, 6)
        && half.div(third) == Frac::of(3, 2)
        && half.div(&Frac::zero()).is_none()
}

/// A half is more than a third.
fn orders(half: &Frac, third: &Frac) -> bool {
    half.order(third) == Ordering::Greater && *third < *half
}

/// Two that differ by less than any float tells, and have no sum.
fn tells_apart(most: &Frac, next: &Frac) -> bool {
    *most < *next && most.add(next).is_none() && most.div(most) == Some(Frac::one())
}

#[test]
fn fractions_are_exact(rt: HostRuntime) {
    let half = Frac::of(1, 2).expect(&rt, "1/2");
    let third = Frac::of(-2, -6).expect(&rt, "-2/-6");
    let most = Frac::of(i128::MAX, i128::MAX - 1).expect(&rt, "near 1");
    let next = Frac::of(i128::MAX - 1, i128::MAX - 2).expect(&rt, "a little more");
    assert!(rt; reduces(&third) && refuses());
    assert!(rt; works(&half, &third) && orders(&half, &third));
    assert!(rt; tells_apart(&most, &next));
}

/// `(a + b) * (a - b) / a`, and how often the arithmetic has refused.
fn worked<A: Arith>(arith: &mut A, a: i128, b: i128) -> Option<A::N> {
    let a = arith.whole(a).ok()?;
    let b = arith.whole(b).ok()?;
    let sum = arith.add(&a, &b).ok()?;
    let difference = arith.sub(&a, &b).ok()?;
    let product = arith.mul(&sum, &difference).ok()?;
    arith.div(&product, &a).ok()
}

/// Whether that of a and b is this, after arithmetic that has refused so often, and how often it then has.
fn counts(refused: u64, a: i128, b: i128, answer: Option<Frac>, after: u64) -> bool {
    let mut arith = Exact128 { refused };
    worked(&mut arith, a, b) == answer && arith.refused == after
}

#[test]
fn refusals_are_counted(rt: HostRuntime) {
    assert!(rt; counts(0, 3, 1, Frac::of(8, 3), 0));
    for (refused, a, after) in [
        (0, 0, 1),
        (1, i128::MAX, 2),
        (2, i128::MIN, 3),
        (u64::MAX, 0, u64::MAX),
    ] {
        assert!(rt; counts(refused, a, 1, None, after), "{a}");
    }
}
