//! Arithmetic on whole numbers that fit, which are those of at most `2^127 - 1` in size.
ghost use Rattle.std.specs.Prelude.{◌≡◌, ◌<◌, ◌≤◌, ◌*◌, ◌^◌, ◌+ℤ◌, ◌*ℤ◌, pos, nat_lt, int_div, neg_ℤ, unsigned_abs, if◌then◌else◌};
ghost use Rattle.std.specs.Ordering.{nat_cmp};
ghost use Rattle.np_frac.specs.Gcd.{gcd};
ghost use Rattle.np_frac.specs.Checked.{fitting};

use std::cmp::Ordering;

/// The greatest common divisor, by Euclid's steps.
pub fn gcd(a: u128, b: u128) -> u128
    ensures value { result ≡ gcd a b }
    ensures positive { 0 < b → 0 < result }
    ensures bound { 0 < b → result ≤ b }
{
    let mut x = a;
    let mut y = b;
    while y != 0 {
        let rest = x % y;
        x = y;
        y = rest;
    }
    x
}

/// The product, where it fits.
pub fn times(a: i128, b: i128) -> Option<i128>
    ensures { result ≡ fitting (a *ℤ b) }
{
    let product = a.checked_mul(b)?;
    if product == i128::MIN {
        return None;
    }
    Some(product)
}

/// The sum, where it fits.
pub fn sum(a: i128, b: i128) -> Option<i128>
    ensures { result ≡ fitting (a +ℤ b) }
{
    let total = a.checked_add(b)?;
    if total == i128::MIN {
        return None;
    }
    Some(total)
}

/// The product with a natural number, where it fits.
pub fn scaled(a: i128, n: u128) -> Option<i128>
    requires { n < 2 ^ 127 }
    ensures { result ≡ fitting (a *ℤ pos n) }
{
    times(a, n as i128)
}

/// The product of two natural numbers, where it fits.
pub fn product(a: u128, b: u128) -> Option<u128>
    ensures { result ≡ (if nat_lt (a * b) (2 ^ 127) then Some (a * b) else None) }
{
    let product = a.checked_mul(b)?;
    if product > i128::MAX as u128 {
        return None;
    }
    Some(product)
}

/// The quotient by a positive number, rounded toward 0.
pub fn divided(a: i128, n: u128) -> i128
    requires positive { 0 < n }
    requires within { n < 2 ^ 127 }
    ensures { result ≡ int_div a (pos n) }
{
    a / n as i128
}

/// The number with the other sign.
pub fn negated(a: i128) -> i128
    requires { unsigned_abs a < 2 ^ 127 }
    ensures { result ≡ neg_ℤ a }
{
    -a
}

/// The order of `a / b` and `c / d`, by their continued fractions: first the whole parts, then the reciprocals of the remainders.
pub fn compare_ratios(a: u128, b: u128, c: u128, d: u128) -> Ordering
    requires left { 0 < b }
    requires right { 0 < d }
    ensures { result ≡ nat_cmp (a * d) (c * b) }
{
    let (mut p, mut q, mut r, mut s) = (a, b, c, d);
    loop {
        let left = p / q;
        let right = r / s;
        if left != right {
            return left.cmp(&right);
        }
        let first = p % q;
        let second = r % s;
        if first == 0 {
            return first.cmp(&second);
        }
        if second == 0 {
            return first.cmp(&second);
        }
        p = s;
        r = q;
        q = second;
        s = first;
    }
}
