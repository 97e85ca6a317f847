//! Fractions in lowest terms.
//!
//! A number *fits* where it is at most `2^127 - 1` in size, so the least `i128` doesn't. Each call that answers `None`
//! says which whole numbers have to fit; the answers that it gives are exact.
ghost use Rattle.std.specs.Prelude.{◌≡◌, ◌<◌, ◌^◌, pos, ◌<ℤ◌, unsigned_abs, if◌then◌else◌, IfSome, Some, is_some, not, ◌&&◌};
ghost use Rattle.std.specs.Prelude.{◌++◌};
ghost use Rattle.std.proofs.Common.{rules};
ghost use Rattle.std.specs.Hash as fed;
ghost use Rattle.std.specs.Cmp.Rules.{comparing, hashing};
ghost use Rattle.np_frac.specs.Fractions.{over, whole, fraction_cmp, fraction_eq, plus, minus, times};
ghost use Rattle.np_frac.specs.Checked.{checked_quotient, checked_sum, checked_product, plus_fits, minus_fits, times_fits, is_zero, reciprocal, quotient};
ghost use Rattle.std.specs.Ordering.{int_eq};

use crate::number::{compare_ratios, divided, gcd, negated, product, scaled, sum, times};
use std::cmp::Ordering;
use std::hash::{Hash, Hasher};
use std::marker::Model;

/// An exact fraction in lowest terms, with a positive denominator.
///
/// Two of them are equal exactly where they are the same number, and equal ones hash alike. `Ord` is the order of the
/// numbers. Numerator and denominator are at most `2^127 - 1` in size; this limit is this project's own.
#[derive(Clone, Copy, Debug)]
pub struct Frac {
    num: i128,
    den: i128,
}

impl Model for Frac {
    ghost use Rattle.std.specs.Prelude.{pos, unsigned_abs};
    ghost use Rattle.np_frac.specs.Fractions.{Fraction, fraction_code, over};
    ghost use Rattle.np_frac.specs.Checked.{IsReduced};

    ghost Value = { Fraction };

    ghost coded = { fraction_code };

    ghost view = { λ f. over f.num (unsigned_abs f.den) };

    ghost inverse = { λ v. record { num = v.num; den = pos v.den } };

    ghost invariant = { λ f. IsReduced f.num f.den };

    ghost use Rattle.np_frac.specs.Kept.{reduced_num, reduced_signed};

    ghost inverse_ok = { λ a h i. record { num = reduced_num a.num a.den h i; den = reduced_signed a.num a.den h i } };
}

impl PartialEq for Frac {
    ghost use Rattle.np_frac.specs.Fractions.{fraction_eq};
    ghost use Rattle.np_frac.specs.Order.{fraction_eq_laws};
    ghost use Rattle.std.specs.Cmp.{partial_equiv_from_equiv};

    ghost eq = { fraction_eq };

    ghost laws = { partial_equiv_from_equiv fraction_eq_laws };

    #[tactic(auto, unfolding(crate::specs::Fractions::fraction_eq))]
    fn eq(&self, other: &Frac) -> bool {
        self.num() == other.num() && self.den() == other.den()
    }
}

impl Eq for Frac {
    ghost use Rattle.np_frac.specs.Order.{fraction_eq_laws};

    ghost laws = { fraction_eq_laws };
}

impl Hash for Frac {
    ghost use Rattle.std.specs.Prelude.{◌++◌};
    ghost use Rattle.std.proofs.Common.{ap};
    ghost use Rattle.std.specs.Hash as fed;
    ghost use Rattle.np_frac.specs.Fractions.{same_from_eq};

    ghost hash_input = { λ f. fed.i128 f.num ++ fed.u128 f.den };

    ghost respects_eq = { λ a b e. ap (λ f. fed.i128 f.num ++ fed.u128 f.den) (same_from_eq a b e) };

    fn hash<H: Hasher>(&self, state: &mut H) {
        self.num().hash(state);
        self.den().hash(state);
    }
}

impl Ord for Frac {
    ghost use Rattle.np_frac.specs.Fractions.{fraction_cmp};
    ghost use Rattle.std.proofs.Common.{refl};
    ghost use Rattle.np_frac.specs.Order.{fraction_cmp_total, fraction_eq_is};

    ghost cmp = { fraction_cmp };

    ghost total = { fraction_cmp_total };

    ghost matches_partial_cmp = { λ a b. refl };

    ghost matches_eq = { fraction_eq_is };

    fn cmp(&self, other: &Frac) -> Ordering {
        self.order(other)
    }
}

impl PartialOrd for Frac {
    ghost use Rattle.std.specs.Ordering.{as_partial_cmp};
    ghost use Rattle.np_frac.specs.Fractions.{fraction_cmp};
    ghost use Rattle.np_frac.specs.Order.{fraction_po};

    ghost partial_cmp = { as_partial_cmp fraction_cmp };

    ghost laws = { fraction_po };

    fn partial_cmp(&self, other: &Frac) -> Option<Ordering> {
        Some(self.order(other))
    }
}

impl Frac {
    /// The fraction `num / den` in lowest terms.
    ///
    /// `None` exactly where `den` is 0 or one of the two is the least `i128`.
    pub fn of(num: i128, den: i128) -> Option<Frac>
        ensures { result ≡ checked_quotient num den }
    {
        if num == i128::MIN || den == i128::MIN || den == 0 {
            return None;
        }
        if den < 0 {
            Some(reduce(-num, den.unsigned_abs()))
        } else {
            Some(reduce(num, den.unsigned_abs()))
        }
    }

    /// The numerator in lowest terms, which has the fraction's sign.
    pub fn num(&self) -> i128
        ensures value { result ≡ self.now.num }
        ensures within { unsigned_abs self.now.num < 2 ^ 127 }
    {
        self.num
    }

    /// The denominator in lowest terms, which is 1 or more.
    pub fn den(&self) -> u128
        ensures value { result ≡ self.now.den }
        ensures positive { 0 < result }
        ensures within { result < 2 ^ 127 }
    {
        self.den.unsigned_abs()
    }

    /// The exact sum.
    ///
    /// For `a/b + c/d` let `g` be the greatest common divisor of `b` and `d`. The answer is `None` exactly where
    /// `a * (d/g)`, `c * (b/g)`, their sum or `b * (d/g)` doesn't fit.
    #[tactic(auto, unfolding(crate::specs::Fractions::plus, crate::specs::Checked::plus_fits))]
    pub fn add(&self, other: &Frac) -> Option<Frac>
        ensures value { IfSome result (λ x. x ≡ plus self.now other.now) }
        ensures fits { is_some result ≡ plus_fits self.now other.now }
    {
        sum_of(self.num(), self.den(), other.num(), other.den())
    }

    /// The exact difference.
    ///
    /// `None` exactly where the sum with the negated `other` is.
    #[tactic(auto, unfolding(crate::specs::Fractions::minus, crate::specs::Checked::minus_fits))]
    pub fn sub(&self, other: &Frac) -> Option<Frac>
        ensures value { IfSome result (λ x. x ≡ minus self.now other.now) }
        ensures fits { is_some result ≡ minus_fits self.now other.now }
    {
        sum_of(self.num(), self.den(), negated(other.num()), other.den())
    }

    /// The exact product.
    ///
    /// For `a/b * c/d` let `g` be the greatest common divisor of `a` and `d`, and `h` that of `c` and `b`. The answer is
    /// `None` exactly where `(a/g) * (c/h)` or `(b/h) * (d/g)` doesn't fit.
    #[tactic(auto, unfolding(crate::specs::Fractions::times, crate::specs::Checked::times_fits))]
    pub fn mul(&self, other: &Frac) -> Option<Frac>
        ensures value { IfSome result (λ x. x ≡ times self.now other.now) }
        ensures fits { is_some result ≡ times_fits self.now other.now }
    {
        product_of(self.num(), self.den(), other.num(), other.den())
    }

    /// One over it, where it isn't 0.
    #[tactic(auto, unfolding(crate::specs::Checked::reciprocal))]
    fn reciprocal(&self) -> Option<Frac>
        ensures { result ≡ (if is_zero self.now then None else Some (reciprocal self.now)) }
    {
        let (num, den) = (self.num(), self.den() as i128);
        if num == 0 {
            return None;
        }
        Some(if num < 0 {
            reduce(-den, num.unsigned_abs())
        } else {
            reduce(den, num.unsigned_abs())
        })
    }

    /// The exact quotient.
    ///
    /// `None` exactly where `other` is 0 or the product with its reciprocal is `None`.
    pub fn div(&self, other: &Frac) -> Option<Frac>
        ensures value { IfSome result (λ x. x ≡ times self.now (reciprocal other.now)) }
        ensures quotient { IfSome result (λ x. quotient self.now other.now ≡ Some x) }
        ensures fits { is_some result ≡ (not (is_zero other.now) && times_fits self.now (reciprocal other.now)) }
    {
        self.mul(&other.reciprocal()?)
    }

    /// The exact order of the two numbers, for all pairs. No product is formed, so nothing can be too wide.
    pub fn order(&self, other: &Frac) -> Ordering
        ensures { result ≡ fraction_cmp self.now other.now }
    {
        let (a, b, c, d) = (self.num(), self.den(), other.num(), other.den());
        if a < 0 {
            if c < 0 {
                compare_ratios(c.unsigned_abs(), d, a.unsigned_abs(), b)
            } else {
                Ordering::Less
            }
        } else if c < 0 {
            Ordering::Greater
        } else {
            compare_ratios(a.unsigned_abs(), b, c.unsigned_abs(), d)
        }
    }
}

/// The whole number `num`.
#[tactic(auto, using(crate::specs::Laws::over_whole))]
pub(crate) fn whole(num: i128) -> Frac
    requires { unsigned_abs num < 2 ^ 127 }
    ensures { result ≡ whole num }
{
    reduce(num, 1)
}

/// The fraction `num / den` in lowest terms.
fn reduce(num: i128, den: u128) -> Frac
    requires within { unsigned_abs num < 2 ^ 127 }
    requires positive { 0 < den }
    requires den_within { den < 2 ^ 127 }
    ensures { result ≡ over num den }
{
    let divisor = gcd(num.unsigned_abs(), den);
    Frac {
        num: divided(num, divisor),
        den: (den / divisor) as i128,
    }
}

/// The sum of `a / b` and `c / d`, over the least common multiple of `b` and `d`.
fn sum_of(a: i128, b: u128, c: i128, d: u128) -> Option<Frac>
    requires left { 0 < b }
    requires right { 0 < d }
    requires left_within { b < 2 ^ 127 }
    requires right_within { d < 2 ^ 127 }
    ensures { result ≡ checked_sum a b c d }
{
    let shared = gcd(b, d);
    let left = scaled(a, d / shared)?;
    let right = scaled(c, b / shared)?;
    let num = sum(left, right)?;
    let den = product(b, d / shared)?;
    Some(reduce(num, den))
}

/// The product of `a / b` and `c / d`, with common divisors taken out crosswise before the products are formed.
fn product_of(a: i128, b: u128, c: i128, d: u128) -> Option<Frac>
    requires left { 0 < b }
    requires right { 0 < d }
    requires left_within { b < 2 ^ 127 }
    requires right_within { d < 2 ^ 127 }
    ensures { result ≡ checked_product a b c d }
{
    let left = gcd(a.unsigned_abs(), d);
    let right = gcd(c.unsigned_abs(), b);
    let num = times(divided(a, left), divided(c, right))?;
    let den = product(b / right, d / left)?;
    Some(reduce(num, den))
}
