//! Arithmetic on exact fractions that may refuse.
ghost use Rattle.std.specs.Prelude.{◌≡◌, ℕ, Bool, true, not, ◌&&◌, pos, ◌≤◌, ◌^◌, IfSome, IfOk, OnOk, OnErr, is_some, is_ok, is_none, false, Some, None, min, ◌+◌, ◌-◌};
ghost use Rattle.np_frac.specs.Fractions.{Fraction, whole, plus, minus, times, fraction_cmp};
ghost use Rattle.np_frac.specs.Checked.{fits, is_zero, reciprocal, plus_fits, minus_fits, times_fits};
ghost use Rattle.np_frac.specs.Sizes.{Rose, are_wide, are_wide_or_zero};

use crate::frac::{self, Frac};
use std::cmp::Ordering;

/// An operation was refused.
#[derive(Clone, Copy, Debug, PartialEq, Eq)]
pub struct Refused;

/// Exact fractions that may refuse large results.
///
/// Each answer is the exact result. The *size* of a fraction is the larger of its numerator's size and its denominator, in
/// lowest terms. An operation answers `None` only where the product of the sizes of its arguments is above `2^125`, or a
/// divisor is 0. These limits are this project's own.
pub trait Scalar: Copy {
    /// The number.
    ghost value: { Self → Fraction };

    /// 0.
    fn zero() -> Self
        ensures { value result ≡ whole (pos 0) };

    /// 1.
    fn one() -> Self
        ensures { value result ≡ whole (pos 1) };

    /// The whole number. `None` exactly for the least `i128`.
    fn whole(n: i128) -> Option<Self>
        ensures value { IfSome result (λ x. value x ≡ whole n) }
        ensures fits { is_some result ≡ fits n };

    /// The sum.
    fn add(&self, other: &Self) -> Option<Self>
        ensures value { IfSome result (λ x. value x ≡ plus (value self.now) (value other.now)) }
        ensures only { is_none result ≡ true → are_wide (value self.now) (value other.now) ≡ true };

    /// The difference.
    fn sub(&self, other: &Self) -> Option<Self>
        ensures value { IfSome result (λ x. value x ≡ minus (value self.now) (value other.now)) }
        ensures only { is_none result ≡ true → are_wide (value self.now) (value other.now) ≡ true };

    /// The product.
    fn mul(&self, other: &Self) -> Option<Self>
        ensures value { IfSome result (λ x. value x ≡ times (value self.now) (value other.now)) }
        ensures only { is_none result ≡ true → are_wide (value self.now) (value other.now) ≡ true };

    /// The quotient. There is none by 0.
    fn div(&self, other: &Self) -> Option<Self>
        ensures value { IfSome result (λ x. value x ≡ times (value self.now) (reciprocal (value other.now))) }
        ensures divisor { is_some result ≡ true → is_zero (value other.now) ≡ false }
        ensures only { is_none result ≡ true → are_wide_or_zero (value self.now) (value other.now) ≡ true };

    /// The exact order of the two numbers, for all pairs.
    fn order(&self, other: &Self) -> Ordering
        ensures { result ≡ fraction_cmp (value self.now) (value other.now) };
}

/// Arithmetic that counts what it refuses.
///
/// The count never falls, and a refusal comes only where it grew in the call, or is at the end of 64 bits. A *sure*
/// arithmetic refuses only where the product of the sizes is above `2^125`, or a divisor is 0, or a whole number is the
/// least `i128`.
pub trait Arith {
    /// The numbers.
    type N: Scalar;

    /// How often it has refused.
    ghost refused: { Self → ℕ };

    /// Whether it is sure. No call changes that.
    ghost sure: { Self → Bool };

    /// The whole number. A sure arithmetic refuses none but the least `i128`.
    fn whole(&mut self, n: i128) -> Result<Self::N, Refused>
        ensures value { IfOk result (λ x. Self.N.value x ≡ whole n) }
        ensures same { sure self.new ≡ sure self.old }
        ensures later { refused self.old ≤ refused self.new }
        ensures counted { OnErr result (Rose (refused self.old) (refused self.new)) }
        ensures only { sure self.old ≡ true → OnErr result (fits n ≡ false) };

    /// The sum.
    fn add(&mut self, a: &Self::N, b: &Self::N) -> Result<Self::N, Refused>
        ensures value { IfOk result (λ x. Self.N.value x ≡ plus (Self.N.value a.now) (Self.N.value b.now)) }
        ensures same { sure self.new ≡ sure self.old }
        ensures later { refused self.old ≤ refused self.new }
        ensures counted { OnErr result (Rose (refused self.old) (refused self.new)) }
        ensures only { sure self.old ≡ true → OnErr result (are_wide (Self.N.value a.now) (Self.N.value b.now) ≡ true) };

    /// The difference.
    fn sub(&mut self, a: &Self::N, b: &Self::N) -> Result<Self::N, Refused>
        ensures value { IfOk result (λ x. Self.N.value x ≡ minus (Self.N.value a.now) (Self.N.value b.now)) }
        ensures same { sure self.new ≡ sure self.old }
        ensures later { refused self.old ≤ refused self.new }
        ensures counted { OnErr result (Rose (refused self.old) (refused self.new)) }
        ensures only { sure self.old ≡ true → OnErr result (are_wide (Self.N.value a.now) (Self.N.value b.now) ≡ true) };

    /// The product.
    fn mul(&mut self, a: &Self::N, b: &Self::N) -> Result<Self::N, Refused>
        ensures value { IfOk result (λ x. Self.N.value x ≡ times (Self.N.value a.now) (Self.N.value b.now)) }
        ensures same { sure self.new ≡ sure self.old }
        ensures later { refused self.old ≤ refused self.new }
        ensures counted { OnErr result (Rose (refused self.old) (refused self.new)) }
        ensures only { sure self.old ≡ true → OnErr result (are_wide (Self.N.value a.now) (Self.N.value b.now) ≡ true) };

    /// The quotient. There is none by 0.
    fn div(&mut self, a: &Self::N, b: &Self::N) -> Result<Self::N, Refused>
        ensures value { IfOk result (λ x. Self.N.value x ≡ times (Self.N.value a.now) (reciprocal (Self.N.value b.now))) }
        ensures divisor { is_ok result ≡ true → is_zero (Self.N.value b.now) ≡ false }
        ensures same { sure self.new ≡ sure self.old }
        ensures later { refused self.old ≤ refused self.new }
        ensures counted { OnErr result (Rose (refused self.old) (refused self.new)) }
        ensures only { sure self.old ≡ true → OnErr result (are_wide_or_zero (Self.N.value a.now) (Self.N.value b.now) ≡ true) };
}

impl Scalar for Frac {
    ghost value = { λ f. f };

    fn zero() -> Frac {
        frac::whole(0)
    }

    fn one() -> Frac {
        frac::whole(1)
    }

    fn whole(n: i128) -> Option<Frac> {
        if n == i128::MIN {
            return None;
        }
        Some(frac::whole(n))
    }

    #[tactic(auto, using(crate::specs::Sizes::plus_only))]
    fn add(&self, other: &Frac) -> Option<Frac> {
        Frac::add(self, other)
    }

    #[tactic(auto, using(crate::specs::Sizes::minus_only))]
    fn sub(&self, other: &Frac) -> Option<Frac> {
        Frac::sub(self, other)
    }

    #[tactic(auto, using(crate::specs::Sizes::times_only))]
    fn mul(&self, other: &Frac) -> Option<Frac> {
        Frac::mul(self, other)
    }

    #[tactic(auto, using(crate::specs::Sizes::quotient_only))]
    fn div(&self, other: &Frac) -> Option<Frac> {
        Frac::div(self, other)
    }

    fn order(&self, other: &Frac) -> Ordering {
        Frac::order(self, other)
    }
}

/// Exact arithmetic in 128 bits, with the count of what it refused. It is sure.
///
/// It refuses exactly where [`Frac`] answers `None`, and counts each refusal.
#[derive(Debug, Drop)]
pub struct Exact128 {
    /// How often it refused, up to the greatest value.
    pub refused: u64,
}

impl Exact128 {
    /// The answer, where there is one. Else the count grows by 1, unless it is at its end.
    fn counted(&mut self, answer: Option<Frac>) -> Result<Frac, Refused>
        ensures value { IfOk result (λ x. answer ≡ Some x) }
        ensures exact { is_ok result ≡ is_some answer }
        ensures error { OnErr result (answer ≡ None) }
        ensures later { self.old.refused ≤ self.new.refused }
        ensures kept { OnOk result (self.new.refused ≡ self.old.refused) }
        ensures once { OnErr result (self.new.refused ≡ min (self.old.refused + 1) (2 ^ 64 - 1)) }
    {
        match answer {
            Some(x) => Ok(x),
            None => {
                self.refused = self.refused.saturating_add(1);
                Err(Refused)
            }
        }
    }
}

impl Arith for Exact128 {
    type N = Frac;

    ghost refused = { λ e. e.refused };

    ghost sure = { λ e. true };

    fn whole(&mut self, n: i128) -> Result<Frac, Refused>
        ensures value { IfOk result (λ x. x ≡ whole n) }
        ensures same { true ≡ true }
        ensures later { self.old.refused ≤ self.new.refused }
        ensures counted { OnErr result (Rose self.old.refused self.new.refused) }
        ensures only { true ≡ true → OnErr result (fits n ≡ false) }

        // What this arithmetic adds: where it refuses, and that it counts exactly that.
        ensures exact { is_ok result ≡ fits n }
        ensures kept { OnOk result (self.new.refused ≡ self.old.refused) }
        ensures once { OnErr result (self.new.refused ≡ min (self.old.refused + 1) (2 ^ 64 - 1)) }
    {
        self.counted(<Frac as Scalar>::whole(n))
    }

    #[tactic(auto, using(crate::specs::Sizes::plus_only))]
    fn add(&mut self, a: &Frac, b: &Frac) -> Result<Frac, Refused>
        ensures value { IfOk result (λ x. x ≡ plus a.now b.now) }
        ensures same { true ≡ true }
        ensures later { self.old.refused ≤ self.new.refused }
        ensures counted { OnErr result (Rose self.old.refused self.new.refused) }
        ensures only { true ≡ true → OnErr result (are_wide a.now b.now ≡ true) }

        // What this arithmetic adds: where it refuses, and that it counts exactly that.
        ensures exact { is_ok result ≡ plus_fits a.now b.now }
        ensures kept { OnOk result (self.new.refused ≡ self.old.refused) }
        ensures once { OnErr result (self.new.refused ≡ min (self.old.refused + 1) (2 ^ 64 - 1)) }
    {
        self.counted(Frac::add(a, b))
    }

    #[tactic(auto, using(crate::specs::Sizes::minus_only))]
    fn sub(&mut self, a: &Frac, b: &Frac) -> Result<Frac, Refused>
        ensures value { IfOk result (λ x. x ≡ minus a.now b.now) }
        ensures same { true ≡ true }
        ensures later { self.old.refused ≤ self.new.refused }
        ensures counted { OnErr result (Rose self.old.refused self.new.refused) }
        ensures only { true ≡ true → OnErr result (are_wide a.now b.now ≡ true) }

        // What this arithmetic adds: where it refuses, and that it counts exactly that.
        ensures exact { is_ok result ≡ minus_fits a.now b.now }
        ensures kept { OnOk result (self.new.refused ≡ self.old.refused) }
        ensures once { OnErr result (self.new.refused ≡ min (self.old.refused + 1) (2 ^ 64 - 1)) }
    {
        self.counted(Frac::sub(a, b))
    }

    #[tactic(auto, using(crate::specs::Sizes::times_only))]
    fn mul(&mut self, a: &Frac, b: &Frac) -> Result<Frac, Refused>
        ensures value { IfOk result (λ x. x ≡ times a.now b.now) }
        ensures same { true ≡ true }
        ensures later { self.old.refused ≤ self.new.refused }
        ensures counted { OnErr result (Rose self.old.refused self.new.refused) }
        ensures only { true ≡ true → OnErr result (are_wide a.now b.now ≡ true) }

        // What this arithmetic adds: where it refuses, and that it counts exactly that.
        ensures exact { is_ok result ≡ times_fits a.now b.now }
        ensures kept { OnOk result (self.new.refused ≡ self.old.refused) }
        ensures once { OnErr result (self.new.refused ≡ min (self.old.refused + 1) (2 ^ 64 - 1)) }
    {
        self.counted(Frac::mul(a, b))
    }

    #[tactic(auto, using(crate::specs::Sizes::quotient_only))]
    fn div(&mut self, a: &Frac, b: &Frac) -> Result<Frac, Refused>
        ensures value { IfOk result (λ x. x ≡ times a.now (reciprocal b.now)) }
        ensures divisor { is_ok result ≡ true → is_zero b.now ≡ false }
        ensures same { true ≡ true }
        ensures later { self.old.refused ≤ self.new.refused }
        ensures counted { OnErr result (Rose self.old.refused self.new.refused) }
        ensures only { true ≡ true → OnErr result (are_wide_or_zero a.now b.now ≡ true) }

        // What this arithmetic adds: where it refuses, and that it counts exactly that.
        ensures exact { is_ok result ≡ (not (is_zero b.now) && times_fits a.now (reciprocal b.now)) }
        ensures kept { OnOk result (self.new.refused ≡ self.old.refused) }
        ensures once { OnErr result (self.new.refused ≡ min (self.old.refused + 1) (2 ^ 64 - 1)) }
    {
        self.counted(Frac::div(a, b))
    }
}
