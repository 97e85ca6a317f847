//! Sums of products of whole numbers and fractions, exactly, by a rule of this file's own.
use np_frac::Frac;

/// A numerator over a denominator, which is above 0.
#[derive(Clone, Copy, Drop)]
pub struct Sum {
    num: i128,
    den: i128,
}

/// The remainders of Euclid's rule; 100 are enough for all numbers that are tried here.
fn common(a: i128, b: i128) -> Option<i128> {
    let (mut large, mut small) = (a.checked_abs()?, b.checked_abs()?);
    for _ in 0..100 {
        if small == 0 {
            return Some(large);
        }
        (large, small) = (small, large.checked_rem(small)?);
    }
    None
}

impl Sum {
    /// No amount.
    pub fn nothing() -> Sum {
        Sum { num: 0, den: 1 }
    }

    /// So many times the fraction more; None where a number is too large.
    fn plus(self, times: i128, x: &Frac) -> Option<Sum> {
        let den = i128::try_from(x.den()).ok()?;
        let here = self.num.checked_mul(den)?;
        let there = times.checked_mul(x.num())?.checked_mul(self.den)?;
        let (num, den) = (here.checked_add(there)?, self.den.checked_mul(den)?);
        let by = common(num, den)?;
        Some(Sum {
            num: num.checked_div(by)?,
            den: den.checked_div(by)?,
        })
    }

    /// Whether it is at least that.
    pub fn is_at_least(&self, whole: i128) -> bool {
        match self.den.checked_mul(whole) {
            Some(least) => self.num >= least,
            None => false,
        }
    }

    /// Whether it is at most that.
    pub fn is_at_most(&self, whole: i128) -> bool {
        match self.den.checked_mul(whole) {
            Some(most) => self.num <= most,
            None => false,
        }
    }

    /// Whether it is the same.
    pub fn is(&self, other: &Sum) -> bool {
        self.num == other.num && self.den == other.den
    }
}

/// The sum of the whole numbers times the fractions; None where a number is too large, or one of the lists longer.
pub fn weighed(times: &[i128], numbers: &[Frac]) -> Option<Sum> {
    if times.len() != numbers.len() {
        return None;
    }
    let mut sum = Sum::nothing();
    for k in 0..times.len() {
        sum = sum.plus(times[k], &numbers[k])?;
    }
    Some(sum)
}
