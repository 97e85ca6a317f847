//! The numbers of a state.
ghost use Rattle.std.specs.Prelude.{◌≡◌, true, false, IfSome, IfNone};
ghost use Rattle.np_frac.specs.Fractions.{Fraction, plus, whole};
ghost use Rattle.np_state.specs.Cells.{are_small_wholes};

use np_frac::Frac;
use std::hash::Hash;

/// A number of a state: an exact fraction.
///
/// Two cells are equal exactly where their fractions are, and equal ones hash alike.
pub trait Cell: Eq + Hash + Drop {
    /// The number.
    ghost value: { Self → Fraction };

    /// The same number.
    fn copy(&self) -> Self
        ensures { value result ≡ value self.now };

    /// The exact sum with `by`.
    ///
    /// `None` only where one of the two or their sum isn't a whole number below `2^120` in size. This limit is this project's own.
    fn moved(&self, by: &Self) -> Option<Self>
        ensures value { IfSome result (λ x. value x ≡ plus (value self.now) (value by.now)) }
        ensures only { IfNone result (are_small_wholes (value self.now) (value by.now) ≡ false) };

    /// Equal cells are the same number.
    ghost same: { (a b : Self) → Self.eq a b ≡ true → value a ≡ value b };

    /// Cells of the same number are equal.
    ghost alike: { (a b : Self) → value a ≡ value b → Self.eq a b ≡ true };
}

impl Cell for i128 {
    ghost use Rattle.np_state.specs.CellLaws.{same_int, alike_int};

    ghost value = { whole };

    ghost same = { same_int };

    ghost alike = { alike_int };

    fn copy(&self) -> i128 {
        *self
    }

    #[tactic(auto, using(crate::specs::CellLaws::int_moves, crate::specs::CellLaws::int_refuses))]
    fn moved(&self, by: &i128) -> Option<i128> {
        self.checked_add(*by)
    }
}

impl Cell for Frac {
    ghost use Rattle.np_frac.specs.Fractions.{same_from_eq};
    ghost use Rattle.np_state.specs.CellLaws.{alike_fraction};

    ghost value = { λ f. f };

    ghost same = { same_from_eq };

    ghost alike = { alike_fraction };

    fn copy(&self) -> Frac {
        *self
    }

    #[tactic(auto, using(crate::specs::CellLaws::fraction_refuses))]
    fn moved(&self, by: &Frac) -> Option<Frac> {
        self.add(by)
    }
}
