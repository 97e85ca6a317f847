//! The laws of the exact numbers.
ghost use Rattle.np_frac.specs.OrderedField.{OrderedField};

/// Exact fractions are an ordered field, so whatever the operations of a [`crate::Scalar`] answer obeys its laws.
pub fn ordered_field()
    ensures { OrderedField }
{}
