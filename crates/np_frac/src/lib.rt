//! Exact fractions in 128 bits.
//!
//! A [`Frac`] is a fraction in lowest terms with a positive denominator, and its meaning is the exact number, without
//! rounding. Numerator and denominator are at most `2^127 - 1` in size. That limit, and the exact point where a call
//! answers `None` because a number is too wide, are this project's own.
#![tactic(auto)]

mod arith;
mod frac;
mod laws;
mod number;

pub use arith::{Arith, Exact128, Refused, Scalar};
pub use frac::Frac;
pub use laws::ordered_field;
