//! Expressions read as linear sums: a constant, and terms with coefficients.
//!
//! What no step changes is put in: static terms have their start values. The first finding says why an expression
//! isn't a linear sum. The order of reading is this project's own, and part of the meaning.
#![tactic(auto)]

mod finding;
mod fractions;
mod laws;
mod linear;
mod reading;
mod sums;

pub use finding::{Finding, Halt};
pub use fractions::{checked_product, checked_sum, is_zero};
pub use laws::{linear_is_proper, linear_means, missing_means};
pub use linear::Linear;
pub use reading::linear_of;
pub use sums::{is_constant, linear_sum, with_multiple};
