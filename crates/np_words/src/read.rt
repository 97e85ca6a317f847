//! Reading words, numbers and expressions, and the last step of reading a whole text: what the grammars share.

mod exprs;
mod numbers;
mod wide;
mod words;

pub use exprs::{expr, identifiers_to_right, last};
pub use numbers::number;
pub use wide::{MOST_DIGITS, fault_from, first_wide, settled};
pub use words::{identifier, name, names_to_right, requirement, variable};
