//! Words, numbers and expressions of texts, each with its place, and reading with the first fault.
#![tactic(auto)]

mod expr;
mod fault;
pub mod read;
mod value;
mod word;

pub use expr::Expr;
pub use fault::ReadFault;
pub use word::{Decimal, Group, Ident, ListKind, Word};
