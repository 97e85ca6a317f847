//! Domain files: their tokens in brackets as a tree of values, each word and number with its place.
#![tactic(auto)]

mod domain;
pub mod read;

pub use domain::{Declared, Domain, DomainSection};
pub use np_conditions::{Condition, Effect, Op, Side};
pub use np_words::{Decimal, Expr, Group, Ident, ListKind, ReadFault, Word};
pub use read::read_domain;
