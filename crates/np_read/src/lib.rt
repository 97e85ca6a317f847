//! Readers of the items of a text: how larger ones are made of smaller ones, what follows of the first fault, and the steps
//! in code that every grammar shares. The readers of pieces, beside them, refuse without a place.
#![tactic(auto)]

mod at_end;
mod fault;
mod steps;
mod tokens;

pub use at_end::is_at_end;
pub use fault::ReadFault;
pub use steps::{ends, left, name, numeral, open, right};
pub use tokens::{Found, keyword, operator, take_kind, take_operator, take_token, token};
