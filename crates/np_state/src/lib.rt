//! States of a search: truth values and exact numbers, each state kept once.
#![tactic(auto)]

mod bits;
mod cell;
mod state;
mod store;
mod words;

pub use bits::BitRow;
pub use cell::Cell;
pub use state::State;
pub use store::StateStore;
