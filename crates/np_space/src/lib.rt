//! What a search asks of a space of states, and what a space promises.
#![tactic(auto)]

mod bound;
mod judged;
mod space;

pub use bound::Bound;
pub use judged::{Judged, Reason};
pub use space::Space;
