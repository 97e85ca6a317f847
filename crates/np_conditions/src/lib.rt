//! Conditions and effects as trees of values, each word and number with its place, and reading them.
#![tactic(auto)]

mod condition;
mod effect;
pub mod read;

pub use condition::{Condition, Op, Side};
pub use effect::Effect;
