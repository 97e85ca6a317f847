//! The text of a flat task, as the command `list` prints it.
//!
//! A line for the unit, for each fact, value, subgoal and step by number, and for the goal. The layout is this project's own.
#![tactic(auto)]

mod list;
mod names;
mod numbers;
mod steps;
mod subgoals;

pub use list::list_text;
pub use names::{push_atom, push_step, push_term};
