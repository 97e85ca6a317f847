//! A search for a cheapest plan in any space of states: A* with lower bounds that may differ from state to state.
//!
//! A state that is reached at less cost after it was expanded is expanded again, so bounds need not be consistent
//! (Hart, Nilsson and Raphael, 'A Formal Basis for the Heuristic Determination of Minimum Cost Paths', 1968).
#![tactic(auto)]

mod astar;
mod open_list;
mod tree;

pub use astar::{Found, search};
pub use tree::{Node, Tree};
