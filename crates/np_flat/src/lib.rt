//! The flat task: planning by numbers.
//!
//! Facts, values, subgoals and steps have numbers, a subgoal is a fact, its negation or a linear form that is at least
//! 0, and all numbers are whole. The types and their limits are this project's own; what a state, a step, a run and a
//! plan are is PDDL 2.1's state transition at level 2 (Fox and Long 2003), by number.
#![tactic(auto)]

mod flat;
mod form;
mod laws;
mod limits;
mod net;
mod numbers;
mod parts;
mod readers;
mod state;
mod step;

pub use flat::Flat;
pub use laws::{kept_or_achieved, started_runs_are_small, step_adds_net};
pub use limits::{
    CHANGE_SIZE, COEFFICIENT_SIZE, CONSTANT_SIZE, COST_SIZE, MOST_FACTS, MOST_STEPS, MOST_SUBGOALS,
    MOST_TERMS, MOST_VALUES, VALUE_SIZE,
};
pub use net::net_terms;
pub use numbers::put_in;
pub use parts::{FlatStep, Form, Parts, Subgoal};
pub use state::FlatState;
