//! The cuts of a flat task that bound at a state: each names subgoals of which a plan from there achieves one.
//!
//! They are landmarks (Helmert and Domshlak 2009) as rows of counting proofs. Sharpening them is this project's own.
#![tactic(auto)]

mod sharpen;

pub use sharpen::cuts;
