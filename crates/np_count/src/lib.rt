//! Counting proofs: rows that bound the cost of every plan, and their weights.
//!
//! Rows are inequalities on how often each step is taken (Pommerening, Röger, Helmert and Bonet 2014, operator counting);
//! these kinds of rows are this project's own.
#![tactic(auto)]

mod cuts;
mod facts;
mod floors;
mod forms;
mod laws;
mod proof;
mod rows;
mod sums;

pub use laws::{
    counts_meet_rows, proofs_bound, proofs_price, rows_hold, weights_fall, weights_hold,
};
pub use proof::{Proof, Row};
pub use sums::{proof_ok, proof_value};
