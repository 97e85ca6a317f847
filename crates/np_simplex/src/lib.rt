//! Linear programs in whole numbers, solved exactly over any arithmetic of fractions.
#![tactic(auto)]

mod answer;
mod choice;
mod fault;
mod laws;
mod pivot;
mod program;
mod run;
mod start;

pub use fault::LpFault;
pub use program::{LpAnswer, best};
pub use start::Lp;
