//! Problem files: their tokens in brackets as a tree of values, each word and number with its place.
#![tactic(auto)]

mod problem;
mod read;

pub use np_syntax::ReadFault;
pub use problem::{Fact, Problem, ProblemSection};
pub use read::read_problem;
