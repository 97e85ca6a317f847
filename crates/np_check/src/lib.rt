//! The checker of certificates and plans. It shares nothing with any search.
//!
//! What makes a certificate valid, and the order of its faults, are this project's own.
#![tactic(auto)]

mod bounds;
mod check;
mod first;
mod fitting;
mod laws;
mod numbers;
mod plan;
mod plan_end;
mod scratch;
mod tables;
mod verdict;
mod walk;
mod watched;

pub use check::check_certificate;
pub use laws::{claim_bounds, fault_is_no_yes, one_plan_end, one_verdict};
pub use plan::check_plan;
pub use plan_end::PlanEnd;
pub use verdict::Verdict;
