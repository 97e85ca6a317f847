//! Certificates and their text.
//!
//! A certificate says that no plan costs less than its claim. The bound of an entry rests on those of the successors. The text,
//! and what makes a certificate valid, are this project's own.
#![tactic(auto)]

mod certificate;
pub mod laws;
mod limit;
mod print;
mod read;

pub use certificate::{Certificate, Entry, Limit, Why};
pub use limit::LIMIT_SIZE;
pub use print::{print_certificate, print_head, push_end, push_entry};
pub use read::{CertFault, read_certificate};
