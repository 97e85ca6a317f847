//! What a domain and a problem declare, by number, or the first fault of their declarations.
#![tactic(auto)]

mod both;
mod ranks;
mod tables;
mod touched;
mod types;
mod unknown;

pub use both::{declared, object};
pub use np_names::{Names, Source, TypeFault, TypeWhy, copy, well_sectioned};
pub use tables::{Tables, numbers_in};
