//! Faults of typing, names by number, and the names that a domain and a problem declare, or the first fault of their sections and names.
#![tactic(auto)]

mod declarations;
mod fault;
mod names;
mod parts;
mod sections;

pub use declarations::{Declarations, declared_names, is_object};
pub use fault::{Source, TypeFault, TypeWhy};
pub use names::{Names, copy};
pub use parts::{
    constant_groups, declared_functions, declared_predicates, object_groups, type_groups,
};
pub use sections::well_sectioned;
