//! What a text uses: each symbol, object and variable is declared, and fits.

mod actions;
mod calls;
mod conditions;
mod effects;
mod equalities;
mod exprs;
mod facts;
mod start;

pub use actions::actions_of;
pub use start::{Start, atoms_of, start_of, values_of};
