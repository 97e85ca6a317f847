//! Planning by names, PDDL 2.1 at level 2: a task, its states, its steps, and what a plan of it is and costs.
//!
//! The types are the task as typing leaves it, with each name replaced by its place in a list. What a step does and what
//! a plan is are definitions in `specs/`, from which all that the planner promises is said.
#![tactic(auto)]

mod ground;
mod maps;
mod name;
mod objects;
mod op;
mod task;
mod types;
mod well_formed;

pub use ground::{atom_of, object_of, objects_of, term_of};
pub use maps::{AtomSet, ValueMap};
pub use name::Name;
pub use objects::Objects;
pub use op::with_sign;
pub use task::{
    Action, Atom, Cond, Eff, Object, Op, Ref, Signature, Step, Sum, TaskParts, Term, TypeName,
};
pub use types::{is_fixed, is_step, is_under, parent_of, takes, type_of};
pub use well_formed::Task;
