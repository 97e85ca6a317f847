//! What a flat task is made of.
ghost use Rattle.std.specs.Prelude.{◌++◌};

use crate::state::FlatState;
use np_model::{Atom, Step, Term};
use sqlite_items::Items;
use std::hash::{Hash, Hasher};

/// The parts of a flat task. Each number names an item of the list of its kind, counted from 0.
#[derive(Debug, Drop)]
pub struct Parts {
    /// What a value of the task is multiplied by, so that all scaled values are whole.
    pub unit: i128,
    /// The ground atoms that conditions read.
    pub facts: Items<Atom>,
    /// The ground terms that conditions read.
    pub values: Items<Term>,
    /// The start state.
    pub start: FlatState,
    /// What steps and the goal need.
    pub subgoals: Items<Subgoal>,
    /// The steps.
    pub steps: Items<FlatStep>,
    /// The subgoals that all hold at the goal, ascending.
    pub goal: Items<u32>,
}

/// A step of a flat task.
#[derive(Debug, Drop)]
pub struct FlatStep {
    /// The step of the task that it stands for.
    pub step: Step,
    /// The subgoals that all hold where it is applicable, ascending.
    pub needs: Items<u32>,
    /// The facts that it makes true, ascending.
    pub adds: Items<u32>,
    /// The facts that it makes false, ascending; none of those that it adds.
    pub deletes: Items<u32>,
    /// What it adds to which value, scaled; by ascending value, and never 0.
    pub changes: Items<(u32, i128)>,
    /// What it costs; not scaled.
    pub cost: u64,
}

/// Something that may hold in a state.
#[derive(Debug, Drop, PartialEq, Eq, Hash)]
pub enum Subgoal {
    /// The fact is true.
    Fact(u32),
    /// The fact is false.
    NotFact(u32),
    /// The form's value is at least 0.
    Form(Form),
}

/// A linear form over the values: a constant, and a coefficient for some of the values, by ascending value, and never 0.
#[derive(Debug, Drop)]
pub struct Form {
    /// What is added to the terms; scaled.
    pub constant: i128,
    /// The values' numbers, ascending, with their coefficients.
    pub terms: Items<(u32, i128)>,
}

impl PartialEq for Form {
    ghost use Rattle.std.specs.Cmp.{partial_equiv_from_equiv};
    ghost use Rattle.np_flat.specs.Same.{same_form, same_form_laws};

    ghost eq = { same_form };

    ghost laws = { partial_equiv_from_equiv same_form_laws };

    fn eq(&self, other: &Form) -> bool {
        self.constant == other.constant && self.terms.as_slice() == other.terms.as_slice()
    }
}

impl Eq for Form {
    ghost use Rattle.np_flat.specs.Same.{same_form_laws};

    ghost laws = { same_form_laws };
}

impl Hash for Form {
    ghost use Rattle.std.specs.Prelude.{◌++◌};
    ghost use Rattle.std.proofs.Common.{ap};
    ghost use Rattle.std.specs.Hash as fed;
    ghost use Rattle.np_flat.specs.Same.{same_form-Decides};

    ghost hash_input = { λ f. fed.i128 f.constant ++ fed.slice (λ t. fed.u32 t.0 ++ fed.i128 t.1) f.terms };

    ghost respects_eq = { λ a b e. ap (λ f. fed.i128 f.constant ++ fed.slice (λ t. fed.u32 t.0 ++ fed.i128 t.1) f.terms) ((same_form-Decides a b).0 e) };

    fn hash<H: Hasher>(&self, state: &mut H) {
        self.constant.hash(state);
        self.terms.as_slice().hash(state);
    }
}
