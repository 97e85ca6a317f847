//! Subgoals by number.
ghost use Rattle.std.specs.Prelude.{◌≡◌, [], IfOk, List};
ghost use Rattle.np_flat.specs.declared.parts.Subgoal.{Subgoal};
ghost use Rattle.np_scale.specs.Tables.{number_of};
ghost use Rattle.np_scale.specs.FlatOf.{same_subgoal};
ghost use Rattle.np_scale.specs.Limits.{with_subgoal};
ghost use Rattle.np_scale.specs.Code.{AnswersInto, IsStartOf};

use crate::fault::ScaleFault;
use indexmap::IndexSet;
use np_flat::{Form, MOST_SUBGOALS, Subgoal};
use sqlite_items::Items;
use std::alloc::{AllocError, Global};
use std::marker::Model;

/// Subgoals, each with its number by first reading. Contracts see their list.
#[derive(Drop)]
pub struct Subgoals {
    set: IndexSet<Subgoal>,
}

impl Model for Subgoals {
    ghost use Rattle.std.specs.Prelude.{List, length, ◌≤◌};
    ghost use Rattle.np_flat.specs.declared.limits.TheConstants.{MOST_SUBGOALS};
    ghost use Rattle.np_flat.specs.declared.parts.Subgoal.{Subgoal};

    ghost Value = { List Subgoal };

    ghost view = { λ s. s.set.keys };

    ghost invariant = { λ s. length s.set.keys ≤ MOST_SUBGOALS };
}

impl Subgoals {
    /// No subgoals.
    pub fn new(alloc: Global) -> Subgoals
        ensures { result ≡ [] }
    {
        Subgoals {
            set: IndexSet::new(alloc),
        }
    }

    /// The number of a subgoal, which comes after the others unless it's among them. `TooManySubgoals` exactly where it would be the one
    /// after `MOST_SUBGOALS`. After an error nothing is said of the subgoals.
    pub fn put(&mut self, subgoal: Subgoal) -> Result<u32, ScaleFault>
        ensures known { AnswersInto result self.new (with_subgoal self.old subgoal) }
        ensures number { IfOk result (λ n. (final : List Subgoal) → IsStartOf self.new final → n ≡ number_of same_subgoal final subgoal) }
    {
        if self.set.len() == MOST_SUBGOALS && !self.set.contains(&subgoal) {
            return Err(ScaleFault::TooManySubgoals);
        }
        let (number, _) = self.set.insert_full(subgoal)?;
        Ok(number as u32)
    }

    /// A copy of the subgoals, in order. Out of memory is an error.
    pub fn copy(&self, alloc: Global) -> Result<Items<Subgoal>, AllocError>
        ensures { IfOk result (λ subgoals. subgoals ≡ self.now) }
    {
        let mut subgoals = Items::new(alloc);
        for subgoal in self.set.as_slice() {
            subgoals.push(copy_subgoal(alloc, subgoal)?)?;
        }
        Ok(subgoals)
    }
}

/// A copy of a subgoal. Out of memory is an error.
fn copy_subgoal(alloc: Global, subgoal: &Subgoal) -> Result<Subgoal, AllocError>
    ensures { IfOk result (λ copy. copy ≡ subgoal.now) }
{
    match subgoal {
        Subgoal::Fact(fact) => Ok(Subgoal::Fact(*fact)),
        Subgoal::NotFact(fact) => Ok(Subgoal::NotFact(*fact)),
        Subgoal::Form(form) => Ok(Subgoal::Form(copy_form(alloc, form)?)),
    }
}

/// A copy of a form. Out of memory is an error.
fn copy_form(alloc: Global, form: &Form) -> Result<Form, AllocError>
    ensures { IfOk result (λ copy. copy ≡ form.now) }
{
    Ok(Form {
        constant: form.constant,
        terms: Items::from_slice(alloc, form.terms.as_slice())?,
    })
}
