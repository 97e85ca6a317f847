//! What no step changes.
ghost use Rattle.std.specs.Prelude.{◌≡◌, IfOk};
ghost use Rattle.np_model.specs.States.{is_among, value_among};
ghost use Rattle.np_model.specs.Tasks.{is_fixed};
ghost use Rattle.np_linear.specs.Answers.{Gives};
ghost use Rattle.np_linear.specs.Linears.{linear_of};

use np_frac::Frac;
use np_linear::{Finding, Halt, Linear, linear_of};
use np_model::{Atom, AtomSet, Sum, TaskParts, Term, ValueMap, is_fixed};
use std::alloc::{AllocError, Global};
use std::marker::Model;

/// A task and its values at the start, with its atoms as a set and the values as a map. Contracts see it without these.
#[derive(Drop)]
pub(crate) struct Known<'a> {
    task: &'a TaskParts,
    atoms: AtomSet<'a>,
    values: ValueMap<'a>,
}

impl<'a> Model for Known<'a> {
    ghost use Rattle.std.specs.Prelude.{◌≡◌};
    ghost use Rattle.std.specs.Coded.{codes};
    ghost use Rattle.np_model.specs.contracts.task.Sum as sum;
    ghost use Rattle.np_bind.specs.Known.{Known};

    ghost Value = { Known };

    ghost coded = { Prim.hlevel (codes, sum.the_row.coded) };

    ghost view = { λ k. record { task = k.task.now; values = k.values } };

    ghost invariant = { λ k. k.atoms ≡ k.task.now.atoms };
}

impl<'a> Known<'a> {
    /// A task with these values at the start. Out of memory is an error.
    pub(crate) fn new(
        alloc: Global,
        task: &'a TaskParts,
        values: &'a [(Term, Frac)],
    ) -> Result<Known<'a>, AllocError>
        ensures { IfOk result (λ known. known ≡ record { task = task.now; values = values.now }) }
    {
        let atoms = AtomSet::new(alloc, task.atoms.as_slice())?;
        let values = ValueMap::new(alloc, values)?;
        Ok(Known {
            task,
            atoms,
            values,
        })
    }

    /// The task.
    pub(crate) fn task(&self) -> &'a TaskParts
        ensures { result.now ≡ self.now.task }
    {
        self.task
    }

    /// Whether an atom is true at the start.
    pub(crate) fn has(&self, atom: &Atom) -> bool
        ensures { result ≡ is_among self.now.task.atoms atom.now }
    {
        self.atoms.has(atom)
    }

    /// The value of a term at the start; None where it has none.
    pub(crate) fn value(&self, term: &Term) -> Option<Frac>
        ensures { result ≡ value_among self.now.values term.now }
    {
        self.values.get(term)
    }

    /// Whether a predicate is static.
    pub(crate) fn is_static(&self, predicate: u32) -> bool
        ensures { result ≡ is_fixed self.now.task.predicates predicate }
    {
        is_fixed(self.task.predicates.as_slice(), predicate)
    }

    /// An expression as a linear sum, or the first finding.
    pub(crate) fn linear_of(
        &self,
        alloc: Global,
        objects: &[u32],
        sum: &Sum,
    ) -> Result<Linear, Halt<Finding>>
        ensures { Gives result (linear_of self.now.task.functions self.now.values objects.now sum.now) }
    {
        linear_of(
            alloc,
            self.task.functions.as_slice(),
            &self.values,
            objects,
            sum,
        )
    }
}
