//! A bound task: its steps by name, each with its conditions on atoms and linear sums.
ghost use Rattle.std.specs.Prelude.{◌≡◌};
ghost use Rattle.np_bind.specs.BoundTasks.{IsBound};

use np_frac::Frac;
use np_linear::Linear;
use np_model::{Atom, Op, Step, Term};
use sqlite_items::Items;
use std::alloc::{AllocError, AllocFailed};
use std::marker::Model;

/// The parts of a bound task.
#[derive(Debug, Drop)]
pub struct BoundParts {
    /// The atoms that are true at the start.
    pub atoms: Items<Atom>,
    /// The terms that have a value at the start, with it; a term of the metric that is given none has 0.
    pub values: Items<(Term, Frac)>,
    /// The steps that are kept, in order of their actions and objects.
    pub steps: Items<BoundStep>,
    /// The conditions that all hold at the goal, in order of text.
    pub goal: Items<BoundCond>,
}

/// A step that is kept: none of its conditions is known to be false, and each term that it reads or changes has a value.
#[derive(Debug, Drop)]
pub struct BoundStep {
    /// The step of the task.
    pub step: Step,
    /// The conditions that all have to hold where it is applicable, in order of text.
    pub needs: Items<BoundCond>,
    /// The atoms that it makes true, in order of text.
    pub adds: Items<Atom>,
    /// The atoms that it makes false unless it adds them too, in order of text.
    pub deletes: Items<Atom>,
    /// What it adds to which term together, in order of the first effect on each; it may be 0.
    pub changes: Items<(Term, Frac)>,
    /// What it costs.
    pub cost: Frac,
}

/// What is left of a condition where what no step changes is put in.
#[derive(Debug, Drop)]
pub enum BoundCond {
    /// The atom is true, or false where the flag is.
    Atom(bool, Atom),
    /// The linear sum and 0 compare so.
    Compare(Op, Linear),
    /// It holds in no state. Binding leaves it in goals alone.
    Never,
}

/// What a fault is about.
#[derive(Debug, Drop)]
pub enum Spot {
    /// This step.
    Step(Step),
    /// This term.
    Value(Term),
    /// The goal.
    Goal,
    /// The metric.
    Metric,
}

/// Why a task isn't bound.
#[derive(Debug, Drop)]
pub enum BindFault {
    /// The actions have more than 2^22 bindings together.
    TooManyTuples,
    /// More than 2^16 steps are kept.
    TooManySteps,
    /// Two sums that aren't constant are multiplied there, or a divisor isn't constant.
    NotLinear(Spot),
    /// The goal reads a term without a value, or divides by 0.
    GoalUndefined,
    /// The metric divides by 0.
    MetricUndefined,
    /// An operation on fractions there doesn't answer.
    NumberWide(Spot),
    /// Out of memory.
    Memory,
}

impl From<AllocError> for BindFault {
    ghost use Rattle.std.specs.Prelude.{◌≡◌};
    ghost use Rattle.np_bind.specs.declared.bound.BindFault.TheVariants.{Memory};

    ghost from_gives = { λ _ e. e ≡ Memory };

    fn from(_: AllocError) -> Self {
        BindFault::Memory
    }
}

impl<T: Drop> From<AllocFailed<T>> for BindFault {
    ghost use Rattle.std.specs.Prelude.{◌≡◌};
    ghost use Rattle.np_bind.specs.declared.bound.BindFault.TheVariants.{Memory};

    ghost from_gives = { λ _ e. e ≡ Memory };

    fn from(_: AllocFailed<T>) -> Self {
        BindFault::Memory
    }
}

/// A bound task, which contracts see as its parts. No term has two values, and each term that is read or changed has one; linear
/// sums have distinct terms, at least one, and no coefficient 0; at most 2^16 steps, no two of them for one step of the task.
#[derive(Debug, Drop)]
pub struct BoundTask {
    parts: BoundParts,
}

impl Model for BoundTask {
    ghost use Rattle.np_bind.specs.declared.bound.BoundParts.{BoundParts};
    ghost use Rattle.np_bind.specs.BoundTasks.{IsBound};
    ghost use Rattle.std.specs.Coded.{codes};

    ghost Value = { BoundParts };

    ghost coded = { Prim.hlevel codes };

    ghost view = { λ b. b.parts };

    ghost invariant = { λ b. IsBound b.parts };
}

impl BoundTask {
    /// The bound task with these parts.
    pub fn new(parts: BoundParts) -> BoundTask
        requires { IsBound parts }
        ensures { result ≡ parts }
    {
        BoundTask { parts }
    }

    /// Its parts.
    pub fn parts(&self) -> &BoundParts
        ensures parts { result.now ≡ self.now }
        ensures kept { IsBound self.now }
    {
        &self.parts
    }
}
