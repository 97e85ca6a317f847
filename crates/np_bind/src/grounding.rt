//! Conditions, costs and steps where objects stand for the parameters and what no step changes is put in.
ghost use Rattle.std.specs.Prelude.{◌≡◌, ◌∷◌, [], ◌==◌, Ok};
ghost use Rattle.np_model.specs.Ground.{atom_of, object_of};
ghost use Rattle.np_model.specs.Conditions.{with_sign};
ghost use Rattle.np_model.specs.States.{is_among};
ghost use Rattle.np_model.specs.Tasks.{is_fixed};
ghost use Rattle.np_linear.specs.Answers.{Gives};
ghost use Rattle.np_linear.specs.Linears.{zero};
ghost use Rattle.np_bind.specs.Grounding.{left_of_known, left_of_atom, left_of_comparison, difference_of, left_of_condition, left_of_all, number_on, cost_over, cost_of_changes, bound_step};

use crate::bound::{BoundCond, BoundStep};
use crate::known::Known;
use crate::net::{Net, net_of};
use np_frac::{Frac, Scalar};
use np_linear::{Finding, Halt, Linear, checked_product, checked_sum, is_constant, linear_sum};
use np_model::{Action, Cond, Objects, Op, Ref, Step, Sum, Term, atom_of, object_of, with_sign};
use sqlite_items::Items;
use std::alloc::Global;

/// What is left of a condition that is known: nothing where it holds, else `Fails`.
fn left_of_known(alloc: Global, holds: bool) -> Result<Items<BoundCond>, Halt<Finding>>
    ensures { Gives result (left_of_known holds) }
{
    if holds {
        Ok(Items::new(alloc))
    } else {
        Err(Halt::Cause(Finding::Fails))
    }
}

/// A condition alone.
fn alone(alloc: Global, condition: BoundCond) -> Result<Items<BoundCond>, Halt<Finding>>
    ensures { Gives result (Ok (condition ∷ [])) }
{
    let mut all = Items::new(alloc);
    all.push(condition)?;
    Ok(all)
}

/// What is left of a comparison of a linear sum with 0.
fn left_of_comparison(
    alloc: Global,
    op: Op,
    linear: Linear,
) -> Result<Items<BoundCond>, Halt<Finding>>
    ensures { Gives result (left_of_comparison op linear) }
{
    if is_constant(&linear) {
        left_of_known(alloc, op.compares(&linear.constant, &Frac::zero()))
    } else {
        alone(alloc, BoundCond::Compare(op, linear))
    }
}

/// What is left of the condition that an atom of a predicate and references is true, or false where the flag is.
fn left_of_atom(
    alloc: Global,
    known: &Known<'_>,
    objects: &[u32],
    positive: bool,
    predicate: u32,
    refs: &[Ref],
) -> Result<Items<BoundCond>, Halt<Finding>>
    ensures { Gives result (left_of_atom (is_fixed known.now.task.predicates predicate) positive (is_among known.now.task.atoms (atom_of objects.now predicate refs.now)) (atom_of objects.now predicate refs.now)) }
{
    let atom = atom_of(alloc, objects, predicate, refs)?;
    if known.is_static(predicate) {
        left_of_known(alloc, with_sign(positive, known.has(&atom)))
    } else {
        alone(alloc, BoundCond::Atom(positive, atom))
    }
}

/// The left side of a comparison less the right one.
#[tactic(auto, unfolding(crate::specs::Grounding::difference_of))]
fn difference_of(
    alloc: Global,
    known: &Known<'_>,
    objects: &[u32],
    x: &Sum,
    y: &Sum,
) -> Result<Linear, Halt<Finding>>
    ensures { Gives result (difference_of known.now.task known.now.values objects.now x.now y.now) }
{
    let left = known.linear_of(alloc, objects, x)?;
    let right = known.linear_of(alloc, objects, y)?;
    linear_sum(alloc, false, left, &right)
}

/// What is left of a condition, or why no binding with these objects is kept.
pub(crate) fn left_of_condition(
    alloc: Global,
    known: &Known<'_>,
    objects: &[u32],
    condition: &Cond,
) -> Result<Items<BoundCond>, Halt<Finding>>
    ensures { Gives result (left_of_condition known.now.task known.now.values objects.now condition.now) }
{
    match condition {
        Cond::Atom(positive, predicate, refs) => {
            left_of_atom(
                alloc,
                known,
                objects,
                *positive,
                *predicate,
                refs.as_slice(),
            )
        }
        Cond::Same(positive, a, b) => {
            let same = object_of(objects, *a) == object_of(objects, *b);
            left_of_known(alloc, with_sign(*positive, same))
        }
        Cond::Compare(op, x, y) => {
            let difference = difference_of(alloc, known, objects, x, y)?;
            left_of_comparison(alloc, *op, difference)
        }
    }
}

/// What is left of conditions, in their order.
fn left_of_all(
    alloc: Global,
    known: &Known<'_>,
    objects: &[u32],
    conditions: &[Cond],
) -> Result<Items<BoundCond>, Halt<Finding>>
    ensures { Gives result (left_of_all (left_of_condition known.now.task known.now.values objects.now) conditions.now) }
{
    let mut all = Items::new(alloc);
    for condition in conditions {
        let left = left_of_condition(alloc, known, objects, condition)?;
        all.append(left)?;
    }
    Ok(all)
}

/// The net change on a term; 0 where there is none.
fn number_on(changes: &[(Term, Frac)], term: &Term) -> Frac
    ensures { result ≡ number_on changes.now term.now }
{
    for change in changes {
        if *term == change.0 {
            return change.1;
        }
    }
    Frac::zero()
}

/// Coefficient times net change, added up in the order of the metric's terms.
fn cost_over(terms: &[(Term, Frac)], changes: &[(Term, Frac)]) -> Result<Frac, Halt<Finding>>
    ensures { Gives result (cost_over zero terms.now changes.now) }
{
    let mut total = Frac::zero();
    for pair in terms {
        let part = checked_product(false, &pair.1, &number_on(changes, &pair.0))?;
        total = checked_sum(true, &total, &part)?;
    }
    Ok(total)
}

/// The cost of net changes; 1 without a metric.
fn cost_of_changes(metric: &Option<Linear>, changes: &[(Term, Frac)]) -> Result<Frac, Halt<Finding>>
    ensures { Gives result (cost_of_changes metric.now changes.now) }
{
    match metric {
        None => Ok(Frac::one()),
        Some(metric) => cost_over(metric.terms.as_slice(), changes),
    }
}

/// The step of the action of this number and these objects, bound; or the first finding in order of text.
#[tactic(auto, unfolding(crate::specs::Grounding::bound_step))]
pub(crate) fn bound_step(
    alloc: Global,
    known: &Known<'_>,
    metric: &Option<Linear>,
    number: u32,
    action: &Action,
    objects: &[u32],
) -> Result<BoundStep, Halt<Finding>>
    ensures { Gives result (bound_step known.now.task known.now.values metric.now (record { action = number; objects = objects.now }) action.now) }
{
    let needs = left_of_all(alloc, known, objects, action.needs.as_slice())?;
    let net = net_of(alloc, known, objects, action.effects.as_slice())?;
    let cost = cost_of_changes(metric, net.changes.as_slice())?;
    let objects = Objects::from_slice(alloc, objects)?;
    let Net {
        adds,
        deletes,
        changes,
    } = net;
    Ok(BoundStep {
        step: Step {
            action: number,
            objects,
        },
        needs,
        adds,
        deletes,
        changes,
        cost,
    })
}
