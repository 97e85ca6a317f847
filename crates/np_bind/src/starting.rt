//! The values at the start.
ghost use Rattle.std.specs.Prelude.{◌≡◌, ◌++◌, [], map, not, ◌&&◌, ◌||◌, is_some, IfOk, OnOk};
ghost use Rattle.std.specs.Borrow.{Bor};
ghost use Rattle.std.specs.List.{flat_map};
ghost use Rattle.std.specs.Option.{option_copied, option_map_or};
ghost use Rattle.indexmap.specs.IndexSet as sets;
ghost use Rattle.np_model.specs.declared.task.Term.{Term};
ghost use Rattle.np_model.specs.Ground.{same_term};
ghost use Rattle.np_model.specs.States.{value_among};
ghost use Rattle.np_model.specs.Values.{terms_of};
ghost use Rattle.np_model.specs.Plans.{with_zeros, start_values};

use indexmap::IndexSet;
use np_frac::{Frac, Scalar};
use np_model::{Sum, TaskParts, Term, ValueMap, term_of};
use sqlite_items::Items;
use std::alloc::{AllocError, Global};

/// The ground terms that an expression without parameters reads, after others.
#[cycle(terms)]
fn terms_after(alloc: Global, sum: &Sum, before: Items<Term>) -> Result<Items<Term>, AllocError>
    ensures { IfOk result (λ all. all ≡ before ++ terms_of sum.now) }
{
    match sum {
        Sum::Number(_) => Ok(before),
        Sum::Value(function, refs) => {
            let mut all = before;
            all.push(term_of(alloc, &[], *function, refs.as_slice())?)?;
            Ok(all)
        }
        Sum::Minus(x) => terms_after(alloc, x.get(), before),
        Sum::Sub(x, y) => {
            let all = terms_after(alloc, x.get(), before)?;
            terms_after(alloc, y.get(), all)
        }
        Sum::Div(x, y) => {
            let all = terms_after(alloc, x.get(), before)?;
            terms_after(alloc, y.get(), all)
        }
        Sum::Add(parts) => terms_of_parts(alloc, parts.as_slice(), before),
        Sum::Mul(parts) => terms_of_parts(alloc, parts.as_slice(), before),
    }
}

/// The ground terms that expressions without parameters read, after others.
#[cycle(terms)]
fn terms_of_parts(
    alloc: Global,
    parts: &[Sum],
    before: Items<Term>,
) -> Result<Items<Term>, AllocError>
    ensures { IfOk result (λ all. all ≡ before ++ flat_map (λ x. x) (map terms_of parts.now)) }
{
    let mut all = before;
    for part in parts {
        all = terms_after(alloc, part, all)?;
    }
    Ok(all)
}

/// The terms that the metric reads.
fn metric_terms(alloc: Global, metric: Option<&Sum>) -> Result<Items<Term>, AllocError>
    ensures { IfOk result (λ terms. terms ≡ option_map_or terms_of (option_copied metric.entry) []) }
{
    match metric {
        Some(metric) => terms_after(alloc, metric, Items::new(alloc)),
        None => Ok(Items::new(alloc)),
    }
}

/// A copy of values.
fn copy_values(alloc: Global, values: &[(Term, Frac)]) -> Result<Items<(Term, Frac)>, AllocError>
    ensures { IfOk result (λ copy. copy ≡ values.now) }
{
    let mut copy = Items::new(alloc);
    for value in values {
        copy.push((value.0.copy(alloc)?, value.1))?;
    }
    Ok(copy)
}

/// Puts a term to those that were met, and says whether it is new: not met before, and without a value.
fn meet<'a>(
    given: &ValueMap<'_>,
    met: &mut IndexSet<&'a Term>,
    term: &'a Term,
) -> Result<bool, AllocError>
    ensures new { IfOk result (λ new. new ≡ (not (is_some (value_among given.now term.now)) && not (sets.contains (λ x y. same_term x.now y.now) met.old term.entry))) }
    ensures met { OnOk result ((q : Bor Term) → (is_some (value_among given.now q.now) || sets.contains (λ x y. same_term x.now y.now) met.new q)
        ≡ ((is_some (value_among given.now q.now) || sets.contains (λ x y. same_term x.now y.now) met.old q) || same_term q.now term.now)) }
{
    if given.get(term).is_some() {
        return Ok(false);
    }
    Ok(met.insert(term)?)
}

/// The values, and then 0 for each of these terms that they give none, each once.
fn with_zeros(
    alloc: Global,
    values: &[(Term, Frac)],
    terms: &[Term],
) -> Result<Items<(Term, Frac)>, AllocError>
    ensures { IfOk result (λ all. all ≡ with_zeros values.now terms.now) }
{
    let given = ValueMap::new(alloc, values)?;
    let mut met = IndexSet::new(alloc);
    let mut all = copy_values(alloc, values)?;
    for term in terms {
        if meet(&given, &mut met, term)? {
            all.push((term.copy(alloc)?, Frac::zero()))?;
        }
    }
    Ok(all)
}

/// The values at the start: the task's, and 0 for each ground term of the metric that it gives none.
pub(crate) fn start_values(
    alloc: Global,
    task: &TaskParts,
) -> Result<Items<(Term, Frac)>, AllocError>
    ensures { IfOk result (λ values. values ≡ start_values task.now) }
{
    let terms = metric_terms(alloc, task.metric.as_ref())?;
    with_zeros(alloc, task.values.as_slice(), terms.as_slice())
}
