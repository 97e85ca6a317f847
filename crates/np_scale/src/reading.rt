//! Conditions as subgoals by number.
ghost use Rattle.std.specs.Prelude.{◌≡◌, ◌≢◌, ◌<◌, pos, [], ◌∷◌, map, All, IfOk, OnOk};
ghost use Rattle.np_frac.specs.Fractions.{whole};
ghost use Rattle.np_flat.specs.Flats.{IsAscending};
ghost use Rattle.np_flat.specs.declared.limits.TheConstants.{CHANGE_SIZE};
ghost use Rattle.np_model.specs.declared.task.Op.TheVariants.{Equal};
ghost use Rattle.np_flat.specs.declared.parts.Subgoal.TheVariants as subgoal;
ghost use Rattle.np_scale.specs.Answers.{Answers};
ghost use Rattle.np_scale.specs.Forms.{inequalities_of, literal_of, never_form, form_of, subgoals_in};
ghost use Rattle.np_scale.specs.Limits.{checked_form, checked_subgoals, with_subgoal, with_subgoals, with_conditions};
ghost use Rattle.np_scale.specs.FlatOf.{all_subgoals};
ghost use Rattle.np_scale.specs.Code.{AnswersInto, ArePut, turned, HasNonzero};

use crate::fault::ScaleFault;
use crate::form::{Side, form_of};
use crate::numbering::{Facts, Values};
use crate::subgoal::Subgoals;
use np_bind::{BoundCond, Spot};
use np_flat::{Form, MOST_TERMS, Subgoal, put_in};
use np_linear::Linear;
use np_model::{Atom, Op};
use sqlite_items::Items;
use std::alloc::{AllocError, Global};

/// The numbers by which conditions and changes are read.
#[derive(Drop)]
pub struct Tables<'a> {
    /// The facts.
    pub facts: Facts<'a>,
    /// The values.
    pub values: Values<'a>,
    /// The unit.
    pub unit: u128,
}

/// The numbers of the subgoals that conditions come to, ascending; new subgoals come after the known ones. A fault is the first in
/// order; after it nothing is said of the subgoals.
pub fn subgoal_numbers(
    alloc: Global,
    spot: &Spot,
    tables: &Tables<'_>,
    conditions: &[BoundCond],
    subgoals: &mut Subgoals,
) -> Result<Items<u32>, ScaleFault>
    requires unit { tables.now.unit < CHANGE_SIZE }
    requires conditions { All HasNonzero conditions.now }
    ensures known { AnswersInto result subgoals.new (with_conditions spot.now tables.now.facts tables.now.values tables.now.unit subgoals.old conditions.now) }
    ensures numbers { IfOk result (ArePut subgoals.new (all_subgoals tables.now.facts tables.now.values tables.now.unit conditions.now) []) }
{
    let mut numbers = Vec::with_capacity(alloc, conditions.len())?;
    for condition in conditions {
        put_condition(alloc, spot, tables, condition, subgoals, &mut numbers)?;
    }
    Ok(Items::from_vec(numbers))
}

/// Puts the numbers of the subgoals that a condition comes to in their places.
fn put_condition(
    alloc: Global,
    spot: &Spot,
    tables: &Tables<'_>,
    condition: &BoundCond,
    subgoals: &mut Subgoals,
    numbers: &mut Vec<u32>,
) -> Result<(), ScaleFault>
    requires unit { tables.now.unit < CHANGE_SIZE }
    requires condition { HasNonzero condition.now }
    requires ascending { IsAscending numbers.old.items }
    ensures known { AnswersInto result subgoals.new (with_subgoals subgoals.old (checked_subgoals spot.now tables.now.facts tables.now.values tables.now.unit condition.now)) }
    ensures numbers { OnOk result (ArePut subgoals.new (subgoals_in tables.now.facts tables.now.values tables.now.unit condition.now) numbers.old.items numbers.new.items) }
{
    match condition {
        BoundCond::Atom(positive, atom) => {
            put_subgoal(
                literal_of(&tables.facts, *positive, atom),
                subgoals,
                numbers,
            )
        }
        BoundCond::Compare(op, sum) => {
            put_comparison(alloc, spot, tables, *op, sum, subgoals, numbers)
        }
        BoundCond::Never => put_subgoal(Subgoal::Form(never(alloc)), subgoals, numbers),
    }
}

/// An atom as a subgoal.
fn literal_of(facts: &Facts<'_>, positive: bool, atom: &Atom) -> Subgoal
    ensures { result ≡ literal_of facts.now positive atom.now }
{
    let number = facts.number(atom);
    if positive {
        Subgoal::Fact(number)
    } else {
        Subgoal::NotFact(number)
    }
}

/// The form that is never at least 0.
fn never(alloc: Global) -> Form
    ensures { result ≡ never_form }
{
    Form {
        constant: -1,
        terms: Items::new(alloc),
    }
}

/// Puts the numbers of the forms of a comparison in their places.
fn put_comparison(
    alloc: Global,
    spot: &Spot,
    tables: &Tables<'_>,
    op: Op,
    sum: &Linear,
    subgoals: &mut Subgoals,
    numbers: &mut Vec<u32>,
) -> Result<(), ScaleFault>
    requires unit { tables.now.unit < CHANGE_SIZE }
    requires coefficients { All (λ t. t.1 ≢ whole (pos 0)) sum.now.terms }
    requires ascending { IsAscending numbers.old.items }
    ensures known { AnswersInto result subgoals.new (with_subgoals subgoals.old (map (checked_form spot.now tables.now.values tables.now.unit) (inequalities_of op sum.now))) }
    ensures numbers { OnOk result (ArePut subgoals.new (map (λ side. subgoal.Form (form_of tables.now.values tables.now.unit side)) (inequalities_of op sum.now)) numbers.old.items numbers.new.items) }
{
    let at_least = Side {
        strict: false,
        negated: false,
    };
    let above = Side {
        strict: true,
        negated: false,
    };
    let at_most = Side {
        strict: false,
        negated: true,
    };
    let below = Side {
        strict: true,
        negated: true,
    };
    match op {
        Op::AtLeast => put_side(alloc, spot, tables, at_least, sum, subgoals, numbers),
        Op::Greater => put_side(alloc, spot, tables, above, sum, subgoals, numbers),
        Op::AtMost => put_side(alloc, spot, tables, at_most, sum, subgoals, numbers),
        Op::Less => put_side(alloc, spot, tables, below, sum, subgoals, numbers),
        Op::Equal => put_both_sides(alloc, spot, tables, sum, subgoals, numbers),
    }
}

/// Puts the numbers of the two forms of an equality in their places.
fn put_both_sides(
    alloc: Global,
    spot: &Spot,
    tables: &Tables<'_>,
    sum: &Linear,
    subgoals: &mut Subgoals,
    numbers: &mut Vec<u32>,
) -> Result<(), ScaleFault>
    requires unit { tables.now.unit < CHANGE_SIZE }
    requires coefficients { All (λ t. t.1 ≢ whole (pos 0)) sum.now.terms }
    requires ascending { IsAscending numbers.old.items }
    ensures known { AnswersInto result subgoals.new (with_subgoals subgoals.old (map (checked_form spot.now tables.now.values tables.now.unit) (inequalities_of Equal sum.now))) }
    ensures numbers { OnOk result (ArePut subgoals.new (map (λ side. subgoal.Form (form_of tables.now.values tables.now.unit side)) (inequalities_of Equal sum.now)) numbers.old.items numbers.new.items) }
{
    let at_least = Side {
        strict: false,
        negated: false,
    };
    put_side(alloc, spot, tables, at_least, sum, subgoals, numbers)?;
    let at_most = Side {
        strict: false,
        negated: true,
    };
    put_side(alloc, spot, tables, at_most, sum, subgoals, numbers)
}

/// Puts the number of the form of one side of a comparison in its place.
fn put_side(
    alloc: Global,
    spot: &Spot,
    tables: &Tables<'_>,
    side: Side,
    sum: &Linear,
    subgoals: &mut Subgoals,
    numbers: &mut Vec<u32>,
) -> Result<(), ScaleFault>
    requires unit { tables.now.unit < CHANGE_SIZE }
    requires coefficients { All (λ t. t.1 ≢ whole (pos 0)) sum.now.terms }
    requires ascending { IsAscending numbers.old.items }
    ensures known { AnswersInto result subgoals.new (with_subgoals subgoals.old (checked_form spot.now tables.now.values tables.now.unit (side.strict, turned side.negated sum.now) ∷ [])) }
    ensures numbers { OnOk result (ArePut subgoals.new (subgoal.Form (form_of tables.now.values tables.now.unit (side.strict, turned side.negated sum.now)) ∷ []) numbers.old.items numbers.new.items) }
{
    let subgoal = form_subgoal(alloc, spot, tables, side, sum)?;
    put_subgoal(subgoal, subgoals, numbers)
}

/// The form of one side of a comparison as a subgoal, or its fault.
fn form_subgoal(
    alloc: Global,
    spot: &Spot,
    tables: &Tables<'_>,
    side: Side,
    sum: &Linear,
) -> Result<Subgoal, ScaleFault>
    requires unit { tables.now.unit < CHANGE_SIZE }
    requires coefficients { All (λ t. t.1 ≢ whole (pos 0)) sum.now.terms }
    ensures { Answers result (checked_form spot.now tables.now.values tables.now.unit (side.strict, turned side.negated sum.now)) }
{
    if sum.terms.len() > MOST_TERMS {
        return Err(ScaleFault::FormLong(copy_spot(alloc, spot)?));
    }
    match form_of(alloc, &tables.values, tables.unit, side, sum)? {
        Some(form) => Ok(Subgoal::Form(form)),
        None => Err(ScaleFault::NumberWide(copy_spot(alloc, spot)?)),
    }
}

/// Puts the number of a subgoal in its place.
fn put_subgoal(
    subgoal: Subgoal,
    subgoals: &mut Subgoals,
    numbers: &mut Vec<u32>,
) -> Result<(), ScaleFault>
    requires { IsAscending numbers.old.items }
    ensures known { AnswersInto result subgoals.new (with_subgoal subgoals.old subgoal) }
    ensures numbers { OnOk result (ArePut subgoals.new (subgoal ∷ []) numbers.old.items numbers.new.items) }
{
    let number = subgoals.put(subgoal)?;
    put_in(numbers, number)?;
    Ok(())
}

/// A copy of a spot. Out of memory is an error.
pub fn copy_spot(alloc: Global, spot: &Spot) -> Result<Spot, AllocError>
    ensures { IfOk result (λ copy. copy ≡ spot.now) }
{
    Ok(match spot {
        Spot::Step(step) => Spot::Step(step.copy(alloc)?),
        Spot::Value(term) => Spot::Value(term.copy(alloc)?),
        Spot::Goal => Spot::Goal,
        Spot::Metric => Spot::Metric,
    })
}
