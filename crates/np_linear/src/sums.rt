//! Arithmetic on linear sums.
ghost use Rattle.std.specs.Prelude.{◌≡◌, ◌<◌, ◌++◌, ◌∷◌, [], true, false, suc, take, drop, length};
ghost use Rattle.np_frac.specs.Checked.{is_zero};
ghost use Rattle.np_linear.specs.Answers.{Gives};
ghost use Rattle.np_linear.specs.Linears.{with_term, with_multiple, with_multiples, constant, is_constant, linear_sum, terms_times, linear_times, linear_product, linear_quotient};

use crate::finding::{Finding, Halt};
use crate::fractions::{checked_product, checked_sum, is_zero};
use crate::linear::Linear;
use np_frac::{Frac, Scalar};
use np_model::Term;
use sqlite_items::Items;
use std::alloc::Global;

/// The terms without the one at this place.
fn without(at: usize, terms: Items<(Term, Frac)>) -> Items<(Term, Frac)>
    requires { at < length terms }
    ensures { result ≡ take at terms ++ drop (suc at) terms }
{
    let mut terms = terms;
    let _old = terms.remove(at);
    terms
}

/// The terms with another one at this place.
#[tactic(auto, using(crate::proofs::Places::set_parts))]
fn exchanged(at: usize, pair: (Term, Frac), terms: Items<(Term, Frac)>) -> Items<(Term, Frac)>
    requires { at < length terms }
    ensures { result ≡ take at terms ++ pair ∷ drop (suc at) terms }
{
    let mut terms = terms;
    terms.set(at, pair);
    terms
}

/// The terms with this coefficient in the place of an old one; a coefficient 0 vanishes, unless zeros are kept.
fn replaced(
    zeros: bool,
    term: Term,
    coefficient: Frac,
    at: usize,
    terms: Items<(Term, Frac)>,
) -> Items<(Term, Frac)>
    requires { at < length terms }
    ensures { result ≡ take at terms ++ with_term zeros term coefficient (drop (suc at) terms) }
{
    if !zeros && is_zero(&coefficient) {
        without(at, terms)
    } else {
        exchanged(at, (term, coefficient), terms)
    }
}

/// The terms and one more after them; a coefficient 0 vanishes, unless zeros are kept.
fn appended(
    zeros: bool,
    term: Term,
    coefficient: Frac,
    terms: Items<(Term, Frac)>,
) -> Result<Items<(Term, Frac)>, Halt<Finding>>
    ensures { Gives result (Ok (terms ++ with_term zeros term coefficient [])) }
{
    let mut terms = terms;
    if zeros || !is_zero(&coefficient) {
        terms.push((term, coefficient))?;
    }
    Ok(terms)
}

/// The terms with a multiple of a term added, or subtracted where the second flag is false: its coefficient changes where it
/// is there, else it comes after the others. A coefficient 0 vanishes, unless the first flag keeps zeros. `Wide` comes where a
/// coefficient gets too wide.
#[tactic(auto, using(crate::proofs::Places::put_here))]
pub fn with_multiple(
    zeros: bool,
    up: bool,
    term: Term,
    by: Frac,
    terms: Items<(Term, Frac)>,
) -> Result<Items<(Term, Frac)>, Halt<Finding>>
    ensures { Gives result (with_multiple zeros up term by terms) }
{
    for (at, pair) in terms.as_slice().iter().enumerate() {
        if term == pair.0 {
            let sum = checked_sum(up, &pair.1, &by)?;
            return Ok(replaced(zeros, term, sum, at, terms));
        }
    }
    let sum = checked_sum(up, &Frac::zero(), &by)?;
    appended(zeros, term, sum, terms)
}

/// The terms with several multiples of terms added, or subtracted where the flag is false.
fn with_multiples(
    alloc: Global,
    up: bool,
    terms: Items<(Term, Frac)>,
    more: &[(Term, Frac)],
) -> Result<Items<(Term, Frac)>, Halt<Finding>>
    ensures { Gives result (with_multiples up terms more.now) }
{
    let mut all = terms;
    for pair in more {
        let term = pair.0.copy(alloc)?;
        all = with_multiple(false, up, term, pair.1, all)?;
    }
    Ok(all)
}

/// The sum of two linear sums, or their difference where the flag is false. `Wide` comes where a coefficient or the constant
/// gets too wide.
#[tactic(auto, unfolding(crate::specs::Linears::linear_sum))]
pub fn linear_sum(
    alloc: Global,
    up: bool,
    left: Linear,
    right: &Linear,
) -> Result<Linear, Halt<Finding>>
    ensures { Gives result (linear_sum up left right.now) }
{
    let terms = with_multiples(alloc, up, left.terms, right.terms.as_slice())?;
    let constant = checked_sum(up, &left.constant, &right.constant)?;
    Ok(Linear { constant, terms })
}

/// Each coefficient times a number, or over it where the flag is set.
fn terms_times(
    alloc: Global,
    over: bool,
    by: &Frac,
    terms: &[(Term, Frac)],
) -> Result<Items<(Term, Frac)>, Halt<Finding>>
    requires { over ≡ true → is_zero by.now ≡ false }
    ensures { Gives result (terms_times over by.now terms.now) }
{
    let mut new = Items::new(alloc);
    for pair in terms {
        let coefficient = checked_product(over, &pair.1, by)?;
        let term = pair.0.copy(alloc)?;
        new = appended(false, term, coefficient, new)?;
    }
    Ok(new)
}

/// A linear sum times a number, or over it where the flag is set.
#[tactic(auto, unfolding(crate::specs::Linears::linear_times))]
fn linear_times(
    alloc: Global,
    over: bool,
    by: &Frac,
    linear: &Linear,
) -> Result<Linear, Halt<Finding>>
    requires { over ≡ true → is_zero by.now ≡ false }
    ensures { Gives result (linear_times over by.now linear.now) }
{
    let terms = terms_times(alloc, over, by, linear.terms.as_slice())?;
    let constant = checked_product(over, &linear.constant, by)?;
    Ok(Linear { constant, terms })
}

/// A constant alone.
pub(crate) fn constant(alloc: Global, value: Frac) -> Linear
    ensures { result ≡ constant value }
{
    Linear {
        constant: value,
        terms: Items::new(alloc),
    }
}

/// Whether a linear sum has no terms.
pub fn is_constant(linear: &Linear) -> bool
    ensures { result ≡ is_constant linear.now }
{
    linear.terms.as_slice().is_empty()
}

/// The product of two linear sums. `NotLinear` comes where neither is constant.
#[tactic(auto, unfolding(crate::specs::Linears::linear_product))]
pub(crate) fn linear_product(
    alloc: Global,
    left: &Linear,
    right: &Linear,
) -> Result<Linear, Halt<Finding>>
    ensures { Gives result (linear_product left.now right.now) }
{
    if is_constant(left) {
        linear_times(alloc, false, &left.constant, right)
    } else if is_constant(right) {
        linear_times(alloc, false, &right.constant, left)
    } else {
        Err(Halt::Cause(Finding::NotLinear))
    }
}

/// The quotient of two linear sums. `NotLinear` comes where the divisor isn't constant, `Missing` where it is 0.
#[tactic(auto, unfolding(crate::specs::Linears::linear_quotient))]
pub(crate) fn linear_quotient(
    alloc: Global,
    left: &Linear,
    right: &Linear,
) -> Result<Linear, Halt<Finding>>
    ensures { Gives result (linear_quotient left.now right.now) }
{
    if !is_constant(right) {
        return Err(Halt::Cause(Finding::NotLinear));
    }
    if is_zero(&right.constant) {
        return Err(Halt::Cause(Finding::Missing));
    }
    linear_times(alloc, true, &right.constant, left)
}
