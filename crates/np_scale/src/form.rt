//! Comparisons as whole forms.
ghost use Rattle.std.specs.Prelude.{◌≡◌, ◌≢◌, ◌<◌, ◌*ℤ◌, pos, map, false, All, IfOk, IfSome};
ghost use Rattle.np_frac.specs.Fractions.{whole, times};
ghost use Rattle.np_model.specs.Ground.{same_term};
ghost use Rattle.np_flat.specs.declared.limits.TheConstants.{CHANGE_SIZE, COEFFICIENT_SIZE};
ghost use Rattle.np_scale.specs.Tables.{number_of};
ghost use Rattle.np_scale.specs.Wholes.{whole_times};
ghost use Rattle.np_scale.specs.Forms.{by_number};
ghost use Rattle.np_scale.specs.Code.{sign_of, small, IsFirst, AreNonzero, ratio_lcm, factor_for, whole_by, are_small, small_terms, AreMadeWhole, is_fitting, IsFactor, small_constant, turned, signed, small_form};

use crate::numbering::Values;
use crate::place::put_in_place;
use crate::whole::{constant_from, lcm_below, negated};
use np_flat::{COEFFICIENT_SIZE, CONSTANT_SIZE, Form};
use np_frac::{Frac, Scalar};
use np_linear::Linear;
use np_model::Term;
use sqlite_items::Items;
use std::alloc::{AllocError, Global};

/// What a comparison asks of a linear sum: that it's at least 0.
#[derive(Clone, Copy)]
pub struct Side {
    /// It is to be above 0.
    pub strict: bool,
    /// It is to be so with each sign changed.
    pub negated: bool,
}

/// The form of one side of a comparison; `None` where an operation on fractions doesn't answer or a number is past its limit. Out of
/// memory is an error.
pub fn form_of(
    alloc: Global,
    values: &Values<'_>,
    unit: u128,
    side: Side,
    sum: &Linear,
) -> Result<Option<Form>, AllocError>
    requires unit { unit < CHANGE_SIZE }
    requires coefficients { All (λ t. t.1 ≢ whole (pos 0)) sum.now.terms }
    ensures { IfOk result (λ form. form ≡ small_form values.now unit (side.strict, turned side.negated sum.now)) }
{
    let coefficients = coefficients_of(alloc, values, side.negated, sum.terms.as_slice())?;
    let constant = signed(side.negated, &sum.constant);
    let Some(factor) = factor_of(coefficients.as_slice()) else {
        return Ok(None);
    };
    let Some(constant) = whole_constant(side.strict, &constant, unit, &factor) else {
        return Ok(None);
    };
    let Some(terms) = whole_terms(alloc, coefficients.as_slice(), &factor)? else {
        return Ok(None);
    };
    Ok(Some(Form { constant, terms }))
}

/// The coefficients, or the negated ones, in the order of their values' numbers.
fn coefficients_of(
    alloc: Global,
    values: &Values<'_>,
    negated: bool,
    terms: &[(Term, Frac)],
) -> Result<Vec<(u32, Frac)>, AllocError>
    ensures { IfOk result (λ cs. cs.items ≡ by_number (map (λ t. (number_of same_term values.now t.0, signed negated t.1)) terms.now)) }
{
    let mut coefficients = Vec::with_capacity(alloc, terms.len())?;
    for place in (0..terms.len()).rev() {
        let (term, coefficient) = &terms[place];
        put_in_place(
            &mut coefficients,
            values.number(term),
            signed(negated, coefficient),
        )?;
    }
    Ok(coefficients)
}

/// The number, or the negated one.
fn signed(turned: bool, number: &Frac) -> Frac
    ensures { result ≡ signed turned number.now }
{
    if turned {
        Frac::of(negated(number.num()), number.den() as i128).unwrap()
    } else {
        *number
    }
}

/// The factor that makes the coefficients whole, without a common divisor; `None` where the first whole coefficient over the first one
/// doesn't answer, or a whole coefficient is past its limit.
fn factor_of(coefficients: &[(u32, Frac)]) -> Option<Frac>
    requires { AreNonzero coefficients.now }
    ensures some { IfSome result (IsFactor coefficients.now) }
    ensures none { result ≡ None → is_fitting coefficients.now ≡ false }
{
    let Some((_, first)) = coefficients.first() else {
        return Some(Frac::one());
    };
    let lcm = ratio_lcm(first, coefficients)?;
    let whole = <Frac as Scalar>::whole(with_sign(lcm, first.num()))?;
    whole.div(first)
}

/// The number of this size with the sign of the other one.
fn with_sign(size: u128, other: i128) -> i128
    requires { size < COEFFICIENT_SIZE }
    ensures { result ≡ sign_of other *ℤ pos size }
{
    if other < 0 {
        -(size as i128)
    } else {
        size as i128
    }
}

/// The least common multiple of the denominators of the coefficients' ratios to the first one; `None` where it, and so the first whole
/// coefficient, or another one is past its limit.
fn ratio_lcm(first: &Frac, coefficients: &[(u32, Frac)]) -> Option<u128>
    requires nonzero { AreNonzero coefficients.now }
    requires first { IsFirst first.now coefficients.now }
    ensures some { IfSome result (λ n. n ≡ ratio_lcm first.now coefficients.now) }
    ensures small { IfSome result (λ n. n < COEFFICIENT_SIZE) }
    ensures none { result ≡ None → are_small (whole_by (factor_for coefficients.now) coefficients.now) ≡ false }
{
    let mut lcm = 1;
    for place in 1..coefficients.len() {
        let (_, coefficient) = &coefficients[place];
        let ratio = coefficient.div(first)?;
        lcm = lcm_below(COEFFICIENT_SIZE, lcm, ratio.den())?;
    }
    Some(lcm)
}

/// The constant of the form; `None` where an operation doesn't answer or it is past its limit.
fn whole_constant(strict: bool, constant: &Frac, unit: u128, factor: &Frac) -> Option<i128>
    requires { unit < CHANGE_SIZE }
    ensures { result ≡ small_constant strict constant.now unit factor.now }
{
    let unit = <Frac as Scalar>::whole(unit as i128)?;
    let exact = constant.mul(&unit)?.mul(factor)?;
    let whole = constant_from(strict, &exact);
    if whole.unsigned_abs() < CONSTANT_SIZE {
        Some(whole)
    } else {
        None
    }
}

/// The whole coefficients; `None` where one is past its limit. Out of memory is an error.
fn whole_terms(
    alloc: Global,
    coefficients: &[(u32, Frac)],
    factor: &Frac,
) -> Result<Option<Items<(u32, i128)>>, AllocError>
    requires { AreMadeWhole factor.now coefficients.now }
    ensures { IfOk result (λ terms. terms ≡ small_terms factor.now coefficients.now) }
{
    let mut terms = Items::new(alloc);
    for (number, coefficient) in coefficients {
        let Some(whole) = whole_coefficient(factor, coefficient) else {
            return Ok(None);
        };
        terms.push((*number, whole))?;
    }
    Ok(Some(terms))
}

/// A whole coefficient; `None` where it is past its limit.
fn whole_coefficient(factor: &Frac, coefficient: &Frac) -> Option<i128>
    requires { (times factor.now coefficient.now).den ≡ 1 }
    ensures { result ≡ small COEFFICIENT_SIZE (whole_times factor.now coefficient.now) }
{
    let whole = factor.mul(coefficient)?.num();
    if whole.unsigned_abs() < COEFFICIENT_SIZE {
        Some(whole)
    } else {
        None
    }
}
