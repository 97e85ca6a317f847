//! Expressions read as linear sums.
ghost use Rattle.std.specs.Prelude.{◌≡◌, map};
ghost use Rattle.np_model.specs.Ground.{term_of};
ghost use Rattle.np_model.specs.States.{value_among};
ghost use Rattle.np_model.specs.Tasks.{is_fixed};
ghost use Rattle.np_linear.specs.Answers.{Gives};
ghost use Rattle.np_linear.specs.Linears.{linear_of_term, begin, with_part, parts_from, linear_of};

use crate::finding::{Finding, Halt};
use crate::linear::Linear;
use crate::sums::{constant, linear_product, linear_quotient, linear_sum};
use np_frac::{Frac, Scalar};
use np_model::{Ref, Signature, Sum, Term, ValueMap, is_fixed, term_of};
use sqlite_items::Items;
use std::alloc::Global;

/// What a term with this start value stands for: the value where its function is static, else the term itself.
fn linear_of_term(
    alloc: Global,
    fixed: bool,
    term: Term,
    start: Option<Frac>,
) -> Result<Linear, Halt<Finding>>
    ensures { Gives result (linear_of_term fixed term start) }
{
    let Some(value) = start else {
        return Err(Halt::Cause(Finding::Missing));
    };
    if fixed {
        return Ok(constant(alloc, value));
    }
    let mut terms = Items::new(alloc);
    terms.push((term, Frac::one()))?;
    Ok(Linear {
        constant: Frac::zero(),
        terms,
    })
}

/// What the term of a function and references stands for.
fn linear_at(
    alloc: Global,
    functions: &[Signature],
    values: &ValueMap<'_>,
    objects: &[u32],
    function: u32,
    refs: &[Ref],
) -> Result<Linear, Halt<Finding>>
    ensures { Gives result (linear_of_term (is_fixed functions.now function) (term_of objects.now function refs.now) (value_among values.now (term_of objects.now function refs.now))) }
{
    let term = term_of(alloc, objects, function, refs)?;
    let start = values.get(&term);
    linear_of_term(alloc, is_fixed(functions, function), term, start)
}

/// What a sum begins with, and a product where the flag is false.
fn begin(alloc: Global, adds: bool) -> Linear
    ensures { result ≡ begin adds }
{
    constant(alloc, if adds { Frac::zero() } else { Frac::one() })
}

/// One more part added to a sum, or multiplied with a product where the flag is false.
fn with_part(
    alloc: Global,
    adds: bool,
    total: Linear,
    part: &Linear,
) -> Result<Linear, Halt<Finding>>
    ensures { Gives result (with_part adds total part.now) }
{
    if adds {
        linear_sum(alloc, true, total, part)
    } else {
        linear_product(alloc, &total, part)
    }
}

/// An expression as a linear sum, where the functions are declared so, terms have these values at the start, and the parameters
/// stand for these objects; or the first finding in order of text. `Halt::Memory` comes only where memory runs out.
#[cycle(linear)]
pub fn linear_of(
    alloc: Global,
    functions: &[Signature],
    values: &ValueMap<'_>,
    objects: &[u32],
    sum: &Sum,
) -> Result<Linear, Halt<Finding>>
    ensures { Gives result (linear_of functions.now values.now objects.now sum.now) }
{
    match sum {
        Sum::Number(x) => Ok(constant(alloc, *x)),
        Sum::Value(function, refs) => linear_at(
            alloc,
            functions,
            values,
            objects,
            *function,
            refs.as_slice(),
        ),
        Sum::Minus(x) => {
            let read = linear_of(alloc, functions, values, objects, x.get())?;
            linear_sum(alloc, false, constant(alloc, Frac::zero()), &read)
        }
        Sum::Sub(x, y) => {
            let left = linear_of(alloc, functions, values, objects, x.get())?;
            let right = linear_of(alloc, functions, values, objects, y.get())?;
            linear_sum(alloc, false, left, &right)
        }
        Sum::Div(x, y) => {
            let left = linear_of(alloc, functions, values, objects, x.get())?;
            let right = linear_of(alloc, functions, values, objects, y.get())?;
            linear_quotient(alloc, &left, &right)
        }
        Sum::Add(parts) => parts_of(alloc, functions, values, objects, true, parts.as_slice()),
        Sum::Mul(parts) => parts_of(alloc, functions, values, objects, false, parts.as_slice()),
    }
}

/// The sum of several expressions, or their product where the flag is false, each taken in before the next is read.
#[cycle(linear)]
#[tactic(auto, using(crate::proofs::Parts::parts_step))]
fn parts_of(
    alloc: Global,
    functions: &[Signature],
    values: &ValueMap<'_>,
    objects: &[u32],
    adds: bool,
    parts: &[Sum],
) -> Result<Linear, Halt<Finding>>
    ensures { Gives result (parts_from adds (begin adds) (map (linear_of functions.now values.now objects.now) parts.now)) }
{
    let mut total = begin(alloc, adds);
    for part in parts {
        let read = linear_of(alloc, functions, values, objects, part)?;
        total = with_part(alloc, adds, total, &read)?;
    }
    Ok(total)
}
