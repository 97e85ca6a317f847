//! Expressions.
ghost use Rattle.std.specs.Prelude.{◌≡◌, map};
ghost use Rattle.std.specs.List.{flat_map};
ghost use Rattle.np_names.specs.Answers.{Answers};
ghost use Rattle.np_typing.specs.Uses.{expr_faults, function_faults};
ghost use Rattle.np_typing.specs.Resolved.{sum_of, function_number, refs_of};

use crate::numbers::fraction_of;
use crate::scope::Scope;
use crate::uses::calls::function;
use np_declared::TypeFault;
use np_model::Sum;
use np_syntax::{Expr, Ident, Word};
use sqlite_items::{Boxed, Items};
use std::alloc::Global;

/// The value of a function.
fn read(
    alloc: Global,
    scope: &Scope<'_>,
    in_amount: bool,
    word: &Word,
    idents: &[Ident],
) -> Result<Sum, TypeFault>
    ensures { Answers (function_faults scope.now in_amount word.now idents.now) (λ sum. sum ≡ Sum.Value (function_number scope.now word.now) (refs_of scope.now idents.now)) result }
{
    let call = function(alloc, scope, in_amount, word, idents)?;
    Ok(Sum::Value(call.symbol, call.refs))
}

/// An expression. In an amount of an effect it reads static functions alone.
#[cycle(exprs)]
pub fn expr(
    alloc: Global,
    scope: &Scope<'_>,
    in_amount: bool,
    expr: &Expr,
) -> Result<Sum, TypeFault>
    ensures { Answers (expr_faults scope.now in_amount expr.now) (λ sum. sum ≡ sum_of scope.now expr.now) result }
{
    match expr {
        Expr::Number(number) => Ok(Sum::Number(fraction_of(number)?)),
        Expr::Bare(word) => read(alloc, scope, in_amount, word, &[]),
        Expr::Call(word, idents) => read(alloc, scope, in_amount, word, idents.as_slice()),
        Expr::Minus(x) => Ok(Sum::Minus(boxed(alloc, scope, in_amount, x.get())?)),
        Expr::Sub(x, y) => {
            let left = boxed(alloc, scope, in_amount, x.get())?;
            let right = boxed(alloc, scope, in_amount, y.get())?;
            Ok(Sum::Sub(left, right))
        }
        Expr::Div(x, y) => {
            let left = boxed(alloc, scope, in_amount, x.get())?;
            let right = boxed(alloc, scope, in_amount, y.get())?;
            Ok(Sum::Div(left, right))
        }
        Expr::Add(parts) => Ok(Sum::Add(exprs(alloc, scope, in_amount, parts.as_slice())?)),
        Expr::Mul(parts) => Ok(Sum::Mul(exprs(alloc, scope, in_amount, parts.as_slice())?)),
    }
}

/// An expression in a box.
#[cycle(exprs)]
fn boxed(
    alloc: Global,
    scope: &Scope<'_>,
    in_amount: bool,
    part: &Expr,
) -> Result<Boxed<Sum>, TypeFault>
    ensures { Answers (expr_faults scope.now in_amount part.now) (λ sum. sum ≡ sum_of scope.now part.now) result }
{
    let sum = expr(alloc, scope, in_amount, part)?;
    Ok(Boxed::new(alloc, sum)?)
}

/// Several expressions.
#[cycle(exprs)]
fn exprs(
    alloc: Global,
    scope: &Scope<'_>,
    in_amount: bool,
    parts: &[Expr],
) -> Result<Items<Sum>, TypeFault>
    ensures { Answers (flat_map (expr_faults scope.now in_amount) parts.now) (λ sums. sums ≡ map (sum_of scope.now) parts.now) result }
{
    let mut sums = Items::new(alloc);
    for part in parts {
        sums.push(expr(alloc, scope, in_amount, part)?)?;
    }
    Ok(sums)
}
