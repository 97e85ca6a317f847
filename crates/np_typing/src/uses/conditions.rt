//! Conditions.
ghost use Rattle.std.specs.Prelude.{◌≡◌, ◌++◌, ◌∷◌, [], false};
ghost use Rattle.std.specs.List.{flat_map};
ghost use Rattle.np_model.specs.Conditions.{turned};
ghost use Rattle.np_names.specs.Answers.{Answers};
ghost use Rattle.np_typing.specs.Scopes.{ref_of};
ghost use Rattle.np_typing.specs.Uses.{predicate_faults, expr_faults, object_faults, condition_faults};
ghost use Rattle.np_typing.specs.Resolved.{op_of, sum_of, predicate_number, refs_of, conditions_of};

use crate::scope::Scope;
use crate::uses::calls::predicate;
use crate::uses::equalities::equality;
use crate::uses::exprs::expr;
use np_declared::TypeFault;
use np_model::{Cond, Op};
use np_syntax::{Condition, Expr, Ident, Op as Comparison, Word};
use sqlite_items::Items;
use std::alloc::Global;

/// How two numbers compare.
fn op_of(op: Comparison) -> Op
    ensures { result ≡ op_of op }
{
    match op {
        Comparison::Less => Op::Less,
        Comparison::Greater => Op::Greater,
        Comparison::AtMost => Op::AtMost,
        Comparison::AtLeast => Op::AtLeast,
    }
}

/// An atom, or its negation where the flag is false.
fn atom(
    alloc: Global,
    scope: &Scope<'_>,
    positive: bool,
    word: &Word,
    idents: &[Ident],
) -> Result<Cond, TypeFault>
    ensures { Answers (predicate_faults scope.now word.now idents.now) (λ c. c ≡ Cond.Atom positive (predicate_number scope.now word.now) (refs_of scope.now idents.now)) result }
{
    let call = predicate(alloc, scope, word, idents)?;
    Ok(Cond::Atom(positive, call.symbol, call.refs))
}

/// A comparison.
fn comparison(
    alloc: Global,
    scope: &Scope<'_>,
    op: Op,
    left: &Expr,
    right: &Expr,
) -> Result<Cond, TypeFault>
    ensures { Answers (expr_faults scope.now false left.now ++ expr_faults scope.now false right.now) (λ c. c ≡ Cond.Compare op (sum_of scope.now left.now) (sum_of scope.now right.now)) result }
{
    let first = expr(alloc, scope, false, left)?;
    let second = expr(alloc, scope, false, right)?;
    Ok(Cond::Compare(op, first, second))
}

/// Objects that aren't the same.
fn different(scope: &Scope<'_>, left: &Ident, right: &Ident) -> Result<Cond, TypeFault>
    ensures { Answers (object_faults scope.now left.now ++ object_faults scope.now right.now) (λ c. c ≡ Cond.Same false (ref_of scope.now left.now) (ref_of scope.now right.now)) result }
{
    let first = scope.known(left)?;
    let second = scope.known(right)?;
    Ok(Cond::Same(false, first, second))
}

/// Puts a condition to others.
fn put(one: Cond, so_far: Items<Cond>) -> Result<Items<Cond>, TypeFault>
    ensures { Answers [] (λ all. all ≡ so_far ++ one ∷ []) result }
{
    let mut all = so_far;
    all.push(one)?;
    Ok(all)
}

/// Puts what a condition asks for to others.
#[cycle(conditions)]
pub fn condition(
    alloc: Global,
    scope: &Scope<'_>,
    condition: &Condition,
    so_far: Items<Cond>,
) -> Result<Items<Cond>, TypeFault>
    ensures { Answers (condition_faults scope.now condition.now) (λ all. all ≡ so_far ++ conditions_of scope.now condition.now) result }
{
    match condition {
        Condition::Nothing => Ok(so_far),
        Condition::And(parts) => conditions(alloc, scope, parts.as_slice(), so_far),
        Condition::Atom(word, idents) => {
            put(atom(alloc, scope, true, word, idents.as_slice())?, so_far)
        }
        Condition::NotAtom(word, idents) => {
            put(atom(alloc, scope, false, word, idents.as_slice())?, so_far)
        }
        Condition::Compare(op, left, right) => {
            put(comparison(alloc, scope, op_of(*op), left, right)?, so_far)
        }
        Condition::NotCompare(op, left, right) => {
            put(
                comparison(alloc, scope, op_of(*op).turned(), left, right)?,
                so_far,
            )
        }
        Condition::Equal(left, right) => put(equality(alloc, scope, left, right)?, so_far),
        Condition::NotSame(left, right) => put(different(scope, left, right)?, so_far),
    }
}

/// Puts what several conditions ask for to others.
#[cycle(conditions)]
fn conditions(
    alloc: Global,
    scope: &Scope<'_>,
    parts: &[Condition],
    so_far: Items<Cond>,
) -> Result<Items<Cond>, TypeFault>
    ensures { Answers (flat_map (condition_faults scope.now) parts.now) (λ all. all ≡ so_far ++ flat_map (conditions_of scope.now) parts.now) result }
{
    let mut all = so_far;
    for part in parts {
        all = condition(alloc, scope, part, all)?;
    }
    Ok(all)
}
