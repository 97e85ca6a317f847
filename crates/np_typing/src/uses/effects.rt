//! Effects.
ghost use Rattle.std.specs.Prelude.{◌≡◌, ◌++◌, ◌∷◌, []};
ghost use Rattle.std.specs.List.{flat_map};
ghost use Rattle.np_names.specs.Answers.{Answers};
ghost use Rattle.np_typing.specs.Uses.{predicate_faults, change_faults, effect_faults};
ghost use Rattle.np_typing.specs.Resolved.{predicate_number, function_number, refs_of, sum_of, effects_of};

use crate::scope::Scope;
use crate::uses::calls::{function, predicate};
use crate::uses::exprs::expr;
use np_declared::TypeFault;
use np_model::Eff;
use np_syntax::{Effect, Expr, Ident, Word};
use sqlite_items::Items;
use std::alloc::Global;

/// An atom that becomes true.
fn addition(
    alloc: Global,
    scope: &Scope<'_>,
    word: &Word,
    idents: &[Ident],
) -> Result<Eff, TypeFault>
    ensures { Answers (predicate_faults scope.now word.now idents.now) (λ e. e ≡ Eff.Add (predicate_number scope.now word.now) (refs_of scope.now idents.now)) result }
{
    let call = predicate(alloc, scope, word, idents)?;
    Ok(Eff::Add(call.symbol, call.refs))
}

/// An atom that becomes false.
fn deletion(
    alloc: Global,
    scope: &Scope<'_>,
    word: &Word,
    idents: &[Ident],
) -> Result<Eff, TypeFault>
    ensures { Answers (predicate_faults scope.now word.now idents.now) (λ e. e ≡ Eff.Delete (predicate_number scope.now word.now) (refs_of scope.now idents.now)) result }
{
    let call = predicate(alloc, scope, word, idents)?;
    Ok(Eff::Delete(call.symbol, call.refs))
}

/// A value that grows by an amount, or falls where the flag is false.
fn change(
    alloc: Global,
    scope: &Scope<'_>,
    up: bool,
    word: &Word,
    idents: &[Ident],
    amount: &Expr,
) -> Result<Eff, TypeFault>
    ensures { Answers (change_faults scope.now word.now idents.now amount.now) (λ e. e ≡ Eff.Change up (function_number scope.now word.now) (refs_of scope.now idents.now) (sum_of scope.now amount.now)) result }
{
    let call = function(alloc, scope, false, word, idents)?;
    let by = expr(alloc, scope, true, amount)?;
    Ok(Eff::Change(up, call.symbol, call.refs, by))
}

/// Puts an effect to others.
fn put(one: Eff, so_far: Items<Eff>) -> Result<Items<Eff>, TypeFault>
    ensures { Answers [] (λ all. all ≡ so_far ++ one ∷ []) result }
{
    let mut all = so_far;
    all.push(one)?;
    Ok(all)
}

/// Puts what an effect does to others.
#[cycle(effects)]
pub fn effect(
    alloc: Global,
    scope: &Scope<'_>,
    effect: &Effect,
    so_far: Items<Eff>,
) -> Result<Items<Eff>, TypeFault>
    ensures { Answers (effect_faults scope.now effect.now) (λ all. all ≡ so_far ++ effects_of scope.now effect.now) result }
{
    match effect {
        Effect::Nothing => Ok(so_far),
        Effect::And(parts) => effects(alloc, scope, parts.as_slice(), so_far),
        Effect::Add(word, idents) => put(addition(alloc, scope, word, idents.as_slice())?, so_far),
        Effect::Delete(word, idents) => {
            put(deletion(alloc, scope, word, idents.as_slice())?, so_far)
        }
        Effect::Increase(word, idents, _, amount) => {
            put(
                change(alloc, scope, true, word, idents.as_slice(), amount)?,
                so_far,
            )
        }
        Effect::Decrease(word, idents, _, amount) => {
            put(
                change(alloc, scope, false, word, idents.as_slice(), amount)?,
                so_far,
            )
        }
    }
}

/// Puts what several effects do to others.
#[cycle(effects)]
fn effects(
    alloc: Global,
    scope: &Scope<'_>,
    parts: &[Effect],
    so_far: Items<Eff>,
) -> Result<Items<Eff>, TypeFault>
    ensures { Answers (flat_map (effect_faults scope.now) parts.now) (λ all. all ≡ so_far ++ flat_map (effects_of scope.now) parts.now) result }
{
    let mut all = so_far;
    for part in parts {
        all = effect(alloc, scope, part, all)?;
    }
    Ok(all)
}
