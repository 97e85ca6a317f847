//! Effects.

ghost use Rattle.np_lex.specs.Lexers.{items_left};
ghost use Rattle.np_read.specs.ItemAnswers.{Gives};
ghost use Rattle.np_read.specs.ItemReaders as readers;
ghost use Rattle.np_conditions.specs.EffectForm as form;

use super::conditions::atom;
use crate::effect::Effect;
use np_lex::Lexer;
use np_read::{ReadFault, left, right};
use np_words::read::{last, name};
use np_words::{Expr, Ident, Word};
use sqlite_items::Items;
use std::alloc::Global;

/// What an effect changes: a name, its arguments, and whether the name stands alone.
type Target = (Word, Items<Ident>, bool);

/// Reads a name alone.
#[tactic(auto, unfolding(crate::specs::EffectForm::bare_target))]
fn bare_target(alloc: Global, lexer: &mut Lexer<'_>) -> Result<Target, ReadFault>
    ensures { Gives (λ x. x) (items_left lexer.new) result (form.bare_target (items_left lexer.old)) }
{
    let function = name(alloc, lexer)?;
    Ok((function, Items::new(alloc), true))
}

/// Reads a name and its arguments, after the opening bracket.
#[tactic(auto, unfolding(crate::specs::EffectForm::called_target))]
fn called_target(alloc: Global, lexer: &mut Lexer<'_>) -> Result<Target, ReadFault>
    ensures { Gives (λ x. x) (items_left lexer.new) result (form.called_target (items_left lexer.old)) }
{
    let (function, arguments) = atom(alloc, lexer)?;
    Ok((function, arguments, false))
}

/// Reads what an effect changes, where so many brackets may be opened.
fn target(alloc: Global, depth: u32, lexer: &mut Lexer<'_>) -> Result<Target, ReadFault>
    ensures { Gives (λ x. x) (items_left lexer.new) result (form.target depth (items_left lexer.old)) }
{
    if depth == 0 {
        return bare_target(alloc, lexer);
    }
    if lexer.take_left() {
        return called_target(alloc, lexer);
    }
    bare_target(alloc, lexer)
}

/// Reads what an effect changes, by what, and the closing bracket.
#[tactic(auto, unfolding(crate::specs::EffectForm::change))]
fn change(alloc: Global, depth: u32, lexer: &mut Lexer<'_>) -> Result<(Target, Expr), ReadFault>
    ensures { Gives (λ x. x) (items_left lexer.new) result (form.change depth (items_left lexer.old)) }
{
    let changed = target(alloc, depth, lexer)?;
    let amount = last(alloc, depth, lexer)?;
    Ok((changed, amount))
}

/// Reads an atom, after its bracket.
#[tactic(auto, unfolding(crate::specs::EffectForm::added))]
fn added(alloc: Global, lexer: &mut Lexer<'_>) -> Result<Effect, ReadFault>
    ensures { Gives (λ x. x) (items_left lexer.new) result (form.added (items_left lexer.old)) }
{
    let (predicate, arguments) = atom(alloc, lexer)?;
    Ok(Effect::Add(predicate, arguments))
}

/// Reads what follows `decrease`.
#[tactic(auto, unfolding(crate::specs::EffectForm::decreased))]
fn decreased(alloc: Global, depth: u32, lexer: &mut Lexer<'_>) -> Result<Effect, ReadFault>
    ensures { Gives (λ x. x) (items_left lexer.new) result (form.decreased depth (items_left lexer.old)) }
{
    let ((function, arguments, alone), amount) = change(alloc, depth, lexer)?;
    Ok(Effect::Decrease(function, arguments, alone, amount))
}

/// Reads a decrease or an atom, after its bracket.
#[tactic(auto, using(crate::proofs::EffectLexing::decrease_taken, crate::proofs::EffectLexing::decrease_left))]
fn from_decrease(alloc: Global, depth: u32, lexer: &mut Lexer<'_>) -> Result<Effect, ReadFault>
    ensures { Gives (λ x. x) (items_left lexer.new) result (form.from_decrease depth (items_left lexer.old)) }
{
    if lexer.take_name(b"decrease") {
        return decreased(alloc, depth, lexer);
    }
    added(alloc, lexer)
}

/// Reads what follows `increase`.
#[tactic(auto, unfolding(crate::specs::EffectForm::increased))]
fn increased(alloc: Global, depth: u32, lexer: &mut Lexer<'_>) -> Result<Effect, ReadFault>
    ensures { Gives (λ x. x) (items_left lexer.new) result (form.increased depth (items_left lexer.old)) }
{
    let ((function, arguments, alone), amount) = change(alloc, depth, lexer)?;
    Ok(Effect::Increase(function, arguments, alone, amount))
}

/// Reads a change or an atom, after its bracket.
#[tactic(auto, using(crate::proofs::EffectLexing::increase_taken, crate::proofs::EffectLexing::increase_left))]
fn from_increase(alloc: Global, depth: u32, lexer: &mut Lexer<'_>) -> Result<Effect, ReadFault>
    ensures { Gives (λ x. x) (items_left lexer.new) result (form.from_increase depth (items_left lexer.old)) }
{
    if lexer.take_name(b"increase") {
        return increased(alloc, depth, lexer);
    }
    from_decrease(alloc, depth, lexer)
}

/// Reads what follows `not`: an atom in its bracket, and the closing bracket.
#[tactic(auto, unfolding(crate::specs::EffectForm::deleted))]
fn deleted(alloc: Global, lexer: &mut Lexer<'_>) -> Result<Effect, ReadFault>
    ensures { Gives (λ x. x) (items_left lexer.new) result (form.deleted (items_left lexer.old)) }
{
    left(lexer)?;
    let (predicate, arguments) = atom(alloc, lexer)?;
    right(lexer)?;
    Ok(Effect::Delete(predicate, arguments))
}

/// Reads what an effect's bracket encloses, other than nothing and `and`. Where no bracket may be opened in it, `not` is a fault.
#[tactic(auto, using(crate::proofs::EffectLexing::not_taken, crate::proofs::EffectLexing::not_left, crate::proofs::EffectLexing::not_none))]
fn from_not(alloc: Global, depth: u32, lexer: &mut Lexer<'_>) -> Result<Effect, ReadFault>
    ensures { Gives (λ x. x) (items_left lexer.new) result (form.from_not depth (items_left lexer.old)) }
{
    if depth == 0 {
        return from_increase(alloc, depth, lexer);
    }
    if lexer.take_name(b"not") {
        return deleted(alloc, lexer);
    }
    from_increase(alloc, depth, lexer)
}

/// Reads an effect, in whose bracket so many more may be opened one inside the other.
#[tactic(auto, using(crate::proofs::EffectLexing::effect_is))]
#[cycle(effect)]
pub fn effect(alloc: Global, depth: u32, lexer: &mut Lexer<'_>) -> Result<Effect, ReadFault>
    ensures { Gives (λ x. x) (items_left lexer.new) result (form.effect depth (items_left lexer.old)) }
{
    left(lexer)?;
    in_bracket(alloc, depth, lexer)
}

/// Reads what an effect's bracket encloses.
#[tactic(auto, using(crate::proofs::EffectLexing::nothing_taken, crate::proofs::EffectLexing::nothing_left))]
#[cycle(effect)]
fn in_bracket(alloc: Global, depth: u32, lexer: &mut Lexer<'_>) -> Result<Effect, ReadFault>
    ensures { Gives (λ x. x) (items_left lexer.new) result (form.in_bracket depth (form.parts depth) (items_left lexer.old)) }
{
    if lexer.take_right() {
        return Ok(Effect::Nothing);
    }
    from_and(alloc, depth, lexer)
}

/// Reads what an effect's bracket encloses, other than nothing.
#[tactic(auto, using(crate::proofs::EffectLexing::and_taken, crate::proofs::EffectLexing::and_left))]
#[cycle(effect)]
fn from_and(alloc: Global, depth: u32, lexer: &mut Lexer<'_>) -> Result<Effect, ReadFault>
    ensures { Gives (λ x. x) (items_left lexer.new) result (form.from_and depth (form.parts depth) (items_left lexer.old)) }
{
    if lexer.take_name(b"and") {
        return all_of(alloc, depth, lexer);
    }
    from_not(alloc, depth, lexer)
}

/// Reads what follows `and`.
#[tactic(auto, unfolding(crate::specs::EffectForm::all_of))]
#[cycle(effect)]
fn all_of(alloc: Global, depth: u32, lexer: &mut Lexer<'_>) -> Result<Effect, ReadFault>
    ensures { Gives (λ x. x) (items_left lexer.new) result (form.all_of depth (form.parts depth) (items_left lexer.old)) }
{
    let found = parts(alloc, depth, lexer)?;
    Ok(Effect::And(found))
}

/// Reads effects up to a closing bracket, where so many brackets may be opened one inside the other.
#[tactic(auto, using(crate::proofs::EffectLexing::parts_none, crate::proofs::EffectLexing::parts_some))]
#[cycle(effect)]
fn parts(alloc: Global, depth: u32, lexer: &mut Lexer<'_>) -> Result<Items<Effect>, ReadFault>
    ensures { Gives (λ x. x) (items_left lexer.new) result (form.parts depth (items_left lexer.old)) }
{
    if depth == 0 {
        return no_parts(alloc, lexer);
    }
    effects_to_right(alloc, depth - 1, lexer)
}

/// Reads a closing bracket, where no effect can stand.
#[tactic(auto, unfolding(crate::specs::EffectForm::no_parts))]
fn no_parts(alloc: Global, lexer: &mut Lexer<'_>) -> Result<Items<Effect>, ReadFault>
    ensures { Gives (λ x. x) (items_left lexer.new) result (form.no_parts (items_left lexer.old)) }
{
    right(lexer)?;
    Ok(Items::new(alloc))
}

/// Reads effects up to a closing bracket, in each of whose brackets so many more may be opened.
#[cycle(effect)]
fn effects_to_right(
    alloc: Global,
    depth: u32,
    lexer: &mut Lexer<'_>,
) -> Result<Items<Effect>, ReadFault>
    ensures { Gives (λ x. x) (items_left lexer.new) result (readers.row (form.effect depth) (items_left lexer.old)) }
{
    let mut found = Items::new(alloc);
    'row: while !lexer.take_right() {
        let value = effect(alloc, depth, lexer)?;
        found.push(value)?;
    }
    Ok(found)
}
