//! Facts of `:init`.

ghost use Rattle.np_lex.specs.Lexers.{items_left};
ghost use Rattle.np_problem.specs.FactForm as form;
ghost use Rattle.np_read.specs.ItemAnswers.{Gives};
ghost use Rattle.np_read.specs.ItemReaders.{row};

use crate::problem::Fact;
use np_lex::Lexer;
use np_read::{ReadFault, left, right, take_operator};
use np_syntax::read::{name, names_to_right, number};
use np_syntax::{Decimal, Word};
use sqlite_items::Items;
use std::alloc::Global;

/// What starts with a value: a name, its arguments, and whether the name is alone.
type Start = (Word, Items<Word>, bool);

/// Reads a name and names, up to the closing bracket.
#[tactic(auto, unfolding(crate::specs::FactForm::names))]
fn names(alloc: Global, lexer: &mut Lexer<'_>) -> Result<(Word, Items<Word>), ReadFault>
    ensures { Gives (λ x. x) (items_left lexer.new) result (form.names (items_left lexer.old)) }
{
    let symbol = name(alloc, lexer)?;
    let arguments = names_to_right(alloc, lexer)?;
    Ok((symbol, arguments))
}

/// Reads a name alone.
#[tactic(auto, unfolding(crate::specs::FactForm::bare_start))]
fn bare_start(alloc: Global, lexer: &mut Lexer<'_>) -> Result<Start, ReadFault>
    ensures { Gives (λ x. x) (items_left lexer.new) result (form.bare_start (items_left lexer.old)) }
{
    let function = name(alloc, lexer)?;
    Ok((function, Items::new(alloc), true))
}

/// Reads a name and its arguments, after the opening bracket.
#[tactic(auto, unfolding(crate::specs::FactForm::called_start))]
fn called_start(alloc: Global, lexer: &mut Lexer<'_>) -> Result<Start, ReadFault>
    ensures { Gives (λ x. x) (items_left lexer.new) result (form.called_start (items_left lexer.old)) }
{
    let (function, arguments) = names(alloc, lexer)?;
    Ok((function, arguments, false))
}

/// Reads what starts with a value.
#[tactic(auto, using(crate::proofs::FactLexing::start_called, crate::proofs::FactLexing::start_alone))]
fn start(alloc: Global, lexer: &mut Lexer<'_>) -> Result<Start, ReadFault>
    ensures { Gives (λ x. x) (items_left lexer.new) result (form.start (items_left lexer.old)) }
{
    if lexer.take_left() {
        return called_start(alloc, lexer);
    }
    bare_start(alloc, lexer)
}

/// Reads a number, and the closing bracket.
#[tactic(auto, unfolding(crate::specs::FactForm::last_number))]
fn last_number(alloc: Global, lexer: &mut Lexer<'_>) -> Result<Decimal, ReadFault>
    ensures { Gives (λ d. d) (items_left lexer.new) result (form.last_number (items_left lexer.old)) }
{
    let value = number(alloc, lexer)?;
    right(lexer)?;
    Ok(value)
}

/// Reads an atom, after its bracket.
#[tactic(auto, unfolding(crate::specs::FactForm::some_atom))]
fn some_atom(alloc: Global, lexer: &mut Lexer<'_>) -> Result<Fact, ReadFault>
    ensures { Gives (λ x. x) (items_left lexer.new) result (form.some_atom (items_left lexer.old)) }
{
    let (predicate, arguments) = names(alloc, lexer)?;
    Ok(Fact::Atom(predicate, arguments))
}

/// Reads what follows `=`.
#[tactic(auto, unfolding(crate::specs::FactForm::value))]
fn value(alloc: Global, lexer: &mut Lexer<'_>) -> Result<Fact, ReadFault>
    ensures { Gives (λ x. x) (items_left lexer.new) result (form.value (items_left lexer.old)) }
{
    let (function, arguments, is_alone) = start(alloc, lexer)?;
    let value = last_number(alloc, lexer)?;
    Ok(Fact::Value(function, arguments, is_alone, value))
}

/// Reads a value or an atom, after its bracket.
#[tactic(auto, using(crate::proofs::FactLexing::value_taken, crate::proofs::FactLexing::value_left))]
fn from_value(alloc: Global, lexer: &mut Lexer<'_>) -> Result<Fact, ReadFault>
    ensures { Gives (λ x. x) (items_left lexer.new) result (form.from_value (items_left lexer.old)) }
{
    if take_operator(lexer, b"=") {
        return value(alloc, lexer);
    }
    some_atom(alloc, lexer)
}

/// Reads what follows `not`: an atom in its bracket, and the closing bracket.
#[tactic(auto, unfolding(crate::specs::FactForm::not_atom))]
fn not_atom(alloc: Global, lexer: &mut Lexer<'_>) -> Result<Fact, ReadFault>
    ensures { Gives (λ x. x) (items_left lexer.new) result (form.not_atom (items_left lexer.old)) }
{
    left(lexer)?;
    let (predicate, arguments) = names(alloc, lexer)?;
    right(lexer)?;
    Ok(Fact::NotAtom(predicate, arguments))
}

/// Reads a fact, after its bracket.
#[tactic(auto, using(crate::proofs::FactLexing::not_taken, crate::proofs::FactLexing::not_left))]
fn from_not(alloc: Global, lexer: &mut Lexer<'_>) -> Result<Fact, ReadFault>
    ensures { Gives (λ x. x) (items_left lexer.new) result (form.from_not (items_left lexer.old)) }
{
    if lexer.take_name(b"not") {
        return not_atom(alloc, lexer);
    }
    from_value(alloc, lexer)
}

/// Reads a fact.
#[tactic(auto, unfolding(crate::specs::FactForm::fact))]
fn fact(alloc: Global, lexer: &mut Lexer<'_>) -> Result<Fact, ReadFault>
    ensures { Gives (λ x. x) (items_left lexer.new) result (form.fact (items_left lexer.old)) }
{
    left(lexer)?;
    from_not(alloc, lexer)
}

/// Reads facts up to a closing bracket.
pub fn facts(alloc: Global, lexer: &mut Lexer<'_>) -> Result<Items<Fact>, ReadFault>
    ensures { Gives (λ x. x) (items_left lexer.new) result (row form.fact (items_left lexer.old)) }
{
    let mut found = Items::new(alloc);
    'row: while !lexer.take_right() {
        let value = fact(alloc, lexer)?;
        found.push(value)?;
    }
    Ok(found)
}
