//! Declared predicates and functions, and requirements.

ghost use Rattle.np_lex.specs.Lexers.{items_left};
ghost use Rattle.np_read.specs.ItemAnswers.{Gives};
ghost use Rattle.np_read.specs.ItemReaders.{expect, both, row};
ghost use Rattle.np_words.specs.TailedRows.{tail_or_none};
ghost use Rattle.np_words.specs.Text.{minus};
ghost use Rattle.np_words.specs.ReadingForm as words;
ghost use Rattle.np_syntax.specs.DomainForm as form;

use super::lists::typed_list;
use crate::domain::Declared;
use np_lex::Lexer;
use np_read::{ReadFault, left, name as this_name, take_operator};
use np_words::read::{name, requirement};
use np_words::{ListKind, Word};
use sqlite_items::Items;
use std::alloc::Global;

/// Reads keywords up to a closing bracket.
pub fn requirements(alloc: Global, lexer: &mut Lexer<'_>) -> Result<Items<Word>, ReadFault>
    ensures { Gives (λ x. x) (items_left lexer.new) result (row words.requirement (items_left lexer.old)) }
{
    let mut found = Items::new(alloc);
    'row: while !lexer.take_right() {
        let value = requirement(alloc, lexer)?;
        found.push(value)?;
    }
    Ok(found)
}

/// Reads `(name ?variable .. - name ..)`.
#[tactic(auto, unfolding(crate::specs::DomainForm::declared))]
fn declared(alloc: Global, lexer: &mut Lexer<'_>) -> Result<Declared, ReadFault>
    ensures { Gives (λ d. d) (items_left lexer.new) result (form.declared (items_left lexer.old)) }
{
    left(lexer)?;
    let name = name(alloc, lexer)?;
    let parameters = typed_list(alloc, lexer, ListKind::Variables)?;
    Ok(Declared { name, parameters })
}

/// Reads predicates up to a closing bracket.
pub fn predicates(alloc: Global, lexer: &mut Lexer<'_>) -> Result<Items<Declared>, ReadFault>
    ensures { Gives (λ x. x) (items_left lexer.new) result (row form.declared (items_left lexer.old)) }
{
    let mut found = Items::new(alloc);
    'row: while !lexer.take_right() {
        let value = declared(alloc, lexer)?;
        found.push(value)?;
    }
    Ok(found)
}

/// Reads `- number`, where `-` comes next.
fn number_mark(lexer: &mut Lexer<'_>) -> Result<bool, ReadFault>
    ensures { Gives (λ flag. form.mark_of flag) (items_left lexer.new) result (tail_or_none minus (expect form.number_word) (items_left lexer.old)) }
{
    if !take_operator(lexer, b"-") {
        return Ok(false);
    }
    this_name(lexer, b"number")?;
    Ok(true)
}

/// Reads a function, and whether `- number` follows it.
fn function(alloc: Global, lexer: &mut Lexer<'_>) -> Result<(Declared, bool), ReadFault>
    ensures { Gives (λ x. (x.0, form.mark_of x.1)) (items_left lexer.new) result (both form.declared (tail_or_none minus (expect form.number_word)) (items_left lexer.old)) }
{
    let declared = declared(alloc, lexer)?;
    let flag = number_mark(lexer)?;
    Ok((declared, flag))
}

/// Reads functions up to a closing bracket.
pub fn functions(alloc: Global, lexer: &mut Lexer<'_>) -> Result<Items<(Declared, bool)>, ReadFault>
    ensures { Gives (λ x. x) (items_left lexer.new) result (form.functions (items_left lexer.old)) }
{
    let mut found = Items::new(alloc);
    'row: while !lexer.take_right() {
        let value = function(alloc, lexer)?;
        found.push(value)?;
    }
    Ok(found)
}
