//! The lines of a plan's text.

ghost use Rattle.std.specs.Prelude.{◌≡◌, [], Ok, IfOk, IfErr};
ghost use Rattle.np_lex.specs.Lexers.{items_left};
ghost use Rattle.np_read.specs.ItemAnswers.{Gives, Stops};
ghost use Rattle.np_read.specs.ItemReaders as readers;
ghost use Rattle.np_plan.specs.PlanForm as form;

use crate::plan::{PlanLine, PlanText};
use np_lex::{Kind, Lexer};
use np_read::{ReadFault, ends, take_token, token};
use np_words::Decimal;
use np_words::read::{name, names_to_right, number};
use sqlite_items::Items;
use std::alloc::Global;

/// Reads a number without a sign, of any length.
fn unsigned(alloc: Global, lexer: &mut Lexer<'_>) -> Result<Decimal, ReadFault>
    ensures { Gives (λ d. d) (items_left lexer.new) result (form.unsigned (items_left lexer.old)) }
{
    let before = *lexer;
    let found = number(alloc, lexer)?;
    if found.negative {
        *lexer = before;
        return Err(ReadFault::Next);
    }
    Ok(found)
}

/// Reads a colon.
#[tactic(auto, using(np_read::proofs::PlacedLexing::takes_at, np_read::proofs::ItemLexing::is_taken, np_read::proofs::ItemLexing::is_left))]
fn colon(lexer: &mut Lexer<'_>) -> Result<(), ReadFault>
    ensures { Gives (λ _. tt) (items_left lexer.new) result (readers.expect form.colon (items_left lexer.old)) }
{
    if take_token(lexer, Kind::Colon, b":").is_none() {
        return Err(ReadFault::Next);
    }
    Ok(())
}

/// Reads a stamp and its colon.
#[tactic(auto, unfolding(crate::specs::PlanForm::stamp))]
fn stamp(alloc: Global, lexer: &mut Lexer<'_>) -> Result<Decimal, ReadFault>
    ensures { Gives (λ d. d) (items_left lexer.new) result (form.stamp (items_left lexer.old)) }
{
    let found = unsigned(alloc, lexer)?;
    colon(lexer)?;
    Ok(found)
}

/// Reads a stamp where lines have one.
fn stamp_if(
    alloc: Global,
    lexer: &mut Lexer<'_>,
    stamped: bool,
) -> Result<Option<Decimal>, ReadFault>
    ensures { Gives (λ s. s) (items_left lexer.new) result (form.stamp_if stamped (items_left lexer.old)) }
{
    if !stamped {
        return Ok(None);
    }
    let found = stamp(alloc, lexer)?;
    Ok(Some(found))
}

/// Reads a line.
#[tactic(auto, unfolding(crate::specs::PlanForm::line, crate::specs::PlanForm::call))]
fn line(alloc: Global, lexer: &mut Lexer<'_>, stamped: bool) -> Result<PlanLine, ReadFault>
    ensures { Gives (λ l. l) (items_left lexer.new) result (form.line stamped (items_left lexer.old)) }
{
    let stamp = stamp_if(alloc, lexer, stamped)?;
    let place = token(lexer, Kind::Left, b"(")?;
    let action = name(alloc, lexer)?;
    let objects = names_to_right(alloc, lexer)?;
    Ok(PlanLine {
        stamp,
        place,
        action,
        objects,
    })
}

/// Reads lines up to the end of the text.
fn lines_to_end(
    alloc: Global,
    lexer: &mut Lexer<'_>,
    stamped: bool,
) -> Result<Items<PlanLine>, ReadFault>
    ensures read { IfOk result (λ ls. form.to_end (form.line stamped) (items_left lexer.old) ≡ Ok (ls, [])) }
    ensures stops { IfErr result (λ fault. Stops (items_left lexer.new) fault (form.to_end (form.line stamped) (items_left lexer.old))) }
{
    let mut found = Items::new(alloc);
    'lines: while !ends(lexer) {
        let line = line(alloc, lexer, stamped)?;
        found.push(line)?;
    }
    Ok(found)
}

/// Whether an opening bracket comes next.
fn begins_with_left(lexer: &Lexer<'_>) -> bool
    ensures { result ≡ form.begins_with_left (items_left lexer.now) }
{
    let mut rest = *lexer;
    rest.take_left()
}

/// Reads the lines of a whole text. They have stamps where it doesn't begin with a bracket.
#[tactic(auto, unfolding(crate::specs::PlanForm::plan, crate::specs::PlanForm::lines))]
pub fn whole_plan(alloc: Global, lexer: &mut Lexer<'_>) -> Result<PlanText, ReadFault>
    ensures read { IfOk result (λ p. form.plan (items_left lexer.old) ≡ Ok (p, [])) }
    ensures stops { IfErr result (λ fault. Stops (items_left lexer.new) fault (form.plan (items_left lexer.old))) }
{
    let stamped = !begins_with_left(lexer);
    let lines = lines_to_end(alloc, lexer, stamped)?;
    Ok(PlanText { lines })
}
