//! Why the bound of an entry is true.

ghost use Rattle.std.specs.Prelude.{codes};
ghost use Rattle.np_lex.specs.Lexers.{items_left};
ghost use Rattle.np_lex.specs.Tokens as tokens;
ghost use Rattle.np_read.specs.ItemAnswers.{Gives};
ghost use Rattle.np_read.specs.ItemReaders as steps;
ghost use Rattle.np_cert.specs.ReadingForm as form;

use super::words::{limit, natural};
use crate::certificate::{Limit, Why};
use np_lex::Lexer;
use np_read::{ReadFault, left, name, right};
use sqlite_items::Items;
use std::alloc::Global;

/// Reads `(subgoal limit)`.
#[tactic(auto, unfolding(crate::specs::ReadingForm::number_of))]
fn number_of(lexer: &mut Lexer<'_>) -> Result<(u128, Limit), ReadFault>
    ensures { Gives (λ x. x) (items_left lexer.new) result (form.number_of (items_left lexer.old)) }
{
    left(lexer)?;
    let subgoal = natural(lexer)?;
    let limit = limit(lexer)?;
    right(lexer)?;
    Ok((subgoal, limit))
}

/// Reads numbers of subgoals up to a closing bracket.
fn numbers_to_right(alloc: Global, lexer: &mut Lexer<'_>) -> Result<Items<(u128, Limit)>, ReadFault>
    ensures { Gives (λ x. x) (items_left lexer.new) result (steps.row form.number_of (items_left lexer.old)) }
{
    let mut found = Items::new(alloc);
    'row: while !lexer.take_right() {
        let value = number_of(lexer)?;
        found.push(value)?;
    }
    Ok(found)
}

/// Reads what follows the word `table`.
#[tactic(auto, unfolding(crate::specs::ReadingForm::table))]
fn table(alloc: Global, lexer: &mut Lexer<'_>) -> Result<Why, ReadFault>
    ensures { Gives (λ x. x) (items_left lexer.new) result (form.table (items_left lexer.old)) }
{
    let numbers = numbers_to_right(alloc, lexer)?;
    Ok(Why::Table(numbers))
}

/// Reads a proof's number, and a closing bracket.
#[tactic(auto, unfolding(crate::specs::ReadingForm::proof_number))]
fn proof_number(lexer: &mut Lexer<'_>) -> Result<Why, ReadFault>
    ensures { Gives (λ x. x) (items_left lexer.new) result (form.proof_number (items_left lexer.old)) }
{
    let number = natural(lexer)?;
    right(lexer)?;
    Ok(Why::Proof(number))
}

/// Reads `table` and what follows it.
fn by_table(alloc: Global, lexer: &mut Lexer<'_>) -> Result<Why, ReadFault>
    ensures { Gives (λ x. x) (items_left lexer.new) result (steps.after (steps.expect (tokens.named (codes "table"))) form.table (items_left lexer.old)) }
{
    name(lexer, b"table")?;
    table(alloc, lexer)
}

/// Reads what follows the bracket of a reason.
fn proof_or_table(alloc: Global, lexer: &mut Lexer<'_>) -> Result<Why, ReadFault>
    ensures { Gives (λ x. x) (items_left lexer.new) result (form.proof_or_table (items_left lexer.old)) }
{
    if lexer.take_name(b"proof") {
        return proof_number(lexer);
    }
    by_table(alloc, lexer)
}

/// Reads `(proof number)` or `(table (subgoal limit) ..)`.
#[inline(never)]
#[tactic(auto, unfolding(crate::specs::ReadingForm::long_reason))]
fn long_reason(alloc: Global, lexer: &mut Lexer<'_>) -> Result<Why, ReadFault>
    ensures { Gives (λ x. x) (items_left lexer.new) result (form.long_reason (items_left lexer.old)) }
{
    left(lexer)?;
    proof_or_table(alloc, lexer)
}

/// Reads `expanded`, `(proof number)` or `(table (subgoal limit) ..)`.
#[inline(always)]
pub fn reason(alloc: Global, lexer: &mut Lexer<'_>) -> Result<Why, ReadFault>
    ensures { Gives (λ x. x) (items_left lexer.new) result (form.reason (items_left lexer.old)) }
{
    if lexer.take_name(b"expanded") {
        return Ok(Why::Expanded);
    }
    long_reason(alloc, lexer)
}
