//! The claim and the entries of a certificate.

ghost use Rattle.std.specs.Prelude.{◌^◌};
ghost use Rattle.np_lex.specs.Lexers.{items_left};
ghost use Rattle.np_read.specs.ItemAnswers.{Gives};
ghost use Rattle.np_read.specs.ItemReaders as steps;
ghost use Rattle.np_cert.specs.ReadingForm as form;

use super::reasons::reason;
use super::words::{fact, integer, limit};
use crate::certificate::{Entry, Limit};
use np_flat::FlatState;
use np_lex::Lexer;
use np_read::{ReadFault, open, right};
use sqlite_items::Items;
use std::alloc::Global;

/// Reads facts up to a closing bracket.
#[inline(always)]
fn facts_to_right(alloc: Global, lexer: &mut Lexer<'_>) -> Result<Items<u32>, ReadFault>
    ensures { Gives (λ x. x) (items_left lexer.new) result (steps.row (form.natural (2 ^ 32)) (items_left lexer.old)) }
{
    let mut found = Items::new(alloc);
    'row: while !lexer.take_right() {
        let value = fact(lexer)?;
        found.push(value)?;
    }
    Ok(found)
}

/// Reads `(facts fact ..)`.
#[inline(always)]
#[tactic(auto, unfolding(crate::specs::ReadingForm::facts))]
fn facts(alloc: Global, lexer: &mut Lexer<'_>) -> Result<Items<u32>, ReadFault>
    ensures { Gives (λ x. x) (items_left lexer.new) result (form.facts (items_left lexer.old)) }
{
    open(lexer, b"facts")?;
    facts_to_right(alloc, lexer)
}

/// Reads values up to a closing bracket. They are gathered first, so that their list has its size at once. What `gathered`
/// holds before plays no part: its memory is used again.
#[inline(always)]
fn values_to_right(
    alloc: Global,
    lexer: &mut Lexer<'_>,
    gathered: &mut Vec<i128>,
) -> Result<Items<i128>, ReadFault>
    ensures { Gives (λ x. x) (items_left lexer.new) result (steps.row form.integer (items_left lexer.old)) }
{
    gathered.clear();
    'row: while !lexer.take_right() {
        let value = integer(lexer)?;
        gathered.push(value)?;
    }
    let values = Items::from_slice(alloc, gathered.as_slice())?;
    Ok(values)
}

/// Reads `(values value ..)`.
#[inline(always)]
#[tactic(auto, unfolding(crate::specs::ReadingForm::values))]
fn values(
    alloc: Global,
    lexer: &mut Lexer<'_>,
    gathered: &mut Vec<i128>,
) -> Result<Items<i128>, ReadFault>
    ensures { Gives (λ x. x) (items_left lexer.new) result (form.values (items_left lexer.old)) }
{
    open(lexer, b"values")?;
    values_to_right(alloc, lexer, gathered)
}

/// Reads `(entry (facts fact ..) (values value ..) bound reason)`.
#[inline(always)]
#[tactic(auto, unfolding(crate::specs::ReadingForm::entry))]
fn entry(alloc: Global, lexer: &mut Lexer<'_>, gathered: &mut Vec<i128>) -> Result<Entry, ReadFault>
    ensures { Gives (λ x. x) (items_left lexer.new) result (form.entry (items_left lexer.old)) }
{
    open(lexer, b"entry")?;
    let facts = facts(alloc, lexer)?;
    let values = values(alloc, lexer, gathered)?;
    let bound = limit(lexer)?;
    let why = reason(alloc, lexer)?;
    right(lexer)?;
    Ok(Entry {
        state: FlatState { facts, values },
        bound,
        why,
    })
}

/// Reads entries up to a closing bracket.
fn entries_to_right(alloc: Global, lexer: &mut Lexer<'_>) -> Result<Items<Entry>, ReadFault>
    ensures { Gives (λ x. x) (items_left lexer.new) result (steps.row form.entry (items_left lexer.old)) }
{
    let mut gathered = Vec::new(alloc);
    let mut found = Items::new(alloc);
    'row: while !lexer.take_right() {
        let value = entry(alloc, lexer, &mut gathered)?;
        found.push(value)?;
    }
    Ok(found)
}

/// Reads `(entries entry ..)`.
#[tactic(auto, unfolding(crate::specs::ReadingForm::entries))]
pub fn entries(alloc: Global, lexer: &mut Lexer<'_>) -> Result<Items<Entry>, ReadFault>
    ensures { Gives (λ x. x) (items_left lexer.new) result (form.entries (items_left lexer.old)) }
{
    open(lexer, b"entries")?;
    entries_to_right(alloc, lexer)
}

/// Reads `(claim limit)`.
#[tactic(auto, unfolding(crate::specs::ReadingForm::claim))]
pub fn claim(lexer: &mut Lexer<'_>) -> Result<Limit, ReadFault>
    ensures { Gives (λ x. x) (items_left lexer.new) result (form.claim (items_left lexer.old)) }
{
    open(lexer, b"claim")?;
    let claim = limit(lexer)?;
    right(lexer)?;
    Ok(claim)
}
