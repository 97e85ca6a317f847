//! Numbers, each with its place.

ghost use Rattle.std.specs.Prelude.{◌≡◌, ◌≤◌, length, Some, Bool, false, IfOk, IfErr};
ghost use Rattle.std.specs.List.{prefix_len};
ghost use Rattle.np_lex.specs.FirstToken.{is_digit};
ghost use Rattle.np_lex.specs.LongestToken.{IsToken};
ghost use Rattle.np_lex.specs.Lexers.{items_left};
ghost use Rattle.np_lex.specs.declared.token.Kind.TheVariants.{Number};
ghost use Rattle.np_read.specs.ItemAnswers.{Gives};
ghost use Rattle.np_read.specs.declared.fault.ReadFault.TheVariants.{Memory};
ghost use Rattle.np_words.specs.ReadingForm as form;

use crate::word::Decimal;
use np_lex::{Kind, Lexer, Place};
use np_read::{ReadFault, take_kind};
use sqlite_items::Items;
use std::alloc::{AllocError, Global};

/// How many digits lead.
fn digits_length(text: &[u8]) -> usize
    ensures value { result ≡ prefix_len is_digit text.now }
    ensures in_range { result ≤ length text.now }
{
    let mut n = 0;
    while n < text.len() && text[n].is_ascii_digit() {
        n += 1;
    }
    n
}

/// What follows the first byte, where there is one.
fn part_in(alloc: Global, text: &[u8]) -> Result<Option<Items<u8>>, AllocError>
    ensures { IfOk result (λ part. part ≡ form.part_in text.now) }
{
    let [_, digits @ ..] = text else {
        return Ok(None);
    };
    let digits = Items::from_slice(alloc, digits)?;
    Ok(Some(digits))
}

/// The parts of a number without its sign.
fn parts_of(alloc: Global, place: Place, negative: bool, text: &[u8]) -> Result<Decimal, ReadFault>
    ensures number { IfOk result (λ d. d ≡ form.parts_of place negative text.now) }
    ensures memory { IfErr result (λ fault. fault ≡ Memory) }
{
    let count = digits_length(text);
    let whole = Items::from_slice(alloc, &text[..count])?;
    let part = part_in(alloc, &text[count..])?;
    Ok(Decimal {
        negative,
        whole,
        part,
        place,
    })
}

/// The parts of a number.
#[tactic(auto, unfolding(crate::specs::ReadingForm::parts_in))]
fn parts_in(alloc: Global, place: Place, text: &[u8]) -> Result<Decimal, ReadFault>
    ensures number { IfOk result (λ d. d ≡ form.parts_in place text.now) }
    ensures memory { IfErr result (λ fault. fault ≡ Memory) }
{
    if let [b'-', digits @ ..] = text {
        return parts_of(alloc, place, true, digits);
    }
    parts_of(alloc, place, false, text)
}

/// Reads a number of any length.
pub fn number(alloc: Global, lexer: &mut Lexer<'_>) -> Result<Decimal, ReadFault>
    ensures { Gives (λ d. d) (items_left lexer.new) result (form.number (items_left lexer.old)) }
{
    let Some(found) = take_kind(lexer, Kind::Number) else {
        return Err(ReadFault::Next);
    };
    parts_in(alloc, found.place, found.text)
}
