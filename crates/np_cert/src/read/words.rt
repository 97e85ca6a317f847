//! The numbers of a certificate's text.

ghost use Rattle.std.specs.Prelude.{◌≡◌, ◌↔◌, ◌^◌, ◌<◌, ◌≤◌, IsTrue, IfOk, IfSome, Some, None, nat_lt, if◌then◌else◌, decimal};
ghost use Rattle.np_lex.specs.Lexers.{items_left};
ghost use Rattle.np_read.specs.ItemAnswers.{Gives};
ghost use Rattle.np_cert.specs.Text.{most};
ghost use Rattle.np_cert.specs.ReadingForm as form;

use crate::certificate::Limit;
use itoa::Buffer;
use np_lex::{Lexer, first_decimal};
use np_read::ReadFault;

/// Numbers without a bound of their own are below this in size.
const MOST: u128 = 100_000_000_000_000_000_000_000_000_000_000_000_000;

/// Whether the text is the decimal of the number.
fn is_decimal(text: &[u8], number: u128) -> bool
    ensures { IsTrue result ↔ (text.now ≡ decimal number) }
{
    Buffer::new().format(number).as_bytes() == text
}

/// The number, where it is below the bound.
fn below(number: u64, bound: u128) -> Option<u128>
    ensures value { result ≡ (if nat_lt number bound then Some number else None) }
    ensures below { IfSome result (λ n. n < bound) }
{
    let number = u128::from(number);
    if number < bound { Some(number) } else { None }
}

/// The number below the bound that a text of any length is the decimal of.
fn long_natural_of(text: &[u8], bound: u128) -> Option<u128>
    requires { bound ≤ most }
    ensures value { result ≡ form.natural_of bound text.now }
    ensures below { IfSome result (λ n. n < bound) }
{
    let Ok(digits) = std::str::from_utf8(text) else {
        return None;
    };
    let Ok(number) = digits.parse::<u128>() else {
        return None;
    };
    if number >= bound || !is_decimal(text, number) {
        return None;
    }
    Some(number)
}

/// The number below the bound that the text is the decimal of.
fn natural_of(text: &[u8], bound: u128) -> Option<u128>
    requires { bound ≤ most }
    ensures value { result ≡ form.natural_of bound text.now }
    ensures below { IfSome result (λ n. n < bound) }
{
    match first_decimal(text) {
        Some((number, count)) if count == text.len() => below(number, bound),
        _ => long_natural_of(text, bound),
    }
}

/// The number that the text says, after `-` one below 0.
#[tactic(auto, unfolding(crate::specs::ReadingForm::integer_of))]
fn integer_of(text: &[u8]) -> Option<i128>
    ensures { result ≡ form.integer_of text.now }
{
    let [first, digits @ ..] = text else {
        return None;
    };
    if *first != b'-' {
        let size = natural_of(text, MOST)?;
        return Some(size as i128);
    }
    let size = natural_of(digits, MOST)?;
    if size == 0 {
        return None;
    }
    Some(-(size as i128))
}

/// Reads a number below the bound that the lexer has no short way for.
#[inline(never)]
#[tactic(auto, using(crate::proofs::ReadingLexemes::natural_missing, crate::proofs::ReadingLexemes::natural_refused, crate::proofs::ReadingLexemes::natural_taken))]
fn long_natural(lexer: &mut Lexer<'_>, bound: u128) -> Result<u128, ReadFault>
    requires bound { bound ≤ most }
    ensures value { Gives (λ n. n) (items_left lexer.new) result (form.natural bound (items_left lexer.old)) }
    ensures below { IfOk result (λ n. n < bound) }
{
    let before = *lexer;
    let Some(text) = lexer.take_number() else {
        return Err(ReadFault::Next);
    };
    let Some(number) = natural_of(text, bound) else {
        *lexer = before;
        return Err(ReadFault::Next);
    };
    Ok(number)
}

/// Reads a number below the bound.
#[inline(always)]
#[tactic(auto, using(crate::proofs::ReadingLexemes::short_refused, crate::proofs::ReadingLexemes::short_taken))]
fn natural_below(lexer: &mut Lexer<'_>, bound: u128) -> Result<u128, ReadFault>
    requires bound { bound ≤ most }
    ensures value { Gives (λ n. n) (items_left lexer.new) result (form.natural bound (items_left lexer.old)) }
    ensures below { IfOk result (λ n. n < bound) }
{
    let before = *lexer;
    let Some(short) = lexer.take_natural() else {
        return long_natural(lexer, bound);
    };
    let Some(number) = below(short, bound) else {
        *lexer = before;
        return Err(ReadFault::Next);
    };
    Ok(number)
}

/// Reads the number of a fact in an entry.
#[inline(always)]
pub fn fact(lexer: &mut Lexer<'_>) -> Result<u32, ReadFault>
    ensures { Gives (λ n. n) (items_left lexer.new) result (form.natural (2 ^ 32) (items_left lexer.old)) }
{
    let number = natural_below(lexer, 1 << 32)?;
    Ok(number as u32)
}

/// Reads a number of a proof.
pub fn number(lexer: &mut Lexer<'_>) -> Result<u64, ReadFault>
    ensures { Gives (λ n. n) (items_left lexer.new) result (form.number (items_left lexer.old)) }
{
    let number = natural_below(lexer, 1 << 64)?;
    Ok(number as u64)
}

/// Reads a number without a sign.
pub fn natural(lexer: &mut Lexer<'_>) -> Result<u128, ReadFault>
    ensures { Gives (λ n. n) (items_left lexer.new) result (form.natural most (items_left lexer.old)) }
{
    natural_below(lexer, MOST)
}

/// Reads a number with or without a sign that the lexer has no short way for.
#[inline(always)]
#[tactic(auto, using(crate::proofs::ReadingLexemes::integer_missing, crate::proofs::ReadingLexemes::integer_refused, crate::proofs::ReadingLexemes::integer_taken))]
fn long_integer(lexer: &mut Lexer<'_>) -> Result<i128, ReadFault>
    ensures { Gives (λ n. n) (items_left lexer.new) result (form.integer (items_left lexer.old)) }
{
    let before = *lexer;
    let Some(text) = lexer.take_number() else {
        return Err(ReadFault::Next);
    };
    let Some(number) = integer_of(text) else {
        *lexer = before;
        return Err(ReadFault::Next);
    };
    Ok(number)
}

/// Reads a number with or without a sign.
#[inline(always)]
pub fn integer(lexer: &mut Lexer<'_>) -> Result<i128, ReadFault>
    ensures { Gives (λ n. n) (items_left lexer.new) result (form.integer (items_left lexer.old)) }
{
    match lexer.take_natural() {
        Some(number) => Ok(i128::from(number)),
        None => long_integer(lexer),
    }
}

/// Reads a number, or `none`. `limit` has tried short numbers before.
#[inline(never)]
#[tactic(auto, using(crate::proofs::ReadingLexemes::limit_none, crate::proofs::ReadingLexemes::limit_long, crate::proofs::ReadingLexemes::limit_refused))]
fn none_or_long(lexer: &mut Lexer<'_>) -> Result<Limit, ReadFault>
    ensures { Gives (λ x. x) (items_left lexer.new) result (form.limit (items_left lexer.old)) }
{
    if lexer.take_name(b"none") {
        return Ok(Limit::Absent);
    }
    let number = long_natural(lexer, MOST)?;
    Ok(Limit::Number(number))
}

/// Reads a number, or `none`.
#[inline(always)]
pub fn limit(lexer: &mut Lexer<'_>) -> Result<Limit, ReadFault>
    ensures { Gives (λ x. x) (items_left lexer.new) result (form.limit (items_left lexer.old)) }
{
    match lexer.take_natural() {
        Some(number) => Ok(Limit::Number(u128::from(number))),
        None => none_or_long(lexer),
    }
}
