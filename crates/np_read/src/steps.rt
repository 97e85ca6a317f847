//! The steps that every grammar's reader takes.

ghost use Rattle.std.specs.Prelude.{◌≡◌, IsTrue, false, Ok, Err, []};
ghost use Rattle.np_lex.specs.LongestToken.{is_name};
ghost use Rattle.np_lex.specs.Tokens.{lower};
ghost use Rattle.np_lex.specs.Tokens as tokens;
ghost use Rattle.np_lex.specs.Lexers.{items_left};
ghost use Rattle.np_read.specs.ItemAnswers.{Gives};
ghost use Rattle.np_read.specs.ItemReaders as readers;

use crate::fault::ReadFault;
use np_lex::{Lexer, is_word};

/// Reads an opening bracket.
#[inline(always)]
#[tactic(auto, using(crate::proofs::ItemLexing::is_taken, crate::proofs::ItemLexing::is_left))]
pub fn left(lexer: &mut Lexer<'_>) -> Result<(), ReadFault>
    ensures { Gives (λ _. tt) (items_left lexer.new) result (readers.expect tokens.left (items_left lexer.old)) }
{
    if !lexer.take_left() {
        return Err(ReadFault::Next);
    }
    Ok(())
}

/// Reads a closing bracket.
#[inline(always)]
#[tactic(auto, using(crate::proofs::ItemLexing::is_taken, crate::proofs::ItemLexing::is_left))]
pub fn right(lexer: &mut Lexer<'_>) -> Result<(), ReadFault>
    ensures { Gives (λ _. tt) (items_left lexer.new) result (readers.expect tokens.right (items_left lexer.old)) }
{
    if !lexer.take_right() {
        return Err(ReadFault::Next);
    }
    Ok(())
}

/// Reads this name, which is of small letters, in any case.
#[inline(always)]
#[tactic(auto, using(crate::proofs::ItemLexing::is_taken, crate::proofs::ItemLexing::is_left))]
pub fn name(lexer: &mut Lexer<'_>, text: &[u8]) -> Result<(), ReadFault>
    requires name { IsTrue (is_name text.now) }
    requires small { lower text.now ≡ text.now }
    ensures { Gives (λ _. tt) (items_left lexer.new) result (readers.expect (tokens.named text.now) (items_left lexer.old)) }
{
    if !lexer.take_name(text) {
        return Err(ReadFault::Next);
    }
    Ok(())
}

/// Reads an opening bracket, and then this name.
#[inline(always)]
pub fn open(lexer: &mut Lexer<'_>, text: &[u8]) -> Result<(), ReadFault>
    requires name { IsTrue (is_name text.now) }
    requires small { lower text.now ≡ text.now }
    ensures { Gives (λ _. tt) (items_left lexer.new) result (readers.open_with (tokens.named text.now) (items_left lexer.old)) }
{
    left(lexer)?;
    name(lexer, text)
}

/// Reads a number with this text.
pub fn numeral(lexer: &mut Lexer<'_>, text: &[u8]) -> Result<(), ReadFault>
    ensures { Gives (λ _. tt) (items_left lexer.new) result (readers.expect (tokens.numeral text.now) (items_left lexer.old)) }
{
    let before = *lexer;
    let Some(found) = lexer.take_number() else {
        return Err(ReadFault::Next);
    };
    if !is_word(found, text) {
        *lexer = before;
        return Err(ReadFault::Next);
    }
    Ok(())
}

/// Whether nothing comes next but the end of the text.
#[tactic(auto, using(crate::proofs::ItemLexing::is_ended, crate::proofs::ItemLexing::is_before_token, crate::proofs::ItemLexing::is_before_bad_byte))]
pub fn ends(lexer: &Lexer<'_>) -> bool
    ensures ended { IsTrue result → readers.at_end (items_left lexer.now) ≡ Ok (tt, []) }
    ensures other { result ≡ false → readers.at_end (items_left lexer.now) ≡ Err (items_left lexer.now) }
{
    let mut rest = *lexer;
    match rest.next() {
        Ok(None) => true,
        Ok(Some(_)) => false,
        Err(_) => false,
    }
}
