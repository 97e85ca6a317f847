//! Tokens with their places.

ghost use Rattle.std.specs.Prelude.{◌≡◌, ◌<◌, All, IfNone, IfSome, IsTrue, false};
ghost use Rattle.np_lex.specs.LongestToken.{IsToken};
ghost use Rattle.np_lex.specs.Lexers.{items_left, Leaves, Takes};
ghost use Rattle.np_lex.specs.declared.token.Kind.TheVariants.{Keyword, Op};
ghost use Rattle.np_read.specs.ItemAnswers.{Gives};
ghost use Rattle.np_read.specs.ItemReaders as readers;
ghost use Rattle.np_read.specs.PlacedReaders.{placed};
ghost use Rattle.np_read.specs.Takes.{lexeme, lexeme_of, TakesAt};

use crate::fault::ReadFault;
use np_lex::{Kind, Lexer, Place, is_word};

/// A token that was read.
#[derive(Clone, Copy, Debug)]
pub struct Found<'a> {
    /// What it is.
    pub kind: Kind,
    /// Its bytes, as they stand in the text.
    pub text: &'a [u8],
    /// The place of its first byte.
    pub place: Place,
}

/// The next token, if it is of this kind. If so it was read, else the lexer is as before.
pub fn take_kind<'a>(lexer: &mut Lexer<'a>, kind: Kind) -> Option<Found<'a>>
    ensures taken { IfSome result (λ found. TakesAt lexer.old lexer.new (lexeme_of found) found.place) }
    ensures kind { IfSome result (λ found. found.kind ≡ kind) }
    ensures ascii { IfSome result (λ found. All (λ b. b < 128) found.text.now) }
    ensures token { IfSome result (λ found. IsToken kind found.text.now) }
    ensures other { IfNone result (Leaves lexer.old lexer.new (λ found. found.kind ≡ kind)) }
{
    let before = *lexer;
    match lexer.next() {
        Ok(Some(token)) if token.kind == kind => Some(Found {
            kind,
            text: lexer.text(&token),
            place: token.place,
        }),
        _ => {
            *lexer = before;
            None
        }
    }
}

/// The place of the next token, if it is of this kind and has this text, which is of small letters and read in any case. If so
/// it was read, else the lexer is as before.
pub fn take_token(lexer: &mut Lexer<'_>, kind: Kind, text: &[u8]) -> Option<Place>
    ensures taken { IfSome result (λ place. TakesAt lexer.old lexer.new (lexeme kind text.now) place) }
    ensures other { IfNone result (Leaves lexer.old lexer.new (λ found. found ≡ lexeme kind text.now)) }
{
    let before = *lexer;
    let found = take_kind(lexer, kind)?;
    if !is_word(found.text, text) {
        *lexer = before;
        return None;
    }
    Some(found.place)
}

/// Reads the token of this kind and this text, which is of small letters and read in any case, and gives its place.
#[tactic(auto, using(crate::proofs::PlacedLexing::is_taken_at, crate::proofs::PlacedLexing::is_left_at))]
pub fn token(lexer: &mut Lexer<'_>, kind: Kind, text: &[u8]) -> Result<Place, ReadFault>
    ensures { Gives (λ place. place) (items_left lexer.new) result (placed (lexeme kind text.now) (items_left lexer.old)) }
{
    let Some(place) = take_token(lexer, kind, text) else {
        return Err(ReadFault::Next);
    };
    Ok(place)
}

/// Reads this keyword with its colon, which is of small letters and read in any case, and gives its place.
pub fn keyword(lexer: &mut Lexer<'_>, text: &[u8]) -> Result<Place, ReadFault>
    ensures { Gives (λ place. place) (items_left lexer.new) result (placed (lexeme Keyword text.now) (items_left lexer.old)) }
{
    token(lexer, Kind::Keyword, text)
}

/// Whether this operator comes next. If so it was read, else the lexer is as before.
pub fn take_operator(lexer: &mut Lexer<'_>, text: &[u8]) -> bool
    ensures taken { IsTrue result → Takes lexer.old lexer.new (lexeme Op text.now) }
    ensures other { result ≡ false → Leaves lexer.old lexer.new (λ found. found ≡ lexeme Op text.now) }
{
    take_token(lexer, Kind::Op, text).is_some()
}

/// Reads this operator.
#[tactic(auto, using(crate::proofs::ItemLexing::is_taken, crate::proofs::ItemLexing::is_left))]
pub fn operator(lexer: &mut Lexer<'_>, text: &[u8]) -> Result<(), ReadFault>
    ensures { Gives (λ _. tt) (items_left lexer.new) result (readers.expect (lexeme Op text.now) (items_left lexer.old)) }
{
    if !take_operator(lexer, text) {
        return Err(ReadFault::Next);
    }
    Ok(())
}
