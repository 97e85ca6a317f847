//! Literals of too many digits.

ghost use Rattle.std.specs.Prelude.{◌≡◌, ◌<◌, nat_lt, All, IfSome, IfNone};
ghost use Rattle.std.specs.List.{count_by};
ghost use Rattle.np_lex.specs.FirstToken.{is_digit};
ghost use Rattle.np_lex.specs.Tokens.{items_of};
ghost use Rattle.np_words.specs.Texts.{IsFaultFrom, IsSettled};
ghost use Rattle.np_words.specs.Wide.{IsShort, IsFirstWide};
ghost use Rattle.np_words.specs.declared.read.wide.TheConstants.{MOST_DIGITS};

use crate::fault::ReadFault;
use np_lex::{Kind, Lexer, Place};

/// A literal has at most so many digits.
pub const MOST_DIGITS: usize = 38;

/// Whether there are more digits than a literal may have.
fn is_wide(text: &[u8]) -> bool
    ensures { result ≡ nat_lt MOST_DIGITS (count_by is_digit text.now) }
{
    text.iter().filter(|byte| byte.is_ascii_digit()).count() > MOST_DIGITS
}

/// The place of the first literal with more digits than it may have.
pub fn first_wide(bytes: &[u8]) -> Option<Place>
    ensures found { IfSome result (IsFirstWide (items_of bytes.now)) }
    ensures none { IfNone result (All IsShort (items_of bytes.now)) }
{
    let mut lexer = Lexer::new(bytes);
    'tokens: loop {
        match lexer.next() {
            Ok(Some(token)) => {
                if token.kind == Kind::Number && is_wide(lexer.text(&token)) {
                    return Some(token.place);
                }
            }
            Ok(None) => return None,
            Err(_) => return None,
        }
    }
}

/// The value that the whole text was read as, unless a literal has too many digits.
pub fn settled<T: Drop>(bytes: &[u8], value: T) -> Result<T, ReadFault>
    ensures { IsSettled (items_of bytes.now) value result }
{
    match first_wide(bytes) {
        Some(place) => Err(ReadFault::NumberWide(place)),
        None => Ok(value),
    }
}

/// The fault of a text in which reading stopped at this place: it is there, unless a literal with too many digits is before it.
pub fn fault_from(bytes: &[u8], stop: Place) -> ReadFault
    ensures { IsFaultFrom (items_of bytes.now) stop result }
{
    let Some(place) = first_wide(bytes) else {
        return ReadFault::At(stop);
    };
    if place.offset < stop.offset {
        return ReadFault::NumberWide(place);
    }
    ReadFault::At(stop)
}
