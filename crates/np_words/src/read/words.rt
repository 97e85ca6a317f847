//! Words, each with its place.

ghost use Rattle.std.specs.Prelude.{◌≡◌, ◌<◌, All, IfOk, IfErr};
ghost use Rattle.np_lex.specs.Lexers.{items_left};
ghost use Rattle.np_lex.specs.Tokens.{lower};
ghost use Rattle.np_model.specs.Names as names;
ghost use Rattle.np_read.specs.ItemAnswers.{Gives};
ghost use Rattle.np_read.specs.ItemReaders.{row};
ghost use Rattle.np_read.specs.declared.fault.ReadFault.TheVariants.{Memory};
ghost use Rattle.np_words.specs.ReadingForm as form;

use crate::word::{Ident, Word};
use np_lex::{Kind, Lexer, Place, lowered};
use np_model::Name;
use np_read::{ReadFault, take_kind};
use sqlite_items::Items;
use std::alloc::Global;

/// Whether a word, in small letters, is reserved.
fn is_reserved(word: &str) -> bool
    ensures { result ≡ names.is_reserved word.now }
{
    matches!(
        word,
        "and"
            | "or"
            | "not"
            | "imply"
            | "exists"
            | "forall"
            | "when"
            | "either"
            | "increase"
            | "decrease"
            | "assign"
            | "scale-up"
            | "scale-down"
            | "total-time"
    )
}

/// The word of this text, in small letters, at this place.
fn word_of(alloc: Global, text: &[u8], place: Place) -> Result<Word, ReadFault>
    requires { All (λ b. b < 128) text.now }
    ensures word { IfOk result (λ w. w ≡ record { text = lower text.now; place = place }) }
    ensures memory { IfErr result (λ fault. fault ≡ Memory) }
{
    let text = lowered(alloc, text)?;
    Ok(Word {
        text: Name::new(text),
        place,
    })
}

/// Reads a name.
pub fn name(alloc: Global, lexer: &mut Lexer<'_>) -> Result<Word, ReadFault>
    ensures { Gives (λ w. w) (items_left lexer.new) result (form.name (items_left lexer.old)) }
{
    let before = *lexer;
    let Some(found) = take_kind(lexer, Kind::Name) else {
        return Err(ReadFault::Next);
    };
    let word = word_of(alloc, found.text, found.place)?;
    if is_reserved(word.text.as_str()) {
        *lexer = before;
        return Err(ReadFault::Next);
    }
    Ok(word)
}

/// Reads a variable.
pub fn variable(alloc: Global, lexer: &mut Lexer<'_>) -> Result<Word, ReadFault>
    ensures { Gives (λ w. w) (items_left lexer.new) result (form.variable (items_left lexer.old)) }
{
    let Some(found) = take_kind(lexer, Kind::Variable) else {
        return Err(ReadFault::Next);
    };
    word_of(alloc, &found.text[1..], found.place)
}

/// Reads a keyword as a word.
pub fn requirement(alloc: Global, lexer: &mut Lexer<'_>) -> Result<Word, ReadFault>
    ensures { Gives (λ w. w) (items_left lexer.new) result (form.requirement (items_left lexer.old)) }
{
    let Some(found) = take_kind(lexer, Kind::Keyword) else {
        return Err(ReadFault::Next);
    };
    word_of(alloc, &found.text[1..], found.place)
}

/// Reads a name or a variable.
pub fn identifier(alloc: Global, lexer: &mut Lexer<'_>) -> Result<Ident, ReadFault>
    ensures { Gives (λ i. i) (items_left lexer.new) result (form.identifier (items_left lexer.old)) }
{
    if let Some(found) = take_kind(lexer, Kind::Variable) {
        let word = word_of(alloc, &found.text[1..], found.place)?;
        return Ok(Ident::Variable(word));
    }
    let word = name(alloc, lexer)?;
    Ok(Ident::Name(word))
}

/// Reads names up to a closing bracket.
pub fn names_to_right(alloc: Global, lexer: &mut Lexer<'_>) -> Result<Items<Word>, ReadFault>
    ensures { Gives (λ x. x) (items_left lexer.new) result (row form.name (items_left lexer.old)) }
{
    let mut found = Items::new(alloc);
    'row: while !lexer.take_right() {
        let value = name(alloc, lexer)?;
        found.push(value)?;
    }
    Ok(found)
}
