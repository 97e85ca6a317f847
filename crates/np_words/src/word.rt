//! The words and numbers of a text, each with its place.

use np_lex::Place;
use np_model::Name;
use sqlite_items::Items;

/// A word of a text.
#[derive(Debug, Drop)]
pub struct Word {
    /// Its text in lower case: of a variable without the `?`, of a keyword without the `:`.
    pub text: Name,
    /// Where its token begins.
    pub place: Place,
}

/// What stands for an object: its name, or a variable.
#[derive(Debug, Drop)]
pub enum Ident {
    /// A name.
    Name(Word),
    /// A variable.
    Variable(Word),
}

/// A number as it is written: digits, and with a point digits after it.
#[derive(Debug, Drop)]
pub struct Decimal {
    /// Whether a `-` stands before it.
    pub negative: bool,
    /// The digits before the point, each as its byte.
    pub whole: Items<u8>,
    /// The digits after the point, where there is one.
    pub part: Option<Items<u8>>,
    /// Where its token begins.
    pub place: Place,
}

/// One stretch of a typed list: words, and the type that is written after them.
#[derive(Debug, Drop)]
pub struct Group {
    /// The words: one at least.
    pub words: Items<Word>,
    /// The type's name. Only the last group of a list may have none.
    pub of: Option<Word>,
}

/// What the words of a typed list are.
#[derive(Clone, Copy, Debug, PartialEq, Eq)]
pub enum ListKind {
    /// Names.
    Names,
    /// Variables.
    Variables,
}
