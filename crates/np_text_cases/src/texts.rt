//! What the tests of texts share: what comes of a text, texts with marks, and words of values at their places.

use np_lex::Place;
use np_problem::read_problem;
use np_syntax::{Decimal, Expr, Group, Ident, ReadFault, Word, read_domain};
use std::process::Abort;

/// What comes of a text: a value, a fault at this line and column, or a number there that has too many digits.
#[derive(Clone, Copy, Debug, PartialEq, Eq)]
pub enum Outcome {
    Read,
    At(usize, usize),
    Wide(usize, usize),
}

/// What a text is read as.
#[derive(Clone, Copy, Debug, PartialEq, Eq)]
pub enum Grammar {
    Domain,
    Problem,
}

/// Why a text isn't read, where it isn't.
pub fn fault_of(
    rt: &(impl Abort + AllocGlobal),
    grammar: Grammar,
    text: &[u8],
) -> Option<ReadFault> {
    match grammar {
        Grammar::Domain => read_domain(rt.alloc(), text).err(),
        Grammar::Problem => read_problem(rt.alloc(), text).err(),
    }
}

/// What comes of a text.
pub fn outcome_of(rt: &(impl Abort + AllocGlobal), grammar: Grammar, text: &[u8]) -> Outcome {
    match fault_of(rt, grammar, text) {
        None => Outcome::Read,
        Some(ReadFault::At(place)) => Outcome::At(place.line, place.column),
        Some(ReadFault::NumberWide(place)) => Outcome::Wide(place.line, place.column),
        Some(ReadFault::Memory) => panic!(rt; "memory"),
    }
}

/// The texts as one.
pub fn joined(rt: &(impl Abort + AllocGlobal), texts: &[&str]) -> Vec<u8> {
    let mut all = Vec::new(rt.alloc());
    for text in texts {
        all.extend_from_slice(text.as_bytes()).expect(rt, "memory");
    }
    all
}

/// The place after a text.
pub fn end_of(text: &[u8]) -> Place {
    let (mut line, mut column) = (1_usize, 1_usize);
    for byte in text {
        if *byte == b'\n' {
            line = line.saturating_add(1);
            column = 1;
        } else {
            column = column.saturating_add(1);
        }
    }
    Place {
        offset: text.len(),
        line,
        column,
    }
}

/// Whether the first fault of a text is at this place.
pub fn stops_at(
    rt: &(impl Abort + AllocGlobal),
    grammar: Grammar,
    text: &[u8],
    place: Place,
) -> bool {
    fault_of(rt, grammar, text) == Some(ReadFault::At(place))
}

/// Whether the first fault of a text is where the second of its parts begins. The text begins and ends so.
pub fn stops_between(
    rt: &(impl Abort + AllocGlobal),
    grammar: Grammar,
    around: (&str, &str),
    parts: &(&str, &str),
) -> bool {
    let place = end_of(&joined(rt, &[around.0, parts.0]));
    let text = joined(rt, &[around.0, parts.0, parts.1, around.1]);
    stops_at(rt, grammar, &text, place)
}

/// Whether a text is read that begins and ends so.
pub fn is_read(
    rt: &(impl Abort + AllocGlobal),
    grammar: Grammar,
    around: (&str, &str),
    part: &str,
) -> bool {
    outcome_of(rt, grammar, &joined(rt, &[around.0, part, around.1])) == Outcome::Read
}

/// So many times what opens a bracket, then a text, then so many closing brackets, and what comes of a text that ends so.
pub type Nested = (usize, &'static str, usize, Outcome);

/// The text of a row, after this front and with this to open each bracket.
fn nested(rt: &(impl Abort + AllocGlobal), front: &str, opening: &str, row: &Nested) -> Vec<u8> {
    let mut text = joined(rt, &[front]);
    for _ in 0..row.0 {
        text.extend_from_slice(opening.as_bytes())
            .expect(rt, "memory");
    }
    text.extend_from_slice(row.1.as_bytes())
        .expect(rt, "memory");
    for _ in 0..row.2 {
        text.push(b')').expect(rt, "memory");
    }
    text
}

/// Whether the outcome of a row is right, after this front and with this to open each bracket.
pub fn nests(
    rt: &(impl Abort + AllocGlobal),
    grammar: Grammar,
    front: &str,
    opening: &str,
    row: &Nested,
) -> bool {
    outcome_of(rt, grammar, &nested(rt, front, opening, row)) == row.3
}

/// Numbers, and whether they have too many digits.
pub const NUMBERS: &[(&str, bool)] = &[
    ("12345678901234567890123456789012345678", false),
    ("-12345678901234567890123456789012345678", false),
    ("1234567890.1234567890123456789012345678", false),
    ("-1.2345678901234567890123456789012345678", false),
    ("00000000000000000000000000000000000001", false),
    ("0.0000000000000000000000000000000000000", false),
    ("123456789012345678901234567890123456789", true),
    ("-123456789012345678901234567890123456789", true),
    ("1234567890.12345678901234567890123456789", true),
    ("-12345678901234567890123456789012345678.9", true),
    ("000000000000000000000000000000000000001", true),
    ("0.00000000000000000000000000000000000000", true),
];

/// What comes of a number that begins at this column of the first line.
pub fn number_outcome(is_wide: bool, column: usize) -> Outcome {
    if is_wide {
        return Outcome::Wide(1, column);
    }
    Outcome::Read
}

/// After a mark at this place: where the marked bytes begin, or none if these were they.
fn toggled(marked: Option<Place>, place: Place) -> Option<Place> {
    match marked {
        Some(_) => None,
        None => Some(place),
    }
}

/// Reads each proper prefix of a text with marks, and gives the text without. Cut between two marks, it is at fault at the byte
/// after the first of them: it ends with a token that can't be there. Cut elsewhere, it is at fault at its end. So the marks are
/// round each word that has to be this very one, and round a `?`, `:`, `.` or sign and the byte after it.
pub fn cut(rt: &(impl Abort + AllocGlobal), grammar: Grammar, with_marks: &str) -> Vec<u8> {
    let mut text = Vec::new(rt.alloc());
    let mut marked = None;
    for byte in with_marks.as_bytes() {
        let end = end_of(&text);
        if *byte == b'~' {
            marked = toggled(marked, end);
        } else {
            assert!(rt; stops_at(rt, grammar, &text, marked.unwrap_or(end)));
            text.push(*byte).expect(rt, "memory");
        }
    }
    text
}

/// A word by its text, line and column.
pub type Spot<'a> = (&'a str, usize, usize);

/// A group by its words and its type.
pub type Stretch<'a> = (&'a [Spot<'a>], Option<Spot<'a>>);

/// Whether a place is at this line and column.
pub fn is_at(place: &Place, line: usize, column: usize) -> bool {
    place.line == line && place.column == column
}

/// Whether a word is this one.
pub fn is_word(word: &Word, wanted: &Spot<'_>) -> bool {
    word.text.as_str() == wanted.0 && is_at(&word.place, wanted.1, wanted.2)
}

/// Whether the words are these.
pub fn are_words(words: &[Word], wanted: &[Spot<'_>]) -> bool {
    for (word, spot) in words.iter().zip(wanted) {
        if !is_word(word, spot) {
            return false;
        }
    }
    words.len() == wanted.len()
}

/// Whether the type after a group is this one.
fn is_type(of: &Option<Word>, wanted: &Option<Spot<'_>>) -> bool {
    match (of, wanted) {
        (Some(word), Some(spot)) => is_word(word, spot),
        (None, None) => true,
        _ => false,
    }
}

/// Whether the groups are these.
pub fn are_groups(groups: &[Group], wanted: &[Stretch<'_>]) -> bool {
    for (group, stretch) in groups.iter().zip(wanted) {
        if !are_words(group.words.as_slice(), stretch.0) || !is_type(&group.of, &stretch.1) {
            return false;
        }
    }
    groups.len() == wanted.len()
}

/// Whether that is this name.
pub fn is_name(ident: &Ident, wanted: &Spot<'_>) -> bool {
    match ident {
        Ident::Name(word) => is_word(word, wanted),
        Ident::Variable(_) => false,
    }
}

/// Whether a number is written so.
pub fn is_decimal(value: &Decimal, negative: bool, whole: &[u8], part: Option<&[u8]>) -> bool {
    let is_part = match (&value.part, part) {
        (Some(digits), Some(wanted)) => digits.as_slice() == wanted,
        (None, None) => true,
        _ => false,
    };
    value.negative == negative && value.whole.as_slice() == whole && is_part
}

/// Whether an expression is this digit, at this line and column.
pub fn is_digit(value: &Expr, digit: &[u8], line: usize, column: usize) -> bool {
    match value {
        Expr::Number(number) => {
            is_decimal(number, false, digit, None) && is_at(&number.place, line, column)
        }
        _ => false,
    }
}
