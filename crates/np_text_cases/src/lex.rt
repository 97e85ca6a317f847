//! The tokens of texts, and their places.

use np_lex::{Kind, Lexer, Place, first_decimal, is_word, lowered};
use std::alloc::{AllocError, Global};
use std::test::Fail;

/// A token by its kind, the offsets of its bytes, its line and its column.
type Expected = (Kind, usize, usize, usize, usize);

/// A text, its tokens, and the offset, line and column of the bad byte or the end.
type Case = (
    &'static [u8],
    &'static [Expected],
    bool,
    (usize, usize, usize),
);

const CASES: &[Case] = &[
    (b"", &[], false, (0, 1, 1)),
    (
        b"(a -b)",
        &[
            (Kind::Left, 0, 1, 1, 1),
            (Kind::Name, 1, 2, 1, 2),
            (Kind::Op, 3, 4, 1, 4),
            (Kind::Name, 4, 5, 1, 5),
            (Kind::Right, 5, 6, 1, 6),
        ],
        false,
        (6, 1, 7),
    ),
    (
        b"x- ?x-_1\n --1\n",
        &[
            (Kind::Name, 0, 2, 1, 1),
            (Kind::Variable, 3, 8, 1, 4),
            (Kind::Op, 10, 11, 2, 2),
            (Kind::Number, 11, 13, 2, 3),
        ],
        false,
        (14, 3, 1),
    ),
    (
        b"0:go: 7 ; on",
        &[
            (Kind::Number, 0, 1, 1, 1),
            (Kind::Keyword, 1, 4, 1, 2),
            (Kind::Colon, 4, 5, 1, 5),
            (Kind::Number, 6, 7, 1, 7),
        ],
        false,
        (12, 1, 13),
    ),
    (
        b"; )\xff\n<=<",
        &[(Kind::Op, 5, 7, 2, 1), (Kind::Op, 7, 8, 2, 3)],
        false,
        (8, 2, 4),
    ),
    (b"-1.50.5", &[(Kind::Number, 0, 5, 1, 1)], true, (5, 1, 6)),
    (b"-.5", &[(Kind::Op, 0, 1, 1, 1)], true, (1, 1, 2)),
    (b" \n\n ?1", &[], true, (4, 3, 2)),
];

/// Whether the next byte to read is at this offset, line and column.
fn is_at(place: Place, wanted: (usize, usize, usize)) -> bool {
    place.offset == wanted.0 && place.line == wanted.1 && place.column == wanted.2
}

/// Whether the next token is this one.
fn reads(lexer: &mut Lexer<'_>, wanted: &Expected) -> bool {
    match lexer.next() {
        Ok(Some(token)) => {
            token.kind == wanted.0
                && token.from == wanted.1
                && token.to == wanted.2
                && is_at(token.place, (wanted.1, wanted.3, wanted.4))
        }
        _ => false,
    }
}

/// Whether no token is left, since a bad byte comes next or since the text ends.
fn stops(lexer: &mut Lexer<'_>, is_bad: bool) -> bool {
    match lexer.next() {
        Ok(None) => !is_bad,
        Ok(Some(_)) => false,
        Err(_) => is_bad,
    }
}

/// Whether the tokens are those, and then the bad byte or the end is at its place.
fn is_read(case: &Case) -> bool {
    let mut lexer = Lexer::new(case.0);
    for token in case.1 {
        if !reads(&mut lexer, token) {
            return false;
        }
    }
    is_at(lexer.place(), case.3) && stops(&mut lexer, case.2)
}

/// What is there is taken, and nothing else.
fn takes_what_is_there() -> bool {
    let mut lexer = Lexer::new(b"( Go-2 -1.5;)\n) 42 07");
    !lexer.take_right()
        && lexer.take_left()
        && !lexer.take_name(b"go")
        && lexer.take_number().is_none()
        && lexer.take_name(b"go-2")
        && lexer.take_number() == Some(b"-1.5".as_slice())
        && lexer.take_right()
        && lexer.take_natural() == Some(42)
        && lexer.take_natural().is_none()
}

/// The text of a token.
fn has_text() -> bool {
    let mut lexer = Lexer::new(b"( Go-2");
    match (lexer.take_left(), lexer.next()) {
        (true, Ok(Some(token))) => is_word(lexer.text(&token), b"go-2"),
        _ => false,
    }
}

/// The end, after blanks or not.
fn ends() -> bool {
    np_read::is_at_end(&Lexer::new(b" ;)")) && !np_read::is_at_end(&Lexer::new(b" )"))
}

/// Decimal numbers at the front.
fn counts() -> bool {
    first_decimal(b"12x") == Some((12, 2)) && first_decimal(b"07").is_none()
}

/// Small letters.
fn lowers(alloc: Global) -> Result<bool, AllocError> {
    Ok(lowered(alloc, b"Go-2")?.as_str() == "go-2")
}

#[test]
fn tokens_are_read(rt: HostRuntime) -> Result<(), Fail> {
    for case in CASES {
        assert!(rt; is_read(case));
    }
    assert!(rt; takes_what_is_there());
    assert!(rt; has_text());
    assert!(rt; ends());
    assert!(rt; counts());
    assert!(rt; lowers(rt.alloc())?);
    Ok(())
}
