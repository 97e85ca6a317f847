//! The steps that every reader of a text takes.

use np_lex::Lexer;
use np_read::{ReadFault, ends, left, name, numeral, open, right};
use std::test::Fail;

/// Whether the text is `(proofs 1 (claim))`, and where reading stops.
fn reads(text: &str) -> (bool, usize) {
    let mut lexer = Lexer::new(text.as_bytes());
    let found = form(&mut lexer).is_ok() && ends(&lexer);
    (found, lexer.place().offset)
}

fn form(lexer: &mut Lexer<'_>) -> Result<(), ReadFault> {
    left(lexer)?;
    name(lexer, b"proofs")?;
    numeral(lexer, b"1")?;
    open(lexer, b"claim")?;
    right(lexer)?;
    right(lexer)
}

/// Texts, whether they are read, and the offset at which reading stops.
const TEXTS: &[(&str, bool, usize)] = &[
    ("(proofs 1 (claim))", true, 18),
    (" ( Proofs 1(CLAIM) ) ; so", true, 25),
    ("", false, 0),
    ("proofs", false, 0),
    ("(proof 1 (claim))", false, 1),
    ("(proofs 01 (claim))", false, 8),
    ("(proofs one", false, 8),
    ("(proofs 1 claim", false, 10),
    ("(proofs 1 (claims", false, 11),
    ("(proofs 1 (claim", false, 16),
    ("(proofs 1 (claim))(", false, 18),
    ("(proofs 1 (claim)).", false, 18),
];

#[test]
fn steps_stop_at_the_fault(rt: HostRuntime) -> Result<(), Fail> {
    for (text, found, offset) in TEXTS {
        assert!(rt; reads(text) == (*found, *offset), "{text}");
    }
    Ok(())
}
