//! The end of a text for readers of pieces.

ghost use Rattle.std.specs.Prelude.{◌≡◌, ◌↔◌, [], IsTrue};
ghost use Rattle.np_read.specs.Pieces.{pieces_left};

use np_lex::Lexer;

/// Whether nothing is left of the text but blanks and comments.
#[tactic(auto, using(crate::proofs::Pieces::no_piece_left, crate::proofs::Pieces::bad_piece_left))]
pub fn is_at_end(lexer: &Lexer<'_>) -> bool
    ensures { IsTrue result ↔ (pieces_left lexer.now ≡ []) }
{
    let mut rest = *lexer;
    match rest.next() {
        Ok(None) => true,
        Ok(Some(_)) => false,
        Err(_) => false,
    }
}
