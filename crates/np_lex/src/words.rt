//! The words of tokens.

ghost use Rattle.std.specs.Prelude.{◌≡◌, ◌↔◌, ◌<◌, IsTrue, IfOk, All};
ghost use Rattle.std.specs.String.{string_bytes};
ghost use Rattle.np_lex.specs.Tokens.{lower};

use std::alloc::{AllocError, Global};

/// Whether the text is this word, which is of small letters, with each letter of the text in either case.
#[inline(never)]
pub fn is_word(text: &[u8], word: &[u8]) -> bool
    ensures { IsTrue result ↔ (lower text.now ≡ word.now) }
{
    if text.len() != word.len() {
        return false;
    }
    for (byte, letter) in text.iter().zip(word) {
        if byte.to_ascii_lowercase() != *letter {
            return false;
        }
    }
    true
}

/// Whether the bytes are the same. Inlined, so that a word that is known beforehand takes no loop.
#[inline(always)]
fn is_same(text: &[u8], word: &[u8]) -> bool
    ensures { IsTrue result ↔ (text.now ≡ word.now) }
{
    if text.len() != word.len() {
        return false;
    }
    for (byte, letter) in text.iter().zip(word) {
        if *byte != *letter {
            return false;
        }
    }
    true
}

/// The same as `is_word` of a word that is known to be of small letters. Texts mostly write it so.
#[inline(always)]
pub fn is_small_word(text: &[u8], word: &[u8]) -> bool
    requires { lower word.now ≡ word.now }
    ensures { IsTrue result ↔ (lower text.now ≡ word.now) }
{
    is_same(text, word) || is_word(text, word)
}

/// The text with each capital letter as a small one. It fails only where memory runs out.
pub fn lowered(alloc: Global, text: &[u8]) -> Result<String, AllocError>
    requires { All (λ b. b < 128) text.now }
    ensures { IfOk result (λ s. string_bytes s ≡ lower text.now) }
{
    let mut word = String::new(alloc);
    for byte in text {
        word.push(char::from(byte.to_ascii_lowercase()))?;
    }
    Ok(word)
}
