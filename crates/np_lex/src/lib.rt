//! The tokens of a text, with their places.
#![tactic(auto)]

mod blanks;
mod lines;
mod longest;
mod numbers;
mod reading;
mod token;
mod words;

pub use numbers::first_decimal;
pub use reading::Lexer;
pub use token::{BadByte, Kind, Place, Token};
pub use words::{is_word, lowered};
