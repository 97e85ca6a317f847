//! Why nothing is read.

use np_lex::Place;
use thiserror::Error;

/// Why nothing was read.
#[derive(Clone, Copy, Debug, PartialEq, Eq, Error)]
pub enum ReadFault {
    /// The text spells nothing. The place is that of the first fault: a token, a bad byte or the end.
    #[error("syntax")]
    At(Place),
    /// A number of more than 38 digits stands at this place, before any other fault.
    #[error("number wide")]
    NumberWide(Place),
    /// Memory ran out.
    #[error("out of memory")]
    Memory,
}
