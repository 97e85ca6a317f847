//! Why no certificate is read.

use np_lex::Place;
use thiserror::Error;

/// Why no certificate was read.
#[derive(Clone, Copy, Debug, PartialEq, Eq, Error)]
pub enum CertFault {
    /// The text spells no certificate. The place is that of the first fault: a token, a bad byte or the end.
    #[error("the text spells no certificate")]
    At(Place),
    /// Memory ran out.
    #[error("out of memory")]
    Memory,
}
