//! The text of a plan as a value.

use np_lex::Place;
use np_words::{Decimal, Word};
use sqlite_items::Items;

/// The text of a plan: `(action object ..) ..`. Either every line has a stamp, a number without a sign, or none has.
#[derive(Debug, Drop)]
pub struct PlanText {
    /// Its lines, in the order of the text.
    pub lines: Items<PlanLine>,
}

/// A line of a plan: `(action object ..)`, or with a stamp `0.5: (action object ..)`.
#[derive(Debug, Drop)]
pub struct PlanLine {
    /// Its stamp.
    pub stamp: Option<Decimal>,
    /// Where its opening bracket is.
    pub place: Place,
    /// The name of the action.
    pub action: Word,
    /// The names of the objects.
    pub objects: Items<Word>,
}
