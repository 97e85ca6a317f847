//! Effects.

use np_words::{Expr, Ident, Word};
use sqlite_items::Items;

/// An effect. The flag of a change says that its target is a name alone, and not in brackets.
#[derive(Debug, Drop)]
pub enum Effect {
    /// `()`
    Nothing,
    /// `(and e ..)`
    And(Items<Effect>),
    /// `(p x ..)`
    Add(Word, Items<Ident>),
    /// `(not (p x ..))`
    Delete(Word, Items<Ident>),
    /// `(increase (f x ..) y)`
    Increase(Word, Items<Ident>, bool, Expr),
    /// `(decrease (f x ..) y)`
    Decrease(Word, Items<Ident>, bool, Expr),
}
