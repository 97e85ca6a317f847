//! Conditions.

use np_lex::Place;
use np_words::{Expr, Ident, Word};
use sqlite_items::Items;

/// How two numbers compare.
#[derive(Clone, Copy, Debug, PartialEq, Eq)]
pub enum Op {
    /// `<`
    Less,
    /// `>`
    Greater,
    /// `<=`
    AtMost,
    /// `>=`
    AtLeast,
}

/// One side of `=`. Typing decides whether a bare name is an object or a function.
#[derive(Debug, Drop)]
pub enum Side {
    /// An expression, and where its first token begins.
    Expr(Expr, Place),
    /// A variable.
    Variable(Word),
}

/// A condition.
#[derive(Debug, Drop)]
pub enum Condition {
    /// `()`
    Nothing,
    /// `(and c ..)`
    And(Items<Condition>),
    /// `(p x ..)`
    Atom(Word, Items<Ident>),
    /// `(not (p x ..))`
    NotAtom(Word, Items<Ident>),
    /// `(< x y)`, and so with the other comparisons.
    Compare(Op, Expr, Expr),
    /// `(not (< x y))`, and so with the other comparisons.
    NotCompare(Op, Expr, Expr),
    /// `(= x y)`
    Equal(Side, Side),
    /// `(not (= x y))` of objects.
    NotSame(Ident, Ident),
}
