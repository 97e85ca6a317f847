//! Problems.

use np_lex::Place;
use np_syntax::{Condition, Decimal, Expr, Group, Word};
use sqlite_items::Items;

/// A problem: `(define (problem name) section ..)`.
#[derive(Debug, Drop)]
pub struct Problem {
    /// Its name.
    pub name: Word,
    /// Its sections, in the order of the text.
    pub sections: Items<ProblemSection>,
    /// Where its first token begins.
    pub place: Place,
}

/// A section of a problem, with the place of its keyword.
#[derive(Debug, Drop)]
pub enum ProblemSection {
    /// `(:domain name)`
    Domain(Place, Word),
    /// `(:requirements :keyword ..)`
    Requirements(Place, Items<Word>),
    /// `(:objects name .. - name ..)`
    Objects(Place, Items<Group>),
    /// `(:init fact ..)`
    Init(Place, Items<Fact>),
    /// `(:goal condition)`
    Goal(Place, Condition),
    /// `(:metric minimize expression)`
    Metric(Place, Expr),
}

/// What `:init` says.
#[derive(Debug, Drop)]
pub enum Fact {
    /// `(p a ..)`
    Atom(Word, Items<Word>),
    /// `(not (p a ..))`
    NotAtom(Word, Items<Word>),
    /// `(= (f a ..) 3)`. The flag says that the function is a name alone, and not in brackets.
    Value(Word, Items<Word>, bool, Decimal),
}
