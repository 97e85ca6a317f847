//! Expressions.

use crate::word::{Decimal, Ident, Word};
use sqlite_items::{Boxed, Items};

/// An expression.
#[derive(Debug, Drop)]
pub enum Expr {
    /// A number.
    Number(Decimal),
    /// A name alone: a function without arguments.
    Bare(Word),
    /// A function with its arguments, in brackets.
    Call(Word, Items<Ident>),
    /// `(- x)`
    Minus(Boxed<Expr>),
    /// `(- x y)`
    Sub(Boxed<Expr>, Boxed<Expr>),
    /// `(/ x y)`
    Div(Boxed<Expr>, Boxed<Expr>),
    /// `(+ x y ..)`, of two parts at least.
    Add(Items<Expr>),
    /// `(* x y ..)`, of two parts at least.
    Mul(Items<Expr>),
}
