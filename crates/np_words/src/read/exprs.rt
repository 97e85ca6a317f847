//! Expressions.

ghost use Rattle.std.specs.Prelude.{◌≡◌, ◌∷◌, IfOk};
ghost use Rattle.np_lex.specs.Lexers.{items_left};
ghost use Rattle.np_read.specs.ItemAnswers.{Gives};
ghost use Rattle.np_read.specs.ItemReaders as readers;
ghost use Rattle.np_words.specs.ExprForm as form;
ghost use Rattle.np_words.specs.ReadingForm as words;

use super::numbers::number;
use super::words::{identifier, name};
use crate::expr::Expr;
use crate::word::Ident;
use np_lex::Lexer;
use np_read::{ReadFault, right, take_operator};
use sqlite_items::{Boxed, Items};
use std::alloc::{AllocError, Global};

/// Reads names and variables up to a closing bracket.
pub fn identifiers_to_right(alloc: Global, lexer: &mut Lexer<'_>) -> Result<Items<Ident>, ReadFault>
    ensures { Gives (λ x. x) (items_left lexer.new) result (readers.row words.identifier (items_left lexer.old)) }
{
    let mut found = Items::new(alloc);
    'row: while !lexer.take_right() {
        let value = identifier(alloc, lexer)?;
        found.push(value)?;
    }
    Ok(found)
}

/// Reads a function with its arguments, after the opening bracket.
#[tactic(auto, unfolding(crate::specs::ExprForm::call))]
fn call(alloc: Global, lexer: &mut Lexer<'_>) -> Result<Expr, ReadFault>
    ensures { Gives (λ x. x) (items_left lexer.new) result (form.call (items_left lexer.old)) }
{
    let function = name(alloc, lexer)?;
    let arguments = identifiers_to_right(alloc, lexer)?;
    Ok(Expr::Call(function, arguments))
}

/// Reads a number or a name.
fn plain(alloc: Global, lexer: &mut Lexer<'_>) -> Result<Expr, ReadFault>
    ensures { Gives (λ x. x) (items_left lexer.new) result (form.plain (items_left lexer.old)) }
{
    match number(alloc, lexer) {
        Ok(value) => return Ok(Expr::Number(value)),
        Err(ReadFault::Next) => {}
        Err(ReadFault::Memory) => return Err(ReadFault::Memory),
    }
    let function = name(alloc, lexer)?;
    Ok(Expr::Bare(function))
}

/// Reads an expression in which at most so many brackets may be opened one inside the other.
#[tactic(auto, using(crate::proofs::ExprLexing::expr_opened, crate::proofs::ExprLexing::expr_closed, crate::proofs::ExprLexing::expr_plain))]
#[cycle(expr)]
pub fn expr(alloc: Global, depth: u32, lexer: &mut Lexer<'_>) -> Result<Expr, ReadFault>
    ensures { Gives (λ x. x) (items_left lexer.new) result (form.expr depth (items_left lexer.old)) }
{
    if depth == 0 {
        return plain(alloc, lexer);
    }
    if lexer.take_left() {
        return in_bracket(alloc, depth - 1, lexer);
    }
    plain(alloc, lexer)
}

/// Reads what follows an opening bracket.
#[tactic(auto, using(crate::proofs::ExprLexing::minus_taken, crate::proofs::ExprLexing::minus_left))]
#[cycle(expr)]
fn in_bracket(alloc: Global, depth: u32, lexer: &mut Lexer<'_>) -> Result<Expr, ReadFault>
    ensures { Gives (λ x. x) (items_left lexer.new) result (form.in_bracket (form.expr depth) (items_left lexer.old)) }
{
    if take_operator(lexer, b"-") {
        return difference(alloc, depth, lexer);
    }
    from_plus(alloc, depth, lexer)
}

/// Reads what follows an opening bracket, other than `-`.
#[tactic(auto, using(crate::proofs::ExprLexing::plus_taken, crate::proofs::ExprLexing::plus_left))]
#[cycle(expr)]
fn from_plus(alloc: Global, depth: u32, lexer: &mut Lexer<'_>) -> Result<Expr, ReadFault>
    ensures { Gives (λ x. x) (items_left lexer.new) result (form.from_plus (form.expr depth) (items_left lexer.old)) }
{
    if take_operator(lexer, b"+") {
        return sum(alloc, depth, lexer);
    }
    from_star(alloc, depth, lexer)
}

/// Reads a product, a quotient or a function with its arguments, after the opening bracket.
#[tactic(auto, using(crate::proofs::ExprLexing::star_taken, crate::proofs::ExprLexing::star_left))]
#[cycle(expr)]
fn from_star(alloc: Global, depth: u32, lexer: &mut Lexer<'_>) -> Result<Expr, ReadFault>
    ensures { Gives (λ x. x) (items_left lexer.new) result (form.from_star (form.expr depth) (items_left lexer.old)) }
{
    if take_operator(lexer, b"*") {
        return product(alloc, depth, lexer);
    }
    from_slash(alloc, depth, lexer)
}

/// Reads a quotient or a function with its arguments, after the opening bracket.
#[tactic(auto, using(crate::proofs::ExprLexing::slash_taken, crate::proofs::ExprLexing::slash_left))]
#[cycle(expr)]
fn from_slash(alloc: Global, depth: u32, lexer: &mut Lexer<'_>) -> Result<Expr, ReadFault>
    ensures { Gives (λ x. x) (items_left lexer.new) result (form.from_slash (form.expr depth) (items_left lexer.old)) }
{
    if take_operator(lexer, b"/") {
        return quotient(alloc, depth, lexer);
    }
    call(alloc, lexer)
}

/// Reads the last part, and the closing bracket.
#[tactic(auto, unfolding(crate::specs::ExprForm::last))]
#[cycle(expr)]
pub fn last(alloc: Global, depth: u32, lexer: &mut Lexer<'_>) -> Result<Expr, ReadFault>
    ensures { Gives (λ x. x) (items_left lexer.new) result (form.last (form.expr depth) (items_left lexer.old)) }
{
    let part = expr(alloc, depth, lexer)?;
    right(lexer)?;
    Ok(part)
}

/// Reads the second operand of `-`, where there is one, and the closing bracket.
#[cycle(expr)]
fn maybe_last(alloc: Global, depth: u32, lexer: &mut Lexer<'_>) -> Result<Option<Expr>, ReadFault>
    ensures { Gives (λ x. x) (items_left lexer.new) result (form.maybe_last (form.expr depth) (items_left lexer.old)) }
{
    if lexer.take_right() {
        return Ok(None);
    }
    let part = last(alloc, depth, lexer)?;
    Ok(Some(part))
}

/// One operand negated, or two subtracted.
fn minus_of(alloc: Global, first: Expr, second: Option<Expr>) -> Result<Expr, AllocError>
    ensures { IfOk result (λ x. x ≡ form.minus_of first second) }
{
    let first = Boxed::new(alloc, first)?;
    match second {
        None => Ok(Expr::Minus(first)),
        Some(second) => Ok(Expr::Sub(first, Boxed::new(alloc, second)?)),
    }
}

/// Reads what follows `-`.
#[tactic(auto, unfolding(crate::specs::ExprForm::difference))]
#[cycle(expr)]
fn difference(alloc: Global, depth: u32, lexer: &mut Lexer<'_>) -> Result<Expr, ReadFault>
    ensures { Gives (λ x. x) (items_left lexer.new) result (form.difference (form.expr depth) (items_left lexer.old)) }
{
    let first = expr(alloc, depth, lexer)?;
    let second = maybe_last(alloc, depth, lexer)?;
    let value = minus_of(alloc, first, second)?;
    Ok(value)
}

/// Reads what follows `/`.
#[tactic(auto, unfolding(crate::specs::ExprForm::quotient))]
#[cycle(expr)]
fn quotient(alloc: Global, depth: u32, lexer: &mut Lexer<'_>) -> Result<Expr, ReadFault>
    ensures { Gives (λ x. x) (items_left lexer.new) result (form.quotient (form.expr depth) (items_left lexer.old)) }
{
    let first = expr(alloc, depth, lexer)?;
    let second = last(alloc, depth, lexer)?;
    let first = Boxed::new(alloc, first)?;
    let second = Boxed::new(alloc, second)?;
    Ok(Expr::Div(first, second))
}

/// Reads one part at least after the first, up to a closing bracket. The first stands in the list already.
#[cycle(expr)]
fn further_parts(
    alloc: Global,
    depth: u32,
    lexer: &mut Lexer<'_>,
    first: Expr,
) -> Result<Items<Expr>, ReadFault>
    ensures { Gives (λ x. x) (items_left lexer.new) result (readers.made (λ more. first ∷ more) (readers.further (form.expr depth) (readers.row (form.expr depth))) (items_left lexer.old)) }
{
    let mut found = Items::new(alloc);
    found.push(first)?;
    let second = expr(alloc, depth, lexer)?;
    found.push(second)?;
    'row: while !lexer.take_right() {
        let value = expr(alloc, depth, lexer)?;
        found.push(value)?;
    }
    Ok(found)
}

/// Reads two parts at least, up to a closing bracket.
#[tactic(auto, unfolding(crate::specs::ExprForm::two_parts))]
#[cycle(expr)]
fn two_parts(alloc: Global, depth: u32, lexer: &mut Lexer<'_>) -> Result<Items<Expr>, ReadFault>
    ensures { Gives (λ x. x) (items_left lexer.new) result (form.two_parts (form.expr depth) (items_left lexer.old)) }
{
    let first = expr(alloc, depth, lexer)?;
    further_parts(alloc, depth, lexer, first)
}

/// Reads what follows `+`.
#[tactic(auto, unfolding(crate::specs::ExprForm::sum))]
#[cycle(expr)]
fn sum(alloc: Global, depth: u32, lexer: &mut Lexer<'_>) -> Result<Expr, ReadFault>
    ensures { Gives (λ x. x) (items_left lexer.new) result (form.sum (form.expr depth) (items_left lexer.old)) }
{
    let parts = two_parts(alloc, depth, lexer)?;
    Ok(Expr::Add(parts))
}

/// Reads what follows `*`.
#[tactic(auto, unfolding(crate::specs::ExprForm::product))]
#[cycle(expr)]
fn product(alloc: Global, depth: u32, lexer: &mut Lexer<'_>) -> Result<Expr, ReadFault>
    ensures { Gives (λ x. x) (items_left lexer.new) result (form.product (form.expr depth) (items_left lexer.old)) }
{
    let parts = two_parts(alloc, depth, lexer)?;
    Ok(Expr::Mul(parts))
}
