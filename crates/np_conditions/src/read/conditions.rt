//! Conditions.

ghost use Rattle.std.specs.Prelude.{◌≡◌, IfNone, IfSome, Ok, Err};
ghost use Rattle.np_lex.specs.Lexers.{items_left};
ghost use Rattle.np_lex.specs.Tokens.{lower};
ghost use Rattle.np_read.specs.ItemAnswers.{Gives};
ghost use Rattle.np_read.specs.ItemReaders as readers;
ghost use Rattle.np_conditions.specs.ConditionForm as form;

use crate::condition::{Condition, Op, Side};
use np_lex::{Kind, Lexer, is_word};
use np_read::{ReadFault, left, right, take_kind, take_operator};
use np_words::read::{expr, identifier, identifiers_to_right, last, name, variable};
use np_words::{Expr, Ident, Word};
use sqlite_items::Items;
use std::alloc::Global;

/// Reads a name and its arguments, up to the closing bracket.
#[tactic(auto, unfolding(crate::specs::ConditionForm::atom))]
pub fn atom(alloc: Global, lexer: &mut Lexer<'_>) -> Result<(Word, Items<Ident>), ReadFault>
    ensures { Gives (λ x. x) (items_left lexer.new) result (form.atom (items_left lexer.old)) }
{
    let symbol = name(alloc, lexer)?;
    let arguments = identifiers_to_right(alloc, lexer)?;
    Ok((symbol, arguments))
}

/// The comparison with this text.
fn op_in(text: &[u8]) -> Option<Op>
    ensures { result ≡ form.op_in (lower text.now) }
{
    if is_word(text, b"<") {
        return Some(Op::Less);
    }
    if is_word(text, b">") {
        return Some(Op::Greater);
    }
    if is_word(text, b"<=") {
        return Some(Op::AtMost);
    }
    if is_word(text, b">=") {
        return Some(Op::AtLeast);
    }
    None
}

/// The comparison that comes next, if one does. If so it was read, else the lexer is as before.
fn comparison(lexer: &mut Lexer<'_>) -> Option<Op>
    ensures some { IfSome result (λ op. form.comparison (items_left lexer.old) ≡ Ok (op, items_left lexer.new)) }
    ensures none { IfNone result (form.comparison (items_left lexer.old) ≡ Err (items_left lexer.new)) }
{
    let before = *lexer;
    let Some(found) = take_kind(lexer, Kind::Op) else {
        return None;
    };
    let Some(op) = op_in(found.text) else {
        *lexer = before;
        return None;
    };
    Some(op)
}

/// Reads two expressions, and the closing bracket.
#[tactic(auto, unfolding(crate::specs::ConditionForm::operands))]
fn operands(alloc: Global, depth: u32, lexer: &mut Lexer<'_>) -> Result<(Expr, Expr), ReadFault>
    ensures { Gives (λ x. x) (items_left lexer.new) result (form.operands depth (items_left lexer.old)) }
{
    let first = expr(alloc, depth, lexer)?;
    let second = last(alloc, depth, lexer)?;
    Ok((first, second))
}

/// Reads one side of `=`.
fn one_side(alloc: Global, depth: u32, lexer: &mut Lexer<'_>) -> Result<Side, ReadFault>
    ensures { Gives (λ x. x) (items_left lexer.new) result (form.one_side depth (items_left lexer.old)) }
{
    match variable(alloc, lexer) {
        Ok(word) => return Ok(Side::Variable(word)),
        Err(ReadFault::Next) => {}
        Err(ReadFault::Memory) => return Err(ReadFault::Memory),
    }
    let place = lexer.place();
    let value = expr(alloc, depth, lexer)?;
    Ok(Side::Expr(value, place))
}

/// Reads the second side of `=`, and the closing bracket.
#[tactic(auto, unfolding(crate::specs::ConditionForm::last_side))]
fn last_side(alloc: Global, depth: u32, lexer: &mut Lexer<'_>) -> Result<Side, ReadFault>
    ensures { Gives (λ x. x) (items_left lexer.new) result (form.last_side depth (items_left lexer.old)) }
{
    let side = one_side(alloc, depth, lexer)?;
    right(lexer)?;
    Ok(side)
}

/// Reads two objects, and both closing brackets.
#[tactic(auto, unfolding(crate::specs::ConditionForm::not_same))]
fn not_same(alloc: Global, lexer: &mut Lexer<'_>) -> Result<Condition, ReadFault>
    ensures { Gives (λ x. x) (items_left lexer.new) result (form.not_same (items_left lexer.old)) }
{
    let first = identifier(alloc, lexer)?;
    let second = identifier(alloc, lexer)?;
    right(lexer)?;
    right(lexer)?;
    Ok(Condition::NotSame(first, second))
}

/// Reads what follows a comparison that `not` encloses, and both closing brackets.
#[tactic(auto, unfolding(crate::specs::ConditionForm::not_compared))]
fn not_compared(
    alloc: Global,
    depth: u32,
    op: Op,
    lexer: &mut Lexer<'_>,
) -> Result<Condition, ReadFault>
    ensures { Gives (λ x. x) (items_left lexer.new) result (form.not_compared depth op (items_left lexer.old)) }
{
    let (first, second) = operands(alloc, depth, lexer)?;
    right(lexer)?;
    Ok(Condition::NotCompare(op, first, second))
}

/// Reads an atom that `not` encloses, and both closing brackets.
#[tactic(auto, unfolding(crate::specs::ConditionForm::not_atom))]
fn not_atom(alloc: Global, lexer: &mut Lexer<'_>) -> Result<Condition, ReadFault>
    ensures { Gives (λ x. x) (items_left lexer.new) result (form.not_atom (items_left lexer.old)) }
{
    let (predicate, arguments) = atom(alloc, lexer)?;
    right(lexer)?;
    Ok(Condition::NotAtom(predicate, arguments))
}

/// Reads a comparison or an atom that `not` encloses.
#[tactic(auto, using(crate::proofs::ConditionLexing::not_op, crate::proofs::ConditionLexing::not_no_op))]
fn not_from_compare(
    alloc: Global,
    depth: u32,
    lexer: &mut Lexer<'_>,
) -> Result<Condition, ReadFault>
    ensures { Gives (λ x. x) (items_left lexer.new) result (form.not_from_compare depth (items_left lexer.old)) }
{
    if let Some(op) = comparison(lexer) {
        return not_compared(alloc, depth, op, lexer);
    }
    not_atom(alloc, lexer)
}

/// Reads what `not` encloses, after its bracket.
#[tactic(auto, using(crate::proofs::ConditionLexing::not_same_taken, crate::proofs::ConditionLexing::not_same_left))]
fn in_not(alloc: Global, depth: u32, lexer: &mut Lexer<'_>) -> Result<Condition, ReadFault>
    ensures { Gives (λ x. x) (items_left lexer.new) result (form.in_not depth (items_left lexer.old)) }
{
    if take_operator(lexer, b"=") {
        return not_same(alloc, lexer);
    }
    not_from_compare(alloc, depth, lexer)
}

/// Reads what follows `not`.
#[tactic(auto, unfolding(crate::specs::ConditionForm::negated))]
fn negated(alloc: Global, depth: u32, lexer: &mut Lexer<'_>) -> Result<Condition, ReadFault>
    ensures { Gives (λ x. x) (items_left lexer.new) result (form.negated depth (items_left lexer.old)) }
{
    left(lexer)?;
    in_not(alloc, depth, lexer)
}

/// Reads what follows a comparison.
#[tactic(auto, unfolding(crate::specs::ConditionForm::compared))]
fn compared(
    alloc: Global,
    depth: u32,
    op: Op,
    lexer: &mut Lexer<'_>,
) -> Result<Condition, ReadFault>
    ensures { Gives (λ x. x) (items_left lexer.new) result (form.compared depth op (items_left lexer.old)) }
{
    let (first, second) = operands(alloc, depth, lexer)?;
    Ok(Condition::Compare(op, first, second))
}

/// Reads an atom, after its bracket.
#[tactic(auto, unfolding(crate::specs::ConditionForm::some_atom))]
fn some_atom(alloc: Global, lexer: &mut Lexer<'_>) -> Result<Condition, ReadFault>
    ensures { Gives (λ x. x) (items_left lexer.new) result (form.some_atom (items_left lexer.old)) }
{
    let (predicate, arguments) = atom(alloc, lexer)?;
    Ok(Condition::Atom(predicate, arguments))
}

/// Reads a comparison or an atom, after its bracket.
#[tactic(auto, using(crate::proofs::ConditionLexing::op_taken, crate::proofs::ConditionLexing::op_left))]
fn from_compare(alloc: Global, depth: u32, lexer: &mut Lexer<'_>) -> Result<Condition, ReadFault>
    ensures { Gives (λ x. x) (items_left lexer.new) result (form.from_compare depth (items_left lexer.old)) }
{
    if let Some(op) = comparison(lexer) {
        return compared(alloc, depth, op, lexer);
    }
    some_atom(alloc, lexer)
}

/// Reads what follows `=`.
#[tactic(auto, unfolding(crate::specs::ConditionForm::equal))]
fn equal(alloc: Global, depth: u32, lexer: &mut Lexer<'_>) -> Result<Condition, ReadFault>
    ensures { Gives (λ x. x) (items_left lexer.new) result (form.equal depth (items_left lexer.old)) }
{
    let first = one_side(alloc, depth, lexer)?;
    let second = last_side(alloc, depth, lexer)?;
    Ok(Condition::Equal(first, second))
}

/// Reads an equality, a comparison or an atom, after its bracket.
#[tactic(auto, using(crate::proofs::ConditionLexing::equal_taken, crate::proofs::ConditionLexing::equal_left))]
fn from_equal(alloc: Global, depth: u32, lexer: &mut Lexer<'_>) -> Result<Condition, ReadFault>
    ensures { Gives (λ x. x) (items_left lexer.new) result (form.from_equal depth (items_left lexer.old)) }
{
    if take_operator(lexer, b"=") {
        return equal(alloc, depth, lexer);
    }
    from_compare(alloc, depth, lexer)
}

/// Reads what a condition's bracket encloses, other than nothing and `and`. Where no bracket may be opened in it, `not` is a fault.
#[tactic(auto, using(crate::proofs::ConditionLexing::not_taken, crate::proofs::ConditionLexing::not_left, crate::proofs::ConditionLexing::not_none))]
fn from_not(alloc: Global, depth: u32, lexer: &mut Lexer<'_>) -> Result<Condition, ReadFault>
    ensures { Gives (λ x. x) (items_left lexer.new) result (form.from_not depth (items_left lexer.old)) }
{
    if depth == 0 {
        return from_equal(alloc, depth, lexer);
    }
    if lexer.take_name(b"not") {
        return negated(alloc, depth - 1, lexer);
    }
    from_equal(alloc, depth, lexer)
}

/// Reads a condition, in whose bracket so many more may be opened one inside the other.
#[tactic(auto, using(crate::proofs::ConditionLexing::condition_is))]
#[cycle(condition)]
pub fn condition(alloc: Global, depth: u32, lexer: &mut Lexer<'_>) -> Result<Condition, ReadFault>
    ensures { Gives (λ x. x) (items_left lexer.new) result (form.condition depth (items_left lexer.old)) }
{
    left(lexer)?;
    in_bracket(alloc, depth, lexer)
}

/// Reads what a condition's bracket encloses.
#[tactic(auto, using(crate::proofs::ConditionLexing::nothing_taken, crate::proofs::ConditionLexing::nothing_left))]
#[cycle(condition)]
fn in_bracket(alloc: Global, depth: u32, lexer: &mut Lexer<'_>) -> Result<Condition, ReadFault>
    ensures { Gives (λ x. x) (items_left lexer.new) result (form.in_bracket depth (form.parts depth) (items_left lexer.old)) }
{
    if lexer.take_right() {
        return Ok(Condition::Nothing);
    }
    from_and(alloc, depth, lexer)
}

/// Reads what a condition's bracket encloses, other than nothing.
#[tactic(auto, using(crate::proofs::ConditionLexing::and_taken, crate::proofs::ConditionLexing::and_left))]
#[cycle(condition)]
fn from_and(alloc: Global, depth: u32, lexer: &mut Lexer<'_>) -> Result<Condition, ReadFault>
    ensures { Gives (λ x. x) (items_left lexer.new) result (form.from_and depth (form.parts depth) (items_left lexer.old)) }
{
    if lexer.take_name(b"and") {
        return all_of(alloc, depth, lexer);
    }
    from_not(alloc, depth, lexer)
}

/// Reads what follows `and`.
#[tactic(auto, unfolding(crate::specs::ConditionForm::all_of))]
#[cycle(condition)]
fn all_of(alloc: Global, depth: u32, lexer: &mut Lexer<'_>) -> Result<Condition, ReadFault>
    ensures { Gives (λ x. x) (items_left lexer.new) result (form.all_of depth (form.parts depth) (items_left lexer.old)) }
{
    let found = parts(alloc, depth, lexer)?;
    Ok(Condition::And(found))
}

/// Reads conditions up to a closing bracket, where so many brackets may be opened one inside the other.
#[tactic(auto, using(crate::proofs::ConditionLexing::parts_none, crate::proofs::ConditionLexing::parts_some))]
#[cycle(condition)]
fn parts(alloc: Global, depth: u32, lexer: &mut Lexer<'_>) -> Result<Items<Condition>, ReadFault>
    ensures { Gives (λ x. x) (items_left lexer.new) result (form.parts depth (items_left lexer.old)) }
{
    if depth == 0 {
        return no_parts(alloc, lexer);
    }
    conditions_to_right(alloc, depth - 1, lexer)
}

/// Reads a closing bracket, where no condition can stand.
#[tactic(auto, unfolding(crate::specs::ConditionForm::no_parts))]
fn no_parts(alloc: Global, lexer: &mut Lexer<'_>) -> Result<Items<Condition>, ReadFault>
    ensures { Gives (λ x. x) (items_left lexer.new) result (form.no_parts (items_left lexer.old)) }
{
    right(lexer)?;
    Ok(Items::new(alloc))
}

/// Reads conditions up to a closing bracket, in each of whose brackets so many more may be opened.
#[cycle(condition)]
fn conditions_to_right(
    alloc: Global,
    depth: u32,
    lexer: &mut Lexer<'_>,
) -> Result<Items<Condition>, ReadFault>
    ensures { Gives (λ x. x) (items_left lexer.new) result (readers.row (form.condition depth) (items_left lexer.old)) }
{
    let mut found = Items::new(alloc);
    'row: while !lexer.take_right() {
        let value = condition(alloc, depth, lexer)?;
        found.push(value)?;
    }
    Ok(found)
}
