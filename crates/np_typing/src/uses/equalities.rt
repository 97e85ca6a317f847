//! Equalities, of objects or of numbers.
ghost use Rattle.std.specs.Prelude.{◌≡◌, ◌++◌, true};
ghost use Rattle.np_names.specs.Answers.{Answers};
ghost use Rattle.np_typing.specs.Scopes.{ref_of};
ghost use Rattle.np_typing.specs.Uses.{object_faults, says_object, is_of_objects, object_side_faults, number_side_faults, equality_faults};
ghost use Rattle.np_typing.specs.Resolved.{side_ref, side_sum, equality_of};

use crate::scope::Scope;
use crate::uses::exprs::expr;
use np_declared::{TypeFault, TypeWhy};
use np_model::{Cond, Op, Ref, Sum};
use np_syntax::{Expr, Ident, Side, Word};
use sqlite_items::Items;
use std::alloc::Global;

/// Whether a side says that objects are compared: a variable, or a word alone that is an object.
fn says_object(scope: &Scope<'_>, side: &Side) -> bool
    ensures { result ≡ says_object scope.now side.now }
{
    match side {
        Side::Variable(_) => true,
        Side::Expr(Expr::Bare(word), _) => scope.object(word).is_some(),
        Side::Expr(_, _) => false,
    }
}

/// The object of a word, which has to be declared.
fn word_ref(scope: &Scope<'_>, word: &Word) -> Result<Ref, TypeFault>
    ensures { Answers (object_faults scope.now (Ident.Name word.now)) (λ r. r ≡ ref_of scope.now (Ident.Name word.now)) result }
{
    match scope.object(word) {
        Some(number) => Ok(Ref::Object(number)),
        None => Err(scope.fault(word.place, TypeWhy::UnknownName)),
    }
}

/// The parameter of a variable, which has to be bound.
fn variable_ref(scope: &Scope<'_>, word: &Word) -> Result<Ref, TypeFault>
    ensures { Answers (object_faults scope.now (Ident.Variable word.now)) (λ r. r ≡ ref_of scope.now (Ident.Variable word.now)) result }
{
    match scope.variable(word) {
        Some(number) => Ok(Ref::Parameter(number)),
        None => Err(scope.fault(word.place, TypeWhy::Unbound)),
    }
}

/// A side of an equality of objects.
fn object_side(scope: &Scope<'_>, side: &Side) -> Result<Ref, TypeFault>
    ensures { Answers (object_side_faults scope.now side.now) (λ r. r ≡ side_ref scope.now side.now) result }
{
    match side {
        Side::Variable(word) => variable_ref(scope, word),
        Side::Expr(Expr::Bare(word), _) => word_ref(scope, word),
        Side::Expr(_, place) => Err(scope.fault(*place, TypeWhy::WrongType)),
    }
}

/// A side of an equality of numbers. A variable never is one.
fn number_side(alloc: Global, scope: &Scope<'_>, side: &Side) -> Result<Sum, TypeFault>
    ensures { Answers (number_side_faults scope.now side.now) (λ sum. sum ≡ side_sum scope.now side.now) result }
{
    match side {
        Side::Variable(_) => Ok(Sum::Value(0, Items::new(alloc))),
        Side::Expr(part, _) => expr(alloc, scope, false, part),
    }
}

/// An equality of objects.
fn same(scope: &Scope<'_>, left: &Side, right: &Side) -> Result<Cond, TypeFault>
    ensures { Answers (object_side_faults scope.now left.now ++ object_side_faults scope.now right.now) (λ c. c ≡ Cond.Same true (side_ref scope.now left.now) (side_ref scope.now right.now)) result }
{
    let first = object_side(scope, left)?;
    let second = object_side(scope, right)?;
    Ok(Cond::Same(true, first, second))
}

/// An equality of numbers.
fn equal(alloc: Global, scope: &Scope<'_>, left: &Side, right: &Side) -> Result<Cond, TypeFault>
    ensures { Answers (number_side_faults scope.now left.now ++ number_side_faults scope.now right.now) (λ c. c ≡ Cond.Compare Op.Equal (side_sum scope.now left.now) (side_sum scope.now right.now)) result }
{
    let first = number_side(alloc, scope, left)?;
    let second = number_side(alloc, scope, right)?;
    Ok(Cond::Compare(Op::Equal, first, second))
}

/// An equality.
pub fn equality(
    alloc: Global,
    scope: &Scope<'_>,
    left: &Side,
    right: &Side,
) -> Result<Cond, TypeFault>
    ensures { Answers (equality_faults scope.now left.now right.now) (λ c. c ≡ equality_of scope.now left.now right.now) result }
{
    if says_object(scope, left) || says_object(scope, right) {
        same(scope, left, right)
    } else {
        equal(alloc, scope, left, right)
    }
}
