//! Predicates and functions with their arguments.
ghost use Rattle.std.specs.Prelude.{◌≡◌, ◌==◌, length, map, true, false};
ghost use Rattle.np_names.specs.Answers.{Answers};
ghost use Rattle.np_names.specs.Names.{number_of};
ghost use Rattle.np_declared.specs.Symbols.{object_names};
ghost use Rattle.np_typing.specs.Scopes.{ref_of};
ghost use Rattle.np_typing.specs.Uses.{argument_faults, arguments_faults, declared_faults, predicate_faults, function_faults};
ghost use Rattle.np_typing.specs.Resolved.{predicate_number, function_number, refs_of};
ghost use Rattle.np_typing.specs.Facts.{objects_of};

use crate::scope::Scope;
use np_declared::{TypeFault, TypeWhy};
use np_model::{Objects, Ref, Signature};
use np_syntax::{Ident, Word};
use sqlite_items::Items;
use std::alloc::Global;

/// A symbol with its arguments, each by its number.
#[derive(Drop)]
pub struct Call {
    /// The predicate or the function.
    pub symbol: u32,
    /// The arguments.
    pub refs: Items<Ref>,
}

/// A symbol with objects, each by its number.
#[derive(Drop)]
pub struct GroundCall {
    /// The predicate or the function.
    pub symbol: u32,
    /// The objects.
    pub objects: Objects,
}

/// An argument for a parameter of this type.
fn argument(scope: &Scope<'_>, wanted: u32, ident: &Ident) -> Result<Ref, TypeFault>
    ensures { Answers (argument_faults scope.now wanted ident.now) (λ r. r ≡ ref_of scope.now ident.now) result }
{
    let part = scope.known(ident)?;
    if scope.fits(wanted, part) {
        Ok(part)
    } else {
        Err(scope.wrong_type(ident))
    }
}

/// Arguments for parameters of these types, one for each.
fn arguments(
    alloc: Global,
    scope: &Scope<'_>,
    wanted: &[u32],
    idents: &[Ident],
) -> Result<Items<Ref>, TypeFault>
    requires { length wanted.now ≡ length idents.now }
    ensures { Answers (arguments_faults scope.now wanted.now idents.now) (λ refs. refs ≡ refs_of scope.now idents.now) result }
{
    let mut refs = Items::new(alloc);
    for place in 0..wanted.len() {
        refs.push(argument(scope, wanted[place], &idents[place])?)?;
    }
    Ok(refs)
}

/// The arguments of a declared symbol.
fn declared(
    alloc: Global,
    scope: &Scope<'_>,
    in_amount: bool,
    signature: &Signature,
    word: &Word,
    idents: &[Ident],
) -> Result<Items<Ref>, TypeFault>
    ensures { Answers (declared_faults scope.now in_amount signature.now word.now idents.now) (λ refs. refs ≡ refs_of scope.now idents.now) result }
{
    let parameters = signature.parameters.as_slice();
    if parameters.len() != idents.len() {
        return Err(scope.fault(word.place, TypeWhy::WrongArity));
    }
    if in_amount && !signature.fixed {
        return Err(scope.fault(word.place, TypeWhy::AmountNotStatic));
    }
    arguments(alloc, scope, parameters, idents)
}

/// A predicate with its arguments.
pub fn predicate(
    alloc: Global,
    scope: &Scope<'_>,
    word: &Word,
    idents: &[Ident],
) -> Result<Call, TypeFault>
    ensures { Answers (predicate_faults scope.now word.now idents.now) (λ call. (call.symbol ≡ predicate_number scope.now word.now) × (call.refs ≡ refs_of scope.now idents.now)) result }
{
    let Some((symbol, signature)) = scope.predicate(word) else {
        return Err(scope.fault(word.place, TypeWhy::UnknownPredicate));
    };
    let refs = declared(alloc, scope, false, signature, word, idents)?;
    Ok(Call { symbol, refs })
}

/// A function with its arguments. In an amount of an effect it has to be static.
pub fn function(
    alloc: Global,
    scope: &Scope<'_>,
    in_amount: bool,
    word: &Word,
    idents: &[Ident],
) -> Result<Call, TypeFault>
    ensures { Answers (function_faults scope.now in_amount word.now idents.now) (λ call. (call.symbol ≡ function_number scope.now word.now) × (call.refs ≡ refs_of scope.now idents.now)) result }
{
    let Some((symbol, signature)) = scope.function(word) else {
        return Err(scope.fault(word.place, TypeWhy::UnknownFunction));
    };
    let refs = declared(alloc, scope, in_amount, signature, word, idents)?;
    Ok(Call { symbol, refs })
}

/// An object for a parameter of this type.
fn object(scope: &Scope<'_>, wanted: u32, word: &Word) -> Result<u32, TypeFault>
    ensures { Answers (argument_faults scope.now wanted (Ident.Name word.now)) (λ n. n ≡ number_of (object_names scope.now.objects) word.now.text) result }
{
    let Some(number) = scope.object(word) else {
        return Err(scope.fault(word.place, TypeWhy::UnknownName));
    };
    if scope.fits(wanted, Ref::Object(number)) {
        Ok(number)
    } else {
        Err(scope.fault(word.place, TypeWhy::WrongType))
    }
}

/// Objects for parameters of these types, one for each.
fn objects(
    alloc: Global,
    scope: &Scope<'_>,
    wanted: &[u32],
    words: &[Word],
) -> Result<Objects, TypeFault>
    requires { length wanted.now ≡ length words.now }
    ensures { Answers (arguments_faults scope.now wanted.now (map Ident.Name words.now)) (λ objects. objects ≡ objects_of scope.now words.now) result }
{
    let mut objects = Objects::new(alloc);
    for place in 0..wanted.len() {
        objects.push(object(scope, wanted[place], &words[place])?)?;
    }
    Ok(objects)
}

/// The objects of a declared symbol.
fn declared_ground(
    alloc: Global,
    scope: &Scope<'_>,
    signature: &Signature,
    word: &Word,
    words: &[Word],
) -> Result<Objects, TypeFault>
    ensures { Answers (declared_faults scope.now false signature.now word.now (map Ident.Name words.now)) (λ objects. objects ≡ objects_of scope.now words.now) result }
{
    let parameters = signature.parameters.as_slice();
    if parameters.len() != words.len() {
        return Err(scope.fault(word.place, TypeWhy::WrongArity));
    }
    objects(alloc, scope, parameters, words)
}

/// A predicate with objects.
pub fn ground_predicate(
    alloc: Global,
    scope: &Scope<'_>,
    word: &Word,
    words: &[Word],
) -> Result<GroundCall, TypeFault>
    ensures { Answers (predicate_faults scope.now word.now (map Ident.Name words.now)) (λ call. (call.symbol ≡ predicate_number scope.now word.now) × (call.objects ≡ objects_of scope.now words.now)) result }
{
    let Some((symbol, signature)) = scope.predicate(word) else {
        return Err(scope.fault(word.place, TypeWhy::UnknownPredicate));
    };
    let objects = declared_ground(alloc, scope, signature, word, words)?;
    Ok(GroundCall { symbol, objects })
}

/// A function with objects.
pub fn ground_function(
    alloc: Global,
    scope: &Scope<'_>,
    word: &Word,
    words: &[Word],
) -> Result<GroundCall, TypeFault>
    ensures { Answers (function_faults scope.now false word.now (map Ident.Name words.now)) (λ call. (call.symbol ≡ function_number scope.now word.now) × (call.objects ≡ objects_of scope.now words.now)) result }
{
    let Some((symbol, signature)) = scope.function(word) else {
        return Err(scope.fault(word.place, TypeWhy::UnknownFunction));
    };
    let objects = declared_ground(alloc, scope, signature, word, words)?;
    Ok(GroundCall { symbol, objects })
}
