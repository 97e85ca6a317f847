//! What is declared, by number.
ghost use Rattle.std.specs.Prelude.{◌≡◌, ◌++◌, ◌∷◌, [], map, IfOk};
ghost use Rattle.np_model.specs.declared.task.Object.{Object};
ghost use Rattle.np_names.specs.Answers.{Answers};
ghost use Rattle.np_names.specs.Declarations.{all_types, all_constants, all_predicates, all_functions, all_objects};
ghost use Rattle.np_names.specs.DeclaredNames.{HasDeclared};
ghost use Rattle.np_declared.specs.LookUps.{HasTables};
ghost use Rattle.np_declared.specs.Symbols.{signature, objects_of, all_touched, all_changed};
ghost use Rattle.np_declared.specs.Types.{type_names, types_of, type_number, numbers_in, objects_in};

use crate::touched::touched_symbols;
use crate::types::TypeTable;
use np_model::{Object, Signature, TypeName};
use np_names::{
    Declarations, Names, TypeFault, constant_groups, copy, declared_functions, declared_predicates,
    object_groups,
};
use np_problem::Problem;
use np_syntax::{Declared, Domain, Group, Word};
use sqlite_items::Items;
use std::alloc::{AllocError, Global};

/// What is declared, with the names by which it is found.
#[derive(Drop)]
pub struct Tables<'a> {
    /// The types.
    pub types: Items<TypeName>,
    /// The names of the types.
    pub type_names: Names<'a>,
    /// The constants and the objects.
    pub objects: Items<Object>,
    /// Their names.
    pub object_names: Names<'a>,
    /// The predicates.
    pub predicates: Items<Signature>,
    /// Their names.
    pub predicate_names: Names<'a>,
    /// The functions.
    pub functions: Items<Signature>,
    /// Their names.
    pub function_names: Names<'a>,
}

/// The number of a type that is given; `object` where none is.
fn type_number(types: &Names<'_>, of: &Option<Word>) -> u32
    ensures { result ≡ type_number types.now of.now }
{
    match of {
        Some(word) => types.number(&word.text),
        None => 0,
    }
}

/// Puts the type of words once for each of them.
fn put_numbers(of: u32, words: &[Word], numbers: Items<u32>) -> Result<Items<u32>, AllocError>
    ensures { IfOk result (λ all. all ≡ numbers ++ map (λ _. of) words.now) }
{
    let mut all = numbers;
    for _word in words {
        all.push(of)?;
    }
    Ok(all)
}

/// The types of the words of a typed list.
pub fn numbers_in(
    alloc: Global,
    types: &Names<'_>,
    groups: &[Group],
) -> Result<Items<u32>, AllocError>
    ensures { IfOk result (λ numbers. numbers ≡ numbers_in types.now groups.now) }
{
    let mut numbers = Items::new(alloc);
    for group in groups {
        let of = type_number(types, &group.of);
        numbers = put_numbers(of, group.words.as_slice(), numbers)?;
    }
    Ok(numbers)
}

/// Puts objects of one type to others.
fn put_words(
    alloc: Global,
    of: u32,
    words: &[Word],
    objects: Items<Object>,
) -> Result<Items<Object>, AllocError>
    ensures { IfOk result (λ all. all ≡ objects ++ map (λ w. record { name = w.text; of = of }) words.now) }
{
    let mut all = objects;
    for word in words {
        all.push(Object {
            name: copy(alloc, &word.text)?,
            of,
        })?;
    }
    Ok(all)
}

/// Puts the objects of a typed list to others.
fn put_objects(
    alloc: Global,
    types: &Names<'_>,
    groups: &[Group],
    objects: Items<Object>,
) -> Result<Items<Object>, AllocError>
    ensures { IfOk result (λ all. all ≡ objects ++ objects_in types.now groups.now) }
{
    let mut all = objects;
    for group in groups {
        let of = type_number(types, &group.of);
        all = put_words(alloc, of, group.words.as_slice(), all)?;
    }
    Ok(all)
}

/// The constants of the domain.
fn constants(alloc: Global, types: &Names<'_>, domain: &Domain) -> Result<Items<Object>, AllocError>
    ensures { IfOk result (λ all. all ≡ objects_in types.now (all_constants domain.now)) }
{
    let mut all = Items::new(alloc);
    for section in domain.sections.as_slice() {
        all = put_objects(alloc, types, constant_groups(section), all)?;
    }
    Ok(all)
}

/// The constants of the domain, and then the objects of the problem.
fn objects(
    alloc: Global,
    types: &Names<'_>,
    domain: &Domain,
    problem: &Problem,
) -> Result<Items<Object>, AllocError>
    ensures { IfOk result (λ all. all ≡ objects_in types.now (all_constants domain.now) ++ objects_in types.now (all_objects problem.now)) }
{
    let mut all = constants(alloc, types, domain)?;
    for section in problem.sections.as_slice() {
        all = put_objects(alloc, types, object_groups(section), all)?;
    }
    Ok(all)
}

/// A predicate or a function, which is static where it isn't among the symbols that effects name.
fn signature(
    alloc: Global,
    types: &Names<'_>,
    named: &Names<'_>,
    declared: &Declared,
) -> Result<Signature, AllocError>
    ensures { IfOk result (λ s. s ≡ signature types.now named.now declared.now) }
{
    let fixed = !named.has(&declared.name.text);
    Ok(Signature {
        name: copy(alloc, &declared.name.text)?,
        parameters: numbers_in(alloc, types, declared.parameters.as_slice())?,
        fixed,
    })
}

/// Puts predicates to others.
fn put_predicates(
    alloc: Global,
    types: &Names<'_>,
    named: &Names<'_>,
    predicates: &[Declared],
    so_far: Items<Signature>,
) -> Result<Items<Signature>, AllocError>
    ensures { IfOk result (λ all. all ≡ so_far ++ map (signature types.now named.now) predicates.now) }
{
    let mut all = so_far;
    for declared in predicates {
        all.push(signature(alloc, types, named, declared)?)?;
    }
    Ok(all)
}

/// The predicates.
fn predicates(
    alloc: Global,
    types: &Names<'_>,
    named: &Names<'_>,
    domain: &Domain,
) -> Result<Items<Signature>, AllocError>
    ensures { IfOk result (λ all. all ≡ map (signature types.now named.now) (all_predicates domain.now)) }
{
    let mut all = Items::new(alloc);
    for section in domain.sections.as_slice() {
        all = put_predicates(alloc, types, named, declared_predicates(section), all)?;
    }
    Ok(all)
}

/// Puts functions to others.
fn put_functions(
    alloc: Global,
    types: &Names<'_>,
    named: &Names<'_>,
    functions: &[(Declared, bool)],
    so_far: Items<Signature>,
) -> Result<Items<Signature>, AllocError>
    ensures { IfOk result (λ all. all ≡ so_far ++ map (signature types.now named.now) (map (λ f. f.0) functions.now)) }
{
    let mut all = so_far;
    for function in functions {
        all.push(signature(alloc, types, named, &function.0)?)?;
    }
    Ok(all)
}

/// The functions.
fn functions(
    alloc: Global,
    types: &Names<'_>,
    named: &Names<'_>,
    domain: &Domain,
) -> Result<Items<Signature>, AllocError>
    ensures { IfOk result (λ all. all ≡ map (signature types.now named.now) (all_functions domain.now)) }
{
    let mut all = Items::new(alloc);
    for section in domain.sections.as_slice() {
        all = put_functions(alloc, types, named, declared_functions(section), all)?;
    }
    Ok(all)
}

/// What both declare, by number.
pub fn numbered<'a>(
    alloc: Global,
    domain: &'a Domain,
    problem: &'a Problem,
    types: TypeTable<'a>,
    names: Declarations<'a>,
) -> Result<Tables<'a>, TypeFault>
    requires types { types.list ≡ types_of (all_types domain.now) }
    requires type_names { types.names ≡ type_names (all_types domain.now) }
    requires names { HasDeclared domain.now problem.now names }
    ensures { Answers [] (HasTables domain.now problem.now) result }
{
    let named = touched_symbols(alloc, domain)?;
    let objects = objects(alloc, &types.names, domain, problem)?;
    let predicates = predicates(alloc, &types.names, &named.predicates, domain)?;
    let functions = functions(alloc, &types.names, &named.functions, domain)?;
    Ok(Tables {
        types: types.list,
        type_names: types.names,
        objects,
        object_names: names.objects,
        predicates,
        predicate_names: names.predicates,
        functions,
        function_names: names.functions,
    })
}
