//! The types of a domain: their numbers, what each is under, and that none is under itself.
ghost use Rattle.std.specs.Prelude.{◌≡◌, ◌++◌, ◌∷◌, [], map, fold, filter, List, Option};
ghost use Rattle.std.specs.List.{flat_map};
ghost use Rattle.np_names.specs.Answers.{Answers};
ghost use Rattle.np_names.specs.Declarations.{all_types};
ghost use Rattle.np_declared.specs.TypeRules.{type_cycles, cyclic_words, is_cyclic};
ghost use Rattle.np_names.specs.Faults.{faults_of};
ghost use Rattle.np_declared.specs.LookUps.{HasSupertypes};
ghost use Rattle.np_names.specs.Names.{with_name, texts, number_of, typed, typed_words, object};
ghost use Rattle.np_declared.specs.Ranks.{NeverFall};
ghost use Rattle.np_declared.specs.Symbols.{type_names_of};
ghost use Rattle.np_declared.specs.Types.{type_words, type_names, supertype, type_named, types_of};
ghost use Rattle.np_words.specs.declared.word.Group.{Group};
ghost use Rattle.np_words.specs.declared.word.Word.{Word};

use crate::ranks::{is_under_itself, ranks_of};
use indexmap::IndexMap;
use np_model::{Name, TypeName};
use np_names::{Names, Source, TypeFault, TypeWhy, copy, is_object, type_groups};
use np_syntax::{Domain, Group, Word};
use sqlite_items::Items;
use std::alloc::{AllocError, Global};

/// Adds the types of a group, its supertype included.
fn add_group<'a>(names: &mut Names<'a>, group: &'a Group) -> Result<(), TypeFault>
    ensures { Answers [] (λ _. names.new ≡ fold with_name names.old (texts (type_words group.now))) result }
{
    names.add_words(group.words.as_slice())?;
    if let Some(over) = &group.of {
        names.add(&over.text)?;
    }
    Ok(())
}

/// Adds the types of typed lists.
fn add_groups<'a>(names: &mut Names<'a>, groups: &'a [Group]) -> Result<(), TypeFault>
    ensures { Answers [] (λ _. names.new ≡ fold with_name names.old (texts (flat_map type_words groups.now))) result }
{
    for group in groups {
        add_group(names, group)?;
    }
    Ok(())
}

/// The types of a domain in the order in which they first come, after `object`.
fn names_of_types<'a>(
    alloc: Global,
    top: &'a Name,
    domain: &'a Domain,
) -> Result<Names<'a>, TypeFault>
    requires { top.now ≡ object }
    ensures { Answers [] (λ names. names ≡ type_names (all_types domain.now)) result }
{
    let mut names = Names::new(alloc);
    names.add(top)?;
    for section in domain.sections.as_slice() {
        add_groups(&mut names, type_groups(section))?;
    }
    Ok(names)
}

/// Types by what they are listed under.
type Supertypes<'a> = IndexMap<&'a Name, &'a Name>;

/// Puts the words that are listed under a type.
fn put_words<'a>(
    supertypes: &mut Supertypes<'a>,
    over: &'a Word,
    words: &'a [Word],
) -> Result<(), TypeFault>
    ensures { (before : List (Word × Option Word)) → HasSupertypes before supertypes.old
        → Answers [] (λ _. HasSupertypes (before ++ typed (Some over.now) words.now) supertypes.new) result }
{
    for word in words {
        supertypes.insert(&word.text, &over.text)?;
    }
    Ok(())
}

/// Puts the words of a group that are listed under a type.
fn put_group<'a>(supertypes: &mut Supertypes<'a>, group: &'a Group) -> Result<(), TypeFault>
    ensures { (before : List (Word × Option Word)) → HasSupertypes before supertypes.old
        → Answers [] (λ _. HasSupertypes (before ++ typed group.now.of group.now.words) supertypes.new) result }
{
    match &group.of {
        Some(over) => put_words(supertypes, over, group.words.as_slice()),
        None => Ok(()),
    }
}

/// Puts the words of typed lists that are listed under types.
fn put_groups<'a>(supertypes: &mut Supertypes<'a>, groups: &'a [Group]) -> Result<(), TypeFault>
    ensures { (before : List (Word × Option Word)) → HasSupertypes before supertypes.old
        → Answers [] (λ _. HasSupertypes (before ++ typed_words groups.now) supertypes.new) result }
{
    for group in groups {
        put_group(supertypes, group)?;
    }
    Ok(())
}

/// What the types of a domain are listed under.
fn supertypes<'a>(alloc: Global, domain: &'a Domain) -> Result<Supertypes<'a>, TypeFault>
    ensures { Answers [] (HasSupertypes (typed_words (all_types domain.now))) result }
{
    let mut all = IndexMap::new(alloc);
    for section in domain.sections.as_slice() {
        put_groups(&mut all, type_groups(section))?;
    }
    Ok(all)
}

/// The number of the type that a type is under, which is 0, that of `object`, where it is listed under none.
fn parent(names: &Names<'_>, supertypes: &Supertypes<'_>, name: &Name) -> u32
    ensures { (groups : List Group) → names.now ≡ type_names groups → HasSupertypes (typed_words groups) supertypes.now
        → result ≡ number_of (type_names groups) (supertype groups name.now) }
{
    match supertypes.get(&name) {
        Some(over) => names.number(*over),
        None => 0,
    }
}

/// The types of a domain by number.
fn types_of(alloc: Global, names: &Names<'_>, domain: &Domain) -> Result<Items<TypeName>, TypeFault>
    requires { names.now ≡ type_names (all_types domain.now) }
    ensures { Answers [] (λ types. types ≡ types_of (all_types domain.now)) result }
{
    let supertypes = supertypes(alloc, domain)?;
    let mut types = Items::new(alloc);
    for name in names.as_slice() {
        types.push(TypeName {
            name: copy(alloc, *name)?,
            parent: parent(names, &supertypes, *name),
        })?;
    }
    Ok(types)
}

/// Whether a word is a type under itself, or `object` and listed under a type.
fn is_cyclic(
    types: &[TypeName],
    ranks: &[u32],
    names: &Names<'_>,
    over: &Option<Word>,
    word: &Word,
) -> bool
    requires names { names.now ≡ type_names_of types.now }
    requires ranks { NeverFall types.now ranks.now }
    ensures { result ≡ is_cyclic types.now over.now word.now }
{
    if is_object(word) {
        return over.is_some();
    }
    is_under_itself(types, ranks, names.number(&word.text))
}

/// No type of a group is under itself.
fn acyclic_group(
    types: &[TypeName],
    ranks: &[u32],
    names: &Names<'_>,
    group: &Group,
) -> Result<(), TypeFault>
    requires names { names.now ≡ type_names_of types.now }
    requires ranks { NeverFall types.now ranks.now }
    ensures { Answers (faults_of Source.Domain TypeWhy.TypeCycle (filter (is_cyclic types.now group.now.of) group.now.words)) (λ _. Unit {0}) result }
{
    for word in group.words.as_slice() {
        if is_cyclic(types, ranks, names, &group.of, word) {
            let place = word.place;
            return Err(TypeFault::At(Source::Domain, place, TypeWhy::TypeCycle));
        }
    }
    Ok(())
}

/// No type of typed lists is under itself.
fn acyclic_groups(
    types: &[TypeName],
    ranks: &[u32],
    names: &Names<'_>,
    groups: &[Group],
) -> Result<(), TypeFault>
    requires names { names.now ≡ type_names_of types.now }
    requires ranks { NeverFall types.now ranks.now }
    ensures { Answers (faults_of Source.Domain TypeWhy.TypeCycle (cyclic_words types.now groups.now)) (λ _. Unit {0}) result }
{
    for group in groups {
        acyclic_group(types, ranks, names, group)?;
    }
    Ok(())
}

/// No type is under itself.
fn acyclic(
    alloc: Global,
    types: &[TypeName],
    names: &Names<'_>,
    domain: &Domain,
) -> Result<(), TypeFault>
    requires { names.now ≡ type_names_of types.now }
    ensures { Answers (faults_of Source.Domain TypeWhy.TypeCycle (cyclic_words types.now (all_types domain.now))) (λ _. Unit {0}) result }
{
    let ranks = ranks_of(alloc, types)?;
    for section in domain.sections.as_slice() {
        acyclic_groups(types, ranks.as_slice(), names, type_groups(section))?;
    }
    Ok(())
}

/// The types of a domain with their names.
#[derive(Drop)]
pub struct TypeTable<'a> {
    /// The types by number.
    pub list: Items<TypeName>,
    /// Their names.
    pub names: Names<'a>,
}

/// The types of a domain, none of which is under itself.
pub fn type_table<'a>(
    alloc: Global,
    top: &'a Name,
    domain: &'a Domain,
) -> Result<TypeTable<'a>, TypeFault>
    requires { top.now ≡ object }
    ensures { Answers (type_cycles domain.now) (λ table. (table.list ≡ types_of (all_types domain.now)) × (table.names ≡ type_names (all_types domain.now))) result }
{
    let names = names_of_types(alloc, top, domain)?;
    let list = types_of(alloc, &names, domain)?;
    acyclic(alloc, list.as_slice(), &names, domain)?;
    Ok(TypeTable { list, names })
}
