//! What is declared: no name twice.
ghost use Rattle.std.specs.Prelude.{◌≡◌, [], ◌∷◌, ◌++◌, map, List};
ghost use Rattle.std.specs.List.{flat_map};
ghost use Rattle.np_names.specs.Names.{repeats, texts, words_of, is_object, given};
ghost use Rattle.np_names.specs.DeclaredNames.{HasNames, HasDeclared};
ghost use Rattle.np_syntax.specs.declared.domain.DomainSection.{DomainSection};
ghost use Rattle.np_names.specs.Faults.{faults_of};
ghost use Rattle.np_names.specs.Answers.{Answers};
ghost use Rattle.np_names.specs.Declarations.{listed_under, listed_types, names_of, declared_repeats, section_repeats, all_objects, names_twice, problem_names_twice};

use crate::fault::{Source, TypeFault, TypeWhy};
use crate::names::{Names, put, put_groups, put_words};
use crate::parts::object_groups;
use np_problem::Problem;
use np_syntax::{Declared, Domain, DomainSection, Group, Word};
use sqlite_items::Items;
use std::alloc::Global;

/// The names that are declared, each kind in the order of the text.
#[derive(Drop)]
pub struct Declarations<'a> {
    /// The types that are listed.
    pub types: Names<'a>,
    /// The constants, and then the objects of the problem.
    pub objects: Names<'a>,
    /// The predicates.
    pub predicates: Names<'a>,
    /// The functions.
    pub functions: Names<'a>,
    /// The actions.
    pub actions: Names<'a>,
}

/// Whether a word is `object`.
pub fn is_object(word: &Word) -> bool
    ensures { result ≡ is_object word.now }
{
    word.text.as_str() == "object"
}

/// Puts a type that is listed without a supertype; `object` says nothing there.
fn put_untyped_word<'a>(names: &mut Names<'a>, word: &'a Word) -> Result<(), TypeFault>
    ensures { Answers (faults_of Source.Domain TypeWhy.NameTwice (repeats names.old (listed_under None (word.now ∷ [])))) (λ _. names.new ≡ names.old ++ texts (listed_under None (word.now ∷ []))) result }
{
    if is_object(word) {
        Ok(())
    } else {
        put(names, Source::Domain, word)
    }
}

/// Puts the types that are listed without a supertype.
fn put_untyped<'a>(names: &mut Names<'a>, words: &'a [Word]) -> Result<(), TypeFault>
    ensures { Answers (faults_of Source.Domain TypeWhy.NameTwice (repeats names.old (listed_under None words.now))) (λ _. names.new ≡ names.old ++ texts (listed_under None words.now)) result }
{
    for word in words {
        put_untyped_word(names, word)?;
    }
    Ok(())
}

/// Puts the types that words list before a supertype, if there is one.
fn put_listed<'a>(
    names: &mut Names<'a>,
    over: &Option<Word>,
    words: &'a [Word],
) -> Result<(), TypeFault>
    ensures { Answers (faults_of Source.Domain TypeWhy.NameTwice (repeats names.old (listed_under over.now words.now))) (λ _. names.new ≡ names.old ++ texts (listed_under over.now words.now)) result }
{
    match over {
        Some(_) => put_words(names, Source::Domain, words),
        None => put_untyped(names, words),
    }
}

/// Puts the types that typed lists list.
fn put_types<'a>(names: &mut Names<'a>, groups: &'a [Group]) -> Result<(), TypeFault>
    ensures { Answers (faults_of Source.Domain TypeWhy.NameTwice (repeats names.old (listed_types groups.now))) (λ _. names.new ≡ names.old ++ texts (listed_types groups.now)) result }
{
    for group in groups {
        put_listed(names, &group.of, group.words.as_slice())?;
    }
    Ok(())
}

/// No parameter of one declaration or action comes again.
fn parameters(alloc: Global, groups: &[Group]) -> Result<(), TypeFault>
    ensures { Answers (faults_of Source.Domain TypeWhy.NameTwice (repeats [] (words_of groups.now))) (λ _. Unit {0}) result }
{
    let mut names = Names::new(alloc);
    put_groups(&mut names, Source::Domain, groups)
}

/// Puts the name of a predicate or a function.
fn put_declared<'a>(
    alloc: Global,
    names: &mut Names<'a>,
    declared: &'a Declared,
) -> Result<(), TypeFault>
    ensures { Answers (faults_of Source.Domain TypeWhy.NameTwice (repeats names.old (declared.now.name ∷ []) ++ repeats [] (words_of declared.now.parameters))) (λ _. names.new ≡ names.old ++ declared.now.name.text ∷ []) result }
{
    put(names, Source::Domain, &declared.name)?;
    parameters(alloc, declared.parameters.as_slice())
}

/// Puts the names of predicates.
fn put_predicates<'a>(
    alloc: Global,
    names: &mut Names<'a>,
    predicates: &'a [Declared],
) -> Result<(), TypeFault>
    ensures { Answers (faults_of Source.Domain TypeWhy.NameTwice (declared_repeats names.old predicates.now)) (λ _. names.new ≡ names.old ++ texts (names_of predicates.now)) result }
{
    for declared in predicates {
        put_declared(alloc, names, declared)?;
    }
    Ok(())
}

/// Puts the names of functions.
fn put_functions<'a>(
    alloc: Global,
    names: &mut Names<'a>,
    functions: &'a [(Declared, bool)],
) -> Result<(), TypeFault>
    ensures { Answers (faults_of Source.Domain TypeWhy.NameTwice (declared_repeats names.old (map (λ f. f.0) functions.now))) (λ _. names.new ≡ names.old ++ texts (names_of (map (λ f. f.0) functions.now))) result }
{
    for function in functions {
        put_declared(alloc, names, &function.0)?;
    }
    Ok(())
}

/// Puts the name of an action.
fn put_action<'a>(
    alloc: Global,
    names: &mut Names<'a>,
    word: &'a Word,
    groups: &Option<Items<Group>>,
) -> Result<(), TypeFault>
    ensures { Answers (faults_of Source.Domain TypeWhy.NameTwice (repeats names.old (word.now ∷ []) ++ repeats [] (words_of (given groups.now)))) (λ _. names.new ≡ names.old ++ word.now.text ∷ []) result }
{
    put(names, Source::Domain, word)?;
    match groups {
        Some(groups) => parameters(alloc, groups.as_slice()),
        None => Ok(()),
    }
}

/// Puts what a section declares.
fn put_section<'a>(
    alloc: Global,
    all: &mut Declarations<'a>,
    section: &'a DomainSection,
) -> Result<(), TypeFault>
    ensures { (before : List DomainSection) → HasNames before all.old
        → Answers (faults_of Source.Domain TypeWhy.NameTwice (section_repeats before section.now)) (λ _. HasNames (before ++ section.now ∷ []) all.new) result }
{
    match section {
        DomainSection::Requirements(..) => Ok(()),
        DomainSection::Types(_, groups) => put_types(&mut all.types, groups.as_slice()),
        DomainSection::Constants(_, groups) => {
            put_groups(&mut all.objects, Source::Domain, groups.as_slice())
        }
        DomainSection::Predicates(_, predicates) => {
            put_predicates(alloc, &mut all.predicates, predicates.as_slice())
        }
        DomainSection::Functions(_, functions) => {
            put_functions(alloc, &mut all.functions, functions.as_slice())
        }
        DomainSection::Action(_, word, groups, ..) => {
            put_action(alloc, &mut all.actions, word, groups)
        }
    }
}

/// What the domain declares.
fn of_domain<'a>(alloc: Global, domain: &'a Domain) -> Result<Declarations<'a>, TypeFault>
    ensures { Answers (names_twice domain.now) (HasNames domain.now.sections) result }
{
    let mut all = Declarations {
        types: Names::new(alloc),
        objects: Names::new(alloc),
        predicates: Names::new(alloc),
        functions: Names::new(alloc),
        actions: Names::new(alloc),
    };
    for section in domain.sections.as_slice() {
        match put_section(alloc, &mut all, section) {
            Ok(()) => {}
            Err(fault) => return Err(fault),
        }
    }
    Ok(all)
}

/// Puts the objects of the problem after the constants.
fn put_objects<'a>(objects: &mut Names<'a>, problem: &'a Problem) -> Result<(), TypeFault>
    ensures { Answers (faults_of Source.Problem TypeWhy.NameTwice (repeats objects.old (words_of (all_objects problem.now)))) (λ _. objects.new ≡ objects.old ++ texts (words_of (all_objects problem.now))) result }
{
    for section in problem.sections.as_slice() {
        put_groups(objects, Source::Problem, object_groups(section))?;
    }
    Ok(())
}

/// What the domain declares, with the objects of the problem after the constants.
fn with_objects<'a>(
    all: Declarations<'a>,
    problem: &'a Problem,
) -> Result<Declarations<'a>, TypeFault>
    ensures { Answers (faults_of Source.Problem TypeWhy.NameTwice (repeats all.entry.objects (words_of (all_objects problem.now))))
        (λ new. (new.objects ≡ all.entry.objects ++ texts (words_of (all_objects problem.now))) × (new.predicates ≡ all.entry.predicates)
        × (new.functions ≡ all.entry.functions) × (new.actions ≡ all.entry.actions) × (new.types ≡ all.entry.types)) result }
{
    let mut both = all;
    put_objects(&mut both.objects, problem)?;
    Ok(both)
}

/// What both declare.
pub fn declared_names<'a>(
    alloc: Global,
    domain: &'a Domain,
    problem: &'a Problem,
) -> Result<Declarations<'a>, TypeFault>
    ensures { Answers (names_twice domain.now ++ problem_names_twice domain.now problem.now) (HasDeclared domain.now problem.now) result }
{
    let all = of_domain(alloc, domain)?;
    with_objects(all, problem)
}
