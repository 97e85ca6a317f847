//! Types that aren't declared.
ghost use Rattle.std.specs.Prelude.{◌≡◌, ◌++◌, not, filter, map};
ghost use Rattle.std.specs.List.{flat_map};
ghost use Rattle.np_names.specs.Names.{given, given_word, is_among};
ghost use Rattle.np_declared.specs.Types.{type_names};
ghost use Rattle.np_names.specs.Faults.{faults_of};
ghost use Rattle.np_names.specs.Answers.{Answers};
ghost use Rattle.np_names.specs.Declarations.{all_types, all_objects};
ghost use Rattle.np_declared.specs.TypeRules.{unknown_in, section_unknown, unknown_types, problem_unknown_types};

use np_names::{Names, Source, TypeFault, TypeWhy, object_groups};
use np_problem::Problem;
use np_syntax::{Declared, Domain, DomainSection, Group, Word};
use sqlite_items::Items;

/// A type that is given is declared.
fn known_type(types: &Names<'_>, source: Source, of: &Option<Word>) -> Result<(), TypeFault>
    ensures { Answers (faults_of source TypeWhy.UnknownType (filter (λ w. not (is_among w.text types.now)) (given_word of.now))) (λ _. Unit {0}) result }
{
    match of {
        Some(word) if !types.has(&word.text) => {
            Err(TypeFault::At(source, word.place, TypeWhy::UnknownType))
        }
        _ => Ok(()),
    }
}

/// The types in a typed list are declared.
fn known_in(types: &Names<'_>, source: Source, groups: &[Group]) -> Result<(), TypeFault>
    ensures { Answers (faults_of source TypeWhy.UnknownType (unknown_in types.now groups.now)) (λ _. Unit {0}) result }
{
    for group in groups {
        known_type(types, source, &group.of)?;
    }
    Ok(())
}

/// The types of the parameters of predicates are declared.
fn known_in_predicates(types: &Names<'_>, predicates: &[Declared]) -> Result<(), TypeFault>
    ensures { Answers (faults_of Source.Domain TypeWhy.UnknownType (flat_map (λ x. unknown_in types.now x.parameters) predicates.now)) (λ _. Unit {0}) result }
{
    for declared in predicates {
        known_in(types, Source::Domain, declared.parameters.as_slice())?;
    }
    Ok(())
}

/// The types of the parameters of functions are declared.
fn known_in_functions(types: &Names<'_>, functions: &[(Declared, bool)]) -> Result<(), TypeFault>
    ensures { Answers (faults_of Source.Domain TypeWhy.UnknownType (flat_map (λ f. unknown_in types.now f.0.parameters) functions.now)) (λ _. Unit {0}) result }
{
    for function in functions {
        known_in(types, Source::Domain, function.0.parameters.as_slice())?;
    }
    Ok(())
}

/// The types of the parameters of an action are declared.
fn known_in_action(types: &Names<'_>, groups: &Option<Items<Group>>) -> Result<(), TypeFault>
    ensures { Answers (faults_of Source.Domain TypeWhy.UnknownType (unknown_in types.now (given groups.now))) (λ _. Unit {0}) result }
{
    match groups {
        Some(groups) => known_in(types, Source::Domain, groups.as_slice()),
        None => Ok(()),
    }
}

/// The types in a section are declared.
fn known_in_section(types: &Names<'_>, section: &DomainSection) -> Result<(), TypeFault>
    ensures { Answers (faults_of Source.Domain TypeWhy.UnknownType (section_unknown types.now section.now)) (λ _. Unit {0}) result }
{
    match section {
        DomainSection::Requirements(..) => Ok(()),
        DomainSection::Types(..) => Ok(()),
        DomainSection::Constants(_, groups) => known_in(types, Source::Domain, groups.as_slice()),
        DomainSection::Predicates(_, predicates) => {
            known_in_predicates(types, predicates.as_slice())
        }
        DomainSection::Functions(_, functions) => known_in_functions(types, functions.as_slice()),
        DomainSection::Action(_, _, groups, _, _) => known_in_action(types, groups),
    }
}

/// The types in a domain are declared.
fn known_in_domain(types: &Names<'_>, domain: &Domain) -> Result<(), TypeFault>
    ensures { Answers (faults_of Source.Domain TypeWhy.UnknownType (flat_map (section_unknown types.now) domain.now.sections)) (λ _. Unit {0}) result }
{
    for section in domain.sections.as_slice() {
        known_in_section(types, section)?;
    }
    Ok(())
}

/// The types in a problem are declared.
fn known_in_problem(types: &Names<'_>, problem: &Problem) -> Result<(), TypeFault>
    ensures { Answers (faults_of Source.Problem TypeWhy.UnknownType (unknown_in types.now (all_objects problem.now))) (λ _. Unit {0}) result }
{
    for section in problem.sections.as_slice() {
        known_in(types, Source::Problem, object_groups(section))?;
    }
    Ok(())
}

/// The types in both are declared.
pub fn known(types: &Names<'_>, domain: &Domain, problem: &Problem) -> Result<(), TypeFault>
    requires { types.now ≡ type_names (all_types domain.now) }
    ensures { Answers (unknown_types domain.now ++ problem_unknown_types domain.now problem.now) (λ _. Unit {0}) result }
{
    known_in_domain(types, domain)?;
    known_in_problem(types, problem)
}
