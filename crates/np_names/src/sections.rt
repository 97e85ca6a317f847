//! Which sections are there: none but `:action` twice, a `:domain` of this name and a `:goal`.
ghost use Rattle.std.specs.Prelude.{◌≡◌, [], filter, not, bytes_eq, map};
ghost use Rattle.std.specs.List.{list_any, flat_map};
ghost use Rattle.np_names.specs.Names.{each_after};
ghost use Rattle.np_names.specs.Answers.{Answers};
ghost use Rattle.np_names.specs.Sections.{section_faults};
ghost use Rattle.np_names.specs.Sections.{same_section, place_of, same_problem_section, problem_place_of, sections_twice, problem_sections_twice, sections_missing, other_domains, is_domain_name, is_goal};

use crate::fault::{Source, TypeFault, TypeWhy};
use np_lex::Place;
use np_problem::{Problem, ProblemSection};
use np_syntax::{Domain, DomainSection};

/// Whether two sections of a domain are of one kind, of which there may be one alone.
fn same_section(a: &DomainSection, b: &DomainSection) -> bool
    ensures { result ≡ same_section a.now b.now }
{
    match (a, b) {
        (DomainSection::Requirements(..), DomainSection::Requirements(..)) => true,
        (DomainSection::Types(..), DomainSection::Types(..)) => true,
        (DomainSection::Constants(..), DomainSection::Constants(..)) => true,
        (DomainSection::Predicates(..), DomainSection::Predicates(..)) => true,
        (DomainSection::Functions(..), DomainSection::Functions(..)) => true,
        _ => false,
    }
}

/// The place of a section's keyword.
fn place_of(section: &DomainSection) -> Place
    ensures { result ≡ place_of section.now }
{
    match section {
        DomainSection::Requirements(place, _) => *place,
        DomainSection::Types(place, _) => *place,
        DomainSection::Constants(place, _) => *place,
        DomainSection::Predicates(place, _) => *place,
        DomainSection::Functions(place, _) => *place,
        DomainSection::Action(place, ..) => *place,
    }
}

/// Whether a section comes again after these. An action never does, so that not all sections are gone through for each.
fn is_again(section: &DomainSection, before: &[DomainSection]) -> bool
    ensures { result ≡ list_any (same_section section.now) before.now }
{
    if let DomainSection::Action(..) = section {
        return false;
    }
    for other in before {
        if same_section(section, other) {
            return true;
        }
    }
    false
}

/// No section of a domain but `:action` comes again.
fn once(domain: &Domain) -> Result<(), TypeFault>
    ensures { Answers (sections_twice domain.now) (λ _. Unit {0}) result }
{
    let sections = domain.sections.as_slice();
    for (number, section) in sections.iter().enumerate() {
        if is_again(section, &sections[..number]) {
            let place = place_of(section);
            return Err(TypeFault::At(Source::Domain, place, TypeWhy::SectionTwice));
        }
    }
    Ok(())
}

/// Whether two sections of a problem are of one kind.
fn same_problem_section(a: &ProblemSection, b: &ProblemSection) -> bool
    ensures { result ≡ same_problem_section a.now b.now }
{
    match (a, b) {
        (ProblemSection::Domain(..), ProblemSection::Domain(..)) => true,
        (ProblemSection::Requirements(..), ProblemSection::Requirements(..)) => true,
        (ProblemSection::Objects(..), ProblemSection::Objects(..)) => true,
        (ProblemSection::Init(..), ProblemSection::Init(..)) => true,
        (ProblemSection::Goal(..), ProblemSection::Goal(..)) => true,
        (ProblemSection::Metric(..), ProblemSection::Metric(..)) => true,
        _ => false,
    }
}

/// The place of a section's keyword.
fn problem_place_of(section: &ProblemSection) -> Place
    ensures { result ≡ problem_place_of section.now }
{
    match section {
        ProblemSection::Domain(place, _) => *place,
        ProblemSection::Requirements(place, _) => *place,
        ProblemSection::Objects(place, _) => *place,
        ProblemSection::Init(place, _) => *place,
        ProblemSection::Goal(place, _) => *place,
        ProblemSection::Metric(place, _) => *place,
    }
}

/// Whether a section of a problem comes again after these.
fn is_problem_again(section: &ProblemSection, before: &[ProblemSection]) -> bool
    ensures { result ≡ list_any (same_problem_section section.now) before.now }
{
    for other in before {
        if same_problem_section(section, other) {
            return true;
        }
    }
    false
}

/// No section of a problem comes again.
fn once_in_problem(problem: &Problem) -> Result<(), TypeFault>
    ensures { Answers (problem_sections_twice problem.now) (λ _. Unit {0}) result }
{
    let sections = problem.sections.as_slice();
    for (number, section) in sections.iter().enumerate() {
        if is_problem_again(section, &sections[..number]) {
            let place = problem_place_of(section);
            return Err(TypeFault::At(Source::Problem, place, TypeWhy::SectionTwice));
        }
    }
    Ok(())
}

/// Whether a problem has a section `:domain`.
fn has_domain(sections: &[ProblemSection]) -> bool
    ensures { result ≡ list_any is_domain_name sections.now }
{
    for section in sections {
        if let ProblemSection::Domain(..) = section {
            return true;
        }
    }
    false
}

/// Whether a problem has a goal.
fn has_goal(sections: &[ProblemSection]) -> bool
    ensures { result ≡ list_any is_goal sections.now }
{
    for section in sections {
        if let ProblemSection::Goal(..) = section {
            return true;
        }
    }
    false
}

/// A problem names its domain and has a goal.
fn none_missing(problem: &Problem) -> Result<(), TypeFault>
    ensures { Answers (sections_missing problem.now) (λ _. Unit {0}) result }
{
    let sections = problem.sections.as_slice();
    if has_domain(sections) && has_goal(sections) {
        return Ok(());
    }
    let place = problem.place;
    Err(TypeFault::At(Source::Problem, place, TypeWhy::SectionMissing))
}

/// A problem names this domain.
fn of_domain(domain: &Domain, problem: &Problem) -> Result<(), TypeFault>
    ensures { Answers (other_domains domain.now problem.now) (λ _. Unit {0}) result }
{
    for section in problem.sections.as_slice() {
        if let ProblemSection::Domain(_, name) = section {
            if name.text != domain.name.text {
                let place = name.place;
                return Err(TypeFault::At(Source::Problem, place, TypeWhy::OtherDomain));
            }
        }
    }
    Ok(())
}

/// The sections are as they have to be.
#[tactic(auto, using(crate::proofs::Answering::first_front, crate::proofs::Answering::first_after, crate::proofs::Answering::none_more))]
pub fn well_sectioned(domain: &Domain, problem: &Problem) -> Result<(), TypeFault>
    ensures { Answers (section_faults domain.now problem.now) (λ _. Unit {0}) result }
{
    once(domain)?;
    once_in_problem(problem)?;
    none_missing(problem)?;
    of_domain(domain, problem)
}
