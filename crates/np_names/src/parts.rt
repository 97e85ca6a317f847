//! What each section declares.
ghost use Rattle.std.specs.Prelude.{◌≡◌, map};
ghost use Rattle.np_names.specs.Declarations.{type_groups, constant_groups, declared_predicates, declared_functions, object_groups};

use np_problem::ProblemSection;
use np_syntax::{Declared, DomainSection, Group};

/// The typed lists of `:types`.
pub fn type_groups(section: &DomainSection) -> &[Group]
    ensures { result.now ≡ type_groups section.now }
{
    match section {
        DomainSection::Types(_, groups) => groups.as_slice(),
        _ => &[],
    }
}

/// The typed lists of `:constants`.
pub fn constant_groups(section: &DomainSection) -> &[Group]
    ensures { result.now ≡ constant_groups section.now }
{
    match section {
        DomainSection::Constants(_, groups) => groups.as_slice(),
        _ => &[],
    }
}

/// The predicates of a section.
pub fn declared_predicates(section: &DomainSection) -> &[Declared]
    ensures { result.now ≡ declared_predicates section.now }
{
    match section {
        DomainSection::Predicates(_, predicates) => predicates.as_slice(),
        _ => &[],
    }
}

/// The functions of a section.
pub fn declared_functions(section: &DomainSection) -> &[(Declared, bool)]
    ensures { map (λ f. f.0) result.now ≡ declared_functions section.now }
{
    match section {
        DomainSection::Functions(_, functions) => functions.as_slice(),
        _ => &[],
    }
}

/// The typed lists of `:objects`.
pub fn object_groups(section: &ProblemSection) -> &[Group]
    ensures { result.now ≡ object_groups section.now }
{
    match section {
        ProblemSection::Objects(_, groups) => groups.as_slice(),
        _ => &[],
    }
}
