//! Actions.
ghost use Rattle.std.specs.Prelude.{◌≡◌, ◌++◌, ◌∷◌, [], fold};
ghost use Rattle.std.specs.List.{flat_map};
ghost use Rattle.np_names.specs.Answers.{Answers};
ghost use Rattle.np_declared.specs.LookUps.{TablesAgree};
ghost use Rattle.np_typing.specs.LookUps.{scope_from};
ghost use Rattle.np_names.specs.Names.{with_name, firsts, texts, words_of, given};
ghost use Rattle.np_typing.specs.Resolved.{conditions_of, effects_of};
ghost use Rattle.np_typing.specs.Rules.{section_use_faults};
ghost use Rattle.np_typing.specs.Scopes.{with_parameters};
ghost use Rattle.np_declared.specs.Symbols.{if_given};
ghost use Rattle.np_typing.specs.TaskOf.{section_actions};
ghost use Rattle.np_typing.specs.Uses.{condition_faults, effect_faults};

use crate::scope::Scope;
use crate::uses::conditions::condition;
use crate::uses::effects::effect;
use np_declared::{Names, Source, Tables, TypeFault, copy, numbers_in};
use np_model::{Action, Cond, Eff};
use np_syntax::{Condition, Domain, DomainSection, Effect, Group, Word};
use sqlite_items::Items;
use std::alloc::Global;

/// What an action's condition asks for.
fn needs(
    alloc: Global,
    scope: &Scope<'_>,
    given: &Option<Condition>,
) -> Result<Items<Cond>, TypeFault>
    ensures { Answers (if_given (condition_faults scope.now) given.now) (λ all. all ≡ if_given (conditions_of scope.now) given.now) result }
{
    match given {
        Some(part) => condition(alloc, scope, part, Items::new(alloc)),
        None => Ok(Items::new(alloc)),
    }
}

/// What an action's effect does.
fn outcomes(
    alloc: Global,
    scope: &Scope<'_>,
    given: &Option<Effect>,
) -> Result<Items<Eff>, TypeFault>
    ensures { Answers (if_given (effect_faults scope.now) given.now) (λ all. all ≡ if_given (effects_of scope.now) given.now) result }
{
    match given {
        Some(part) => effect(alloc, scope, part, Items::new(alloc)),
        None => Ok(Items::new(alloc)),
    }
}

/// The names of the parameters of an action.
fn variables<'a>(alloc: Global, groups: &'a [Group]) -> Result<Names<'a>, TypeFault>
    ensures { Answers [] (λ names. names ≡ firsts (texts (words_of groups.now))) result }
{
    let mut names = Names::new(alloc);
    for group in groups {
        names.add_words(group.words.as_slice())?;
    }
    Ok(names)
}

/// What an action asks for, and what it does.
fn body(
    alloc: Global,
    scope: &Scope<'_>,
    given: &Option<Condition>,
    effect: &Option<Effect>,
) -> Result<(Items<Cond>, Items<Eff>), TypeFault>
    ensures { Answers (if_given (condition_faults scope.now) given.now ++ if_given (effect_faults scope.now) effect.now)
        (λ both. (both.0 ≡ if_given (conditions_of scope.now) given.now) × (both.1 ≡ if_given (effects_of scope.now) effect.now)) result }
{
    let needs = needs(alloc, scope, given)?;
    let effects = outcomes(alloc, scope, effect)?;
    Ok((needs, effects))
}

/// An action.
fn action<'a>(
    alloc: Global,
    tables: &'a Tables<'a>,
    word: &Word,
    groups: &'a [Group],
    given: &Option<Condition>,
    effect: &Option<Effect>,
) -> Result<Action, TypeFault>
    requires { TablesAgree tables.now }
    ensures { let scope = with_parameters (scope_from Source.Domain tables.now) groups.now in
        Answers (if_given (condition_faults scope) given.now ++ if_given (effect_faults scope) effect.now)
        (λ action. action ≡ record { name = word.now.text; parameters = scope.variable_types; needs = if_given (conditions_of scope) given.now; effects = if_given (effects_of scope) effect.now }) result }
{
    let parameters = numbers_in(alloc, &tables.type_names, groups)?;
    let variables = variables(alloc, groups)?;
    let scope = Scope::new(Source::Domain, tables, &variables, parameters.as_slice());
    let (needs, effects) = body(alloc, &scope, given, effect)?;
    Ok(Action {
        name: copy(alloc, &word.text)?,
        parameters,
        needs,
        effects,
    })
}

/// The groups of an action's parameters.
fn given_groups(groups: &Option<Items<Group>>) -> &[Group]
    ensures { result.now ≡ given groups.now }
{
    match groups {
        Some(groups) => groups.as_slice(),
        None => &[],
    }
}

/// Puts an action to others.
fn put(one: Action, so_far: Items<Action>) -> Result<Items<Action>, TypeFault>
    ensures { Answers [] (λ all. all ≡ so_far ++ one ∷ []) result }
{
    let mut all = so_far;
    all.push(one)?;
    Ok(all)
}

/// Puts the action that a section is to others.
fn put_section(
    alloc: Global,
    tables: &Tables<'_>,
    section: &DomainSection,
    so_far: Items<Action>,
) -> Result<Items<Action>, TypeFault>
    requires { TablesAgree tables.now }
    ensures { let scope = scope_from Source.Domain tables.now in
        Answers (section_use_faults scope section.now) (λ all. all ≡ so_far ++ section_actions scope section.now) result }
{
    match section {
        DomainSection::Action(_, word, groups, given, effect) => put(
            action(alloc, tables, word, given_groups(groups), given, effect)?,
            so_far,
        ),
        DomainSection::Requirements(_, _)
        | DomainSection::Types(_, _)
        | DomainSection::Constants(_, _)
        | DomainSection::Predicates(_, _)
        | DomainSection::Functions(_, _) => Ok(so_far),
    }
}

/// The actions of a domain.
pub fn actions_of(
    alloc: Global,
    domain: &Domain,
    tables: &Tables<'_>,
) -> Result<Items<Action>, TypeFault>
    requires { TablesAgree tables.now }
    ensures { let scope = scope_from Source.Domain tables.now in
        Answers (flat_map (section_use_faults scope) domain.now.sections) (λ all. all ≡ flat_map (section_actions scope) domain.now.sections) result }
{
    let mut all = Items::new(alloc);
    for section in domain.sections.as_slice() {
        all = put_section(alloc, tables, section, all)?;
    }
    Ok(all)
}
