//! The symbols that effects name.
ghost use Rattle.std.specs.Prelude.{◌≡◌, [], fold};
ghost use Rattle.std.specs.List.{flat_map};
ghost use Rattle.np_names.specs.Answers.{Answers};
ghost use Rattle.np_names.specs.Names.{with_name, firsts, texts};
ghost use Rattle.np_declared.specs.Symbols.{touched, changed, section_touched, section_changed, all_touched, all_changed};

use np_names::{Names, TypeFault};
use np_syntax::{Domain, DomainSection, Effect};
use std::alloc::Global;

/// The symbols that effects name.
#[derive(Drop)]
pub struct Touched<'a> {
    /// The predicates of atoms that they add or delete.
    pub predicates: Names<'a>,
    /// The functions of terms that they change.
    pub functions: Names<'a>,
}

/// Adds the symbols that an effect names.
#[cycle(touched)]
fn add_effect<'a>(all: &mut Touched<'a>, effect: &'a Effect) -> Result<(), TypeFault>
    ensures { Answers [] (λ _. (all.new.predicates ≡ fold with_name all.old.predicates (texts (touched effect.now)))
        × (all.new.functions ≡ fold with_name all.old.functions (texts (changed effect.now)))) result }
{
    match effect {
        Effect::Nothing => Ok(()),
        Effect::And(parts) => add_effects(all, parts.as_slice()),
        Effect::Add(word, _) => {
            all.predicates.add(&word.text)?;
            Ok(())
        }
        Effect::Delete(word, _) => {
            all.predicates.add(&word.text)?;
            Ok(())
        }
        Effect::Increase(word, ..) => {
            all.functions.add(&word.text)?;
            Ok(())
        }
        Effect::Decrease(word, ..) => {
            all.functions.add(&word.text)?;
            Ok(())
        }
    }
}

/// Adds the symbols that effects name.
#[cycle(touched)]
fn add_effects<'a>(all: &mut Touched<'a>, effects: &'a [Effect]) -> Result<(), TypeFault>
    ensures { Answers [] (λ _. (all.new.predicates ≡ fold with_name all.old.predicates (texts (flat_map touched effects.now)))
        × (all.new.functions ≡ fold with_name all.old.functions (texts (flat_map changed effects.now)))) result }
{
    for effect in effects {
        add_effect(all, effect)?;
    }
    Ok(())
}

/// Adds the symbols that the effect of an action names.
fn add_section<'a>(all: &mut Touched<'a>, section: &'a DomainSection) -> Result<(), TypeFault>
    ensures { Answers [] (λ _. (all.new.predicates ≡ fold with_name all.old.predicates (texts (section_touched section.now)))
        × (all.new.functions ≡ fold with_name all.old.functions (texts (section_changed section.now)))) result }
{
    match section {
        DomainSection::Action(_, _, _, _, Some(effect)) => add_effect(all, effect),
        _ => Ok(()),
    }
}

/// The symbols that the effects of a domain's actions name.
pub fn touched_symbols<'a>(alloc: Global, domain: &'a Domain) -> Result<Touched<'a>, TypeFault>
    ensures { Answers [] (λ all. (all.predicates ≡ firsts (texts (all_touched domain.now))) × (all.functions ≡ firsts (texts (all_changed domain.now)))) result }
{
    let mut all = Touched {
        predicates: Names::new(alloc),
        functions: Names::new(alloc),
    };
    for section in domain.sections.as_slice() {
        add_section(&mut all, section)?;
    }
    Ok(all)
}
