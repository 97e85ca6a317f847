//! Sections, and a domain.

ghost use Rattle.std.specs.Prelude.{◌≡◌, [], List, Bool, Ok, IfOk, IfErr};
ghost use Rattle.np_lex.specs.Lexers.{items_left};
ghost use Rattle.np_lex.specs.Tokens as tokens;
ghost use Rattle.np_read.specs.ItemAnswers.{Gives, Stops};
ghost use Rattle.np_read.specs.ItemReaders as readers;
ghost use Rattle.np_syntax.specs.ActionForm as form;
ghost use Rattle.np_syntax.specs.DomainForm as declarations;
ghost use Rattle.np_words.specs.ReadingForm as words;
ghost use Rattle.np_syntax.specs.SectionForm as sections;
ghost use Rattle.np_syntax.specs.declared.domain.Declared.{Declared};
ghost use Rattle.np_syntax.specs.declared.domain.DomainSection.TheVariants as section_of;
ghost use Rattle.np_words.specs.declared.word.Group.{Group};
ghost use Rattle.np_words.specs.declared.word.ListKind.TheVariants.{Names};
ghost use Rattle.np_words.specs.declared.word.Word.{Word};

use super::actions::action;
use super::declarations::{functions, predicates, requirements};
use super::lists::typed_list;
use crate::domain::{Domain, DomainSection};
use np_lex::{Kind, Lexer, Place};
use np_read::{ReadFault, ends, left, open, right, take_token};
use np_words::read::name;
use np_words::{ListKind, Word};
use sqlite_items::Items;
use std::alloc::Global;

/// Reads functions after their keyword.
fn functions_at(
    alloc: Global,
    lexer: &mut Lexer<'_>,
    place: Place,
) -> Result<DomainSection, ReadFault>
    ensures { Gives (λ v. v) (items_left lexer.new) result (readers.made (λ (fs : List (Declared × Bool)). section_of.Functions place fs) declarations.functions (items_left lexer.old)) }
{
    let functions = functions(alloc, lexer)?;
    Ok(DomainSection::Functions(place, functions))
}

/// Reads functions or an action, after the opening bracket.
#[tactic(auto, using(crate::proofs::SectionLexing::functions_taken, crate::proofs::SectionLexing::functions_left))]
fn from_functions(alloc: Global, lexer: &mut Lexer<'_>) -> Result<DomainSection, ReadFault>
    ensures { Gives (λ v. v) (items_left lexer.new) result (sections.from_functions form.action_condition form.action_effect (items_left lexer.old)) }
{
    if let Some(place) = take_token(lexer, Kind::Keyword, b":functions") {
        return functions_at(alloc, lexer, place);
    }
    action(alloc, lexer)
}

/// Reads predicates after their keyword.
fn predicates_at(
    alloc: Global,
    lexer: &mut Lexer<'_>,
    place: Place,
) -> Result<DomainSection, ReadFault>
    ensures { Gives (λ v. v) (items_left lexer.new) result (readers.made (λ (ds : List Declared). section_of.Predicates place ds) (readers.row declarations.declared) (items_left lexer.old)) }
{
    let predicates = predicates(alloc, lexer)?;
    Ok(DomainSection::Predicates(place, predicates))
}

/// Reads predicates, functions or an action, after the opening bracket.
#[tactic(auto, using(crate::proofs::SectionLexing::predicates_taken, crate::proofs::SectionLexing::predicates_left))]
fn from_predicates(alloc: Global, lexer: &mut Lexer<'_>) -> Result<DomainSection, ReadFault>
    ensures { Gives (λ v. v) (items_left lexer.new) result (sections.from_predicates form.action_condition form.action_effect (items_left lexer.old)) }
{
    if let Some(place) = take_token(lexer, Kind::Keyword, b":predicates") {
        return predicates_at(alloc, lexer, place);
    }
    from_functions(alloc, lexer)
}

/// Reads constants after their keyword.
fn constants_at(
    alloc: Global,
    lexer: &mut Lexer<'_>,
    place: Place,
) -> Result<DomainSection, ReadFault>
    ensures { Gives (λ v. v) (items_left lexer.new) result (readers.made (λ (gs : List Group). section_of.Constants place gs) (declarations.typed_list Names) (items_left lexer.old)) }
{
    let groups = typed_list(alloc, lexer, ListKind::Names)?;
    Ok(DomainSection::Constants(place, groups))
}

/// Reads constants or a section that is tried after them, after the opening bracket.
#[tactic(auto, using(crate::proofs::SectionLexing::constants_taken, crate::proofs::SectionLexing::constants_left))]
fn from_constants(alloc: Global, lexer: &mut Lexer<'_>) -> Result<DomainSection, ReadFault>
    ensures { Gives (λ v. v) (items_left lexer.new) result (sections.from_constants form.action_condition form.action_effect (items_left lexer.old)) }
{
    if let Some(place) = take_token(lexer, Kind::Keyword, b":constants") {
        return constants_at(alloc, lexer, place);
    }
    from_predicates(alloc, lexer)
}

/// Reads types after their keyword.
fn types_at(alloc: Global, lexer: &mut Lexer<'_>, place: Place) -> Result<DomainSection, ReadFault>
    ensures { Gives (λ v. v) (items_left lexer.new) result (readers.made (λ (gs : List Group). section_of.Types place gs) (declarations.typed_list Names) (items_left lexer.old)) }
{
    let groups = typed_list(alloc, lexer, ListKind::Names)?;
    Ok(DomainSection::Types(place, groups))
}

/// Reads types or a section that is tried after them, after the opening bracket.
#[tactic(auto, using(crate::proofs::SectionLexing::types_taken, crate::proofs::SectionLexing::types_left))]
fn from_types(alloc: Global, lexer: &mut Lexer<'_>) -> Result<DomainSection, ReadFault>
    ensures { Gives (λ v. v) (items_left lexer.new) result (sections.from_types form.action_condition form.action_effect (items_left lexer.old)) }
{
    if let Some(place) = take_token(lexer, Kind::Keyword, b":types") {
        return types_at(alloc, lexer, place);
    }
    from_constants(alloc, lexer)
}

/// Reads requirements after their keyword.
fn requirements_at(
    alloc: Global,
    lexer: &mut Lexer<'_>,
    place: Place,
) -> Result<DomainSection, ReadFault>
    ensures { Gives (λ v. v) (items_left lexer.new) result (readers.made (λ (ws : List Word). section_of.Requirements place ws) (readers.row words.requirement) (items_left lexer.old)) }
{
    let requirements = requirements(alloc, lexer)?;
    Ok(DomainSection::Requirements(place, requirements))
}

/// Reads a section after its opening bracket.
#[tactic(auto, using(crate::proofs::SectionLexing::requirements_taken, crate::proofs::SectionLexing::requirements_left))]
fn from_requirements(alloc: Global, lexer: &mut Lexer<'_>) -> Result<DomainSection, ReadFault>
    ensures { Gives (λ v. v) (items_left lexer.new) result (sections.from_requirements form.action_condition form.action_effect (items_left lexer.old)) }
{
    if let Some(place) = take_token(lexer, Kind::Keyword, b":requirements") {
        return requirements_at(alloc, lexer, place);
    }
    from_types(alloc, lexer)
}

/// Reads a section.
#[tactic(auto, unfolding(crate::specs::SectionForm::section))]
fn section(alloc: Global, lexer: &mut Lexer<'_>) -> Result<DomainSection, ReadFault>
    ensures { Gives (λ v. v) (items_left lexer.new) result (form.domain_section (items_left lexer.old)) }
{
    left(lexer)?;
    from_requirements(alloc, lexer)
}

/// Reads sections up to a closing bracket.
fn sections_to_right(
    alloc: Global,
    lexer: &mut Lexer<'_>,
) -> Result<Items<DomainSection>, ReadFault>
    ensures { Gives (λ x. x) (items_left lexer.new) result (readers.row form.domain_section (items_left lexer.old)) }
{
    let mut found = Items::new(alloc);
    'row: while !lexer.take_right() {
        let value = section(alloc, lexer)?;
        found.push(value)?;
    }
    Ok(found)
}

/// Reads a name and a closing bracket.
fn closed_name(alloc: Global, lexer: &mut Lexer<'_>) -> Result<Word, ReadFault>
    ensures { Gives (λ w. w) (items_left lexer.new) result (readers.before words.name (readers.expect tokens.right) (items_left lexer.old)) }
{
    let word = name(alloc, lexer)?;
    right(lexer)?;
    Ok(word)
}

/// Reads `(define (domain name) section ..)`.
#[tactic(auto, unfolding(crate::specs::SectionForm::domain_with))]
fn domain(alloc: Global, lexer: &mut Lexer<'_>) -> Result<Domain, ReadFault>
    ensures { Gives (λ d. d) (items_left lexer.new) result (form.domain (items_left lexer.old)) }
{
    open(lexer, b"define")?;
    open(lexer, b"domain")?;
    let name = closed_name(alloc, lexer)?;
    let sections = sections_to_right(alloc, lexer)?;
    Ok(Domain { name, sections })
}

/// Reads a domain that is the whole text.
#[tactic(auto, using(crate::proofs::SectionLexing::whole_stops, crate::proofs::SectionLexing::whole_more, crate::proofs::SectionLexing::whole_ends))]
pub fn whole_domain(alloc: Global, lexer: &mut Lexer<'_>) -> Result<Domain, ReadFault>
    ensures read { IfOk result (λ d. readers.whole form.domain (items_left lexer.old) ≡ Ok (d, [])) }
    ensures stops { IfErr result (λ fault. Stops (items_left lexer.new) fault (readers.whole form.domain (items_left lexer.old))) }
{
    let domain = domain(alloc, lexer)?;
    if !ends(lexer) {
        return Err(ReadFault::Next);
    }
    Ok(domain)
}
