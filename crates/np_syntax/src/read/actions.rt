//! Actions.

ghost use Rattle.std.specs.Prelude.{◌≡◌, IsTrue, false, codes};
ghost use Rattle.np_lex.specs.Lexers.{items_left, Takes, Leaves};
ghost use Rattle.np_lex.specs.declared.token.Kind.TheVariants.{Keyword};
ghost use Rattle.np_read.specs.ItemAnswers.{Gives};
ghost use Rattle.np_read.specs.ItemReaders as readers;
ghost use Rattle.np_read.specs.Takes.{lexeme};
ghost use Rattle.np_syntax.specs.ActionForm as form;
ghost use Rattle.np_syntax.specs.SectionForm as sections;
ghost use Rattle.np_words.specs.TailedRows.{tail_or_none};
ghost use Rattle.np_words.specs.Text.{keyword_lexeme};
ghost use Rattle.np_conditions.specs.declared.condition.Condition.{Condition};
ghost use Rattle.np_conditions.specs.declared.effect.Effect.{Effect};
ghost use Rattle.np_words.specs.declared.word.Group.{Group};
ghost use Rattle.std.specs.Prelude.{List, Some};

use super::MOST_LEVELS;
use super::lists::typed_list;
use crate::domain::DomainSection;
use np_conditions::read::{condition, effect};
use np_conditions::{Condition, Effect};
use np_lex::{Kind, Lexer};
use np_read::{ReadFault, keyword, left, right, take_token};
use np_words::read::name;
use np_words::{Group, ListKind};
use sqlite_items::Items;
use std::alloc::Global;

/// So many brackets may be opened one inside the other within that of a condition or an effect of an action, which is the
/// third level.
pub const DEPTH: u32 = MOST_LEVELS - 3;

/// What an action has after its name.
type Parts = (Option<Items<Group>>, Option<Condition>, Option<Effect>);

/// Whether this keyword comes next, which is of small letters and read in any case. If so it was read, else the lexer is as
/// before.
fn take_keyword(lexer: &mut Lexer<'_>, text: &[u8]) -> bool
    ensures taken { IsTrue result → Takes lexer.old lexer.new (lexeme Keyword text.now) }
    ensures other { result ≡ false → Leaves lexer.old lexer.new (λ found. found ≡ lexeme Keyword text.now) }
{
    take_token(lexer, Kind::Keyword, text).is_some()
}

/// Reads `(?variable .. - name ..)`.
#[tactic(auto, unfolding(crate::specs::SectionForm::parameters))]
fn parameters(alloc: Global, lexer: &mut Lexer<'_>) -> Result<Items<Group>, ReadFault>
    ensures { Gives (λ gs. gs) (items_left lexer.new) result (sections.parameters (items_left lexer.old)) }
{
    left(lexer)?;
    typed_list(alloc, lexer, ListKind::Variables)
}

/// Reads parameters after their keyword.
fn some_parameters(alloc: Global, lexer: &mut Lexer<'_>) -> Result<Option<Items<Group>>, ReadFault>
    ensures { Gives (λ gs. gs) (items_left lexer.new) result (readers.made (λ (gs : List Group). Some gs) sections.parameters (items_left lexer.old)) }
{
    let groups = parameters(alloc, lexer)?;
    Ok(Some(groups))
}

/// Reads parameters, where their keyword comes next.
#[tactic(auto, using(crate::proofs::ActionLexing::parameters_come, crate::proofs::ActionLexing::no_parameters))]
fn given_parameters(alloc: Global, lexer: &mut Lexer<'_>) -> Result<Option<Items<Group>>, ReadFault>
    ensures { Gives (λ gs. gs) (items_left lexer.new) result (tail_or_none (keyword_lexeme (codes "parameters")) sections.parameters (items_left lexer.old)) }
{
    if take_keyword(lexer, b":parameters") {
        return some_parameters(alloc, lexer);
    }
    Ok(None)
}

/// Reads a condition after its keyword.
#[tactic(auto, unfolding(crate::specs::ActionForm::action_condition, crate::specs::ActionForm::depth))]
fn some_condition(alloc: Global, lexer: &mut Lexer<'_>) -> Result<Option<Condition>, ReadFault>
    ensures { Gives (λ c. c) (items_left lexer.new) result (readers.made (λ (c : Condition). Some c) form.action_condition (items_left lexer.old)) }
{
    let condition = condition(alloc, DEPTH, lexer)?;
    Ok(Some(condition))
}

/// Reads a condition, where its keyword comes next.
#[tactic(auto, using(crate::proofs::ActionLexing::condition_comes, crate::proofs::ActionLexing::no_condition))]
fn given_condition(alloc: Global, lexer: &mut Lexer<'_>) -> Result<Option<Condition>, ReadFault>
    ensures { Gives (λ c. c) (items_left lexer.new) result (tail_or_none (keyword_lexeme (codes "precondition")) form.action_condition (items_left lexer.old)) }
{
    if take_keyword(lexer, b":precondition") {
        return some_condition(alloc, lexer);
    }
    Ok(None)
}

/// Reads an effect after its keyword.
#[tactic(auto, unfolding(crate::specs::ActionForm::action_effect, crate::specs::ActionForm::depth))]
fn some_effect(alloc: Global, lexer: &mut Lexer<'_>) -> Result<Option<Effect>, ReadFault>
    ensures { Gives (λ e. e) (items_left lexer.new) result (readers.made (λ (e : Effect). Some e) form.action_effect (items_left lexer.old)) }
{
    let effect = effect(alloc, DEPTH, lexer)?;
    Ok(Some(effect))
}

/// Reads an effect, where its keyword comes next.
#[tactic(auto, using(crate::proofs::ActionLexing::effect_comes, crate::proofs::ActionLexing::no_effect))]
fn given_effect(alloc: Global, lexer: &mut Lexer<'_>) -> Result<Option<Effect>, ReadFault>
    ensures { Gives (λ e. e) (items_left lexer.new) result (tail_or_none (keyword_lexeme (codes "effect")) form.action_effect (items_left lexer.old)) }
{
    if take_keyword(lexer, b":effect") {
        return some_effect(alloc, lexer);
    }
    Ok(None)
}

/// Reads the effect of an action, where it is given, and the closing bracket.
#[tactic(auto, unfolding(crate::specs::ActionForm::last_part))]
fn last_part(alloc: Global, lexer: &mut Lexer<'_>) -> Result<Option<Effect>, ReadFault>
    ensures { Gives (λ e. (e, tt)) (items_left lexer.new) result (form.last_part (items_left lexer.old)) }
{
    let effect = given_effect(alloc, lexer)?;
    right(lexer)?;
    Ok(effect)
}

/// Reads the condition and the effect of an action, each where it is given, and the closing bracket.
#[tactic(auto, unfolding(crate::specs::ActionForm::later_parts))]
fn later_parts(
    alloc: Global,
    lexer: &mut Lexer<'_>,
) -> Result<(Option<Condition>, Option<Effect>), ReadFault>
    ensures { Gives (λ x. (x.0, (x.1, tt))) (items_left lexer.new) result (form.later_parts (items_left lexer.old)) }
{
    let condition = given_condition(alloc, lexer)?;
    let effect = last_part(alloc, lexer)?;
    Ok((condition, effect))
}

/// Reads what an action has after its name, and the closing bracket.
#[tactic(auto, unfolding(crate::specs::ActionForm::parts))]
fn parts(alloc: Global, lexer: &mut Lexer<'_>) -> Result<Parts, ReadFault>
    ensures { Gives (λ x. (x.0, (x.1, (x.2, tt)))) (items_left lexer.new) result (form.parts (items_left lexer.old)) }
{
    let parameters = given_parameters(alloc, lexer)?;
    let (condition, effect) = later_parts(alloc, lexer)?;
    Ok((parameters, condition, effect))
}

/// Reads an action by its parts, after its opening bracket.
#[tactic(auto, unfolding(crate::specs::ActionForm::action_by_parts))]
fn action_by_parts(alloc: Global, lexer: &mut Lexer<'_>) -> Result<DomainSection, ReadFault>
    ensures { Gives (λ v. v) (items_left lexer.new) result (form.action_by_parts (items_left lexer.old)) }
{
    let place = keyword(lexer, b":action")?;
    let name = name(alloc, lexer)?;
    let (parameters, condition, effect) = parts(alloc, lexer)?;
    Ok(DomainSection::Action(place, name, parameters, condition, effect))
}

/// Reads an action after its opening bracket.
#[tactic(auto, using(crate::proofs::ActionLexing::gives_action))]
pub fn action(alloc: Global, lexer: &mut Lexer<'_>) -> Result<DomainSection, ReadFault>
    ensures { Gives (λ v. v) (items_left lexer.new) result (sections.from_action form.action_condition form.action_effect (items_left lexer.old)) }
{
    action_by_parts(alloc, lexer)
}
