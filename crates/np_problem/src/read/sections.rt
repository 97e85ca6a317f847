//! Sections, and a problem.

ghost use Rattle.std.specs.Prelude.{◌≡◌, [], List, Ok, IfOk, IfErr};
ghost use Rattle.np_lex.specs.Lexers.{items_left};
ghost use Rattle.np_problem.specs.FactForm as facts;
ghost use Rattle.np_problem.specs.ProblemForm as form;
ghost use Rattle.np_problem.specs.declared.problem.Fact.{Fact};
ghost use Rattle.np_problem.specs.declared.problem.ProblemSection.TheVariants as section_of;
ghost use Rattle.np_read.specs.ItemAnswers.{Gives, Stops};
ghost use Rattle.np_read.specs.ItemReaders as readers;
ghost use Rattle.np_syntax.specs.DomainForm as domains;
ghost use Rattle.np_words.specs.ReadingForm as words;
ghost use Rattle.np_conditions.specs.declared.condition.Condition.{Condition};
ghost use Rattle.np_words.specs.declared.word.Group.{Group};
ghost use Rattle.np_words.specs.declared.word.ListKind.TheVariants.{Names};
ghost use Rattle.np_words.specs.declared.word.Word.{Word};

use super::facts::facts;
use crate::problem::{Problem, ProblemSection};
use np_lex::{Kind, Lexer, Place};
use np_read::{ReadFault, ends, keyword, left, name as this_name, open, right, take_token, token};
use np_syntax::read::{MOST_LEVELS, condition, expr, name, requirements, typed_list};
use np_syntax::{Condition, Expr, ListKind, Word};
use sqlite_items::Items;
use std::alloc::Global;

/// So many brackets may be opened one inside the other within that of the goal's condition, which is the third level.
const GOAL_LEVELS: u32 = MOST_LEVELS - 3;

/// So many brackets may be opened one inside the other in the metric's expression, whose first one is the third level.
const METRIC_LEVELS: u32 = MOST_LEVELS - 2;

/// Reads a name, and the closing bracket.
#[tactic(auto, unfolding(crate::specs::ProblemForm::last_name))]
fn last_name(alloc: Global, lexer: &mut Lexer<'_>) -> Result<Word, ReadFault>
    ensures { Gives (λ w. w) (items_left lexer.new) result (form.last_name (items_left lexer.old)) }
{
    let word = name(alloc, lexer)?;
    right(lexer)?;
    Ok(word)
}

/// Reads a condition, and the closing bracket.
#[tactic(auto, unfolding(crate::specs::ProblemForm::last_goal, crate::specs::ProblemText::goal_levels))]
fn last_goal(alloc: Global, lexer: &mut Lexer<'_>) -> Result<Condition, ReadFault>
    ensures { Gives (λ c. c) (items_left lexer.new) result (form.last_goal (items_left lexer.old)) }
{
    let goal = condition(alloc, GOAL_LEVELS, lexer)?;
    right(lexer)?;
    Ok(goal)
}

/// Reads `minimize`, an expression, and the closing bracket.
#[tactic(auto, unfolding(crate::specs::ProblemForm::last_metric, crate::specs::ProblemText::metric_levels))]
fn last_metric(alloc: Global, lexer: &mut Lexer<'_>) -> Result<Expr, ReadFault>
    ensures { Gives (λ v. v) (items_left lexer.new) result (form.last_metric (items_left lexer.old)) }
{
    this_name(lexer, b"minimize")?;
    let metric = expr(alloc, METRIC_LEVELS, lexer)?;
    right(lexer)?;
    Ok(metric)
}

/// Reads a metric, after the opening bracket.
#[tactic(auto, unfolding(crate::specs::ProblemForm::from_metric))]
fn from_metric(alloc: Global, lexer: &mut Lexer<'_>) -> Result<ProblemSection, ReadFault>
    ensures { Gives (λ v. v) (items_left lexer.new) result (form.from_metric (items_left lexer.old)) }
{
    let place = keyword(lexer, b":metric")?;
    let metric = last_metric(alloc, lexer)?;
    Ok(ProblemSection::Metric(place, metric))
}

/// Reads a goal after its keyword.
fn goal_at(alloc: Global, lexer: &mut Lexer<'_>, place: Place) -> Result<ProblemSection, ReadFault>
    ensures { Gives (λ v. v) (items_left lexer.new) result (readers.made (λ (c : Condition). section_of.Goal place c) (form.last_goal) (items_left lexer.old)) }
{
    let goal = last_goal(alloc, lexer)?;
    Ok(ProblemSection::Goal(place, goal))
}

/// Reads a goal or a metric, after the opening bracket.
#[tactic(auto, using(crate::proofs::SectionLexing::goal_taken, crate::proofs::SectionLexing::goal_left))]
fn from_goal(alloc: Global, lexer: &mut Lexer<'_>) -> Result<ProblemSection, ReadFault>
    ensures { Gives (λ v. v) (items_left lexer.new) result (form.from_goal (items_left lexer.old)) }
{
    if let Some(place) = take_token(lexer, Kind::Keyword, b":goal") {
        return goal_at(alloc, lexer, place);
    }
    from_metric(alloc, lexer)
}

/// Reads facts after their keyword.
fn init_at(alloc: Global, lexer: &mut Lexer<'_>, place: Place) -> Result<ProblemSection, ReadFault>
    ensures { Gives (λ v. v) (items_left lexer.new) result (readers.made (λ (facts : List Fact). section_of.Init place facts) (readers.row facts.fact) (items_left lexer.old)) }
{
    let facts = facts(alloc, lexer)?;
    Ok(ProblemSection::Init(place, facts))
}

/// Reads facts, a goal or a metric, after the opening bracket.
#[tactic(auto, using(crate::proofs::SectionLexing::init_taken, crate::proofs::SectionLexing::init_left))]
fn from_init(alloc: Global, lexer: &mut Lexer<'_>) -> Result<ProblemSection, ReadFault>
    ensures { Gives (λ v. v) (items_left lexer.new) result (form.from_init (items_left lexer.old)) }
{
    if let Some(place) = take_token(lexer, Kind::Keyword, b":init") {
        return init_at(alloc, lexer, place);
    }
    from_goal(alloc, lexer)
}

/// Reads objects after their keyword.
fn objects_at(
    alloc: Global,
    lexer: &mut Lexer<'_>,
    place: Place,
) -> Result<ProblemSection, ReadFault>
    ensures { Gives (λ v. v) (items_left lexer.new) result (readers.made (λ (gs : List Group). section_of.Objects place gs) (domains.typed_list Names) (items_left lexer.old)) }
{
    let groups = typed_list(alloc, lexer, ListKind::Names)?;
    Ok(ProblemSection::Objects(place, groups))
}

/// Reads objects or a section that is tried after them, after the opening bracket.
#[tactic(auto, using(crate::proofs::SectionLexing::objects_taken, crate::proofs::SectionLexing::objects_left))]
fn from_objects(alloc: Global, lexer: &mut Lexer<'_>) -> Result<ProblemSection, ReadFault>
    ensures { Gives (λ v. v) (items_left lexer.new) result (form.from_objects (items_left lexer.old)) }
{
    if let Some(place) = take_token(lexer, Kind::Keyword, b":objects") {
        return objects_at(alloc, lexer, place);
    }
    from_init(alloc, lexer)
}

/// Reads requirements after their keyword.
fn requirements_at(
    alloc: Global,
    lexer: &mut Lexer<'_>,
    place: Place,
) -> Result<ProblemSection, ReadFault>
    ensures { Gives (λ v. v) (items_left lexer.new) result (readers.made (λ (ws : List Word). section_of.Requirements place ws) (readers.row words.requirement) (items_left lexer.old)) }
{
    let requirements = requirements(alloc, lexer)?;
    Ok(ProblemSection::Requirements(place, requirements))
}

/// Reads requirements or a section that is tried after them, after the opening bracket.
#[tactic(auto, using(crate::proofs::SectionLexing::requirements_taken, crate::proofs::SectionLexing::requirements_left))]
fn from_requirements(alloc: Global, lexer: &mut Lexer<'_>) -> Result<ProblemSection, ReadFault>
    ensures { Gives (λ v. v) (items_left lexer.new) result (form.from_requirements (items_left lexer.old)) }
{
    if let Some(place) = take_token(lexer, Kind::Keyword, b":requirements") {
        return requirements_at(alloc, lexer, place);
    }
    from_objects(alloc, lexer)
}

/// Reads a domain's name after its keyword.
fn domain_at(
    alloc: Global,
    lexer: &mut Lexer<'_>,
    place: Place,
) -> Result<ProblemSection, ReadFault>
    ensures { Gives (λ v. v) (items_left lexer.new) result (readers.made (λ (w : Word). section_of.Domain place w) (form.last_name) (items_left lexer.old)) }
{
    let name = last_name(alloc, lexer)?;
    Ok(ProblemSection::Domain(place, name))
}

/// Reads a section after its opening bracket.
#[tactic(auto, using(crate::proofs::SectionLexing::domain_taken, crate::proofs::SectionLexing::domain_left))]
fn from_domain(alloc: Global, lexer: &mut Lexer<'_>) -> Result<ProblemSection, ReadFault>
    ensures { Gives (λ v. v) (items_left lexer.new) result (form.from_domain (items_left lexer.old)) }
{
    if let Some(place) = take_token(lexer, Kind::Keyword, b":domain") {
        return domain_at(alloc, lexer, place);
    }
    from_requirements(alloc, lexer)
}

/// Reads a section.
#[tactic(auto, unfolding(crate::specs::ProblemForm::section))]
fn section(alloc: Global, lexer: &mut Lexer<'_>) -> Result<ProblemSection, ReadFault>
    ensures { Gives (λ v. v) (items_left lexer.new) result (form.section (items_left lexer.old)) }
{
    left(lexer)?;
    from_domain(alloc, lexer)
}

/// Reads sections up to a closing bracket.
fn sections_to_right(
    alloc: Global,
    lexer: &mut Lexer<'_>,
) -> Result<Items<ProblemSection>, ReadFault>
    ensures { Gives (λ x. x) (items_left lexer.new) result (readers.row form.section (items_left lexer.old)) }
{
    let mut found = Items::new(alloc);
    'row: while !lexer.take_right() {
        let value = section(alloc, lexer)?;
        found.push(value)?;
    }
    Ok(found)
}

/// Reads a name, its closing bracket, and sections up to the last closing bracket.
#[tactic(auto, unfolding(crate::specs::ProblemForm::named_sections))]
fn named_sections(
    alloc: Global,
    lexer: &mut Lexer<'_>,
) -> Result<(Word, Items<ProblemSection>), ReadFault>
    ensures { Gives (λ x. x) (items_left lexer.new) result (form.named_sections (items_left lexer.old)) }
{
    let name = last_name(alloc, lexer)?;
    let sections = sections_to_right(alloc, lexer)?;
    Ok((name, sections))
}

/// Reads `(define (problem name) section ..)`.
#[tactic(auto, unfolding(crate::specs::ProblemForm::problem))]
fn problem(alloc: Global, lexer: &mut Lexer<'_>) -> Result<Problem, ReadFault>
    ensures { Gives (λ p. p) (items_left lexer.new) result (form.problem (items_left lexer.old)) }
{
    let place = token(lexer, Kind::Left, b"(")?;
    this_name(lexer, b"define")?;
    open(lexer, b"problem")?;
    let (name, sections) = named_sections(alloc, lexer)?;
    Ok(Problem {
        name,
        sections,
        place,
    })
}

/// Reads a problem that is the whole text.
#[tactic(auto, using(np_syntax::proofs::SectionLexing::whole_stops, np_syntax::proofs::SectionLexing::whole_more, np_syntax::proofs::SectionLexing::whole_ends))]
pub fn whole_problem(alloc: Global, lexer: &mut Lexer<'_>) -> Result<Problem, ReadFault>
    ensures read { IfOk result (λ p. readers.whole form.problem (items_left lexer.old) ≡ Ok (p, [])) }
    ensures stops { IfErr result (λ fault. Stops (items_left lexer.new) fault (readers.whole form.problem (items_left lexer.old))) }
{
    let problem = problem(alloc, lexer)?;
    if !ends(lexer) {
        return Err(ReadFault::Next);
    }
    Ok(problem)
}
