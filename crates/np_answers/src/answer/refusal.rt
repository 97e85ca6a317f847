//! Why the planner doesn't work on what the files hold.
ghost use Rattle.std.specs.Prelude.{◌≡◌, IfOk, string_bytes};
ghost use Rattle.np_answers.specs.Texts.{name_of, refusal_text, text_at, file_of, rule_text, task_reason_text, spot_reason_text};

use super::File;
use crate::text::Text;
use itoa::Buffer;
use np_lex::Place;
use np_names::{Source, TypeWhy};
use std::alloc::{AllocError, Global};

/// Why the planner doesn't work on what the files hold.
#[derive(Drop)]
pub enum Refusal {
    /// A file has more bytes than the limit; a plan has more steps.
    TooLong(File),
    /// The bytes of a file spell nothing that they should. The place is that of the first fault.
    Syntax(File, Place),
    /// A number of more than 38 digits is at this place, and no other fault of the file is before it.
    NumberWide(File, Place),
    /// A domain and a problem break this rule of typing at this place, and it is the first that they break.
    Typing(Source, Place, TypeWhy),
    /// The stamp at this place of a plan isn't above the one before.
    StampOrder(Place),
    /// The line at this place of a plan names no step of the task.
    UnknownStep(Place),
    /// A number gets too wide for 128 bits while the step of this number is computed.
    StepWide(u64),
    /// The task of the files has no flat task, for this reason.
    Task(TaskReason),
    /// The task of the files has no flat task, for this reason at this spot.
    AtSpot(SpotReason, Text),
}

/// Why a task has no flat task.
#[derive(Clone, Copy)]
pub enum TaskReason {
    /// Its actions have more than 2^22 bindings together.
    TooManyBindings,
    /// It has more than 2^16 steps.
    TooManySteps,
    /// Conditions read more than 2^14 atoms.
    TooManyFacts,
    /// Comparisons read more than 2^10 terms.
    TooManyValues,
    /// There are more than 2^16 different subgoals.
    TooManySubgoals,
    /// The unit isn't below 2^62.
    UnitWide,
    /// The goal reads a term without a value, or divides by 0.
    GoalUndefined,
    /// The metric divides by 0.
    MetricUndefined,
}

/// Why a task has no flat task, at a spot of it.
#[derive(Clone, Copy)]
pub enum SpotReason {
    /// Two expressions that aren't constant are multiplied, or one is divided by such a one.
    NotLinear,
    /// A number is too wide.
    NumberWide,
    /// A comparison has more than 64 terms.
    FormLong,
    /// The step's cost is below 0.
    CostNegative,
    /// The step's cost isn't a whole number.
    CostNotWhole,
    /// The step's cost isn't below 2^32.
    CostWide,
}

impl Refusal {
    /// The text of the refusal, with its line feed. Out of memory is the only error.
    pub fn text(self, alloc: Global) -> Result<String, AllocError>
        ensures { IfOk result (λ text. string_bytes text ≡ refusal_text self) }
    {
        let mut buffer = Buffer::new();
        match self {
            Refusal::TooLong(file) => format!(in alloc; "Refused: {} too long\n", file.name()),
            Refusal::Syntax(file, place) => text_at(alloc, file, place, "syntax"),
            Refusal::NumberWide(file, place) => text_at(alloc, file, place, "number wide"),
            Refusal::Typing(source, place, why) => {
                text_at(alloc, file_of(source), place, rule_text(why))
            }
            Refusal::StampOrder(place) => text_at(alloc, File::Plan, place, "stamp order"),
            Refusal::UnknownStep(place) => text_at(alloc, File::Plan, place, "unknown step"),
            Refusal::StepWide(step) => {
                format!(in alloc; "Refused: number wide: plan step {}\n", buffer.format(step))
            }
            Refusal::Task(reason) => {
                format!(in alloc; "Refused: {}\n", task_reason_text(reason))
            }
            Refusal::AtSpot(reason, spot) => {
                let reason = spot_reason_text(reason);
                format!(in alloc; "Refused: {}: {}\n", reason, spot.as_str())
            }
        }
    }
}

/// The text of a refusal for what is at this place of a file.
fn text_at(alloc: Global, file: File, place: Place, why: &str) -> Result<String, AllocError>
    ensures { IfOk result (λ text. string_bytes text ≡ text_at file place why.now) }
{
    let mut buffer = Buffer::new();
    let mut text = String::from_str(alloc, "Refused: ")?;
    text.push_str(file.name())?;
    text.push_str(" ")?;
    text.push_str(buffer.format(place.line))?;
    text.push_str(":")?;
    text.push_str(buffer.format(place.column))?;
    text.push_str(" ")?;
    text.push_str(why)?;
    text.push_str("\n")?;
    Ok(text)
}

/// The file that a text of typing is in.
fn file_of(source: Source) -> File
    ensures { result ≡ file_of source }
{
    match source {
        Source::Domain => File::Domain,
        Source::Problem => File::Problem,
    }
}

/// The words for a rule of typing that is broken.
fn rule_text(why: TypeWhy) -> &'static str
    ensures { result.now ≡ rule_text why }
{
    match why {
        TypeWhy::SectionTwice => "section twice",
        TypeWhy::SectionMissing => "section missing",
        TypeWhy::OtherDomain => "other domain",
        TypeWhy::NameTwice => "name twice",
        TypeWhy::TypeCycle => "type cycle",
        TypeWhy::UnknownType => "unknown type",
        TypeWhy::UnknownPredicate => "unknown predicate",
        TypeWhy::UnknownFunction => "unknown function",
        TypeWhy::UnknownName => "unknown name",
        TypeWhy::Unbound => "unbound",
        TypeWhy::WrongArity => "wrong arity",
        TypeWhy::WrongType => "wrong type",
        TypeWhy::ValueTwice => "value twice",
        TypeWhy::AmountNotStatic => "amount not static",
    }
}

/// The words for why a task has no flat task.
fn task_reason_text(reason: TaskReason) -> &'static str
    ensures { result.now ≡ task_reason_text reason }
{
    match reason {
        TaskReason::TooManyBindings => "too many bindings",
        TaskReason::TooManySteps => "too many steps",
        TaskReason::TooManyFacts => "too many facts",
        TaskReason::TooManyValues => "too many values",
        TaskReason::TooManySubgoals => "too many subgoals",
        TaskReason::UnitWide => "unit wide",
        TaskReason::GoalUndefined => "goal undefined",
        TaskReason::MetricUndefined => "metric undefined",
    }
}

/// The words for why a task has no flat task, before those for the spot.
fn spot_reason_text(reason: SpotReason) -> &'static str
    ensures { result.now ≡ spot_reason_text reason }
{
    match reason {
        SpotReason::NotLinear => "not linear",
        SpotReason::NumberWide => "number wide",
        SpotReason::FormLong => "form long",
        SpotReason::CostNegative => "cost negative",
        SpotReason::CostNotWhole => "cost not whole",
        SpotReason::CostWide => "cost wide",
    }
}
