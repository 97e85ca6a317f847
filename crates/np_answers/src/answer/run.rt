//! What `run` answers.
ghost use Rattle.std.specs.Prelude.{◌≡◌, IfOk, string_bytes};
ghost use Rattle.np_answers.specs.Texts.{cost_text, run_text, run_status};

use itoa::Buffer;
use np_frac::Frac;
use np_run::RunEnd;
use std::alloc::{AllocError, Global};

/// The text of an answer of `run`, with its line feed. Out of memory is the only error.
pub fn run_text(alloc: Global, end: RunEnd) -> Result<String, AllocError>
    ensures { IfOk result (λ text. string_bytes text ≡ run_text end) }
{
    let mut buffer = Buffer::new();
    match end {
        RunEnd::Goal(cost) => goal_text(alloc, cost),
        RunEnd::NoGoal => {
            String::from_str(alloc, "Not a plan: the goal does not hold at the end\n")
        }
        RunEnd::Stuck(step) => {
            format!(in alloc;
                "Not a plan: step {} is not applicable\n",
                buffer.format(step)
            )
        }
        RunEnd::NoCost(step) => {
            format!(in alloc; "Not a plan: step {} has no cost\n", buffer.format(step))
        }
    }
}

/// The text for a plan of this cost: a whole number, or a fraction in lowest terms.
fn goal_text(alloc: Global, cost: Frac) -> Result<String, AllocError>
    ensures { IfOk result (λ text. string_bytes text ≡ cost_text cost) }
{
    let mut buffer = Buffer::new();
    let mut text = String::from_str(alloc, "Plan, cost ")?;
    text.push_str(buffer.format(cost.num()))?;
    if cost.den() != 1 {
        text.push_str("/")?;
        text.push_str(buffer.format(cost.den()))?;
    }
    text.push_str("\n")?;
    Ok(text)
}

/// The status that the program ends with after an answer of `run`.
pub fn run_status(end: RunEnd) -> u8
    ensures { result ≡ run_status end }
{
    match end {
        RunEnd::Goal(_) => 0,
        RunEnd::NoGoal | RunEnd::Stuck(_) | RunEnd::NoCost(_) => 6,
    }
}
