//! What `solve` answers.
ghost use Rattle.std.specs.Prelude.{◌≡◌, IfOk, string_bytes};
ghost use Rattle.np_answers.specs.Texts.{solve_text, solve_status};
ghost use Rattle.np_answers.specs.declared.answer.solve.SolveAnswer.TheVariants as answer;

use itoa::Buffer;
use std::alloc::{AllocError, Global};

/// An answer of `solve`.
#[derive(Clone, Copy)]
pub enum SolveAnswer {
    /// The plan that was put is a cheapest one, of this cost. Costs aren't scaled.
    Optimal(u64),
    /// There is no plan.
    Unsolvable,
    /// So many states were expanded, and no plan costs less than the second number.
    Spent(u32, u64),
}

impl SolveAnswer {
    /// The text of the answer, with its line feed. Out of memory is the only error.
    pub fn text(&self, alloc: Global) -> Result<String, AllocError>
        ensures { IfOk result (λ text. string_bytes text ≡ solve_text self.now) }
    {
        let mut buffer = Buffer::new();
        match *self {
            SolveAnswer::Optimal(cost) => {
                format!(in alloc; "Optimal {}, weak 0\n", buffer.format(cost))
            }
            SolveAnswer::Unsolvable => String::from_str(alloc, "Unsolvable, weak 0\n"),
            SolveAnswer::Spent(nodes, bound) => spent_text(alloc, nodes, bound),
        }
    }

    /// The status that the program ends with.
    pub fn status(&self) -> u8
        ensures { result ≡ solve_status self.now }
    {
        match self {
            SolveAnswer::Optimal(_) => 0,
            SolveAnswer::Unsolvable => 10,
            SolveAnswer::Spent(_, _) => 11,
        }
    }
}

/// The text of an answer after a spent budget.
fn spent_text(alloc: Global, nodes: u32, bound: u64) -> Result<String, AllocError>
    ensures { IfOk result (λ text. string_bytes text ≡ solve_text (answer.Spent nodes bound)) }
{
    let mut buffer = Buffer::new();
    let mut text = String::from_str(alloc, "Budget spent ")?;
    text.push_str(buffer.format(nodes))?;
    text.push_str(", bound ")?;
    text.push_str(buffer.format(bound))?;
    text.push_str(", weak 0\n")?;
    Ok(text)
}
