//! What the planner answers: texts and statuses.
ghost use Rattle.std.specs.Prelude.{◌≡◌, IfOk, string_bytes};
ghost use Rattle.np_answers.specs.Texts.{name_of, text_of, status_of};

mod check;
mod refusal;
mod run;
mod solve;

use crate::text::Text;
pub use check::{CheckAnswer, Fault};
use np_run::RunEnd;
pub use refusal::{Refusal, SpotReason, TaskReason};
use run::{run_status, run_text};
pub use solve::SolveAnswer;
use std::alloc::{AllocError, Global};

/// A file that a command names.
#[derive(Clone, Copy)]
pub enum File {
    Domain,
    Problem,
    Certificate,
    Plan,
}

/// An answer of the planner.
#[derive(Drop)]
pub enum Answer {
    /// The words fit no command.
    Usage,
    /// A file could not be read.
    CannotRead(File),
    /// What the files hold isn't worked on.
    Refused(Refusal),
    /// An answer of `solve`.
    Solved(SolveAnswer),
    /// An answer of `check`.
    Checked(CheckAnswer),
    /// An answer of `run`.
    Ran(RunEnd),
    /// The answer of `list`: the text of the flat task.
    Listed(Text),
    /// A file could not be written.
    CannotWrite(File),
    /// Out of memory.
    OutOfMemory,
}

impl File {
    /// The word for the file in an answer.
    fn name(self) -> &'static str
        ensures { result.now ≡ name_of self }
    {
        match self {
            File::Domain => "domain",
            File::Problem => "problem",
            File::Certificate => "certificate",
            File::Plan => "plan",
        }
    }
}

impl Answer {
    /// The text of the answer, with its line feed. Out of memory is the only error.
    pub fn text(self, alloc: Global) -> Result<String, AllocError>
        ensures { IfOk result (λ text. string_bytes text ≡ text_of self) }
    {
        match self {
            Answer::Usage => String::from_str(
                alloc,
                "usage: solve DOMAIN PROBLEM PLAN CERT [NODES]\n       check DOMAIN PROBLEM CERT [PLAN]\n       run DOMAIN PROBLEM PLAN\n       list DOMAIN PROBLEM\n",
            ),
            Answer::CannotRead(file) => format!(in alloc; "Refused: cannot read {}\n", file.name()),
            Answer::Refused(refusal) => refusal.text(alloc),
            Answer::Solved(answer) => answer.text(alloc),
            Answer::Checked(answer) => answer.text(alloc),
            Answer::Ran(end) => run_text(alloc, end),
            Answer::Listed(text) => Ok(text.into_string()),
            Answer::CannotWrite(file) => {
                format!(in alloc; "Refused: cannot write {}\n", file.name())
            }
            Answer::OutOfMemory => String::from_str(alloc, "Out of memory\n"),
        }
    }

    /// The status that the program ends with.
    pub fn status(&self) -> u8
        ensures { result ≡ status_of self.now }
    {
        match self {
            Answer::Usage => 2,
            Answer::Refused(_) => 3,
            Answer::CannotRead(_) => 4,
            Answer::CannotWrite(_) => 5,
            Answer::OutOfMemory => 7,
            Answer::Solved(answer) => answer.status(),
            Answer::Checked(answer) => answer.status(),
            Answer::Ran(end) => run_status(*end),
            Answer::Listed(_) => 0,
        }
    }
}
