//! The task that the pair of files of a command stands for, and its flat task.
ghost use Rattle.std.specs.Prelude.{◌≡◌};
ghost use Rattle.np_syntax.specs.Domains.{IsDomain, domain_text, domain_marks, IsRead as IsReadDomain};
ghost use Rattle.np_problem.specs.ProblemText.{IsProblem};
ghost use Rattle.np_problem.specs.Problems.{problem_text, problem_marks, IsRead as IsReadProblem};
ghost use Rattle.np_typing.specs.Typing.{IsSpelledPair};
ghost use Rattle.np_answers.specs.CommandSteps.{told_inputs};
ghost use Rattle.np_planner.specs.TaskSteps.{unspelled, Reads, Finds, FindsBoth, Types, FindsTask, FindsFlat};

use crate::inputs::read;
use np_answers::{Answer, File, Inputs, Refusal};
use np_commands::flat_task;
use np_flat::Flat;
use np_io::Shelf;
use np_model::Task;
use np_problem::{Problem, read_problem};
use np_syntax::{Domain, ReadFault, read_domain};
use np_typing::{TypeFault, resolve};
use std::alloc::Global;

/// The answer where the text of a file has this fault.
fn unspelled(file: File, fault: ReadFault) -> Answer
    ensures { result ≡ unspelled file fault }
{
    match fault {
        ReadFault::At(place) => Answer::Refused(Refusal::Syntax(file, place)),
        ReadFault::NumberWide(place) => Answer::Refused(Refusal::NumberWide(file, place)),
        ReadFault::Memory => Answer::OutOfMemory,
    }
}

/// The domain that bytes spell, or the answer where they spell none.
fn domain_of(alloc: Global, bytes: &[u8]) -> Result<Domain, Answer>
    ensures { Reads IsDomain domain_text domain_marks IsReadDomain File.Domain bytes.now result }
{
    match read_domain(alloc, bytes) {
        Ok(domain) => Ok(domain),
        Err(fault) => Err(unspelled(File::Domain, fault)),
    }
}

/// The problem that bytes spell, or the answer where they spell none.
fn problem_of(alloc: Global, bytes: &[u8]) -> Result<Problem, Answer>
    ensures { Reads IsProblem problem_text problem_marks IsReadProblem File.Problem bytes.now result }
{
    match read_problem(alloc, bytes) {
        Ok(problem) => Ok(problem),
        Err(fault) => Err(unspelled(File::Problem, fault)),
    }
}

/// The domain under a name, or the answer where there is none.
fn held_domain<S: Shelf>(alloc: Global, name: &str, shelf: &mut S) -> Result<Domain, Answer>
    ensures { Finds IsDomain domain_text domain_marks IsReadDomain File.Domain name.now (S.seen shelf.old) (S.seen shelf.new) result }
{
    match read(alloc, shelf, name, File::Domain) {
        Ok(bytes) => domain_of(alloc, bytes.as_slice()),
        Err(answer) => Err(answer),
    }
}

/// The problem under a name, or the answer where there is none.
fn held_problem<S: Shelf>(alloc: Global, name: &str, shelf: &mut S) -> Result<Problem, Answer>
    ensures { Finds IsProblem problem_text problem_marks IsReadProblem File.Problem name.now (S.seen shelf.old) (S.seen shelf.new) result }
{
    match read(alloc, shelf, name, File::Problem) {
        Ok(bytes) => problem_of(alloc, bytes.as_slice()),
        Err(answer) => Err(answer),
    }
}

/// The task that a domain and a problem stand for, or the answer where they break a rule of typing.
fn typed(alloc: Global, domain: &Domain, problem: &Problem) -> Result<Task, Answer>
    requires { IsSpelledPair domain.now problem.now }
    ensures { Types domain.now problem.now result }
{
    match resolve(alloc, domain, problem) {
        Ok(task) => Ok(task),
        Err(TypeFault::At(source, place, why)) => {
            Err(Answer::Refused(Refusal::Typing(source, place, why)))
        }
        Err(TypeFault::Memory) => Err(Answer::OutOfMemory),
    }
}

/// The domain and the problem that the files spell, or the answer where one of them spells none. The problem is read only
/// after the domain was found to be one.
fn held_both<S: Shelf>(
    alloc: Global,
    inputs: &Inputs<'_>,
    shelf: &mut S,
) -> Result<(Domain, Problem), Answer>
    ensures { FindsBoth (told_inputs inputs.now) (S.seen shelf.old) (S.seen shelf.new) result }
{
    let domain = match held_domain(alloc, inputs.domain, shelf) {
        Ok(domain) => domain,
        Err(answer) => return Err(answer),
    };
    match held_problem(alloc, inputs.problem, shelf) {
        Ok(problem) => Ok((domain, problem)),
        Err(answer) => Err(answer),
    }
}

/// The task that the files stand for, or the answer where they stand for none.
pub fn held_task<S: Shelf>(
    alloc: Global,
    inputs: &Inputs<'_>,
    shelf: &mut S,
) -> Result<Task, Answer>
    ensures { FindsTask (told_inputs inputs.now) (S.seen shelf.old) (S.seen shelf.new) result }
{
    match held_both(alloc, inputs, shelf) {
        Ok((domain, problem)) => typed(alloc, &domain, &problem),
        Err(answer) => Err(answer),
    }
}

/// A task and its flat task.
#[derive(Drop)]
pub struct Pair {
    /// The task.
    pub task: Task,
    /// Its flat task.
    pub flat: Flat,
}

/// The task that the files stand for, and its flat task, or the answer where they stand for none, or it has none.
pub fn held_flat<S: Shelf>(
    alloc: Global,
    inputs: &Inputs<'_>,
    shelf: &mut S,
) -> Result<Pair, Answer>
    ensures { FindsFlat (told_inputs inputs.now) (S.seen shelf.old) (S.seen shelf.new) result }
{
    let task = match held_task(alloc, inputs, shelf) {
        Ok(task) => task,
        Err(answer) => return Err(answer),
    };
    match flat_task(alloc, &task) {
        Ok(flat) => Ok(Pair { task, flat }),
        Err(answer) => Err(answer),
    }
}
