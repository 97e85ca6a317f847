//! The command `run`.
ghost use Rattle.std.specs.Prelude.{IsTrue, All};
ghost use Rattle.np_model.specs.Steps.{is_step};
ghost use Rattle.np_commands.specs.Running.{IsRunBy};

use np_answers::{Answer, Refusal};
use np_model::{Step, Task};
use np_run::RunFault;
use std::alloc::Global;

/// The answer of `run` to steps of a task.
pub fn run_steps(alloc: Global, task: &Task, steps: &[Step]) -> Answer
    requires { All (λ step. IsTrue (is_step task.now step)) steps.now }
    ensures { IsRunBy task.now steps.now result }
{
    match np_run::run(alloc, task, steps) {
        Ok(end) => Answer::Ran(end),
        Err(RunFault::Wide(step)) => Answer::Refused(Refusal::StepWide(step)),
        Err(RunFault::Memory) => Answer::OutOfMemory,
    }
}
