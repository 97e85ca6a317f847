//! The command `check`.
ghost use Rattle.np_answers.specs.Words.{checking};
ghost use Rattle.np_answers.specs.CommandSteps.{told_check};
ghost use Rattle.np_planner.specs.RightAnswers.{IsRightTo};
ghost use Rattle.np_planner.specs.GivenSteps.{IsCheckedBeside};

use crate::given_files::{held_certificate, held_plan};
use crate::task_files::{Pair, held_flat};
use np_answers::{Answer, Check};
use np_cert::Certificate;
use np_commands::{judge, judge_with_plan};
use np_io::Shelf;
use std::alloc::Global;

/// Checks the certificate that the words name, and the plan where they name one, for the pair of files that they name.
pub fn check<S: Shelf>(alloc: Global, command: &Check<'_>, shelf: &mut S) -> Answer
    ensures { IsRightTo (checking (told_check command.now)) (S.seen shelf.old) (S.seen shelf.new) result }
{
    let pair = match held_flat(alloc, &command.inputs, shelf) {
        Ok(pair) => pair,
        Err(answer) => return answer,
    };
    let certificate = match held_certificate(alloc, command.certificate, shelf) {
        Ok(certificate) => certificate,
        Err(answer) => return answer,
    };
    match command.plan {
        None => judge(alloc, &pair.flat, &certificate),
        Some(plan) => check_plan(alloc, &pair, &certificate, plan, shelf),
    }
}

/// Checks a certificate for a flat task, and the plan under a name.
fn check_plan<S: Shelf>(
    alloc: Global,
    pair: &Pair,
    certificate: &Certificate,
    plan: &str,
    shelf: &mut S,
) -> Answer
    ensures { IsCheckedBeside pair.now.task pair.now.flat certificate.now plan.now (S.seen shelf.old) (S.seen shelf.new) result }
{
    match held_plan(alloc, &pair.task, plan, shelf) {
        Ok(steps) => judge_with_plan(alloc, &pair.flat, certificate, steps.as_slice()),
        Err(answer) => answer,
    }
}
