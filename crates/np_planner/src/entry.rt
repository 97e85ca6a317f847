//! The top call.
ghost use Rattle.std.specs.Prelude.{◌≤◌, map, string_bytes};
ghost use Rattle.np_answers.specs.Words.{command_of};
ghost use Rattle.np_planner.specs.RightAnswers.{IsRight};
ghost use Rattle.np_planner.specs.Promises.{call_of, IsAnswered, KeepsPromise, KeepsItsWord};
ghost use Rattle.np_planner.specs.Completeness.{IsComplete};
ghost use Rattle.np_planner.specs.Exactness.{IsExact};

use crate::check::check;
use crate::list::list;
use crate::run::run;
use crate::solve::solve;
use np_answers::{Answer, Command, command_words, say};
use np_io::{Shelf, Sink};
use std::alloc::Global;

/// The answer to the words.
fn answer<S: Shelf>(alloc: Global, words: &[String], shelf: &mut S) -> Answer
    ensures { IsRight (command_of (map string_bytes words.now)) (S.seen shelf.old) (S.seen shelf.new) result }
{
    match command_words(words) {
        Some(Command::Solve(command)) => solve(alloc, &command, shelf),
        Some(Command::Check(command)) => check(alloc, &command, shelf),
        Some(Command::Run(command)) => run(alloc, &command, shelf),
        Some(Command::List(inputs)) => list(alloc, &inputs, shelf),
        None => Answer::Usage,
    }
}

/// Does what the words say, says so, and gives the status to end with.
///
/// `answered` is the whole, and the other clauses follow from it: `promised` says what each status means, `headline` is the
/// product's promise, `complete` says that files that aren't refused get an answer, and `exact` that each refusal, and each answer
/// that the files decide, comes wherever its cause is there.
pub fn planner<S: Shelf, O: Sink>(alloc: Global, words: &[String], shelf: &mut S, out: &mut O) -> u8
    ensures answered { IsAnswered
        (call_of (map string_bytes words.now) (S.seen shelf.old) (S.seen shelf.new) (O.seen out.old) (O.seen out.new)) result }
    ensures promised { KeepsPromise
        (call_of (map string_bytes words.now) (S.seen shelf.old) (S.seen shelf.new) (O.seen out.old) (O.seen out.new)) result }
    ensures headline { KeepsItsWord
        (call_of (map string_bytes words.now) (S.seen shelf.old) (S.seen shelf.new) (O.seen out.old) (O.seen out.new)) result }
    ensures complete { IsComplete
        (call_of (map string_bytes words.now) (S.seen shelf.old) (S.seen shelf.new) (O.seen out.old) (O.seen out.new)) result }
    ensures exact { IsExact
        (call_of (map string_bytes words.now) (S.seen shelf.old) (S.seen shelf.new) (O.seen out.old) (O.seen out.new)) result }
    ensures later { (O.seen out.old).faults ≤ (O.seen out.new).faults }
{
    let answer = answer(alloc, words, shelf);
    say(alloc, answer, out)
}
