//! The program: it gathers its words, and does what they say.
ghost use Rattle.np_planner.specs.Promises.{IsAnsweredFor};

use np_io::{Shelf, Sink};
use np_planner::planner;
use std::alloc::Global;
use std::env;
use std::io::{self, ErrorKind};
use std::rt::Env;

/// The status where there is no memory for the words.
const OUT_OF_MEMORY: u8 = 7;

/// The words after the program's name. Where one isn't UTF-8 there are none, which is a faulty command line.
fn words<R: Env>(alloc: Global, rt: &R) -> io::Result<Vec<String>> {
    match env::args(&(rt, alloc)) {
        Ok(args) => Ok(args.skip(1).collect(alloc)?),
        Err(error) if error.kind() == ErrorKind::InvalidData => Ok(Vec::new(alloc)),
        Err(error) => Err(error),
    }
}

/// Does what the words after the program's name say, says so, and gives the status to end with. Where one of them isn't UTF-8
/// the command line is faulty; where there is no memory for them the status is 7, and nothing is done and nothing said.
pub fn program<R: Env, S: Shelf, O: Sink>(alloc: Global, rt: &R, shelf: &mut S, out: &mut O) -> u8
    ensures { IsAnsweredFor (S.seen shelf.old) (S.seen shelf.new) (O.seen out.old) (O.seen out.new) result }
{
    match words(alloc, rt) {
        Ok(words) => planner(alloc, words.as_slice(), shelf, out),
        Err(_) => OUT_OF_MEMORY,
    }
}
