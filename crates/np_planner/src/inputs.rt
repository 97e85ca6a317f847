//! The bytes of a file that a command reads.
ghost use Rattle.std.specs.Prelude.{◌≡◌, ◌^◌, IfOk, IfErr, OnOk};
ghost use Rattle.np_io.specs.Files.{IsHeld};
ghost use Rattle.np_planner.specs.ReadSteps.{IsNotRead, IsNotFetched};
ghost use Rattle.np_planner.specs.Shelves.{IsRead};

use np_answers::{Answer, File, Refusal};
use np_io::{Fetch, Shelf};
use std::alloc::Global;

/// The most bytes that a domain or a problem may have.
const MOST_BYTES: usize = 1 << 24;

/// The bytes of a domain or a problem, or the answer where it can't be had.
pub fn read<S: Shelf>(
    alloc: Global,
    shelf: &mut S,
    name: &str,
    file: File,
) -> Result<Vec<u8>, Answer>
    ensures untouched { OnOk result (S.seen shelf.new ≡ S.seen shelf.old) }
    ensures read { IfOk result (λ bytes. IsRead (S.seen shelf.old) name.now bytes.items) }
    ensures refused { IfErr result (IsNotRead file name.now (2 ^ 24) (S.seen shelf.old) (S.seen shelf.new)) }
{
    match shelf.fetch(alloc, name, MOST_BYTES) {
        Ok(bytes) => Ok(bytes),
        Err(Fetch::Failed) => Err(Answer::CannotRead(file)),
        Err(Fetch::TooLong) => Err(Answer::Refused(Refusal::TooLong(file))),
        Err(Fetch::Memory) => Err(Answer::OutOfMemory),
    }
}

/// The bytes of a certificate or a plan, however many, or the answer where it can't be had.
pub fn read_whole<S: Shelf>(
    alloc: Global,
    shelf: &mut S,
    name: &str,
    file: File,
) -> Result<Vec<u8>, Answer>
    ensures untouched { OnOk result (S.seen shelf.new ≡ S.seen shelf.old) }
    ensures held { IfOk result (λ content. IsHeld (S.seen shelf.old).files name.now content.items) }
    ensures refused { IfErr result (IsNotFetched file name.now (S.seen shelf.old) (S.seen shelf.new)) }
{
    match shelf.fetch(alloc, name, usize::MAX) {
        Ok(content) => Ok(content),
        Err(Fetch::Failed) => Err(Answer::CannotRead(file)),
        Err(Fetch::TooLong) => unreachable!(),
        Err(Fetch::Memory) => Err(Answer::OutOfMemory),
    }
}
