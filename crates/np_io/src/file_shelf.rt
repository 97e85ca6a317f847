//! A shelf of real files.
ghost use Rattle.std.specs.Prelude.{◌≡◌, ◌≤◌, ◌<◌, [], None, IfOk, OnOk, OnErr, IsErrOf, length, true, false};
ghost use Rattle.np_io.specs.Counts.{Rose, OnlyAt};
ghost use Rattle.np_io.specs.Failures.{failures_of, IsNoted};
ghost use Rattle.np_io.specs.FileShelf.{noted};

use crate::failure::{Failure, note, prepare};
use crate::shelf::{Fetch, Give, Shelf};
use crate::stream::{fetch_fault, read_whole, write_whole};
use std::alloc::Global;
use std::fs;
use std::io::ErrorKind;
use std::rt::Files;

/// Files of the system, by their paths. It tells no content.
///
/// A path that isn't absolute begins at the folder of the process. A name's counts of faults are the numbers of its
/// noted failures.
#[derive(Drop)]
pub struct FileShelf<R> {
    runtime: R,
    failed: Vec<Failure>,
}

impl<R: Files> FileShelf<R> {
    /// A shelf of the files that the runtime reaches, with no failure yet.
    pub fn new(alloc: Global, runtime: R) -> FileShelf<R>
        ensures { noted result ≡ [] }
    {
        FileShelf {
            runtime,
            failed: Vec::new(alloc),
        }
    }

    /// The failures so far, one for each call that answered `Failed`, in their order.
    pub fn failures(&self) -> &[Failure]
        ensures { result.now ≡ noted self.now }
    {
        self.failed.as_slice()
    }
}

/// Reads a file of at most `limit` bytes.
fn read_file<R: Files>(
    alloc: Global,
    runtime: &R,
    name: &str,
    limit: usize,
) -> Result<Vec<u8>, Fetch>
    ensures within { IfOk result (λ bytes. length bytes.items ≤ limit) }
    ensures limited { IsErrOf result Fetch.TooLong → limit < usize.MAX }
{
    match fs::open(runtime, name) {
        Ok(mut file) => read_whole(alloc, &mut file, limit),
        Err(error) => Err(fetch_fault(&error)),
    }
}

/// Makes a file, or empties the one that is there, and writes the bytes. `Memory` comes before anything changed.
fn write_file<R: Files>(runtime: &R, name: &str, bytes: &[u8]) -> Result<(), Give> {
    match fs::create(runtime, name) {
        Ok(mut file) => write_whole(&mut file, bytes),
        Err(error) if error.kind() == ErrorKind::OutOfMemory => Err(Give::Memory),
        Err(_) => Err(Give::Failed),
    }
}

impl<R: Files> Shelf for FileShelf<R> {
    ghost seen = { λ s. record { files = None; read_faults = failures_of false (noted s); write_faults = failures_of true (noted s) } };

    fn fetch(&mut self, alloc: Global, name: &str, limit: usize) -> Result<Vec<u8>, Fetch>
        ensures within { IfOk result (λ bytes. length bytes.items ≤ limit) }
        ensures limited { IsErrOf result Fetch.TooLong → limit < usize.MAX }
        ensures failed { IsErrOf result Fetch.Failed →
            Rose (failures_of false (noted self.old) name.now) (failures_of false (noted self.new) name.now) }
        ensures unfailed { ¬ IsErrOf result Fetch.Failed →
            failures_of false (noted self.new) ≡ failures_of false (noted self.old) }
        ensures reads { OnlyAt name.now (failures_of false (noted self.old)) (failures_of false (noted self.new)) }
        ensures writes { failures_of true (noted self.new) ≡ failures_of true (noted self.old) }

        // What this shelf adds: exactly the calls that answer `Failed` are noted.
        ensures noted { IsErrOf result Fetch.Failed → IsNoted (noted self.old) (noted self.new) false name.now }
        ensures unnoted { ¬ IsErrOf result Fetch.Failed → noted self.new ≡ noted self.old }
    {
        let failure = prepare(&mut self.failed, false, name)?;
        match read_file(alloc, &self.runtime, name, limit) {
            Err(Fetch::Failed) => {
                note(&mut self.failed, failure);
                Err(Fetch::Failed)
            }
            outcome => outcome,
        }
    }

    fn put(&mut self, name: &str, bytes: &[u8]) -> Result<(), Give>
        ensures failed { IsErrOf result Give.Failed →
            Rose (failures_of true (noted self.old) name.now) (failures_of true (noted self.new) name.now) }
        ensures unfailed { ¬ IsErrOf result Give.Failed →
            failures_of true (noted self.new) ≡ failures_of true (noted self.old) }
        ensures writes { OnlyAt name.now (failures_of true (noted self.old)) (failures_of true (noted self.new)) }
        ensures reads { failures_of false (noted self.new) ≡ failures_of false (noted self.old) }

        // What this shelf adds: exactly the calls that answer `Failed` are noted.
        ensures noted { IsErrOf result Give.Failed → IsNoted (noted self.old) (noted self.new) true name.now }
        ensures unnoted { ¬ IsErrOf result Give.Failed → noted self.new ≡ noted self.old }
    {
        let failure = prepare(&mut self.failed, true, name)?;
        match write_file(&self.runtime, name, bytes) {
            Err(Give::Failed) => {
                note(&mut self.failed, failure);
                Err(Give::Failed)
            }
            outcome => outcome,
        }
    }
}
