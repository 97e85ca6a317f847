//! What a shelf of files is, and why a call on it or on a sink gives nothing.
ghost use Rattle.std.specs.Prelude.{◌≡◌, ◌≤◌, ◌<◌, ℕ, List, Option, IfOk, OnOk, IsErrOf, length};
ghost use Rattle.np_io.specs.Files.{Changes, HasPut, HasPutPrefix, IsHeld, IsLonger, IsAbsent};
ghost use Rattle.np_io.specs.Seen.{SeenShelf};
ghost use Rattle.np_io.specs.Counts.{Rose, OnlyAt};
ghost use Rattle.np_io.specs.declared.shelf.Fetch.TheVariants as fetch;
ghost use Rattle.np_io.specs.declared.shelf.Give.TheVariants as give;

use std::alloc::{AllocError, AllocFailed, Global};
use thiserror::Error;

/// Why nothing was fetched.
#[derive(Clone, Copy, Debug, PartialEq, Eq, Error)]
pub enum Fetch {
    /// The file could not be read. The count of faults of its name has grown.
    #[error("the file cannot be read")]
    Failed,
    /// The file has more bytes than the limit.
    #[error("the file is too long")]
    TooLong,
    /// There was no memory for the call.
    #[error("out of memory")]
    Memory,
}

/// Why nothing was given, or only a part.
#[derive(Clone, Copy, Debug, PartialEq, Eq, Error)]
pub enum Give {
    /// The bytes could not be written. A count of faults has grown, and a prefix of the bytes may have been kept.
    #[error("the bytes cannot be written")]
    Failed,
    /// There was no memory for the call.
    #[error("out of memory")]
    Memory,
}

impl From<AllocError> for Fetch {
    ghost from_gives = { λ _ e. e ≡ fetch.Memory };

    fn from(_error: AllocError) -> Fetch {
        Fetch::Memory
    }
}

impl From<AllocError> for Give {
    ghost from_gives = { λ _ e. e ≡ give.Memory };

    fn from(_error: AllocError) -> Give {
        Give::Memory
    }
}

/// Files by their names. A shelf may tell what it holds, and then contracts speak of the bytes.
pub trait Shelf {
    /// What is under each name, where the shelf tells it, and how often a fetch and a put of each name has answered
    /// `Failed`. These two counts never fall.
    ghost seen: { Self → SeenShelf };

    /// Reads the file under a name, if it has at most `limit` bytes.
    ///
    /// `Failed` comes only where the read failed in this call; a name under which there is nothing is one that fails. Then
    /// that one failure is counted, unless the count is at 2^64 - 1; every other answer leaves the counts. `TooLong`
    /// comes only where the file is longer. No call changes a file.
    fn fetch(&mut self, alloc: Global, name: &str, limit: usize) -> Result<Vec<u8>, Fetch>
        ensures within { IfOk result (λ bytes. length bytes.items ≤ limit) }
        ensures bytes { IfOk result (λ bytes. IsHeld (seen self.old).files name.now bytes.items) }
        ensures held { (seen self.new).files ≡ (seen self.old).files }

        ensures too_long { IsErrOf result Fetch.TooLong → IsLonger (seen self.old).files name.now limit }
        // With the greatest limit no file is too long, whether the shelf tells or not.
        ensures limited { IsErrOf result Fetch.TooLong → limit < usize.MAX }
        ensures failed { IsErrOf result Fetch.Failed →
            Rose ((seen self.old).read_faults name.now) ((seen self.new).read_faults name.now) }
        ensures absent { IsAbsent (seen self.old).files name.now → ¬ IsErrOf result Fetch.Memory →
            Rose ((seen self.old).read_faults name.now) ((seen self.new).read_faults name.now) }
        ensures unfailed { ¬ IsErrOf result Fetch.Failed → (seen self.new).read_faults ≡ (seen self.old).read_faults }

        ensures reads { OnlyAt name.now (seen self.old).read_faults (seen self.new).read_faults }
        ensures writes { (seen self.new).write_faults ≡ (seen self.old).write_faults };

    /// Writes the bytes as the whole file under a name.
    ///
    /// `Failed` comes only where the write failed in this call, and, where the shelf tells, leaves a prefix of the bytes
    /// under the name. Then that one failure is counted, unless the count is at 2^64 - 1; every other answer leaves the
    /// counts, so a caller that tries a failed write again can't hide it. After `Memory` nothing has changed. Other names
    /// stay in every case.
    fn put(&mut self, name: &str, bytes: &[u8]) -> Result<(), Give>
        ensures ok { OnOk result (Changes (seen self.old).files (seen self.new).files (HasPut name.now bytes.now)) }
        ensures prefix { IsErrOf result Give.Failed →
            Changes (seen self.old).files (seen self.new).files (HasPutPrefix name.now bytes.now) }
        ensures held { IsErrOf result Give.Memory → (seen self.new).files ≡ (seen self.old).files }

        ensures failed { IsErrOf result Give.Failed →
            Rose ((seen self.old).write_faults name.now) ((seen self.new).write_faults name.now) }
        ensures unfailed { ¬ IsErrOf result Give.Failed → (seen self.new).write_faults ≡ (seen self.old).write_faults }

        ensures writes { OnlyAt name.now (seen self.old).write_faults (seen self.new).write_faults }
        ensures reads { (seen self.new).read_faults ≡ (seen self.old).read_faults };
}
