//! What a sink of bytes is.
ghost use Rattle.std.specs.Prelude.{◌≡◌, ◌≤◌, ℕ, List, Option, OnOk, IsErrOf};
ghost use Rattle.np_io.specs.Told.{Changes};
ghost use Rattle.np_io.specs.Pushes.{HasPushed, HasPushedPrefix};
ghost use Rattle.np_io.specs.Counts.{RoseOnce};
ghost use Rattle.np_io.specs.Seen.{SeenSink};

use crate::shelf::Give;

/// Where bytes are pushed, piece after piece. A sink may tell what was pushed.
pub trait Sink {
    /// The bytes that were pushed so far, where the sink tells them, and how often a push has answered `Failed`. This count
    /// never falls.
    ghost seen: { Self → SeenSink };

    /// Appends a piece.
    ///
    /// `Failed` comes only where the push failed in this call, and, where the sink tells, leaves a prefix of the piece
    /// after what was there. Then that one failure is counted, unless the count is at 2^64 - 1; every other answer leaves
    /// the count. After `Memory` nothing has changed.
    fn push(&mut self, bytes: &[u8]) -> Result<(), Give>
        ensures ok { OnOk result (Changes (seen self.old).pushed (seen self.new).pushed (HasPushed bytes.now)) }
        ensures prefix { IsErrOf result Give.Failed →
            Changes (seen self.old).pushed (seen self.new).pushed (HasPushedPrefix bytes.now) }
        ensures held { IsErrOf result Give.Memory → (seen self.new).pushed ≡ (seen self.old).pushed }

        ensures failed { IsErrOf result Give.Failed → RoseOnce (seen self.old).faults (seen self.new).faults }
        ensures unfailed { ¬ IsErrOf result Give.Failed → (seen self.new).faults ≡ (seen self.old).faults }
        ensures later { (seen self.old).faults ≤ (seen self.new).faults };
}
