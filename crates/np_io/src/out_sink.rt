//! A sink that is standard output.
ghost use Rattle.std.specs.Prelude.{◌≡◌, ◌≤◌, ◌+◌, ◌-◌, ◌^◌, None, OnErr, IsErrOf, min};
ghost use Rattle.np_io.specs.Counts.{RoseOnce};
ghost use Rattle.np_io.specs.OutSink.{fault_count};

use crate::shelf::Give;
use crate::sink::Sink;
use crate::stream::write_whole;
use std::io;

/// Standard output of the runtime. It tells no content.
#[derive(Drop)]
pub struct OutSink<R> {
    runtime: R,
    failed: u64,
}

impl<R: Print> OutSink<R> {
    /// A sink over the standard output of the runtime, with no failure yet.
    pub fn new(runtime: R) -> OutSink<R>
        ensures { fault_count result ≡ 0 }
    {
        OutSink { runtime, failed: 0 }
    }

    /// How many calls failed. The number stays at its greatest value.
    pub fn faults(&self) -> u64
        ensures { result ≡ fault_count self.now }
    {
        self.failed
    }
}

impl<R: Print> Sink for OutSink<R> {
    ghost seen = { λ s. record { pushed = None; faults = fault_count s } };

    fn push(&mut self, bytes: &[u8]) -> Result<(), Give>
        ensures failed { IsErrOf result Give.Failed → RoseOnce (fault_count self.old) (fault_count self.new) }
        ensures unfailed { ¬ IsErrOf result Give.Failed → fault_count self.new ≡ fault_count self.old }
        ensures later { fault_count self.old ≤ fault_count self.new }

        // What this sink adds: it takes no memory, and exactly the calls that fail are counted.
        ensures only { ¬ IsErrOf result Give.Memory }
        ensures count { OnErr result (fault_count self.new ≡ min (fault_count self.old + 1) (2 ^ 64 - 1)) }
    {
        let outcome = write_whole(&mut io::writer(&self.runtime), bytes);
        if outcome.is_err() {
            self.failed = self.failed.saturating_add(1);
        }
        outcome
    }
}
