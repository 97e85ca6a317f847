//! A sink in memory, some of whose calls fail.
ghost use Rattle.std.specs.Prelude.{◌≡◌, ◌≤◌, ◌+◌, ◌-◌, ◌^◌, ◌++◌, ◌∷◌, [], Some, OnOk, OnErr, IsErrOf, min};
ghost use Rattle.np_io.specs.Counts.{RoseOnce};
ghost use Rattle.np_io.specs.Failing.{kept_bytes};
ghost use Rattle.np_io.specs.Pushes.{HasPushed, HasPushedPrefix};
ghost use Rattle.np_io.specs.Told.{Changes};
ghost use Rattle.np_io.specs.MemorySink.{pushed_bytes, planned, next, fault_count, next_kept, push_answer, TakesCall};

use crate::failing::{first_bytes, kept_by_call};
use crate::shelf::Give;
use crate::sink::Sink;
use std::alloc::{AllocError, Global};

/// Pushed bytes in memory. It tells them, and chosen calls of `push` fail.
///
/// These calls are numbered from 0. One that answers `Memory` takes its number too.
#[derive(Drop)]
pub struct MemorySink {
    bytes: Vec<u8>,
    failing: Vec<(u64, u64)>,
    calls: u64,
    failed: u64,
}

impl MemorySink {
    /// A sink to which nothing was pushed, and of whose calls none is to fail.
    pub fn new(alloc: Global) -> MemorySink
        ensures bytes { pushed_bytes result ≡ [] }
        ensures plan { planned result ≡ [] }
        ensures number { next result ≡ 0 }
        ensures faults { fault_count result ≡ 0 }
    {
        MemorySink {
            bytes: Vec::new(alloc),
            failing: Vec::new(alloc),
            calls: 0,
            failed: 0,
        }
    }

    /// Lets the call of this number fail, which then keeps the first `kept` bytes, or all where there are fewer. Of
    /// several choices for one call the first counts. An `Err` changes nothing.
    pub fn fail(&mut self, call: u64, kept: u64) -> Result<(), AllocError>
        ensures ok { OnOk result (planned self.new ≡ planned self.old ++ (call, kept) ∷ []) }
        ensures err { OnErr result (planned self.new ≡ planned self.old) }
        ensures bytes { pushed_bytes self.new ≡ pushed_bytes self.old }
        ensures number { next self.new ≡ next self.old }
        ensures faults { fault_count self.new ≡ fault_count self.old }
    {
        self.failing.push((call, kept))?;
        Ok(())
    }

    /// The bytes that were pushed so far.
    pub fn bytes(&self) -> &[u8]
        ensures { result.now ≡ pushed_bytes self.now }
    {
        self.bytes.as_slice()
    }

    /// How many calls answered `Failed`. The number stays at its greatest value.
    pub fn faults(&self) -> u64
        ensures { result ≡ fault_count self.now }
    {
        self.failed
    }

    /// The number of the next call of `push`.
    pub fn calls(&self) -> u64
        ensures { result ≡ next self.now }
    {
        self.calls
    }
}

impl Sink for MemorySink {
    ghost seen = { λ s. record { pushed = Some (pushed_bytes s); faults = fault_count s } };

    fn push(&mut self, bytes: &[u8]) -> Result<(), Give>
        ensures ok { OnOk result
            (Changes (Some (pushed_bytes self.old)) (Some (pushed_bytes self.new)) (HasPushed bytes.now)) }
        ensures prefix { IsErrOf result Give.Failed →
            Changes (Some (pushed_bytes self.old)) (Some (pushed_bytes self.new)) (HasPushedPrefix bytes.now) }
        ensures held { IsErrOf result Give.Memory → Some (pushed_bytes self.new) ≡ Some (pushed_bytes self.old) }
        ensures failed { IsErrOf result Give.Failed → RoseOnce (fault_count self.old) (fault_count self.new) }
        ensures unfailed { ¬ IsErrOf result Give.Failed → fault_count self.new ≡ fault_count self.old }
        ensures later { fault_count self.old ≤ fault_count self.new }

        // What this sink adds: each call has its number, and what it does is exact unless memory runs out.
        ensures call { TakesCall self.old self.new }
        ensures answer { ¬ IsErrOf result Give.Memory → result ≡ push_answer (next_kept self.old) }
        ensures content { ¬ IsErrOf result Give.Memory →
            HasPushed (kept_bytes (next_kept self.old) bytes.now) (pushed_bytes self.old) (pushed_bytes self.new) }
        ensures count { IsErrOf result Give.Failed →
            fault_count self.new ≡ min (fault_count self.old + 1) (2 ^ 64 - 1) }
    {
        let kept = kept_by_call(self.failing.as_slice(), self.calls);
        self.calls = self.calls.saturating_add(1);
        match kept {
            Some(kept) => {
                self.bytes.extend_from_slice(first_bytes(bytes, kept))?;
                self.failed = self.failed.saturating_add(1);
                Err(Give::Failed)
            }
            None => Ok(self.bytes.extend_from_slice(bytes)?),
        }
    }
}
