//! A shelf in memory, some of whose calls fail.
ghost use Rattle.std.specs.Prelude.{◌≡◌, ◌≤◌, ◌<◌, ◌+◌, ◌++◌, ◌∷◌, [], ℕ, List, Option, None, Some, IfOk, OnOk, OnErr, IfSome, IsErrOf, length, true, false};
ghost use Rattle.std.specs.Option.{option_map, option_copied};
ghost use Rattle.std.specs.Result.{result_map_both};
ghost use Rattle.indexmap.specs.IndexMap.{get_by_text};
ghost use Rattle.np_io.specs.Counts.{Rose, OnlyAt};
ghost use Rattle.np_io.specs.Failing.{kept_bytes};
ghost use Rattle.np_io.specs.Failures.{failures_of, IsNoted};
ghost use Rattle.np_io.specs.Files.{Changes, HasPut, HasPutPrefix, IsHeld, IsLonger, IsAbsent};
ghost use Rattle.np_io.specs.Held.{files_of};
ghost use Rattle.np_io.specs.MemoryShelf.{held, planned, next, noted, next_kept, TakesCall, fetched, put_answer};

use crate::failing::{first_bytes, kept_by_call};
use crate::failure::{Failure, note, prepare};
use crate::shelf::{Fetch, Give, Shelf};
use indexmap::IndexMap;
use std::alloc::{AllocError, Global};

/// Files in memory. It tells what it holds, and chosen calls of `fetch` and `put` fail.
///
/// These calls are numbered from 0. One that answers `Memory` takes its number too. A name's counts of faults are
/// the numbers of its noted failures.
#[derive(Drop)]
pub struct MemoryShelf {
    files: IndexMap<String, Vec<u8>>,
    failing: Vec<(u64, u64)>,
    calls: u64,
    failed: Vec<Failure>,
}

/// A copy of the bytes under a name, unless there are more than the limit.
fn copy_of(
    alloc: Global,
    files: &IndexMap<String, Vec<u8>>,
    name: &str,
    limit: usize,
) -> Result<Option<Vec<u8>>, Fetch>
    ensures within { IfOk result (λ found. IfSome found (λ bytes. length bytes.items ≤ limit)) }
    ensures bytes { IfOk result (λ found. option_map (λ b. b.items) found ≡ files_of files.now name.now) }
    ensures long { IsErrOf result Fetch.TooLong →
        (bytes : List ℕ) × (files_of files.now name.now ≡ Some bytes) × (limit < length bytes) }
    ensures limited { IsErrOf result Fetch.TooLong → limit < usize.MAX }
    ensures no_fault { ¬ IsErrOf result Fetch.Failed }
{
    let Some(bytes) = files.get(name) else {
        return Ok(None);
    };
    if bytes.len() > limit {
        return Err(Fetch::TooLong);
    }
    match Vec::from_slice(alloc, bytes.as_slice()) {
        Ok(copy) => Ok(Some(copy)),
        Err(_) => Err(Fetch::Memory),
    }
}

/// Places a file. An `Err` changes nothing.
fn place(
    files: &mut IndexMap<String, Vec<u8>>,
    alloc: Global,
    name: &str,
    bytes: &[u8],
) -> Result<(), AllocError>
    ensures ok { OnOk result (HasPut name.now bytes.now (files_of files.old) (files_of files.new)) }
    ensures err { OnErr result (files_of files.new ≡ files_of files.old) }
{
    let key = String::from_str(alloc, name)?;
    let value = Vec::from_slice(alloc, bytes)?;
    files.insert(key, value)?;
    Ok(())
}

impl MemoryShelf {
    /// A shelf that holds nothing, and of whose calls none is to fail.
    pub fn new(alloc: Global) -> MemoryShelf
        ensures files { held result ≡ (λ _. None) }
        ensures plan { planned result ≡ [] }
        ensures number { next result ≡ 0 }
        ensures failures { noted result ≡ [] }
    {
        MemoryShelf {
            files: IndexMap::new(alloc),
            failing: Vec::new(alloc),
            calls: 0,
            failed: Vec::new(alloc),
        }
    }

    /// Places a file. This is no call that can be chosen to fail. An `Err` changes nothing.
    pub fn set(&mut self, name: &str, bytes: &[u8]) -> Result<(), AllocError>
        ensures ok { OnOk result (HasPut name.now bytes.now (held self.old) (held self.new)) }
        ensures err { OnErr result (held self.new ≡ held self.old) }
        ensures plan { planned self.new ≡ planned self.old }
        ensures number { next self.new ≡ next self.old }
        ensures failures { noted self.new ≡ noted self.old }
    {
        let alloc = *self.failed.allocator();
        place(&mut self.files, alloc, name, bytes)
    }

    /// Lets the call of this number fail. If it is a `put`, it keeps the first `kept` bytes, or all where there are
    /// fewer. Of several choices for one call the first counts. An `Err` changes nothing.
    pub fn fail(&mut self, call: u64, kept: u64) -> Result<(), AllocError>
        ensures ok { OnOk result (planned self.new ≡ planned self.old ++ (call, kept) ∷ []) }
        ensures err { OnErr result (planned self.new ≡ planned self.old) }
        ensures files { held self.new ≡ held self.old }
        ensures number { next self.new ≡ next self.old }
        ensures failures { noted self.new ≡ noted self.old }
    {
        self.failing.push((call, kept))?;
        Ok(())
    }

    /// The bytes under a name.
    pub fn get(&self, name: &str) -> Option<&[u8]>
        ensures { option_copied result ≡ held self.now name.now }
    {
        self.files.get(name).map(|bytes| bytes.as_slice())
    }

    /// The failures so far, one for each call that answered `Failed`, in their order.
    pub fn failures(&self) -> &[Failure]
        ensures { result.now ≡ noted self.now }
    {
        self.failed.as_slice()
    }

    /// The number of the next call of `fetch` or `put`.
    pub fn calls(&self) -> u64
        ensures { result ≡ next self.now }
    {
        self.calls
    }

    /// Writes the first `kept` bytes, and notes the failure.
    fn put_part(&mut self, name: &str, bytes: &[u8], kept: u64) -> Result<(), Give>
        ensures answer { ¬ IsErrOf result Give.Memory → result ≡ put_answer (Some kept) }
        ensures content { ¬ IsErrOf result Give.Memory →
            HasPut name.now (kept_bytes (Some kept) bytes.now) (held self.old) (held self.new) }
        ensures held { IsErrOf result Give.Memory → held self.new ≡ held self.old }
        ensures plan { planned self.new ≡ planned self.old }
        ensures number { next self.new ≡ next self.old }
        ensures noted { IsErrOf result Give.Failed → IsNoted (noted self.old) (noted self.new) true name.now }
        ensures unnoted { ¬ IsErrOf result Give.Failed → noted self.new ≡ noted self.old }
        ensures failed { IsErrOf result Give.Failed →
            Rose (failures_of true (noted self.old) name.now) (failures_of true (noted self.new) name.now) }
        ensures writes { OnlyAt name.now (failures_of true (noted self.old)) (failures_of true (noted self.new)) }
        ensures reads { failures_of false (noted self.new) ≡ failures_of false (noted self.old) }
    {
        let alloc = *self.failed.allocator();
        let failure = prepare(&mut self.failed, true, name)?;
        place(&mut self.files, alloc, name, first_bytes(bytes, kept))?;
        note(&mut self.failed, failure);
        Err(Give::Failed)
    }
}

impl Shelf for MemoryShelf {
    ghost seen = { λ s. record { files = Some (held s); read_faults = failures_of false (noted s); write_faults = failures_of true (noted s) } };

    fn fetch(&mut self, alloc: Global, name: &str, limit: usize) -> Result<Vec<u8>, Fetch>
        ensures within { IfOk result (λ bytes. length bytes.items ≤ limit) }
        ensures bytes { IfOk result (λ bytes. IsHeld (Some (held self.old)) name.now bytes.items) }
        ensures held { Some (held self.new) ≡ Some (held self.old) }
        ensures too_long { IsErrOf result Fetch.TooLong → IsLonger (Some (held self.old)) name.now limit }
        ensures limited { IsErrOf result Fetch.TooLong → limit < usize.MAX }
        ensures failed { IsErrOf result Fetch.Failed →
            Rose (failures_of false (noted self.old) name.now) (failures_of false (noted self.new) name.now) }
        ensures absent { IsAbsent (Some (held self.old)) name.now → ¬ IsErrOf result Fetch.Memory →
            Rose (failures_of false (noted self.old) name.now) (failures_of false (noted self.new) name.now) }
        ensures unfailed { ¬ IsErrOf result Fetch.Failed →
            failures_of false (noted self.new) ≡ failures_of false (noted self.old) }
        ensures reads { OnlyAt name.now (failures_of false (noted self.old)) (failures_of false (noted self.new)) }
        ensures writes { failures_of true (noted self.new) ≡ failures_of true (noted self.old) }

        // What this shelf adds: each call has its number, and its answer is exact unless memory runs out.
        ensures call { TakesCall self.old self.new }
        ensures exact { ¬ IsErrOf result Fetch.Memory → result_map_both (λ bytes. bytes.items) (λ why. why) result ≡
            fetched (next_kept self.old) (held self.old name.now) limit }
        ensures noted { IsErrOf result Fetch.Failed → IsNoted (noted self.old) (noted self.new) false name.now }
        ensures unnoted { ¬ IsErrOf result Fetch.Failed → noted self.new ≡ noted self.old }
    {
        let fails = kept_by_call(self.failing.as_slice(), self.calls).is_some();
        self.calls = self.calls.saturating_add(1);
        let found = if fails {
            None
        } else {
            copy_of(alloc, &self.files, name, limit)?
        };
        if let Some(bytes) = found {
            return Ok(bytes);
        }
        let failure = prepare(&mut self.failed, false, name)?;
        note(&mut self.failed, failure);
        Err(Fetch::Failed)
    }

    fn put(&mut self, name: &str, bytes: &[u8]) -> Result<(), Give>
        ensures ok { OnOk result
            (Changes (Some (held self.old)) (Some (held self.new)) (HasPut name.now bytes.now)) }
        ensures prefix { IsErrOf result Give.Failed →
            Changes (Some (held self.old)) (Some (held self.new)) (HasPutPrefix name.now bytes.now) }
        ensures held { IsErrOf result Give.Memory → Some (held self.new) ≡ Some (held self.old) }
        ensures failed { IsErrOf result Give.Failed →
            Rose (failures_of true (noted self.old) name.now) (failures_of true (noted self.new) name.now) }
        ensures unfailed { ¬ IsErrOf result Give.Failed →
            failures_of true (noted self.new) ≡ failures_of true (noted self.old) }
        ensures writes { OnlyAt name.now (failures_of true (noted self.old)) (failures_of true (noted self.new)) }
        ensures reads { failures_of false (noted self.new) ≡ failures_of false (noted self.old) }

        // What this shelf adds: each call has its number, and what it does is exact unless memory runs out.
        ensures call { TakesCall self.old self.new }
        ensures answer { ¬ IsErrOf result Give.Memory → result ≡ put_answer (next_kept self.old) }
        ensures content { ¬ IsErrOf result Give.Memory →
            HasPut name.now (kept_bytes (next_kept self.old) bytes.now) (held self.old) (held self.new) }
        ensures noted { IsErrOf result Give.Failed → IsNoted (noted self.old) (noted self.new) true name.now }
        ensures unnoted { ¬ IsErrOf result Give.Failed → noted self.new ≡ noted self.old }
    {
        let kept = kept_by_call(self.failing.as_slice(), self.calls);
        self.calls = self.calls.saturating_add(1);
        match kept {
            Some(kept) => self.put_part(name, bytes, kept),
            None => Ok(self.set(name, bytes)?),
        }
    }
}
