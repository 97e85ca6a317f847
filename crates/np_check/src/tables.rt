//! Tables as reasons: whether the numbers of one support the bound of an entry.
ghost use Rattle.std.specs.Prelude.{◌≡◌, ◌<◌, ◌↔◌, length, map, All, IsTrue, IfOk, OnOk, Some};
ghost use Rattle.np_flat.specs.Flats.{AreNumbers};
ghost use Rattle.np_table.specs.Tables.{reach, at};
ghost use Rattle.np_cert.specs.Valid.{at_most, is_small, as_entry, as_limit, IsFitting, IsTabled};
ghost use Rattle.np_check.specs.Listed.{AreListed, IsFilled, put_all};

use np_cert::{Entry, Limit};
use np_flat::Flat;
use np_table::{Judge, reached};
use std::alloc::{AllocError, Global};

/// Judges tables. It keeps its memory from entry to entry; whatever it holds, the verdict is the same.
#[derive(Drop)]
pub struct Tables {
    judge: Judge,
    // By subgoal, what the table in hand gives it.
    numbers: Vec<Option<u64>>,
}

impl Tables {
    /// It takes no memory until its first call.
    pub fn new(alloc: Global) -> Tables {
        Tables {
            judge: Judge::new(alloc),
            numbers: Vec::new(alloc),
        }
    }

    /// Whether a table supports the bound of an entry that fits. Out of memory is an error.
    pub fn is_tabled(
        &mut self,
        flat: &Flat,
        entry: &Entry,
        listed: &[(u128, Limit)],
    ) -> Result<bool, AllocError>
        requires fitting { IsFitting flat.now entry.now }
        ensures { IfOk result (λ good. IsTrue good ↔ IsTabled flat.now entry.now listed.now) }
    {
        if !are_listed(flat.parts().subgoals.len(), listed) {
            return Ok(false);
        }
        decide(flat, entry, listed, &mut self.judge, &mut self.numbers)
    }
}

/// Whether these are small numbers of ascending subgoals of so many.
fn are_listed(subgoals: usize, listed: &[(u128, Limit)]) -> bool
    ensures { IsTrue result ↔ AreListed subgoals listed.now }
{
    are_ascending(subgoals, listed) && listed.iter().all(|(_, number)| number.is_small())
}

/// Whether the subgoals ascend, and are below the limit.
fn are_ascending(limit: usize, listed: &[(u128, Limit)]) -> bool
    ensures { IsTrue result ↔ AreNumbers limit (map (λ x. x.0) listed.now) }
{
    let mut least = 0;
    for (subgoal, _) in listed {
        if *subgoal < least || limit as u128 <= *subgoal {
            return false;
        }
        least = *subgoal + 1;
    }
    true
}

/// Makes the numbers those that are listed, by subgoal, 0 where none is.
fn fill(
    subgoals: usize,
    listed: &[(u128, Limit)],
    numbers: &mut Vec<Option<u64>>,
) -> Result<(), AllocError>
    requires { AreListed subgoals listed.now }
    ensures { OnOk result (IsFilled subgoals listed.now numbers.new.items) }
{
    clear(subgoals, numbers)?;
    put_all(listed, numbers);
    Ok(())
}

/// Makes it so many zeros.
fn clear(count: usize, numbers: &mut Vec<Option<u64>>) -> Result<(), AllocError>
    ensures count { OnOk result (length numbers.new.items ≡ count) }
    ensures zeros { OnOk result (All (λ e. e ≡ Some 0) numbers.new.items) }
{
    numbers.clear();
    for _ in 0..count {
        numbers.push(Some(0))?;
    }
    Ok(())
}

/// Puts each number in the place of its subgoal.
fn put_all(listed: &[(u128, Limit)], numbers: &mut Vec<Option<u64>>)
    requires { AreListed (length numbers.old.items) listed.now }
    ensures { numbers.new.items ≡ put_all listed.now numbers.old.items }
{
    for (subgoal, number) in listed {
        numbers[*subgoal as usize] = as_entry(*number);
    }
}

/// A small limit as an entry of a table.
fn as_entry(limit: Limit) -> Option<u64>
    requires { IsTrue (is_small limit) }
    ensures { result ≡ as_entry limit }
{
    match limit {
        Limit::Number(number) => Some(number as u64),
        Limit::Absent => None,
    }
}

/// An entry of a table as a limit.
fn as_limit(entry: Option<u64>) -> Limit
    ensures { result ≡ as_limit entry }
{
    match entry {
        Some(number) => Limit::Number(u128::from(number)),
        None => Limit::Absent,
    }
}

/// Whether listed numbers support the bound of an entry that fits, with memory for it.
fn decide(
    flat: &Flat,
    entry: &Entry,
    listed: &[(u128, Limit)],
    judge: &mut Judge,
    numbers: &mut Vec<Option<u64>>,
) -> Result<bool, AllocError>
    requires fitting { IsFitting flat.now entry.now }
    requires listed { AreListed (length flat.now.subgoals) listed.now }
    ensures { IfOk result (λ good. IsTrue good ↔ IsTabled flat.now entry.now listed.now) }
{
    let parts = flat.parts();
    fill(parts.subgoals.len(), listed, numbers)?;
    let most = reached(numbers.as_slice(), parts.goal.as_slice());
    if !entry.bound.at_most(as_limit(most)) {
        return Ok(false);
    }
    judge.is_table(flat, &entry.state, numbers.as_slice())
}
