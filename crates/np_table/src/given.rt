//! Whether given entries are a table at a state.
ghost use Rattle.std.specs.Prelude.{◌≡◌, ◌↔◌, ◌<◌, ◌+◌, true, length, All, IsTrue, IfOk, OnOk, Some, None, slice_get};
ghost use Rattle.np_flat.specs.declared.parts.FlatStep.{FlatStep};
ghost use Rattle.np_flat.specs.Flats.{IsStateOf, AreSmall};
ghost use Rattle.np_flat.specs.States.{holds};
ghost use Rattle.np_relax.specs.Needing.{needs_of};
ghost use Rattle.np_table.specs.Tables.{reach, IsTable, at};
ghost use Rattle.np_table.specs.Lowering.{weight_by};
ghost use Rattle.np_table.specs.Given.{lesser, noted, noted_by, is_at_most, is_fit, limit_by, is_good, AreGood, paid_by};

use crate::lower::{capped_sum, needs, reached};
use crate::units::pay;
use np_flat::{Flat, FlatState, Subgoal};
use std::alloc::{AllocError, Global};

/// The greatest number of an entry.
const MOST: u64 = 4611686018427387903;

/// Judges whether given entries are a table. It keeps its memory from call to call; whatever it holds, the verdict is the same.
#[derive(Debug, Drop)]
pub struct Judge {
    // By subgoal, the least reach of the usable steps that achieve it; with the step's cost where the subgoal is no form.
    reaches: Vec<Option<u64>>,
    // By subgoal, the least share of these steps where it is a form.
    units: Vec<u64>,
    numbers: Vec<u32>,
}

impl Judge {
    /// A judge. It takes no memory until its first call.
    pub fn new(alloc: Global) -> Judge {
        Judge {
            reaches: Vec::new(alloc),
            units: Vec::new(alloc),
            numbers: Vec::new(alloc),
        }
    }

    /// Whether these entries, one for each subgoal, are a table at the state: below 2^62 or none, 0 where the subgoal holds, and
    /// at most what each usable step that achieves the subgoal allows. One pass over what the steps need and achieve; after
    /// the first call for a flat task it takes hardly any memory. Out of memory is an error.
    pub fn is_table(
        &mut self,
        flat: &Flat,
        state: &FlatState,
        entries: &[Option<u64>],
    ) -> Result<bool, AllocError>
        requires state { IsStateOf flat.now state.now }
        requires small { AreSmall state.now.values }
        requires count { length entries.now ≡ length flat.now.subgoals }
        ensures { IfOk result (λ good. IsTrue good ↔ IsTable flat.now state.now (at entries.now)) }
    {
        decide(
            flat,
            state,
            entries,
            &mut self.reaches,
            &mut self.units,
            &mut self.numbers,
        )
    }
}

/// The smaller of an entry and a number.
fn lesser(entry: Option<u64>, number: u64) -> u64
    ensures { result ≡ lesser entry number }
{
    match entry {
        Some(other) => other.min(number),
        None => number,
    }
}

/// Whether an entry is at most another.
fn is_at_most(entry: Option<u64>, other: Option<u64>) -> bool
    ensures { result ≡ is_at_most entry other }
{
    match (entry, other) {
        (_, None) => true,
        (None, Some(_)) => false,
        (Some(m), Some(n)) => m <= n,
    }
}

/// Whether an entry is a small number or none, and 0 where the subgoal holds.
fn is_fit(holds: bool, entry: Option<u64>) -> bool
    ensures { result ≡ is_fit holds entry }
{
    match (holds, entry) {
        (true, None) => false,
        (true, Some(n)) => n == 0,
        (false, None) => true,
        (false, Some(n)) => n <= MOST,
    }
}

/// What a subgoal is allowed: the first number where it is no form, the second where it is one.
fn weight_by(flat: &Flat, subgoal: u32, cost: u64, unit: u64) -> u64
    requires { subgoal < length flat.now.subgoals }
    ensures { result ≡ weight_by (slice_get flat.now.subgoals subgoal) cost unit }
{
    match &flat.parts().subgoals.as_slice()[subgoal as usize] {
        Subgoal::Form(_) => unit,
        _ => cost,
    }
}

/// What a subgoal is allowed at most by what is noted.
fn limit(flat: &Flat, reach: Option<u64>, unit: u64, subgoal: u32) -> Option<u64>
    requires { subgoal < length flat.now.subgoals }
    ensures { result ≡ limit_by reach (weight_by (slice_get flat.now.subgoals subgoal) 0 unit) }
{
    match reach {
        Some(reach) => Some(capped_sum(reach, weight_by(flat, subgoal, 0, unit))),
        None => None,
    }
}

/// Makes it so many entries that are none.
fn clear_reaches(reaches: &mut Vec<Option<u64>>, count: usize) -> Result<(), AllocError>
    ensures count { OnOk result (length reaches.new.items ≡ count) }
    ensures none { OnOk result (All (λ e. e ≡ None) reaches.new.items) }
{
    reaches.clear();
    for _ in 0..count {
        reaches.push(None)?;
    }
    Ok(())
}

/// Makes it the greatest number so many times.
fn clear_units(units: &mut Vec<u64>, count: usize) -> Result<(), AllocError>
    ensures count { OnOk result (length units.new.items ≡ count) }
    ensures most { OnOk result (All (λ u. u ≡ 4611686018427387903) units.new.items) }
{
    units.clear();
    for _ in 0..count {
        units.push(MOST)?;
    }
    Ok(())
}

/// Notes what a step of this cost and reach allows these subgoals.
fn note(flat: &Flat, cost: u64, reach: u64, subgoals: &[u32], reaches: &mut Vec<Option<u64>>)
    requires subgoals { All (λ q. q < length flat.now.subgoals) subgoals.now }
    requires reaches { length reaches.old.items ≡ length flat.now.subgoals }
    ensures { reaches.new.items ≡ noted flat.now cost reach subgoals.now reaches.old.items }
{
    for subgoal in subgoals {
        let allowed = capped_sum(weight_by(flat, *subgoal, cost, 0), reach);
        let before = reaches[*subgoal as usize];
        reaches[*subgoal as usize] = Some(lesser(before, allowed));
    }
}

/// Notes what a step allows to what it achieves, where it is usable.
fn note_step(
    flat: &Flat,
    state: &FlatState,
    entries: &[Option<u64>],
    step: u32,
    reaches: &mut Vec<Option<u64>>,
    units: &mut Vec<u64>,
    numbers: &mut Vec<u32>,
) -> Result<(), AllocError>
    requires state { IsStateOf flat.now state.now }
    requires small { AreSmall state.now.values }
    requires count { length entries.now ≡ length flat.now.subgoals }
    requires step { step < length flat.now.steps }
    requires reaches { length reaches.old.items ≡ length flat.now.subgoals }
    requires units { length units.old.items ≡ length flat.now.subgoals }
    ensures reaches { OnOk result (reaches.new.items ≡ noted_by flat.now step (reach (at entries.now) (needs_of flat.now step)) reaches.old.items) }
    ensures units { OnOk result ((u : FlatStep) → slice_get flat.now.steps step ≡ Some u →
        units.new.items ≡ paid_by flat.now state.now u step (reach (at entries.now) u.needs) units.old.items) }
{
    if let Some(reach) = reached(entries, needs(flat, step)) {
        flat.achieved_in(step, numbers)?;
        let taken = &flat.parts().steps.as_slice()[step as usize];
        note(flat, taken.cost, reach, numbers.as_slice(), reaches);
        pay(flat, state, step, taken, numbers.as_slice(), units);
    }
    Ok(())
}

/// Whether the entry of a subgoal is fit and within what is allowed to it.
fn is_good(
    flat: &Flat,
    state: &FlatState,
    entry: Option<u64>,
    reach: Option<u64>,
    unit: u64,
    subgoal: u32,
) -> bool
    requires state { IsStateOf flat.now state.now }
    requires small { AreSmall state.now.values }
    requires subgoal { subgoal < length flat.now.subgoals }
    ensures { result ≡ is_good flat.now (holds flat.now state.now subgoal) entry reach unit subgoal }
{
    is_fit(flat.holds(subgoal, state), entry)
        && is_at_most(entry, limit(flat, reach, unit, subgoal))
}

/// Whether all entries are fit and within what is allowed to them.
fn are_good(
    flat: &Flat,
    state: &FlatState,
    entries: &[Option<u64>],
    reaches: &[Option<u64>],
    units: &[u64],
) -> bool
    requires state { IsStateOf flat.now state.now }
    requires small { AreSmall state.now.values }
    requires entries { length entries.now ≡ length flat.now.subgoals }
    requires reaches { length reaches.now ≡ length flat.now.subgoals }
    requires units { length units.now ≡ length flat.now.subgoals }
    ensures yes { result ≡ true → AreGood flat.now state.now entries.now reaches.now units.now }
    ensures no { AreGood flat.now state.now entries.now reaches.now units.now → result ≡ true }
{
    let count = flat.parts().subgoals.len();
    for subgoal in 0..count {
        if !is_good(
            flat,
            state,
            entries[subgoal],
            reaches[subgoal],
            units[subgoal],
            subgoal as u32,
        ) {
            return false;
        }
    }
    true
}

/// Whether the entries are a table, with memory for it.
fn decide(
    flat: &Flat,
    state: &FlatState,
    entries: &[Option<u64>],
    reaches: &mut Vec<Option<u64>>,
    units: &mut Vec<u64>,
    numbers: &mut Vec<u32>,
) -> Result<bool, AllocError>
    requires state { IsStateOf flat.now state.now }
    requires small { AreSmall state.now.values }
    requires count { length entries.now ≡ length flat.now.subgoals }
    ensures { IfOk result (λ good. IsTrue good ↔ IsTable flat.now state.now (at entries.now)) }
{
    clear_reaches(reaches, flat.parts().subgoals.len())?;
    clear_units(units, flat.parts().subgoals.len())?;
    let count = flat.parts().steps.len();
    for step in 0..count {
        note_step(flat, state, entries, step as u32, reaches, units, numbers)?;
    }
    Ok(are_good(flat, state, entries, reaches.as_slice(), units.as_slice()))
}
