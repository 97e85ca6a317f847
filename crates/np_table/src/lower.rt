//! Entries are lowered until each step allows them.
ghost use Rattle.std.specs.Prelude.{◌≡◌, ◌<◌, ◌≤◌, ◌+◌, ◌∷◌, [], ℕ, length, All};
ghost use Rattle.std.specs.Prelude.{IfOk, OnOk, false, Some, None, if◌then◌else◌};
ghost use Rattle.np_flat.specs.Flats.{IsStateOf, AreSmall};
ghost use Rattle.np_flat.specs.States.{holds};
ghost use Rattle.np_relax.specs.Needing.{needs_of, IsNeeding};
ghost use Rattle.np_relax.specs.Closed.{IsLeast, on};
ghost use Rattle.np_table.specs.Tables.{reach, larger, IsGreatest, at};
ghost use Rattle.np_table.specs.Lowering.{capped, is_below, weight, lowered, settled, all_settled, AreUnits};
ghost use Rattle.np_table.specs.Waiting.{left, IsWaiting};

use crate::waiting::Waiting;
use np_flat::{Flat, FlatState, Subgoal};
use np_relax::Needing;
use std::alloc::{AllocError, Global};

/// The greatest number of an entry.
const MOST: u64 = 4611686018427387903;

/// The larger entry; none is larger than each number.
fn larger(a: Option<u64>, b: Option<u64>) -> Option<u64>
    ensures { result ≡ larger a b }
{
    match (a, b) {
        (Some(m), Some(n)) => Some(m.max(n)),
        _ => None,
    }
}

/// The largest of the entries that have these numbers, 0 where there are none. No entry is larger than each number. It takes no
/// memory.
pub fn reached(entries: &[Option<u64>], numbers: &[u32]) -> Option<u64>
    requires { All (λ q. q < length entries.now) numbers.now }
    ensures { result ≡ reach (at entries.now) numbers.now }
{
    let mut most = Some(0);
    for number in numbers {
        most = larger(most, entries[*number as usize]);
    }
    most
}

/// The sum, or the greatest number of an entry.
pub(crate) fn capped_sum(a: u64, b: u64) -> u64
    ensures { result ≡ capped (a + b) }
{
    a.saturating_add(b).min(MOST)
}

/// Whether a number is below an entry.
fn is_below(number: u64, entry: Option<u64>) -> bool
    ensures { result ≡ is_below number entry }
{
    match entry {
        Some(other) => number < other,
        None => true,
    }
}

/// What a step adds to its reach.
fn weight(flat: &Flat, units: &[u64], step: u32, subgoal: u32) -> u64
    requires step { step < length flat.now.steps }
    requires subgoal { subgoal < length flat.now.subgoals }
    requires units { length units.now ≡ length flat.now.subgoals }
    ensures { result ≡ weight flat.now units.now step subgoal }
{
    match &flat.parts().subgoals.as_slice()[subgoal as usize] {
        Subgoal::Form(_) => units[subgoal as usize],
        _ => flat.parts().steps.as_slice()[step as usize].cost,
    }
}

/// What the step of this number needs.
pub(crate) fn needs(flat: &Flat, step: u32) -> &[u32]
    requires { step < length flat.now.steps }
    ensures needs { result.now ≡ needs_of flat.now step }
    ensures within { All (λ q. q < length flat.now.subgoals) result.now }
{
    flat.parts().steps.as_slice()[step as usize]
        .needs
        .as_slice()
}

/// Lowers what a step of this reach achieves; what is lowered waits.
fn lower(
    flat: &Flat,
    units: &[u64],
    step: u32,
    reach: u64,
    subgoals: &[u32],
    entries: &mut Vec<Option<u64>>,
    waiting: &mut Waiting,
) -> Result<(), AllocError>
    requires step { step < length flat.now.steps }
    requires subgoals { All (λ q. q < length flat.now.subgoals) subgoals.now }
    requires units { length units.now ≡ length flat.now.subgoals }
    requires entries { length entries.old.items ≡ length flat.now.subgoals }
    requires waiting { IsWaiting waiting.old }
    requires marks { length waiting.old.marks.items ≡ length flat.now.subgoals }
    ensures lowered { OnOk result (
        (entries.new.items, waiting.new.marks.items)
        ≡ lowered flat.now units.now step reach subgoals.now entries.old.items waiting.old.marks.items) }
    ensures waiting { OnOk result (IsWaiting waiting.new) }
    ensures fewer { OnOk result (left entries.new.items waiting.new ≤ left entries.old.items waiting.old) }
{
    for subgoal in subgoals {
        lower_one(flat, units, step, reach, *subgoal, entries, waiting)?;
    }
    Ok(())
}

/// Lowers the entry of a subgoal to what a step of this reach allows; a subgoal whose entry is lowered waits.
fn lower_one(
    flat: &Flat,
    units: &[u64],
    step: u32,
    reach: u64,
    subgoal: u32,
    entries: &mut Vec<Option<u64>>,
    waiting: &mut Waiting,
) -> Result<(), AllocError>
    requires step { step < length flat.now.steps }
    requires subgoal { subgoal < length flat.now.subgoals }
    requires units { length units.now ≡ length flat.now.subgoals }
    requires entries { length entries.old.items ≡ length flat.now.subgoals }
    requires waiting { IsWaiting waiting.old }
    requires marks { length waiting.old.marks.items ≡ length flat.now.subgoals }
    ensures lowered { OnOk result (
        (entries.new.items, waiting.new.marks.items)
        ≡ lowered flat.now units.now step reach (subgoal ∷ []) entries.old.items waiting.old.marks.items) }
    ensures waiting { OnOk result (IsWaiting waiting.new) }
    ensures fewer { OnOk result (left entries.new.items waiting.new ≤ left entries.old.items waiting.old) }
{
    let entry = capped_sum(weight(flat, units, step, subgoal), reach);
    if is_below(entry, entries[subgoal as usize]) {
        waiting.put(entry, subgoal)?;
        entries[subgoal as usize] = Some(entry);
    }
    Ok(())
}

/// Lowers what the step achieves, where all its needs have numbers.
fn settle(
    flat: &Flat,
    units: &[u64],
    step: u32,
    achieved: &mut Vec<u32>,
    entries: &mut Vec<Option<u64>>,
    waiting: &mut Waiting,
) -> Result<(), AllocError>
    requires step { step < length flat.now.steps }
    requires units { length units.now ≡ length flat.now.subgoals }
    requires entries { length entries.old.items ≡ length flat.now.subgoals }
    requires waiting { IsWaiting waiting.old }
    requires marks { length waiting.old.marks.items ≡ length flat.now.subgoals }
    ensures settled { OnOk result (
        (entries.new.items, waiting.new.marks.items) ≡ settled flat.now units.now step entries.old.items waiting.old.marks.items) }
    ensures waiting { OnOk result (IsWaiting waiting.new) }
    ensures fewer { OnOk result (left entries.new.items waiting.new ≤ left entries.old.items waiting.old) }
{
    match reached(entries.as_slice(), needs(flat, step)) {
        Some(reach) => {
            flat.achieved_in(step, achieved)?;
            lower(
                flat,
                units,
                step,
                reach,
                achieved.as_slice(),
                entries,
                waiting,
            )
        }
        None => Ok(()),
    }
}

/// The same of these steps, one after the other.
fn settle_all(
    flat: &Flat,
    units: &[u64],
    steps: &[u32],
    achieved: &mut Vec<u32>,
    entries: &mut Vec<Option<u64>>,
    waiting: &mut Waiting,
) -> Result<(), AllocError>
    requires steps { All (λ n. n < length flat.now.steps) steps.now }
    requires units { length units.now ≡ length flat.now.subgoals }
    requires entries { length entries.old.items ≡ length flat.now.subgoals }
    requires waiting { IsWaiting waiting.old }
    requires marks { length waiting.old.marks.items ≡ length flat.now.subgoals }
    ensures settled { OnOk result (
        (entries.new.items, waiting.new.marks.items) ≡ all_settled flat.now units.now steps.now entries.old.items waiting.old.marks.items) }
    ensures waiting { OnOk result (IsWaiting waiting.new) }
    ensures fewer { OnOk result (left entries.new.items waiting.new ≤ left entries.old.items waiting.old) }
{
    for step in steps {
        settle(flat, units, *step, achieved, entries, waiting)?;
    }
    Ok(())
}

/// 0 for what holds in the state, else none.
fn begin(alloc: Global, flat: &Flat, state: &FlatState) -> Result<Vec<Option<u64>>, AllocError>
    requires state { IsStateOf flat.now state.now }
    requires small { AreSmall state.now.values }
    ensures count { IfOk result (λ entries. length entries.items ≡ length flat.now.subgoals) }
    ensures begun { IfOk result (λ entries. (q : ℕ) → q < length flat.now.subgoals →
        at entries.items q ≡ (if holds flat.now state.now q then Some 0 else None)) }
{
    let count = flat.parts().subgoals.len();
    let mut entries = Vec::new(alloc);
    for subgoal in 0..count {
        let entry = if flat.holds(subgoal as u32, state) {
            Some(0)
        } else {
            None
        };
        entries.push(entry)?;
    }
    Ok(entries)
}

/// The entries of the greatest table at a state, by the least share of each form.
pub(crate) fn entries(
    alloc: Global,
    flat: &Flat,
    needing: &Needing,
    state: &FlatState,
    can: &[bool],
    units: &[u64],
) -> Result<Vec<Option<u64>>, AllocError>
    requires needing { IsNeeding flat.now needing.now }
    requires state { IsStateOf flat.now state.now }
    requires small { AreSmall state.now.values }
    requires can { IsLeast flat.now state.now (λ n. false) (on can.now) }
    requires count { length units.now ≡ length flat.now.subgoals }
    requires units { AreUnits flat.now state.now (on can.now) units.now }
    ensures greatest { IfOk result (λ entries. IsGreatest flat.now state.now (at entries.items)) }
    ensures count { IfOk result (λ entries. length entries.items ≡ length flat.now.subgoals) }
{
    let mut entries = begin(alloc, flat, state)?;
    let mut waiting = Waiting::new(alloc, flat.parts().subgoals.len())?;
    let mut achieved = Vec::new(alloc);
    let count = flat.parts().steps.len();
    for step in 0..count {
        settle(
            flat,
            units,
            step as u32,
            &mut achieved,
            &mut entries,
            &mut waiting,
        )?;
    }
    while let Some(subgoal) = waiting.take() {
        settle_all(
            flat,
            units,
            needing.of(subgoal),
            &mut achieved,
            &mut entries,
            &mut waiting,
        )?;
    }
    Ok(entries)
}
