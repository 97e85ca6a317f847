//! The least set of subgoals that can come to hold.
ghost use Rattle.std.specs.Prelude.{◌≡◌, ◌<◌, ◌≤◌, ℕ, true, false, Some, length, get_or, All, IfOk, OnOk};
ghost use Rattle.np_flat.specs.Flats.{IsStateOf, AreSmall};
ghost use Rattle.np_flat.specs.States.{holds};
ghost use Rattle.np_relax.specs.Closed.{IsLeast, on};
ghost use Rattle.np_relax.specs.Needing.{IsNeeding};
ghost use Rattle.np_relax.specs.Work.{turned, fired, handled, IsWatching};

use crate::needing::{Needing, needs};
use np_flat::{Flat, FlatState};
use np_state::BitRow;
use std::alloc::{AllocError, Global};

/// By subgoal, whether it can come to hold.
#[derive(Debug, Drop)]
pub struct Reached {
    pub can: Vec<bool>,
}

/// The least set of subgoals that has each one that holds in the state, and each one that a step achieves that isn't removed
/// and whose needs are all in the set. By `runs_stay_in` a subgoal outside it holds after no run of steps that aren't
/// removed. `needing` is made once per task, and `removed` has one bit per step. Out of memory is an error.
pub fn reach(
    alloc: Global,
    flat: &Flat,
    needing: &Needing,
    state: &FlatState,
    removed: &BitRow,
) -> Result<Reached, AllocError>
    requires needing { IsNeeding flat.now needing.now }
    requires state { IsStateOf flat.now state.now }
    requires small { AreSmall state.now.values }
    requires removed { length removed.now ≡ length flat.now.steps }
    ensures least { IfOk result (λ reached. IsLeast flat.now state.now (on removed.now) (on reached.can.items)) }
    ensures count { IfOk result (λ reached. length reached.can.items ≡ length flat.now.subgoals) }
{
    let mut can = held(alloc, flat, state)?;
    let mut work = Vec::new(alloc);
    let mut achieved = Vec::new(alloc);
    let count = flat.parts().steps.len();
    let mut watched = first_needs(alloc, count)?;
    for step in 0..count {
        fire(
            flat,
            removed,
            step as u32,
            &mut can,
            &mut work,
            &mut watched,
            &mut achieved,
        )?;
    }
    while let Some(subgoal) = work.pop() {
        handle(
            flat,
            removed,
            needing.of(subgoal),
            &mut can,
            &mut work,
            &mut watched,
            &mut achieved,
        )?;
    }
    Ok(Reached { can })
}

/// Which subgoals hold in the state.
fn held(alloc: Global, flat: &Flat, state: &FlatState) -> Result<Vec<bool>, AllocError>
    requires state { IsStateOf flat.now state.now }
    requires small { AreSmall state.now.values }
    ensures count { IfOk result (λ can. length can.items ≡ length flat.now.subgoals) }
    ensures held { IfOk result (λ can. (q : ℕ) → q < length flat.now.subgoals → on can.items q ≡ holds flat.now state.now q) }
{
    let count = flat.parts().subgoals.len();
    let mut can = Vec::new(alloc);
    for subgoal in 0..count {
        can.push(flat.holds(subgoal as u32, state))?;
    }
    Ok(can)
}

/// Looks at each of these steps in turn. By step, `watched` has the place of the need that it waits for, or none once it is done:
/// all needs before that place are on, so none is looked at twice.
fn handle(
    flat: &Flat,
    removed: &BitRow,
    steps: &[u32],
    can: &mut Vec<bool>,
    work: &mut Vec<u32>,
    watched: &mut Vec<Option<usize>>,
    achieved: &mut Vec<u32>,
) -> Result<(), AllocError>
    requires removed { length removed.now ≡ length flat.now.steps }
    requires steps { All (λ n. n < length flat.now.steps) steps.now }
    requires can { length can.old.items ≡ length flat.now.subgoals }
    requires watched { IsWatching flat.now can.old.items watched.old.items }
    ensures turned { OnOk result ((can.new.items, work.new.items) ≡ handled flat.now removed.now steps.now can.old.items work.old.items) }
    ensures watched { OnOk result (IsWatching flat.now can.new.items watched.new.items) }
{
    for step in steps {
        fire(flat, removed, *step, can, work, watched, achieved)?;
    }
    Ok(())
}

/// Turns on what the step achieves, where it isn't removed and all its needs are on; where one is off it is watched.
fn fire(
    flat: &Flat,
    removed: &BitRow,
    step: u32,
    can: &mut Vec<bool>,
    work: &mut Vec<u32>,
    watched: &mut Vec<Option<usize>>,
    achieved: &mut Vec<u32>,
) -> Result<(), AllocError>
    requires removed { length removed.now ≡ length flat.now.steps }
    requires step { step < length flat.now.steps }
    requires can { length can.old.items ≡ length flat.now.subgoals }
    requires watched { IsWatching flat.now can.old.items watched.old.items }
    ensures turned { OnOk result ((can.new.items, work.new.items) ≡ fired flat.now removed.now step can.old.items work.old.items) }
    ensures watched { OnOk result (IsWatching flat.now can.new.items watched.new.items) }
{
    let Some(from) = watched[step as usize] else {
        return Ok(());
    };
    if removed.get(step as usize) {
        return Ok(());
    }
    let needs = needs(flat, step);
    let place = first_off(can.as_slice(), needs, from);
    if place < needs.len() {
        watched[step as usize] = Some(place);
        return Ok(());
    }
    watched[step as usize] = None;
    flat.achieved_in(step, achieved)?;
    turn_on(can, work, achieved.as_slice())
}

/// The first place from the given one on whose number is off, or the end.
fn first_off(can: &[bool], numbers: &[u32], from: usize) -> usize
    requires { All (λ q. q < length can.now) numbers.now }
    ensures on { (i : ℕ) → from ≤ i → i < result → on can.now (get_or numbers.now i 0) ≡ true }
    ensures off { result < length numbers.now → on can.now (get_or numbers.now result 0) ≡ false }
{
    let mut place = from;
    while place < numbers.len() && can[numbers[place] as usize] {
        place += 1;
    }
    place
}

/// The first place for each of so many steps.
fn first_needs(alloc: Global, count: usize) -> Result<Vec<Option<usize>>, AllocError>
    ensures count { IfOk result (λ watched. length watched.items ≡ count) }
    ensures first { IfOk result (λ watched. All (λ w. w ≡ Some 0) watched.items) }
{
    let mut watched = Vec::new(alloc);
    for _ in 0..count {
        watched.push(Some(0))?;
    }
    Ok(watched)
}

/// Turns each of these on; those that were off wait.
fn turn_on(can: &mut Vec<bool>, work: &mut Vec<u32>, numbers: &[u32]) -> Result<(), AllocError>
    requires { All (λ q. q < length can.old.items) numbers.now }
    ensures { OnOk result ((can.new.items, work.new.items) ≡ turned numbers.now can.old.items work.old.items) }
{
    for number in numbers {
        if !can[*number as usize] {
            work.push(*number)?;
            can[*number as usize] = true;
        }
    }
    Ok(())
}
