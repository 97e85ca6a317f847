//! The cuts of the false subgoals of the goal, alone and sharpened.
ghost use Rattle.std.specs.Prelude.{◌≡◌, ◌<◌, ℕ, ◌++◌, length, All, IfOk};
ghost use Rattle.np_flat.specs.Flats.{IsFlat, IsStateOf, AreSmall};
ghost use Rattle.np_flat.specs.States.{has, holds};
ghost use Rattle.np_relax.specs.Needing.{needs_of, IsNeeding};
ghost use Rattle.np_relax.specs.Closed.{on};
ghost use Rattle.np_cuts.specs.Cuts.{counts, outside, single_cuts, false_ones, IsSharpened, AreSharpened, AreCuts};

use np_count::Row;
use np_flat::{Flat, FlatState};
use np_relax::{Needing, reach};
use np_state::BitRow;
use sqlite_items::Items;
use std::alloc::{AllocError, Global};

/// The cut of each subgoal of the goal that is false in the state, ascending, and then the sharpened cut of each of them in the
/// same order. All are allowed, and have the right side 1 at the state. The sharpened cut of a subgoal is of all subgoals that
/// can't come to hold without the steps that the cut of it alone counts. `needing` is made once per task. Out of memory is an
/// error.
pub fn cuts(
    alloc: Global,
    flat: &Flat,
    needing: &Needing,
    state: &FlatState,
) -> Result<Vec<Row>, AllocError>
    requires needing { IsNeeding flat.now needing.now }
    requires state { IsStateOf flat.now state.now }
    requires small { AreSmall state.now.values }
    ensures { IfOk result (λ rows. AreCuts flat.now state.now rows.items) }
{
    let mut rows = single_cuts(alloc, flat, state)?;
    let mut more = sharpened_cuts(alloc, flat, needing, state)?;
    rows.append(&mut more)?;
    Ok(rows)
}

/// The subgoals of the goal.
fn goal(flat: &Flat) -> &[u32]
    ensures goal { result.now ≡ flat.now.goal }
    ensures within { All (λ q. q < length flat.now.subgoals) result.now }
    ensures kept { IsFlat flat.now }
{
    flat.parts().goal.as_slice()
}

/// The cut of each subgoal of the goal that is false in the state, alone.
fn single_cuts(alloc: Global, flat: &Flat, state: &FlatState) -> Result<Vec<Row>, AllocError>
    requires state { IsStateOf flat.now state.now }
    requires small { AreSmall state.now.values }
    ensures kept { IsFlat flat.now }
    ensures rows { IfOk result (λ rows. rows.items ≡ single_cuts (false_ones flat.now state.now flat.now.goal)) }
{
    let goal = goal(flat);
    let mut rows = Vec::new(alloc);
    for subgoal in goal {
        if !flat.holds(*subgoal, state) {
            let members = Items::from_slice(alloc, &[*subgoal as u64])?;
            rows.push(Row::Cut(members))?;
        }
    }
    Ok(rows)
}

/// The sharpened cut of each of them.
fn sharpened_cuts(
    alloc: Global,
    flat: &Flat,
    needing: &Needing,
    state: &FlatState,
) -> Result<Vec<Row>, AllocError>
    requires needing { IsNeeding flat.now needing.now }
    requires state { IsStateOf flat.now state.now }
    requires small { AreSmall state.now.values }
    ensures { IfOk result (λ rows. AreSharpened flat.now state.now (false_ones flat.now state.now flat.now.goal) rows.items) }
{
    let goal = goal(flat);
    let mut rows = Vec::new(alloc);
    for subgoal in goal {
        if !flat.holds(*subgoal, state) {
            let cut = sharpened(alloc, flat, needing, state, *subgoal)?;
            rows.push(cut)?;
        }
    }
    Ok(rows)
}

/// The sharpened cut of a subgoal.
fn sharpened(
    alloc: Global,
    flat: &Flat,
    needing: &Needing,
    state: &FlatState,
    subgoal: u32,
) -> Result<Row, AllocError>
    requires needing { IsNeeding flat.now needing.now }
    requires state { IsStateOf flat.now state.now }
    requires small { AreSmall state.now.values }
    ensures { IfOk result (IsSharpened flat.now state.now subgoal) }
{
    let removed = counted(alloc, flat, subgoal)?;
    let reached = reach(alloc, flat, needing, state, &removed)?;
    let members = outside(alloc, flat, reached.can.as_slice())?;
    Ok(Row::Cut(Items::from_vec(members)))
}

/// Which steps the cut of this subgoal alone counts.
fn counted(alloc: Global, flat: &Flat, subgoal: u32) -> Result<BitRow, AllocError>
    ensures count { IfOk result (λ removed. length removed ≡ length flat.now.steps) }
    ensures counted { IfOk result (λ removed. (n : ℕ) → n < length flat.now.steps → on removed n ≡ counts flat.now subgoal n) }
{
    let count = flat.parts().steps.len();
    let mut removed = BitRow::new(alloc, count)?;
    for step in 0..count {
        removed.set(step, counts(flat, step as u32, subgoal));
    }
    Ok(removed)
}

/// Whether the cut of this subgoal alone counts the step: the step achieves the subgoal and doesn't need it.
#[tactic(auto, using(crate::proofs::Sharp::counts_by))]
fn counts(flat: &Flat, step: u32, subgoal: u32) -> bool
    requires { step < length flat.now.steps }
    ensures { result ≡ counts flat.now subgoal step }
{
    flat.achieves(step, subgoal) && !is_among(needs(flat, step), subgoal)
}

/// What the step of this number needs.
fn needs(flat: &Flat, step: u32) -> &[u32]
    requires { step < length flat.now.steps }
    ensures { result.now ≡ needs_of flat.now step }
{
    flat.parts().steps.as_slice()[step as usize]
        .needs
        .as_slice()
}

/// Whether the number is one of these.
fn is_among(numbers: &[u32], number: u32) -> bool
    ensures { result ≡ has numbers.now number }
{
    numbers.iter().any(|other| *other == number)
}

/// The subgoals that are off, ascending.
fn outside(alloc: Global, flat: &Flat, can: &[bool]) -> Result<Vec<u64>, AllocError>
    requires { length can.now ≡ length flat.now.subgoals }
    ensures { IfOk result (λ members. members.items ≡ outside flat.now (on can.now)) }
{
    let count = flat.parts().subgoals.len();
    let mut members = Vec::new(alloc);
    for subgoal in 0..count {
        if !can[subgoal] {
            members.push(subgoal as u64)?;
        }
    }
    Ok(members)
}
