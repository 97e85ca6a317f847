//! The least share of each form.
ghost use Rattle.std.specs.Prelude.{◌≡◌, ◌<◌, length, All, IfOk, OnOk, Some, slice_get, if◌then◌else◌};
ghost use Rattle.std.specs.List.{list_all};
ghost use Rattle.np_flat.specs.declared.limits.TheConstants.{COST_SIZE};
ghost use Rattle.np_flat.specs.declared.parts.FlatStep.{FlatStep};
ghost use Rattle.np_flat.specs.Flats.{IsStateOf, IsForm, AreSmall};
ghost use Rattle.np_relax.specs.Closed.{on};
ghost use Rattle.np_relax.specs.Work.{achieved};
ghost use Rattle.np_table.specs.Lowering.{AreUnits};
ghost use Rattle.np_table.specs.Units.{form_share, share_by, paid};

use crate::lower::needs;
use crate::shares::share;
use np_flat::{Flat, FlatState, FlatStep, Form, Subgoal};
use std::alloc::{AllocError, Global};

/// The greatest number of an entry.
const MOST: u64 = 4611686018427387903;

/// The capped share of a step in a form that it raises; else the greatest number.
fn form_share(flat: &Flat, state: &FlatState, form: &Form, number: u32, step: &FlatStep) -> u64
    requires state { IsStateOf flat.now state.now }
    requires form { IsForm (length flat.now.values) form.now }
    requires small { AreSmall state.now.values }
    requires step { slice_get flat.now.steps number ≡ Some step.now }
    requires cost { step.now.cost < COST_SIZE }
    ensures { result ≡ form_share state.now form.now step.now }
{
    let by = flat.net(number, form);
    if by <= 0 {
        return MOST;
    }
    share(
        form.value(state).unsigned_abs(),
        step.cost,
        by.unsigned_abs(),
    )
}

/// The same of any subgoal.
fn subgoal_share(flat: &Flat, state: &FlatState, number: u32, step: &FlatStep, subgoal: u32) -> u64
    requires state { IsStateOf flat.now state.now }
    requires small { AreSmall state.now.values }
    requires step { slice_get flat.now.steps number ≡ Some step.now }
    requires cost { step.now.cost < COST_SIZE }
    requires subgoal { subgoal < length flat.now.subgoals }
    ensures { result ≡ share_by state.now (slice_get flat.now.subgoals subgoal) step.now }
{
    match &flat.parts().subgoals.as_slice()[subgoal as usize] {
        Subgoal::Form(form) => form_share(flat, state, form, number, step),
        _ => MOST,
    }
}

/// Lowers the units of these subgoals to the shares of a step.
pub(crate) fn pay(
    flat: &Flat,
    state: &FlatState,
    number: u32,
    step: &FlatStep,
    subgoals: &[u32],
    units: &mut Vec<u64>,
)
    requires state { IsStateOf flat.now state.now }
    requires small { AreSmall state.now.values }
    requires step { slice_get flat.now.steps number ≡ Some step.now }
    requires cost { step.now.cost < COST_SIZE }
    requires subgoals { All (λ q. q < length flat.now.subgoals) subgoals.now }
    requires units { length units.old.items ≡ length flat.now.subgoals }
    ensures { units.new.items ≡ paid flat.now state.now step.now subgoals.now units.old.items }
{
    for subgoal in subgoals {
        let share = subgoal_share(flat, state, number, step, *subgoal);
        let unit = units[*subgoal as usize];
        units[*subgoal as usize] = unit.min(share);
    }
}

/// Lowers the units of what a step achieves, where all its needs are in the set.
fn pay_step(
    flat: &Flat,
    state: &FlatState,
    can: &[bool],
    step: u32,
    numbers: &mut Vec<u32>,
    units: &mut Vec<u64>,
) -> Result<(), AllocError>
    requires state { IsStateOf flat.now state.now }
    requires small { AreSmall state.now.values }
    requires can { length can.now ≡ length flat.now.subgoals }
    requires step { step < length flat.now.steps }
    requires units { length units.old.items ≡ length flat.now.subgoals }
    ensures { OnOk result ((u : FlatStep) → slice_get flat.now.steps step ≡ Some u →
        units.new.items ≡ (if list_all (on can.now) u.needs
        then paid flat.now state.now u (achieved flat.now step) units.old.items else units.old.items)) }
{
    if are_on(can, needs(flat, step)) {
        flat.achieved_in(step, numbers)?;
        let taken = &flat.parts().steps.as_slice()[step as usize];
        pay(flat, state, step, taken, numbers.as_slice(), units);
    }
    Ok(())
}

/// Whether all of these are on.
fn are_on(can: &[bool], numbers: &[u32]) -> bool
    requires { All (λ q. q < length can.now) numbers.now }
    ensures { result ≡ list_all (on can.now) numbers.now }
{
    numbers.iter().all(|number| can[*number as usize])
}

/// The greatest number for each subgoal.
fn most(alloc: Global, flat: &Flat) -> Result<Vec<u64>, AllocError>
    ensures count { IfOk result (λ units. length units.items ≡ length flat.now.subgoals) }
    ensures most { IfOk result (λ units. All (λ u. u ≡ 4611686018427387903) units.items) }
{
    let count = flat.parts().subgoals.len();
    let mut units = Vec::new(alloc);
    for _ in 0..count {
        units.push(MOST)?;
    }
    Ok(units)
}

/// The least share of each form, over the steps that raise it and whose needs are in the set.
pub(crate) fn units(
    alloc: Global,
    flat: &Flat,
    state: &FlatState,
    can: &[bool],
) -> Result<Vec<u64>, AllocError>
    requires state { IsStateOf flat.now state.now }
    requires small { AreSmall state.now.values }
    requires can { length can.now ≡ length flat.now.subgoals }
    ensures units { IfOk result (λ units. AreUnits flat.now state.now (on can.now) units.items) }
    ensures count { IfOk result (λ units. length units.items ≡ length flat.now.subgoals) }
{
    let mut units = most(alloc, flat)?;
    let count = flat.parts().steps.len();
    let mut achieved = Vec::new(alloc);
    for step in 0..count {
        pay_step(flat, state, can, step as u32, &mut achieved, &mut units)?;
    }
    Ok(units)
}
