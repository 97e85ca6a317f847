//! Lists of steps from a state, and where they lead.
use crate::slow::{change, has, holds, is_on};
use np_flat::{FlatState, FlatStep, Parts};
use sqlite_items::Items;
use std::process::Abort;

/// Whether all of these subgoals hold.
fn all_hold(parts: &Parts, state: &FlatState, numbers: &[u32]) -> bool {
    let subgoals = parts.subgoals.as_slice();
    numbers.iter().all(|number| match subgoals.get(*number as usize) {
        Some(subgoal) => holds(state, subgoal),
        None => false,
    })
}

/// The facts that are true after a step.
fn facts_after(
    rt: &(impl Abort + AllocGlobal),
    parts: &Parts,
    step: &FlatStep,
    facts: &[u32],
) -> Items<u32> {
    let mut after = Items::new(rt.alloc());
    let mut number: u32 = 0;
    for _ in parts.facts.as_slice() {
        let stays = has(facts, number) && !has(step.deletes.as_slice(), number);
        if stays || has(step.adds.as_slice(), number) {
            after.push(number).expect(rt, "memory");
        }
        number = number.saturating_add(1);
    }
    after
}

/// The values after a step.
fn values_after(rt: &(impl Abort + AllocGlobal), step: &FlatStep, values: &[i128]) -> Items<i128> {
    let mut after = Items::new(rt.alloc());
    let mut number: usize = 0;
    for value in values {
        let sum = value.saturating_add(change(step, number));
        after.push(sum).expect(rt, "memory");
        number = number.saturating_add(1);
    }
    after
}

/// The state after a step; None where it isn't applicable.
fn after(
    rt: &(impl Abort + AllocGlobal),
    parts: &Parts,
    step: &FlatStep,
    state: &FlatState,
) -> Option<FlatState> {
    if !all_hold(parts, state, step.needs.as_slice()) {
        return None;
    }
    Some(FlatState {
        facts: facts_after(rt, parts, step, state.facts.as_slice()),
        values: values_after(rt, step, state.values.as_slice()),
    })
}

/// A state, and what it costs to come there.
#[derive(Drop)]
pub struct Reached {
    pub state: FlatState,
    pub cost: u64,
}

/// The same state.
fn copy(rt: &(impl Abort + AllocGlobal), state: &FlatState) -> FlatState {
    FlatState {
        facts: Items::from_slice(rt.alloc(), state.facts.as_slice()).expect(rt, "memory"),
        values: Items::from_slice(rt.alloc(), state.values.as_slice()).expect(rt, "memory"),
    }
}

/// Puts what each step that isn't removed leads to from a state at the end.
fn put_next(
    rt: &(impl Abort + AllocGlobal),
    parts: &Parts,
    removed: &[bool],
    reached: &Reached,
    next: &mut Vec<Reached>,
) {
    let mut number: usize = 0;
    for step in parts.steps.as_slice() {
        if !is_on(removed, number) {
            if let Some(state) = after(rt, parts, step, &reached.state) {
                let cost = reached.cost.saturating_add(step.cost);
                next.push(Reached { state, cost }).expect(rt, "memory");
            }
        }
        number = number.saturating_add(1);
    }
}

/// Where each list of as many steps more leads.
fn next_layer(
    rt: &(impl Abort + AllocGlobal),
    parts: &Parts,
    removed: &[bool],
    layer: &[Reached],
) -> Vec<Reached> {
    let mut next = Vec::new(rt.alloc());
    for reached in layer {
        put_next(rt, parts, removed, reached, &mut next);
    }
    next
}

/// Whether the entry of each subgoal that holds is at most the cost; none is above all costs.
fn is_under(parts: &Parts, reached: &Reached, entries: &[Option<u64>]) -> bool {
    let mut number: usize = 0;
    for subgoal in parts.subgoals.as_slice() {
        let entry = entries.get(number).copied().unwrap_or(None);
        if holds(&reached.state, subgoal) && entry.is_none_or(|least| least > reached.cost) {
            return false;
        }
        number = number.saturating_add(1);
    }
    true
}

/// Whether no list of up to four steps that aren't removed comes to a subgoal at less than its entry.
pub fn bound_lists(
    rt: &(impl Abort + AllocGlobal),
    parts: &Parts,
    state: &FlatState,
    removed: &[bool],
    entries: &[Option<u64>],
) -> bool {
    let mut layer = Vec::new(rt.alloc());
    let state = copy(rt, state);
    layer.push(Reached { state, cost: 0 }).expect(rt, "memory");
    for _ in 0..=4 {
        if !layer
            .as_slice()
            .iter()
            .all(|reached| is_under(parts, reached, entries))
        {
            return false;
        }
        layer = next_layer(rt, parts, removed, layer.as_slice());
    }
    true
}
