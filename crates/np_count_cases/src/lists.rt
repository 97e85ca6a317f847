//! Lists of steps from a state: the cheapest of those that lead to a goal.
use crate::slow::{ABSENT, change, holds};
use np_flat::{FlatState, FlatStep, Parts};
use sqlite_items::Items;
use std::process::Abort;

/// Whether all of these subgoals hold.
fn all_hold(parts: &Parts, state: &FlatState, numbers: &[u32]) -> bool {
    numbers
        .iter()
        .all(|number| holds(parts, state, u64::from(*number)))
}

/// Whether a number is in a list.
fn has(numbers: &[u32], number: u32) -> bool {
    numbers.iter().any(|other| *other == number)
}

/// The facts that are true after a step.
fn facts_after(
    rt: &(impl Abort + AllocGlobal),
    parts: &Parts,
    step: &FlatStep,
    facts: &[u32],
) -> Items<u32> {
    let mut after = Items::new(rt.alloc());
    let mut number: u32 = 0;
    for _ in parts.facts.as_slice() {
        let stays = has(facts, number) && !has(step.deletes.as_slice(), number);
        if stays || has(step.adds.as_slice(), number) {
            after.push(number).expect(rt, "memory");
        }
        number = number.saturating_add(1);
    }
    after
}

/// The values after a step.
fn values_after(rt: &(impl Abort + AllocGlobal), step: &FlatStep, values: &[i128]) -> Items<i128> {
    let mut after = Items::new(rt.alloc());
    let mut number: usize = 0;
    for value in values {
        let sum = value.saturating_add(change(step, number));
        after.push(sum).expect(rt, "memory");
        number = number.saturating_add(1);
    }
    after
}

/// The state after a step; None where it isn't applicable.
fn after(
    rt: &(impl Abort + AllocGlobal),
    parts: &Parts,
    step: &FlatStep,
    state: &FlatState,
) -> Option<FlatState> {
    if !all_hold(parts, state, step.needs.as_slice()) {
        return None;
    }
    Some(FlatState {
        facts: facts_after(rt, parts, step, state.facts.as_slice()),
        values: values_after(rt, step, state.values.as_slice()),
    })
}

/// A state, and what it costs to come there.
#[derive(Drop)]
struct Reached {
    state: FlatState,
    cost: u128,
}

/// The same state.
fn copy(rt: &(impl Abort + AllocGlobal), state: &FlatState) -> FlatState {
    FlatState {
        facts: Items::from_slice(rt.alloc(), state.facts.as_slice()).expect(rt, "memory"),
        values: Items::from_slice(rt.alloc(), state.values.as_slice()).expect(rt, "memory"),
    }
}

/// Puts what each step leads to from a state at the end.
fn put_next(
    rt: &(impl Abort + AllocGlobal),
    parts: &Parts,
    reached: &Reached,
    next: &mut Vec<Reached>,
) {
    for step in parts.steps.as_slice() {
        if let Some(state) = after(rt, parts, step, &reached.state) {
            let cost = reached.cost.saturating_add(u128::from(step.cost));
            next.push(Reached { state, cost }).expect(rt, "memory");
        }
    }
}

/// The least cost among the goals; ABSENT where there is none.
fn least_goal(parts: &Parts, layer: &[Reached]) -> u128 {
    let mut least = ABSENT;
    for reached in layer {
        if all_hold(parts, &reached.state, parts.goal.as_slice()) {
            least = least.min(reached.cost);
        }
    }
    least
}

/// The least cost of a list of up to four steps from a state to a goal; ABSENT where there is none.
pub fn cheapest(rt: &(impl Abort + AllocGlobal), parts: &Parts, state: &FlatState) -> u128 {
    let mut layer = Vec::new(rt.alloc());
    let state = copy(rt, state);
    layer.push(Reached { state, cost: 0 }).expect(rt, "memory");
    let mut least = least_goal(parts, layer.as_slice());
    for _ in 0..4 {
        let mut next = Vec::new(rt.alloc());
        for reached in layer.as_slice() {
            put_next(rt, parts, reached, &mut next);
        }
        least = least.min(least_goal(parts, next.as_slice()));
        layer = next;
    }
    least
}
