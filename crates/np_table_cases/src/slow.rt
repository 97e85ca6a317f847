//! What the definitions say of subgoals, of the least set, of tables and of cuts, in plain loops over the parts of a flat task.
use np_flat::{FlatState, FlatStep, Form, Parts, Subgoal};
use std::process::Abort;

/// Whether a number is in a list.
pub fn has(numbers: &[u32], number: u32) -> bool {
    numbers.iter().any(|other| *other == number)
}

/// The value of a form.
fn value(form: &Form, values: &[i128]) -> i128 {
    let mut sum = form.constant;
    for (number, coefficient) in form.terms.as_slice() {
        let value = values.get(*number as usize).copied().unwrap_or(0);
        sum = sum.saturating_add(coefficient.saturating_mul(value));
    }
    sum
}

/// What a step adds to the value of this number.
pub fn change(step: &FlatStep, number: usize) -> i128 {
    for (changed, amount) in step.changes.as_slice() {
        if *changed as usize == number {
            return *amount;
        }
    }
    0
}

/// What a step adds to the value of a form.
fn net(step: &FlatStep, form: &Form) -> i128 {
    let mut sum: i128 = 0;
    for (number, coefficient) in form.terms.as_slice() {
        sum = sum.saturating_add(coefficient.saturating_mul(change(step, *number as usize)));
    }
    sum
}

/// Whether a subgoal holds.
pub fn holds(state: &FlatState, subgoal: &Subgoal) -> bool {
    match subgoal {
        Subgoal::Fact(fact) => has(state.facts.as_slice(), *fact),
        Subgoal::NotFact(fact) => !has(state.facts.as_slice(), *fact),
        Subgoal::Form(form) => value(form, state.values.as_slice()) >= 0,
    }
}

/// Whether the step achieves the subgoal.
fn achieves(step: &FlatStep, subgoal: &Subgoal) -> bool {
    match subgoal {
        Subgoal::Fact(fact) => has(step.adds.as_slice(), *fact),
        Subgoal::NotFact(fact) => has(step.deletes.as_slice(), *fact),
        Subgoal::Form(form) => net(step, form) > 0,
    }
}

/// By subgoal, whether it holds.
fn held(rt: &(impl Abort + AllocGlobal), parts: &Parts, state: &FlatState) -> Vec<bool> {
    let mut held = Vec::new(rt.alloc());
    for subgoal in parts.subgoals.as_slice() {
        held.push(holds(state, subgoal)).expect(rt, "memory");
    }
    held
}

/// Whether the number is in a set.
pub fn is_on(set: &[bool], number: usize) -> bool {
    set.get(number).copied().unwrap_or(false)
}

/// Whether all that a step needs is in a set of subgoals.
fn is_ready(step: &FlatStep, set: &[bool]) -> bool {
    step.needs
        .as_slice()
        .iter()
        .all(|need| is_on(set, *need as usize))
}

/// Whether a step that isn't removed, and whose needs are in the set, achieves the subgoal.
fn is_near(parts: &Parts, removed: &[bool], set: &[bool], subgoal: &Subgoal) -> bool {
    let mut number: usize = 0;
    for step in parts.steps.as_slice() {
        if !is_on(removed, number) && is_ready(step, set) && achieves(step, subgoal) {
            return true;
        }
        number = number.saturating_add(1);
    }
    false
}

/// The set, and what steps achieve whose needs are in it.
fn grown(
    rt: &(impl Abort + AllocGlobal),
    parts: &Parts,
    removed: &[bool],
    set: &[bool],
) -> Vec<bool> {
    let mut grown = Vec::new(rt.alloc());
    let mut number: usize = 0;
    for subgoal in parts.subgoals.as_slice() {
        grown
            .push(is_on(set, number) || is_near(parts, removed, set, subgoal))
            .expect(rt, "memory");
        number = number.saturating_add(1);
    }
    grown
}

/// By subgoal, whether it can come to hold without the steps that are removed: the set grows once for each subgoal.
pub fn closure(
    rt: &(impl Abort + AllocGlobal),
    parts: &Parts,
    state: &FlatState,
    removed: &[bool],
) -> Vec<bool> {
    let mut set = held(rt, parts, state);
    for _ in parts.subgoals.as_slice() {
        set = grown(rt, parts, removed, set.as_slice());
    }
    set
}

/// The smaller entry; none is above all numbers.
fn smaller(entry: Option<u64>, other: Option<u64>) -> Option<u64> {
    match (entry, other) {
        (None, _) => other,
        (_, None) => entry,
        (Some(m), Some(n)) => Some(m.min(n)),
    }
}

/// The largest entry of what a step needs; None where one of them is none.
fn reach(step: &FlatStep, entries: &[Option<u64>]) -> Option<u64> {
    let mut largest = 0;
    for need in step.needs.as_slice() {
        let entry = entries.get(*need as usize).copied().unwrap_or(None)?;
        largest = entry.max(largest);
    }
    Some(largest)
}

/// The cost of a step; for a form, what is lacking times its cost over what it adds, rounded up.
fn weight(state: &FlatState, step: &FlatStep, subgoal: &Subgoal) -> u64 {
    let Subgoal::Form(form) = subgoal else {
        return step.cost;
    };
    let lack = value(form, state.values.as_slice()).unsigned_abs();
    let net = net(step, form).unsigned_abs();
    let paid = lack.saturating_mul(u128::from(step.cost));
    for share in 0..1000 {
        if u128::from(share).saturating_mul(net) >= paid {
            return share;
        }
    }
    1000
}

/// The least that a usable step allows a subgoal that doesn't hold: the least reach and the least weight, for a form of two steps.
fn allowed(
    parts: &Parts,
    state: &FlatState,
    entries: &[Option<u64>],
    subgoal: &Subgoal,
) -> Option<u64> {
    let mut least_reach = None;
    let mut least_weight = None;
    let mut least_sum = None;
    for step in parts.steps.as_slice() {
        if achieves(step, subgoal) {
            if let Some(reach) = reach(step, entries) {
                let weight = weight(state, step, subgoal);
                least_reach = smaller(least_reach, Some(reach));
                least_weight = smaller(least_weight, Some(weight));
                least_sum = smaller(least_sum, Some(reach.saturating_add(weight)));
            }
        }
    }
    match subgoal {
        Subgoal::Form(_) => Some(least_reach?.saturating_add(least_weight?)),
        _ => least_sum,
    }
}

/// The entries, each lowered to what is allowed.
fn lowered(
    rt: &(impl Abort + AllocGlobal),
    parts: &Parts,
    state: &FlatState,
    entries: &[Option<u64>],
) -> Vec<Option<u64>> {
    let mut lowered = Vec::new(rt.alloc());
    for subgoal in parts.subgoals.as_slice() {
        let entry = if holds(state, subgoal) {
            Some(0)
        } else {
            allowed(parts, state, entries, subgoal)
        };
        lowered.push(entry).expect(rt, "memory");
    }
    lowered
}

/// The entries of the greatest table at a state, from none for each on down, until nothing changes.
pub fn greatest(
    rt: &(impl Abort + AllocGlobal),
    parts: &Parts,
    state: &FlatState,
) -> Vec<Option<u64>> {
    let mut entries = lowered(rt, parts, state, &[]);
    for _ in 0..1000 {
        let next = lowered(rt, parts, state, entries.as_slice());
        if next.as_slice() == entries.as_slice() {
            return next;
        }
        entries = next;
    }
    entries
}

/// Whether an entry is at most another; none is above all numbers.
pub fn is_at_most(entry: Option<u64>, other: Option<u64>) -> bool {
    match (entry, other) {
        (_, None) => true,
        (None, Some(_)) => false,
        (Some(m), Some(n)) => m <= n,
    }
}

/// Whether small entries are a table: 0 for what holds, and for all else no more than what is allowed.
pub fn is_table(parts: &Parts, state: &FlatState, entries: &[Option<u64>]) -> bool {
    let mut number: usize = 0;
    for subgoal in parts.subgoals.as_slice() {
        let entry = entries.get(number).copied().unwrap_or(None);
        let is_fit = if holds(state, subgoal) {
            entry == Some(0)
        } else {
            is_at_most(entry, allowed(parts, state, entries, subgoal))
        };
        if !is_fit {
            return false;
        }
        number = number.saturating_add(1);
    }
    true
}

/// By step, whether the cut of this subgoal alone counts it: it achieves the subgoal and doesn't need it.
fn counted(rt: &(impl Abort + AllocGlobal), parts: &Parts, number: u32) -> Vec<bool> {
    let mut counted = Vec::new(rt.alloc());
    for step in parts.steps.as_slice() {
        let is_needed = has(step.needs.as_slice(), number);
        let is_achieved = match parts.subgoals.as_slice().get(number as usize) {
            Some(subgoal) => achieves(step, subgoal),
            None => false,
        };
        counted.push(is_achieved && !is_needed).expect(rt, "memory");
    }
    counted
}

/// The members of the sharpened cut of a subgoal.
fn sharpened(
    rt: &(impl Abort + AllocGlobal),
    parts: &Parts,
    state: &FlatState,
    subgoal: u32,
) -> Vec<u64> {
    let counted = counted(rt, parts, subgoal);
    let closure = closure(rt, parts, state, counted.as_slice());
    let mut members = Vec::new(rt.alloc());
    let mut number: u64 = 0;
    for is_in in closure.as_slice() {
        if !is_in {
            members.push(number).expect(rt, "memory");
        }
        number = number.saturating_add(1);
    }
    members
}

/// The members of the cuts: of each false subgoal of the goal alone, and then of their sharpened ones.
pub fn cuts(rt: &(impl Abort + AllocGlobal), parts: &Parts, state: &FlatState) -> Vec<Vec<u64>> {
    let mut cuts = Vec::new(rt.alloc());
    let mut sharpened_cuts = Vec::new(rt.alloc());
    let held = held(rt, parts, state);
    for subgoal in parts.goal.as_slice() {
        if !is_on(held.as_slice(), *subgoal as usize) {
            let alone = Vec::from_array(rt.alloc(), [u64::from(*subgoal)]).expect(rt, "memory");
            cuts.push(alone).expect(rt, "memory");
            sharpened_cuts
                .push(sharpened(rt, parts, state, *subgoal))
                .expect(rt, "memory");
        }
    }
    cuts.append(&mut sharpened_cuts).expect(rt, "memory");
    cuts
}
