//! What the definitions say of a certificate by expansion, in plain loops over the parts of a flat task.
use np_cert::{Certificate, Entry, Limit};
use np_flat::{FlatState, FlatStep, Form, Parts, Subgoal};
use sqlite_items::Items;
use std::process::Abort;

/// A limit as a number. That there is no plan is the greatest one.
fn size(limit: Limit) -> u128 {
    match limit {
        Limit::Number(number) => number,
        Limit::Absent => u128::MAX,
    }
}

/// Whether a number is in a list.
fn has(numbers: &[u32], number: u32) -> bool {
    numbers.iter().any(|other| *other == number)
}

/// The value of a form.
fn value(form: &Form, values: &[i128]) -> i128 {
    let mut sum = form.constant;
    for (number, coefficient) in form.terms.as_slice() {
        let value = values.get(*number as usize).copied().unwrap_or(0);
        sum = sum.saturating_add(coefficient.saturating_mul(value));
    }
    sum
}

/// Whether the subgoal of this number holds.
fn holds(parts: &Parts, number: u32, state: &FlatState) -> bool {
    match parts.subgoals.as_slice().get(number as usize) {
        Some(Subgoal::Fact(fact)) => has(state.facts.as_slice(), *fact),
        Some(Subgoal::NotFact(fact)) => !has(state.facts.as_slice(), *fact),
        Some(Subgoal::Form(form)) => value(form, state.values.as_slice()) >= 0,
        None => false,
    }
}

/// Whether all of these subgoals hold.
fn all_hold(parts: &Parts, numbers: &[u32], state: &FlatState) -> bool {
    for number in numbers {
        if !holds(parts, *number, state) {
            return false;
        }
    }
    true
}

/// The facts that are true after a step.
fn facts_after(
    rt: &(impl Abort + AllocGlobal),
    parts: &Parts,
    step: &FlatStep,
    facts: &[u32],
) -> Items<u32> {
    let mut after = Items::new(rt.alloc());
    let mut number: u32 = 0;
    for _ in parts.facts.as_slice() {
        let stays = has(facts, number) && !has(step.deletes.as_slice(), number);
        if stays || has(step.adds.as_slice(), number) {
            after.push(number).expect(rt, "memory");
        }
        number = number.saturating_add(1);
    }
    after
}

/// What a step adds to the value of this number.
fn change(step: &FlatStep, number: usize) -> i128 {
    for (changed, amount) in step.changes.as_slice() {
        if *changed as usize == number {
            return *amount;
        }
    }
    0
}

/// The values after a step.
fn values_after(rt: &(impl Abort + AllocGlobal), step: &FlatStep, values: &[i128]) -> Items<i128> {
    let mut after = Items::new(rt.alloc());
    let mut number: usize = 0;
    for value in values {
        let sum = value.saturating_add(change(step, number));
        after.push(sum).expect(rt, "memory");
        number = number.saturating_add(1);
    }
    after
}

/// The bound of the first entry with this state, or else 0.
fn bound_at(entries: &[Entry], state: &FlatState) -> u128 {
    for entry in entries {
        if entry.state == *state {
            return size(entry.bound);
        }
    }
    0
}

/// Whether a bound at a state isn't above what a step costs and what is bounded after it, if the step is applicable.
fn is_borne_out(
    rt: &(impl Abort + AllocGlobal),
    parts: &Parts,
    entries: &[Entry],
    entry: &Entry,
    step: &FlatStep,
) -> bool {
    let state = &entry.state;
    if !all_hold(parts, step.needs.as_slice(), state) {
        return true;
    }
    let after = FlatState {
        facts: facts_after(rt, parts, step, state.facts.as_slice()),
        values: values_after(rt, step, state.values.as_slice()),
    };
    let rest = bound_at(entries, &after);
    size(entry.bound) <= rest.saturating_add(u128::from(step.cost))
}

/// Whether the numbers ascend and are below the limit.
fn ascends(numbers: &[u32], limit: usize) -> bool {
    let mut least: u64 = 0;
    for number in numbers {
        if u64::from(*number) < least || *number as usize >= limit {
            return false;
        }
        least = u64::from(*number).saturating_add(1);
    }
    true
}

/// Whether an entry has a state of the task and a small bound. The values of these tests are small.
fn fits(parts: &Parts, entry: &Entry) -> bool {
    let bound = size(entry.bound);
    ascends(entry.state.facts.as_slice(), parts.facts.as_slice().len())
        && entry.state.values.as_slice().len() == parts.values.as_slice().len()
        && (bound < 1 << 62 || bound == u128::MAX)
}

/// Whether an entry is justified by expansion.
fn is_justified(
    rt: &(impl Abort + AllocGlobal),
    parts: &Parts,
    entries: &[Entry],
    entry: &Entry,
) -> bool {
    if !fits(parts, entry) {
        return false;
    }
    if size(entry.bound) == 0 {
        return true;
    }
    for step in parts.steps.as_slice() {
        if !is_borne_out(rt, parts, entries, entry, step) {
            return false;
        }
    }
    !all_hold(parts, parts.goal.as_slice(), &entry.state)
}

/// Whether an entry has the state of an earlier one.
fn repeats(entries: &[Entry], number: usize, entry: &Entry) -> bool {
    for earlier in entries.iter().take(number) {
        if earlier.state == entry.state {
            return true;
        }
    }
    false
}

/// What is wrong with an entry, if anything is.
fn fault(
    rt: &(impl Abort + AllocGlobal),
    parts: &Parts,
    entries: &[Entry],
    number: usize,
    entry: &Entry,
) -> Option<&'static str> {
    if repeats(entries, number, entry) {
        return Some("repeats a state");
    }
    if is_justified(rt, parts, entries, entry) {
        None
    } else {
        Some("is not justified")
    }
}

/// What is to be said of the claim, where no entry has a fault.
fn claimed(rt: &(impl Abort + AllocGlobal), bound: u128, claim: Limit) -> String {
    if size(claim) > bound {
        return format!(in rt.alloc(); "No: the claim is above the start's bound\n").expect(
            rt, "memory",
        );
    }
    match claim {
        Limit::Number(number) => {
            format!(in rt.alloc(); "Yes: no plan costs less than {number}\n").expect(rt, "memory")
        }
        Limit::Absent => format!(in rt.alloc(); "Yes: there is no plan\n").expect(rt, "memory"),
    }
}

/// What is to be said of a certificate that has no proof.
pub fn verdict(
    rt: &(impl Abort + AllocGlobal),
    parts: &Parts,
    certificate: &Certificate,
) -> String {
    let entries = certificate.entries.as_slice();
    let mut number: usize = 0;
    for entry in entries {
        if let Some(fault) = fault(rt, parts, entries, number, entry) {
            return format!(in rt.alloc(); "No: entry {number} {fault}\n").expect(rt, "memory");
        }
        number = number.saturating_add(1);
    }
    claimed(rt, bound_at(entries, &parts.start), certificate.claim)
}
