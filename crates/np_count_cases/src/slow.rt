//! What the definitions say of counting rows and proofs, in plain loops over the parts of a flat task.
use np_count::{Proof, Row};
use np_flat::{FlatState, FlatStep, Form, Parts, Subgoal};

/// What is compared, the sums included, is far below this size, or is said to be out of reach.
pub const ABSENT: u128 = u128::MAX;

/// Whether a number is in a list.
fn has(numbers: &[u32], number: u64) -> bool {
    numbers.iter().any(|other| u64::from(*other) == number)
}

/// The subgoal of this number.
fn subgoal(parts: &Parts, number: u64) -> Option<&Subgoal> {
    parts.subgoals.as_slice().get(number as usize)
}

/// The form of this number.
fn form(parts: &Parts, number: u64) -> Option<&Form> {
    match subgoal(parts, number)? {
        Subgoal::Form(form) => Some(form),
        _ => None,
    }
}

/// The value of a form.
fn value(form: &Form, values: &[i128]) -> i128 {
    let mut sum = form.constant;
    for (number, coefficient) in form.terms.as_slice() {
        let value = values.get(*number as usize).copied().unwrap_or(0);
        sum = sum.saturating_add(coefficient.saturating_mul(value));
    }
    sum
}

/// What a step adds to the value of this number.
pub fn change(step: &FlatStep, number: usize) -> i128 {
    for (changed, amount) in step.changes.as_slice() {
        if *changed as usize == number {
            return *amount;
        }
    }
    0
}

/// What a step adds to the value of a form.
fn net(step: &FlatStep, form: &Form) -> i128 {
    let mut sum: i128 = 0;
    for (number, coefficient) in form.terms.as_slice() {
        sum = sum.saturating_add(coefficient.saturating_mul(change(step, *number as usize)));
    }
    sum
}

/// What a step adds to the form of this number, and 0 where there is none.
fn net_at(parts: &Parts, step: &FlatStep, number: u64) -> i128 {
    match form(parts, number) {
        Some(form) => net(step, form),
        None => 0,
    }
}

/// The value of the form of this number, and 0 where there is none.
fn value_at(parts: &Parts, state: &FlatState, number: u64) -> i128 {
    match form(parts, number) {
        Some(form) => value(form, state.values.as_slice()),
        None => 0,
    }
}

/// Whether the subgoal of this number holds.
pub fn holds(parts: &Parts, state: &FlatState, number: u64) -> bool {
    match subgoal(parts, number) {
        Some(Subgoal::Fact(fact)) => has(state.facts.as_slice(), u64::from(*fact)),
        Some(Subgoal::NotFact(fact)) => !has(state.facts.as_slice(), u64::from(*fact)),
        Some(Subgoal::Form(form)) => value(form, state.values.as_slice()) >= 0,
        None => false,
    }
}

/// Whether the step achieves the subgoal of this number.
fn achieves(parts: &Parts, step: &FlatStep, number: u64) -> bool {
    match subgoal(parts, number) {
        Some(Subgoal::Fact(fact)) => has(step.adds.as_slice(), u64::from(*fact)),
        Some(Subgoal::NotFact(fact)) => has(step.deletes.as_slice(), u64::from(*fact)),
        Some(Subgoal::Form(form)) => net(step, form) > 0,
        None => false,
    }
}

/// Whether the fact, or for false its negation, is among these subgoals.
fn names(parts: &Parts, positive: bool, fact: u64, numbers: &[u32]) -> bool {
    for number in numbers {
        let named = match subgoal(parts, u64::from(*number)) {
            Some(Subgoal::Fact(other)) => positive && u64::from(*other) == fact,
            Some(Subgoal::NotFact(other)) => !positive && u64::from(*other) == fact,
            _ => false,
        };
        if named {
            return true;
        }
    }
    false
}

/// The coefficient of a step in the flow of a fact, or for false of its negation.
fn flow(parts: &Parts, positive: bool, fact: u64, step: &FlatStep) -> i128 {
    let (made, broken) = if positive {
        (step.adds.as_slice(), step.deletes.as_slice())
    } else {
        (step.deletes.as_slice(), step.adds.as_slice())
    };
    let needed = names(parts, positive, fact, step.needs.as_slice());
    if has(made, fact) && !needed {
        1
    } else if needed && has(broken, fact) {
        -1
    } else {
        0
    }
}

/// The coefficient of a step in a cut.
fn cut(parts: &Parts, step: &FlatStep, members: &[u64]) -> i128 {
    let mut achieved = false;
    for member in members {
        if has(step.needs.as_slice(), *member) {
            return 0;
        }
        achieved = achieved || achieves(parts, step, *member);
    }
    i128::from(achieved)
}

/// The coefficient of a step.
fn coefficient(parts: &Parts, step: &FlatStep, row: &Row) -> i128 {
    match row {
        Row::Demand(q) => net_at(parts, step, *q),
        Row::Flow(p) => flow(parts, true, *p, step),
        Row::FlowNot(p) => flow(parts, false, *p, step),
        Row::Floor(q, _) => net_at(parts, step, *q),
        Row::Cut(members) => cut(parts, step, members.as_slice()),
    }
}

/// The right side of the flow of a fact, or for false of its negation.
fn flow_right(parts: &Parts, state: &FlatState, positive: bool, fact: u64) -> i128 {
    let wanted = names(parts, positive, fact, parts.goal.as_slice());
    let so = has(state.facts.as_slice(), fact) == positive;
    i128::from(wanted).saturating_sub(i128::from(so))
}

/// The right side of a cut.
fn cut_right(parts: &Parts, state: &FlatState, members: &[u64]) -> i128 {
    let mut wanted = false;
    for member in members {
        if holds(parts, state, *member) {
            return 0;
        }
        wanted = wanted || has(parts.goal.as_slice(), *member);
    }
    i128::from(wanted)
}

/// The right side of a row at a state.
fn right(parts: &Parts, state: &FlatState, row: &Row) -> i128 {
    match row {
        Row::Demand(q) => value_at(parts, state, *q).saturating_neg(),
        Row::Flow(p) => flow_right(parts, state, true, *p),
        Row::FlowNot(p) => flow_right(parts, state, false, *p),
        Row::Floor(q, least) => least.saturating_sub(value_at(parts, state, *q)).min(0),
        Row::Cut(members) => cut_right(parts, state, members.as_slice()),
    }
}

/// Whether two forms have the very same terms.
fn same_terms(first: &Form, second: &Form) -> bool {
    first.terms.as_slice() == second.terms.as_slice()
}

/// Whether a step that lowers the form needs that it is at least so much above the floor.
fn is_guarded(parts: &Parts, step: &FlatStep, form_kept: &Form, least: i128) -> bool {
    let lowered = net(step, form_kept).saturating_neg();
    if lowered <= 0 {
        return true;
    }
    for number in step.needs.as_slice() {
        if let Some(need) = form(parts, u64::from(*number)) {
            let above = form_kept.constant.saturating_sub(need.constant);
            if same_terms(need, form_kept) && above >= least.saturating_add(lowered) {
                return true;
            }
        }
    }
    false
}

/// Whether each step keeps the form of this number at the floor.
fn is_floor(parts: &Parts, number: u64, least: i128) -> bool {
    let Some(form) = form(parts, number) else {
        return false;
    };
    for step in parts.steps.as_slice() {
        if !is_guarded(parts, step, form, least) {
            return false;
        }
    }
    true
}

/// Whether the numbers are those of subgoals and ascend, and there are some.
fn is_cut(parts: &Parts, members: &[u64]) -> bool {
    let mut least: u64 = 0;
    for member in members {
        if *member < least || subgoal(parts, *member).is_none() {
            return false;
        }
        least = member.saturating_add(1);
    }
    !members.is_empty()
}

/// Whether the row is allowed.
fn is_allowed(parts: &Parts, row: &Row) -> bool {
    let facts = parts.facts.as_slice().len() as u64;
    match row {
        Row::Demand(q) => has(parts.goal.as_slice(), *q) && form(parts, *q).is_some(),
        Row::Flow(p) | Row::FlowNot(p) => *p < facts,
        Row::Floor(q, least) => least.unsigned_abs() < 1 << 125 && is_floor(parts, *q, *least),
        Row::Cut(members) => is_cut(parts, members.as_slice()),
    }
}

/// The weighted coefficients of a step; None where a product or a partial sum passes 128 bits.
fn step_sum(parts: &Parts, step: &FlatStep, items: &[(u64, Row)]) -> Option<i128> {
    let mut sum: i128 = 0;
    for (weight, row) in items {
        let product = i128::from(*weight).checked_mul(coefficient(parts, step, row))?;
        sum = sum.checked_add(product)?;
    }
    Some(sum)
}

/// The weighted right sides at a state; None where a product or a partial sum passes 128 bits.
fn state_sum(parts: &Parts, state: &FlatState, items: &[(u64, Row)]) -> Option<i128> {
    let mut sum: i128 = 0;
    for (weight, row) in items {
        let product = i128::from(*weight).checked_mul(right(parts, state, row))?;
        sum = sum.checked_add(product)?;
    }
    Some(sum)
}

/// Whether a step pays at least the weighted coefficients.
fn pays(parts: &Parts, proof: &Proof, step: &FlatStep) -> bool {
    let paid = i128::from(proof.divisor).saturating_mul(i128::from(step.cost));
    match step_sum(parts, step, proof.items.as_slice()) {
        Some(sum) => sum <= paid,
        None => false,
    }
}

/// Whether a proof is right.
pub fn is_proof(parts: &Parts, proof: &Proof) -> bool {
    for (weight, row) in proof.items.as_slice() {
        if *weight == 0 || *weight >= 1 << 62 || !is_allowed(parts, row) {
            return false;
        }
    }
    for step in parts.steps.as_slice() {
        if !pays(parts, proof, step) {
            return false;
        }
    }
    proof.divisor < 1 << 62
}

/// A number over a divisor above 0, rounded up.
fn over(number: u128, divisor: u64) -> u128 {
    let divisor = u128::from(divisor).max(1);
    let whole = number / divisor;
    whole.saturating_add(u128::from(number % divisor != 0))
}

/// What a proof bounds at a state; None where it has no bound there.
pub fn bound(parts: &Parts, state: &FlatState, proof: &Proof) -> Option<u128> {
    let total = state_sum(parts, state, proof.items.as_slice())?;
    let left = if total > 0 { total.unsigned_abs() } else { 0 };
    if proof.divisor == 0 {
        return Some(if left > 0 { ABSENT } else { 0 });
    }
    let bound = over(left, proof.divisor);
    if bound < 1 << 62 { Some(bound) } else { None }
}
