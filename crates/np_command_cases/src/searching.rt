//! The least cost of a plan among all short lists of steps, by running each of them.
use np_frac::Frac;
use np_model::{Objects, Step, Task};
use np_run::{RunEnd, run_parts};
use std::process::Abort;

/// Lists of up to so many steps are run.
pub const MOST_STEPS: u32 = 3;

/// The step of this number: the first action with each of the two objects, and the two others.
fn step(rt: &(impl Abort + AllocGlobal), number: u32) -> Step {
    let objects: &[u32] = match number {
        0 => &[0],
        1 => &[1],
        _ => &[],
    };
    Step {
        action: number.saturating_sub(1),
        objects: Objects::from_slice(rt.alloc(), objects).expect(rt, "memory"),
    }
}

/// The list of so many steps that has this number among them.
fn steps(rt: &(impl Abort + AllocGlobal), count: u32, number: u32) -> Vec<Step> {
    let mut steps = Vec::new(rt.alloc());
    let mut rest = number;
    for _ in 0..count {
        steps.push(step(rt, rest % 4)).expect(rt, "memory");
        rest /= 4;
    }
    steps
}

/// The cost of a list of steps, where it is a plan. Costs are whole.
pub fn plan_cost(rt: &(impl Abort + AllocGlobal), task: &Task, steps: &[Step]) -> Option<u64> {
    let ran = run_parts(rt.alloc(), task.parts(), steps).ok()?;
    match ran {
        RunEnd::Goal(cost) => Some(whole(rt, &cost)),
        RunEnd::NoGoal | RunEnd::Stuck(_) | RunEnd::NoCost(_) => None,
    }
}

/// The whole number that a cost is.
fn whole(rt: &impl Abort, cost: &Frac) -> u64 {
    assert!(rt; cost.den() == 1, "a fraction");
    u64::try_from(cost.num()).expect(rt, "a cost below 0")
}

/// The lesser of a cost and that of a plan, where there is one.
fn lesser(least: Option<u64>, cost: Option<u64>) -> Option<u64> {
    match (least, cost) {
        (Some(least), Some(cost)) => Some(least.min(cost)),
        (Some(least), None) => Some(least),
        (None, cost) => cost,
    }
}

/// The least of a cost and those of the plans of this length.
fn least_of(
    rt: &(impl Abort + AllocGlobal),
    task: &Task,
    count: u32,
    before: Option<u64>,
) -> Option<u64> {
    let mut least = before;
    for number in 0..4u32.saturating_pow(count) {
        let steps = steps(rt, count, number);
        least = lesser(least, plan_cost(rt, task, steps.as_slice()));
    }
    least
}

/// The least cost of a plan of up to that many steps; None where there is none.
pub fn least_cost(rt: &(impl Abort + AllocGlobal), task: &Task) -> Option<u64> {
    let mut least = None;
    for count in 0..=MOST_STEPS {
        least = least_of(rt, task, count, least);
    }
    least
}
