//! Random pairs: each list of up to three steps comes to the same on the task and on its flat task.
use crate::random::Random;
use crate::texts::task_of;
use np_bind::bind;
use np_check::{PlanEnd, check_plan};
use np_flat::Flat;
use np_frac::Frac;
use np_model::{Objects, Step, Task};
use np_run::{RunEnd, run_parts};
use np_scale::scale;
use std::process::Abort;

/// The task of a random pair; None where the texts don't keep the rules.
fn random_task(rt: &(impl Abort + AllocGlobal), random: &mut Random) -> Option<Task> {
    let domain = random.domain(rt);
    let problem = random.problem(rt);
    task_of(rt.alloc(), domain.as_str(), problem.as_str())
}

/// The flat task; None where it is refused.
fn flat_of(rt: &(impl Abort + AllocGlobal), task: &Task) -> Option<Flat> {
    let bound = bind(rt.alloc(), task).ok()?;
    scale(rt.alloc(), &bound).ok()
}

/// The step of this number: the first action with each of the two objects, and the two others.
fn step(rt: &(impl Abort + AllocGlobal), number: u32) -> Step {
    let objects: &[u32] = match number {
        0 => &[0],
        1 => &[1],
        _ => &[],
    };
    Step {
        action: number.saturating_sub(1),
        objects: Objects::from_slice(rt.alloc(), objects).expect(rt, "memory"),
    }
}

/// The list of so many steps that has this number among them.
fn steps(rt: &(impl Abort + AllocGlobal), count: u32, number: u32) -> Vec<Step> {
    let mut steps = Vec::new(rt.alloc());
    let mut rest = number;
    for _ in 0..count {
        steps.push(step(rt, rest % 4)).expect(rt, "memory");
        rest /= 4;
    }
    steps
}

/// The kind, where the two agree.
fn kind_if(agree: bool, kind: usize) -> Option<usize> {
    if agree { Some(kind) } else { None }
}

/// The kind, where the flat plan has this cost too.
fn agreed_cost(cost: &Frac, checked: &PlanEnd) -> Option<usize> {
    match checked {
        PlanEnd::Goal(whole) => kind_if(cost.den() == 1 && cost.num() == i128::from(*whole), 0),
        _ => None,
    }
}

/// Whether the flat plan is stuck at this step too.
fn is_stuck_at(checked: &PlanEnd, step: u64) -> bool {
    match checked {
        PlanEnd::Stuck(other) => step == *other,
        _ => false,
    }
}

/// The kind of what a list of steps comes to, the same on both; None where they differ.
fn agreed(
    rt: &(impl Abort + AllocGlobal),
    task: &Task,
    flat: &Flat,
    steps: &[Step],
) -> Option<usize> {
    if steps.len() > 3 {
        return None;
    }
    let ran = run_parts(rt.alloc(), task.parts(), steps).ok()?;
    let checked = check_plan(rt.alloc(), flat, steps).ok()?;
    match ran {
        RunEnd::Goal(cost) => agreed_cost(&cost, &checked),
        RunEnd::NoGoal => kind_if(matches!(checked, PlanEnd::NoGoal), 1),
        RunEnd::Stuck(step) => kind_if(is_stuck_at(&checked, step), 2),
        RunEnd::NoCost(_) => None,
    }
}

/// The first list of this length that comes to something else on the flat task. Answers are counted by their kinds.
fn first_list(
    rt: &(impl Abort + AllocGlobal),
    task: &Task,
    flat: &Flat,
    count: u32,
    counts: &mut [u64],
) -> Option<u32> {
    for number in 0..4u32.saturating_pow(count) {
        let steps = steps(rt, count, number);
        let Some(kind) = agreed(rt, task, flat, steps.as_slice()) else {
            return Some(number);
        };
        if let Some(place) = counts.get_mut(kind) {
            *place = place.saturating_add(1);
        }
    }
    None
}

/// Whether the lists of up to three steps agree for the pair of this seed, where it isn't refused.
fn pair_agrees(rt: &(impl Abort + AllocGlobal), seed: u64, counts: &mut [u64]) -> bool {
    let mut random = Random { seed };
    let task = random_task(rt, &mut random).expect(rt, "the texts keep the rules");
    let Some(flat) = flat_of(rt, &task) else {
        return true;
    };
    for count in 0..4 {
        if first_list(rt, &task, &flat, count, counts).is_some() {
            return false;
        }
    }
    if let Some(place) = counts.get_mut(3) {
        *place = place.saturating_add(1);
    }
    true
}

/// More than half of the pairs have a flat task, and each kind of answer comes often.
#[test]
fn lists_come_to_the_same(rt: HostRuntime) {
    let mut counts = [0; 4];
    for seed in 0..400 {
        assert!(rt; pair_agrees(&rt, seed, &mut counts), "seed {seed}");
    }
    let [goals, no_goals, stuck, pairs] = counts;
    assert!(rt;
        pairs > 200 && goals.min(no_goals).min(stuck) > 400,
        "an answer is rare"
    );
}
