//! Random lists of steps on random tasks: a run and the slow run come to the same.
use crate::ends::{End, end_of};
use crate::random::Random;
use crate::slow::slow_run;
use np_run::run_parts;
use std::process::Abort;

/// What a list of steps comes to; None where the two runs differ.
fn agreed(rt: &(impl Abort + AllocGlobal), seed: u64) -> Option<End> {
    let mut random = Random { seed };
    let task = random.task(rt);
    let steps = random.steps(rt);
    let end = slow_run(rt, &task, steps.as_slice());
    if end_of(run_parts(rt.alloc(), &task, steps.as_slice())) == Some(end) {
        Some(end)
    } else {
        None
    }
}

/// The first seed at which the two runs differ. Answers are counted by their kinds.
fn first_differing(
    rt: &(impl Abort + AllocGlobal),
    seeds: u64,
    counts: &mut [u64; 5],
) -> Option<u64> {
    for seed in 0..seeds {
        let Some(end) = agreed(rt, seed) else {
            return Some(seed);
        };
        let count = &mut counts[end.kind()];
        *count = count.saturating_add(1);
    }
    None
}

/// They come to each kind of answer more than ten times.
#[test]
fn random_runs_agree(rt: HostRuntime) {
    let mut counts = [0; 5];
    assert_eq!(rt; first_differing(&rt, 1_000, &mut counts), None, "a seed");
    let [goals, no_goals, stuck, no_costs, wide] = counts;
    let least = goals.min(no_goals).min(stuck).min(no_costs).min(wide);
    assert!(rt; least > 10, "a kind of answer is rare");
}
