//! What `solve` and `check` answer of random tasks.
use crate::judging::verdict;
use crate::random::Random;
use crate::searching::{MOST_STEPS, least_cost, plan_cost};
use crate::texts::task_of;
use np_answers::SolveAnswer;
use np_cert::Certificate;
use np_commands::{Work, certificate_of, flat_task, judge, judge_with_plan, solve_task, steps_of};
use np_flat::Flat;
use np_model::{Step, Task};
use std::process::Abort;

/// How many states may be expanded.
const BUDGET: u32 = 20;

/// How many certificates of a task are changed.
const CHANGES: usize = 3;

/// How often each kind of answer came.
#[derive(Drop)]
struct Counts {
    optimal: u64,
    unsolvable: u64,
    spent: u64,
    valid: u64,
    unjustified: u64,
    repeated: u64,
    above: u64,
}

/// The task of a random pair.
fn random_task(rt: &(impl Abort + AllocGlobal), random: &mut Random) -> Task {
    let domain = random.domain(rt);
    let problem = random.problem(rt);
    task_of(rt.alloc(), domain.as_str(), problem.as_str()).expect(rt, "the texts keep the rules")
}

/// The flat task, and what `solve` comes to; None where the task is refused.
fn solved(rt: &(impl Abort + AllocGlobal), task: &Task) -> Option<(Flat, Work)> {
    let Ok(flat) = flat_task(rt.alloc(), task) else {
        return None;
    };
    let work = solve_task(rt.alloc(), task, &flat, BUDGET).expect(rt, "memory");
    Some((flat, work))
}

/// One more of a kind.
fn count(kind: &mut u64) {
    *kind = kind.saturating_add(1);
}

/// Compares an answer with the least cost of a plan of few steps. Longer plans aren't tried: only their side is open.
fn expect_answer(rt: &impl Abort, answer: SolveAnswer, least: Option<u64>, counts: &mut Counts) {
    match answer {
        SolveAnswer::Optimal(cost) => {
            count(&mut counts.optimal);
            assert!(rt; least.is_none_or(|least| cost <= least), "a cheaper plan");
        }
        SolveAnswer::Unsolvable => {
            count(&mut counts.unsolvable);
            assert!(rt; least.is_none(), "a plan");
        }
        SolveAnswer::Spent(nodes, bound) => {
            count(&mut counts.spent);
            assert!(rt;
                least.is_none_or(|least| bound <= least),
                "a plan below the bound"
            );
            assert!(rt; nodes == BUDGET, "the budget");
        }
    }
}

/// The steps of the plan that was written.
fn plan_of(rt: &(impl Abort + AllocGlobal), task: &Task, work: &Work) -> Vec<Step> {
    let steps = steps_of(rt.alloc(), task, work.plan.as_slice());
    steps.ok().expect(rt, "no plan")
}

/// Runs a plan that is to have this cost, which is the least one if it is short.
fn expect_cost(
    rt: &(impl Abort + AllocGlobal),
    task: &Task,
    steps: &[Step],
    cost: u64,
    least: Option<u64>,
) {
    let ran = plan_cost(rt, task, steps).expect(rt, "not a plan");
    assert!(rt; ran == cost, "another cost");
    if steps.len() <= MOST_STEPS as usize {
        assert!(rt; least == Some(cost), "no least cost");
    }
}

/// The certificate that a text spells.
fn certificate(rt: &(impl Abort + AllocGlobal), text: &[u8]) -> Certificate {
    let certificate = certificate_of(rt.alloc(), text);
    certificate.ok().expect(rt, "no certificate")
}

/// What `check` says of a certificate.
fn judged(rt: &(impl Abort + AllocGlobal), flat: &Flat, certificate: &Certificate) -> String {
    let answer = judge(rt.alloc(), flat, certificate);
    answer.text(rt.alloc()).expect(rt, "memory")
}

/// What is to be said of the certificate that was written.
fn yes(rt: &(impl Abort + AllocGlobal), answer: SolveAnswer) -> String {
    let text = match answer {
        SolveAnswer::Optimal(cost) | SolveAnswer::Spent(_, cost) => {
            format!(in rt.alloc(); "Yes: no plan costs less than {cost}\n")
        }
        SolveAnswer::Unsolvable => format!(in rt.alloc(); "Yes: there is no plan\n"),
    };
    text.expect(rt, "memory")
}

/// Runs the plan of a task, and checks it beside its certificate.
fn expect_plan(
    rt: &(impl Abort + AllocGlobal),
    task: &Task,
    flat: &Flat,
    work: &Work,
    least: Option<u64>,
) {
    let SolveAnswer::Optimal(cost) = work.answer else {
        return;
    };
    let steps = plan_of(rt, task, work);
    expect_cost(rt, task, steps.as_slice(), cost, least);
    if steps.len() > 1 << 24 {
        return;
    }
    let certificate = certificate(rt, work.certificate.as_slice());
    let answer = judge_with_plan(rt.alloc(), flat, &certificate, steps.as_slice());
    let said = answer.text(rt.alloc()).expect(rt, "memory");
    let yes = format!(in rt.alloc(); "Yes: the plan costs {cost} and no plan costs less\n").expect(
        rt, "memory",
    );
    assert!(rt; said.as_str() == yes.as_str(), "{said}");
}

/// Whether a byte is part of a number.
fn is_of_number(byte: u8) -> bool {
    byte == b'-' || byte.is_ascii_digit()
}

/// How many numbers a text has.
fn numbers(text: &[u8]) -> usize {
    let mut count: usize = 0;
    let mut inside = false;
    for byte in text {
        if is_of_number(*byte) && !inside {
            count = count.saturating_add(1);
        }
        inside = is_of_number(*byte);
    }
    count
}

/// The text with this digit in place of the number of this place, counted from 1.
fn changed(rt: &(impl Abort + AllocGlobal), text: &[u8], place: usize, digit: u8) -> Vec<u8> {
    let mut result = Vec::new(rt.alloc());
    let mut count: usize = 0;
    let mut inside = false;
    for byte in text {
        let begins = is_of_number(*byte) && !inside;
        inside = is_of_number(*byte);
        if begins {
            count = count.saturating_add(1);
        }
        if begins && count == place {
            result.push(digit).expect(rt, "memory");
        }
        if !inside || count != place {
            result.push(*byte).expect(rt, "memory");
        }
    }
    result
}

/// Counts a verdict by how it is said.
fn count_said(said: &str, counts: &mut Counts) {
    if said.starts_with("Yes") {
        count(&mut counts.valid);
    } else if said.ends_with("repeats a state\n") {
        count(&mut counts.repeated);
    } else if said.ends_with("is not justified\n") {
        count(&mut counts.unjustified);
    } else {
        count(&mut counts.above);
    }
}

/// Changes a number of a certificate, and compares what `check` says with what the definitions say. The first number is the version.
fn expect_changed(
    rt: &(impl Abort + AllocGlobal),
    flat: &Flat,
    text: &[u8],
    random: &mut Random,
    counts: &mut Counts,
) {
    let others = numbers(text).saturating_sub(1);
    if others == 0 {
        return;
    }
    let place = random.below(others).saturating_add(2);
    let digit = b"0123456789"[random.below(10)];
    let text = changed(rt, text, place, digit);
    let certificate = certificate(rt, text.as_slice());
    let said = judged(rt, flat, &certificate);
    let meant = verdict(rt, flat.parts(), &certificate);
    assert!(rt; said.as_str() == meant.as_str(), "{said} {meant}");
    count_said(said.as_str(), counts);
}

/// Judges the certificate of a task, and others with a number changed.
fn expect_certificates(
    rt: &(impl Abort + AllocGlobal),
    flat: &Flat,
    work: &Work,
    random: &mut Random,
    counts: &mut Counts,
) {
    let text = work.certificate.as_slice();
    let certificate = certificate(rt, text);
    let said = judged(rt, flat, &certificate);
    assert!(rt; said.as_str() == yes(rt, work.answer).as_str(), "{said}");
    let meant = verdict(rt, flat.parts(), &certificate);
    assert!(rt; said.as_str() == meant.as_str(), "{meant}");
    for _ in 0..CHANGES {
        expect_changed(rt, flat, text, random, counts);
    }
}

/// Tries the task of this seed, where it isn't refused.
fn expect_pair(rt: &(impl Abort + AllocGlobal), seed: u64, counts: &mut Counts) {
    let mut random = Random { seed };
    let task = random_task(rt, &mut random);
    let Some((flat, work)) = solved(rt, &task) else {
        return;
    };
    let least = least_cost(rt, &task);
    expect_answer(rt, work.answer, least, counts);
    expect_plan(rt, &task, &flat, &work, least);
    expect_certificates(rt, &flat, &work, &mut random, counts);
}

/// Each kind of answer comes often enough.
#[test]
fn random_tasks_are_solved(rt: HostRuntime) {
    let mut counts = Counts {
        optimal: 0,
        unsolvable: 0,
        spent: 0,
        valid: 0,
        unjustified: 0,
        repeated: 0,
        above: 0,
    };
    for seed in 0..120 {
        expect_pair(&rt, seed, &mut counts);
    }
    let solved = counts.optimal.min(counts.unsolvable).min(counts.spent);
    assert!(rt;
        solved > 5,
        "an answer is rare: {} {} {}",
        counts.optimal,
        counts.unsolvable,
        counts.spent
    );
    let judged = counts.valid.min(counts.unjustified).min(counts.above);
    assert!(rt;
        judged > 20 && counts.repeated > 0,
        "a verdict is rare: {} {} {} {}",
        counts.valid,
        counts.unjustified,
        counts.above,
        counts.repeated
    );
}
