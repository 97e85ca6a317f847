//! Certificates of one proof and one entry, for the start of small pairs, worked by hand.
use crate::texts::task_of;
use np_bind::bind;
use np_cert::{Certificate, Entry, Limit, Why};
use np_check::{Verdict, check_certificate};
use np_count::{Proof, Row};
use np_flat::{Flat, FlatState};
use np_scale::scale;
use sqlite_items::Items;
use std::process::Abort;

/// The flat task of a pair.
fn flat_of(rt: &(impl Abort + AllocGlobal), actions: &str, goal: &str) -> Flat {
    let domain = format!(in rt.alloc();
        "(define (domain d) (:predicates (p)) (:functions (x) (y)) {actions})"
    ).expect(rt, "memory");
    let problem = format!(in rt.alloc();
        "(define (problem n) (:domain d) (:init (= (x) 0) (= (y) 0)) (:goal {goal}))"
    ).expect(rt, "memory");
    let task = task_of(rt.alloc(), domain.as_str(), problem.as_str());
    let task = task.expect(rt, "the texts keep the rules");
    let Ok(bound) = bind(rt.alloc(), &task) else {
        panic!(rt; "the task is bound");
    };
    let Ok(flat) = scale(rt.alloc(), &bound) else {
        panic!(rt; "the task is scaled");
    };
    flat
}

/// The verdict on a claim that is the bound of the start, by a proof of one row.
fn verdict(
    rt: &(impl Abort + AllocGlobal),
    flat: &Flat,
    divisor: u64,
    item: (u64, Row),
    claim: Limit,
) -> Verdict {
    let start = &flat.parts().start;
    let state = FlatState {
        facts: Items::from_slice(rt.alloc(), start.facts.as_slice()).expect(rt, "memory"),
        values: Items::from_slice(rt.alloc(), start.values.as_slice()).expect(rt, "memory"),
    };
    let mut items = Items::new(rt.alloc());
    items.push(item).expect(rt, "memory");
    let mut proofs = Items::new(rt.alloc());
    proofs.push(Proof { divisor, items }).expect(rt, "memory");
    let mut entries = Items::new(rt.alloc());
    let (bound, why) = (claim, Why::Proof(0));
    entries
        .push(Entry { state, bound, why })
        .expect(rt, "memory");
    let certificate = Certificate {
        claim,
        proofs,
        entries,
    };
    check_certificate(rt.alloc(), flat, &certificate)
}

/// The sum of the two values, which starts at 0, stays what it is for ever, and the goal asks for 1. The states have no end.
#[test]
fn an_endless_pair_has_no_plan(rt: HostRuntime) {
    let flat = flat_of(
        &rt,
        "(:action f :precondition (and) :effect (and (increase (x) 1) (decrease (y) 1)))
         (:action g :precondition (and) :effect (and (decrease (x) 1) (increase (y) 1)))",
        "(>= (+ (x) (y)) 1)",
    );
    let none = verdict(&rt, &flat, 0, (1, Row::Demand(0)), Limit::Absent);
    assert!(rt; none == Verdict::Holds);
    let with_cost = verdict(&rt, &flat, 1, (1, Row::Demand(0)), Limit::Absent);
    assert!(rt; with_cost == Verdict::BadEntry(0));
}

/// The first step's net change on the form is -(2^61 - 1) * 1000000007. With the weight 2^61 the product passes 128 bits, with 1 it doesn't.
#[test]
fn a_step_that_passes_128_bits_fails(rt: HostRuntime) {
    let flat = flat_of(
        &rt,
        "(:action f :precondition (and) :effect (decrease (x) 2305843009213693951))
         (:action g :precondition (and) :effect (decrease (y) 1))",
        "(>= (+ (* 1000000007 (x)) (y)) 5)",
    );
    let zero = Limit::Number(0);
    let narrow = verdict(&rt, &flat, 1, (1, Row::Demand(0)), zero);
    assert!(rt; narrow == Verdict::Holds);
    let wide = verdict(&rt, &flat, 1, (1 << 61, Row::Demand(0)), zero);
    assert!(rt; wide == Verdict::BadProof(0));
}

/// The form is a need of the step, and the goal asks for the fact alone.
#[test]
fn a_demand_is_of_the_goal(rt: HostRuntime) {
    let flat = flat_of(
        &rt,
        "(:action f :precondition (>= (x) 1) :effect (and (p) (increase (x) 1)))",
        "(p)",
    );
    for subgoal in 0..4 {
        let demand = verdict(&rt, &flat, 1, (1, Row::Demand(subgoal)), Limit::Number(0));
        assert!(rt; demand == Verdict::BadProof(0));
    }
}
