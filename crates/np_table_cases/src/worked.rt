//! The start of small pairs, worked by hand.
use crate::answers::{cuts_are, reach_is, table_is, verdict};
use crate::texts::flat_of;
use np_flat::Flat;
use np_relax::{Needing, runs_stay_in};
use np_table::{Judge, reached, tables_bound, tables_bound_plans};
use std::process::Abort;

/// The greatest number of an entry.
const MOST: u64 = (1 << 62) - 1;

/// A pair, and what is wanted at its start. Where an entry is none the subgoal can't come to hold.
#[derive(Clone, Copy)]
struct Case<'a> {
    actions: &'a str,
    start: &'a str,
    goal: &'a str,
    /// The entries of the greatest table, by subgoal.
    entries: &'a [Option<u64>],
    /// The members of the cuts.
    cuts: &'a [&'a [u64]],
}

/// Two objects, each with a value that has to rise. `cheap` needs a fact that no run reaches, so that it is in both sharpened cuts.
const SHOP: Case = Case {
    actions: "(:action cheap :parameters (?o) :precondition (p) :effect (and (p) (increase (v ?o) 5) (increase (c) 1)))
        (:action dear :parameters (?o) :effect (and (increase (v ?o) 5) (increase (c) 10)))",
    start: "",
    goal: "(and (>= (v o1) 1) (>= (v o2) 1))",
    entries: &[None, Some(2), Some(2)],
    cuts: &[&[1], &[2], &[0, 1], &[0, 2]],
};

/// The goal's fact is added where a form holds that steps only lower.
const FALLING: Case = Case {
    actions: "(:action get :precondition (>= (x) 1) :effect (and (p) (increase (c) 2)))
        (:action drop :effect (and (decrease (x) 1) (increase (c) 1)))",
    start: "",
    goal: "(p)",
    entries: &[None, None],
    cuts: &[&[1], &[0, 1]],
};

/// The form's entry is cut off, and so is the sum of it and a cost.
const FAR: Case = Case {
    actions: "(:action rise :effect (and (increase (x) 1) (increase (c) 2)))
        (:action get :precondition (>= (x) 4611686018427387903) :effect (and (p) (increase (c) 5)))",
    start: "",
    goal: "(p)",
    entries: &[Some(MOST), Some(MOST)],
    cuts: &[&[1], &[1]],
};

/// The step of least cost per gain needs a fact that costs 7, and the other one needs nothing: 0 and ten times 1.
const APART: Case = Case {
    actions: "(:action lean :precondition (q) :effect (and (increase (x) 1) (increase (c) 1)))
        (:action rich :effect (and (increase (x) 1) (increase (c) 5)))
        (:action make :effect (and (q) (increase (c) 7)))",
    start: "",
    goal: "(>= (x) 10)",
    entries: &[Some(7), Some(10)],
    cuts: &[&[1], &[1]],
};

/// The costlier need decides; the negation of a fact costs the step that deletes it.
const BOTH: Case = Case {
    actions: "(:action first :effect (and (p) (increase (c) 3)))
        (:action second :effect (and (q) (increase (c) 5)))
        (:action third :precondition (and (p) (q)) :effect (and (r) (increase (c) 2)))
        (:action fourth :effect (and (not (s)) (increase (c) 4)))",
    start: "(s)",
    goal: "(and (r) (not (s)))",
    entries: &[Some(3), Some(5), Some(7), Some(4)],
    cuts: &[&[2], &[3], &[2], &[3]],
};

/// What comes after a subgoal of the goal is in its sharpened cut; what holds already is in none.
const CHAIN: Case = Case {
    actions: "(:action first :effect (and (p) (increase (c) 1)))
        (:action second :precondition (p) :effect (and (q) (increase (c) 1)))
        (:action third :precondition (q) :effect (and (r) (increase (c) 1)))
        (:action fourth :effect (and (not (s)) (increase (c) 1)))",
    start: "(s)",
    goal: "(and (p) (r) (s))",
    entries: &[Some(1), Some(2), Some(3), Some(0)],
    cuts: &[&[0], &[2], &[0, 1, 2], &[2]],
};

/// The goal is empty.
const NOTHING: Case = Case {
    actions: "(:action first :precondition (q) :effect (and (p) (increase (c) 1)))
        (:action second :precondition (p) :effect (and (q) (increase (c) 1)))",
    start: "",
    goal: "(and)",
    entries: &[None, None],
    cuts: &[],
};

/// The flat task of a pair.
fn flat_task(rt: &(impl Abort + AllocGlobal), case: &Case) -> Flat {
    let Case {
        actions,
        start,
        goal,
        ..
    } = case;
    let domain = format!(in rt.alloc();
        "(define (domain d) (:predicates (p) (q) (r) (s)) (:functions (v ?o) (x) (c)) {actions})"
    ).expect(rt, "memory");
    let problem = format!(in rt.alloc();
        "(define (problem n) (:domain d) (:objects o1 o2)
            (:init {start} (= (v o1) 0) (= (v o2) 0) (= (x) 0) (= (c) 0)) (:goal {goal}) (:metric minimize (c)))"
    )
    .expect(rt, "memory");
    flat_of(rt.alloc(), domain.as_str(), problem.as_str()).expect(rt, "the pair has a flat task")
}

/// The lists, each as a vector.
fn vectors(rt: &(impl Abort + AllocGlobal), lists: &[&[u64]]) -> Vec<Vec<u64>> {
    let mut vectors = Vec::new(rt.alloc());
    for list in lists {
        let vector = Vec::from_slice(rt.alloc(), list).expect(rt, "memory");
        vectors.push(vector).expect(rt, "memory");
    }
    vectors
}

/// Whether each entry is a number.
fn are_numbers(rt: &(impl Abort + AllocGlobal), entries: &[Option<u64>]) -> Vec<bool> {
    let mut numbers = Vec::new(rt.alloc());
    for entry in entries {
        numbers.push(entry.is_some()).expect(rt, "memory");
    }
    numbers
}

/// What the calls answer is what is wanted.
#[test]
fn pairs_are_as_worked(rt: HostRuntime) {
    let mut judge = Judge::new(rt.alloc());
    for case in [SHOP, FALLING, FAR, APART, BOTH, CHAIN, NOTHING] {
        let flat = flat_task(&rt, &case);
        let needing = Needing::new(rt.alloc(), &flat).expect(&rt, "memory");
        let can = are_numbers(&rt, case.entries);
        let cuts = vectors(&rt, case.cuts);
        let actions = case.actions;
        assert!(rt;
            reach_is(&rt, &flat, &needing, &[], can.as_slice()),
            "reach: {actions}"
        );
        assert!(rt;
            table_is(&rt, &flat, &needing, case.entries),
            "table: {actions}"
        );
        assert!(rt;
            verdict(&rt, &mut judge, &flat, case.entries) == Some(true),
            "judge: {actions}"
        );
        assert!(rt;
            cuts_are(&rt, &flat, &needing, cuts.as_slice()),
            "cuts: {actions}"
        );
    }
}

/// The largest entry, 0 of no numbers, and none where one of them is none.
#[test]
fn the_largest_entry_is_found(rt: HostRuntime) {
    let entries = [Some(3), None, Some(7), Some(0)];
    let entries = entries.as_slice();
    assert!(rt; reached(entries, &[]) == Some(0));
    assert!(rt; reached(entries, &[3]) == Some(0));
    assert!(rt; reached(entries, &[0, 2, 3]) == Some(7));
    assert!(rt; reached(entries, &[2, 0]) == Some(7));
    assert!(rt; reached(entries, &[0, 1, 2]).is_none());
}

/// A step is found by each subgoal that it needs.
#[test]
fn steps_are_found_by_their_needs(rt: HostRuntime) {
    let flat = flat_task(&rt, &BOTH);
    let needing = Needing::new(rt.alloc(), &flat).expect(&rt, "memory");
    let mut found: [u64; 4] = [0; 4];
    for subgoal in 0..flat.parts().subgoals.len().min(4) {
        if needing.of(subgoal as u32) == [2].as_slice() {
            found[subgoal] = 1;
        }
    }
    assert!(rt; found == [1, 1, 0, 0]);
}

/// The laws have empty bodies.
#[test]
fn laws_can_be_called(_rt: HostRuntime) {
    runs_stay_in();
    tables_bound();
    tables_bound_plans();
}
