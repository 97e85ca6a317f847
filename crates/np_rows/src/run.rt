//! Answers of `run`, worked by hand.
use crate::pairs::{COUNTER, FOUR};
use crate::trial::{expect_file, expect_run, expect_run_here, shelf};
use np_io::MemoryShelf;

const UNKNOWN: &str = "Refused: plan 1:1 unknown step\n";

const NO_GOAL: &str = "Not a plan: the goal does not hold at the end\n";

/// Plans for the counter, with the answers and their statuses.
const PLANS: &[(&str, &str, u8)] = &[
    ("(inc)\n(inc)\n(dec)\n(dec)\n", "Plan, cost 6\n", 0),
    (
        ";four\n(INC) (Inc);\u{e9}\n(dec)\t( dec )",
        "Plan, cost 6\n",
        0,
    ),
    (
        "0: (inc) 0.5: (inc) 1: (dec) 1.5: (dec)",
        "Plan, cost 6\n",
        0,
    ),
    ("(dec)", "Not a plan: step 1 is not applicable\n", 6),
    (
        "(inc) (dec) (dec) (dec) (dec) (go)",
        "Refused: plan 1:31 unknown step\n",
        3,
    ),
    (
        "(inc) (dec) (dec) (dec) (dec)",
        "Not a plan: step 5 is not applicable\n",
        6,
    ),
    ("", NO_GOAL, 6),
    ("(inc)", NO_GOAL, 6),
    ("0.0: (inc)\n0: (inc)", "Refused: plan 2:1 stamp order\n", 3),
    ("(inc a)", UNKNOWN, 3),
    ("(go)", UNKNOWN, 3),
    ("(inc", "Refused: plan 1:5 syntax\n", 3),
    ("(inc)\n1: (inc)", "Refused: plan 2:1 syntax\n", 3),
    (
        "000000000000000000000000000000000000000: (inc)",
        "Refused: plan 1:1 number wide\n",
        3,
    ),
];

#[test]
fn plans_for_the_counter(rt: HostRuntime) {
    for (plan, answer, status) in PLANS {
        expect_run(&rt, (COUNTER, FOUR, plan), answer, *status);
    }
}

/// Each file is fetched once, and nothing is put.
#[test]
fn each_file_is_fetched_once(rt: HostRuntime) {
    let mut shelf = shelf(&rt, COUNTER.as_bytes(), FOUR.as_bytes());
    let plan = "(inc) (inc) (dec) (dec)";
    shelf.set("plan", plan.as_bytes()).expect(&rt, "memory");
    expect_run_here(&rt, &mut shelf, "Plan, cost 6\n", 0);
    assert_eq!(&rt; shelf.calls(), 3);
    expect_file(&rt, &shelf, "d", Some(COUNTER));
    expect_file(&rt, &shelf, "p", Some(FOUR));
    expect_file(&rt, &shelf, "plan", Some(plan));
}

const ONE_ATOM: &str = "(define (domain d) (:predicates (p))
 (:action a :parameters () :effect (and (p) (not (p)))))";

const ONE_VALUE: &str = "(define (domain e) (:functions (x) (y))
 (:action a :effect (and (increase (x) 1)))
 (:action b :effect (decrease (x) 1))
 (:action c :precondition (>= (y) 1))
 (:action d :precondition (not (>= (y) 1)))
 (:action w :effect (increase (x) (* 99999999999999999999999999999999999999 10)))
 (:action z :effect (increase (x) (/ 1 0))))";

/// `t` changes x three times, and `big` raises w by 38 nines.
const SUMS: &str = "(define (domain e) (:functions (x) (s) (w))
 (:action t :effect (and (increase (x) 5) (decrease (x) (* 2 s)) (increase x 0.5)))
 (:action big :effect (increase (w) 99999999999999999999999999999999999999)))";

/// Objects that an action names, and an equality with one.
const NAMED: &str = "(define (domain f) (:constants k) (:predicates (on ?x))
 (:action go :parameters (?x) :precondition (and (on o) (not (on ?x)) (not (= ?x o)) (= ?x k)) :effect (on ?x)))";

/// Other pairs and plans.
const PAIRS: &[(&str, &str, &str, &str, u8)] = &[
    (
        COUNTER,
        "(define (problem p) (:domain counter) (:init (= (x) 0)) (:goal (>= (x) 0)) (:metric minimize (c)))",
        "",
        "Plan, cost 0\n",
        0,
    ),
    (
        SUMS,
        "(define (problem q) (:domain e) (:init (= x 1) (= s 3) (= w 0)) (:goal (= x 0.5)) (:metric minimize x))",
        "(t)",
        "Plan, cost -1/2\n",
        0,
    ),
    (
        SUMS,
        "(define (problem q) (:domain e) (:init (= x 1) (= s 3) (= w 0)) (:goal ()))",
        "(big) (big)",
        "Refused: number wide: plan step 2\n",
        3,
    ),
    (
        SUMS,
        "(define (problem q) (:domain e) (:init (= x 1) (= s 3) (= w 1)) (:goal (> (+ w w) 1)))",
        "(big)",
        "Refused: number wide: plan step 2\n",
        3,
    ),
    (
        SUMS,
        "(define (problem q) (:domain e) (:init (= x 1) (= s 3) (= w 0)) (:goal ())
 (:metric minimize (* 99999999999999999999999999999999999999 10)))",
        "(t)",
        "Refused: number wide: plan step 1\n",
        3,
    ),
    (
        SUMS,
        "(define (problem q) (:domain e) (:init (= x 1) (= s 3) (= w 0)) (:goal ()) (:metric minimize (/ 1 w)))",
        "(t)",
        "Not a plan: step 1 has no cost\n",
        6,
    ),
    (
        NAMED,
        "(define (problem q) (:domain f) (:objects o) (:init (on o)) (:goal (on k)))",
        "(go k)",
        "Plan, cost 1\n",
        0,
    ),
    (
        NAMED,
        "(define (problem q) (:domain f) (:objects o) (:init (on o)) (:goal (on k)))",
        "(go o)",
        "Not a plan: step 1 is not applicable\n",
        6,
    ),
    (
        ONE_ATOM,
        "(define (problem q) (:domain d) (:goal (p)))",
        "(a)",
        "Plan, cost 1\n",
        0,
    ),
    (
        ONE_VALUE,
        "(define (problem q) (:domain e) (:init (= (x) 0)) (:goal ()) (:metric minimize (/ x 3)))",
        "(a)",
        "Plan, cost 1/3\n",
        0,
    ),
    (
        ONE_VALUE,
        "(define (problem q) (:domain e) (:init (= (x) 0)) (:goal ()) (:metric minimize (/ x 4)))",
        "(b) (b) (b)",
        "Plan, cost -3/4\n",
        0,
    ),
    (
        ONE_VALUE,
        "(define (problem q) (:domain e) (:init (= (x) 1)) (:goal ()) (:metric minimize (/ 1 x)))",
        "(b)",
        "Not a plan: step 1 has no cost\n",
        6,
    ),
    (
        ONE_VALUE,
        "(define (problem q) (:domain e) (:init (= (x) 1)) (:goal ()))",
        "(a) (c)",
        "Not a plan: step 2 is not applicable\n",
        6,
    ),
    (
        ONE_VALUE,
        "(define (problem q) (:domain e) (:init (= (x) 1)) (:goal ()))",
        "(d)",
        "Not a plan: step 1 is not applicable\n",
        6,
    ),
    (
        ONE_VALUE,
        "(define (problem q) (:domain e) (:init (= (x) 1)) (:goal ()))",
        "(z)",
        "Not a plan: step 1 is not applicable\n",
        6,
    ),
    (
        ONE_VALUE,
        "(define (problem q) (:domain e) (:init (= (x) 1)) (:goal ()))",
        "(a) (w)",
        "Refused: number wide: plan step 2\n",
        3,
    ),
];

#[test]
fn plans_for_other_pairs(rt: HostRuntime) {
    for (domain, problem, plan, answer, status) in PAIRS {
        expect_run(&rt, (domain, problem, plan), answer, *status);
    }
}

/// Domains and problems that are refused, with the place of the first fault.
const REFUSED: &[(&str, &str, &str)] = &[
    ("", "", "Refused: domain 1:1 syntax\n"),
    ("(define (domain d)))", "", "Refused: domain 1:20 syntax\n"),
    ("(define (domain and))", "", "Refused: domain 1:17 syntax\n"),
    (
        "(define (domain d)\n (:action a :parameters ()",
        "",
        "Refused: domain 2:27 syntax\n",
    ),
    (
        "(define (domain d) (:action a :parameters () :precondition (or (p) (q)) :effect ()))",
        "",
        "Refused: domain 1:61 syntax\n",
    ),
    (COUNTER, "", "Refused: problem 1:1 syntax\n"),
    (
        COUNTER,
        "(define (problem p) (:domain counter) (:init (= (x) 0000000000000000000000000000000000000000",
        "Refused: problem 1:53 number wide\n",
    ),
    (
        "(define (domain d) (:types t) (:types u))",
        "(define (problem p) (:domain d) (:goal ()))",
        "Refused: domain 1:32 section twice\n",
    ),
    (
        COUNTER,
        "(define (problem p) (:domain counter) (:init (= (x) 0) (= (x) 0)) (:goal (= (x) 4)))",
        "Refused: problem 1:60 value twice\n",
    ),
    (
        COUNTER,
        "(define (problem p) (:domain counter) (:goal (= (y) 4)))",
        "Refused: problem 1:50 unknown function\n",
    ),
    (
        COUNTER,
        "(define (problem p) (:domain counter))",
        "Refused: problem 1:1 section missing\n",
    ),
];

#[test]
fn faulty_pairs_are_told(rt: HostRuntime) {
    for (domain, problem, answer) in REFUSED {
        expect_run(&rt, (domain, problem, "(inc"), answer, 3);
    }
}

/// A fault of the domain is told before the problem is fetched, and one of the pair before the plan is.
#[test]
fn faults_come_in_order(rt: HostRuntime) {
    let mut shelf = MemoryShelf::new(rt.alloc());
    expect_run_here(&rt, &mut shelf, "Refused: cannot read domain\n", 4);
    shelf.set("d", b"(").expect(&rt, "memory");
    expect_run_here(&rt, &mut shelf, "Refused: domain 1:2 syntax\n", 3);
    shelf.set("d", COUNTER.as_bytes()).expect(&rt, "memory");
    expect_run_here(&rt, &mut shelf, "Refused: cannot read problem\n", 4);
    shelf.set("p", b"()").expect(&rt, "memory");
    expect_run_here(&rt, &mut shelf, "Refused: problem 1:2 syntax\n", 3);
    let lacking = b"(define (problem p) (:domain counter))";
    shelf.set("p", lacking).expect(&rt, "memory");
    expect_run_here(&rt, &mut shelf, "Refused: problem 1:1 section missing\n", 3);
    shelf.set("p", FOUR.as_bytes()).expect(&rt, "memory");
    expect_run_here(&rt, &mut shelf, "Refused: cannot read plan\n", 4);
    assert_eq!(&rt; shelf.calls(), 11);
}
