//! Typing, by what `run` says of pairs: each rule that can be broken, and what is taken leniently.
use crate::pairs::{DELIVERY, TWO_PARCELS};
use crate::trial::expect_run;
use std::process::Abort;

/// The sections of a problem that say no more than they have to.
const PLAIN: &str = "(:domain d) (:goal ())";

const GOOD: &str = "Plan, cost 0\n";

const NO_GOAL: &str = "Not a plan: the goal does not hold at the end\n";

/// Sections of a domain and of a problem, each in the second line of its text, and what is said of the first fault.
const FAULTS: &[(&str, &str, &str)] = &[
    ("(:types t) (:types u)", PLAIN, "domain 2:13 section twice"),
    (
        "(:requirements :strips) (:types t) (:requirements :typing)",
        PLAIN,
        "domain 2:37 section twice",
    ),
    (
        "(:predicates (p)) (:functions (f)) (:predicates) (:functions)",
        PLAIN,
        "domain 2:37 section twice",
    ),
    (
        "",
        "(:domain d) (:goal ()) (:domain d)",
        "problem 2:25 section twice",
    ),
    (
        "",
        "(:goal ()) (:goal ()) (:domain d)",
        "problem 2:13 section twice",
    ),
    (
        "(:constants k) (:constants k)",
        "(:domain e) (:goal ()) (:goal ())",
        "domain 2:17 section twice",
    ),
    ("", "(:domain e) (:goal ())", "problem 2:10 other domain"),
    (
        "",
        "(:goal ()) (:objects a a) (:domain dd)",
        "problem 2:36 other domain",
    ),
    (
        "(:types t t)",
        "(:domain problem) (:goal (p))",
        "problem 2:10 other domain",
    ),
    ("(:types t u t - object)", PLAIN, "domain 2:13 name twice"),
    (
        "(:types object object - t)",
        PLAIN,
        "domain 2:16 name twice",
    ),
    (
        "(:constants c) (:types t - u u t)",
        "(:domain d) (:goal ()) (:objects c)",
        "domain 2:32 name twice",
    ),
    (
        "(:constants c)",
        "(:domain d) (:goal ()) (:objects a c)",
        "problem 2:36 name twice",
    ),
    (
        "(:predicates (p) (q ?x ?y ?x) (p))",
        PLAIN,
        "domain 2:27 name twice",
    ),
    (
        "(:predicates (p) (q ?x ?y) (p))",
        PLAIN,
        "domain 2:29 name twice",
    ),
    (
        "(:functions (f ?x - t ?x - u) (f))",
        PLAIN,
        "domain 2:23 name twice",
    ),
    (
        "(:functions (f) (g) - number (g))",
        PLAIN,
        "domain 2:31 name twice",
    ),
    (
        "(:action go) (:action stop) (:action go)",
        PLAIN,
        "domain 2:38 name twice",
    ),
    (
        "(:action go :parameters (?x - t ?y ?x)) (:types t t)",
        PLAIN,
        "domain 2:36 name twice",
    ),
    (
        "(:types t - object object - t)",
        PLAIN,
        "domain 2:9 type cycle",
    ),
    ("(:types object - t)", PLAIN, "domain 2:9 type cycle"),
    (
        "(:types a - b b - c c - b)",
        PLAIN,
        "domain 2:15 type cycle",
    ),
    (
        "(:types a - b t - t) (:constants x - zz)",
        PLAIN,
        "domain 2:15 type cycle",
    ),
    ("(:types b - a a - b)", PLAIN, "domain 2:9 type cycle"),
    ("(:constants k - t)", PLAIN, "domain 2:17 unknown type"),
    (
        "(:types t) (:predicates (p ?x - t ?y - u))",
        PLAIN,
        "domain 2:40 unknown type",
    ),
    (
        "(:functions (f ?x - object ?y - u)) (:constants c - object)",
        "(:domain d) (:goal ()) (:objects o - z)",
        "domain 2:33 unknown type",
    ),
    (
        "(:action go :parameters (?x - u) :precondition (p))",
        PLAIN,
        "domain 2:31 unknown type",
    ),
    (
        "(:types t - u) (:constants c - u)",
        "(:goal (p)) (:domain d) (:objects o - u p - v)",
        "problem 2:45 unknown type",
    ),
    (
        "(:action go :precondition (and () (p ?x)))",
        PLAIN,
        "domain 2:36 unknown predicate",
    ),
    (
        "(:functions (p)) (:action go :effect (not (p)))",
        PLAIN,
        "domain 2:44 unknown predicate",
    ),
    (
        "",
        "(:domain d) (:init (p a)) (:goal (q))",
        "problem 2:21 unknown predicate",
    ),
    (
        "",
        "(:domain d) (:init (not (p))) (:goal ())",
        "problem 2:26 unknown predicate",
    ),
    (
        "",
        "(:goal (q)) (:init (p)) (:domain d)",
        "problem 2:9 unknown predicate",
    ),
    (
        "(:action go :precondition (< 1 f))",
        PLAIN,
        "domain 2:32 unknown function",
    ),
    (
        "(:predicates (f)) (:functions (g)) (:action go :effect (increase (f zz) 1))",
        PLAIN,
        "domain 2:67 unknown function",
    ),
    (
        "(:functions (g)) (:action go :effect (increase g (* 2 f)))",
        PLAIN,
        "domain 2:55 unknown function",
    ),
    (
        "",
        "(:domain d) (:goal ()) (:init (= f 1))",
        "problem 2:34 unknown function",
    ),
    (
        "",
        "(:domain d) (:goal (= 1 f)) (:metric minimize (g))",
        "problem 2:25 unknown function",
    ),
    (
        "",
        "(:domain d) (:goal ()) (:metric minimize (+ 1 (g)))",
        "problem 2:48 unknown function",
    ),
    (
        "(:predicates (p ?x)) (:action go :precondition (p a))",
        PLAIN,
        "domain 2:51 unknown name",
    ),
    (
        "(:predicates (p ?x)) (:action go :parameters (?x) :precondition (= ?x a))",
        PLAIN,
        "domain 2:71 unknown name",
    ),
    (
        "(:functions (f)) (:action go :parameters (?x) :precondition (not (= f ?x)))",
        PLAIN,
        "domain 2:69 unknown name",
    ),
    (
        "(:predicates (p ?x ?y)) (:constants a)",
        "(:domain d) (:init (p a b)) (:goal ())",
        "problem 2:25 unknown name",
    ),
    (
        "(:functions (f ?x))",
        "(:domain d) (:init (= (f b) 1) (= (f b) 2)) (:goal ())",
        "problem 2:26 unknown name",
    ),
    (
        "(:predicates (p ?x)) (:action go :precondition (p ?x))",
        PLAIN,
        "domain 2:51 unbound",
    ),
    (
        "(:functions (f ?x)) (:action go :parameters (?x) :effect (decrease (f ?y) 1))",
        PLAIN,
        "domain 2:71 unbound",
    ),
    (
        "(:predicates (p ?x))",
        "(:domain d) (:goal (p ?x))",
        "problem 2:23 unbound",
    ),
    (
        "",
        "(:domain d) (:goal (not (= ?x ?y)))",
        "problem 2:28 unbound",
    ),
    (
        "(:action go :parameters (?x) :precondition (= ?y ?x))",
        PLAIN,
        "domain 2:47 unbound",
    ),
    (
        "(:predicates (p ?x)) (:action go :precondition (p))",
        PLAIN,
        "domain 2:49 wrong arity",
    ),
    (
        "(:functions (f ?x)) (:action go :effect (increase f zz))",
        PLAIN,
        "domain 2:51 wrong arity",
    ),
    (
        "(:functions (f) (g)) (:action go :effect (and (increase g 1) (increase f (g zz))))",
        PLAIN,
        "domain 2:75 wrong arity",
    ),
    (
        "(:predicates (p ?x))",
        "(:domain d) (:init (p a b)) (:goal ())",
        "problem 2:21 wrong arity",
    ),
    (
        "(:functions (f))",
        "(:domain d) (:goal (< (f zz) 1))",
        "problem 2:24 wrong arity",
    ),
    (
        "(:types t u) (:predicates (p ?x - t)) (:action go :parameters (?x - u) :precondition (p ?x))",
        PLAIN,
        "domain 2:89 wrong type",
    ),
    (
        "(:types t - u) (:predicates (p ?x - t)) (:constants c - u)",
        "(:domain d) (:init (p c)) (:goal ())",
        "problem 2:23 wrong type",
    ),
    (
        "(:functions (f ?x)) (:action go :parameters (?x) :precondition (= (f zz) ?x))",
        PLAIN,
        "domain 2:67 wrong type",
    ),
    (
        "(:constants c) (:functions (f)) (:action go :precondition (= c 3))",
        PLAIN,
        "domain 2:64 wrong type",
    ),
    (
        "(:types t) (:functions (f ?x - t)) (:constants k)",
        "(:domain d) (:goal ()) (:metric minimize (f k))",
        "problem 2:45 wrong type",
    ),
    (
        "(:constants c) (:action go :precondition (= (+ zz 1) c))",
        PLAIN,
        "domain 2:45 wrong type",
    ),
    (
        "(:functions (f))",
        "(:domain d) (:init (= (f) 1) (= f 1)) (:goal ())",
        "problem 2:33 value twice",
    ),
    (
        "(:functions (f ?x)) (:constants a b)",
        "(:domain d) (:init (= (f a) 1) (= (f b) 2) (= (f a) 3)) (:goal ())",
        "problem 2:48 value twice",
    ),
    (
        "(:functions (f ?x) (g)) (:constants a)",
        "(:domain d) (:init (= g 1) (= (f a) 2) (= (f a) 2) (= g 1)) (:goal (zz))",
        "problem 2:44 value twice",
    ),
    (
        "(:functions (f) (g)) (:action go :effect (and (increase (f) (g)) (increase (g) 1)))",
        PLAIN,
        "domain 2:62 amount not static",
    ),
    (
        "(:functions (f)) (:action go :effect (decrease (f) (* 2 f)))",
        PLAIN,
        "domain 2:57 amount not static",
    ),
    (
        "(:functions (f) (g ?x)) (:action go :effect (increase (f) (g zz))) (:action up :parameters (?x) :effect (decrease (g ?x) 1))",
        PLAIN,
        "domain 2:60 amount not static",
    ),
    (
        "(:types t) (:types t t) (:constants c c)",
        "(:goal ()) (:goal ())",
        "domain 2:13 section twice",
    ),
    (
        "(:action go :precondition (p)) (:action up :effect (increase (f) 1))",
        "(:domain d) (:goal (q))",
        "domain 2:28 unknown predicate",
    ),
    (
        "(:constants c c - zz)",
        "(:domain d) (:goal ()) (:objects c)",
        "domain 2:15 name twice",
    ),
    (
        "(:types t - t)",
        "(:domain d) (:goal ()) (:objects a a)",
        "problem 2:36 name twice",
    ),
    (
        "(:action go :precondition (p))",
        "(:domain d) (:goal ()) (:objects a - z)",
        "problem 2:38 unknown type",
    ),
];

/// Pairs without a fault, by their sections, and what the empty plan comes to.
const FINE: &[(&str, &str, &str)] = &[
    ("", PLAIN, GOOD),
    // an object without a type, a supertype that isn't listed, types in any order
    (
        "(:constants a b) (:predicates (p ?x ?y - object))",
        "(:domain d) (:init (p a c)) (:goal (p c b)) (:objects c)",
        NO_GOAL,
    ),
    (
        "(:types t - u v - t) (:predicates (p ?x - u))",
        "(:domain d) (:objects a - v b - t c - u) (:init (p a) (p b) (p c)) (:goal ())",
        GOOD,
    ),
    (
        "(:types a - b b - c c) (:constants k - a) (:predicates (p ?x - c))",
        "(:domain d) (:goal (p k))",
        NO_GOAL,
    ),
    (
        "(:types t object object) (:constants k - object)",
        PLAIN,
        GOOD,
    ),
    ("(:types t - object)", PLAIN, GOOD),
    // an action that names an object of the problem
    (
        "(:predicates (p ?x)) (:action go :precondition (p o) :effect (not (p o)))",
        "(:domain d) (:objects o) (:goal ())",
        GOOD,
    ),
    // no `:init`, `not` in it, an atom twice
    (
        "(:predicates (p ?x)) (:constants a)",
        "(:domain d) (:init (not (p a)) (p a) (p a) (not (p a))) (:goal (p a))",
        GOOD,
    ),
    // equal names of different kinds
    (
        "(:types n) (:constants n - n) (:predicates (n ?n - n)) (:functions (n ?n - n)) (:action n :parameters (?n - n) :precondition (and (n ?n) (n n) (< (n n) 1)) :effect (increase (n ?n) 1))",
        PLAIN,
        GOOD,
    ),
    // equalities of objects: constants and variables on either side
    (
        "(:constants a b) (:action go :parameters (?x ?y) :precondition (and (= a b) (= ?x ?y) (= a ?x) (= ?x a) (not (= ?x ?y)) (not (= a ?x)) (not (= ?x b)) (not (= a b))))",
        PLAIN,
        GOOD,
    ),
    // an object before a function of its name, and numbers
    (
        "(:constants a) (:functions (a) (f)) (:action go :precondition (and (= a a) (= f 3) (= (a) f) (= 1 2) (= (+ f 1) (a))))",
        PLAIN,
        GOOD,
    ),
    // a metric that isn't static, static amounts, empty effects
    (
        "(:functions (f ?x) (g) (c)) (:action go :parameters (?x) :effect (and (increase (f ?x) g) (decrease (c) (* 2 (g))) () (and)))",
        "(:domain d) (:goal (and () (and) (= c 1))) (:metric minimize (+ c (g)))",
        NO_GOAL,
    ),
    (
        "(:requirements :typing) (:functions) (:predicates) (:types)",
        "(:goal ()) (:requirements :strips) (:domain d) (:init) (:objects)",
        GOOD,
    ),
];

/// Problems without a `:domain` or a `:goal`, and the place of their first token.
const MISSING: &[(&str, &str)] = &[
    ("(define (problem p))", "1:1"),
    ("; none\n  (define (problem p) (:domain e))", "2:3"),
    ("\n(define (problem p) (:goal (p)) (:objects a a))", "2:1"),
];

/// Plans for the parcels, with the answers and their statuses. The first one drives 22, refuels twice for 6, and loads and unloads for 4.
const DELIVERIES: &[(&str, &str, u8)] = &[
    (
        "(load p1 t1 a) (drive t1 a b) (refuel t1 b) (refuel t1 b) (drive t1 b c) (unload p1 t1 c)
(drive t1 c b) (load p2 t1 b) (drive t1 b c) (unload p2 t1 c)",
        "Plan, cost 32\n",
        0,
    ),
    (
        "(load p1 t1 a) (drive t1 a b) (load p2 t1 b)",
        "Not a plan: step 3 is not applicable\n",
        6,
    ),
    ("(drive p1 a b)", "Refused: plan 1:1 unknown step\n", 3),
    ("(drive t1 a)", "Refused: plan 1:1 unknown step\n", 3),
];

/// Calls `run` on the pair with these sections and the empty plan, and compares its status and what it pushed.
fn expect_typed(rt: &(impl Abort + AllocGlobal), pair: (&str, &str), answer: &str, status: u8) {
    let (one, two) = pair;
    let domain = format!(in rt.alloc(); "(define (domain d)\n{one})").expect(rt, "memory");
    let problem = format!(in rt.alloc(); "(define (problem p)\n{two})").expect(rt, "memory");
    let texts = (domain.as_str(), problem.as_str(), "");
    expect_run(rt, texts, answer, status);
}

/// Calls `run` on the pair with these sections, which is to be refused for this.
fn expect_broken(rt: &(impl Abort + AllocGlobal), pair: (&str, &str), fault: &str) {
    let answer = format!(in rt.alloc(); "Refused: {fault}\n").expect(rt, "memory");
    expect_typed(rt, pair, answer.as_str(), 3);
}

#[test]
fn the_first_broken_rule_is_told(rt: HostRuntime) {
    for (one, two, fault) in FAULTS {
        expect_broken(&rt, (one, two), fault);
    }
}

/// Calls `run` on this problem, which lacks a section at this place.
fn expect_missing(rt: &(impl Abort + AllocGlobal), problem: &str, place: &str) {
    let answer = format!(in rt.alloc(); "Refused: problem {place} section missing\n").expect(
        rt, "memory",
    );
    let texts = ("(define (domain d) (:types t t))", problem, "");
    expect_run(rt, texts, answer.as_str(), 3);
}

#[test]
fn missing_sections_are_told(rt: HostRuntime) {
    for (problem, place) in MISSING {
        expect_missing(&rt, problem, place);
    }
}

#[test]
fn leniencies_are_taken(rt: HostRuntime) {
    for (one, two, answer) in FINE {
        let status = if *answer == GOOD { 0 } else { 6 };
        expect_typed(&rt, (one, two), answer, status);
    }
}

#[test]
fn parcels_are_delivered(rt: HostRuntime) {
    for (plan, answer, status) in DELIVERIES {
        expect_run(&rt, (DELIVERY, TWO_PARCELS, plan), answer, *status);
    }
}
