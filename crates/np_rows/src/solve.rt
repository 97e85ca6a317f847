//! Answers of `solve`, worked by hand.
use crate::pairs::{COUNTER, DELIVERY, FOUR, TWO_PARCELS};
use crate::trial::{
    NONE_BELOW_THREE, RISE, SINK, STEPS, THREE, expect_check, expect_check_beside, expect_file,
    expect_run_here, expect_solve, expect_solve_within, pair_of, shelf,
};
use np_io::MemoryShelf;
use std::process::Abort;

/// A pair, the budget where one is named, the answer, its status, the plan that is put, the certificate where it is worked out, and what
/// `check` says of the certificate alone and beside the plan.
type Row<'a> = (
    &'a str,
    &'a str,
    &'a str,
    &'a str,
    u8,
    Option<&'a str>,
    Option<&'a str>,
    &'a str,
    &'a str,
);

const UP: &str = "(up)\n(up)\n(up)\n";

/// Three steps by walking; loading first makes the jump possible, which is shorter.
const JUMPS: &str = "(define (domain jumps) (:functions (x) (y))
(:action walk :parameters () :precondition (and) :effect (and (increase (x) 1)))
(:action load :parameters () :precondition (and) :effect (and (increase (y) 2)))
(:action jump :parameters () :precondition (and (>= (y) 2))
 :effect (and (increase (x) 3) (decrease (y) 2))))";

/// What `check` says of a claim of 3, and beside a plan of that cost.
const YES_THREE: &str = "Yes: no plan costs less than 3\n";

const BOTH_THREE: &str = "Yes: the plan costs 3 and no plan costs less\n";

/// What `check` says where `solve` put no plan.
const NO_PLAN: &str = "Refused: cannot read plan\n";

const WHOLE: &[Row<'static>] = &[
    (
        STEPS,
        THREE,
        "",
        "Optimal 3, weak 0\n",
        0,
        Some(UP),
        Some(NONE_BELOW_THREE),
        YES_THREE,
        BOTH_THREE,
    ),
    (
        STEPS,
        THREE,
        "2",
        "Budget spent 2, bound 2, weak 0\n",
        11,
        None,
        Some(
            "(certificate 1 (claim 2)\n(proofs)\n(entries
(entry (facts) (values 0) 2 expanded)\n(entry (facts) (values 1) 1 expanded)))\n",
        ),
        "Yes: no plan costs less than 2\n",
        NO_PLAN,
    ),
    (
        STEPS,
        THREE,
        "3",
        "Optimal 3, weak 0\n",
        0,
        Some(UP),
        Some(NONE_BELOW_THREE),
        YES_THREE,
        BOTH_THREE,
    ),
    (
        STEPS,
        "(define (problem p) (:domain steps) (:init (= (x) 0)) (:goal (and (= (x) 3))))",
        "",
        "Optimal 3, weak 0\n",
        0,
        Some(UP),
        Some(NONE_BELOW_THREE),
        YES_THREE,
        BOTH_THREE,
    ),
    (
        SINK,
        RISE,
        "",
        "Unsolvable, weak 0\n",
        10,
        None,
        Some(
            "(certificate 1 (claim none)\n(proofs)\n(entries\n(entry (facts) (values 2) none expanded)
(entry (facts) (values 1) none expanded)\n(entry (facts) (values 0) none expanded)))\n",
        ),
        "Yes: there is no plan\n",
        NO_PLAN,
    ),
    (
        JUMPS,
        "(define (problem p) (:domain jumps) (:init (= (y) 0) (= (x) 0)) (:goal (and (>= (x) 3))))",
        "",
        "Optimal 2, weak 0\n",
        0,
        Some("(load)\n(jump)\n"),
        None,
        "Yes: no plan costs less than 2\n",
        "Yes: the plan costs 2 and no plan costs less\n",
    ),
    (
        STEPS,
        "(define (problem p) (:domain steps) (:init (= (x) -7)) (:goal (and (>= (x) -7))))",
        "1",
        "Optimal 0, weak 0\n",
        0,
        Some(""),
        Some("(certificate 1 (claim 0)\n(proofs)\n(entries))\n"),
        "Yes: no plan costs less than 0\n",
        "Yes: the plan costs 0 and no plan costs less\n",
    ),
    (
        "; counting up\n(DEFINE(Domain Steps)(:FUNCTIONS(X))\r\n\t(:Action UP:parameters()
:precondition(AND):effect(and(Increase(x)1))));the end",
        "(define(problem p);(:goal\n(:domain\tSTEPS)(:init(=(x)0))(:goal(and(>=(X)3))))\n\n",
        "",
        "Optimal 3, weak 0\n",
        0,
        Some(UP),
        Some(NONE_BELOW_THREE),
        YES_THREE,
        BOTH_THREE,
    ),
    (
        COUNTER,
        "(define (problem p) (:domain counter) (:init (= (x) 0)) (:goal (>= (x) 7)) (:metric minimize (c)))",
        "",
        "Optimal 6, weak 0\n",
        0,
        Some("(inc)\n(inc)\n(inc)\n"),
        None,
        "Yes: no plan costs less than 6\n",
        "Yes: the plan costs 6 and no plan costs less\n",
    ),
    (
        COUNTER,
        "(define (problem p) (:domain counter) (:init (= (x) 0)) (:goal (>= (x) 0)) (:metric minimize (c)))",
        "16777216",
        "Optimal 0, weak 0\n",
        0,
        Some(""),
        Some("(certificate 1 (claim 0)\n(proofs)\n(entries))\n"),
        "Yes: no plan costs less than 0\n",
        "Yes: the plan costs 0 and no plan costs less\n",
    ),
];

/// A walk in steps of two never comes to 1.
const EVEN: &str =
    "(:functions (x)) (:action up :effect (increase (x) 2)) (:action down :effect (decrease (x) 2))";

const ODD: &str = "(:init (= (x) 0)) (:goal (= (x) 1))";

const ALL_A: &str = "(a)\n(a)\n(a)\n";

/// The same of pairs whose texts are sections.
const SECTIONS: &[Row<'static>] = &[
    // Of the states 2 j, one is 0 steps away, and two are each further number of steps away.
    (
        EVEN,
        ODD,
        "10",
        "Budget spent 10, bound 5, weak 0\n",
        11,
        None,
        None,
        "Yes: no plan costs less than 5\n",
        NO_PLAN,
    ),
    (
        EVEN,
        ODD,
        "1",
        "Budget spent 1, bound 1, weak 0\n",
        11,
        None,
        Some(
            "(certificate 1 (claim 1)\n(proofs)\n(entries\n(entry (facts) (values 0) 1 expanded)))\n",
        ),
        "Yes: no plan costs less than 1\n",
        NO_PLAN,
    ),
    // Decimals and fractions.
    (
        "(:functions (x)) (:action a :effect (increase (x) 0.1))",
        "(:init (= (x) 0)) (:goal (= (x) 0.3))",
        "",
        "Optimal 3, weak 0\n",
        0,
        Some(ALL_A),
        Some(NONE_BELOW_THREE),
        YES_THREE,
        BOTH_THREE,
    ),
    (
        "(:functions (x)) (:action a :effect (increase (x) (/ 1 3)))",
        "(:init (= (x) 0)) (:goal (= (x) 1))",
        "",
        "Optimal 3, weak 0\n",
        0,
        Some(ALL_A),
        Some(NONE_BELOW_THREE),
        YES_THREE,
        BOTH_THREE,
    ),
    (
        "(:functions (x)) (:action a :effect (increase (x) 0.1))",
        "(:init (= (x) 0)) (:goal (> (x) 0.3))",
        "",
        "Optimal 4, weak 0\n",
        0,
        Some("(a)\n(a)\n(a)\n(a)\n"),
        Some(
            "(certificate 1 (claim 4)\n(proofs)\n(entries\n(entry (facts) (values 0) 4 expanded)
(entry (facts) (values 1) 3 expanded)\n(entry (facts) (values 2) 2 expanded)\n(entry (facts) (values 3) 1 expanded)))\n",
        ),
        "Yes: no plan costs less than 4\n",
        "Yes: the plan costs 4 and no plan costs less\n",
    ),
    (
        "(:functions (x)) (:action a :effect (increase (x) 0.5))",
        "(:init (= (x) 0)) (:goal (> (x) 1.2))",
        "",
        "Optimal 3, weak 0\n",
        0,
        Some(ALL_A),
        Some(NONE_BELOW_THREE),
        YES_THREE,
        BOTH_THREE,
    ),
    // What a step both adds and deletes is true afterwards.
    (
        "(:predicates (p)) (:action a :effect (and (p) (not (p))))",
        "(:goal (p))",
        "",
        "Optimal 1, weak 0\n",
        0,
        Some("(a)\n"),
        Some(
            "(certificate 1 (claim 1)\n(proofs)\n(entries\n(entry (facts) (values) 1 expanded)))\n",
        ),
        "Yes: no plan costs less than 1\n",
        "Yes: the plan costs 1 and no plan costs less\n",
    ),
    // A step that costs nothing.
    (
        "(:predicates (p)) (:functions (c)) (:action a :effect (p))",
        "(:goal (p)) (:metric minimize (c))",
        "",
        "Optimal 0, weak 0\n",
        0,
        Some("(a)\n"),
        Some(
            "(certificate 1 (claim 0)\n(proofs)\n(entries\n(entry (facts) (values) 0 expanded)))\n",
        ),
        "Yes: no plan costs less than 0\n",
        "Yes: the plan costs 0 and no plan costs less\n",
    ),
    // A value that is missing.
    (
        "(:predicates (p)) (:functions (y)) (:action a :precondition (>= (y) 1) :effect (p))",
        "(:goal (p))",
        "",
        "Unsolvable, weak 0\n",
        10,
        None,
        Some(
            "(certificate 1 (claim none)\n(proofs)\n(entries\n(entry (facts) (values) none expanded)))\n",
        ),
        "Yes: there is no plan\n",
        NO_PLAN,
    ),
    // Types, objects and a static table.
    (
        "(:types room) (:predicates (in ?r - room) (open ?a ?b - room))
 (:action go :parameters (?a ?b - room) :precondition (and (in ?a) (open ?a ?b)) :effect (and (not (in ?a)) (in ?b)))",
        "(:objects a b c - room) (:init (in a) (open a b) (open b c)) (:goal (in c))",
        "",
        "Optimal 2, weak 0\n",
        0,
        Some("(go a b)\n(go b c)\n"),
        Some(
            "(certificate 1 (claim 2)\n(proofs)\n(entries\n(entry (facts 0) (values) 2 expanded)
(entry (facts 1) (values) 1 expanded)))\n",
        ),
        "Yes: no plan costs less than 2\n",
        "Yes: the plan costs 2 and no plan costs less\n",
    ),
];

/// Compares what was put for a row, and what `check` says of it.
fn expect_put(rt: &(impl Abort + AllocGlobal), row: &Row<'_>, shelf: &mut MemoryShelf) {
    let (_, _, _, _, _, plan, certificate, yes, beside) = *row;
    expect_file(rt, shelf, "plan", plan);
    if certificate.is_some() {
        expect_file(rt, shelf, "cert", certificate);
    }
    expect_check(rt, shelf, yes, 0);
    let status = if plan.is_some() { 0 } else { 4 };
    expect_check_beside(rt, shelf, beside, status);
}

#[test]
fn whole_pairs_are_solved(rt: HostRuntime) {
    for row in WHOLE {
        let mut shelf = shelf(&rt, row.0.as_bytes(), row.1.as_bytes());
        expect_solve_within(&rt, row.2, &mut shelf, row.3, row.4);
        expect_put(&rt, row, &mut shelf);
    }
}

#[test]
fn sections_are_solved(rt: HostRuntime) {
    for row in SECTIONS {
        let (domain, problem) = pair_of(&rt, row.0, row.1);
        let mut shelf = shelf(&rt, domain.as_bytes(), problem.as_bytes());
        expect_solve_within(&rt, row.2, &mut shelf, row.3, row.4);
        expect_put(&rt, row, &mut shelf);
    }
}

/// Solves a pair with several cheapest plans, which has the certificate and the plan checked, and the plan run.
fn solved(rt: &(impl Abort + AllocGlobal), pair: (&str, &str), answers: [&str; 4]) -> MemoryShelf {
    let [answer, ran, yes, beside] = answers;
    let mut shelf = shelf(rt, pair.0.as_bytes(), pair.1.as_bytes());
    expect_solve(rt, &mut shelf, answer, 0);
    expect_run_here(rt, &mut shelf, ran, 0);
    expect_check(rt, &mut shelf, yes, 0);
    expect_check_beside(rt, &mut shelf, beside, 0);
    shelf
}

/// How often a text has this line.
fn count_of(text: &[u8], wanted: &str) -> usize {
    let mut count: usize = 0;
    for line in text.split(|byte| *byte == b'\n') {
        if line == wanted.as_bytes() {
            count = count.saturating_add(1);
        }
    }
    count
}

/// Two steps up and two down lead to 4; the first one can't be a step down.
#[test]
fn four_is_counted(rt: HostRuntime) {
    let answers = [
        "Optimal 6, weak 0\n",
        "Plan, cost 6\n",
        "Yes: no plan costs less than 6\n",
        "Yes: the plan costs 6 and no plan costs less\n",
    ];
    let shelf = solved(&rt, (COUNTER, FOUR), answers);
    let plan = shelf.get("plan").expect(&rt, "it was put");
    assert!(&rt; plan.starts_with(b"(inc)\n"));
    assert_eq!(&rt; (count_of(plan, "(inc)"), count_of(plan, "(dec)")), (2, 2));
    assert_eq!(&rt; (plan.len(), plan.last()), (24, Some(&b'\n')));
}

/// Driving a, b, c, b, c costs 22 and burns 11, for which the truck refuels twice at 3; two loads and two unloads cost 4.
#[test]
fn parcels_are_delivered_cheapest(rt: HostRuntime) {
    let answers = [
        "Optimal 32, weak 0\n",
        "Plan, cost 32\n",
        "Yes: no plan costs less than 32\n",
        "Yes: the plan costs 32 and no plan costs less\n",
    ];
    let shelf = solved(&rt, (DELIVERY, TWO_PARCELS), answers);
    let plan = shelf.get("plan").expect(&rt, "it was put");
    assert_eq!(&rt; count_of(plan, "(refuel t1 b)"), 2);
}
