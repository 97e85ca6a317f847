//! Answers of `check` on the counter and others, with and without a plan, worked by hand.
use crate::pairs::{COUNTER, FOUR};
use crate::trial::{expect_check, expect_check_beside, pair_of, shelf};
use std::process::Abort;

/// A certificate by expansion that no plan costs less than 6.
const THIN: &str = "(certificate 1 (claim 6)
(proofs)
(entries
(entry (facts) (values 0) 6 expanded)
(entry (facts) (values 3) 4 expanded)
(entry (facts) (values 6) 2 expanded)
(entry (facts) (values 2) 3 expanded)
(entry (facts) (values 5) 1 expanded)
(entry (facts) (values 1) 2 expanded)))";

/// The same with proofs, by which some of the entries are justified.
const PROVED: &str = "(certificate 1 (claim 6)
(proofs
(proof 1 (1 demand 2))
(proof 3 (2 demand 1)))
(entries
(entry (facts) (values 0) 6 expanded)
(entry (facts) (values 3) 4 expanded)
(entry (facts) (values 6) 2 (proof 0))
(entry (facts) (values 2) 3 expanded)
(entry (facts) (values 5) 1 (proof 0))
(entry (facts) (values 1) 2 (proof 1))))";

/// What is said, and the status.
type Said<'a> = (&'a str, u8);

const SIX: Said<'static> = ("Yes: no plan costs less than 6\n", 0);

const CHEAPEST: Said<'static> = ("Yes: the plan costs 6 and no plan costs less\n", 0);

const ABOVE: Said<'static> = ("No: the claim is above the start's bound\n", 6);

const FIRST: Said<'static> = ("No: entry 0 is not justified\n", 6);

const SECOND: Said<'static> = ("No: entry 1 is not justified\n", 6);

const THIRD: Said<'static> = ("No: entry 2 is not justified\n", 6);

const FOURTH: Said<'static> = ("No: entry 3 is not justified\n", 6);

const SIXTH: Said<'static> = ("No: entry 5 is not justified\n", 6);

const SEVENTH: Said<'static> = ("No: entry 6 is not justified\n", 6);

const TWICE: Said<'static> = ("No: entry 6 repeats a state\n", 6);

const NO_GOAL: Said<'static> = ("No: the goal does not hold at the end\n", 6);

const UNAPPLICABLE: Said<'static> = ("No: step 1 is not applicable\n", 6);

const UNREAD: Said<'static> = ("Refused: certificate 9:39 syntax\n", 3);

const LAST: &str = "(values 1) 2 expanded)";

/// What is replaced in the certificate by what, what `check` says of it alone, and what it says beside a plan of cost 6.
const CHANGED: &[(&str, &str, Said<'static>, Said<'static>)] = &[
    ("(claim 6)", "(claim 6)", SIX, CHEAPEST),
    (
        "(claim 6)",
        "(claim 5)",
        ("Yes: no plan costs less than 5\n", 0),
        ("No: the plan costs 6 and the claim is 5\n", 6),
    ),
    (
        "(claim 6)",
        "(claim 0)",
        ("Yes: no plan costs less than 0\n", 0),
        ("No: the plan costs 6 and the claim is 0\n", 6),
    ),
    ("(claim 6)", "(claim 7)", ABOVE, ABOVE),
    ("(claim 6)", "(claim none)", ABOVE, ABOVE),
    ("(values 3) 4", "(values 3) 5", SECOND, SECOND),
    ("(values 3) 4", "(values 3) 3", FIRST, FIRST),
    ("(values 3) 4", "(values 3) none", SECOND, SECOND),
    ("(values 1) 2", "(values 1) 1", FOURTH, FOURTH),
    ("(values 1) 2", "(values 7) 1", FOURTH, FOURTH),
    (
        LAST,
        "(values 1) 2 expanded)\n(entry (facts) (values 2) 3 expanded)",
        TWICE,
        TWICE,
    ),
    // A repeated state comes before what isn't justified.
    (
        LAST,
        "(values 1) 2 expanded)\n(entry (facts) (values 2) 4 expanded)",
        TWICE,
        TWICE,
    ),
    // A state where the goal holds has no bound above 0 by expansion.
    (
        LAST,
        "(values 1) 2 expanded)\n(entry (facts) (values 4) 1 expanded)",
        SEVENTH,
        SEVENTH,
    ),
    (")))", "))", UNREAD, UNREAD),
    (
        "(values 0) 6 expanded",
        "(values 0) 6 (proof 0)",
        FIRST,
        FIRST,
    ),
    ("(proofs)", "(proofs (proof 1 (1 demand 2)))", SIX, CHEAPEST),
    (
        "(values 0) 6 expanded",
        "(values 0) 3 (table (1 3))",
        ABOVE,
        ABOVE,
    ),
    (
        "(values 0) 6 expanded",
        "(values 0) 6 (table (1 3))",
        FIRST,
        FIRST,
    ),
];

/// The same changes of the certificate with proofs.
const CHANGED_PROOFS: &[(&str, &str, Said<'static>, Said<'static>)] = &[
    ("(claim 6)", "(claim 6)", SIX, CHEAPEST),
    ("(claim 6)", "(claim 7)", ABOVE, ABOVE),
    ("(values 3) 4", "(values 3) 5", SECOND, SECOND),
    ("(values 6) 2", "(values 6) 3", THIRD, THIRD),
    (
        "(values 1) 2 (proof 1)",
        "(values 1) 2 (proof 2)",
        SIXTH,
        SIXTH,
    ),
    (
        "(proof 3 (2",
        "(proof 3 (3",
        ("No: proof 1 fails\n", 6),
        ("No: proof 1 fails\n", 6),
    ),
    (
        "(values 6) 2 (proof 0)",
        "(values 6) 2 (table (2 2))",
        SIX,
        CHEAPEST,
    ),
    (
        "(values 6) 2 (proof 0)",
        "(values 6) 2 (table (2 3))",
        THIRD,
        THIRD,
    ),
    (
        "(values 1) 2 (proof 1))",
        "(values 1) 2 (proof 1))\n(entry (facts) (values 2) 3 expanded)",
        TWICE,
        TWICE,
    ),
    (
        "))))",
        ")))",
        ("Refused: certificate 11:40 syntax\n", 3),
        ("Refused: certificate 11:40 syntax\n", 3),
    ),
];

/// Checks a certificate for the counter alone, and then beside a plan of cost 6.
fn expect_both(
    rt: &(impl Abort + AllocGlobal),
    certificate: &str,
    alone: Said<'_>,
    beside: Said<'_>,
) {
    let mut shelf = shelf(rt, COUNTER.as_bytes(), FOUR.as_bytes());
    shelf
        .set("cert", certificate.as_bytes())
        .expect(rt, "memory");
    expect_check(rt, &mut shelf, alone.0, alone.1);
    let plan = b"(inc)\n(inc)\n(dec)\n(dec)\n";
    shelf.set("plan", plan).expect(rt, "memory");
    expect_check_beside(rt, &mut shelf, beside.0, beside.1);
}

#[test]
fn changed_certificates_are_judged(rt: HostRuntime) {
    for (piece, other, alone, beside) in CHANGED {
        let text = THIN
            .replace(rt.alloc(), *piece, other)
            .expect(&rt, "memory");
        expect_both(&rt, text.as_str(), *alone, *beside);
    }
    for (piece, other, alone, beside) in CHANGED_PROOFS {
        let text = PROVED
            .replace(rt.alloc(), *piece, other)
            .expect(&rt, "memory");
        expect_both(&rt, text.as_str(), *alone, *beside);
    }
}

/// Claims, and plans beside the certificate for the counter with this claim, with what is said.
const PLANS: &[(&str, &str, Said<'static>)] = &[
    (
        "(claim 6)",
        "(inc) (dec) (inc) (dec)",
        ("Yes: the plan costs 6 and no plan costs less\n", 0),
    ),
    (
        "(claim 6)",
        "0: (inc) 1: (inc) 1.5: (dec) 2: (dec)",
        ("Yes: the plan costs 6 and no plan costs less\n", 0),
    ),
    (
        "(claim 6)",
        "(inc) (inc) (inc) (dec) (dec) (dec) (dec) (dec)",
        ("No: the plan costs 11 and the claim is 6\n", 6),
    ),
    ("(claim 6)", "(dec)", UNAPPLICABLE),
    (
        "(claim 6)",
        "(inc) (dec) (dec) (dec) (dec)",
        ("No: step 5 is not applicable\n", 6),
    ),
    ("(claim 6)", "", NO_GOAL),
    ("(claim 6)", "(inc)", NO_GOAL),
    // Faults of the certificate come before those of a plan that was read.
    ("(claim 7)", "(dec)", ABOVE),
    ("(claim 7)", "", ABOVE),
    // A plan that isn't read comes before faults of the certificate.
    (
        "(claim 7)",
        "0.0: (inc)\n0: (inc)",
        ("Refused: plan 2:1 stamp order\n", 3),
    ),
    (
        "(claim 7)",
        "(inc a)",
        ("Refused: plan 1:1 unknown step\n", 3),
    ),
    (
        "(claim 7)",
        "(inc)\n(go)",
        ("Refused: plan 2:1 unknown step\n", 3),
    ),
    ("(claim 7)", "(inc", ("Refused: plan 1:5 syntax\n", 3)),
    (
        "(claim 7)",
        "(inc)\n1: (inc)",
        ("Refused: plan 2:1 syntax\n", 3),
    ),
    ("(claim 7)", "(go)\n(inc", ("Refused: plan 2:5 syntax\n", 3)),
    (
        "(claim 7)",
        "0: (inc)\n0: (go)",
        ("Refused: plan 2:1 stamp order\n", 3),
    ),
    (
        "(claim 7)",
        "000000000000000000000000000000000000000: (inc)",
        ("Refused: plan 1:1 number wide\n", 3),
    ),
];

/// Checks a certificate beside a plan.
fn expect_beside(
    rt: &(impl Abort + AllocGlobal),
    pair: (&str, &str),
    certificate: &str,
    plan: &str,
    said: Said<'_>,
) {
    let mut shelf = shelf(rt, pair.0.as_bytes(), pair.1.as_bytes());
    shelf
        .set("cert", certificate.as_bytes())
        .expect(rt, "memory");
    shelf.set("plan", plan.as_bytes()).expect(rt, "memory");
    expect_check_beside(rt, &mut shelf, said.0, said.1);
    assert_eq!(rt; shelf.calls(), 4);
}

#[test]
fn plans_are_judged(rt: HostRuntime) {
    for certificate in [THIN, PROVED] {
        for (claim, plan, said) in PLANS {
            let text = certificate
                .replace(rt.alloc(), "(claim 6)", claim)
                .expect(&rt, "memory");
            expect_beside(&rt, (COUNTER, FOUR), text.as_str(), plan, *said);
        }
    }
}

/// Rooms, and doors that never change. The facts are numbered as steps read them: `in a`, `in b`, and `in c` for the goal.
const ROOMS: &str = "(:types room) (:predicates (in ?r - room) (open ?a ?b - room))
 (:action go :parameters (?a ?b - room) :precondition (and (in ?a) (open ?a ?b)) :effect (and (not (in ?a)) (in ?b)))";

const THIRD_ROOM: &str =
    "(:objects a b c - room) (:init (in a) (open a b) (open b c)) (:goal (in c))";

/// Its step is dropped, since y has no value.
const MISSING: &str =
    "(:predicates (p)) (:functions (y)) (:action a :precondition (>= (y) 1) :effect (p))";

const IN_TWO: &str =
    "(certificate 1 (claim 2) (proofs) (entries (entry (facts 0) (values) 2 expanded)
(entry (facts 1) (values) 1 expanded)))";

const NONE: &str =
    "(certificate 1 (claim none) (proofs) (entries (entry (facts) (values) none expanded)))";

/// A tool, fact and subgoal 0, is fetched for 7, and then each piece costs 1. The goal, subgoal 1, is x - 2.
const TOOL: &str = "(:predicates (tool)) (:functions (x) (c))
 (:action piece :precondition (tool) :effect (and (increase (x) 1) (increase (c) 1)))
 (:action fetch :effect (and (tool) (increase (c) 7)))";

const PIECES: &str = "(:init (= (x) 0)) (:goal (>= (x) 2)) (:metric minimize (c))";

const NUMBERS: &str =
    "(certificate 1 (claim 9) (proofs) (entries (entry (facts) (values 0) 9 (table (0 7) (1 9)))))";

/// Sections, certificates and plans, with what is said.
const SECTIONS: &[(&str, &str, &str, &str, Said<'static>)] = &[
    (
        ROOMS,
        THIRD_ROOM,
        IN_TWO,
        "(go a b) (go b c)",
        ("Yes: the plan costs 2 and no plan costs less\n", 0),
    ),
    // A step of the task that the flat task dropped, and one that is none.
    (ROOMS, THIRD_ROOM, IN_TWO, "(go a c)", UNAPPLICABLE),
    (
        ROOMS,
        THIRD_ROOM,
        IN_TWO,
        "(go a)",
        ("Refused: plan 1:1 unknown step\n", 3),
    ),
    (
        ROOMS,
        THIRD_ROOM,
        "(certificate 1 (claim 0) (proofs) (entries (entry (facts 1 0) (values) 0 expanded)))",
        "",
        FIRST,
    ),
    (
        ROOMS,
        THIRD_ROOM,
        "(certificate 1 (claim 0) (proofs) (entries (entry (facts 3) (values) 0 expanded)))",
        "",
        FIRST,
    ),
    (
        ROOMS,
        THIRD_ROOM,
        "(certificate 1 (claim 0) (proofs) (entries (entry (facts 0 1 2) (values) 0 expanded)))",
        "(go a b) (go b c)",
        ("No: the plan costs 2 and the claim is 0\n", 6),
    ),
    (MISSING, "(:goal (p))", NONE, "", NO_GOAL),
    (MISSING, "(:goal (p))", NONE, "(a)", UNAPPLICABLE),
    (
        TOOL,
        PIECES,
        NUMBERS,
        "(fetch) (piece) (piece)",
        ("Yes: the plan costs 9 and no plan costs less\n", 0),
    ),
    (
        TOOL,
        PIECES,
        NUMBERS,
        "(fetch) (piece) (piece) (piece)",
        ("No: the plan costs 10 and the claim is 9\n", 6),
    ),
    (TOOL, PIECES, NUMBERS, "(piece)", UNAPPLICABLE),
    (TOOL, PIECES, NUMBERS, "(fetch) (piece)", NO_GOAL),
    (
        TOOL,
        PIECES,
        "(certificate 1 (claim 9) (proofs) (entries (entry (facts) (values 0) 9 (table (0 8) (1 9)))))",
        "(fetch) (piece) (piece)",
        FIRST,
    ),
];

#[test]
fn sections_are_judged(rt: HostRuntime) {
    for (domain, problem, certificate, plan, said) in SECTIONS {
        let (domain, problem) = pair_of(&rt, domain, problem);
        let pair = (domain.as_str(), problem.as_str());
        expect_beside(&rt, pair, certificate, plan, *said);
    }
}
