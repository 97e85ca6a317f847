//! Answers of `check` to certificates with counting proofs, worked by hand.
use crate::pairs::{COUNTER, FOUR};
use crate::trial::{expect_verdict, pair_of};

/// What is said, and the status.
type Said<'a> = (&'a str, u8);

const NO_PLAN: Said<'static> = ("Yes: there is no plan\n", 0);

const NOTHING: Said<'static> = ("Yes: no plan costs less than 0\n", 0);

const ABOVE: Said<'static> = ("No: the claim is above the start's bound\n", 6);

const FIRST: Said<'static> = ("No: entry 0 is not justified\n", 6);

const FAILS: Said<'static> = ("No: proof 0 fails\n", 6);

/// The counter that is wanted below 0, where none of its steps leads: subgoal 0 is x - 1, what `dec` needs, and subgoal 1
/// is -x - 1, the goal. The demand of the goal counts -3 for each `inc` and 1 for each `dec`, and asks for 1; the floor of
/// x - 1 at -1 counts 3 and -1, and asks for 0.
const FLOOR: &str = "(certificate 1 (claim none) (proofs (proof 0 (1 demand 1) (1 floor 0 -1)))
(entries (entry (facts) (values 0) none (proof 0))))";

const BELOW: &str = "(define (problem p) (:domain counter) (:init (= (x) 0)) (:goal (< (x) 0))
 (:metric minimize (c)))";

/// What is replaced in that certificate by what, and what is said.
const FLOORS: &[(&str, &str, Said<'static>)] = &[
    ("(claim none)", "(claim none)", NO_PLAN),
    ("floor 0 -1", "floor 0 0", FAILS),
    // A lower floor asks for less.
    ("floor 0 -1", "floor 0 -2", FIRST),
    (
        "(claim none)",
        "(claim 4611686018427387903)",
        ("Yes: no plan costs less than 4611686018427387903\n", 0),
    ),
    ("(claim none)", "(claim 4611686018427387904)", ABOVE),
    // 2^125 below 0, and one less.
    (
        "floor 0 -1",
        "floor 0 -42535295865117307932921825928971026432",
        FAILS,
    ),
    (
        "floor 0 -1",
        "floor 0 -42535295865117307932921825928971026431",
        FIRST,
    ),
    // Where there is no plan each bound is right, but a number is one that has to be small.
    (
        "0) none (proof 0)",
        "0) 4611686018427387903 (proof 0)",
        ABOVE,
    ),
    (
        "0) none (proof 0)",
        "0) 4611686018427387904 (proof 0)",
        FIRST,
    ),
    // The divisor makes a bound of 1 out of it.
    ("(proof 0 (1", "(proof 1 (1", FIRST),
    // The same row twice counts twice.
    (
        "(1 demand 1)",
        "(1 demand 1) (1 floor 0 -1) (1 demand 1)",
        NO_PLAN,
    ),
    ("(1 demand 1)", "(2 demand 1)", FAILS),
    ("(1 floor 0 -1)", "", FAILS),
    ("(proof 0)))", "(proof 1)))", FIRST),
    ("(values 0)", "(values -1)", FIRST),
];

/// Certificates for the counter that is wanted at 4: subgoal 0 is x - 1, 1 is x - 4, and 2 is 4 - x. Each has the claim 0,
/// one proof, and an entry at this value with this bound and reason.
const JUDGED: &[(&str, &str, Said<'static>)] = &[
    // No item: the bound is 0 everywhere.
    ("1", "(values 0) 0 (proof 0)", NOTHING),
    ("1", "(values 0) 1 (proof 0)", FIRST),
    ("0", "(values 9) 0 (proof 0)", NOTHING),
    ("0", "(values 9) 1 (proof 0)", FIRST),
    // From 6 down to 4 by steps of 1, and from 0 up to 4 at 2 for 3, rounded up.
    ("1 (1 demand 2)", "(values 6) 2 (proof 0)", NOTHING),
    ("1 (1 demand 2)", "(values 6) 3 (proof 0)", FIRST),
    ("3 (2 demand 1)", "(values 0) 3 (proof 0)", NOTHING),
    ("3 (2 demand 1)", "(values 0) 4 (proof 0)", FIRST),
    ("3 (2 demand 1)", "(values 9) 0 (proof 0)", NOTHING),
    ("3 (2 demand 1)", "(values 9) 1 (proof 0)", FIRST),
    ("3 (3 demand 1)", "(values 0) 0 expanded", FAILS),
    ("2 (2 demand 1)", "(values 0) 0 expanded", FAILS),
    // Limits of weights, of divisors and of what a row names.
    ("1 (0 demand 2)", "(values 0) 0 expanded", FAILS),
    (
        "4611686018427387903 (4611686018427387903 demand 2)",
        "(values 6) 2 (proof 0)",
        NOTHING,
    ),
    (
        "4611686018427387903 (4611686018427387904 demand 2)",
        "(values 0) 0 expanded",
        FAILS,
    ),
    (
        "4611686018427387904 (1 demand 2)",
        "(values 0) 0 expanded",
        FAILS,
    ),
    (
        "4611686018427387903 (1 demand 2)",
        "(values 6) 1 (proof 0)",
        NOTHING,
    ),
    ("1 (1 demand 0)", "(values 0) 0 expanded", FAILS),
    ("1 (1 demand 3)", "(values 0) 0 expanded", FAILS),
    (
        "1 (1 demand 18446744073709551615)",
        "(values 0) 0 expanded",
        FAILS,
    ),
    ("1 (1 flow 0)", "(values 0) 0 expanded", FAILS),
    // A cut counts a step that makes one of its members true and needs none of them.
    ("1 (1 cut 2)", "(values 6) 1 (proof 0)", NOTHING),
    ("1 (1 cut 2)", "(values 6) 2 (proof 0)", FIRST),
    ("2 (2 cut 1)", "(values 0) 1 (proof 0)", NOTHING),
    ("1 (2 cut 1)", "(values 0) 2 (proof 0)", NOTHING),
    ("1 (2 cut 1)", "(values 0) 3 (proof 0)", FIRST),
    ("1 (3 cut 1)", "(values 0) 0 expanded", FAILS),
    // One that holds takes the right side away; `dec` needs subgoal 0.
    ("1 (1 cut 0 1)", "(values 0) 1 (proof 0)", NOTHING),
    ("1 (1 cut 0 1)", "(values 1) 1 (proof 0)", FIRST),
    ("1 (1 cut 0 2)", "(values 0) 1 (proof 0)", FIRST),
    ("1 (2 cut 0 2)", "(values 0) 0 (proof 0)", NOTHING),
    ("1 (1 cut 1 0)", "(values 0) 0 expanded", FAILS),
    ("1 (1 cut 1 1)", "(values 0) 0 expanded", FAILS),
    ("1 (1 cut 3)", "(values 0) 0 expanded", FAILS),
    // A product that 128 bits don't hold: of a right side alone, at this state.
    (
        "4611686018427387903 (4611686018427387903 demand 2)",
        "(values 100000000000000000000000000) 1 (proof 0)",
        FIRST,
    ),
    (
        "4611686018427387903 (1 demand 2)",
        "(values 100000000000000000000000000) 1 (proof 0)",
        NOTHING,
    ),
];

/// Subgoal 0 is 5 - x - 10^9 y; `leap` lowers it by 10^27. Times a large weight that isn't a number of 128 bits.
const LEAP: &str = "(:functions (x) (y)) (:action creep :effect (increase (x) 1))
 (:action leap :effect (increase (y) 1000000000000000000))";

const LOW: &str = "(:init (= (x) 0) (= (y) 0)) (:goal (<= (+ (x) (* 1000000000 (y))) 5))";

/// Steps that carry between two values, without end in both directions. The sum of the two stays.
const CARRIED: &str =
    "(:functions (x) (y)) (:action over :effect (and (increase (x) 1) (decrease (y) 1)))
 (:action back :effect (and (decrease (x) 1) (increase (y) 1)))";

/// Rooms, and doors that never change. Fact and subgoal 0 are `in a`, 1 `in b`, 2 `in c`; steps are from a to b, and from b to c.
const ROOMS: &str = "(:types room) (:predicates (in ?r - room) (open ?a ?b - room))
 (:action go :parameters (?a ?b - room) :precondition (and (in ?a) (open ?a ?b)) :effect (and (not (in ?a)) (in ?b)))";

const THIRD: &str = "(:objects a b c - room) (:init (in a) (open a b) (open b c)) (:goal (in c))";

/// The lamp is wanted off. Fact 0 is that it is lit, subgoal 0 that it isn't.
const LAMP: &str = "(:predicates (lit)) (:action out :effect (not (lit)))";

/// Sections and certificates, with what is said.
const SECTIONS: &[(&str, &str, &str, Said<'static>)] = &[
    (
        CARRIED,
        "(:init (= (x) 0) (= (y) 0)) (:goal (and (>= (x) 3) (>= (y) 0)))",
        "(certificate 1 (claim none) (proofs (proof 0 (1 demand 0) (1 demand 1))) (entries (entry (facts) (values 0 0) none (proof 0))))",
        NO_PLAN,
    ),
    (
        CARRIED,
        "(:init (= (x) 0) (= (y) 3)) (:goal (and (>= (x) 3) (>= (y) 0)))",
        "(certificate 1 (claim none) (proofs (proof 0 (1 demand 0) (1 demand 1))) (entries (entry (facts) (values 0 3) none (proof 0))))",
        FIRST,
    ),
    (
        LEAP,
        LOW,
        "(certificate 1 (claim 0) (proofs (proof 1 (1 demand 0))) (entries))",
        NOTHING,
    ),
    (
        LEAP,
        LOW,
        "(certificate 1 (claim 0) (proofs (proof 1 (4611686018427387903 demand 0))) (entries))",
        FAILS,
    ),
    (
        ROOMS,
        THIRD,
        "(certificate 1 (claim 2) (proofs (proof 1 (2 flow 2) (1 flow 1))) (entries (entry (facts 0) (values) 2 (proof 0))))",
        ("Yes: no plan costs less than 2\n", 0),
    ),
    (
        ROOMS,
        THIRD,
        "(certificate 1 (claim 2) (proofs (proof 1 (2 flow 2) (1 flow 1))) (entries (entry (facts 0) (values) 3 (proof 0))))",
        FIRST,
    ),
    // In room b the flow of b asks for one step out more than in.
    (
        ROOMS,
        THIRD,
        "(certificate 1 (claim 0) (proofs (proof 1 (2 flow 2) (1 flow 1))) (entries (entry (facts 1) (values) 2 (proof 0))))",
        FIRST,
    ),
    (
        ROOMS,
        THIRD,
        "(certificate 1 (claim 0) (proofs (proof 1 (2 flow 2) (1 flow 1))) (entries (entry (facts 1) (values) 1 (proof 0))))",
        NOTHING,
    ),
    (
        ROOMS,
        THIRD,
        "(certificate 1 (claim 0) (proofs (proof 1 (2 flow 2))) (entries))",
        FAILS,
    ),
    // No step comes into a, so nothing leads to c from where none of the rooms is left.
    (
        ROOMS,
        THIRD,
        "(certificate 1 (claim 0) (proofs (proof 0 (1 flow 2) (1 flow 1) (1 flow 0))) (entries (entry (facts) (values) none (proof 0))))",
        NOTHING,
    ),
    (
        ROOMS,
        THIRD,
        "(certificate 1 (claim 0) (proofs (proof 0 (1 flow 2) (1 flow 1) (1 flow 0))) (entries (entry (facts 0) (values) none (proof 0))))",
        FIRST,
    ),
    (
        ROOMS,
        THIRD,
        "(certificate 1 (claim 0) (proofs (proof 1 (1 demand 2))) (entries))",
        FAILS,
    ),
    (
        ROOMS,
        THIRD,
        "(certificate 1 (claim 0) (proofs (proof 1 (1 flow 3))) (entries))",
        FAILS,
    ),
    // A proof that fails comes before an entry that repeats a state, and the first that fails is named.
    (
        ROOMS,
        THIRD,
        "(certificate 1 (claim 0) (proofs (proof 1) (proof 1 (1 flow 3)) (proof 1 (1 flow 3))) (entries (entry (facts) (values) 0 expanded) (entry (facts) (values) 0 expanded)))",
        ("No: proof 1 fails\n", 6),
    ),
    // What the goal asks for is that the fact is false.
    (
        LAMP,
        "(:init (lit)) (:goal (not (lit)))",
        "(certificate 1 (claim 1) (proofs (proof 1 (1 flow-not 0))) (entries (entry (facts 0) (values) 1 (proof 0))))",
        ("Yes: no plan costs less than 1\n", 0),
    ),
    (
        LAMP,
        "(:init (lit)) (:goal (not (lit)))",
        "(certificate 1 (claim 1) (proofs (proof 1 (1 flow 0))) (entries (entry (facts 0) (values) 1 (proof 0))))",
        FIRST,
    ),
    (
        LAMP,
        "(:init (lit)) (:goal (not (lit)))",
        "(certificate 1 (claim 0) (proofs (proof 1 (1 flow-not 0))) (entries (entry (facts) (values) 1 (proof 0))))",
        FIRST,
    ),
];

#[test]
fn floors_are_judged(rt: HostRuntime) {
    for (piece, other, said) in FLOORS {
        let text = FLOOR
            .replace(rt.alloc(), *piece, other)
            .expect(&rt, "memory");
        expect_verdict(&rt, (COUNTER, BELOW), text.as_str(), *said);
    }
}

#[test]
fn proofs_of_the_counter_are_judged(rt: HostRuntime) {
    for (proof, entry, said) in JUDGED {
        let text = format!(in rt.alloc();
            "(certificate 1 (claim 0) (proofs (proof {proof})) (entries (entry (facts) {entry})))"
        ).expect(&rt, "memory");
        expect_verdict(&rt, (COUNTER, FOUR), text.as_str(), *said);
    }
}

#[test]
fn proofs_of_other_pairs_are_judged(rt: HostRuntime) {
    for (domain, problem, certificate, said) in SECTIONS {
        let (domain, problem) = pair_of(&rt, domain, problem);
        expect_verdict(&rt, (domain.as_str(), problem.as_str()), certificate, *said);
    }
}
