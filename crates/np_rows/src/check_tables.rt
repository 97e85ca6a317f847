//! Answers of `check` to certificates with tables as reasons, worked by hand.
use crate::pairs::{COUNTER, FOUR};
use crate::trial::{expect_verdict, pair_of};

/// What is said, and the status.
type Said<'a> = (&'a str, u8);

const NO_PLAN: Said<'static> = ("Yes: there is no plan\n", 0);

const NOTHING: Said<'static> = ("Yes: no plan costs less than 0\n", 0);

const TWO: Said<'static> = ("Yes: no plan costs less than 2\n", 0);

const FOUR_AT_LEAST: Said<'static> = ("Yes: no plan costs less than 4\n", 0);

const LARGEST: Said<'static> = ("Yes: no plan costs less than 4611686018427387903\n", 0);

const ABOVE: Said<'static> = ("No: the claim is above the start's bound\n", 6);

const FIRST: Said<'static> = ("No: entry 0 is not justified\n", 6);

const SECOND: Said<'static> = ("No: entry 1 is not justified\n", 6);

const THIRD: Said<'static> = ("No: entry 2 is not justified\n", 6);

const FOURTH: Said<'static> = ("No: entry 3 is not justified\n", 6);

/// Claims, entries and what is said, for the counter that is wanted at 4: subgoal 0 is x - 1, what `dec` needs, 1 is x - 4, and
/// 2 is 4 - x.
const COUNTED: &[(&str, &str, Said<'static>)] = &[
    // At 0, 4 lack at 2 for 3, which is 8/3 and so 3.
    (
        "3",
        "(values 0) 3 (table (1 3))",
        ("Yes: no plan costs less than 3\n", 0),
    ),
    ("4", "(values 0) 4 (table (1 4))", FIRST),
    ("4", "(values 0) 3 (table (1 3))", ABOVE),
    // The bound is at most the largest number among the goal's subgoals, and the numbers have to be right where it is less.
    ("2", "(values 0) 2 (table (1 3))", TWO),
    ("0", "(values 0) 3 (table (1 2))", FIRST),
    ("0", "(values 0) 3 (table (1 4))", FIRST),
    ("0", "(values 0) 1 (table)", FIRST),
    ("0", "(values 0) 0 (table)", NOTHING),
    // At 1, 3 lack at 2 for 3, which is 2 at once.
    ("0", "(values 1) 2 (table (1 2))", NOTHING),
    ("0", "(values 1) 3 (table (1 3))", FIRST),
    // At 6, 2 are too many, which `dec` takes at 1 each; what it needs holds.
    ("0", "(values 6) 2 (table (2 2))", NOTHING),
    ("0", "(values 6) 3 (table (2 3))", FIRST),
    ("0", "(values 6) 2 (table (0 1) (2 2))", FIRST),
    // At the goal both hold.
    ("0", "(values 4) 0 (table)", NOTHING),
    ("0", "(values 4) 1 (table (1 1))", FIRST),
    // Subgoal 0 isn't in the goal. At -3 it lacks 4, and subgoal 1 lacks 7 at 2 for 3, which is 14/3 and so 5.
    ("0", "(values -3) 5 (table (0 3) (1 5))", NOTHING),
    ("0", "(values -3) 3 (table (0 3))", FIRST),
    ("0", "(values -3) 0 (table (0 3))", NOTHING),
    ("0", "(values -3) 5 (table (0 4) (1 5))", FIRST),
    // A 0 may be listed, of what holds and of what doesn't.
    ("0", "(values 0) 3 (table (0 0) (1 3) (2 0))", NOTHING),
    ("0", "(values 0) 3 (table (0 1) (1 3))", NOTHING),
    ("0", "(values 0) 3 (table (0 2) (1 3))", FIRST),
    // Of what holds there is no other number.
    ("0", "(values 0) 3 (table (1 3) (2 1))", FIRST),
    ("0", "(values 0) 3 (table (1 3) (2 none))", FIRST),
    // There are three subgoals, and they ascend.
    ("0", "(values 0) 3 (table (1 3) (3 0))", FIRST),
    ("0", "(values 0) 3 (table (1 3) (1 3))", FIRST),
    ("0", "(values 0) 3 (table (1 3) (0 1))", FIRST),
    // A step achieves subgoal 1.
    ("none", "(values 0) none (table (1 none))", FIRST),
    ("0", "(values 0) 0 (table (1 none))", FIRST),
    // 1 and 3 past 2^64.
    ("0", "(values 0) 3 (table (18446744073709551617 3))", FIRST),
    ("0", "(values 0) 3 (table (1 18446744073709551619))", FIRST),
    // Numbers are below 10^38.
    (
        "0",
        "(values 0) 0 (table (0 99999999999999999999999999999999999999))",
        FIRST,
    ),
    (
        "0",
        "(values 0) 0 (table (99999999999999999999999999999999999999 0))",
        FIRST,
    ),
    (
        "0",
        "(values 0) 0 (table (0 100000000000000000000000000000000000000))",
        ("Refused: certificate 1:82 syntax\n", 3),
    ),
    (
        "0",
        "(values 0) 0 (table (100000000000000000000000000000000000000 0))",
        ("Refused: certificate 1:80 syntax\n", 3),
    ),
    // 2^127.
    (
        "0",
        "(values 0) 0 (table (0 170141183460469231731687303715884105728))",
        ("Refused: certificate 1:82 syntax\n", 3),
    ),
    // What an entry lists says nothing of the next one.
    (
        "0",
        "(values 0) 3 (table (1 3))) (entry (facts) (values -1) 3 (table)",
        SECOND,
    ),
    (
        "0",
        "(values -3) 5 (table (0 3) (1 5))) (entry (facts) (values 1) 2 (table (1 2))",
        NOTHING,
    ),
    // The state and the bound are such as every entry has.
    ("0", "(values) 0 (table)", FIRST),
    ("0", "(values 154742504910672534362390528) 0 (table)", FIRST),
    ("0", "(values 0) 4611686018427387904 (table (1 3))", FIRST),
    // At the largest value much more than 2^62 - 1 lacks, and no number is larger than that.
    (
        "0",
        "(values 154742504910672534362390527) 4611686018427387903 (table (2 4611686018427387903))",
        NOTHING,
    ),
    (
        "0",
        "(values 154742504910672534362390527) 4611686018427387903 (table (2 4611686018427387904))",
        FIRST,
    ),
];

/// Subgoal 0 is x - 1, what `down` needs. The goal, subgoal 1, is x - 3, which no step achieves.
const DOWN: &str =
    "(:functions (x)) (:action down :precondition (>= (x) 1) :effect (decrease (x) 1))";

const UP: &str = "(:init (= (x) 2)) (:goal (>= (x) 3))";

/// Subgoal 0 is x - 1, what `up` needs and achieves. The goal has no subgoal.
const RUNG: &str =
    "(:functions (x)) (:action up :precondition (>= (x) 1) :effect (increase (x) 1))";

const ANYWHERE: &str = "(:init (= (x) 0)) (:goal (and))";

/// Rooms, and doors that never change. Fact and subgoal 0 are `in a`, 1 `in b`, 2 `in c`; steps are from a to b, and from b to c.
const ROOMS: &str = "(:types room) (:predicates (in ?r - room) (open ?a ?b - room))
 (:action go :parameters (?a ?b - room) :precondition (and (in ?a) (open ?a ?b)) :effect (and (not (in ?a)) (in ?b)))";

const LAST: &str = "(:objects a b c - room) (:init (in a) (open a b) (open b c)) (:goal (in c))";

/// The key is in the chest, and the chest is locked. Fact and subgoal 0 are the key, 1 the open chest.
const CHEST: &str = "(:predicates (key) (open)) (:action unlock :precondition (key) :effect (open))
 (:action take :precondition (open) :effect (key))";

const OPEN: &str = "(:goal (open))";

/// The lamp is wanted off. Fact 0 is that it is lit, subgoal 0 that it isn't.
const LAMP: &str = "(:predicates (lit)) (:action out :effect (not (lit)))";

/// A step that removes a fact and then adds it.
const FLICKER: &str = "(:predicates (lit)) (:action flicker :effect (and (not (lit)) (lit)))";

const DARK: &str = "(:init (lit)) (:goal (not (lit)))";

/// Work with a tool, fact and subgoal 0, costs 1 a piece and without one 5. Subgoal 1 is x - 2. Here the tool can be fetched for 7.
const FETCHED: &str = "(:predicates (tool)) (:functions (x) (c))
 (:action fast :precondition (tool) :effect (and (increase (x) 1) (increase (c) 1)))
 (:action slow :effect (and (increase (x) 1) (increase (c) 5)))
 (:action fetch :effect (and (tool) (increase (c) 7)))";

/// The same without slow work.
const WANTED: &str = "(:predicates (tool)) (:functions (x) (c))
 (:action fast :precondition (tool) :effect (and (increase (x) 1) (increase (c) 1)))
 (:action fetch :effect (and (tool) (increase (c) 7)))";

/// The tool can only be lost.
const LOST: &str = "(:predicates (tool)) (:functions (x) (c))
 (:action fast :precondition (tool) :effect (and (increase (x) 1) (increase (c) 1)))
 (:action slow :effect (and (increase (x) 1) (increase (c) 5)))
 (:action lose :effect (not (tool)))";

/// The same without slow work.
const IDLE: &str = "(:predicates (tool)) (:functions (x) (c))
 (:action fast :precondition (tool) :effect (and (increase (x) 1) (increase (c) 1)))
 (:action lose :effect (not (tool)))";

const PIECES: &str = "(:init (= (x) 0)) (:goal (>= (x) 2)) (:metric minimize (c))";

/// Subgoal 0 is x + 10^9 y - 5. `creep` raises it by 1 at a cost of 1, `leap` by 10^27 at a cost of 2^32 - 1.
const LEAP: &str =
    "(:functions (x) (y) (c)) (:action creep :effect (and (increase (x) 1) (increase (c) 1)))
 (:action leap :effect (and (increase (y) 1000000000000000000) (increase (c) 4294967295)))";

const HIGH: &str =
    "(:init (= (x) 0) (= (y) 0)) (:goal (>= (+ (x) (* 1000000000 (y))) 5)) (:metric minimize (c))";

/// Sections, claims and entries, with what is said.
const SECTIONS: &[(&str, &str, &str, &str, Said<'static>)] = &[
    // A form that no step achieves.
    (
        DOWN,
        UP,
        "none",
        "(facts) (values 2) none (table (1 none))",
        NO_PLAN,
    ),
    (
        DOWN,
        UP,
        "none",
        "(facts) (values 2) none (table (0 none) (1 none))",
        FIRST,
    ),
    (
        DOWN,
        UP,
        "none",
        "(facts) (values 3) none (table (1 none))",
        FIRST,
    ),
    (
        DOWN,
        UP,
        "4611686018427387903",
        "(facts) (values 2) 4611686018427387903 (table (1 none))",
        LARGEST,
    ),
    (
        DOWN,
        UP,
        "4611686018427387903",
        "(facts) (values 2) 4611686018427387903 (table (1 4611686018427387903))",
        LARGEST,
    ),
    (
        DOWN,
        UP,
        "0",
        "(facts) (values 2) 4611686018427387903 (table (1 4611686018427387904))",
        FIRST,
    ),
    (
        DOWN,
        UP,
        "0",
        "(facts) (values 2) 4611686018427387904 (table (1 none))",
        FIRST,
    ),
    (
        DOWN,
        UP,
        "0",
        "(facts) (values 2) none (table (1 4611686018427387903))",
        FIRST,
    ),
    (
        DOWN,
        UP,
        "none",
        "(facts) (values 2) 4611686018427387903 (table (1 none))",
        ABOVE,
    ),
    (
        DOWN,
        UP,
        "4611686018427387904",
        "(facts) (values 2) none (table (1 none))",
        ABOVE,
    ),
    // A goal without subgoals: what is listed is right, and no bound comes of it.
    (RUNG, ANYWHERE, "0", "(facts) (values 0) 0 (table)", NOTHING),
    (
        RUNG,
        ANYWHERE,
        "0",
        "(facts) (values 0) 0 (table (0 none))",
        NOTHING,
    ),
    (
        RUNG,
        ANYWHERE,
        "0",
        "(facts) (values 0) 1 (table (0 none))",
        FIRST,
    ),
    (RUNG, ANYWHERE, "0", "(facts) (values 0) 1 (table)", FIRST),
    (
        RUNG,
        ANYWHERE,
        "0",
        "(facts) (values 1) 0 (table (0 1))",
        FIRST,
    ),
    // What a step needs counts before its cost.
    (
        ROOMS,
        LAST,
        "2",
        "(facts 0) (values) 2 (table (1 1) (2 2))",
        TWO,
    ),
    (
        ROOMS,
        LAST,
        "0",
        "(facts 0) (values) 3 (table (1 1) (2 3))",
        FIRST,
    ),
    (
        ROOMS,
        LAST,
        "0",
        "(facts 0) (values) 3 (table (1 2) (2 3))",
        FIRST,
    ),
    (
        ROOMS,
        LAST,
        "0",
        "(facts 0) (values) 2 (table (2 2))",
        FIRST,
    ),
    (
        ROOMS,
        LAST,
        "0",
        "(facts 0) (values) 1 (table (2 1))",
        NOTHING,
    ),
    (
        ROOMS,
        LAST,
        "0",
        "(facts 0) (values) 0 (table (2 none))",
        FIRST,
    ),
    (
        ROOMS,
        LAST,
        "0",
        "(facts 0) (values) 0 (table (1 none) (2 none))",
        FIRST,
    ),
    // No step leads to room a, nor from nowhere to another.
    (
        ROOMS,
        LAST,
        "0",
        "(facts 1) (values) 1 (table (0 none) (2 1))",
        NOTHING,
    ),
    (
        ROOMS,
        LAST,
        "0",
        "(facts 0) (values) 1 (table (0 none) (2 1))",
        FIRST,
    ),
    (
        ROOMS,
        LAST,
        "0",
        "(facts) (values) none (table (0 none) (1 none) (2 none))",
        NOTHING,
    ),
    (
        ROOMS,
        LAST,
        "0",
        "(facts) (values) none (table (1 none) (2 none))",
        FIRST,
    ),
    // Each of the two waits for the other.
    (
        CHEST,
        OPEN,
        "none",
        "(facts) (values) none (table (0 none) (1 none))",
        NO_PLAN,
    ),
    (
        CHEST,
        OPEN,
        "none",
        "(facts) (values) none (table (1 none))",
        FIRST,
    ),
    (
        CHEST,
        OPEN,
        "none",
        "(facts) (values) none (table (0 none))",
        FIRST,
    ),
    (
        CHEST,
        OPEN,
        "0",
        "(facts 0) (values) 1 (table (1 1))",
        NOTHING,
    ),
    (
        CHEST,
        OPEN,
        "0",
        "(facts 0) (values) 2 (table (1 2))",
        FIRST,
    ),
    // What is wanted is that a fact is false.
    (
        LAMP,
        DARK,
        "1",
        "(facts 0) (values) 1 (table (0 1))",
        ("Yes: no plan costs less than 1\n", 0),
    ),
    (LAMP, DARK, "0", "(facts 0) (values) 2 (table (0 2))", FIRST),
    (LAMP, DARK, "0", "(facts) (values) 1 (table (0 1))", FIRST),
    (
        FLICKER,
        DARK,
        "none",
        "(facts 0) (values) none (table (0 none))",
        NO_PLAN,
    ),
    // For a form one step may give the reach and another the share: 0 by `slow`, and 2 by `fast`.
    (
        FETCHED,
        PIECES,
        "2",
        "(facts) (values 0) 2 (table (0 7) (1 2))",
        TWO,
    ),
    (
        FETCHED,
        PIECES,
        "0",
        "(facts) (values 0) 3 (table (0 7) (1 3))",
        FIRST,
    ),
    (
        FETCHED,
        PIECES,
        "0",
        "(facts) (values 0) 2 (table (0 8) (1 2))",
        FIRST,
    ),
    (
        FETCHED,
        PIECES,
        "0",
        "(facts) (values 0) 2 (table (0 none) (1 2))",
        FIRST,
    ),
    (
        FETCHED,
        PIECES,
        "0",
        "(facts 0) (values 0) 2 (table (1 2))",
        NOTHING,
    ),
    (
        WANTED,
        PIECES,
        "9",
        "(facts) (values 0) 9 (table (0 7) (1 9))",
        ("Yes: no plan costs less than 9\n", 0),
    ),
    (
        WANTED,
        PIECES,
        "0",
        "(facts) (values 0) 10 (table (0 7) (1 10))",
        FIRST,
    ),
    (
        WANTED,
        PIECES,
        "0",
        "(facts) (values 0) 9 (table (1 9))",
        FIRST,
    ),
    (
        WANTED,
        PIECES,
        "0",
        "(facts) (values 0) none (table (0 7) (1 none))",
        FIRST,
    ),
    // A step that needs what has no number is left out.
    (
        LOST,
        PIECES,
        "10",
        "(facts) (values 0) 10 (table (0 none) (1 10))",
        ("Yes: no plan costs less than 10\n", 0),
    ),
    (
        LOST,
        PIECES,
        "0",
        "(facts) (values 0) 11 (table (0 none) (1 11))",
        FIRST,
    ),
    (
        LOST,
        PIECES,
        "0",
        "(facts) (values 0) 10 (table (0 4611686018427387903) (1 10))",
        FIRST,
    ),
    (
        LOST,
        PIECES,
        "0",
        "(facts 0) (values 0) 10 (table (0 none) (1 10))",
        FIRST,
    ),
    (
        IDLE,
        PIECES,
        "none",
        "(facts) (values 0) none (table (0 none) (1 none))",
        NO_PLAN,
    ),
    (
        IDLE,
        PIECES,
        "none",
        "(facts) (values 0) none (table (1 none))",
        FIRST,
    ),
    // At the start one step is the least. Far below, 10^35 + 5 lack, of which `leap` takes 10^27 each time: (10^35 + 5) (2^32 - 1) / 10^27,
    // whose product 128 bits don't hold, is 429496729500000000 and a little more.
    (
        LEAP,
        HIGH,
        "0",
        "(facts) (values 0 0) 1 (table (0 1))",
        NOTHING,
    ),
    (
        LEAP,
        HIGH,
        "0",
        "(facts) (values 0 0) 2 (table (0 2))",
        FIRST,
    ),
    (
        LEAP,
        HIGH,
        "0",
        "(facts) (values 0 -100000000000000000000000000) 429496729500000001 (table (0 429496729500000001))",
        NOTHING,
    ),
    (
        LEAP,
        HIGH,
        "0",
        "(facts) (values 0 -100000000000000000000000000) 429496729500000002 (table (0 429496729500000002))",
        FIRST,
    ),
];

/// Places in a ring, from each of which the next is reached at no cost; at the first work is done at a cost of 2. Fact and subgoal 0 are
/// `at a`, 1 `at b`, 2 `at c`, and subgoal 3 is x - 2.
const RING: &str =
    "(:types place) (:predicates (at ?p - place) (next ?p ?q - place)) (:functions (x) (c))
 (:action go :parameters (?p ?q - place) :precondition (and (at ?p) (next ?p ?q)) :effect (and (not (at ?p)) (at ?q)))
 (:action work :precondition (at a) :effect (and (increase (x) 1) (increase (c) 2)))";

const DONE: &str =
    "(:objects a b c - place) (:init (at a) (next a b) (next b c) (next c a) (= (x) 0))
 (:goal (>= (x) 2)) (:metric minimize (c))";

/// With x at 0 the first place rests on the second and on the state after `work`, and the others on a table and on a proof.
const ROUND: &str = "(certificate 1 (claim 4)
(proofs (proof 1 (2 demand 3)))
(entries
(entry (facts 0) (values 0) 4 expanded)
(entry (facts 1) (values 0) 4 (table (3 4)))
(entry (facts 2) (values 0) 4 (proof 0))
(entry (facts 0) (values 1) 2 (table (3 2)))))";

/// What is replaced in that certificate by what, and what is said.
const ROUNDS: &[(&str, &str, Said<'static>)] = &[
    ("(claim 4)", "(claim 4)", FOUR_AT_LEAST),
    ("(claim 4)", "(claim 5)", ABOVE),
    ("4 expanded", "5 expanded", FIRST),
    ("4 (table (3 4))", "3 (table (3 3))", FIRST),
    ("2 (table (3 2))", "1 (table (3 1))", FIRST),
    ("4 (table (3 4))", "5 (table (3 5))", SECOND),
    ("4 (proof 0)", "5 (proof 0)", THIRD),
    ("2 (table (3 2))", "2 (table (3 2) (4 0))", FOURTH),
    // Then two of the ring, or three, rest on the next one.
    ("4 (table (3 4))", "4 expanded", FOUR_AT_LEAST),
    ("4 (proof 0)", "4 expanded", FOUR_AT_LEAST),
    (
        "4 (table (3 4)))\n(entry (facts 2) (values 0) 4 (proof 0)",
        "4 expanded)\n(entry (facts 2) (values 0) 4 expanded",
        FOUR_AT_LEAST,
    ),
    // Other reasons serve as well.
    ("4 (table (3 4))", "4 (proof 0)", FOUR_AT_LEAST),
    ("4 (proof 0)", "4 (table (0 0) (3 4))", FOUR_AT_LEAST),
    ("4 expanded", "4 (table (1 0) (2 0) (3 4))", FOUR_AT_LEAST),
];

#[test]
fn tables_of_the_counter_are_judged(rt: HostRuntime) {
    for (claim, entry, said) in COUNTED {
        let text = format!(in rt.alloc();
            "(certificate 1 (claim {claim}) (proofs) (entries (entry (facts) {entry})))"
        ).expect(&rt, "memory");
        expect_verdict(&rt, (COUNTER, FOUR), text.as_str(), *said);
    }
}

#[test]
fn tables_of_other_pairs_are_judged(rt: HostRuntime) {
    for (domain, problem, claim, entry, said) in SECTIONS {
        let (domain, problem) = pair_of(&rt, domain, problem);
        let text = format!(in rt.alloc();
            "(certificate 1 (claim {claim}) (proofs) (entries (entry {entry})))"
        ).expect(&rt, "memory");
        expect_verdict(
            &rt,
            (domain.as_str(), problem.as_str()),
            text.as_str(),
            *said,
        );
    }
}

#[test]
fn three_reasons_in_a_ring_are_judged(rt: HostRuntime) {
    let (domain, problem) = pair_of(&rt, RING, DONE);
    for (piece, other, said) in ROUNDS {
        let text = ROUND
            .replace(rt.alloc(), *piece, other)
            .expect(&rt, "memory");
        expect_verdict(
            &rt,
            (domain.as_str(), problem.as_str()),
            text.as_str(),
            *said,
        );
    }
}
