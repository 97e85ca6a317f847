//! Refusals at each place of the order: with two faults at once the earlier one is told.
use crate::pairs::{COUNTER, FOUR};
use crate::trial::expect;
use np_io::{MemoryShelf, MemorySink};
use std::process::Abort;

/// A domain, a problem, a certificate and a plan, where they are there; what is said, its status, and how many files were fetched.
type Row<'a> = (
    Option<&'a str>,
    Option<&'a str>,
    Option<&'a str>,
    Option<&'a str>,
    &'a str,
    u8,
    u64,
);

/// A domain with two sections of types.
const TWICE: &str = "(define (domain counter) (:types t) (:types u))";

/// An amount in the 19th decimal place.
const FINE: &str = "(define (domain d) (:functions (x) (c))
 (:action a :effect (and (increase (x) 0.0000000000000000001) (decrease (c) 1))))";

/// No bound for the counter.
const VALID: &str = "(certificate 1 (claim 0) (proofs) (entries))";

/// A claim that no entry bears out.
const CLAIM: &str = "(certificate 1 (claim 1) (proofs) (entries))";

/// A bound that its table doesn't support.
const TABLE: &str =
    "(certificate 1 (claim 1) (proofs) (entries (entry (facts) (values 0) 1 (table))))";

const ROWS: &[Row<'static>] = &[
    (
        None,
        None,
        None,
        None,
        "Refused: cannot read domain\n",
        4,
        1,
    ),
    (
        None,
        Some("("),
        Some("("),
        Some("("),
        "Refused: cannot read domain\n",
        4,
        1,
    ),
    // The text of the domain comes before the problem is fetched.
    (
        Some("("),
        None,
        None,
        None,
        "Refused: domain 1:2 syntax\n",
        3,
        1,
    ),
    (
        Some(""),
        Some(""),
        None,
        None,
        "Refused: domain 1:1 syntax\n",
        3,
        1,
    ),
    (
        Some(
            "(define (domain d) (:action a :precondition (> 0000000000000000000000000000000000000000",
        ),
        Some("("),
        None,
        None,
        "Refused: domain 1:48 number wide\n",
        3,
        1,
    ),
    // The problem comes before the rules of typing.
    (
        Some(TWICE),
        None,
        None,
        None,
        "Refused: cannot read problem\n",
        4,
        2,
    ),
    (
        Some(TWICE),
        Some("(define)"),
        None,
        None,
        "Refused: problem 1:8 syntax\n",
        3,
        2,
    ),
    (
        Some(TWICE),
        Some(
            "(define (problem p) (:domain counter) (:init (= (x) 0000000000000000000000000000000000000000",
        ),
        None,
        None,
        "Refused: problem 1:53 number wide\n",
        3,
        2,
    ),
    // The rules of typing come before binding.
    (
        Some(COUNTER),
        Some("(define (problem p) (:domain counter) (:goal (and (>= (* (x) (x)) 1) (>= (y) 1))))"),
        None,
        None,
        "Refused: problem 1:75 unknown function\n",
        3,
        2,
    ),
    (
        Some(COUNTER),
        Some("(define (problem p) (:domain other) (:goal (>= (/ (x) 0) 1)))"),
        None,
        None,
        "Refused: problem 1:30 other domain\n",
        3,
        2,
    ),
    // In binding the metric comes first, and the steps come before the goal.
    (
        Some(
            "(define (domain d) (:functions (x)) (:action a :precondition (>= (* (x) (x)) 1) :effect (increase (x) 1)))",
        ),
        Some(
            "(define (problem p) (:domain d) (:init (= x 0)) (:goal (>= (/ (x) 0) 1)) (:metric minimize (/ 1 0)))",
        ),
        None,
        None,
        "Refused: metric undefined\n",
        3,
        2,
    ),
    (
        Some(
            "(define (domain d) (:functions (x)) (:action a :precondition (>= (* (x) (x)) 1) :effect (increase (x) 1)))",
        ),
        Some("(define (problem p) (:domain d) (:init (= x 0)) (:goal (>= (/ (x) 0) 1)))"),
        None,
        None,
        "Refused: not linear: step (a)\n",
        3,
        2,
    ),
    // Binding comes before scaling.
    (
        Some(FINE),
        Some(
            "(define (problem p) (:domain d) (:init (= x 0)) (:goal (and (>= (x) 1) (>= (/ (x) 0) 1))) (:metric minimize (c)))",
        ),
        None,
        None,
        "Refused: goal undefined\n",
        3,
        2,
    ),
    // In scaling the unit comes before costs. Scaling comes before the certificate is fetched.
    (
        Some(FINE),
        Some(
            "(define (problem p) (:domain d) (:init (= x 0)) (:goal (>= (x) 1)) (:metric minimize (c)))",
        ),
        None,
        None,
        "Refused: unit wide\n",
        3,
        2,
    ),
    (
        Some("(define (domain d) (:functions (c)) (:action a :effect (decrease (c) 1)))"),
        Some("(define (problem p) (:domain d) (:goal ()) (:metric minimize (c)))"),
        Some("("),
        Some("("),
        "Refused: cost negative: step (a)\n",
        3,
        2,
    ),
    (
        Some("(define (domain d) (:functions (c)) (:action a :effect (increase (c) 0.5)))"),
        Some("(define (problem p) (:domain d) (:goal ()) (:metric minimize (c)))"),
        None,
        None,
        "Refused: cost not whole: step (a)\n",
        3,
        2,
    ),
    (
        Some(COUNTER),
        Some(
            "(define (problem p) (:domain counter) (:init (= (x) 99999999999999999999999999999999999999)) (:goal (= (x) 4))
 (:metric minimize (c)))",
        ),
        None,
        None,
        "Refused: number wide: value (x)\n",
        3,
        2,
    ),
    // The certificate's text comes before the plan is fetched.
    (
        Some(COUNTER),
        Some(FOUR),
        None,
        None,
        "Refused: cannot read certificate\n",
        4,
        3,
    ),
    (
        Some(COUNTER),
        Some(FOUR),
        None,
        Some("("),
        "Refused: cannot read certificate\n",
        4,
        3,
    ),
    (
        Some(COUNTER),
        Some(FOUR),
        Some("()"),
        None,
        "Refused: certificate 1:2 syntax\n",
        3,
        3,
    ),
    (
        Some(COUNTER),
        Some(FOUR),
        Some("()"),
        Some("("),
        "Refused: certificate 1:2 syntax\n",
        3,
        3,
    ),
    // The plan's text comes before a fault of the certificate is told.
    (
        Some(COUNTER),
        Some(FOUR),
        Some(CLAIM),
        None,
        "Refused: cannot read plan\n",
        4,
        4,
    ),
    (
        Some(COUNTER),
        Some(FOUR),
        Some(CLAIM),
        Some("("),
        "Refused: plan 1:2 syntax\n",
        3,
        4,
    ),
    (
        Some(COUNTER),
        Some(FOUR),
        Some(CLAIM),
        Some("(go)"),
        "Refused: plan 1:1 unknown step\n",
        3,
        4,
    ),
    (
        Some(COUNTER),
        Some(FOUR),
        Some(TABLE),
        None,
        "Refused: cannot read plan\n",
        4,
        4,
    ),
    (
        Some(COUNTER),
        Some(FOUR),
        Some(TABLE),
        Some("("),
        "Refused: plan 1:2 syntax\n",
        3,
        4,
    ),
    // A fault of the certificate comes before one of the steps.
    (
        Some(COUNTER),
        Some(FOUR),
        Some(TABLE),
        Some("(dec)"),
        "No: entry 0 is not justified\n",
        6,
        4,
    ),
    (
        Some(COUNTER),
        Some(FOUR),
        Some(CLAIM),
        Some("(dec)"),
        "No: the claim is above the start's bound\n",
        6,
        4,
    ),
    (
        Some(COUNTER),
        Some(FOUR),
        Some(VALID),
        Some("(inc) (dec) (dec) (dec) (dec)"),
        "No: step 5 is not applicable\n",
        6,
        4,
    ),
    // The goal comes before the cost.
    (
        Some(COUNTER),
        Some(FOUR),
        Some(VALID),
        Some("(inc)"),
        "No: the goal does not hold at the end\n",
        6,
        4,
    ),
    (
        Some(COUNTER),
        Some(FOUR),
        Some(VALID),
        Some("(inc) (inc) (dec) (dec)"),
        "No: the plan costs 6 and the claim is 0\n",
        6,
        4,
    ),
];

/// Puts a file on a shelf, if there is one.
fn set(rt: &impl Abort, shelf: &mut MemoryShelf, name: &str, text: Option<&str>) {
    if let Some(text) = text {
        shelf.set(name, text.as_bytes()).expect(rt, "memory");
    }
}

/// Calls the planner with these words over the files of a row, and compares what it said, and what it did to the shelf.
fn expect_row(rt: &(impl Abort + AllocGlobal), texts: &[&str], row: &Row<'_>) {
    let (domain, problem, certificate, plan, answer, status, calls) = *row;
    let mut shelf = MemoryShelf::new(rt.alloc());
    set(rt, &mut shelf, "d", domain);
    set(rt, &mut shelf, "p", problem);
    set(rt, &mut shelf, "cert", certificate);
    set(rt, &mut shelf, "plan", plan);
    let mut sink = MemorySink::new(rt.alloc());
    expect(rt, texts, &mut shelf, &mut sink, answer, status);
    assert_eq!(rt; shelf.calls(), calls, "{texts:?} {answer}");
}

/// Whatever is said of the pair of files is said by each command that makes its flat task.
#[test]
fn the_first_fault_is_told(rt: HostRuntime) {
    for row in ROWS {
        expect_row(&rt, &["check", "d", "p", "cert", "plan"], row);
        if row.6 <= 3 {
            expect_row(&rt, &["check", "d", "p", "cert"], row);
        }
        if row.6 <= 2 {
            expect_row(&rt, &["solve", "d", "p", "out", "more", "1"], row);
            expect_row(&rt, &["list", "d", "p"], row);
        }
    }
}

/// A domain and a problem that begin with so many blanks; what is said, and how many files were fetched.
const BLANKS: &[(usize, usize, &str, u64)] = &[
    (16_777_217, 16_777_217, "Refused: domain too long\n", 1),
    (
        16_777_216,
        16_777_217,
        "Refused: domain 1:16777217 syntax\n",
        1,
    ),
];

/// So many blanks.
fn blanks(rt: &(impl Abort + AllocGlobal), count: usize) -> Vec<u8> {
    vec![in rt.alloc(); b' '; count].expect(rt, "memory")
}

/// Solves a pair, and checks it, with what is said of it.
fn expect_refused(
    rt: &(impl Abort + AllocGlobal),
    shelf: &mut MemoryShelf,
    answer: &str,
    calls: u64,
) {
    let mut sink = MemorySink::new(rt.alloc());
    let texts = ["solve", "d", "p", "plan", "cert"];
    expect(rt, &texts, shelf, &mut sink, answer, 3);
    assert_eq!(rt; shelf.calls(), calls);
    let mut sink = MemorySink::new(rt.alloc());
    expect(
        rt,
        &["check", "d", "p", "cert"],
        shelf,
        &mut sink,
        answer,
        3,
    );
}

#[test]
fn files_past_the_limit_are_too_long(rt: HostRuntime) {
    for (domain, problem, answer, calls) in BLANKS {
        let mut shelf = MemoryShelf::new(rt.alloc());
        let domain = blanks(&rt, *domain);
        shelf.set("d", domain.as_slice()).expect(&rt, "memory");
        let problem = blanks(&rt, *problem);
        shelf.set("p", problem.as_slice()).expect(&rt, "memory");
        expect_refused(&rt, &mut shelf, answer, *calls);
    }
    let mut shelf = MemoryShelf::new(rt.alloc());
    shelf.set("d", TWICE.as_bytes()).expect(&rt, "memory");
    let problem = blanks(&rt, 16_777_217);
    shelf.set("p", problem.as_slice()).expect(&rt, "memory");
    expect_refused(&rt, &mut shelf, "Refused: problem too long\n", 2);
}
