//! Faulty words, and faults of the shelf and the sink.
use crate::pairs::{COUNTER, FOUR};
use crate::trial::{
    NONE_BELOW_THREE, expect, expect_check, expect_check_beside, expect_file, expect_solve, shelf,
    steps_shelf,
};
use np_io::{MemoryShelf, MemorySink};
use std::process::Abort;

const USAGE: &str =
    "usage: solve DOMAIN PROBLEM PLAN CERT [NODES]\n       check DOMAIN PROBLEM CERT [PLAN]\n       run DOMAIN PROBLEM PLAN\n       list DOMAIN PROBLEM\n";

/// Words that fit no command.
const FAULTY: &[&[&str]] = &[
    &[],
    &["solve", "d", "p", "plan"],
    &["solve", "d", "p", "plan", "cert", "1", "1"],
    &["Solve", "d", "p", "plan", "cert"],
    &["check", "d", "p"],
    &["check", "d", "p", "cert", "plan", "more"],
    &["Check", "d", "p", "cert", "plan"],
    &["run", "d", "p"],
    &["run", "d", "p", "plan", "cert"],
    &["solve", "d", "p", "cert"],
    &["solve", "d", "p", "plan", "cert", "0"],
    &["solve", "d", "p", "plan", "cert", "01"],
    &["solve", "d", "p", "plan", "cert", "16777217"],
    &["solve", "d", "p", "plan", "cert", "99999999999999999999"],
    &["solve", "d", "p", "plan", "cert", ""],
    &["solve", "d", "p", "plan", "cert", "1x"],
    &["solve", "d", "p", "plan", "cert", "+1"],
    &["solve", "d", "p", "x", "x"],
    &["solve", "d", "p", "d", "cert"],
    &["solve", "d", "p", "p", "cert"],
    &["solve", "d", "p", "plan", "d"],
    &["solve", "d", "p", "plan", "p"],
];

/// Words that fit no command are told, and nothing is read or written.
fn expect_usage(rt: &(impl Abort + AllocGlobal), texts: &[&str]) {
    let mut shelf = steps_shelf(rt);
    let mut sink = MemorySink::new(rt.alloc());
    expect(rt, texts, &mut shelf, &mut sink, USAGE, 2);
    assert!(rt; shelf.calls() == 0, "{texts:?}");
}

#[test]
fn faulty_words_are_told(rt: HostRuntime) {
    for texts in FAULTY {
        expect_usage(&rt, texts);
    }
}

/// The words of `check` may name one file for several: nothing is put.
#[test]
fn check_may_read_a_file_twice(rt: HostRuntime) {
    let mut shelf = steps_shelf(&rt);
    shelf
        .set("cert", NONE_BELOW_THREE.as_bytes())
        .expect(&rt, "memory");
    let mut sink = MemorySink::new(rt.alloc());
    let texts = ["check", "d", "p", "cert", "cert"];
    let answer = "Refused: plan 1:14 syntax\n";
    expect(&rt, &texts, &mut shelf, &mut sink, answer, 3);
}

/// What is under a name after a call.
#[derive(Clone, Copy)]
enum Left {
    Nothing,
    This(&'static str),
    /// What a call that doesn't fail puts there.
    Whole,
}

/// Words, the shelf's calls that fail with the bytes that each leaves, and the sink's; what is pushed, the status, what is left under the
/// names of the certificate and the plan, and how often the shelf was called.
type Failing = (
    &'static [&'static str],
    &'static [(u64, u64)],
    &'static [(u64, u64)],
    &'static str,
    u8,
    Left,
    Left,
    u64,
);

const SOLVE: &[&str] = &["solve", "d", "p", "plan", "cert"];

const CHECK: &[&str] = &["check", "d", "p", "cert", "plan"];

const BOTH_SIX: &str = "Yes: the plan costs 6 and no plan costs less\n";

/// Calls of `solve`, with nothing under the names of the certificate and the plan before.
const SOLVES: &[Failing] = &[
    (
        SOLVE,
        &[],
        &[],
        "Optimal 6, weak 0\n",
        0,
        Left::Whole,
        Left::Whole,
        4,
    ),
    (
        SOLVE,
        &[(0, 9)],
        &[],
        "Refused: cannot read domain\n",
        4,
        Left::Nothing,
        Left::Nothing,
        1,
    ),
    (
        SOLVE,
        &[(1, 9)],
        &[],
        "Refused: cannot read problem\n",
        4,
        Left::Nothing,
        Left::Nothing,
        2,
    ),
    (
        SOLVE,
        &[(2, 5)],
        &[],
        "Refused: cannot write certificate\n",
        5,
        Left::This("(cert"),
        Left::Nothing,
        3,
    ),
    // The certificate is put first, and after a put that failed nothing else is put.
    (
        SOLVE,
        &[(2, 0), (3, 0)],
        &[],
        "Refused: cannot write certificate\n",
        5,
        Left::This(""),
        Left::Nothing,
        3,
    ),
    (
        SOLVE,
        &[(3, 4)],
        &[],
        "Refused: cannot write plan\n",
        5,
        Left::Whole,
        Left::This("(inc"),
        4,
    ),
    (
        SOLVE,
        &[],
        &[(0, 7)],
        "Optimal",
        5,
        Left::Whole,
        Left::Whole,
        4,
    ),
    (
        SOLVE,
        &[(2, 0)],
        &[(0, 0)],
        "",
        5,
        Left::This(""),
        Left::Nothing,
        3,
    ),
    (
        SOLVE,
        &[(0, 0)],
        &[(0, 3)],
        "Ref",
        5,
        Left::Nothing,
        Left::Nothing,
        1,
    ),
];

/// Calls of `check`, with the certificate and the plan of `solve` under their names.
const CHECKS: &[Failing] = &[
    (CHECK, &[], &[], BOTH_SIX, 0, Left::Whole, Left::Whole, 4),
    (
        CHECK,
        &[(0, 9)],
        &[],
        "Refused: cannot read domain\n",
        4,
        Left::Whole,
        Left::Whole,
        1,
    ),
    (
        CHECK,
        &[(1, 9)],
        &[],
        "Refused: cannot read problem\n",
        4,
        Left::Whole,
        Left::Whole,
        2,
    ),
    (
        CHECK,
        &[(2, 9)],
        &[],
        "Refused: cannot read certificate\n",
        4,
        Left::Whole,
        Left::Whole,
        3,
    ),
    (
        CHECK,
        &[(3, 9)],
        &[],
        "Refused: cannot read plan\n",
        4,
        Left::Whole,
        Left::Whole,
        4,
    ),
    (CHECK, &[], &[(0, 3)], "Yes", 5, Left::Whole, Left::Whole, 4),
];

/// A shelf with the counter, and what `solve` puts for it.
fn solved_shelf(rt: &(impl Abort + AllocGlobal)) -> MemoryShelf {
    let mut shelf = shelf(rt, COUNTER.as_bytes(), FOUR.as_bytes());
    expect_solve(rt, &mut shelf, "Optimal 6, weak 0\n", 0);
    expect_check_beside(rt, &mut shelf, BOTH_SIX, 0);
    shelf
}

/// The shelf of the counter, with these files under the names of the certificate and the plan.
fn counter_shelf(rt: &(impl Abort + AllocGlobal), files: Option<(&[u8], &[u8])>) -> MemoryShelf {
    let mut shelf = shelf(rt, COUNTER.as_bytes(), FOUR.as_bytes());
    if let Some((certificate, plan)) = files {
        shelf.set("cert", certificate).expect(rt, "memory");
        shelf.set("plan", plan).expect(rt, "memory");
    }
    shelf
}

/// Compares what is left under a name.
fn expect_left(rt: &impl Abort, shelf: &MemoryShelf, name: &str, left: Left, whole: &[u8]) {
    match left {
        Left::Nothing => expect_file(rt, shelf, name, None),
        Left::This(text) => expect_file(rt, shelf, name, Some(text)),
        Left::Whole => assert!(rt; shelf.get(name) == Some(whole), "{name}"),
    }
}

/// Makes the calls of a shelf and a sink that a row names fail, and compares what comes of it.
fn expect_failing(
    rt: &(impl Abort + AllocGlobal),
    row: &Failing,
    shelf: &mut MemoryShelf,
    whole: (&[u8], &[u8]),
) {
    let (texts, calls, pushes, answer, status, certificate, plan, count) = *row;
    for (call, kept) in calls {
        shelf.fail(*call, *kept).expect(rt, "memory");
    }
    let mut sink = MemorySink::new(rt.alloc());
    if let Some((call, kept)) = pushes.first() {
        sink.fail(*call, *kept).expect(rt, "memory");
    }
    expect(rt, texts, shelf, &mut sink, answer, status);
    expect_left(rt, shelf, "cert", certificate, whole.0);
    expect_left(rt, shelf, "plan", plan, whole.1);
    expect_file(rt, shelf, "d", Some(COUNTER));
    expect_file(rt, shelf, "p", Some(FOUR));
    assert_eq!(rt; shelf.calls(), count, "{texts:?}");
}

#[test]
fn failing_calls_are_told(rt: HostRuntime) {
    let solved = solved_shelf(&rt);
    let certificate = solved.get("cert").expect(&rt, "it was put");
    let plan = solved.get("plan").expect(&rt, "it was put");
    let whole = (certificate, plan);
    for row in SOLVES {
        let mut shelf = counter_shelf(&rt, None);
        expect_failing(&rt, row, &mut shelf, whole);
    }
    for row in CHECKS {
        let mut shelf = counter_shelf(&rt, Some(whole));
        expect_failing(&rt, row, &mut shelf, whole);
    }
}
