//! One call of the planner over a shelf and a sink in memory.
use np_io::{MemoryShelf, MemorySink};
use np_planner::planner;
use std::process::Abort;

/// The domain of the first example: each `up` raises x by 1.
pub const STEPS: &str = "(define (domain steps) (:functions (x))
(:action up :parameters () :precondition (and) :effect (and (increase (x) 1))))";

/// Its problem: x is 0, and at least 3 is wanted.
pub const THREE: &str =
    "(define (problem p) (:domain steps) (:init (= (x) 0)) (:goal (and (>= (x) 3))))";

/// The certificate that none of its plans costs less than 3, as it is printed.
pub const NONE_BELOW_THREE: &str = "(certificate 1 (claim 3)
(proofs)
(entries
(entry (facts) (values 0) 3 expanded)
(entry (facts) (values 1) 2 expanded)
(entry (facts) (values 2) 1 expanded)))
";

/// The domain of a problem without a plan: each `down` lowers x by 1, while x is at least 1.
pub const SINK: &str = "(define (domain sink) (:functions (x)) (:action down :parameters ()
 :precondition (and (>= (x) 1)) :effect (and (decrease (x) 1))))";

/// Its problem: x is 2, and at least 3 is wanted.
pub const RISE: &str =
    "(define (problem p) (:domain sink) (:init (= (x) 2)) (:goal (and (>= (x) 3))))";

/// The words of a command.
pub fn words(rt: &(impl Abort + AllocGlobal), texts: &[&str]) -> Vec<String> {
    let mut words = Vec::new(rt.alloc());
    for text in texts {
        let word = String::from_str(rt.alloc(), text).expect(rt, "memory");
        words.push(word).expect(rt, "memory");
    }
    words
}

/// A shelf with a domain under `d` and a problem under `p`.
pub fn shelf(rt: &(impl Abort + AllocGlobal), domain: &[u8], problem: &[u8]) -> MemoryShelf {
    let mut shelf = MemoryShelf::new(rt.alloc());
    shelf.set("d", domain).expect(rt, "memory");
    shelf.set("p", problem).expect(rt, "memory");
    shelf
}

/// The domain `d` and its problem with these sections.
pub fn pair_of(rt: &(impl Abort + AllocGlobal), domain: &str, problem: &str) -> (String, String) {
    let domain = format!(in rt.alloc(); "(define (domain d) {domain})").expect(rt, "memory");
    let problem = format!(in rt.alloc(); "(define (problem p) (:domain d) {problem})").expect(
        rt, "memory",
    );
    (domain, problem)
}

/// The shelf of the first example.
pub fn steps_shelf(rt: &(impl Abort + AllocGlobal)) -> MemoryShelf {
    shelf(rt, STEPS.as_bytes(), THREE.as_bytes())
}

/// Calls the planner with these words, and compares its status and what it pushed, in one call of the sink.
pub fn expect(
    rt: &(impl Abort + AllocGlobal),
    texts: &[&str],
    shelf: &mut MemoryShelf,
    sink: &mut MemorySink,
    answer: &str,
    status: u8,
) {
    let words = words(rt, texts);
    let given = planner(rt.alloc(), words.as_slice(), shelf, sink);
    assert_eq!(rt; sink.bytes(), answer.as_bytes(), "{texts:?}");
    assert_eq!(rt; (given, sink.calls()), (status, 1), "{texts:?}");
}

/// The words that solve the pair on the shelf into `plan` and `cert`.
const SOLVE: &[&str] = &["solve", "d", "p", "plan", "cert"];

/// Solves the pair on the shelf into `plan` and `cert`, and compares its status and what it pushed.
pub fn expect_solve(
    rt: &(impl Abort + AllocGlobal),
    shelf: &mut MemoryShelf,
    answer: &str,
    status: u8,
) {
    let mut sink = MemorySink::new(rt.alloc());
    expect(rt, SOLVE, shelf, &mut sink, answer, status);
}

/// The same with a budget, unless it is empty.
pub fn expect_solve_within(
    rt: &(impl Abort + AllocGlobal),
    nodes: &str,
    shelf: &mut MemoryShelf,
    answer: &str,
    status: u8,
) {
    if nodes.is_empty() {
        return expect_solve(rt, shelf, answer, status);
    }
    let mut sink = MemorySink::new(rt.alloc());
    let texts = ["solve", "d", "p", "plan", "cert", nodes];
    expect(rt, &texts, shelf, &mut sink, answer, status)
}

/// Whether this text is under a name, or nothing.
fn is_under(shelf: &MemoryShelf, name: &str, want: Option<&str>) -> bool {
    match (shelf.get(name), want) {
        (Some(bytes), Some(text)) => bytes == text.as_bytes(),
        (None, None) => true,
        _ => false,
    }
}

/// Compares what is under a name.
pub fn expect_file(rt: &impl Abort, shelf: &MemoryShelf, name: &str, want: Option<&str>) {
    assert!(rt; is_under(shelf, name, want), "{name}");
}

/// Checks what is under `cert` for the pair on the shelf, and compares its status and what it pushed.
pub fn expect_check(
    rt: &(impl Abort + AllocGlobal),
    shelf: &mut MemoryShelf,
    answer: &str,
    status: u8,
) {
    let mut sink = MemorySink::new(rt.alloc());
    expect(
        rt,
        &["check", "d", "p", "cert"],
        shelf,
        &mut sink,
        answer,
        status,
    );
}

/// Checks a certificate for a pair, and compares its status and what it pushed.
pub fn expect_verdict(
    rt: &(impl Abort + AllocGlobal),
    pair: (&str, &str),
    certificate: &str,
    said: (&str, u8),
) {
    let mut shelf = shelf(rt, pair.0.as_bytes(), pair.1.as_bytes());
    shelf
        .set("cert", certificate.as_bytes())
        .expect(rt, "memory");
    expect_check(rt, &mut shelf, said.0, said.1);
}

/// Checks what is under `cert` beside what is under `plan`, and compares its status and what it pushed.
pub fn expect_check_beside(
    rt: &(impl Abort + AllocGlobal),
    shelf: &mut MemoryShelf,
    answer: &str,
    status: u8,
) {
    let mut sink = MemorySink::new(rt.alloc());
    let words = ["check", "d", "p", "cert", "plan"];
    expect(rt, &words, shelf, &mut sink, answer, status);
}

/// Runs what is under `plan`, and compares its status and what it pushed.
pub fn expect_run_here(
    rt: &(impl Abort + AllocGlobal),
    shelf: &mut MemoryShelf,
    answer: &str,
    status: u8,
) {
    let mut sink = MemorySink::new(rt.alloc());
    let words = ["run", "d", "p", "plan"];
    expect(rt, &words, shelf, &mut sink, answer, status);
}

/// Calls `run` on these three texts, and compares its status and what it pushed.
pub fn expect_run(
    rt: &(impl Abort + AllocGlobal),
    texts: (&str, &str, &str),
    answer: &str,
    status: u8,
) {
    let (domain, problem, plan) = texts;
    let mut shelf = shelf(rt, domain.as_bytes(), problem.as_bytes());
    shelf.set("plan", plan.as_bytes()).expect(rt, "memory");
    expect_run_here(rt, &mut shelf, answer, status);
}

/// Calls `list` on these two texts, and compares its status and what it pushed.
pub fn expect_list(
    rt: &(impl Abort + AllocGlobal),
    domain: &str,
    problem: &str,
    answer: &str,
    status: u8,
) {
    let mut shelf = shelf(rt, domain.as_bytes(), problem.as_bytes());
    let mut sink = MemorySink::new(rt.alloc());
    expect(
        rt,
        &["list", "d", "p"],
        &mut shelf,
        &mut sink,
        answer,
        status,
    );
}

/// Calls `list` on these two texts, and compares its status and how many lines it pushed that begin so.
pub fn expect_lines(
    rt: &(impl Abort + AllocGlobal),
    domain: &str,
    problem: &str,
    begin: &str,
    lines: usize,
    status: u8,
) {
    let mut shelf = shelf(rt, domain.as_bytes(), problem.as_bytes());
    let mut sink = MemorySink::new(rt.alloc());
    let words = words(rt, &["list", "d", "p"]);
    let given = planner(rt.alloc(), words.as_slice(), &mut shelf, &mut sink);
    let mut count: usize = 0;
    for line in sink.bytes().split(|byte| *byte == b'\n') {
        if line.starts_with(begin.as_bytes()) {
            count = count.saturating_add(1);
        }
    }
    assert_eq!(rt; (given, count), (status, lines), "{begin}");
}
