//! Pairs of texts, and what is bound of them.
use crate::texts::task_of;
use np_bind::{BindFault, BoundParts, BoundStep, Spot, bind};
use np_model::Task;
use std::process::Abort;

/// The task of the sections of a domain and of a problem; None where they don't keep the rules.
fn task(rt: &(impl Abort + AllocGlobal), domain: &str, problem: &str) -> Option<Task> {
    let domain = format!(in rt.alloc(); "(define (domain d) {domain})").expect(rt, "memory");
    let problem = format!(in rt.alloc(); "(define (problem p) (:domain d) {problem})").expect(
        rt, "memory",
    );
    task_of(rt.alloc(), domain.as_str(), problem.as_str())
}

/// One more piece of a text.
fn push(rt: &impl Abort, text: &mut String, piece: &str) {
    text.push_str(piece).expect(rt, "memory");
}

/// A step: its action and objects, how many conditions, adds, deletes and changes it has, and its cost.
fn push_step(rt: &(impl Abort + AllocGlobal), text: &mut String, step: &BoundStep) {
    let action = step.step.action;
    push(
        rt,
        text,
        format!(in rt.alloc(); "({action}")
            .expect(rt, "memory")
            .as_str(),
    );
    for object in step.step.objects.as_slice() {
        push(
            rt,
            text,
            format!(in rt.alloc(); " {object}")
                .expect(rt, "memory")
                .as_str(),
        );
    }
    let needs = step.needs.as_slice().len();
    let adds = step.adds.as_slice().len();
    let deletes = step.deletes.as_slice().len();
    let changes = step.changes.as_slice().len();
    let (num, den) = (step.cost.num(), step.cost.den());
    let rest = format!(in rt.alloc(); ") {needs} {adds} {deletes} {changes} {num}/{den}\n").expect(
        rt, "memory",
    );
    push(rt, text, rest.as_str());
}

/// The steps of a bound task, and how many conditions its goal has.
fn described(rt: &(impl Abort + AllocGlobal), bound: &BoundParts) -> String {
    let mut text = String::new(rt.alloc());
    for step in bound.steps.as_slice() {
        push_step(rt, &mut text, step);
    }
    let goal = bound.goal.as_slice().len();
    push(
        rt,
        &mut text,
        format!(in rt.alloc(); "goal {goal}\n")
            .expect(rt, "memory")
            .as_str(),
    );
    text
}

/// A fault in a word or two.
fn fault_text(fault: &BindFault) -> &str {
    match fault {
        BindFault::TooManyTuples => "bindings",
        BindFault::TooManySteps => "steps",
        BindFault::NotLinear(Spot::Step(_)) => "not linear: step",
        BindFault::NotLinear(Spot::Goal) => "not linear: goal",
        BindFault::NotLinear(_) => "not linear: metric",
        BindFault::GoalUndefined => "goal undefined",
        BindFault::MetricUndefined => "metric undefined",
        BindFault::NumberWide(Spot::Step(_)) => "wide: step",
        BindFault::NumberWide(Spot::Goal) => "wide: goal",
        BindFault::NumberWide(_) => "wide: metric",
        BindFault::Memory => "memory",
    }
}

/// What is bound of a task, or the fault.
fn answer(rt: &(impl Abort + AllocGlobal), task: &Task) -> String {
    match bind(rt.alloc(), task) {
        Ok(bound) => described(rt, bound.parts()),
        Err(fault) => String::from_str(rt.alloc(), fault_text(&fault)).expect(rt, "memory"),
    }
}

/// Sections of a domain and of a problem, and what is bound of them.
const PAIRS: &[(&str, &str, &str)] = &[
    (
        "(:functions (x) (c)) (:action inc :effect (and (increase (x) 3) (increase (c) 2)))
 (:action dec :precondition (>= (x) 1) :effect (and (decrease (x) 1) (increase (c) 1)))",
        "(:init (= (x) 0)) (:goal (= (x) 4)) (:metric minimize (c))",
        "(0) 0 0 0 2 2/1\n(1) 1 0 0 2 1/1\ngoal 1\n",
    ),
    // A subtype's objects fit, constants come first, and the first parameter is the slowest.
    (
        "(:types s - t u) (:constants i - s j - t o - u) (:predicates (p ?x ?y - t))
 (:action a :parameters (?x ?y - t) :effect (p ?x ?y))",
        "(:objects k - s) (:goal (p j i))",
        "(0 0 0) 0 1 0 0 1/1\n(0 0 1) 0 1 0 0 1/1\n(0 0 3) 0 1 0 0 1/1\n(0 1 0) 0 1 0 0 1/1\n(0 1 1) 0 1 0 0 1/1
(0 1 3) 0 1 0 0 1/1\n(0 3 0) 0 1 0 0 1/1\n(0 3 1) 0 1 0 0 1/1\n(0 3 3) 0 1 0 0 1/1\ngoal 1\n",
    ),
    // Static atoms and equalities are known: what holds is left out, what fails drops the step.
    (
        "(:predicates (s ?x) (p ?x)) (:constants k l)
 (:action a :parameters (?x) :precondition (and (s ?x) (p ?x)) :effect (and (p ?x) (not (p ?x))))
 (:action b :parameters (?x ?y) :precondition (and (not (s ?x)) (not (= ?x ?y))) :effect (not (p ?y)))",
        "(:init (s k)) (:goal (and (p k) (s k)))",
        "(0 0) 1 1 1 0 1/1\n(1 1 0) 0 0 1 0 1/1\ngoal 1\n",
    ),
    // Constants by cancelling or by 0, a goal that never holds, and net changes with a sum of 0.
    (
        "(:functions (x) (y)) (:action a :precondition (>= (* 0 (x) (y)) 0) :effect (increase (x) 1))
 (:action b :precondition (> (- (x) (x)) 0) :effect (increase (y) 1))
 (:action c :effect (and (increase (y) 1) (increase (x) 2) (decrease (y) 1)))",
        "(:init (= x 0) (= y 5)) (:goal (and (< 1 0) (>= (y) 2) (= 1 1)))",
        "(0) 0 0 0 1 1/1\n(2) 0 0 0 2 1/1\ngoal 2\n",
    ),
    // What is missing drops the step; the cost is a fraction, or below 0.
    (
        "(:functions (x) (y) (c)) (:action a :precondition (>= (y) 1)) (:action b :effect (increase (y) 1))
 (:action d :effect (increase (c) (/ 1 3))) (:action e :effect (decrease (c) 2)) (:action f :effect (increase (c) (/ 1 (x))))",
        "(:init (= x 0)) (:goal ()) (:metric minimize (* 2 (c)))",
        "(2) 0 0 0 1 2/3\n(3) 0 0 0 1 -4/1\ngoal 0\n",
    ),
    // The first finding decides.
    (
        "(:predicates (q)) (:functions (x)) (:action a :precondition (and (q) (>= (* (x) (x)) 1)) :effect (increase (x) 1))",
        "(:init (= x 0)) (:goal ())",
        "goal 0\n",
    ),
    (
        "(:predicates (q)) (:functions (x)) (:action a :precondition (and (>= (* (x) (x)) 1) (q)) :effect (increase (x) 1))",
        "(:init (= x 0)) (:goal ())",
        "not linear: step",
    ),
    (
        "(:functions (x)) (:action a :effect (increase (x) 1))",
        "(:init (= x 1)) (:goal (>= (/ 1 (x)) 1))",
        "not linear: goal",
    ),
    (
        "(:functions (x)) (:action a :effect (increase (x) 1))",
        "(:goal ()) (:metric minimize (* (x) (x)))",
        "not linear: metric",
    ),
    (
        "(:functions (x)) (:action a :effect (increase (x) 1))",
        "(:goal (>= (x) 1))",
        "goal undefined",
    ),
    (
        "(:functions (x) (s))",
        "(:goal ()) (:metric minimize (/ (x) (s)))",
        "metric undefined",
    ),
    (
        "(:functions (x)) (:action a :precondition (>= (* (* 99999999999999999999999999999999999999 10) (x)) 1) :effect (increase (x) 1))",
        "(:init (= x 0)) (:goal ())",
        "wide: step",
    ),
    (
        "(:functions (x)) (:action a :effect (increase (x) 1))",
        "(:init (= x 0)) (:goal (>= (+ 99999999999999999999999999999999999999 99999999999999999999999999999999999999) 1))",
        "wide: goal",
    ),
    (
        "",
        "(:goal ()) (:metric minimize (* 99999999999999999999999999999999999999 10))",
        "wide: metric",
    ),
    // The metric comes before the steps, and the steps before the goal.
    (
        "(:functions (x)) (:action a :precondition (>= (* (x) (x)) 1) :effect (increase (x) 1))",
        "(:init (= x 0)) (:goal (>= (/ (x) 0) 1)) (:metric minimize (/ 1 0))",
        "metric undefined",
    ),
    (
        "(:functions (x)) (:action a :precondition (>= (* (x) (x)) 1) :effect (increase (x) 1))",
        "(:init (= x 0)) (:goal (>= (/ (x) 0) 1))",
        "not linear: step",
    ),
];

#[test]
fn pairs_are_bound(rt: HostRuntime) {
    for (domain, problem, text) in PAIRS {
        let task = task(&rt, domain, problem).expect(&rt, "the texts keep the rules");
        assert_eq!(&rt; answer(&rt, &task).as_str(), *text, "{domain}");
    }
}

/// The names of so many objects, each after a space.
fn objects(rt: &(impl Abort + AllocGlobal), count: u32) -> String {
    let mut text = String::new(rt.alloc());
    for number in 0..count {
        push(
            rt,
            &mut text,
            format!(in rt.alloc(); " o{number}")
                .expect(rt, "memory")
                .as_str(),
        );
    }
    text
}

/// A domain's sections, the most objects, how many steps are kept with them, and the fault with one more.
const LIMITS: &[(&str, u32, usize, &str)] = &[
    ("(:action a :parameters (?x))", 65_536, 65_536, "steps"),
    (
        "(:action a :parameters (?x ?y ?z) :precondition (and (= ?x ?y) (= ?y ?z)))",
        161,
        161,
        "bindings",
    ),
];

/// How many steps are kept with so many objects, and the fault.
fn kept_with(rt: &(impl Abort + AllocGlobal), domain: &str, count: u32) -> (usize, String) {
    let objects = objects(rt, count);
    let problem = format!(in rt.alloc(); "(:objects{objects}) (:goal ())").expect(rt, "memory");
    let task = task(rt, domain, problem.as_str()).expect(rt, "the texts keep the rules");
    match bind(rt.alloc(), &task) {
        Ok(bound) => (
            bound.parts().steps.as_slice().len(),
            String::new(rt.alloc()),
        ),
        Err(fault) => (
            0,
            String::from_str(rt.alloc(), fault_text(&fault)).expect(rt, "memory"),
        ),
    }
}

#[test]
fn limits_at_their_edges(rt: HostRuntime) {
    for (domain, most, steps, fault) in LIMITS {
        let (kept, none) = kept_with(&rt, domain, *most);
        assert_eq!(&rt; (kept, none.as_str()), (*steps, ""), "{domain}");
        let (kept, found) = kept_with(&rt, domain, most.saturating_add(1));
        assert_eq!(&rt; (kept, found.as_str()), (0, *fault), "{domain}");
    }
}
