//! The limits of binding and of the flat task, each at its edge and one past it.
use crate::trial::{expect_lines, expect_list};
use std::process::Abort;

/// The names `o1`, `o2` and so on, each after a space.
fn objects(rt: &(impl Abort + AllocGlobal), count: u32) -> String {
    let mut text = String::new(rt.alloc());
    for number in 0..count {
        let name = format!(in rt.alloc(); " o{number}").expect(rt, "memory");
        text.push_str(name.as_str()).expect(rt, "memory");
    }
    text
}

/// The value 0 of v for so many objects.
fn starts(rt: &(impl Abort + AllocGlobal), count: u32) -> String {
    let mut text = String::new(rt.alloc());
    for number in 0..count {
        let start = format!(in rt.alloc(); " (= (v o{number}) 0)").expect(rt, "memory");
        text.push_str(start.as_str()).expect(rt, "memory");
    }
    text
}

/// The sum of v over so many objects.
fn sum(rt: &(impl Abort + AllocGlobal), count: u32) -> String {
    let mut text = String::from_str(rt.alloc(), "(+").expect(rt, "memory");
    for number in 0..count {
        let part = format!(in rt.alloc(); " (v o{number})").expect(rt, "memory");
        text.push_str(part.as_str()).expect(rt, "memory");
    }
    text.push_str(")").expect(rt, "memory");
    text
}

/// A problem with so many objects, and other sections.
fn problem(rt: &(impl Abort + AllocGlobal), count: u32, sections: &str) -> String {
    let objects = objects(rt, count);
    format!(in rt.alloc();
        "(define (problem p) (:domain d) (:objects{objects}) {sections})"
    ).expect(rt, "memory")
}

/// Sections of a domain, the number of objects at the edge, how the counted lines begin, how many there are, and the refusal of one more.
const BY_OBJECTS: &[(&str, u32, &str, usize, &str)] = &[
    (
        "(:action a :parameters (?x))",
        65_536,
        "step ",
        65_536,
        "too many steps",
    ),
    (
        "(:action a :parameters (?x ?y ?z) :precondition (and (= ?x ?y) (= ?y ?z)))",
        161,
        "step ",
        161,
        "too many bindings",
    ),
    (
        "(:predicates (p ?x)) (:action a :parameters (?x) :precondition (p ?x) :effect (not (p ?x)))",
        16_384,
        "fact ",
        16_384,
        "too many facts",
    ),
];

#[test]
fn objects_at_the_limits(rt: HostRuntime) {
    for (sections, most, begin, lines, why) in BY_OBJECTS {
        let domain = format!(in rt.alloc(); "(define (domain d) {sections})").expect(&rt, "memory");
        let edge = problem(&rt, *most, "(:goal ())");
        expect_lines(&rt, domain.as_str(), edge.as_str(), begin, *lines, 0);
        let past = problem(&rt, most.saturating_add(1), "(:goal ())");
        let answer = format!(in rt.alloc(); "Refused: {why}\n").expect(&rt, "memory");
        expect_list(&rt, domain.as_str(), past.as_str(), answer.as_str(), 3);
    }
}

/// Each step raises v of its object while it is at least 1.
const RAISE: &str = "(define (domain d) (:functions (v ?x))
 (:action a :parameters (?x) :precondition (>= (v ?x) 1) :effect (increase (v ?x) 1)))";

#[test]
fn values_at_the_limit(rt: HostRuntime) {
    for (count, lines, status) in [(1_024, 1_024, 0), (1_025, 0, 3)] {
        let starts = starts(&rt, count);
        let sections = format!(in rt.alloc(); "(:init{starts}) (:goal ())").expect(&rt, "memory");
        let problem = problem(&rt, count, sections.as_str());
        expect_lines(&rt, RAISE, problem.as_str(), "value ", lines, status);
    }
}

#[test]
fn forms_at_the_limit(rt: HostRuntime) {
    for (count, begin, lines, status) in [
        (64, "subgoal 64 form -1 1*0 1*1", 1, 0),
        (65, "Refused: form long: goal", 1, 3),
    ] {
        let starts = starts(&rt, count);
        let sum = sum(&rt, count);
        let sections = format!(in rt.alloc(); "(:init{starts}) (:goal (>= {sum} 1))").expect(
            &rt, "memory",
        );
        let problem = problem(&rt, count, sections.as_str());
        expect_lines(&rt, RAISE, problem.as_str(), begin, lines, status);
    }
}
