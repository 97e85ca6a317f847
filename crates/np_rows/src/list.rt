//! Answers of `list`, worked by hand.
use crate::pairs::{COUNTER, DELIVERY, FOUR, TWO_PARCELS};
use crate::trial::expect_list;
use std::process::Abort;

const FOUR_LISTED: &str = "unit 1
value 0 (x) 0
subgoal 0 form -1 1*0
subgoal 1 form -4 1*0
subgoal 2 form 4 -1*0
step 0 (inc) cost 2 needs adds deletes changes 0:3
step 1 (dec) cost 1 needs 0 adds deletes changes 0:-1
goal 1 2
";

const DELIVERY_LISTED: &str = "unit 2
fact 0 (at t1 a) true
fact 1 (at t1 b) false
fact 2 (at t1 c) false
fact 3 (at p1 a) true
fact 4 (at p1 b) false
fact 5 (at p1 c) false
fact 6 (at p2 a) false
fact 7 (at p2 b) true
fact 8 (at p2 c) false
fact 9 (in p1 t1) false
fact 10 (in p2 t1) false
value 0 (fuel t1) 5
value 1 (carried t1) 0
subgoal 0 fact 0
subgoal 1 form -4 1*0
subgoal 2 form -9 1*0
subgoal 3 fact 1
subgoal 4 form -6 1*0
subgoal 5 fact 2
subgoal 6 fact 3
subgoal 7 form 3 -1*1
subgoal 8 fact 4
subgoal 9 fact 5
subgoal 10 fact 6
subgoal 11 form 2 -1*1
subgoal 12 fact 7
subgoal 13 fact 8
subgoal 14 fact 9
subgoal 15 fact 10
step 0 (drive t1 a b) cost 4 needs 0 1 adds 1 deletes 0 changes 0:-4
step 1 (drive t1 a c) cost 9 needs 0 2 adds 2 deletes 0 changes 0:-9
step 2 (drive t1 b a) cost 4 needs 1 3 adds 0 deletes 1 changes 0:-4
step 3 (drive t1 b c) cost 6 needs 3 4 adds 2 deletes 1 changes 0:-6
step 4 (drive t1 c a) cost 9 needs 2 5 adds 0 deletes 2 changes 0:-9
step 5 (drive t1 c b) cost 6 needs 4 5 adds 1 deletes 2 changes 0:-6
step 6 (refuel t1 b) cost 3 needs 3 adds deletes changes 0:10
step 7 (load p1 t1 a) cost 1 needs 0 6 7 adds 9 deletes 3 changes 1:3
step 8 (load p1 t1 b) cost 1 needs 3 7 8 adds 9 deletes 4 changes 1:3
step 9 (load p1 t1 c) cost 1 needs 5 7 9 adds 9 deletes 5 changes 1:3
step 10 (load p2 t1 a) cost 1 needs 0 10 11 adds 10 deletes 6 changes 1:4
step 11 (load p2 t1 b) cost 1 needs 3 11 12 adds 10 deletes 7 changes 1:4
step 12 (load p2 t1 c) cost 1 needs 5 11 13 adds 10 deletes 8 changes 1:4
step 13 (unload p1 t1 a) cost 1 needs 0 14 adds 3 deletes 9 changes 1:-3
step 14 (unload p1 t1 b) cost 1 needs 3 14 adds 4 deletes 9 changes 1:-3
step 15 (unload p1 t1 c) cost 1 needs 5 14 adds 5 deletes 9 changes 1:-3
step 16 (unload p2 t1 a) cost 1 needs 0 15 adds 6 deletes 10 changes 1:-4
step 17 (unload p2 t1 b) cost 1 needs 3 15 adds 7 deletes 10 changes 1:-4
step 18 (unload p2 t1 c) cost 1 needs 5 15 adds 8 deletes 10 changes 1:-4
goal 9 13
";

/// Whole pairs, with their answers and statuses.
const PAIRS: &[(&str, &str, &str, u8)] = &[
    (COUNTER, FOUR, FOUR_LISTED, 0),
    (DELIVERY, TWO_PARCELS, DELIVERY_LISTED, 0),
    (
        COUNTER,
        "(define (problem p) (:domain counter) (:goal (= (y) 4)))",
        "Refused: problem 1:50 unknown function\n",
        3,
    ),
    (
        "(define (domain d)))",
        "",
        "Refused: domain 1:20 syntax\n",
        3,
    ),
];

#[test]
fn whole_pairs_are_listed(rt: HostRuntime) {
    for (domain, problem, answer, status) in PAIRS {
        expect_list(&rt, domain, problem, answer, *status);
    }
}

/// Sections of a domain, sections of a problem, and the listing.
const LISTED: &[(&str, &str, &str)] = &[
    (
        "(:functions (x)) (:action a :effect (increase (x) (/ 1 3)))",
        "(:init (= (x) 0)) (:goal (= (x) 1))",
        "unit 3
value 0 (x) 0
subgoal 0 form -3 1*0
subgoal 1 form 3 -1*0
step 0 (a) cost 1 needs adds deletes changes 0:1
goal 0 1
",
    ),
    (
        "(:functions (x)) (:action a :effect (increase (x) 0.1))",
        "(:init (= (x) 0)) (:goal (> (x) 0.3))",
        "unit 10
value 0 (x) 0
subgoal 0 form -4 1*0
step 0 (a) cost 1 needs adds deletes changes 0:1
goal 0
",
    ),
    (
        "(:functions (x)) (:action a :effect (increase (x) 0.5))",
        "(:init (= (x) 0)) (:goal (>= (x) 1.5))",
        "unit 2
value 0 (x) 0
subgoal 0 form -3 1*0
step 0 (a) cost 1 needs adds deletes changes 0:1
goal 0
",
    ),
    (
        "(:functions (x)) (:action a :effect (increase (x) 0.5))",
        "(:init (= (x) 0)) (:goal (> (x) 1.2))",
        "unit 2
value 0 (x) 0
subgoal 0 form -3 1*0
step 0 (a) cost 1 needs adds deletes changes 0:1
goal 0
",
    ),
    // A strict comparison between whole values, both ways round; coefficients 1/3 and -1/2 become 2 and -3.
    (
        "(:functions (x) (y)) (:action a :effect (and (increase (x) 1) (increase (y) 1)))",
        "(:init (= (x) 0) (= (y) 0)) (:goal (and (< (/ (x) 3) (+ (/ (y) 2) (/ 1 4))) (> (/ (x) 3) (+ (/ (y) 2) (/ 1 4)))))",
        "unit 1
value 0 (x) 0
value 1 (y) 0
subgoal 0 form 1 -2*0 3*1
subgoal 1 form -2 2*0 -3*1
step 0 (a) cost 1 needs adds deletes changes 0:1 1:1
goal 0 1
",
    ),
    // y has no value, so the step is dropped.
    (
        "(:predicates (p)) (:functions (y)) (:action a :precondition (>= (y) 1) :effect (p))",
        "(:goal (p))",
        "unit 1\nfact 0 (p) false\nsubgoal 0 fact 0\ngoal 0\n",
    ),
    // Static conditions: one that fails drops the step, one that holds is left out; equality of objects too.
    (
        "(:predicates (s ?x) (p ?x)) (:constants k l)
 (:action a :parameters (?x) :precondition (s ?x) :effect (p ?x))
 (:action b :parameters (?x) :precondition (not (s ?x)) :effect (not (p ?x)))
 (:action c :parameters (?x) :precondition (and (= ?x k) (not (p ?x))) :effect (p ?x))",
        "(:init (s k)) (:goal (and (p k) (s k)))",
        "unit 1
fact 0 (p k) false
subgoal 0 not 0
subgoal 1 fact 0
step 0 (a k) cost 1 needs adds 0 deletes changes
step 1 (b l) cost 1 needs adds deletes changes
step 2 (c k) cost 1 needs 0 adds 0 deletes changes
goal 1
",
    ),
    // What is constant is left out, drops the step, or makes a goal that never holds. A delete yields to an add.
    (
        "(:predicates (p)) (:functions (x) (y))
 (:action a :precondition (>= (* 0 (x) (y)) 0) :effect (and (p) (not (p)) (increase (x) 1)))
 (:action b :precondition (> (- (x) (x)) 0) :effect (increase (y) 1))
 (:action c :precondition (p) :effect (and (increase (y) 1) (decrease (y) 1)))",
        "(:init (= x 0) (= y 5)) (:goal (and (p) (< 1 0) (>= (y) 2)))",
        "unit 1
fact 0 (p) false
value 0 (y) 5
subgoal 0 fact 0
subgoal 1 form -1
subgoal 2 form -2 1*0
step 0 (a) cost 1 needs adds 0 deletes changes
step 1 (c) cost 1 needs 0 adds deletes changes
goal 0 1 2
",
    ),
    // The first finding decides: a step that is dropped before it is refused.
    (
        "(:predicates (q) (p)) (:functions (x)) (:action a :precondition (and (q) (>= (* (x) (x)) 1)) :effect (increase (x) 1))",
        "(:init (= x 0)) (:goal ())",
        "unit 1\ngoal\n",
    ),
    // Equal conditions have one number; a term of the metric without a value is 0, and a cost is made of net changes.
    (
        "(:functions (x) (c)) (:action a :precondition (and (>= (x) 1) (not (< (x) 1)) (>= (* 2 (x)) 2))
  :effect (and (increase (c) 5) (decrease (c) 2) (increase (x) 1)))",
        "(:init (= x 1)) (:goal (<= 1 (x))) (:metric minimize (+ (* 2 (c)) 7))",
        "unit 1
value 0 (x) 1
subgoal 0 form -1 1*0
step 0 (a) cost 6 needs 0 adds deletes changes 0:1
goal 0
",
    ),
    // A subtype's objects fit, and the first parameter is the slowest.
    (
        "(:types s - t u) (:constants i - s j - t o - u) (:predicates (p ?x ?y - t))
 (:action a :parameters (?x ?y - t) :effect (p ?x ?y))",
        "(:goal (p j i))",
        "unit 1
fact 0 (p j i) false
subgoal 0 fact 0
step 0 (a i i) cost 1 needs adds deletes changes
step 1 (a i j) cost 1 needs adds deletes changes
step 2 (a j i) cost 1 needs adds 0 deletes changes
step 3 (a j j) cost 1 needs adds deletes changes
goal 0
",
    ),
    // The greatest coefficient.
    (
        "(:functions (x) (y)) (:action a :effect (and (increase (x) 1) (decrease (y) 2)))",
        "(:init (= x 0) (= y 0)) (:goal (>= (+ (* 2147483647 (x)) (y)) 1))",
        "unit 1
value 0 (x) 0
value 1 (y) 0
subgoal 0 form -1 2147483647*0 1*1
step 0 (a) cost 1 needs adds deletes changes 0:1 1:-2
goal 0
",
    ),
    // The 18th decimal place, and the greatest cost.
    (
        "(:functions (x) (c)) (:action a :effect (and (increase (x) 0.000000000000000001) (increase (c) 4294967295)))",
        "(:init (= x 0)) (:goal (>= (x) 1)) (:metric minimize (c))",
        "unit 1000000000000000000
value 0 (x) 0
subgoal 0 form -1000000000000000000 1*0
step 0 (a) cost 4294967295 needs adds deletes changes 0:1
goal 0
",
    ),
];

#[test]
fn sections_are_listed(rt: HostRuntime) {
    for (domain, problem, answer) in LISTED {
        let domain = format!(in rt.alloc(); "(define (domain d) {domain})").expect(&rt, "memory");
        let problem = format!(in rt.alloc(); "(define (problem p) (:domain d) {problem})").expect(
            &rt, "memory",
        );
        expect_list(&rt, domain.as_str(), problem.as_str(), answer, 0);
    }
}

/// Sections of a domain, sections of a problem, and why they are refused.
const REFUSED: &[(&str, &str, &str)] = &[
    (
        "(:functions (x) (y)) (:action a :precondition (>= (* (x) (y)) 1) :effect (and (increase (x) 1) (increase (y) 1)))",
        "(:init (= x 0) (= y 0)) (:goal ())",
        "not linear: step (a)",
    ),
    (
        "(:functions (x) (y)) (:action a :effect (and (increase (x) 1) (increase (y) 1)))",
        "(:init (= x 0) (= y 0)) (:goal (>= (* (x) (y)) 1))",
        "not linear: goal",
    ),
    (
        "(:functions (x) (y)) (:action a :effect (and (increase (x) 1) (increase (y) 1)))",
        "(:goal ()) (:metric minimize (* (x) (y)))",
        "not linear: metric",
    ),
    (
        "(:functions (x)) (:action a :effect (increase (x) 1))",
        "(:init (= x 1)) (:goal (>= (/ 1 (x)) 1))",
        "not linear: goal",
    ),
    // A binding that is refused before it is dropped.
    (
        "(:predicates (q)) (:functions (x)) (:action a :parameters (?y) :precondition (and (>= (* (x) (x)) 1) (q)) :effect (increase (x) 1))",
        "(:objects o) (:init (= x 0)) (:goal ())",
        "not linear: step (a o)",
    ),
    (
        "(:functions (x)) (:action a :effect (increase (x) 1))",
        "(:goal (>= (x) 1))",
        "goal undefined",
    ),
    (
        "(:functions (x)) (:action a :effect (increase (x) 1))",
        "(:init (= x 1)) (:goal (>= (/ (x) 0) 1))",
        "goal undefined",
    ),
    (
        "(:functions (x) (s))",
        "(:goal ()) (:metric minimize (/ (x) (s)))",
        "metric undefined",
    ),
    (
        "(:functions (x) (s)) (:action a :effect (increase (x) 1))",
        "(:goal ()) (:metric minimize (/ (s) (x)))",
        "not linear: metric",
    ),
    (
        "(:functions (c)) (:action a :effect (decrease (c) 1))",
        "(:goal ()) (:metric minimize (c))",
        "cost negative: step (a)",
    ),
    (
        "(:functions (c)) (:action a :effect (increase (c) 0.5))",
        "(:goal ()) (:metric minimize (c))",
        "cost not whole: step (a)",
    ),
    (
        "(:functions (c)) (:action a :effect (increase (c) 4294967296))",
        "(:goal ()) (:metric minimize (c))",
        "cost wide: step (a)",
    ),
    (
        "(:functions (x)) (:action a :effect (increase (x) 0.0000000000000000001))",
        "(:init (= x 0)) (:goal (>= (x) 1))",
        "unit wide",
    ),
    (
        "(:functions (x)) (:action a :effect (increase (x) 1))",
        "(:init (= x 99999999999999999999999999999999999999)) (:goal (>= (x) 1))",
        "number wide: value (x)",
    ),
    (
        "(:functions (x)) (:action a :effect (increase (x) 99999999999999999999999999999999999999))",
        "(:init (= x 0)) (:goal (>= (x) 1))",
        "number wide: step (a)",
    ),
    (
        "(:functions (x) (y)) (:action a :effect (and (increase (x) 1) (increase (y) 1)))",
        "(:init (= x 0) (= y 0)) (:goal (>= (+ (* 2147483648 (x)) (y)) 1))",
        "number wide: goal",
    ),
    (
        "(:functions (x)) (:action a :effect (increase (x) 1))",
        "(:init (= x 0)) (:goal (>= (* 99999999999999999999999999999999999999 99999999999999999999999999999999999999) 1))",
        "number wide: goal",
    ),
    (
        "(:functions (x)) (:action a :effect (increase (x) 1))",
        "(:init (= x 0)) (:goal ()) (:metric minimize (* 99999999999999999999999999999999999999 10))",
        "number wide: metric",
    ),
    // The metric comes before the steps, the steps before the goal, and all binding before scaling.
    (
        "(:functions (x)) (:action a :precondition (>= (* (x) (x)) 1) :effect (increase (x) 1))",
        "(:init (= x 0)) (:goal (>= (/ (x) 0) 1)) (:metric minimize (/ 1 0))",
        "metric undefined",
    ),
    (
        "(:functions (x)) (:action a :precondition (>= (* (x) (x)) 1) :effect (increase (x) 1))",
        "(:init (= x 0)) (:goal (>= (/ (x) 0) 1))",
        "not linear: step (a)",
    ),
    (
        "(:functions (x)) (:action a :effect (increase (x) 0.0000000000000000001))",
        "(:init (= x 0)) (:goal (and (>= (x) 1) (>= (/ (x) 0) 1)))",
        "goal undefined",
    ),
    (
        "(:functions (x) (c)) (:action a :precondition (>= (+ (* 2147483648 (x)) (c)) 1) :effect (and (increase (x) 1) (decrease (c) 1)))",
        "(:init (= x 0)) (:goal ()) (:metric minimize (c))",
        "number wide: step (a)",
    ),
];

#[test]
fn refusals_are_told(rt: HostRuntime) {
    for (domain, problem, why) in REFUSED {
        let domain = format!(in rt.alloc(); "(define (domain d) {domain})").expect(&rt, "memory");
        let problem = format!(in rt.alloc(); "(define (problem p) (:domain d) {problem})").expect(
            &rt, "memory",
        );
        let answer = format!(in rt.alloc(); "Refused: {why}\n").expect(&rt, "memory");
        expect_list(&rt, domain.as_str(), problem.as_str(), answer.as_str(), 3);
    }
}
