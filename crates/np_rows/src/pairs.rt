//! Pairs of texts that several commands are tried on.

/// Each `inc` raises x by 3 at a cost of 2, each `dec` lowers it by 1 at a cost of 1, while it is at least 1.
pub const COUNTER: &str = "(define (domain counter) (:functions (x) (c))
(:action inc :parameters () :effect (and (increase (x) 3) (increase (c) 2)))
(:action dec :parameters () :precondition (>= (x) 1) :effect (and (decrease (x) 1) (increase (c) 1))))";

/// Its problem: x is 0, and exactly 4 is wanted.
pub const FOUR: &str = "(define (problem p) (:domain counter) (:init (= (x) 0)) (:goal (= (x) 4))
 (:metric minimize (c)))";

/// A truck takes parcels between three places; fuel is burnt by distance, and both parcels don't fit at once.
pub const DELIVERY: &str = "(define (domain delivery)
 (:requirements :typing :numeric-fluents :negative-preconditions :equality)
 (:types truck parcel - thing thing place - object)
 (:predicates (at ?x - thing ?p - place) (in ?x - parcel ?t - truck) (station ?p - place))
 (:functions (distance ?a ?b - place) - number (fuel ?t - truck) (carried ?t - truck)
  (capacity ?t - truck) (burn ?t - truck) (weight ?x - parcel) (total-cost) - number)
 (:action drive :parameters (?t - truck ?a ?b - place)
  :precondition (and (at ?t ?a) (not (= ?a ?b)) (>= (fuel ?t) (* (burn ?t) (distance ?a ?b))))
  :effect (and (not (at ?t ?a)) (at ?t ?b) (decrease (fuel ?t) (* (burn ?t) (distance ?a ?b)))
   (increase (total-cost) (distance ?a ?b))))
 (:action refuel :parameters (?t - truck ?a - place)
  :precondition (and (at ?t ?a) (station ?a))
  :effect (and (increase (fuel ?t) 5) (increase (total-cost) 3)))
 (:action load :parameters (?x - parcel ?t - truck ?a - place)
  :precondition (and (at ?x ?a) (at ?t ?a) (<= (+ (carried ?t) (weight ?x)) (capacity ?t)))
  :effect (and (not (at ?x ?a)) (in ?x ?t) (increase (carried ?t) (weight ?x)) (increase (total-cost) 1)))
 (:action unload :parameters (?x - parcel ?t - truck ?a - place)
  :precondition (and (in ?x ?t) (at ?t ?a))
  :effect (and (not (in ?x ?t)) (at ?x ?a) (decrease (carried ?t) (weight ?x)) (increase (total-cost) 1))))
";

pub const TWO_PARCELS: &str = "(define (problem two-parcels) (:domain delivery)
 (:objects t1 - truck p1 p2 - parcel a b c - place)
 (:init (at t1 a) (at p1 a) (at p2 b) (station b)
  (= (distance a b) 4) (= (distance b a) 4) (= (distance b c) 6) (= (distance c b) 6)
  (= (distance a c) 9) (= (distance c a) 9) (= (fuel t1) 2.5) (= (burn t1) 0.5)
  (= (carried t1) 0) (= (capacity t1) 3) (= (weight p1) 1.5) (= (weight p2) 2))
 (:goal (and (at p1 c) (at p2 c)))
 (:metric minimize (total-cost)))
";
