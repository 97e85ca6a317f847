//! Small pairs of texts at random: two actions, of which the first has a parameter with two objects.
ghost use Rattle.std.specs.Prelude.{◌<◌};

use std::process::Abort;

/// The declarations: s and k are static, and u has no value.
const DECLARED: &str =
    "(define (domain d) (:types t) (:constants a b - t) (:predicates (s ?x) (p ?x - t) (q))
 (:functions (x) (y) (v ?x - t) (k) (u) (c))";

/// Conditions that name the parameter; the first half of these doesn't.
const NEEDS: [&str; 24] = [
    "(q)",
    "(not (q))",
    "(p a)",
    "(>= (x) 1)",
    "(= (x) (y))",
    "(<= (* (k) (y)) 3)",
    "(not (> (x) 2))",
    "(< (+ (x) (* 2 (y))) (+ 4 (k)))",
    "(> (/ (v a) 3) (/ 1 2))",
    "(>= (- (x) (x)) 0)",
    "(< (* 0 (x) (y)) 0.5)",
    "(> (- (v b) (* (k) (x))) -1.75)",
    "(s ?z)",
    "(not (s ?z))",
    "(p ?z)",
    "(not (p ?z))",
    "(= ?z a)",
    "(not (= ?z b))",
    "(< (v ?z) 2.5)",
    "(> (+ (* 2 (x)) (/ (v ?z) 3)) (k))",
    "(not (>= (v ?z) (+ (x) 1)))",
    "(= (v ?z) (* 0.5 (k)))",
    "(>= (u) 1)",
    "(<= (v ?z) (/ (x) (- (k) (k))))",
];

/// Effects that name the parameter; the first half of these doesn't.
const EFFECTS: [&str; 20] = [
    "(q)",
    "(not (q))",
    "(not (p a))",
    "(increase (x) 1)",
    "(decrease (x) 0.5)",
    "(increase (y) (/ 1 3))",
    "(increase (c) 2)",
    "(increase (c) (/ (k) (k)))",
    "(decrease (v b) (* 0.25 (k)))",
    "(increase (x) (- (k) 1))",
    "(p ?z)",
    "(not (p ?z))",
    "(increase (v ?z) (k))",
    "(decrease (v ?z) 1)",
    "(increase (v ?z) 0.5)",
    "(and (p ?z) (not (p ?z)))",
    "(increase (x) 2)",
    "(and (increase (y) 1) (decrease (y) 1))",
    "(increase (c) 1)",
    "(increase (u) 1)",
];

/// Metrics.
const METRICS: [&str; 4] = [
    "",
    "(:metric minimize (c))",
    "(:metric minimize (+ (* 2 (c)) (/ (x) 2)))",
    "(:metric minimize (* 3 (+ (c) 1)))",
];

/// A generator of numbers.
#[derive(Drop)]
pub struct Random {
    pub seed: u64,
}

impl Random {
    /// A number below this one.
    fn below(&mut self, n: usize) -> usize
        requires { 0 < n }
        ensures { result < n }
    {
        self.seed = self
            .seed
            .wrapping_mul(6364136223846793005)
            .wrapping_add(1442695040888963407);
        (self.seed >> 33) as usize % n
    }

    /// Up to so many of the texts, as one conjunction.
    fn some(&mut self, rt: &(impl Abort + AllocGlobal), most: usize, texts: &[&str]) -> String {
        let mut text = String::from_str(rt.alloc(), "(and").expect(rt, "memory");
        let count = self.below(most.max(1));
        for _ in 0..count {
            if !texts.is_empty() {
                text.push_str(texts[self.below(texts.len())])
                    .expect(rt, "memory");
            }
        }
        text.push_str(")").expect(rt, "memory");
        text
    }

    /// A domain.
    pub fn domain(&mut self, rt: &(impl Abort + AllocGlobal)) -> String {
        let needs = self.some(rt, 4, &NEEDS);
        let effects = self.some(rt, 5, &EFFECTS);
        let others = self.some(rt, 3, &NEEDS[..12]);
        let other_effects = self.some(rt, 4, &EFFECTS[..10]);
        format!(in rt.alloc();
            "{DECLARED}
 (:action f :parameters (?z - t) :precondition {needs} :effect {effects})
 (:action g :precondition {others} :effect {other_effects})
 (:action h :precondition (= (k) -7) :effect (and (q) (not (p b)) (increase (x) 1) (increase (y) 1) (increase (v a) 1) (increase (u) 1))))"
        )
        .expect(rt, "memory")
    }

    /// A problem.
    pub fn problem(&mut self, rt: &(impl Abort + AllocGlobal)) -> String {
        let goal = self.some(rt, 4, &NEEDS[..12]);
        let atoms = ["", "(s a)", "(p a) (s b)", "(q) (p b)"][self.below(4)];
        let k = ["1", "2", "0.5", "-1"][self.below(4)];
        let x = ["0", "1", "2.5"][self.below(3)];
        let metric = METRICS[self.below(4)];
        format!(in rt.alloc();
            "(define (problem p) (:domain d)
 (:init {atoms} (= (k) {k}) (= (x) {x}) (= (y) 0) (= (v a) 1) (= (v b) 0.25)) (:goal {goal}) {metric})"
        )
        .expect(rt, "memory")
    }
}
