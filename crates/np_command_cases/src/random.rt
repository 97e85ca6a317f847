//! Small pairs of texts at random: three actions, of which the first has a parameter with two objects.
ghost use Rattle.std.specs.Prelude.{◌<◌};

use std::process::Abort;

/// The declarations: s and k are static.
const DECLARED: &str =
    "(define (domain d) (:types t) (:constants a b - t) (:predicates (s ?x) (p ?x - t) (q))
 (:functions (x) (y) (v ?x - t) (k) (c))";

/// Conditions that name the parameter; the first half of these doesn't.
const NEEDS: [&str; 20] = [
    "(q)",
    "(not (q))",
    "(p a)",
    "(not (p b))",
    "(>= (x) 1)",
    "(<= (x) 3)",
    "(< (+ (x) (y)) 4)",
    "(> (v a) 0.5)",
    "(not (< (y) 0))",
    "(>= (- (v b) (x)) -2.5)",
    "(s ?z)",
    "(not (s ?z))",
    "(p ?z)",
    "(not (p ?z))",
    "(= ?z a)",
    "(not (= ?z b))",
    "(< (v ?z) 2.5)",
    "(<= (* (k) (x)) (v ?z))",
    "(>= (v ?z) (/ (k) 2))",
    "(not (> (v ?z) (+ (x) 2)))",
];

/// Effects that name the parameter; the first half of these doesn't.
const EFFECTS: [&str; 20] = [
    "(q)",
    "(not (q))",
    "(p a)",
    "(not (p b))",
    "(increase (x) 1)",
    "(decrease (x) 0.5)",
    "(increase (y) (/ 1 3))",
    "(decrease (y) (k))",
    "(increase (x) (- 2 (k)))",
    "(increase (v b) 0.25)",
    "(p ?z)",
    "(not (p ?z))",
    "(and (p ?z) (not (p ?z)))",
    "(increase (v ?z) (k))",
    "(decrease (v ?z) 0.5)",
    "(increase (v ?z) 1)",
    "(and (increase (x) 1) (decrease (x) 1))",
    "(increase (x) 2)",
    "(and (q) (not (p a)))",
    "(p b)",
];

/// Conditions of the goal.
const GOALS: [&str; 10] = [
    "(p b)",
    "(>= (x) 3)",
    "(= (x) 1.5)",
    "(and (q) (p a))",
    "(>= (+ (x) (y)) 3)",
    "(and (p a) (p b))",
    "(<= (v a) -1)",
    "(and (q) (> (x) 1))",
    "(= (v b) (x))",
    "(and (not (q)) (>= (y) 1))",
];

/// Metrics.
const METRICS: [&str; 4] = [
    "",
    "(:metric minimize (c))",
    "(:metric minimize (+ (c) 1))",
    "(:metric minimize (- (* 2 (c)) (c)))",
];

/// A generator of numbers.
#[derive(Drop)]
pub struct Random {
    pub seed: u64,
}

impl Random {
    /// A number below this one.
    pub fn below(&mut self, n: usize) -> usize
        requires { 0 < n }
        ensures { result < n }
    {
        self.seed = self
            .seed
            .wrapping_mul(6364136223846793005)
            .wrapping_add(1442695040888963407);
        (self.seed >> 33) as usize % n
    }

    /// Up to so many of the texts, each after a space.
    fn some(&mut self, rt: &(impl Abort + AllocGlobal), most: usize, texts: &[&str]) -> String {
        let mut text = String::new(rt.alloc());
        let count = self.below(most.max(1));
        for _ in 0..count {
            if !texts.is_empty() {
                text.push_str(" ").expect(rt, "memory");
                text.push_str(texts[self.below(texts.len())])
                    .expect(rt, "memory");
            }
        }
        text
    }

    /// The conditions and effects of an action, which costs 0 to 5.
    fn body(
        &mut self,
        rt: &(impl Abort + AllocGlobal),
        needs: &[&str],
        effects: &[&str],
    ) -> String {
        let needs = self.some(rt, 3, needs);
        let effects = self.some(rt, 4, effects);
        let cost = self.below(6);
        format!(in rt.alloc();
            ":precondition (and{needs}) :effect (and{effects} (increase (c) {cost}))"
        ).expect(rt, "memory")
    }

    /// A domain.
    pub fn domain(&mut self, rt: &(impl Abort + AllocGlobal)) -> String {
        let f = self.body(rt, &NEEDS, &EFFECTS);
        let g = self.body(rt, &NEEDS[..10], &EFFECTS[..10]);
        let h = self.body(rt, &NEEDS[..10], &EFFECTS[..10]);
        format!(in rt.alloc();
            "{DECLARED}
 (:action f :parameters (?z - t) {f})
 (:action g {g})
 (:action h {h}))"
        )
        .expect(rt, "memory")
    }

    /// A problem.
    pub fn problem(&mut self, rt: &(impl Abort + AllocGlobal)) -> String {
        let first = GOALS[self.below(10)];
        let goal = self.some(rt, 2, &GOALS);
        let atoms = ["", "(s a)", "(p a) (s b)", "(q)"][self.below(4)];
        let k = ["1", "2", "0.5"][self.below(3)];
        let x = ["0", "1", "0.5"][self.below(3)];
        let metric = METRICS[self.below(4)];
        format!(in rt.alloc();
            "(define (problem p) (:domain d)
 (:init {atoms} (= (k) {k}) (= (x) {x}) (= (y) 0) (= (v a) 1) (= (v b) 0.25)) (:goal (and {first}{goal})) {metric})"
        )
        .expect(rt, "memory")
    }
}
