//! Small pairs of texts at random.
ghost use Rattle.std.specs.Prelude.{◌<◌};

use std::process::Abort;

/// Conditions.
const NEEDS: [&str; 10] = [
    "(p)",
    "(not (p))",
    "(q)",
    "(not (q))",
    "(>= (x) 1)",
    "(>= (x) 5)",
    "(<= (x) 3)",
    "(>= (+ (x) (y)) 4)",
    "(>= (y) 1)",
    "(<= (- (y) (x)) -2)",
];

/// Effects.
const EFFECTS: [&str; 9] = [
    "(p)",
    "(not (p))",
    "(q)",
    "(not (q))",
    "(increase (x) 1)",
    "(increase (x) 2)",
    "(decrease (x) 1)",
    "(increase (y) 0.5)",
    "(decrease (y) 1)",
];

/// A generator of numbers.
#[derive(Drop)]
pub struct Random {
    pub seed: u64,
}

impl Random {
    /// A number below this one.
    pub fn below(&mut self, n: usize) -> usize
        requires { 0 < n }
        ensures { result < n }
    {
        self.seed = self
            .seed
            .wrapping_mul(6364136223846793005)
            .wrapping_add(1442695040888963407);
        (self.seed >> 33) as usize % n
    }

    /// One to so many of the texts.
    fn some(&mut self, rt: &(impl Abort + AllocGlobal), most: usize, texts: &[&str]) -> String {
        let mut text = String::from_str(rt.alloc(), "(and").expect(rt, "memory");
        let count = self.below(most.max(1));
        for _ in 0..=count {
            if !texts.is_empty() {
                text.push_str(" ").expect(rt, "memory");
                text.push_str(texts[self.below(texts.len())])
                    .expect(rt, "memory");
            }
        }
        text.push_str(")").expect(rt, "memory");
        text
    }

    /// An action, which costs 0 to 3.
    fn action(&mut self, rt: &(impl Abort + AllocGlobal), name: &str) -> String {
        let needs = self.some(rt, 2, &NEEDS);
        let effects = self.some(rt, 2, &EFFECTS);
        let cost = self.below(4);
        format!(in rt.alloc();
            "(:action {name} :precondition {needs} :effect (and {effects} (increase (c) {cost})))"
        ).expect(rt, "memory")
    }

    /// A domain.
    pub fn domain(&mut self, rt: &(impl Abort + AllocGlobal)) -> String {
        let f = self.action(rt, "f");
        let g = self.action(rt, "g");
        let h = self.action(rt, "h");
        format!(in rt.alloc();
            "(define (domain d) (:predicates (p) (q)) (:functions (x) (y) (c)) {f} {g} {h})"
        ).expect(rt, "memory")
    }

    /// A problem.
    pub fn problem(&mut self, rt: &(impl Abort + AllocGlobal)) -> String {
        let goal = self.some(rt, 3, &NEEDS);
        let atoms = ["", "(p)", "(q)", "(p) (q)"][self.below(4)];
        let x = ["-2", "0", "1", "2.5"][self.below(4)];
        let y = ["-1", "0", "3"][self.below(3)];
        format!(in rt.alloc();
            "(define (problem n) (:domain d) (:init {atoms} (= (x) {x}) (= (y) {y}) (= (c) 0)) (:goal {goal}) (:metric minimize (c)))"
        ).expect(rt, "memory")
    }

    /// So many bits.
    pub fn bits(&mut self, rt: &(impl Abort + AllocGlobal), count: usize) -> Vec<bool> {
        let mut bits = Vec::new(rt.alloc());
        for _ in 0..count {
            bits.push(self.below(2) == 1).expect(rt, "memory");
        }
        bits
    }

    /// The entries, some of them changed to a small number or to none.
    pub fn changed(
        &mut self,
        rt: &(impl Abort + AllocGlobal),
        entries: &[Option<u64>],
    ) -> Vec<Option<u64>> {
        let mut changed = Vec::new(rt.alloc());
        for entry in entries {
            let next = match self.below(8) {
                0 => None,
                1 => Some(self.below(6) as u64),
                _ => *entry,
            };
            changed.push(next).expect(rt, "memory");
        }
        changed
    }

    /// The entry, or one that is mostly near it.
    pub fn near(&mut self, entry: Option<u64>) -> Option<u64> {
        match (self.below(8), entry) {
            (0, _) => None,
            (1, _) => Some(self.below(6) as u64),
            (2, Some(n)) => Some(n.saturating_add(1)),
            (3, Some(n)) => Some(n.saturating_sub(1)),
            _ => entry,
        }
    }
}
