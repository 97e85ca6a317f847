//! Small pairs of texts, rows, weights and states at random.
ghost use Rattle.std.specs.Prelude.{◌<◌};

use np_count::{Proof, Row};
use np_flat::{FlatState, Parts};
use sqlite_items::Items;
use std::process::Abort;

/// Conditions.
const NEEDS: [&str; 10] = [
    "(p)",
    "(not (p))",
    "(q)",
    "(not (q))",
    "(>= (x) 1)",
    "(>= (x) 2)",
    "(<= (x) 3)",
    "(>= (+ (x) (y)) 1)",
    "(>= (y) 0)",
    "(<= (- (y) (x)) 2)",
];

/// Effects.
const EFFECTS: [&str; 9] = [
    "(p)",
    "(not (p))",
    "(q)",
    "(not (q))",
    "(increase (x) 1)",
    "(decrease (x) 2)",
    "(decrease (x) 1)",
    "(increase (y) 0.5)",
    "(decrease (y) 1)",
];

/// Divisors; the first ones are those of most proofs.
const DIVISORS: [u64; 10] = [1, 2, 3, 5, 1, 4, 0, 0, (1 << 62) - 1, 1 << 62];

/// A generator of numbers.
#[derive(Drop)]
pub struct Random {
    pub seed: u64,
}

impl Random {
    /// A number below this one.
    pub fn below(&mut self, n: usize) -> usize
        requires { 0 < n }
        ensures { result < n }
    {
        self.seed = self
            .seed
            .wrapping_mul(6364136223846793005)
            .wrapping_add(1442695040888963407);
        (self.seed >> 33) as usize % n
    }

    /// One to so many of the texts.
    fn some(&mut self, rt: &(impl Abort + AllocGlobal), most: usize, texts: &[&str]) -> String {
        let mut text = String::from_str(rt.alloc(), "(and").expect(rt, "memory");
        let count = self.below(most.max(1));
        for _ in 0..=count {
            if !texts.is_empty() {
                text.push_str(" ").expect(rt, "memory");
                text.push_str(texts[self.below(texts.len())])
                    .expect(rt, "memory");
            }
        }
        text.push_str(")").expect(rt, "memory");
        text
    }

    /// An action, which costs 0 to 3.
    fn action(&mut self, rt: &(impl Abort + AllocGlobal), name: &str) -> String {
        let needs = self.some(rt, 2, &NEEDS);
        let effects = self.some(rt, 2, &EFFECTS);
        let cost = self.below(4);
        format!(in rt.alloc();
            "(:action {name} :precondition {needs} :effect (and {effects} (increase (c) {cost})))"
        ).expect(rt, "memory")
    }

    /// A domain.
    pub fn domain(&mut self, rt: &(impl Abort + AllocGlobal)) -> String {
        let f = self.action(rt, "f");
        let g = self.action(rt, "g");
        let h = self.action(rt, "h");
        format!(in rt.alloc();
            "(define (domain d) (:predicates (p) (q)) (:functions (x) (y) (c)) {f} {g} {h})"
        ).expect(rt, "memory")
    }

    /// A problem.
    pub fn problem(&mut self, rt: &(impl Abort + AllocGlobal)) -> String {
        let goal = self.some(rt, 3, &NEEDS);
        let atoms = ["", "(p)", "(q)", "(p) (q)"][self.below(4)];
        let x = ["0", "1", "2.5"][self.below(3)];
        format!(in rt.alloc();
            "(define (problem n) (:domain d) (:init {atoms} (= (x) {x}) (= (y) 0) (= (c) 0)) (:goal {goal}) (:metric minimize (c)))"
        ).expect(rt, "memory")
    }

    /// The members of a cut, which ascend mostly.
    fn members(&mut self, rt: &(impl Abort + AllocGlobal), subgoals: usize) -> Items<u64> {
        let mut members = Items::new(rt.alloc());
        for number in 0..subgoals {
            if self.below(3) == 0 {
                members.push(number as u64).expect(rt, "memory");
            }
        }
        if self.below(8) == 0 {
            let number = self.below(6) as u64;
            members.push(number).expect(rt, "memory");
        }
        members
    }

    /// A row, of numbers that are in range mostly.
    fn row(&mut self, rt: &(impl Abort + AllocGlobal), parts: &Parts) -> Row {
        let subgoals = parts.subgoals.as_slice().len();
        let subgoal = self.below(subgoals.saturating_add(1)) as u64;
        let fact = self.below(parts.facts.as_slice().len().saturating_add(1)) as u64;
        match self.below(6) {
            0 => Row::Demand(subgoal),
            1 => Row::Flow(fact),
            2 => Row::FlowNot(fact),
            3 => Row::Floor(subgoal, 2_i128.saturating_sub(self.below(14) as i128)),
            _ => Row::Cut(self.members(rt, subgoals)),
        }
    }

    /// A proof of up to three rows, with small weights mostly.
    pub fn proof(&mut self, rt: &(impl Abort + AllocGlobal), parts: &Parts) -> Proof {
        let mut items = Items::new(rt.alloc());
        for _ in 0..self.below(4) {
            let weight = if self.below(30) == 0 {
                [0, 1 << 62][self.below(2)]
            } else {
                self.below(3).saturating_add(1) as u64
            };
            let row = self.row(rt, parts);
            items.push((weight, row)).expect(rt, "memory");
        }
        let divisor = DIVISORS[self.below(10)];
        Proof { divisor, items }
    }

    /// A state.
    pub fn state(&mut self, rt: &(impl Abort + AllocGlobal), parts: &Parts) -> FlatState {
        let mut facts = Items::new(rt.alloc());
        let mut values = Items::new(rt.alloc());
        let mut number: u32 = 0;
        for _ in parts.facts.as_slice() {
            if self.below(2) == 0 {
                facts.push(number).expect(rt, "memory");
            }
            number = number.saturating_add(1);
        }
        for _ in parts.values.as_slice() {
            let value = (self.below(12) as i128).saturating_sub(6);
            values.push(value).expect(rt, "memory");
        }
        FlatState { facts, values }
    }
}
