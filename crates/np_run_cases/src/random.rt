//! Small tasks and lists of steps at random. Symbols and actions have one parameter each, and there are two objects.
ghost use Rattle.std.specs.Prelude.{◌<◌};

use crate::building::{action, boxed, frac, items, nothing, objects};
use np_frac::Frac;
use np_model::{Action, Atom, Cond, Eff, Op, Ref, Step, Sum, TaskParts, Term};
use sqlite_items::Items;
use std::process::Abort;

/// The numbers of tasks: most are small, and products or sums of the last two are soon too wide.
const NUMBERS: [(i128, i128); 12] = [
    (0, 1),
    (0, 1),
    (1, 1),
    (1, 1),
    (2, 1),
    (3, 1),
    (4, 1),
    (-1, 1),
    (1, 2),
    (-5, 3),
    (7_000_000_000_000_000_000, 3),
    (100_000_000_000_000_000_000_000_000_000_000_000_000, 1),
];

/// The comparisons.
const COMPARISONS: [Op; 5] = [Op::Less, Op::Greater, Op::AtMost, Op::AtLeast, Op::Equal];

/// A generator of numbers.
#[derive(Drop)]
pub struct Random {
    pub seed: u64,
}

impl Random {
    /// A number below this one.
    fn below(&mut self, n: u32) -> u32
        requires { 0 < n }
        ensures { result < n }
    {
        self.seed = self
            .seed
            .wrapping_mul(6364136223846793005)
            .wrapping_add(1442695040888963407);
        ((self.seed >> 33) % u64::from(n)) as u32
    }

    /// A fraction.
    fn number(&mut self, rt: &(impl Abort + AllocGlobal)) -> Frac {
        let (num, den) = NUMBERS[self.below(12) as usize];
        frac(rt, num, den)
    }

    /// An object or the parameter, as a list.
    fn part(&mut self, rt: &(impl Abort + AllocGlobal)) -> Items<Ref> {
        items(rt, [self.one_part()])
    }

    /// An object or the parameter.
    fn one_part(&mut self) -> Ref {
        match self.below(3) {
            0 => Ref::Object(0),
            1 => Ref::Object(1),
            _ => Ref::Parameter(0),
        }
    }

    /// A number or a term.
    fn leaf(&mut self, rt: &(impl Abort + AllocGlobal)) -> Sum {
        if self.below(3) == 0 {
            return Sum::Number(self.number(rt));
        }
        Sum::Value(self.below(4), self.part(rt))
    }

    /// An operation on an expression and leaves.
    fn around(&mut self, rt: &(impl Abort + AllocGlobal), x: Sum) -> Sum {
        let (y, z) = (self.leaf(rt), self.leaf(rt));
        match self.below(7) {
            0 => Sum::Minus(boxed(rt, x)),
            1 => Sum::Sub(boxed(rt, x), boxed(rt, y)),
            2 => Sum::Sub(boxed(rt, y), boxed(rt, x)),
            3 => Sum::Div(boxed(rt, x), boxed(rt, y)),
            4 => Sum::Div(boxed(rt, y), boxed(rt, x)),
            5 => Sum::Add(items(rt, [y, x, z])),
            _ => Sum::Mul(items(rt, [x, y])),
        }
    }

    /// An expression of up to three operations.
    fn sum(&mut self, rt: &(impl Abort + AllocGlobal)) -> Sum {
        let mut sum = self.leaf(rt);
        for _ in 0..self.below(4) {
            sum = self.around(rt, sum);
        }
        sum
    }

    /// A condition.
    fn cond(&mut self, rt: &(impl Abort + AllocGlobal)) -> Cond {
        let positive = self.below(3) > 0;
        let op = COMPARISONS[self.below(5) as usize];
        match self.below(4) {
            0 => Cond::Same(positive, self.one_part(), self.one_part()),
            1 => Cond::Compare(op, self.sum(rt), self.sum(rt)),
            _ => Cond::Atom(positive, self.below(2), self.part(rt)),
        }
    }

    /// Up to two conditions.
    fn conds(&mut self, rt: &(impl Abort + AllocGlobal)) -> Items<Cond> {
        match self.below(4) {
            0 => items(rt, [self.cond(rt)]),
            1 => items(rt, [self.cond(rt), self.cond(rt)]),
            _ => Items::new(rt.alloc()),
        }
    }

    /// An effect.
    fn effect(&mut self, rt: &(impl Abort + AllocGlobal)) -> Eff {
        match self.below(6) {
            0 => Eff::Add(self.below(2), self.part(rt)),
            1 => Eff::Delete(self.below(2), self.part(rt)),
            _ => {
                let up = self.below(2) == 0;
                Eff::Change(up, self.below(3), self.part(rt), self.sum(rt))
            }
        }
    }

    /// An action of up to four effects.
    fn action(&mut self, rt: &(impl Abort + AllocGlobal)) -> Action {
        let mut effects = Items::new(rt.alloc());
        for _ in 0..self.below(5) {
            effects.push(self.effect(rt)).expect(rt, "memory");
        }
        action(rt, &[0], self.conds(rt), effects)
    }

    /// A task of three actions. Each of three functions mostly has a value at each object, and a fourth one has none.
    pub fn task(&mut self, rt: &(impl Abort + AllocGlobal)) -> TaskParts {
        let mut task = nothing(rt);
        for place in 0..6u32 {
            if self.below(2) == 0 {
                let (predicate, objects) = (place % 2, objects(rt, &[place / 2 % 2]));
                task.atoms
                    .push(Atom { predicate, objects })
                    .expect(rt, "memory");
            }
            if self.below(8) > 0 {
                let (function, objects) = (place / 2, objects(rt, &[place % 2]));
                let value = (Term { function, objects }, self.number(rt));
                task.values.push(value).expect(rt, "memory");
            }
        }
        task.actions = items(rt, [self.action(rt), self.action(rt), self.action(rt)]);
        if self.below(3) > 0 {
            task.metric = Some(self.sum(rt));
        }
        task.goal = self.conds(rt);
        task
    }

    /// Up to five steps.
    pub fn steps(&mut self, rt: &(impl Abort + AllocGlobal)) -> Vec<Step> {
        let mut steps = Vec::new(rt.alloc());
        for _ in 0..self.below(6) {
            let (action, objects) = (self.below(3), objects(rt, &[self.below(2)]));
            steps.push(Step { action, objects }).expect(rt, "memory");
        }
        steps
    }
}
