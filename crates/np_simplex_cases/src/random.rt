//! Small programs at random: the answers of the simplex, weighed anew.
ghost use Rattle.std.specs.Prelude.{◌<◌, length};

use crate::asking::{asked, list};
use crate::weighing::weighed;
use np_frac::{Exact128, Frac};
use np_simplex::{Lp, LpAnswer};
use std::process::Abort;

/// Coefficients. Most are small.
const COEFFICIENTS: [i128; 12] = [0, 0, 0, 1, 1, -1, 1, 2, -2, 3, -3, 7];

/// Right sides.
const SIDES: [i128; 8] = [0, 1, 1, 2, 3, 5, -1, -4];

/// Costs.
const COSTS: [u64; 8] = [0, 1, 1, 1, 2, 2, 3, 10];

/// A generator of numbers.
#[derive(Drop)]
struct Random {
    seed: u64,
}

impl Random {
    /// A number below this one.
    fn below(&mut self, n: usize) -> usize
        requires { 0 < n }
        ensures { result < n }
    {
        self.seed = self
            .seed
            .wrapping_mul(6364136223846793005)
            .wrapping_add(1442695040888963407);
        (self.seed >> 33) as usize % n
    }

    /// So many of these numbers.
    fn numbers<T: Copy>(
        &mut self,
        rt: &(impl Abort + AllocGlobal),
        count: usize,
        numbers: &[T],
    ) -> Vec<T>
        requires { 0 < length numbers.now }
    {
        let mut some = Vec::new(rt.alloc());
        for _ in 0..count {
            some.push(numbers[self.below(numbers.len())])
                .expect(rt, "memory");
        }
        some
    }

    /// A program of one row or more, up to 6, and of no column or more, up to 8.
    fn program(&mut self, rt: &(impl Abort + AllocGlobal)) -> Lp {
        let (count, columns) = (1 + self.below(6), self.below(9));
        let mut rows = Vec::new(rt.alloc());
        for _ in 0..count {
            rows.push(self.numbers(rt, columns, &COEFFICIENTS))
                .expect(rt, "memory");
        }
        Lp {
            rows,
            right: self.numbers(rt, count, &SIDES),
            costs: self.numbers(rt, columns, &COSTS),
        }
    }
}

/// The coefficients in a column.
fn column(rt: &(impl Abort + AllocGlobal), rows: &[Vec<i128>], place: usize) -> Vec<i128> {
    let mut numbers = Vec::new(rt.alloc());
    for row in rows {
        if let Some(number) = row.get(place) {
            numbers.push(*number).expect(rt, "memory");
        }
    }
    numbers
}

/// Whether none of them is below 0.
fn are_lawful(numbers: &[Frac]) -> bool {
    numbers.iter().all(|x| x.num() >= 0)
}

/// Whether in each column the weighed coefficients are at most the cost, or at most 0.
fn are_priced(rt: &(impl Abort + AllocGlobal), lp: &Lp, weights: &[Frac], priced: bool) -> bool {
    for place in 0..lp.costs.len() {
        let numbers = column(rt, lp.rows.as_slice(), place);
        let most = if priced {
            i128::from(lp.costs[place])
        } else {
            0
        };
        match weighed(numbers.as_slice(), weights) {
            Some(sum) if sum.is_at_most(most) => {}
            _ => return false,
        }
    }
    are_lawful(weights)
}

/// Whether the counts meet each row.
fn are_met(lp: &Lp, counts: &[Frac]) -> bool {
    for place in 0..lp.rows.len() {
        match (
            weighed(lp.rows[place].as_slice(), counts),
            lp.right.get(place),
        ) {
            (Some(sum), Some(side)) if sum.is_at_least(*side) => {}
            _ => return false,
        }
    }
    are_lawful(counts)
}

/// Whether these are of one value.
fn are_equal(rt: &(impl Abort + AllocGlobal), lp: &Lp, weights: &[Frac], counts: &[Frac]) -> bool {
    let mut costs = Vec::new(rt.alloc());
    for cost in lp.costs.as_slice() {
        costs.push(i128::from(*cost)).expect(rt, "memory");
    }
    match (
        weighed(lp.right.as_slice(), weights),
        weighed(costs.as_slice(), counts),
    ) {
        (Some(side), Some(cost)) => side.is(&cost),
        _ => false,
    }
}

/// Whether the program of a seed has an answer with all that was promised, and whether it is a ray.
fn judged(rt: &(impl Abort + AllocGlobal), seed: u64) -> Option<bool> {
    let mut random = Random { seed };
    let lp = random.program(rt);
    let mut arith = Exact128 { refused: 0 };
    match asked(&lp, &mut arith) {
        Some(Ok(LpAnswer::Best { weights, counts })) => {
            let (weights, counts) = (weights.as_slice(), counts.as_slice());
            let holds = are_priced(rt, &lp, weights, true)
                && are_met(&lp, counts)
                && are_equal(rt, &lp, weights, counts);
            holds.then_some(false)
        }
        Some(Ok(LpAnswer::Ray { weights })) => {
            let weights = weights.as_slice();
            let side = weighed(lp.right.as_slice(), weights)?;
            let holds = are_priced(rt, &lp, weights, false) && !side.is_at_most(0);
            holds.then_some(true)
        }
        _ => None,
    }
}

#[test]
fn answers_hold(rt: HostRuntime) {
    let (mut bests, mut rays) = (0u64, 0u64);
    for seed in 0..500 {
        match judged(&rt, seed) {
            Some(false) => bests = bests.saturating_add(1),
            Some(true) => rays = rays.saturating_add(1),
            None => panic!(&rt; "{seed}"),
        }
    }
    assert!(rt; bests > 50 && rays > 50, "{bests} {rays}");
}
