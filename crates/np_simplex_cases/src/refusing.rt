//! An arithmetic that refuses one operation.
ghost use Rattle.std.specs.Prelude.{◌≡◌, ◌≤◌, false, OnErr};
ghost use Rattle.np_frac.specs.Sizes.{Rose};

use crate::asking::{asked, program};
use np_frac::{Arith, Exact128, Frac, Refused};
use np_simplex::LpFault;
use std::process::Abort;

/// Exact arithmetic that refuses the operation after the first so many, and counts them all. It isn't sure.
#[derive(Drop)]
pub struct Refusing {
    /// How many operations come before the one that is refused.
    pub before: u64,
    /// How many were asked for.
    pub operations: u64,
    /// The arithmetic behind it.
    pub exact: Exact128,
}

impl Refusing {
    /// Refuses this operation, or lets it be.
    fn pass(&mut self) -> Result<(), Refused>
        ensures later { self.old.exact.refused ≤ self.new.exact.refused }
        ensures counted { OnErr result (Rose self.old.exact.refused self.new.exact.refused) }
    {
        let place = self.operations;
        self.operations = place.saturating_add(1);
        if place == self.before {
            self.exact.refused = self.exact.refused.saturating_add(1);
            return Err(Refused);
        }
        Ok(())
    }
}

impl Arith for Refusing {
    type N = Frac;

    ghost refused = { λ r. r.exact.refused };

    ghost sure = { λ r. false };

    fn whole(&mut self, n: i128) -> Result<Frac, Refused> {
        self.pass()?;
        self.exact.whole(n)
    }

    fn add(&mut self, a: &Frac, b: &Frac) -> Result<Frac, Refused> {
        self.pass()?;
        self.exact.add(a, b)
    }

    fn sub(&mut self, a: &Frac, b: &Frac) -> Result<Frac, Refused> {
        self.pass()?;
        self.exact.sub(a, b)
    }

    fn mul(&mut self, a: &Frac, b: &Frac) -> Result<Frac, Refused> {
        self.pass()?;
        self.exact.mul(a, b)
    }

    fn div(&mut self, a: &Frac, b: &Frac) -> Result<Frac, Refused> {
        self.pass()?;
        self.exact.div(a, b)
    }
}

/// An arithmetic that refuses the operation after so many.
fn refusing_after(before: u64) -> Refusing {
    Refusing {
        before,
        operations: 0,
        exact: Exact128 { refused: 0 },
    }
}

/// Rows, right sides and costs: the best is found after six pivots, and a ray after one.
const PROGRAMS: [(&[&[i128]], &[i128], &[u64]); 2] = [
    (
        &[
            &[25, 25, 0],
            &[-6000, -4500, 0],
            &[-4, -1, 1],
            &[900, 150, 0],
        ],
        &[75, -15000, 2, -600],
        &[0, 0, 1],
    ),
    (&[&[1], &[-1]], &[2, -1], &[1]),
];

/// How many operations a program takes, if each of them, refused alone, ends it at once as too wide.
fn ends_at_each(
    rt: &(impl Abort + AllocGlobal),
    rows: &[&[i128]],
    right: &[i128],
    costs: &[u64],
) -> Option<u64> {
    let lp = program(rt, rows, right, costs);
    let mut all = refusing_after(u64::MAX);
    let Some(Ok(_)) = asked(&lp, &mut all) else {
        return None;
    };
    for before in 0..all.operations {
        let mut arith = refusing_after(before);
        let is_wide = matches!(asked(&lp, &mut arith), Some(Err(LpFault::Wide)));
        if !is_wide || arith.exact.refused != 1 || arith.operations != before + 1 {
            return None;
        }
    }
    Some(all.operations)
}

#[test]
fn each_refusal_ends_it(rt: HostRuntime) {
    for (rows, right, costs) in PROGRAMS {
        let operations = ends_at_each(&rt, rows, right, costs).expect(&rt, "a refusal did more");
        assert!(rt; operations > 0);
    }
}
