//! Comparisons.
ghost use Rattle.std.specs.Prelude.{◌≡◌, true, not};
ghost use Rattle.np_frac.specs.Fractions.{Fraction};
ghost use Rattle.np_model.specs.Conditions.{compares, turned, is_order, with_sign};

use crate::task::Op;
use np_frac::Frac;
use std::cmp::Ordering;

impl Op {
    /// Whether two numbers compare so.
    pub fn compares(self, x: &Frac, y: &Frac) -> bool
        ensures { result ≡ compares self x.now y.now }
    {
        let order = x.order(y);
        match self {
            Op::Less => order.is_lt(),
            Op::Greater => order.is_gt(),
            Op::AtMost => order.is_le(),
            Op::AtLeast => order.is_ge(),
            Op::Equal => order.is_eq(),
        }
    }

    /// The comparison turned round, which `not` round an order comparison stands for: not less is at least. `Equal` isn't
    /// an order comparison; no comparison turns it round, and it stays as it is.
    #[tactic(auto, using(crate::proofs::Comparing::turned_compares))]
    pub fn turned(self) -> Op
        ensures value { result ≡ turned self }
        ensures contrary { is_order self ≡ true → (x y : Fraction) → compares (turned self) x y ≡ not (compares self x y) }
    {
        match self {
            Op::Less => Op::AtLeast,
            Op::Greater => Op::AtMost,
            Op::AtMost => Op::Greater,
            Op::AtLeast => Op::Less,
            Op::Equal => Op::Equal,
        }
    }
}

/// The answer itself, or the contrary where the flag is false.
pub fn with_sign(positive: bool, holds: bool) -> bool
    ensures { result ≡ with_sign positive holds }
{
    if positive { holds } else { !holds }
}
