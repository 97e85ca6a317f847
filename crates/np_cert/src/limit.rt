//! Limits: their order, a cost on top of one, and which are small.
ghost use Rattle.std.specs.Prelude.{◌≡◌, ◌+◌, MatchOption};
ghost use Rattle.np_cert.specs.Valid.{at_most, after_cost, is_small, IsWide};

use crate::certificate::Limit;

/// A small limit that is a number is below this.
pub const LIMIT_SIZE: u128 = 1 << 62;

impl Limit {
    /// Whether it is at most the other one. That there is no plan is above every number.
    pub fn at_most(self, other: Limit) -> bool
        ensures { result ≡ at_most self other }
    {
        match (self, other) {
            (Limit::Number(m), Limit::Number(n)) => m <= n,
            (Limit::Absent, Limit::Number(_)) => false,
            (_, Limit::Absent) => true,
        }
    }

    /// A cost and this limit together, where the sum is a number of 128 bits. No plan stays no plan.
    pub fn after_cost(self, cost: u64) -> Option<Limit>
        ensures { MatchOption result (IsWide (after_cost cost self)) (λ limit. limit ≡ after_cost cost self) }
    {
        match self {
            Limit::Number(number) => number_after(number, cost),
            Limit::Absent => Some(Limit::Absent),
        }
    }

    /// Whether it is below `LIMIT_SIZE`, or that there is no plan.
    pub fn is_small(self) -> bool
        ensures { result ≡ is_small self }
    {
        match self {
            Limit::Number(number) => number < LIMIT_SIZE,
            Limit::Absent => true,
        }
    }
}

/// A cost and a number together, where the sum is a number of 128 bits.
fn number_after(number: u128, cost: u64) -> Option<Limit>
    ensures { MatchOption result (IsWide (Limit.Number (cost + number))) (λ limit. limit ≡ Limit.Number (cost + number)) }
{
    match number.checked_add(u128::from(cost)) {
        Some(sum) => Some(Limit::Number(sum)),
        None => None,
    }
}
