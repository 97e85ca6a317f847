//! Bounds against limits.
ghost use Rattle.std.specs.Prelude.{◌≡◌, IsTrue};
ghost use Rattle.np_cert.specs.Valid.{at_most, after_cost, is_small, limit_of};

use np_cert::Limit;
use np_space::Bound;

/// Whether a small bound is at most a cost and a limit together. The limit may be any number of its type.
pub fn is_within(bound: Limit, cost: u64, rest: Limit) -> bool
    requires { IsTrue (is_small bound) }
    ensures { result ≡ at_most bound (after_cost cost rest) }
{
    match rest.after_cost(cost) {
        Some(limit) => bound.at_most(limit),
        None => bound != Limit::Absent,
    }
}

/// A bound as a limit.
pub fn limit_of(bound: Bound) -> Limit
    ensures { result ≡ limit_of bound }
{
    match bound {
        Bound::AtLeast(number) => Limit::Number(u128::from(number)),
        Bound::NoPlan => Limit::Absent,
    }
}
