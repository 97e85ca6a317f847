//! Lower bounds on the cost of plans.
ghost use Rattle.std.specs.Prelude.{◌≡◌, is_some, IfSome};
ghost use Rattle.np_space.specs.Bounds.{is_at_most, sum_of, has_narrow_sum};

/// A lower bound on the cost of every plan from a state. `NoPlan` says that there is none, and is above all numbers.
#[derive(Clone, Copy, Debug, PartialEq, Eq)]
pub enum Bound {
    /// Every plan costs at least this.
    AtLeast(u64),
    /// There is no plan.
    NoPlan,
}

impl Bound {
    /// Whether it is at most `other`.
    pub fn is_at_most(&self, other: &Bound) -> bool
        ensures { result ≡ is_at_most self.now other.now }
    {
        match (*self, *other) {
            (_, Bound::NoPlan) => true,
            (Bound::NoPlan, _) => false,
            (Bound::AtLeast(m), Bound::AtLeast(n)) => m <= n,
        }
    }

    /// The sum. `None` exactly where both are numbers whose sum is `2^64` or more.
    pub fn plus(&self, other: &Bound) -> Option<Bound>
        ensures value { IfSome result (λ b. b ≡ sum_of self.now other.now) }
        ensures narrow { is_some result ≡ has_narrow_sum self.now other.now }
    {
        match (*self, *other) {
            (Bound::AtLeast(m), Bound::AtLeast(n)) => Some(Bound::AtLeast(m.checked_add(n)?)),
            _ => Some(Bound::NoPlan),
        }
    }
}
