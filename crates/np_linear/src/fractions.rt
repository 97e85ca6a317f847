//! Operations on fractions, which are a finding where they don't answer.
ghost use Rattle.std.specs.Prelude.{◌≡◌, true, false};
ghost use Rattle.np_frac.specs.Checked.{is_zero};
ghost use Rattle.np_linear.specs.Answers.{Gives};
ghost use Rattle.np_linear.specs.Linears.{checked_sum, checked_product};

use crate::finding::{Finding, Halt};
use np_frac::Frac;

/// Whether a number is 0.
pub fn is_zero(x: &Frac) -> bool
    ensures { result ≡ is_zero x.now }
{
    x.num() == 0
}

/// The sum of two numbers, or the difference where the flag is false. `Wide` comes where the operation doesn't answer.
pub fn checked_sum(up: bool, x: &Frac, y: &Frac) -> Result<Frac, Halt<Finding>>
    ensures { Gives result (checked_sum up x.now y.now) }
{
    let answer = if up { x.add(y) } else { x.sub(y) };
    answer.ok_or(Halt::Cause(Finding::Wide))
}

/// The product of two numbers, or the quotient where the flag is set; the divisor isn't 0. `Wide` comes where the operation
/// doesn't answer.
pub fn checked_product(over: bool, x: &Frac, y: &Frac) -> Result<Frac, Halt<Finding>>
    requires { over ≡ true → is_zero y.now ≡ false }
    ensures { Gives result (checked_product over x.now y.now) }
{
    let answer = if over { x.div(y) } else { x.mul(y) };
    answer.ok_or(Halt::Cause(Finding::Wide))
}
