//! Whole numbers of fractions: least common multiples, scaled numbers, and numbers rounded.
ghost use Rattle.std.specs.Prelude.{◌≡◌, ◌<◌, ◌^◌, ◌*ℤ◌, pos, neg_ℤ, unsigned_abs};
ghost use Rattle.std.specs.Int.{◌∣◌};
ghost use Rattle.np_frac.specs.Gcd.{gcd};
ghost use Rattle.np_frac.specs.Checked.{fitting};
ghost use Rattle.np_flat.specs.declared.limits.TheConstants.{CHANGE_SIZE};
ghost use Rattle.np_scale.specs.Wholes.{lcm, scaled_number, rounded_down, rounded_up};
ghost use Rattle.np_scale.specs.Forms.{constant_from};
ghost use Rattle.np_scale.specs.Code.{below, small};

use np_flat::CHANGE_SIZE;
use np_frac::Frac;

/// The greatest common divisor, by Euclid's steps.
fn gcd(m: u128, n: u128) -> u128
    requires { 0 < n }
    ensures value { result ≡ gcd m n }
    ensures positive { 0 < result }
{
    let mut x = m;
    let mut y = n;
    while y != 0 {
        let rest = x % y;
        x = y;
        y = rest;
    }
    x
}

/// The least common multiple, where it's below the limit.
pub fn lcm_below(limit: u128, m: u128, n: u128) -> Option<u128>
    requires { 0 < n }
    ensures { result ≡ below limit (lcm m n) }
{
    let multiple = (m / gcd(m, n)).checked_mul(n)?;
    if multiple < limit {
        Some(multiple)
    } else {
        None
    }
}

/// The scaled number, where it's below `CHANGE_SIZE` in size. The unit is a multiple of the denominator.
pub fn scaled(unit: u128, number: &Frac) -> Option<i128>
    requires small { unit < CHANGE_SIZE }
    requires positive { 0 < unit }
    requires multiple { number.now.den ∣ unit }
    ensures { result ≡ small CHANGE_SIZE (scaled_number unit number.now) }
{
    let whole = product(number.num(), unit / number.den())?;
    if whole.unsigned_abs() < CHANGE_SIZE {
        Some(whole)
    } else {
        None
    }
}

/// The product, where it fits.
fn product(m: i128, n: u128) -> Option<i128>
    requires { n < 2 ^ 127 }
    ensures { result ≡ fitting (m *ℤ pos n) }
{
    times(m, n as i128)
}

/// The product of two whole numbers, where it fits.
fn times(m: i128, n: i128) -> Option<i128>
    ensures { result ≡ fitting (m *ℤ n) }
{
    let product = m.checked_mul(n)?;
    if product == i128::MIN {
        return None;
    }
    Some(product)
}

/// The greatest whole number that is at most the fraction, or, where `strict`, the greatest one below it.
pub fn constant_from(strict: bool, number: &Frac) -> i128
    ensures { result ≡ constant_from strict number.now }
{
    if strict {
        rounded_up(number) - 1
    } else {
        rounded_down(number)
    }
}

/// The greatest whole number that is at most the fraction.
fn rounded_down(number: &Frac) -> i128
    ensures { result ≡ rounded_down number.now }
{
    number.num().div_euclid(number.den() as i128)
}

/// The least whole number that is at least the fraction.
fn rounded_up(number: &Frac) -> i128
    ensures value { result ≡ rounded_up number.now }
    ensures within { unsigned_abs result < 2 ^ 127 }
{
    let turned = negated(number.num());
    negated(turned.div_euclid(number.den() as i128))
}

/// The number with the other sign.
pub fn negated(n: i128) -> i128
    requires { unsigned_abs n < 2 ^ 127 }
    ensures { result ≡ neg_ℤ n }
{
    -n
}
