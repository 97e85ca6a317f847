//! The number that a literal stands for.

ghost use Rattle.std.specs.Prelude.{◌≡◌, ◌+◌, ◌*◌, ◌^◌, ◌<◌, ◌≤◌, length, SomeIff};
ghost use Rattle.np_words.specs.Numbers.{digit_of, written_after, part_digits, digits_of, signed, fraction_of};

use crate::read::MOST_DIGITS;
use crate::word::Decimal;
use np_frac::Frac;
use sqlite_items::Items;

/// What a digit counts; 0 for another byte.
fn digit_of(byte: u8) -> u8
    ensures value { result ≡ digit_of byte }
    ensures small { result < 10 }
{
    if byte.is_ascii_digit() {
        byte - b'0'
    } else {
        0
    }
}

/// The whole number that the digits write after those of `before`.
fn written_after(before: u128, digits: &[u8]) -> u128
    requires { (before + 1) * 10 ^ length digits.now ≤ 10 ^ MOST_DIGITS }
    ensures value { result ≡ written_after before digits.now }
    ensures small { result < (before + 1) * 10 ^ length digits.now }
{
    let mut number = before;
    for byte in digits {
        number = number * 10 + u128::from(digit_of(*byte));
    }
    number
}

/// The digits after the point.
fn part_digits(part: &Option<Items<u8>>) -> &[u8]
    ensures { result.now ≡ part_digits part.now }
{
    match part {
        Some(digits) => digits.as_slice(),
        None => &[],
    }
}

/// The number with its sign.
fn signed(negative: bool, number: u128) -> i128
    requires { number < 10 ^ MOST_DIGITS }
    ensures { result ≡ signed negative number }
{
    let number = number as i128;
    if negative { -number } else { number }
}

impl Decimal {
    /// The exact number: the digits before and after the point as a whole number, over 10 to the number of digits after the
    /// point. `None` exactly where it has more than 38 digits.
    pub fn value(&self) -> Option<Frac>
        ensures { SomeIff result (length (digits_of self.now) ≤ MOST_DIGITS) (fraction_of self.now) }
    {
        let whole = self.whole.as_slice();
        let part = part_digits(&self.part);
        if whole.len() + part.len() > MOST_DIGITS {
            return None;
        }
        let number = written_after(written_after(0, whole), part);
        let scale = 10_u128.pow(part.len() as u32);
        Frac::of(signed(self.negative, number), scale as i128)
    }
}
