//! The values of numbers that are short.

ghost use Rattle.std.specs.Prelude.{◌≡◌, ◌↔◌, ℕ, ◌<◌, ◌≤◌, ◌^◌, length, take, IsTrue, IfSome, IfNone, Some, decimal};
ghost use Rattle.std.specs.Str.Parse.{AllDigits, digits_value};
ghost use Rattle.std.specs.List.{prefix_len};
ghost use Rattle.np_lex.specs.FirstToken.{is_digit, first_number};
ghost use Rattle.np_lex.specs.Decimals.{HasNoLeadingZero};
ghost use Rattle.np_lex.specs.declared.numbers.TheConstants.{MOST_DIGITS};

use crate::longest::point_length;

/// A number of so many digits is below 2^64.
const MOST_DIGITS: usize = 18;

/// Whether there is a digit, and none but 0 itself begins with 0.
fn has_no_leading_zero(text: &[u8]) -> bool
    ensures { IsTrue result ↔ HasNoLeadingZero text.now }
{
    match text {
        [] => false,
        [_] => true,
        [first, ..] => *first != b'0',
    }
}

/// The number of the leading digits, and how many they are. None where they are more than 18.
#[inline(always)]
fn short_digits(bytes: &[u8]) -> Option<(u64, usize)>
    ensures digits { IfSome result (λ front. AllDigits 10 (take front.1 bytes.now)) }
    ensures value { IfSome result (λ front. front.0 ≡ digits_value 10 (take front.1 bytes.now)) }
    ensures count { IfSome result (λ front. front.1 ≡ prefix_len is_digit bytes.now) }
    ensures few { IfSome result (λ front. front.1 ≤ MOST_DIGITS) }
    ensures in_range { IfSome result (λ front. front.1 ≤ length bytes.now) }
    ensures none { IfNone result (MOST_DIGITS < prefix_len is_digit bytes.now) }
{
    let mut number = 0;
    let mut count = 0;
    while count < bytes.len() && bytes[count].is_ascii_digit() {
        if count == MOST_DIGITS {
            return None;
        }
        number = number * 10 + u64::from(bytes[count] - b'0');
        count += 1;
    }
    Some((number, count))
}

/// The number whose decimal the leading digits are, and how many they are. None where they are the decimal of no number
/// below 10^18.
#[inline(always)]
pub fn first_decimal(bytes: &[u8]) -> Option<(u64, usize)>
    ensures value { IfSome result (λ front. take front.1 bytes.now ≡ decimal front.0) }
    ensures some { IfSome result (λ front. 0 < front.1) }
    ensures digits { IfSome result (λ front. front.1 ≡ prefix_len is_digit bytes.now) }
    ensures in_range { IfSome result (λ front. front.1 ≤ length bytes.now) }
    ensures none { IfNone result ((n : ℕ) → n < 10 ^ MOST_DIGITS → take (prefix_len is_digit bytes.now) bytes.now ≡ decimal n → ⊥) }
{
    let (number, count) = short_digits(bytes)?;
    if !has_no_leading_zero(&bytes[..count]) {
        return None;
    }
    Some((number, count))
}

/// The same where these digits are the first token.
#[inline(always)]
pub fn first_natural(bytes: &[u8]) -> Option<(u64, usize)>
    ensures value { IfSome result (λ front. take front.1 bytes.now ≡ decimal front.0) }
    ensures number { IfSome result (λ front. first_number bytes.now ≡ Some front.1) }
    ensures in_range { IfSome result (λ front. front.1 ≤ length bytes.now) }
    ensures none { IfNone result ((n m : ℕ) → n < 10 ^ MOST_DIGITS → first_number bytes.now ≡ Some m → take m bytes.now ≡ decimal n → ⊥) }
{
    let (number, count) = first_decimal(bytes)?;
    if point_length(&bytes[count..]) > 0 {
        return None;
    }
    Some((number, count))
}
