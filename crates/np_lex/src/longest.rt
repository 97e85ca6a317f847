//! The longest token that begins some bytes.

ghost use Rattle.std.specs.Prelude.{◌≡◌, ◌↔◌, ◌+◌, ◌≤◌, length, IsTrue, IfSome};
ghost use Rattle.std.specs.List.{prefix_len};
ghost use Rattle.np_lex.specs.LongestToken.{is_name};
ghost use Rattle.np_lex.specs.Tokens.{BeginsWithName, lower};
ghost use Rattle.np_lex.specs.FirstToken.{is_letter, is_digit, is_name_byte, begins_with_name_byte, begins_with_letter, begins_with_digit, begins_with_equals, number_length, point_length, first_token, first_number, mark_token};

use crate::token::Kind;
use crate::words::is_small_word;

fn is_name_byte(byte: u8) -> bool
    ensures { result ≡ is_name_byte byte }
{
    byte.is_ascii_alphanumeric() || byte == b'-' || byte == b'_'
}

fn name_length(bytes: &[u8]) -> usize
    ensures value { result ≡ prefix_len is_name_byte bytes.now }
    ensures in_range { result ≤ length bytes.now }
{
    let mut n = 0;
    while n < bytes.len() && is_name_byte(bytes[n]) {
        n += 1;
    }
    n
}

fn digits_length(bytes: &[u8]) -> usize
    ensures value { result ≡ prefix_len is_digit bytes.now }
    ensures in_range { result ≤ length bytes.now }
{
    let mut n = 0;
    while n < bytes.len() && bytes[n].is_ascii_digit() {
        n += 1;
    }
    n
}

fn begins_with_name_byte(bytes: &[u8]) -> bool
    ensures { result ≡ begins_with_name_byte bytes.now }
{
    // A blank or a bracket, at which most names end, is below `-`, so that one comparison is enough.
    matches!(bytes, [first, ..] if *first >= b'-' && is_name_byte(*first))
}

fn begins_with_letter(bytes: &[u8]) -> bool
    ensures { result ≡ begins_with_letter bytes.now }
{
    matches!(bytes, [first, ..] if first.is_ascii_alphabetic())
}

fn begins_with_digit(bytes: &[u8]) -> bool
    ensures { result ≡ begins_with_digit bytes.now }
{
    matches!(bytes, [first, ..] if first.is_ascii_digit())
}

fn begins_with_equals(bytes: &[u8]) -> bool
    ensures { result ≡ begins_with_equals bytes.now }
{
    matches!(bytes, [b'=', ..])
}

/// The length of a point and the digits after it, or 0 where there is none.
pub fn point_length(bytes: &[u8]) -> usize
    ensures value { result ≡ point_length bytes.now }
    ensures in_range { result ≤ length bytes.now }
{
    match bytes {
        [b'.', rest @ ..] if begins_with_digit(rest) => 1 + digits_length(rest),
        _ => 0,
    }
}

/// The length of a number without a sign.
fn number_length(bytes: &[u8]) -> usize
    ensures value { result ≡ number_length bytes.now }
    ensures in_range { result ≤ length bytes.now }
{
    let whole = digits_length(bytes);
    whole + point_length(&bytes[whole..])
}

/// The kind and the length of the longest token that begins with this byte, which is neither a letter nor a digit.
fn mark_token(mark: u8, rest: &[u8]) -> Option<(Kind, usize)>
    ensures value { result ≡ mark_token mark rest.now }
    ensures in_range { IfSome result (λ taken. taken.1 ≤ length rest.now + 1) }
{
    match mark {
        b'(' => Some((Kind::Left, 1)),
        b')' => Some((Kind::Right, 1)),
        b'?' if begins_with_letter(rest) => Some((Kind::Variable, 1 + name_length(rest))),
        b':' if begins_with_letter(rest) => Some((Kind::Keyword, 1 + name_length(rest))),
        b':' => Some((Kind::Colon, 1)),
        b'-' if begins_with_digit(rest) => Some((Kind::Number, 1 + number_length(rest))),
        b'<' | b'>' if begins_with_equals(rest) => Some((Kind::Op, 2)),
        b'<' | b'>' | b'=' | b'+' | b'*' | b'/' | b'-' => Some((Kind::Op, 1)),
        _ => None,
    }
}

/// The kind and the length of the longest token that begins the bytes, if one does.
pub fn first_token(bytes: &[u8]) -> Option<(Kind, usize)>
    ensures value { result ≡ first_token bytes.now }
    ensures in_range { IfSome result (λ taken. taken.1 ≤ length bytes.now) }
{
    match bytes {
        [] => None,
        [first, rest @ ..] if first.is_ascii_alphabetic() => Some((
            Kind::Name,
            1 + name_length(rest),
        )),
        [first, ..] if first.is_ascii_digit() => Some((Kind::Number, number_length(bytes))),
        [first, rest @ ..] => mark_token(*first, rest),
    }
}

/// Whether the first token is this name, which is of small letters and read in any case.
#[inline(always)]
pub fn begins_with_name(bytes: &[u8], name: &[u8]) -> bool
    requires name { IsTrue (is_name name.now) }
    requires small { lower name.now ≡ name.now }
    ensures { IsTrue result ↔ BeginsWithName bytes.now name.now }
{
    if bytes.len() < name.len() {
        return false;
    }
    let (front, rest) = bytes.split_at(name.len());
    is_small_word(front, name) && !begins_with_name_byte(rest)
}

/// The length of the number that is the first token, if it is one.
pub fn first_number(bytes: &[u8]) -> Option<usize>
    ensures value { result ≡ first_number bytes.now }
    ensures in_range { IfSome result (λ length_taken. length_taken ≤ length bytes.now) }
{
    match bytes {
        [first, ..] if first.is_ascii_digit() => Some(number_length(bytes)),
        [b'-', rest @ ..] if begins_with_digit(rest) => Some(1 + number_length(rest)),
        _ => None,
    }
}
