//! The text of numbers.
ghost use Rattle.std.specs.Prelude.{◌≡◌, ◌++◌, string_bytes, OnOk, decimal};
ghost use Rattle.std.specs.Fmt.{signed_decimal};
ghost use Rattle.std.specs.List.{flat_map};
ghost use Rattle.np_list.specs.ListText.{spaced_number, spaced_value, numbers_after, line_start};

use itoa::Buffer;
use std::alloc::AllocError;

/// Adds a number.
pub fn push_number(text: &mut String, number: u64) -> Result<(), AllocError>
    ensures { OnOk result (string_bytes text.new ≡ string_bytes text.old ++ decimal number) }
{
    let mut buffer = Buffer::new();
    text.push_str(buffer.format(number))
}

/// Adds a number with its sign.
pub fn push_value(text: &mut String, value: i128) -> Result<(), AllocError>
    ensures { OnOk result (string_bytes text.new ≡ string_bytes text.old ++ signed_decimal value) }
{
    let mut buffer = Buffer::new();
    text.push_str(buffer.format(value))
}

/// Adds a number, after a space.
pub fn push_spaced_number(text: &mut String, number: u64) -> Result<(), AllocError>
    ensures { OnOk result (string_bytes text.new ≡ string_bytes text.old ++ spaced_number number) }
{
    text.push_str(" ")?;
    push_number(text, number)
}

/// Adds a number with its sign, after a space.
pub fn push_spaced_value(text: &mut String, value: i128) -> Result<(), AllocError>
    ensures { OnOk result (string_bytes text.new ≡ string_bytes text.old ++ spaced_value value) }
{
    text.push_str(" ")?;
    push_value(text, value)
}

/// Adds numbers, each after a space.
fn push_numbers(text: &mut String, numbers: &[u32]) -> Result<(), AllocError>
    ensures { OnOk result (string_bytes text.new ≡ string_bytes text.old ++ flat_map spaced_number numbers.now) }
{
    for number in numbers {
        push_spaced_number(text, u64::from(*number))?;
    }
    Ok(())
}

/// Adds a word, and numbers after it.
pub fn push_numbers_after(text: &mut String, word: &str, numbers: &[u32]) -> Result<(), AllocError>
    ensures { OnOk result (string_bytes text.new ≡ string_bytes text.old ++ numbers_after word.now numbers.now) }
{
    text.push_str(word)?;
    push_numbers(text, numbers)
}

/// Adds how a line of this kind and number begins.
pub fn push_line_start(text: &mut String, kind: &str, number: usize) -> Result<(), AllocError>
    ensures { OnOk result (string_bytes text.new ≡ string_bytes text.old ++ line_start kind.now number) }
{
    text.push_str(kind)?;
    push_spaced_number(text, number as u64)?;
    text.push_str(" ")?;
    Ok(())
}
