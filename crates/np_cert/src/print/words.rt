//! The printed text of a certificate's numbers.
ghost use Rattle.std.specs.Prelude.{◌≡◌, ◌++◌, OnOk, decimal};
ghost use Rattle.std.specs.List.{flat_map};
ghost use Rattle.np_cert.specs.Layout.{limit_text, natural_text, value_text};

use crate::certificate::Limit;
use itoa::Buffer;
use std::alloc::AllocError;

/// Adds the numbers of facts, each after a space.
pub fn push_facts(text: &mut Vec<u8>, facts: &[u32]) -> Result<(), AllocError>
    ensures { OnOk result (text.new.items ≡ text.old.items ++ flat_map natural_text facts.now) }
{
    for fact in facts {
        push_fact(text, *fact)?;
    }
    Ok(())
}

/// Adds the number of a fact, after a space.
fn push_fact(text: &mut Vec<u8>, fact: u32) -> Result<(), AllocError>
    ensures { OnOk result (text.new.items ≡ text.old.items ++ natural_text fact) }
{
    let mut buffer = Buffer::new();
    text.push(b' ')?;
    text.extend_from_slice(buffer.format(fact).as_bytes())
}

/// Adds scaled values, each after a space.
pub fn push_values(text: &mut Vec<u8>, values: &[i128]) -> Result<(), AllocError>
    ensures { OnOk result (text.new.items ≡ text.old.items ++ flat_map value_text values.now) }
{
    for value in values {
        push_value(text, *value)?;
    }
    Ok(())
}

/// Adds a scaled value, after a space.
pub fn push_value(text: &mut Vec<u8>, value: i128) -> Result<(), AllocError>
    ensures { OnOk result (text.new.items ≡ text.old.items ++ value_text value) }
{
    let mut buffer = Buffer::new();
    text.push(b' ')?;
    text.extend_from_slice(buffer.format(value).as_bytes())
}

/// Adds a limit.
pub fn push_limit(text: &mut Vec<u8>, limit: Limit) -> Result<(), AllocError>
    ensures { OnOk result (text.new.items ≡ text.old.items ++ limit_text limit) }
{
    match limit {
        Limit::Number(number) => push_number(text, number),
        Limit::Absent => text.extend_from_slice(b"none"),
    }
}

/// Adds a number.
pub fn push_number(text: &mut Vec<u8>, number: u128) -> Result<(), AllocError>
    ensures { OnOk result (text.new.items ≡ text.old.items ++ decimal number) }
{
    let mut buffer = Buffer::new();
    text.extend_from_slice(buffer.format(number).as_bytes())
}

/// Adds the numbers of a cut, each after a space.
pub fn push_words(text: &mut Vec<u8>, numbers: &[u64]) -> Result<(), AllocError>
    ensures { OnOk result (text.new.items ≡ text.old.items ++ flat_map natural_text numbers.now) }
{
    for number in numbers {
        push_word(text, *number)?;
    }
    Ok(())
}

/// Adds a number of a proof, after a space.
pub fn push_word(text: &mut Vec<u8>, number: u64) -> Result<(), AllocError>
    ensures { OnOk result (text.new.items ≡ text.old.items ++ natural_text number) }
{
    let mut buffer = Buffer::new();
    text.push(b' ')?;
    text.extend_from_slice(buffer.format(number).as_bytes())
}
