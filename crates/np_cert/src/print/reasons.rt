//! The printed text of reasons.
ghost use Rattle.std.specs.Prelude.{◌≡◌, ◌++◌, OnOk, codes, decimal};
ghost use Rattle.std.specs.List.{flat_map};
ghost use Rattle.np_cert.specs.Layout.{number_text, reason_text};

use super::words::{push_limit, push_number};
use crate::certificate::{Limit, Why};
use std::alloc::AllocError;

/// Adds a reason, after a space.
pub fn push_reason(text: &mut Vec<u8>, why: &Why) -> Result<(), AllocError>
    ensures { OnOk result (text.new.items ≡ text.old.items ++ reason_text why.now) }
{
    match why {
        Why::Expanded => text.extend_from_slice(b" expanded"),
        Why::Proof(number) => push_proof_number(text, *number),
        Why::Table(numbers) => push_table(text, numbers.as_slice()),
    }
}

/// Adds the number of a proof.
fn push_proof_number(text: &mut Vec<u8>, number: u128) -> Result<(), AllocError>
    ensures { OnOk result (text.new.items ≡ text.old.items ++ (codes " (proof " ++ decimal number ++ codes ")")) }
{
    text.extend_from_slice(b" (proof ")?;
    push_number(text, number)?;
    text.push(b')')?;
    Ok(())
}

/// Adds the numbers of a table.
fn push_table(text: &mut Vec<u8>, numbers: &[(u128, Limit)]) -> Result<(), AllocError>
    ensures { OnOk result (text.new.items ≡ text.old.items ++ (codes " (table" ++ flat_map number_text numbers.now ++ codes ")")) }
{
    text.extend_from_slice(b" (table")?;
    push_numbers(text, numbers)?;
    text.push(b')')?;
    Ok(())
}

/// Adds the numbers of subgoals, each after a space.
fn push_numbers(text: &mut Vec<u8>, numbers: &[(u128, Limit)]) -> Result<(), AllocError>
    ensures { OnOk result (text.new.items ≡ text.old.items ++ flat_map number_text numbers.now) }
{
    for numbered in numbers {
        push_numbered(text, numbered)?;
    }
    Ok(())
}

/// Adds a subgoal and its limit, after a space.
fn push_numbered(text: &mut Vec<u8>, numbered: &(u128, Limit)) -> Result<(), AllocError>
    ensures { OnOk result (text.new.items ≡ text.old.items ++ number_text numbered.now) }
{
    text.extend_from_slice(b" (")?;
    push_number(text, numbered.0)?;
    text.push(b' ')?;
    push_limit(text, numbered.1)?;
    text.push(b')')?;
    Ok(())
}
