//! The printed text of counting proofs.
ghost use Rattle.std.specs.Prelude.{◌≡◌, ◌++◌, OnOk, codes};
ghost use Rattle.std.specs.List.{flat_map};
ghost use Rattle.np_cert.specs.Layout.{natural_text, value_text, row_text, item_text, proof_text};

use super::words::{push_number, push_value, push_word, push_words};
use np_count::{Proof, Row};
use std::alloc::AllocError;

/// Adds the proofs, each on a line of its own.
pub fn push_proofs(text: &mut Vec<u8>, proofs: &[Proof]) -> Result<(), AllocError>
    ensures { OnOk result (text.new.items ≡ text.old.items ++ flat_map proof_text proofs.now) }
{
    for proof in proofs {
        push_proof(text, proof)?;
    }
    Ok(())
}

/// Adds a proof, after its line feed.
fn push_proof(text: &mut Vec<u8>, proof: &Proof) -> Result<(), AllocError>
    ensures { OnOk result (text.new.items ≡ text.old.items ++ proof_text proof.now) }
{
    text.extend_from_slice(b"\n(proof ")?;
    push_number(text, u128::from(proof.divisor))?;
    push_items(text, proof.items.as_slice())?;
    text.push(b')')?;
    Ok(())
}

/// Adds weighted rows, each after a space.
fn push_items(text: &mut Vec<u8>, items: &[(u64, Row)]) -> Result<(), AllocError>
    ensures { OnOk result (text.new.items ≡ text.old.items ++ flat_map item_text items.now) }
{
    for item in items {
        push_item(text, item)?;
    }
    Ok(())
}

/// Adds a weighted row, after a space.
fn push_item(text: &mut Vec<u8>, item: &(u64, Row)) -> Result<(), AllocError>
    ensures { OnOk result (text.new.items ≡ text.old.items ++ item_text item.now) }
{
    text.extend_from_slice(b" (")?;
    push_number(text, u128::from(item.0))?;
    push_row(text, &item.1)?;
    text.push(b')')?;
    Ok(())
}

/// Adds a row: its kind and its numbers, each after a space.
fn push_row(text: &mut Vec<u8>, row: &Row) -> Result<(), AllocError>
    ensures { OnOk result (text.new.items ≡ text.old.items ++ row_text row.now) }
{
    match row {
        Row::Demand(form) => push_kind(text, b" demand", *form),
        Row::Flow(fact) => push_kind(text, b" flow", *fact),
        Row::FlowNot(fact) => push_kind(text, b" flow-not", *fact),
        Row::Floor(form, least) => push_floor(text, *form, *least),
        Row::Cut(subgoals) => push_cut(text, subgoals.as_slice()),
    }
}

/// Adds a kind and the one number that it has.
fn push_kind(text: &mut Vec<u8>, kind: &[u8], number: u64) -> Result<(), AllocError>
    ensures { OnOk result (text.new.items ≡ text.old.items ++ (kind.now ++ natural_text number)) }
{
    text.extend_from_slice(kind)?;
    push_word(text, number)?;
    Ok(())
}

/// Adds a floor.
fn push_floor(text: &mut Vec<u8>, form: u64, least: i128) -> Result<(), AllocError>
    ensures { OnOk result (text.new.items ≡ text.old.items ++ (codes " floor" ++ natural_text form ++ value_text least)) }
{
    push_kind(text, b" floor", form)?;
    push_value(text, least)?;
    Ok(())
}

/// Adds a cut.
fn push_cut(text: &mut Vec<u8>, subgoals: &[u64]) -> Result<(), AllocError>
    ensures { OnOk result (text.new.items ≡ text.old.items ++ (codes " cut" ++ flat_map natural_text subgoals.now)) }
{
    text.extend_from_slice(b" cut")?;
    push_words(text, subgoals)?;
    Ok(())
}
