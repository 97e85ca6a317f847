//! The printed text of certificates.
ghost use Rattle.std.specs.Prelude.{◌≡◌, ◌++◌, IfOk, OnOk};
ghost use Rattle.std.specs.List.{flat_map};
ghost use Rattle.np_cert.specs.Text.{IsWritten, Spells};
ghost use Rattle.np_cert.specs.Layout.{head_text, entry_text, end_text, certificate_text};

mod proofs;
mod reasons;
mod words;

use crate::certificate::{Certificate, Entry, Limit};
use np_count::Proof;
use proofs::push_proofs;
use reasons::push_reason;
use std::alloc::{AllocError, Global};
use words::{push_facts, push_limit, push_values};

/// The text of a certificate. Where its numbers are within the bounds of the text and no cut is empty, it spells the certificate.
pub fn print_certificate(alloc: Global, certificate: &Certificate) -> Result<Vec<u8>, AllocError>
    ensures text { IfOk result (λ text. text.items ≡ certificate_text certificate.now) }
    ensures read_back { IsWritten certificate.now → IfOk result (λ text. Spells text.items certificate.now) }
{
    let mut text = print_head(alloc, certificate.claim, certificate.proofs.as_slice())?;
    push_entries(&mut text, certificate.entries.as_slice())?;
    push_end(&mut text)?;
    Ok(text)
}

/// The text of a certificate up to its entries. These follow by `push_entry`, and `push_end` comes last.
pub fn print_head(alloc: Global, claim: Limit, proofs: &[Proof]) -> Result<Vec<u8>, AllocError>
    ensures { IfOk result (λ text. text.items ≡ head_text claim proofs.now) }
{
    let mut text = Vec::from_slice(alloc, b"(certificate 1 (claim ")?;
    push_limit(&mut text, claim)?;
    text.extend_from_slice(b")\n(proofs")?;
    push_proofs(&mut text, proofs)?;
    text.extend_from_slice(b")\n(entries")?;
    Ok(text)
}

/// Adds an entry, after its line feed.
pub fn push_entry(text: &mut Vec<u8>, entry: &Entry) -> Result<(), AllocError>
    ensures { OnOk result (text.new.items ≡ text.old.items ++ entry_text entry.now) }
{
    text.extend_from_slice(b"\n(entry (facts")?;
    push_facts(text, entry.state.facts.as_slice())?;
    text.extend_from_slice(b") (values")?;
    push_values(text, entry.state.values.as_slice())?;
    text.extend_from_slice(b") ")?;
    push_limit(text, entry.bound)?;
    push_reason(text, &entry.why)?;
    text.push(b')')?;
    Ok(())
}

/// Adds what comes after the entries.
pub fn push_end(text: &mut Vec<u8>) -> Result<(), AllocError>
    ensures { OnOk result (text.new.items ≡ text.old.items ++ end_text) }
{
    text.extend_from_slice(b"))\n")
}

/// Adds the entries, each on a line of its own.
fn push_entries(text: &mut Vec<u8>, entries: &[Entry]) -> Result<(), AllocError>
    ensures { OnOk result (text.new.items ≡ text.old.items ++ flat_map entry_text entries.now) }
{
    for entry in entries {
        push_entry(text, entry)?;
    }
    Ok(())
}
