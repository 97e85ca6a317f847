//! Certificates as they are printed.

use crate::cert_reading::FULL;
use np_cert::{Certificate, Entry, Limit, Why, print_certificate, read_certificate};
use np_flat::FlatState;
use sqlite_items::Items;
use std::alloc::{AllocError, Global};
use std::test::Fail;

/// An entry by expansion.
fn entry(alloc: Global, facts: &[u32], values: &[i128], bound: Limit) -> Result<Entry, AllocError> {
    Ok(Entry {
        state: FlatState {
            facts: Items::from_slice(alloc, facts)?,
            values: Items::from_slice(alloc, values)?,
        },
        bound,
        why: Why::Expanded,
    })
}

/// A certificate without proofs.
fn certificate(alloc: Global, claim: Limit, entries: Vec<Entry>) -> Certificate {
    Certificate {
        claim,
        proofs: Items::new(alloc),
        entries: Items::from_vec(entries),
    }
}

/// A certificate of nothing.
fn prints_nothing(alloc: Global) -> Result<bool, AllocError> {
    let none = certificate(alloc, Limit::Absent, Vec::new(alloc));
    let text = print_certificate(alloc, &none)?;
    Ok(text.as_slice() == b"(certificate 1 (claim none)\n(proofs)\n(entries))\n".as_slice())
}

/// A certificate of two entries.
fn prints_entries(alloc: Global) -> Result<bool, AllocError> {
    let first = entry(alloc, &[0, 12], &[-1, 0, 20], Limit::Number(3))?;
    let second = entry(alloc, &[], &[-170_141_183_460_469_231_731], Limit::Absent)?;
    let entries = Vec::from_array(alloc, [first, second])?;
    let text = print_certificate(alloc, &certificate(alloc, Limit::Number(10), entries))?;
    Ok(
        text.as_slice()
            == b"(certificate 1 (claim 10)\n(proofs)\n(entries\n(entry (facts 0 12) (values -1 0 20) 3 expanded)\n(entry (facts) (values -170141183460469231731) none expanded)))\n".as_slice(),
    )
}

/// A certificate that is read is printed as it was.
fn prints_what_was_read(alloc: Global, text: &str) -> Result<bool, AllocError> {
    let Ok(certificate) = read_certificate(alloc, text.as_bytes()) else {
        return Ok(false);
    };
    let printed = print_certificate(alloc, &certificate)?;
    let mut wanted = Vec::from_slice(alloc, text.as_bytes())?;
    wanted.push(b'\n')?;
    Ok(printed.as_slice() == wanted.as_slice())
}

const THIN: &str = "(certificate 1 (claim 1)
(proofs)
(entries
(entry (facts) (values 0) 1 expanded)))";

#[test]
fn prints_certificates(rt: HostRuntime) -> Result<(), Fail> {
    assert!(rt; prints_nothing(rt.alloc())?);
    assert!(rt; prints_entries(rt.alloc())?);
    assert!(rt; prints_what_was_read(rt.alloc(), FULL)?);
    assert!(rt; prints_what_was_read(rt.alloc(), THIN)?);
    Ok(())
}
