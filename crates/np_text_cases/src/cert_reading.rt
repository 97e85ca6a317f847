//! Certificates that are read, and those that are refused, with the place.

use np_cert::{CertFault, Entry, Limit, Why, read_certificate};
use std::alloc::{AllocError, Global};
use std::test::Fail;

/// An entry by its facts, values and bound.
type Expected<'a> = (&'a [u32], &'a [i128], Limit);

/// Whether the entry is this one, by expansion.
fn is_entry(entry: &Entry, wanted: &Expected<'_>) -> bool {
    entry.state.facts.as_slice() == wanted.0
        && entry.state.values.as_slice() == wanted.1
        && entry.bound == wanted.2
        && matches!(entry.why, Why::Expanded)
}

/// Whether the entries are these.
fn are_entries(entries: &[Entry], wanted: &[Expected<'_>]) -> bool {
    for (entry, row) in entries.iter().zip(wanted) {
        if !is_entry(entry, row) {
            return false;
        }
    }
    entries.len() == wanted.len()
}

/// Whether the text is read, and says this.
fn is_read(alloc: Global, text: &[u8], claim: Limit, entries: &[Expected<'_>]) -> bool {
    match read_certificate(alloc, text) {
        Ok(certificate) => {
            certificate.claim == claim
                && certificate.proofs.is_empty()
                && are_entries(certificate.entries.as_slice(), entries)
        }
        Err(_) => false,
    }
}

/// Whether reading stops at this offset.
fn stops_at(alloc: Global, text: &[u8], offset: usize) -> bool {
    match read_certificate(alloc, text) {
        Err(CertFault::At(place)) => place.offset == offset,
        _ => false,
    }
}

/// Whether reading of the two texts as one stops where they meet.
fn stops_between(alloc: Global, front: &str, rest: &str) -> Result<bool, AllocError> {
    let mut text = Vec::from_slice(alloc, front.as_bytes())?;
    text.extend_from_slice(rest.as_bytes())?;
    Ok(stops_at(alloc, text.as_slice(), front.len()))
}

const STEPS: &str = "; three steps up
(CERTIFICATE 1 (Claim 3)(proofs ) (entries\t(entry (facts) (values 0) 3 expanded); the start
( entry (facts)(values 1)2 Expanded )
(entry (facts) (values 2) 1 expanded) ) )\r\n; the end";

const EDGES: &str = "(certificate 1 (claim none) (proofs) (entries (entry (facts 0 4294967295)
(values -99999999999999999999999999999999999999 0 99999999999999999999999999999999999999 -1)
99999999999999999999999999999999999999 expanded)))";

/// A certificate with each row and each reason, as it is printed, but for the last line feed.
pub const FULL: &str = "(certificate 1 (claim 12)
(proofs
(proof 18446744073709551615 (18446744073709551615 demand 0) (1 flow 2) (2 flow-not 3) (3 floor 4 -5) (4 cut 6 17))
(proof 0))
(entries
(entry (facts 0 7) (values -10 0) none expanded)
(entry (facts) (values) 3 (proof 1))
(entry (facts) (values 99999999999999999999999999999999999999) 4 (table (0 none) (10 8)))))";

/// Another one, with few blanks.
const DENSE: &str =
    "(Certificate 1(CLAIM none)(proofs(proof 3(1 flow-not 2)(20 cut 1 30)(4 flow 5)))(entries
(entry(facts 1 2)(values -1 7)7(Table(3 40)))(entry(facts)(values)0(proof 21))(entry(facts)(values)1 expanded)))";

/// Texts of no certificate, cut where reading stops.
const REFUSED: &[(&str, &str)] = &[
    ("", ""),
    ("(", "proofs 1 (claim 3) (proofs) (entries))"),
    ("(certificate ", "2 (claim 3) (proofs) (entries))"),
    ("(certificate ", "01 (claim 3) (proofs) (entries))"),
    ("(certificate 1 (claim ", "01) (proofs) (entries))"),
    ("(certificate 1 (claim ", "-1) (proofs) (entries))"),
    ("(certificate 1 (claim ", "1.0) (proofs) (entries))"),
    ("(certificate 1 (claim ", "some) (proofs) (entries))"),
    (
        "(certificate 1 (claim ",
        "100000000000000000000000000000000000000) (proofs) (entries))",
    ),
    ("(certificate 1 (claim 3 ", "4) (proofs) (entries))"),
    (
        "(certificate 1 (claim 3) (proofs (proof 1 (",
        "18446744073709551616 demand 0))) (entries))",
    ),
    (
        "(certificate 1 (claim 3) (proofs (proof 1 (1 cut",
        "))) (entries))",
    ),
    (
        "(certificate 1 (claim 3) (proofs (proof 1 (1 ",
        "rise 0))) (entries))",
    ),
    ("(certificate 1 (claim 3) (proofs) (entries)", ""),
    ("(certificate 1 (claim 3) (proofs) (entries)) ", "x"),
    ("(certificate 1 (claim 3) (proofs) (entries))", ")"),
    ("(certificate 1 (claim 3) (proofs) (entries))\n", "!"),
    (
        "(certificate 1 (claim 3) (proofs) (entries (entry (facts ",
        "4294967296) (values) 0 expanded)))",
    ),
    (
        "(certificate 1 (claim 3) (proofs) (entries (entry (facts ",
        "00) (values) 0 expanded)))",
    ),
    (
        "(certificate 1 (claim 3) (proofs) (entries (entry (facts) (values ",
        "-0) 0 expanded)))",
    ),
    (
        "(certificate 1 (claim 3) (proofs) (entries (entry (facts) (values ",
        "+1) 0 expanded)))",
    ),
    (
        "(certificate 1 (claim 3) (proofs) (entries (entry (facts) (values 0 ",
        "-100000000000000000000000000000000000000) 0 expanded)))",
    ),
    (
        "(certificate 1 (claim 3) (proofs) (entries (entry (facts) (values ",
        "100000000000000000000000000000000000000) 0 expanded)))",
    ),
    (
        "(certificate 1 (claim 3) (proofs) (entries (entry (facts) (values) ",
        "1.0 expanded)))",
    ),
    (
        "(certificate 1 (claim 3) (proofs) (entries (entry (facts) (values) 3 (",
        "tables))))",
    ),
];

/// The entries of the first text.
const THREE: &[Expected<'static>] = &[
    (&[], &[0], Limit::Number(3)),
    (&[], &[1], Limit::Number(2)),
    (&[], &[2], Limit::Number(1)),
];

/// The entry of the second text.
const WIDE: &[Expected<'static>] = &[(
    &[0, u32::MAX],
    &[
        -99_999_999_999_999_999_999_999_999_999_999_999_999,
        0,
        99_999_999_999_999_999_999_999_999_999_999_999_999,
        -1,
    ],
    Limit::Number(99_999_999_999_999_999_999_999_999_999_999_999_999),
)];

/// Whether a token ends before this byte.
fn is_break(byte: u8) -> bool {
    matches!(byte, b' ' | b'\n' | b'(' | b')')
}

/// How many bytes are after the last blank or bracket.
fn word_length(front: &[u8]) -> usize {
    let mut length = 0_usize;
    for byte in front {
        length = if is_break(*byte) {
            0
        } else {
            length.saturating_add(1)
        };
    }
    length
}

/// Where a certificate's text that ends here, and goes on with this byte, has its first fault. That is the end, unless a token was cut to
/// one that can't be there: digits and `flow` can.
fn fault_of(front: &[u8], next: u8) -> usize {
    let Some(last) = front.last() else {
        return 0;
    };
    if is_break(*last) || is_break(next) || last.is_ascii_digit() || front.ends_with(b" flow") {
        return front.len();
    }
    front.len().saturating_sub(word_length(front))
}

/// Whether reading stops at the first fault of each proper prefix.
fn stops_in_each_prefix(alloc: Global, text: &[u8]) -> bool {
    for length in 0..text.len() {
        let front = &text[..length];
        if !stops_at(alloc, front, fault_of(front, text[length])) {
            return false;
        }
    }
    true
}

#[test]
fn finds_the_fault_of_each_prefix(rt: HostRuntime) -> Result<(), Fail> {
    assert!(rt; stops_in_each_prefix(rt.alloc(), FULL.as_bytes()));
    assert!(rt; stops_in_each_prefix(rt.alloc(), DENSE.as_bytes()));
    Ok(())
}

#[test]
fn reads_certificates(rt: HostRuntime) -> Result<(), Fail> {
    let alloc = rt.alloc();
    assert!(rt; is_read(alloc, STEPS.as_bytes(), Limit::Number(3), THREE));
    assert!(rt; is_read(alloc, EDGES.as_bytes(), Limit::Absent, WIDE));
    for (front, rest) in REFUSED {
        assert!(rt; stops_between(alloc, *front, *rest)?);
    }
    Ok(())
}
