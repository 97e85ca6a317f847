//! Limits, and the verdicts on certificates for the small flat task.
use crate::flat::flat;
use np_cert::{Certificate, Entry, Limit, Why};
use np_check::{Verdict, check_certificate};
use np_flat::{Flat, FlatState};
use sqlite_items::Items;
use std::process::Abort;

/// The facts, the values and the bound of an entry by expansion.
type Row<'a> = (&'a [u32], &'a [i128], Limit);

/// The entry of a row, with this reason.
fn entry(rt: &(impl Abort + AllocGlobal), row: &Row<'_>, why: Why) -> Entry {
    let facts = Items::from_slice(rt.alloc(), row.0).expect(rt, "memory");
    let values = Items::from_slice(rt.alloc(), row.1).expect(rt, "memory");
    Entry {
        state: FlatState { facts, values },
        bound: row.2,
        why,
    }
}

/// The entries of these rows by expansion.
fn entries(rt: &(impl Abort + AllocGlobal), rows: &[Row<'_>]) -> Items<Entry> {
    let mut entries = Items::new(rt.alloc());
    for row in rows {
        entries
            .push(entry(rt, row, Why::Expanded))
            .expect(rt, "memory");
    }
    entries
}

/// A certificate with no proof.
fn certificate(
    rt: &(impl Abort + AllocGlobal),
    claim: Limit,
    entries: Items<Entry>,
) -> Certificate {
    Certificate {
        claim,
        proofs: Items::new(rt.alloc()),
        entries,
    }
}

/// The verdict on a certificate of entries by expansion, for the small flat task.
fn verdict(
    rt: &(impl Abort + AllocGlobal),
    flat: &Flat,
    claim: Limit,
    rows: &[Row<'_>],
) -> Verdict {
    let certificate = certificate(rt, claim, entries(rt, rows));
    check_certificate(rt.alloc(), flat, &certificate)
}

/// The order of limits.
fn limits_are_ordered() -> bool {
    let three = Limit::Number(3);
    three.at_most(three)
        && three.at_most(Limit::Absent)
        && Limit::Absent.at_most(Limit::Absent)
        && !three.at_most(Limit::Number(2))
        && !Limit::Absent.at_most(three)
}

/// A cost on top of a limit.
fn limits_are_raised() -> bool {
    Limit::Number(3).after_cost(4) == Some(Limit::Number(7))
        && Limit::Absent.after_cost(4) == Some(Limit::Absent)
        && Limit::Number(u128::MAX).after_cost(0) == Some(Limit::Number(u128::MAX))
        && Limit::Number(u128::MAX).after_cost(1).is_none()
}

/// Small limits.
fn limits_are_small() -> bool {
    Limit::Number((1 << 62) - 1).is_small()
        && Limit::Absent.is_small()
        && !Limit::Number(1 << 62).is_small()
}

/// The entries of a valid certificate: the start, and the two states that steps lead to.
const START: Row<'static> = (&[], &[3, -1], Limit::Number(3));

const LOWERED: Row<'static> = (&[0], &[2, -1], Limit::Number(2));

const RAISED: Row<'static> = (&[], &[2, 3], Limit::Number(1));

/// A claim, entries, and the verdict on them.
type Case = (Limit, &'static [Row<'static>], Verdict);

/// Certificates whose first fault, if they have one, is in the first three entries, in the claim, or in a goal state.
const CASES: &[Case] = &[
    (Limit::Number(3), &[START, LOWERED, RAISED], Verdict::Holds),
    // a bound that the step doesn't give
    (
        Limit::Number(3),
        &[START, LOWERED, (&[], &[2, 3], Limit::Number(2))],
        Verdict::BadEntry(2),
    ),
    // a state after a step without an entry counts 0
    (Limit::Number(3), &[START, RAISED], Verdict::BadEntry(0)),
    (
        Limit::Number(4),
        &[START, LOWERED, RAISED],
        Verdict::BadClaim,
    ),
    (
        Limit::Number(3),
        &[START, LOWERED, RAISED, START],
        Verdict::TwiceEntry(3),
    ),
    (Limit::Number(0), &[], Verdict::Holds),
    (Limit::Number(1), &[], Verdict::BadClaim),
    (Limit::Absent, &[], Verdict::BadClaim),
    (
        Limit::Absent,
        &[(&[], &[3, -1], Limit::Absent)],
        Verdict::BadEntry(0),
    ),
    (
        Limit::Number(3),
        &[START, LOWERED, RAISED, (&[0], &[1, 3], Limit::Number(1))],
        Verdict::BadEntry(3),
    ),
];

/// Fourth entries that no certificate has: too many values, a fact out of range, a fact twice, a value and a bound past
/// their limits.
const UNFIT: &[Row<'static>] = &[
    (&[], &[0, 0, 0], Limit::Number(0)),
    (&[1], &[0, 0], Limit::Number(0)),
    (&[0, 0], &[0, 0], Limit::Number(0)),
    (&[], &[1 << 87, 0], Limit::Number(0)),
    (&[], &[4, 0], Limit::Number(1 << 62)),
];

/// Whether the verdict is the case's.
fn passes(rt: &(impl Abort + AllocGlobal), flat: &Flat, case: &Case) -> bool {
    verdict(rt, flat, case.0, case.1) == case.2
}

/// Whether the row is refused as the fourth entry.
fn is_unfit(rt: &(impl Abort + AllocGlobal), flat: &Flat, row: Row<'_>) -> bool {
    let rows = [START, LOWERED, RAISED, row];
    verdict(rt, flat, Limit::Number(3), &rows) == Verdict::BadEntry(3)
}

/// Whether an entry with this reason is refused.
fn is_no_reason(rt: &(impl Abort + AllocGlobal), flat: &Flat, why: Why) -> bool {
    let mut entries = Items::new(rt.alloc());
    entries.push(entry(rt, &START, why)).expect(rt, "memory");
    let other = certificate(rt, Limit::Number(0), entries);
    check_certificate(rt.alloc(), flat, &other) == Verdict::BadEntry(0)
}

/// Whether each case has its verdict.
fn all_pass(rt: &(impl Abort + AllocGlobal), flat: &Flat) -> bool {
    for case in CASES {
        if !passes(rt, flat, case) {
            return false;
        }
    }
    true
}

/// Whether each unfit row is refused.
fn all_are_unfit(rt: &(impl Abort + AllocGlobal), flat: &Flat) -> bool {
    for row in UNFIT {
        if !is_unfit(rt, flat, *row) {
            return false;
        }
    }
    true
}

/// Whether a proof that isn't there and a table without numbers support no bound above 0.
fn are_no_reasons(rt: &(impl Abort + AllocGlobal), flat: &Flat) -> bool {
    is_no_reason(rt, flat, Why::Proof(0))
        && is_no_reason(rt, flat, Why::Table(Items::new(rt.alloc())))
}

/// Whether the verdicts for the small flat task are those of the tables.
fn verdicts_are_right(rt: &(impl Abort + AllocGlobal)) -> bool {
    let flat = flat(rt);
    all_pass(rt, &flat) && all_are_unfit(rt, &flat) && are_no_reasons(rt, &flat)
}

#[test]
fn limits_and_verdicts(rt: HostRuntime) {
    assert!(rt; limits_are_ordered() && limits_are_raised() && limits_are_small());
    assert!(rt; verdicts_are_right(&rt));
}
