//! The search for a cheapest plan of the small flat task, and its certificate, read back from its text.
use crate::flat::flat;
use np_cert::{Certificate, Entry, Limit, read_certificate};
use np_evidence::{End, solve_flat};
use std::process::Abort;

/// The values of the states on the only way from the start, and what the goal is away from each.
const WAY: &[(i128, i128, u128)] = &[(3, -1, 3), (2, -1, 2), (2, 3, 1)];

/// The first two of them, and what is left of a bound of 2.
const FRONT: &[(i128, i128, u128)] = &[(3, -1, 2), (2, -1, 1)];

/// Whether an entry has these values and this bound.
fn is_entry(entry: &Entry, x: i128, y: i128, bound: u128) -> bool {
    entry.state.values.as_slice() == [x, y].as_slice() && entry.bound == Limit::Number(bound)
}

/// Whether a certificate has these entries, in order.
fn has_entries(certificate: &Certificate, wanted: &[(i128, i128, u128)]) -> bool {
    let entries = certificate.entries.as_slice();
    if entries.len() != wanted.len() {
        return false;
    }
    for (place, entry) in entries.iter().enumerate() {
        let Some((x, y, bound)) = wanted.get(place) else {
            return false;
        };
        if !is_entry(entry, *x, *y, *bound) {
            return false;
        }
    }
    true
}

/// The certificate that a text spells.
fn certificate(rt: &(impl Abort + AllocGlobal), text: &[u8]) -> Certificate {
    read_certificate(rt.alloc(), text).expect(rt, "the text spells a certificate")
}

/// Each state but the goal is expanded, and has the rest of the plan's cost as its bound.
#[test]
fn a_cheapest_plan_is_found(rt: HostRuntime) {
    let outcome = solve_flat(rt.alloc(), &flat(&rt), 9).expect(&rt, "memory");
    match &outcome.end {
        End::Plan(numbers, cost) => {
            assert_eq!(&rt; numbers.as_slice(), [0, 1, 0].as_slice());
            assert_eq!(&rt; *cost, 3);
        }
        _ => assert!(&rt; false, "there is a plan"),
    }
    let certificate = certificate(&rt, outcome.text.as_slice());
    assert_eq!(&rt; certificate.claim, Limit::Number(3));
    assert!(&rt; has_entries(&certificate, WAY), "the entries");
}

/// With a budget of two the third state comes next, at a cost of 2.
#[test]
fn a_budget_is_spent(rt: HostRuntime) {
    let outcome = solve_flat(rt.alloc(), &flat(&rt), 2).expect(&rt, "memory");
    match &outcome.end {
        End::Spent(bound) => assert_eq!(&rt; *bound, 2),
        _ => assert!(&rt; false, "the budget is spent"),
    }
    let certificate = certificate(&rt, outcome.text.as_slice());
    assert_eq!(&rt; certificate.claim, Limit::Number(2));
    assert!(&rt; has_entries(&certificate, FRONT), "the entries");
}
