//! Certificates with counting proofs for the small flat task, worked by hand.
//!
//! On the form, which is 0 at the start, the first step's net change is -2 and the second one's 4. The first step has the coefficient 1 in the flow of
//! the fact and -1 in that of its negation, the second one the contrary. Each step costs 1.
use crate::flat::flat;
use np_cert::{Certificate, Entry, Limit, Why};
use np_check::{Verdict, check_certificate};
use np_count::{Proof, Row};
use np_flat::{Flat, FlatState};
use sqlite_items::Items;
use std::process::Abort;

/// A row as it is written in the tables below.
#[derive(Clone, Copy)]
enum Kind {
    Demand(u64),
    Flow(u64),
    FlowNot(u64),
    Floor(u64, i128),
    Cut(&'static [u64]),
}

use Kind::{Cut, Demand, Floor, Flow, FlowNot};

/// The row.
fn row(rt: &(impl Abort + AllocGlobal), kind: Kind) -> Row {
    match kind {
        Demand(q) => Row::Demand(q),
        Flow(p) => Row::Flow(p),
        FlowNot(p) => Row::FlowNot(p),
        Floor(q, m) => Row::Floor(q, m),
        Cut(members) => Row::Cut(Items::from_slice(rt.alloc(), members).expect(rt, "memory")),
    }
}

/// A proof: its divisor, and its rows with their weights.
type Written = (u64, &'static [(u64, Kind)]);

/// The proof.
fn proof(rt: &(impl Abort + AllocGlobal), written: Written) -> Proof {
    let mut items = Items::new(rt.alloc());
    for item in written.1 {
        items.push((item.0, row(rt, item.1))).expect(rt, "memory");
    }
    Proof {
        divisor: written.0,
        items,
    }
}

/// The facts and the values of a state.
type Place = (&'static [u32], &'static [i128]);

const START: Place = (&[], &[3, -1]);

/// The state after the first step: the fact holds, and the form is -2.
const LOWERED: Place = (&[0], &[2, -1]);

/// No step is applicable: the fact is false, and the form is -5.
const DEAD: Place = (&[], &[0, 0]);

/// The form is 2^87 - 5.
const FAR: Place = (&[], &[1 << 86, 0]);

/// A certificate of one proof and one entry, which names the proof of this number.
fn certificate(
    rt: &(impl Abort + AllocGlobal),
    written: Written,
    place: Place,
    bound: Limit,
    number: u128,
) -> Certificate {
    let mut proofs = Items::new(rt.alloc());
    proofs.push(proof(rt, written)).expect(rt, "memory");
    let state = FlatState {
        facts: Items::from_slice(rt.alloc(), place.0).expect(rt, "memory"),
        values: Items::from_slice(rt.alloc(), place.1).expect(rt, "memory"),
    };
    let mut entries = Items::new(rt.alloc());
    let why = Why::Proof(number);
    entries
        .push(Entry { state, bound, why })
        .expect(rt, "memory");
    Certificate {
        claim: Limit::Number(0),
        proofs,
        entries,
    }
}

/// The verdict on it.
fn verdict(
    rt: &(impl Abort + AllocGlobal),
    flat: &Flat,
    written: Written,
    place: Place,
    bound: Limit,
) -> Verdict {
    check_certificate(rt.alloc(), flat, &certificate(rt, written, place, bound, 0))
}

/// Three times the fact's flow and once the form's demand: the steps pay 1 each, and at the start 3 is left.
const WHOLE: Written = (1, &[(1, Demand(2)), (3, Flow(0))]);

/// The fact or the form has to be achieved; the steps pay nothing.
const BOTH: Written = (0, &[(1, Cut(&[0, 2]))]);

/// The demand of the form, with a large weight.
const WIDE: Written = ((1 << 62) - 1, &[(1 << 59, Demand(2))]);

/// A row with the weight 0.
const WEIGHTLESS: Written = (1, &[(0, Flow(0))]);

/// A proof, a state, and the largest bound that the proof gives there.
const BOUNDS: &[(Written, Place, u128)] = &[
    (WHOLE, START, 3),
    (WHOLE, LOWERED, 2),
    // 3 over 2 is rounded up
    ((2, &[(1, Demand(2)), (3, Flow(0))]), START, 2),
    (((1 << 62) - 1, &[(1, Demand(2)), (3, Flow(0))]), START, 1),
    ((1, &[(1, Cut(&[0]))]), START, 1),
    // the fact holds
    ((1, &[(1, Cut(&[0]))]), LOWERED, 0),
    // the negation holds at the start, and the goal doesn't ask for it
    ((1, &[(1, FlowNot(0))]), START, 0),
    ((4, &[(1, Floor(2, -2))]), START, 0),
    ((4, &[(1, Floor(2, 1 - (1 << 125)))]), START, 0),
    ((1, &[]), START, 0),
    ((0, &[]), START, 0),
    // the form holds at the start, so with the divisor 0 nothing is above 0
    ((0, &[(1, Cut(&[0, 2]))]), START, 0),
];

/// Proofs that fail.
const FAILING: &[Written] = &[
    // the first step pays 2
    (1, &[(1, Demand(2)), (4, Flow(0))]),
    (0, &[(1, Demand(2)), (3, Flow(0))]),
    (1, &[(0, Flow(0))]),
    ((1 << 62) - 1, &[(1 << 62, Flow(0))]),
    (1 << 62, &[]),
    // a fact, a negation, and no subgoal
    (4, &[(1, Demand(0))]),
    (4, &[(1, Demand(1))]),
    (4, &[(1, Demand(3))]),
    (1, &[(1, Flow(1))]),
    (1, &[(1, FlowNot(1))]),
    // the first step's guard is 0, and it lowers the form by 2
    (4, &[(1, Floor(2, -1))]),
    (4, &[(1, Floor(0, -2))]),
    (4, &[(1, Floor(2, 1 << 125))]),
    (4, &[(1, Floor(2, -(1 << 125)))]),
    (1, &[(1, Cut(&[]))]),
    (1, &[(1, Cut(&[0, 0]))]),
    (1, &[(1, Cut(&[2, 0]))]),
    (1, &[(1, Cut(&[3]))]),
];

/// Whether each proof gives its bound, and no larger one.
fn bounds_are_right(rt: &(impl Abort + AllocGlobal), flat: &Flat) -> bool {
    for (written, place, bound) in BOUNDS {
        let most = Limit::Number(*bound);
        let more = Limit::Number(*bound + 1);
        if verdict(rt, flat, *written, *place, most) != Verdict::Holds
            || verdict(rt, flat, *written, *place, more) != Verdict::BadEntry(0)
        {
            return false;
        }
    }
    true
}

/// Whether each of the failing proofs fails.
fn all_fail(rt: &(impl Abort + AllocGlobal), flat: &Flat) -> bool {
    for written in FAILING {
        if verdict(rt, flat, *written, START, Limit::Number(0)) != Verdict::BadProof(0) {
            return false;
        }
    }
    true
}

/// Whether a state from which there is no plan is told, and no other.
fn none_is_told(rt: &(impl Abort + AllocGlobal), flat: &Flat) -> bool {
    verdict(rt, flat, BOTH, DEAD, Limit::Absent) == Verdict::Holds
        && verdict(rt, flat, BOTH, START, Limit::Absent) == Verdict::BadEntry(0)
        && verdict(rt, flat, WHOLE, START, Limit::Absent) == Verdict::BadEntry(0)
}

/// Whether a proof whose sum at a state passes 128 bits is good, and has no bound there.
fn wide_is_none(rt: &(impl Abort + AllocGlobal), flat: &Flat) -> bool {
    verdict(rt, flat, WIDE, FAR, Limit::Number(0)) == Verdict::BadEntry(0)
        && verdict(rt, flat, WIDE, START, Limit::Number(0)) == Verdict::Holds
}

/// The order of faults: a proof that isn't there, and a second proof, which no entry names, that fails.
fn faults_are_in_order(rt: &(impl Abort + AllocGlobal), flat: &Flat) -> bool {
    let zero = Limit::Number(0);
    let mut other = certificate(rt, WHOLE, START, zero, 1);
    let missing = check_certificate(rt.alloc(), flat, &other) == Verdict::BadEntry(0);
    let failing = proof(rt, WEIGHTLESS);
    other.proofs.push(failing).expect(rt, "memory");
    missing && check_certificate(rt.alloc(), flat, &other) == Verdict::BadProof(1)
}

/// The claim of the whole proof, and one more.
fn claims_are_right(rt: &(impl Abort + AllocGlobal), flat: &Flat) -> bool {
    let mut claimed = certificate(rt, WHOLE, START, Limit::Number(3), 0);
    claimed.claim = Limit::Number(3);
    let holds = check_certificate(rt.alloc(), flat, &claimed) == Verdict::Holds;
    claimed.claim = Limit::Number(4);
    holds && check_certificate(rt.alloc(), flat, &claimed) == Verdict::BadClaim
}

#[test]
fn counting_proofs(rt: HostRuntime) {
    let flat = flat(&rt);
    assert!(rt; bounds_are_right(&rt, &flat) && all_fail(&rt, &flat));
    assert!(rt; none_is_told(&rt, &flat) && wide_is_none(&rt, &flat));
    assert!(rt; faults_are_in_order(&rt, &flat) && claims_are_right(&rt, &flat));
}
