//! Proofs at random for tasks at random: the verdict is that of the definitions, and no list of steps costs less than a bound.
use crate::lists::cheapest;
use crate::random::Random;
use crate::slow::{ABSENT, bound, is_proof};
use crate::texts::task_of;
use np_bind::bind;
use np_cert::{Certificate, Entry, Limit, Why};
use np_check::{Verdict, check_certificate};
use np_count::Proof;
use np_flat::{Flat, FlatState};
use np_scale::scale;
use sqlite_items::Items;
use std::process::Abort;

/// The flat task of a random pair; None where it is refused.
fn random_flat(rt: &(impl Abort + AllocGlobal), random: &mut Random) -> Option<Flat> {
    let domain = random.domain(rt);
    let problem = random.problem(rt);
    let task = task_of(rt.alloc(), domain.as_str(), problem.as_str());
    let task = task.expect(rt, "the texts keep the rules");
    let bound = bind(rt.alloc(), &task).ok()?;
    scale(rt.alloc(), &bound).ok()
}

/// A bound as it is written.
fn limit(bound: u128) -> Limit {
    if bound == ABSENT {
        Limit::Absent
    } else {
        Limit::Number(bound)
    }
}

/// A certificate of one proof and one entry by it.
fn certificate(rt: &(impl Abort + AllocGlobal), proof: Proof, state: FlatState) -> Certificate {
    let mut proofs = Items::new(rt.alloc());
    proofs.push(proof).expect(rt, "memory");
    let mut entries = Items::new(rt.alloc());
    let entry = Entry {
        state,
        bound: Limit::Number(0),
        why: Why::Proof(0),
    };
    entries.push(entry).expect(rt, "memory");
    Certificate {
        claim: Limit::Number(0),
        proofs,
        entries,
    }
}

/// The verdict on the certificate with this bound in its entry.
fn verdict(
    rt: &(impl Abort + AllocGlobal),
    flat: &Flat,
    certificate: &mut Certificate,
    bound: Limit,
) -> Verdict {
    if let Some(mut entry) = certificate.entries.pop() {
        entry.bound = bound;
        certificate.entries.push(entry).expect(rt, "memory");
    }
    check_certificate(rt.alloc(), flat, certificate)
}

/// Whether the next larger bound is refused, and that there is no plan.
fn is_largest(
    rt: &(impl Abort + AllocGlobal),
    flat: &Flat,
    certificate: &mut Certificate,
    largest: u128,
) -> bool {
    largest == ABSENT
        || (verdict(rt, flat, certificate, limit(largest.saturating_add(1))) == Verdict::BadEntry(0)
            && verdict(rt, flat, certificate, Limit::Absent) == Verdict::BadEntry(0))
}

/// The kind of a proof at a state: 0 where it fails, 1 with no bound or the bound 0, 2 with one above 0, 3 where it says that there is no
/// plan. None where the verdict isn't that of the definitions, or a list of steps costs less.
fn kind(
    rt: &(impl Abort + AllocGlobal),
    flat: &Flat,
    proof: Proof,
    state: FlatState,
) -> Option<usize> {
    let parts = flat.parts();
    let is_right = is_proof(parts, &proof);
    let largest = bound(parts, &state, &proof);
    let least = cheapest(rt, parts, &state);
    let mut certificate = certificate(rt, proof, state);
    let first = verdict(rt, flat, &mut certificate, limit(largest.unwrap_or(0)));
    if !is_right {
        return (first == Verdict::BadProof(0)).then_some(0);
    }
    let Some(largest) = largest else {
        return (first == Verdict::BadEntry(0)).then_some(1);
    };
    let agrees = first == Verdict::Holds && is_largest(rt, flat, &mut certificate, largest);
    let kind = match largest {
        0 => 1,
        ABSENT => 3,
        _ => 2,
    };
    (agrees && largest <= least).then_some(kind)
}

/// Whether the proofs for the pair of this seed are right, where it isn't refused. They are counted by their kinds.
fn pair_agrees(rt: &(impl Abort + AllocGlobal), seed: u64, counts: &mut [u64]) -> bool {
    let mut random = Random { seed };
    let Some(flat) = random_flat(rt, &mut random) else {
        return true;
    };
    for _ in 0..20 {
        let proof = random.proof(rt, flat.parts());
        let state = random.state(rt, flat.parts());
        let Some(kind) = kind(rt, &flat, proof, state) else {
            return false;
        };
        if let Some(count) = counts.get_mut(kind) {
            *count = count.saturating_add(1);
        }
    }
    true
}

/// Each kind comes often.
#[test]
fn proofs_are_judged_by_the_definitions(rt: HostRuntime) {
    let mut counts = [0; 4];
    for seed in 0..300 {
        assert!(rt; pair_agrees(&rt, seed, &mut counts), "seed {seed}");
    }
    let [failing, zero, above, none] = counts;
    assert!(rt;
        failing.min(zero).min(above) > 100 && none > 10,
        "a kind is rare: {failing} {zero} {above} {none}"
    );
}
