//! Verdicts on certificates by a random table, beside plain loops.
use crate::differing::random_flat;
use crate::random::Random;
use crate::slow::{greatest, is_at_most, is_table};
use np_cert::{Certificate, Entry, Limit, Why};
use np_check::{Verdict, check_certificate};
use np_flat::{Flat, FlatState};
use sqlite_items::Items;
use std::process::Abort;

/// An entry of a table as a limit.
fn limit(entry: Option<u64>) -> Limit {
    match entry {
        Some(number) => Limit::Number(u128::from(number)),
        None => Limit::Absent,
    }
}

/// The largest of the entries of these subgoals, 0 where there are none.
fn largest(entries: &[Option<u64>], subgoals: &[u32]) -> Option<u64> {
    let mut largest = Some(0);
    for subgoal in subgoals {
        let entry = entries.get(*subgoal as usize).copied().unwrap_or(None);
        if !is_at_most(entry, largest) {
            largest = entry;
        }
    }
    largest
}

/// The entries as a certificate lists them, half of the zeros, too.
fn listed(
    rt: &(impl Abort + AllocGlobal),
    random: &mut Random,
    entries: &[Option<u64>],
) -> Items<(u128, Limit)> {
    let mut listed = Items::new(rt.alloc());
    let mut subgoal: u128 = 0;
    for entry in entries {
        if *entry != Some(0) || random.below(2) == 0 {
            listed.push((subgoal, limit(*entry))).expect(rt, "memory");
        }
        subgoal = subgoal.saturating_add(1);
    }
    listed
}

/// What a certificate of one entry, for the start, claims and gives.
#[derive(Drop)]
struct Claimed {
    claim: Option<u64>,
    bound: Option<u64>,
    entries: Vec<Option<u64>>,
}

impl Claimed {
    /// Something at random: half of the time the greatest table, and mostly a bound and a claim near what it reaches.
    fn new(rt: &(impl Abort + AllocGlobal), flat: &Flat, random: &mut Random) -> Claimed {
        let parts = flat.parts();
        let mut entries = greatest(rt, parts, &parts.start);
        if random.below(2) == 0 {
            entries = random.changed(rt, entries.as_slice());
        }
        let bound = random.near(largest(entries.as_slice(), parts.goal.as_slice()));
        let claim = random.near(bound);
        Claimed {
            claim,
            bound,
            entries,
        }
    }

    /// The certificate.
    fn certificate(
        &self,
        rt: &(impl Abort + AllocGlobal),
        start: &FlatState,
        random: &mut Random,
    ) -> Certificate {
        let state = FlatState {
            facts: Items::from_slice(rt.alloc(), start.facts.as_slice()).expect(rt, "memory"),
            values: Items::from_slice(rt.alloc(), start.values.as_slice()).expect(rt, "memory"),
        };
        let mut entries = Items::new(rt.alloc());
        let entry = Entry {
            state,
            bound: limit(self.bound),
            why: Why::Table(listed(rt, random, self.entries.as_slice())),
        };
        entries.push(entry).expect(rt, "memory");
        Certificate {
            claim: limit(self.claim),
            proofs: Items::new(rt.alloc()),
            entries,
        }
    }

    /// The verdict by the definition.
    fn right(&self, flat: &Flat) -> Verdict {
        let parts = flat.parts();
        let entries = self.entries.as_slice();
        if !is_table(parts, &parts.start, entries)
            || !is_at_most(self.bound, largest(entries, parts.goal.as_slice()))
        {
            Verdict::BadEntry(0)
        } else if is_at_most(self.claim, self.bound) {
            Verdict::Holds
        } else {
            Verdict::BadClaim
        }
    }
}

/// Whether the verdicts on random certificates for a task are right. They are counted.
fn verdicts_agree(
    rt: &(impl Abort + AllocGlobal),
    flat: &Flat,
    random: &mut Random,
    counts: &mut [u64; 3],
) -> bool {
    for _ in 0..10 {
        let claimed = Claimed::new(rt, flat, random);
        let certificate = claimed.certificate(rt, &flat.parts().start, random);
        let right = claimed.right(flat);
        if check_certificate(rt.alloc(), flat, &certificate) != right {
            return false;
        }
        let place = match right {
            Verdict::Holds => 0,
            Verdict::BadClaim => 1,
            _ => 2,
        };
        counts[place] = counts[place].saturating_add(1);
    }
    true
}

/// Each verdict comes often.
#[test]
fn certificates_by_tables_are_judged(rt: HostRuntime) {
    let mut counts = [0; 3];
    for seed in 0..300 {
        if let Some(flat) = random_flat(&rt, seed) {
            let mut random = Random { seed };
            assert!(rt;
                verdicts_agree(&rt, &flat, &mut random, &mut counts),
                "seed {seed}"
            );
        }
    }
    let [yes, claims, entries] = counts;
    assert!(rt;
        yes > 100 && claims > 100 && entries > 100,
        "a verdict is rare: {yes} {claims} {entries}"
    );
}
