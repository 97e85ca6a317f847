//! Reachable subgoals, tables and cuts of random tasks, beside plain loops and beside lists of steps.
ghost use Rattle.np_relax.specs.Needing.{IsNeeding};

use crate::answers::{cuts_are, reach_is, table_is, verdict};
use crate::lists::bound_lists;
use crate::random::Random;
use crate::slow::{closure, cuts, greatest, is_table};
use crate::texts::flat_of;
use np_flat::Flat;
use np_relax::Needing;
use np_table::Judge;
use std::process::Abort;

/// The flat task of a random pair; None where it is refused.
pub fn random_flat(rt: &(impl Abort + AllocGlobal), seed: u64) -> Option<Flat> {
    let mut random = Random { seed };
    let domain = random.domain(rt);
    let problem = random.problem(rt);
    flat_of(rt.alloc(), domain.as_str(), problem.as_str())
}

/// Entries of 0 for what can come to hold, and of none for what can't.
fn zeros(rt: &(impl Abort + AllocGlobal), can: &[bool]) -> Vec<Option<u64>> {
    let mut zeros = Vec::new(rt.alloc());
    for is_in in can {
        zeros.push(is_in.then_some(0)).expect(rt, "memory");
    }
    zeros
}

/// Whether the set without the steps that are removed is the closure, and no list of other steps leaves it.
fn reach_agrees(
    rt: &(impl Abort + AllocGlobal),
    flat: &Flat,
    needing: &Needing,
    removed: &[bool],
) -> bool
    requires { IsNeeding flat.now needing.now }
{
    let start = &flat.parts().start;
    let closure = closure(rt, flat.parts(), start, removed);
    let zeros = zeros(rt, closure.as_slice());
    reach_is(rt, flat, needing, removed, closure.as_slice())
        && bound_lists(rt, flat.parts(), start, removed, zeros.as_slice())
}

/// The step of this number alone.
fn alone(rt: &(impl Abort + AllocGlobal), count: usize, number: usize) -> Vec<bool> {
    let mut alone = Vec::new(rt.alloc());
    for step in 0..count {
        alone.push(step == number).expect(rt, "memory");
    }
    alone
}

/// Whether the set is right without each step, and with all of them.
fn reaches_agree(rt: &(impl Abort + AllocGlobal), flat: &Flat, needing: &Needing) -> bool
    requires { IsNeeding flat.now needing.now }
{
    let count = flat.parts().steps.len();
    for number in 0..=count {
        let removed = alone(rt, count, number);
        if !reach_agrees(rt, flat, needing, removed.as_slice()) {
            return false;
        }
    }
    true
}

/// Whether the set is right without some steps at random.
fn random_reaches_agree(
    rt: &(impl Abort + AllocGlobal),
    flat: &Flat,
    needing: &Needing,
    random: &mut Random,
) -> bool
    requires { IsNeeding flat.now needing.now }
{
    for _ in 0..3 {
        let removed = random.bits(rt, flat.parts().steps.len());
        if !reach_agrees(rt, flat, needing, removed.as_slice()) {
            return false;
        }
    }
    true
}

/// The entries, with the one of this number raised: a number by 1, or to none.
fn raised(
    rt: &(impl Abort + AllocGlobal),
    entries: &[Option<u64>],
    place: usize,
    to_none: bool,
) -> Vec<Option<u64>> {
    let mut raised = Vec::new(rt.alloc());
    let mut number: usize = 0;
    for entry in entries {
        let raised_entry = match entry {
            Some(_) if number == place && to_none => None,
            Some(least) if number == place => Some(least.saturating_add(1)),
            _ => *entry,
        };
        raised.push(raised_entry).expect(rt, "memory");
        number = number.saturating_add(1);
    }
    raised
}

/// Whether each number raised by 1, and each raised to none, is refused.
fn refuses_raised(
    rt: &(impl Abort + AllocGlobal),
    judge: &mut Judge,
    flat: &Flat,
    entries: &[Option<u64>],
) -> bool {
    let mut number: usize = 0;
    for entry in entries {
        if entry.is_some() {
            let more = raised(rt, entries, number, false);
            let none = raised(rt, entries, number, true);
            if verdict(rt, judge, flat, more.as_slice()) != Some(false)
                || verdict(rt, judge, flat, none.as_slice()) != Some(false)
            {
                return false;
            }
        }
        number = number.saturating_add(1);
    }
    true
}

/// Whether the table at the start is the one from above, it is judged to be one, no larger one is, and it bounds each list of steps.
fn table_agrees(
    rt: &(impl Abort + AllocGlobal),
    judge: &mut Judge,
    flat: &Flat,
    needing: &Needing,
    entries: &[Option<u64>],
) -> bool
    requires { IsNeeding flat.now needing.now }
{
    table_is(rt, flat, needing, entries)
        && verdict(rt, judge, flat, entries) == Some(true)
        && refuses_raised(rt, judge, flat, entries)
        && bound_lists(rt, flat.parts(), &flat.parts().start, &[], entries)
}

/// Whether the verdicts on changed entries are those of the definition. They are counted.
fn changed_agree(
    rt: &(impl Abort + AllocGlobal),
    judge: &mut Judge,
    flat: &Flat,
    entries: &[Option<u64>],
    random: &mut Random,
    verdicts: &mut [u64; 2],
) -> bool {
    for _ in 0..10 {
        let changed = random.changed(rt, entries);
        let is_table = is_table(flat.parts(), &flat.parts().start, changed.as_slice());
        if verdict(rt, judge, flat, changed.as_slice()) != Some(is_table) {
            return false;
        }
        let place = usize::from(is_table);
        verdicts[place] = verdicts[place].saturating_add(1);
    }
    true
}

/// Counts the entries that are numbers above 0, and those that are none.
fn count(entries: &[Option<u64>], counts: &mut [u64; 3]) {
    for entry in entries {
        match entry {
            Some(0) => {}
            Some(_) => counts[0] = counts[0].saturating_add(1),
            None => counts[1] = counts[1].saturating_add(1),
        }
    }
}

/// Counts the cuts of more than one subgoal.
fn count_cuts(cuts: &[Vec<u64>], counts: &mut [u64; 3]) {
    for members in cuts {
        if members.len() > 1 {
            counts[2] = counts[2].saturating_add(1);
        }
    }
}

/// Whether all agrees for the pair of this seed, where it isn't refused.
fn pair_agrees(
    rt: &(impl Abort + AllocGlobal),
    judge: &mut Judge,
    seed: u64,
    counts: &mut [u64; 3],
) -> bool {
    let Some(flat) = random_flat(rt, seed) else {
        return true;
    };
    let needing = Needing::new(rt.alloc(), &flat).expect(rt, "memory");
    let entries = greatest(rt, flat.parts(), &flat.parts().start);
    let cuts = cuts(rt, flat.parts(), &flat.parts().start);
    count(entries.as_slice(), counts);
    count_cuts(cuts.as_slice(), counts);
    let mut random = Random { seed };
    reaches_agree(rt, &flat, &needing)
        && random_reaches_agree(rt, &flat, &needing, &mut random)
        && table_agrees(rt, judge, &flat, &needing, entries.as_slice())
        && cuts_are(rt, &flat, &needing, cuts.as_slice())
}

/// Entries above 0, entries of none and cuts of several subgoals come often.
#[test]
fn random_tasks_agree(rt: HostRuntime) {
    let mut judge = Judge::new(rt.alloc());
    let mut counts = [0; 3];
    for seed in 0..600 {
        assert!(rt;
            pair_agrees(&rt, &mut judge, seed, &mut counts),
            "seed {seed}"
        );
    }
    let [above, none, several] = counts;
    assert!(rt;
        above > 100 && none > 100 && several > 100,
        "a kind is rare: {above} {none} {several}"
    );
}

/// Tables and other entries both come often.
#[test]
fn changed_entries_are_judged(rt: HostRuntime) {
    let mut judge = Judge::new(rt.alloc());
    let mut verdicts = [0; 2];
    for seed in 0..300 {
        if let Some(flat) = random_flat(&rt, seed) {
            let mut random = Random { seed };
            let entries = greatest(&rt, flat.parts(), &flat.parts().start);
            let entries = entries.as_slice();
            assert!(rt;
                changed_agree(&rt, &mut judge, &flat, entries, &mut random, &mut verdicts),
                "seed {seed}"
            );
        }
    }
    let [others, tables] = verdicts;
    assert!(rt;
        others > 100 && tables > 100,
        "a kind is rare: {others} {tables}"
    );
}
