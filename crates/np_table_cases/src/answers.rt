//! What the calls answer at the start of a flat task, beside what is wanted.
ghost use Rattle.std.specs.Prelude.{◌≡◌, length};
ghost use Rattle.np_relax.specs.Needing.{IsNeeding};

use np_count::Row;
use np_cuts::cuts;
use np_flat::Flat;
use np_relax::{Needing, reach};
use np_space::Bound;
use np_state::BitRow;
use np_table::{Judge, greatest, table};
use std::process::Abort;

/// The steps that are removed, as a row of bits.
fn row_of(rt: &(impl Abort + AllocGlobal), flat: &Flat, removed: &[bool]) -> BitRow
    ensures { length result ≡ length flat.now.steps }
{
    let count = flat.parts().steps.len();
    let mut row = BitRow::new(rt.alloc(), count).expect(rt, "memory");
    for step in 0..count {
        row.set(step, removed.get(step).copied().unwrap_or(false));
    }
    row
}

/// Whether just these subgoals can come to hold without the steps that are removed.
pub fn reach_is(
    rt: &(impl Abort + AllocGlobal),
    flat: &Flat,
    needing: &Needing,
    removed: &[bool],
    can: &[bool],
) -> bool
    requires { IsNeeding flat.now needing.now }
{
    let removed = row_of(rt, flat, removed);
    let start = &flat.parts().start;
    let reached = reach(rt.alloc(), flat, needing, start, &removed).expect(rt, "memory");
    reached.can.as_slice() == can
}

/// The entries above 0, as a list by subgoal.
fn above(rt: &(impl Abort + AllocGlobal), entries: &[Option<u64>]) -> Vec<(u32, Bound)> {
    let mut above = Vec::new(rt.alloc());
    let mut number: u32 = 0;
    for entry in entries {
        match entry {
            Some(0) => {}
            Some(least) => above
                .push((number, Bound::AtLeast(*least)))
                .expect(rt, "memory"),
            None => above.push((number, Bound::NoPlan)).expect(rt, "memory"),
        }
        number = number.saturating_add(1);
    }
    above
}

/// Whether the greatest table has these entries, by subgoal and as a list of those above 0.
pub fn table_is(
    rt: &(impl Abort + AllocGlobal),
    flat: &Flat,
    needing: &Needing,
    entries: &[Option<u64>],
) -> bool
    requires { IsNeeding flat.now needing.now }
{
    let start = &flat.parts().start;
    let all = greatest(rt.alloc(), flat, needing, start).expect(rt, "memory");
    let listed = table(rt.alloc(), flat, needing, start).expect(rt, "memory");
    let above = above(rt, entries);
    all.as_slice() == entries && listed.numbers.as_slice() == above.as_slice()
}

/// The verdict on these entries; None where they aren't one for each subgoal.
pub fn verdict(
    rt: &(impl Abort + AllocGlobal),
    judge: &mut Judge,
    flat: &Flat,
    entries: &[Option<u64>],
) -> Option<bool> {
    if entries.len() != flat.parts().subgoals.len() {
        return None;
    }
    let is_table = judge.is_table(flat, &flat.parts().start, entries);
    Some(is_table.expect(rt, "memory"))
}

/// Whether a row is the cut of these subgoals.
fn is_cut(row: &Row, members: &[u64]) -> bool {
    match row {
        Row::Cut(numbers) => numbers.as_slice() == members,
        _ => false,
    }
}

/// Whether the cuts are those of these members, in this order.
pub fn cuts_are(
    rt: &(impl Abort + AllocGlobal),
    flat: &Flat,
    needing: &Needing,
    wanted: &[Vec<u64>],
) -> bool
    requires { IsNeeding flat.now needing.now }
{
    let start = &flat.parts().start;
    let rows = cuts(rt.alloc(), flat, needing, start).expect(rt, "memory");
    let mut number: usize = 0;
    for members in wanted {
        match rows.as_slice().get(number) {
            Some(row) if is_cut(row, members.as_slice()) => {}
            _ => return false,
        }
        number = number.saturating_add(1);
    }
    rows.len() == wanted.len()
}
