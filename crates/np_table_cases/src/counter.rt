//! A counter: one value, which starts at 0, one step that changes it, and the goal that a form of the value is at least 0.
ghost use Rattle.std.specs.Prelude.{◌≡◌, ◌≢◌, ◌<◌, [], ◌∷◌, pos, length, unsigned_abs};
ghost use Rattle.np_flat.specs.declared.limits.TheConstants.{CHANGE_SIZE, COEFFICIENT_SIZE, CONSTANT_SIZE, COST_SIZE};
ghost use Rattle.np_flat.specs.Flats.{IsFlat};

use np_flat::{
    CHANGE_SIZE, COEFFICIENT_SIZE, CONSTANT_SIZE, COST_SIZE, Flat, FlatState, FlatStep, Form,
    Parts, Subgoal,
};
use np_model::{Atom, Objects, Step, Term};
use np_relax::{Needing, reach};
use np_state::BitRow;
use np_table::{Judge, greatest};
use sqlite_items::Items;
use std::process::Abort;

/// What makes a counter: the goal is that `constant` and `coefficient` times the value are at least 0, and the step adds `change` to
/// the value at this cost.
#[derive(Clone, Copy)]
struct Counter {
    constant: i128,
    coefficient: i128,
    change: i128,
    cost: u64,
}

/// No fact.
fn facts(rt: &(impl Abort + AllocGlobal)) -> Items<Atom>
    ensures { length result ≡ 0 }
{
    Items::new(rt.alloc())
}

/// One value.
fn values(rt: &(impl Abort + AllocGlobal)) -> Items<Term>
    ensures { length result ≡ 1 }
{
    let term = Term {
        function: 0,
        objects: Objects::new(rt.alloc()),
    };
    let values = Vec::from_array(rt.alloc(), [term]).expect(rt, "memory");
    Items::from_vec(values)
}

/// The constant and so many times the value are at least 0.
fn subgoals(rt: &(impl Abort + AllocGlobal), counter: &Counter) -> Items<Subgoal>
    ensures { result ≡ Subgoal.Form (record { constant = counter.now.constant; terms = (0, counter.now.coefficient) ∷ [] }) ∷ [] }
{
    let form = Form {
        constant: counter.constant,
        terms: Items::from_slice(rt.alloc(), &[(0, counter.coefficient)]).expect(rt, "memory"),
    };
    let subgoals = Vec::from_array(rt.alloc(), [Subgoal::Form(form)]).expect(rt, "memory");
    Items::from_vec(subgoals)
}

/// The step.
fn steps(rt: &(impl Abort + AllocGlobal), counter: &Counter) -> Items<FlatStep>
    ensures { result ≡ record {
      step = record { action = 0; objects = [] };
      needs = [];
      adds = [];
      deletes = [];
      changes = (0, counter.now.change) ∷ [];
      cost = counter.now.cost;
    } ∷ [] }
{
    let objects = Objects::new(rt.alloc());
    let step = FlatStep {
        step: Step { action: 0, objects },
        needs: Items::new(rt.alloc()),
        adds: Items::new(rt.alloc()),
        deletes: Items::new(rt.alloc()),
        changes: Items::from_slice(rt.alloc(), &[(0, counter.change)]).expect(rt, "memory"),
        cost: counter.cost,
    };
    let steps = Vec::from_array(rt.alloc(), [step]).expect(rt, "memory");
    Items::from_vec(steps)
}

/// The value is 0.
fn start(rt: &(impl Abort + AllocGlobal)) -> FlatState
    ensures { result ≡ record { facts = []; values = pos 0 ∷ [] } }
{
    FlatState {
        facts: Items::new(rt.alloc()),
        values: Items::from_slice(rt.alloc(), &[0]).expect(rt, "memory"),
    }
}

/// The goal is the one subgoal.
fn goal(rt: &(impl Abort + AllocGlobal)) -> Items<u32>
    ensures { result ≡ 0 ∷ [] }
{
    Items::from_slice(rt.alloc(), &[0]).expect(rt, "memory")
}

/// The parts of the counter.
fn parts(rt: &(impl Abort + AllocGlobal), counter: &Counter) -> Parts
    requires constant { unsigned_abs counter.now.constant < CONSTANT_SIZE }
    requires coefficient { counter.now.coefficient ≢ pos 0 }
    requires narrow { unsigned_abs counter.now.coefficient < COEFFICIENT_SIZE }
    requires change { counter.now.change ≢ pos 0 }
    requires small { unsigned_abs counter.now.change < CHANGE_SIZE }
    requires cost { counter.now.cost < COST_SIZE }
    ensures { IsFlat result }
{
    Parts {
        unit: 1,
        facts: facts(rt),
        values: values(rt),
        start: start(rt),
        subgoals: subgoals(rt, counter),
        steps: steps(rt, counter),
        goal: goal(rt),
    }
}

/// Its flat task; None where a number isn't within its limit.
fn flat_of(rt: &(impl Abort + AllocGlobal), counter: &Counter) -> Option<Flat> {
    let Counter {
        constant,
        coefficient,
        change,
        cost,
    } = *counter;
    if constant.unsigned_abs() >= CONSTANT_SIZE || cost >= COST_SIZE {
        return None;
    }
    if coefficient == 0 || coefficient.unsigned_abs() >= COEFFICIENT_SIZE {
        return None;
    }
    if change == 0 || change.unsigned_abs() >= CHANGE_SIZE {
        return None;
    }
    Some(Flat::new(rt.alloc(), parts(rt, counter)).expect(rt, "memory"))
}

/// Whether the goal's entry in the greatest table at the start is this one.
fn has_entry(rt: &(impl Abort + AllocGlobal), flat: &Flat, entry: Option<u64>) -> bool {
    let needing = Needing::new(rt.alloc(), flat).expect(rt, "memory");
    let start = &flat.parts().start;
    let entries = greatest(rt.alloc(), flat, &needing, start).expect(rt, "memory");
    entries.as_slice() == [entry].as_slice()
}

/// Whether this entry of the goal is judged to be a table at the start.
fn is_table(rt: &(impl Abort + AllocGlobal), flat: &Flat, entry: Option<u64>) -> bool {
    let entries = [entry];
    if flat.parts().subgoals.len() != 1 {
        return false;
    }
    let mut judge = Judge::new(rt.alloc());
    let start = &flat.parts().start;
    judge
        .is_table(flat, start, entries.as_slice())
        .expect(rt, "memory")
}

/// Whether just the numbers up to this entry are judged to be tables, and none just where it is none.
fn are_judged(rt: &(impl Abort + AllocGlobal), flat: &Flat, entry: Option<u64>) -> bool {
    let most = entry.unwrap_or((1 << 62) - 1);
    is_table(rt, flat, Some(0))
        && is_table(rt, flat, Some(most))
        && !is_table(rt, flat, Some(most.saturating_add(1)))
        && is_table(rt, flat, None) == entry.is_none()
}

/// Whether the goal can come to hold, with the step or without it.
fn comes(rt: &(impl Abort + AllocGlobal), flat: &Flat, is_removed: bool) -> bool {
    let needing = Needing::new(rt.alloc(), flat).expect(rt, "memory");
    let count = flat.parts().steps.len();
    let mut removed = BitRow::new(rt.alloc(), count).expect(rt, "memory");
    if 0 < count {
        removed.set(0, is_removed);
    }
    let start = &flat.parts().start;
    let reached = reach(rt.alloc(), flat, &needing, start, &removed).expect(rt, "memory");
    reached.can.as_slice() == [true].as_slice()
}

/// The counters, by constant, coefficient, change and cost, and what the goal's entry is.
const CASES: [(i128, i128, i128, u64, Option<u64>); 17] = [
    // What is lacking times the cost, over what the step adds, rounded up.
    (-4, 1, 3, 2, Some(3)),
    (-3, 1, 3, 2, Some(2)),
    (-4, -1, -3, 2, Some(3)),
    (-7, 5, 1, 10, Some(14)),
    // A step that costs nothing; a goal that holds; a step that only lowers the form.
    (-4, 1, 3, 0, Some(0)),
    (0, 1, 3, 2, Some(0)),
    (-4, 1, -3, 2, None),
    // 2^62 - 1 is the greatest number of an entry, and 2^62 is cut off to it.
    (-(1 << 62) + 2, 1, 1, 1, Some((1 << 62) - 2)),
    (-(1 << 62) + 1, 1, 1, 1, Some((1 << 62) - 1)),
    (-(1 << 61) + 1, 1, 1, 2, Some((1 << 62) - 2)),
    (-(1 << 61), 1, 1, 2, Some((1 << 62) - 1)),
    (-(1 << 62) + 1, 1, 1, 2, Some((1 << 62) - 1)),
    (-(1 << 100) + 1, 1, 1, (1 << 32) - 1, Some((1 << 62) - 1)),
    // A product of about 2^130, over 2^91.
    (-(1 << 99), 1 << 30, 1 << 61, 1 << 31, Some(1 << 39)),
    (
        -(1 << 99) - 1,
        1 << 30,
        1 << 61,
        1 << 31,
        Some((1 << 39) + 1),
    ),
    (
        -(1 << 99) + (1 << 60),
        1 << 30,
        1 << 61,
        1 << 31,
        Some((1 << 39) - 1),
    ),
    (
        -(1 << 99) + (1 << 60) - 1,
        1 << 30,
        1 << 61,
        1 << 31,
        Some(1 << 39),
    ),
];

/// Each counter's entry is the greatest, the numbers up to it alone are judged to be tables, and the goal can come to hold where it
/// isn't none. Without its step the goal comes to hold only where it holds at once.
#[test]
fn counters_have_their_entries(rt: HostRuntime) {
    for (constant, coefficient, change, cost, entry) in CASES {
        let counter = Counter {
            constant,
            coefficient,
            change,
            cost,
        };
        let Some(flat) = flat_of(&rt, &counter) else {
            panic!(rt; "{constant} is past a limit");
        };
        assert!(rt;
            has_entry(&rt, &flat, entry),
            "{constant}, {change} for {cost}"
        );
        assert!(rt;
            are_judged(&rt, &flat, entry),
            "{constant}, {change} for {cost}"
        );
        assert!(rt;
            comes(&rt, &flat, false) == entry.is_some(),
            "{constant}, {change}"
        );
        assert!(rt;
            comes(&rt, &flat, true) == (constant >= 0),
            "{constant}, {change}"
        );
    }
}
