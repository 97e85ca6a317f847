//! A small flat task, worked by hand.
ghost use Rattle.std.specs.Prelude.{◌≡◌, [], ◌∷◌, pos, negsuc, length};
ghost use Rattle.np_flat.specs.Flats.{IsFlat, IsForm};

use np_flat::{Flat, FlatState, FlatStep, Form, Parts, Subgoal, put_in};
use np_model::{Atom, Objects, Step, Term};
use sqlite_items::Items;
use std::process::Abort;

/// One fact.
fn facts(rt: &(impl Abort + AllocGlobal)) -> Items<Atom>
    ensures { length result ≡ 1 }
{
    let atom = Atom {
        predicate: 0,
        objects: Objects::new(rt.alloc()),
    };
    let facts = Vec::from_array(rt.alloc(), [atom]).expect(rt, "memory");
    Items::from_vec(facts)
}

/// The term of a function.
fn term(rt: &(impl Abort + AllocGlobal), function: u32) -> Term {
    Term {
        function,
        objects: Objects::new(rt.alloc()),
    }
}

/// Two values.
fn values(rt: &(impl Abort + AllocGlobal)) -> Items<Term>
    ensures { length result ≡ 2 }
{
    let values = Vec::from_array(rt.alloc(), [term(rt, 0), term(rt, 1)]).expect(rt, "memory");
    Items::from_vec(values)
}

/// Twice the first value and the second one are at least 5.
fn form(rt: &(impl Abort + AllocGlobal)) -> Form
    ensures { result ≡ record { constant = negsuc 4; terms = (0, pos 2) ∷ (1, pos 1) ∷ [] } }
{
    Form {
        constant: -5,
        terms: Items::from_slice(rt.alloc(), &[(0, 2), (1, 1)]).expect(rt, "memory"),
    }
}

/// The fact is true, it is false, and the form.
fn subgoals(rt: &(impl Abort + AllocGlobal)) -> Items<Subgoal>
    ensures { result ≡
        Subgoal.Fact 0 ∷ Subgoal.NotFact 0
        ∷ Subgoal.Form (record { constant = negsuc 4; terms = (0, pos 2) ∷ (1, pos 1) ∷ [] }) ∷ [] }
{
    let subgoals = [
        Subgoal::Fact(0),
        Subgoal::NotFact(0),
        Subgoal::Form(form(rt)),
    ];
    let subgoals = Vec::from_array(rt.alloc(), subgoals).expect(rt, "memory");
    Items::from_vec(subgoals)
}

/// These numbers.
fn numbers(rt: &(impl Abort + AllocGlobal), numbers: &[u32]) -> Items<u32>
    ensures { result ≡ numbers.now }
{
    Items::from_slice(rt.alloc(), numbers).expect(rt, "memory")
}

/// A step with one change.
fn step(
    rt: &(impl Abort + AllocGlobal),
    action: u32,
    needs: &[u32],
    adds: &[u32],
    deletes: &[u32],
    change: (u32, i128),
) -> FlatStep
    ensures { result ≡ record {
      step = record { action = action; objects = [] };
      needs = needs.now;
      adds = adds.now;
      deletes = deletes.now;
      changes = change ∷ [];
      cost = 1;
    } }
{
    let objects = Objects::new(rt.alloc());
    FlatStep {
        step: Step { action, objects },
        needs: numbers(rt, needs),
        adds: numbers(rt, adds),
        deletes: numbers(rt, deletes),
        changes: Items::from_slice(rt.alloc(), &[change]).expect(rt, "memory"),
        cost: 1,
    }
}

/// The two steps of the task below.
fn both_steps(rt: &(impl Abort + AllocGlobal)) -> Items<FlatStep>
    ensures { result ≡
        record { step = record { action = 0; objects = [] }; needs = 1 ∷ 2 ∷ []; adds = 0 ∷ []; deletes = []; changes = (0, negsuc 0) ∷ []; cost = 1 }
        ∷ record { step = record { action = 1; objects = [] }; needs = 0 ∷ []; adds = []; deletes = 0 ∷ []; changes = (1, pos 4) ∷ []; cost = 1 } ∷ [] }
{
    let first = step(rt, 0, &[1, 2], &[0], &[], (0, -1));
    let second = step(rt, 1, &[0], &[], &[0], (1, 4));
    let steps = Vec::from_array(rt.alloc(), [first, second]).expect(rt, "memory");
    Items::from_vec(steps)
}

/// The state at the start: the fact is false, and the values are 3 and -1.
fn start(rt: &(impl Abort + AllocGlobal)) -> FlatState
    ensures { result ≡ record { facts = []; values = pos 3 ∷ negsuc 0 ∷ [] } }
{
    FlatState {
        facts: Items::new(rt.alloc()),
        values: Items::from_slice(rt.alloc(), &[3, -1]).expect(rt, "memory"),
    }
}

/// The first step needs that the fact is false and that the form is at least 0, makes the fact true and lowers the first
/// value by 1; the second one needs the fact, makes it false and raises the second value by 4. The goal is the fact and the
/// form. Each state has one applicable step, and the only plan is the first step, the second one and the first one again.
fn parts(rt: &(impl Abort + AllocGlobal)) -> Parts
    ensures flat { IsFlat result }
    ensures subgoals { length result.subgoals ≡ 3 }
    ensures values { length result.values ≡ 2 }
    ensures steps { length result.steps ≡ 2 }
{
    Parts {
        unit: 1,
        facts: facts(rt),
        values: values(rt),
        start: start(rt),
        subgoals: subgoals(rt),
        steps: both_steps(rt),
        goal: numbers(rt, &[0, 2]),
    }
}

/// The small flat task.
pub fn flat(rt: &(impl Abort + AllocGlobal)) -> Flat
    ensures subgoals { length result.subgoals ≡ 3 }
    ensures values { length result.values ≡ 2 }
    ensures steps { length result.steps ≡ 2 }
{
    Flat::new(rt.alloc(), parts(rt)).expect(rt, "memory")
}

/// What holds at the start.
fn starts(flat: &Flat) -> bool
    requires subgoals { length flat.now.subgoals ≡ 3 }
    requires steps { length flat.now.steps ≡ 2 }
{
    let start = &flat.parts().start;
    !start.has(0)
        && flat.holds(1, start)
        && !flat.holds(0, start)
        && !flat.is_goal(start)
        && !flat.applicable(1, start)
}

/// Whether the state is that after the first step.
fn is_after(state: &FlatState) -> bool {
    state.facts.as_slice() == [0].as_slice() && state.values.as_slice() == [2, -1].as_slice()
}

/// The first step, into a new state and into one that is there.
fn steps(rt: &(impl Abort + AllocGlobal), flat: &Flat) -> bool
    requires { length flat.now.steps ≡ 2 }
{
    let start = &flat.parts().start;
    if !flat.applicable(0, start) {
        return false;
    }
    let mut after = flat.after(rt.alloc(), 0, start).expect(rt, "memory");
    let is_new = is_after(&after);
    flat.after_in(rt.alloc(), 0, start, &mut after)
        .expect(rt, "memory");
    is_new && is_after(&after)
}

/// What the form is at the start, and what the steps change it by.
fn changes(flat: &Flat, form: &Form) -> bool
    requires steps { length flat.now.steps ≡ 2 }
    requires form { IsForm (length flat.now.values) form.now }
{
    let start = form.value(&flat.parts().start);
    let first = flat.net(0, form);
    let second = flat.net(1, form);
    start == 0 && first == -2 && second == 4
}

/// The subgoals that the steps achieve, in a list of its own and in one that is there.
fn achieves(rt: &(impl Abort + AllocGlobal), flat: &Flat) -> bool
    requires { length flat.now.steps ≡ 2 }
{
    let mut achieved = flat.achieved(rt.alloc(), 0).expect(rt, "memory");
    let is_first = achieved.as_slice() == [0].as_slice();
    flat.achieved_in(1, &mut achieved).expect(rt, "memory");
    is_first && achieved.as_slice() == [1, 2].as_slice()
}

/// Which step achieves which subgoal, by number.
fn achieves_by(flat: &Flat) -> bool {
    flat.achieves(1, 2) && !flat.achieves(0, 2) && !flat.achieves(1, 3)
}

/// A number is put in at its place, and once.
fn puts_in(rt: &(impl Abort + AllocGlobal)) -> bool {
    let mut numbers = Vec::new(rt.alloc());
    put_in(&mut numbers, 7).expect(rt, "memory");
    put_in(&mut numbers, 2).expect(rt, "memory");
    put_in(&mut numbers, 9).expect(rt, "memory");
    put_in(&mut numbers, 7).expect(rt, "memory");
    numbers.as_slice() == [2, 7, 9].as_slice()
}

#[test]
fn steps_are_taken(rt: HostRuntime) {
    let flat = flat(&rt);
    assert!(rt; starts(&flat) && steps(&rt, &flat));
    assert!(rt; changes(&flat, &form(&rt)));
    assert!(rt; achieves(&rt, &flat) && achieves_by(&flat));
    assert!(rt; puts_in(&rt));
}
