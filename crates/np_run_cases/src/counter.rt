//! The counter of the definitions, which is a task, through the call that takes tasks: `inc` adds 3 to x and 2 to the cost,
//! `dec` takes 1 from x where it is at least 1, and adds 1 to the cost; the goal is x = 4.
ghost use Rattle.std.specs.Prelude.{◌≡◌, pos, true, false, All, IsTrue, [], ◌∷◌, codes};
ghost use Rattle.np_frac.specs.Fractions.{whole};
ghost use Rattle.np_model.specs.declared.task.Op.TheVariants.{AtLeast};
ghost use Rattle.np_model.specs.declared.task.Sum.TheVariants as expr;
ghost use Rattle.np_model.specs.declared.task.Cond.TheVariants as cond;
ghost use Rattle.np_model.specs.Steps.{is_step};
ghost use Rattle.np_model.proofs.Counter.{counter, changed};

use crate::building::{items, steps};
use crate::ends::{End, end_of};
use np_frac::{Frac, Scalar};
use np_model::{
    Action, Cond, Eff, Name, Objects, Op, Signature, Step, Sum, Task, TaskParts, Term, TypeName,
    is_step,
};
use np_run::run;
use sqlite_items::Items;
use std::process::Abort;

/// A whole number.
fn number(rt: &(impl Abort + AllocGlobal), n: u32) -> Frac
    ensures { result ≡ whole (pos n) }
{
    <Frac as Scalar>::whole(i128::from(n)).expect(rt, "a number")
}

/// A name.
fn name(rt: &(impl Abort + AllocGlobal), text: &str) -> Name
    ensures { result ≡ text.now }
{
    Name::new(String::from_str(rt.alloc(), text).expect(rt, "memory"))
}

/// An effect that adds a number to the value of a function without parameters, or takes it from it.
fn changed(rt: &(impl Abort + AllocGlobal), up: bool, function: u32, n: u32) -> Eff
    ensures { result ≡ changed up function n }
{
    Eff::Change(
        up,
        function,
        Items::new(rt.alloc()),
        Sum::Number(number(rt, n)),
    )
}

/// A comparison of x with a number.
fn compared(rt: &(impl Abort + AllocGlobal), op: Op, n: u32) -> Cond
    ensures { result ≡ cond.Compare op (expr.Value 0 []) (expr.Number (whole (pos n))) }
{
    let x = Sum::Value(0, Items::new(rt.alloc()));
    Cond::Compare(op, x, Sum::Number(number(rt, n)))
}

/// The action `inc`.
fn inc(rt: &(impl Abort + AllocGlobal)) -> Action
    ensures { result ≡ record { name = codes "inc"; parameters = []; needs = []; effects = changed true 0 3 ∷ changed true 1 2 ∷ [] } }
{
    Action {
        name: name(rt, "inc"),
        parameters: Items::new(rt.alloc()),
        needs: Items::new(rt.alloc()),
        effects: items(rt, [changed(rt, true, 0, 3), changed(rt, true, 1, 2)]),
    }
}

/// The action `dec`.
fn dec(rt: &(impl Abort + AllocGlobal)) -> Action
    ensures { result ≡ record { name = codes "dec"; parameters = []; needs = cond.Compare AtLeast (expr.Value 0 []) (expr.Number (whole (pos 1))) ∷ []; effects = changed false 0 1 ∷ changed true 1 1 ∷ [] } }
{
    Action {
        name: name(rt, "dec"),
        parameters: Items::new(rt.alloc()),
        needs: items(rt, [compared(rt, Op::AtLeast, 1)]),
        effects: items(rt, [changed(rt, false, 0, 1), changed(rt, true, 1, 1)]),
    }
}

/// A function without parameters.
fn function(rt: &(impl Abort + AllocGlobal), text: &str) -> Signature
    ensures { result ≡ record { name = text.now; parameters = []; fixed = false } }
{
    Signature {
        name: name(rt, text),
        parameters: Items::new(rt.alloc()),
        fixed: false,
    }
}

/// The type `object`.
fn object(rt: &(impl Abort + AllocGlobal)) -> TypeName
    ensures { result ≡ record { name = codes "object"; parent = 0 } }
{
    TypeName {
        name: name(rt, "object"),
        parent: 0,
    }
}

/// The term x.
fn x(rt: &(impl Abort + AllocGlobal)) -> Term
    ensures { result ≡ record { function = 0; objects = [] } }
{
    Term {
        function: 0,
        objects: Objects::new(rt.alloc()),
    }
}

/// The parts of the counter.
fn counter(rt: &(impl Abort + AllocGlobal)) -> TaskParts
    ensures { result ≡ counter }
{
    TaskParts {
        types: items(rt, [object(rt)]),
        objects: Items::new(rt.alloc()),
        predicates: Items::new(rt.alloc()),
        functions: items(rt, [function(rt, "x"), function(rt, "c")]),
        actions: items(rt, [inc(rt), dec(rt)]),
        atoms: Items::new(rt.alloc()),
        values: items(rt, [(x(rt), number(rt, 0))]),
        goal: items(rt, [compared(rt, Op::Equal, 4)]),
        metric: Some(Sum::Value(1, Items::new(rt.alloc()))),
    }
}

/// The counter.
#[tactic(auto, using(crate::proofs::CounterTask::counter_stands))]
fn counter_task(rt: &(impl Abort + AllocGlobal)) -> Task {
    Task::new(counter(rt))
}

/// Whether each of these is a step of the task.
fn all_are_steps(task: &TaskParts, steps: &[Step]) -> bool
    ensures { IsTrue result → All (λ step. IsTrue (is_step task.now step)) steps.now }
{
    for step in steps {
        if !is_step(task, step) {
            return false;
        }
    }
    true
}

/// What steps of these actions come to; None where one isn't a step of the counter.
fn end_after(rt: &(impl Abort + AllocGlobal), actions: &[u32]) -> Option<End> {
    let task = counter_task(rt);
    let steps = steps(rt, actions);
    if !all_are_steps(task.parts(), steps.as_slice()) {
        return None;
    }
    end_of(run(rt.alloc(), &task, steps.as_slice()))
}

/// `inc`, `inc`, `dec`, `dec` cost 2 + 2 + 1 + 1 and end at x = 4.
#[test]
fn the_counter_is_run(rt: HostRuntime) {
    assert!(rt; end_after(&rt, &[0, 0, 1, 1]) == Some(End::Goal(6, 1)));
    assert!(rt; end_after(&rt, &[1]) == Some(End::Stuck(1)));
    assert!(rt; end_after(&rt, &[]) == Some(End::NoGoal));
    assert!(rt; end_after(&rt, &[2]) == None);
}
