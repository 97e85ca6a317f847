//! Lists of steps on the small flat task, and its text.
use crate::flat::flat;
use np_check::{PlanEnd, check_plan};
use np_list::list_text;
use np_model::{Action, Name, Objects, Signature, Step, TaskParts, TypeName};
use sqlite_items::Items;
use std::process::Abort;

/// Lists of steps by their actions, and what they come to.
const ENDS: &[(&[u32], PlanEnd)] = &[
    (&[0, 1, 0], PlanEnd::Goal(3)),
    (&[], PlanEnd::NoGoal),
    (&[0, 1], PlanEnd::NoGoal),
    (&[1], PlanEnd::Stuck(1)),
    (&[0, 0, 1], PlanEnd::Stuck(2)),
    (&[0, 1, 0, 7], PlanEnd::Stuck(4)),
];

/// Steps of these actions, without objects.
fn steps(rt: &(impl Abort + AllocGlobal), actions: &[u32]) -> Vec<Step> {
    let mut steps = Vec::new(rt.alloc());
    for action in actions {
        let objects = Objects::new(rt.alloc());
        let step = Step {
            action: *action,
            objects,
        };
        steps.push(step).expect(rt, "memory");
    }
    steps
}

#[test]
fn lists_of_steps_come_to_their_ends(rt: HostRuntime) {
    let flat = flat(&rt);
    for (actions, end) in ENDS {
        let steps = steps(&rt, actions);
        assert!(&rt; steps.len() <= 4, "a short list");
        let given = check_plan(rt.alloc(), &flat, steps.as_slice()).expect(&rt, "memory");
        assert_eq!(&rt; given, *end, "{actions:?}");
    }
}

/// A name.
fn name(rt: &(impl Abort + AllocGlobal), text: &str) -> Name {
    Name::new(String::from_str(rt.alloc(), text).expect(rt, "memory"))
}

/// One more declaration without parameters.
fn declare(rt: &(impl Abort + AllocGlobal), symbols: &mut Items<Signature>, text: &str) {
    let signature = Signature {
        name: name(rt, text),
        parameters: Items::new(rt.alloc()),
        fixed: false,
    };
    symbols.push(signature).expect(rt, "memory");
}

/// One more action that says nothing.
fn act(rt: &(impl Abort + AllocGlobal), actions: &mut Items<Action>, text: &str) {
    let action = Action {
        name: name(rt, text),
        parameters: Items::new(rt.alloc()),
        needs: Items::new(rt.alloc()),
        effects: Items::new(rt.alloc()),
    };
    actions.push(action).expect(rt, "memory");
}

/// The names of the small flat task: a predicate, two functions and two actions.
fn names(rt: &(impl Abort + AllocGlobal)) -> TaskParts {
    let mut predicates = Items::new(rt.alloc());
    declare(rt, &mut predicates, "p");
    let mut functions = Items::new(rt.alloc());
    declare(rt, &mut functions, "x");
    declare(rt, &mut functions, "y");
    let mut actions = Items::new(rt.alloc());
    act(rt, &mut actions, "a");
    act(rt, &mut actions, "b");
    TaskParts {
        types: Items::<TypeName>::new(rt.alloc()),
        objects: Items::new(rt.alloc()),
        predicates,
        functions,
        actions,
        atoms: Items::new(rt.alloc()),
        values: Items::new(rt.alloc()),
        goal: Items::new(rt.alloc()),
        metric: None,
    }
}

/// Its text.
const LISTED: &str = "unit 1
fact 0 (p) false
value 0 (x) 3
value 1 (y) -1
subgoal 0 fact 0
subgoal 1 not 0
subgoal 2 form -5 2*0 1*1
step 0 (a) cost 1 needs 1 2 adds 0 deletes changes 0:-1
step 1 (b) cost 1 needs 0 adds deletes 0 changes 1:4
goal 0 2
";

#[test]
fn a_flat_task_is_listed(rt: HostRuntime) {
    let text = list_text(rt.alloc(), &names(&rt), &flat(&rt)).expect(&rt, "memory");
    assert_eq!(&rt; text.as_str(), LISTED);
}
