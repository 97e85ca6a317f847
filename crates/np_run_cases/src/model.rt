//! Planning by names.
ghost use Rattle.std.specs.Prelude.{◌≡◌};
ghost use Rattle.np_run_cases.specs.Least.{least};

use indexmap::IndexMap;
use np_frac::Frac;
use np_model::{
    Action, Atom, AtomSet, Name, Object, Objects, Op, Ref, Signature, Step, Task, TaskParts, Term,
    TypeName, ValueMap, atom_of, is_fixed, is_step, is_under, object_of, objects_of, parent_of,
    takes, term_of, type_of, with_sign,
};
use sqlite_items::Items;
use std::process::Abort;

/// A name.
fn name(rt: &(impl Abort + AllocGlobal), text: &str) -> Name
    ensures { result ≡ text.now }
{
    Name::new(String::from_str(rt.alloc(), text).expect(rt, "memory"))
}

/// A type of this name, under the type of this number.
fn under(rt: &(impl Abort + AllocGlobal), text: &str, parent: u32) -> TypeName
    ensures { result ≡ record { name = text.now; parent = parent } }
{
    TypeName {
        name: name(rt, text),
        parent,
    }
}

/// The parts of a task that has the type `object` and nothing else.
fn least(rt: &(impl Abort + AllocGlobal)) -> TaskParts
    ensures { result ≡ least }
{
    let mut types = Items::new(rt.alloc());
    types.push(under(rt, "object", 0)).expect(rt, "memory");
    TaskParts {
        types,
        objects: Items::new(rt.alloc()),
        predicates: Items::new(rt.alloc()),
        functions: Items::new(rt.alloc()),
        actions: Items::new(rt.alloc()),
        atoms: Items::new(rt.alloc()),
        values: Items::new(rt.alloc()),
        goal: Items::new(rt.alloc()),
        metric: None,
    }
}

/// The least task.
#[tactic(auto, using(crate::proofs::LeastTask::least_stands))]
fn least_task(rt: &(impl Abort + AllocGlobal)) -> Task {
    Task::new(least(rt))
}

/// A task has its parts, and a step of it would have an action.
fn has_parts(task: &Task, step: &Step) -> bool {
    task.parts().types.len() == 1 && !is_step(task.parts(), step)
}

/// A step.
fn step(rt: &(impl Abort + AllocGlobal), action: u32, objects: &[u32]) -> Step {
    Step {
        action,
        objects: Objects::from_slice(rt.alloc(), objects).expect(rt, "memory"),
    }
}

/// An object of this name and type.
fn object(rt: &(impl Abort + AllocGlobal), of: u32) -> Object {
    Object {
        name: name(rt, "o"),
        of,
    }
}

/// The least task's parts with one object.
fn with_object(rt: &(impl Abort + AllocGlobal)) -> TaskParts {
    let mut parts = least(rt);
    parts.objects.push(object(rt, 0)).expect(rt, "memory");
    parts
}

/// An action with one parameter.
fn action(rt: &(impl Abort + AllocGlobal)) -> Action {
    Action {
        name: name(rt, "go"),
        parameters: Items::from_slice(rt.alloc(), &[0]).expect(rt, "memory"),
        needs: Items::new(rt.alloc()),
        effects: Items::new(rt.alloc()),
    }
}

/// An action with a parameter takes an object of the task, and neither none nor one that isn't there.
fn takes_one(parts: &TaskParts, action: &Action) -> bool {
    takes(parts, action, &[0]) && !takes(parts, action, &[]) && !takes(parts, action, &[1])
}

/// References stand for one object each.
fn binds_all(rt: &(impl Abort + AllocGlobal)) -> bool {
    let refs = [Ref::Object(4), Ref::Parameter(0)];
    let objects = objects_of(rt.alloc(), &[7, 8], &refs).expect(rt, "memory");
    objects.as_slice() == [4, 7].as_slice()
}

/// A name is a key by its text.
fn names_are_keys(rt: &(impl Abort + AllocGlobal)) -> bool {
    let mut numbers = IndexMap::new(rt.alloc());
    numbers.insert(name(rt, "inc"), 1).expect(rt, "memory");
    let (inc, other) = (name(rt, "inc"), name(rt, "in"));
    inc.as_str() == "inc" && numbers.contains_key(&inc) && !numbers.contains_key(&other)
}

/// Whether a comparison has this one that turns it round, and holds so of 1 and 2, of 2 and 2, and of 2 and 1.
fn compares(one: &Frac, two: &Frac, op: Op, turned: Op, answers: (bool, bool, bool)) -> bool {
    op.turned() == turned
        && op.compares(one, two) == answers.0
        && op.compares(two, two) == answers.1
        && op.compares(two, one) == answers.2
}

/// All comparisons.
fn all_compare(one: &Frac, two: &Frac) -> bool {
    compares(one, two, Op::Less, Op::AtLeast, (true, false, false))
        && compares(one, two, Op::Greater, Op::AtMost, (false, false, true))
        && compares(one, two, Op::AtMost, Op::Greater, (true, true, false))
        && compares(one, two, Op::AtLeast, Op::Less, (false, true, true))
        && compares(one, two, Op::Equal, Op::Equal, (false, true, false))
}

/// Signs.
fn signs() -> bool {
    with_sign(true, true)
        && !with_sign(true, false)
        && !with_sign(false, true)
        && with_sign(false, false)
}

/// The objects of a step and the references of a condition.
const STEP: &[u32] = &[7, 8];

const REFS: &[Ref] = &[Ref::Parameter(1), Ref::Object(4)];

/// References are taken in their order, to the objects of a step or to themselves.
fn binds(rt: &(impl Abort + AllocGlobal)) -> bool {
    let atom = atom_of(rt.alloc(), STEP, 3, REFS).expect(rt, "memory");
    let term = term_of(rt.alloc(), STEP, 2, REFS).expect(rt, "memory");
    atom.predicate == 3
        && atom.objects.as_slice() == [8, 4].as_slice()
        && term.function == 2
        && term.objects == atom.objects
}

/// Copies are equal to what they are copies of.
fn copies(rt: &(impl Abort + AllocGlobal)) -> bool {
    let step = step(rt, 5, &[8]);
    let same = step.copy(rt.alloc()).expect(rt, "memory");
    same == step && same.action == 5 && same.objects.as_slice() == [8].as_slice()
}

/// Types: `object`, and two that lie under each other.
fn types_lead(types: &[TypeName]) -> bool {
    parent_of(types, 1) == 2
        && parent_of(types, 9) == 9
        && is_under(types, 1, 2)
        && is_under(types, 0, 0)
        && !is_under(types, 1, 0)
        && !is_under(types, 0, 1)
}

/// The same over a list of these types.
fn types_are_under(rt: &(impl Abort + AllocGlobal)) -> bool {
    let types = [under(rt, "object", 0), under(rt, "x", 2), under(rt, "y", 1)];
    types_lead(&types)
}

/// A static symbol.
fn signature(rt: &(impl Abort + AllocGlobal)) -> Signature {
    Signature {
        name: name(rt, "f"),
        parameters: Items::new(rt.alloc()),
        fixed: true,
    }
}

/// A static symbol, and one that the list doesn't have; the type of an object.
fn symbols(signatures: &[Signature], objects: &[Object]) -> bool {
    is_fixed(signatures, 0)
        && !is_fixed(signatures, 1)
        && type_of(objects, 0) == Some(3)
        && type_of(objects, 1) == None
}

/// The same over lists of one item.
fn symbols_are_known(rt: &(impl Abort + AllocGlobal)) -> bool {
    let (signatures, objects) = ([signature(rt)], [object(rt, 3)]);
    symbols(&signatures, &objects)
}

/// A ground term of function 0.
fn term(rt: &(impl Abort + AllocGlobal), object: u32) -> Term {
    Term {
        function: 0,
        objects: Objects::from_slice(rt.alloc(), &[object]).expect(rt, "memory"),
    }
}

/// A ground atom with one object.
fn atom(rt: &(impl Abort + AllocGlobal), predicate: u32, object: u32) -> Atom {
    Atom {
        predicate,
        objects: Objects::from_slice(rt.alloc(), &[object]).expect(rt, "memory"),
    }
}

/// Copies of a ground term and of a ground atom are equal to them.
fn ground_copies(rt: &(impl Abort + AllocGlobal)) -> bool {
    let (term, atom) = (term(rt, 3), atom(rt, 2, 9));
    let same_term = term.copy(rt.alloc()).expect(rt, "memory");
    let same_atom = atom.copy(rt.alloc()).expect(rt, "memory");
    same_term == term && same_atom == atom
}

/// Whether the atom of this predicate and object is in a set of one atom.
fn is_found(rt: &(impl Abort + AllocGlobal), predicate: u32, object: u32) -> bool {
    let atoms = [atom(rt, 0, 1)];
    let set = AtomSet::new(rt.alloc(), &atoms).expect(rt, "memory");
    set.has(&atom(rt, predicate, object))
}

/// The value of the term of this object, where the term of object 3 is 2 first, and then 1.
fn found(rt: &(impl Abort + AllocGlobal), one: Frac, two: Frac, object: u32) -> Option<Frac> {
    let values = [(term(rt, 3), two), (term(rt, 3), one)];
    let map = ValueMap::new(rt.alloc(), &values).expect(rt, "memory");
    map.get(&term(rt, object))
}

#[test]
fn tasks_are_asked(rt: HostRuntime) {
    assert!(rt; has_parts(&least_task(&rt), &step(&rt, 0, &[])));
    assert!(rt; takes_one(&with_object(&rt), &action(&rt)));
    assert!(rt; types_are_under(&rt) && symbols_are_known(&rt) && names_are_keys(&rt));
}

#[test]
fn references_are_taken(rt: HostRuntime) {
    assert!(rt; object_of(STEP, Ref::Parameter(1)) == 8);
    assert!(rt; binds_all(&rt) && binds(&rt) && copies(&rt) && ground_copies(&rt));
    assert!(rt; is_found(&rt, 0, 1) && !is_found(&rt, 0, 2) && !is_found(&rt, 1, 1));
}

#[test]
fn values_are_compared(rt: HostRuntime) {
    let one = Frac::of(1, 1).expect(&rt, "1");
    let two = Frac::of(4, 2).expect(&rt, "2");
    assert!(rt; signs() && all_compare(&one, &two));
    assert!(rt; found(&rt, one, two, 3) == Some(two) && found(&rt, one, two, 4) == None);
}
