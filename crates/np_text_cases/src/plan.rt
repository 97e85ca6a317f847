//! Plans that are read, those that are refused, with the place, and plans that are printed.
ghost use Rattle.std.specs.Prelude.{◌≡◌, [], ◌∷◌};
ghost use Rattle.np_text_cases.specs.Errand.{errand};

use np_model::{Action, Name, Object, Objects, Step, Task, TaskParts, TypeName, is_step};
use np_plan::{PlanFault, print_plan, read_plan};
use sqlite_items::Items;
use std::process::Abort;

/// A name.
fn name(rt: &(impl Abort + AllocGlobal), text: &str) -> Name
    ensures { result ≡ text.now }
{
    Name::new(String::from_str(rt.alloc(), text).expect(rt, "memory"))
}

/// A type under `object`.
fn type_name(rt: &(impl Abort + AllocGlobal), text: &str) -> TypeName
    ensures { result ≡ record { name = text.now; parent = 0 } }
{
    TypeName {
        name: name(rt, text),
        parent: 0,
    }
}

/// An object of this type.
fn object(rt: &(impl Abort + AllocGlobal), text: &str, of: u32) -> Object
    ensures { result ≡ record { name = text.now; of = of } }
{
    Object {
        name: name(rt, text),
        of,
    }
}

/// An action with these parameters.
fn action(rt: &(impl Abort + AllocGlobal), text: &str, parameters: &[u32]) -> Action
    ensures { result ≡ record { name = text.now; parameters = parameters.now; needs = []; effects = [] } }
{
    Action {
        name: name(rt, text),
        parameters: Items::from_slice(rt.alloc(), parameters).expect(rt, "memory"),
        needs: Items::new(rt.alloc()),
        effects: Items::new(rt.alloc()),
    }
}

/// Two items.
fn two<T: Drop>(rt: &(impl Abort + AllocGlobal), first: T, second: T) -> Items<T>
    ensures { result ≡ first ∷ second ∷ [] }
{
    let mut items = Items::new(rt.alloc());
    items.push(first).expect(rt, "memory");
    items.push(second).expect(rt, "memory");
    items
}

/// The parts of a task with an action without parameters, and one that takes a thing and an object.
fn parts(rt: &(impl Abort + AllocGlobal)) -> TaskParts
    ensures { result ≡ errand }
{
    TaskParts {
        types: two(rt, type_name(rt, "object"), type_name(rt, "thing")),
        objects: two(rt, object(rt, "a", 1), object(rt, "b", 0)),
        predicates: Items::new(rt.alloc()),
        functions: Items::new(rt.alloc()),
        actions: two(rt, action(rt, "inc", &[]), action(rt, "move", &[1, 0])),
        atoms: Items::new(rt.alloc()),
        values: Items::new(rt.alloc()),
        goal: Items::new(rt.alloc()),
        metric: None,
    }
}

/// The task.
#[tactic(auto, using(crate::proofs::ErrandTask::errand_stands))]
fn task(rt: &(impl Abort + AllocGlobal)) -> Task {
    Task::new(parts(rt))
}

/// A step by its action and its objects.
type Wanted<'a> = (u32, &'a [u32]);

const INC: Wanted<'_> = (0, &[]);

const AB: Wanted<'_> = (1, &[0, 1]);

const AA: Wanted<'_> = (1, &[0, 0]);

/// Whether the steps are these.
fn are_steps(steps: &[Step], wanted: &[Wanted<'_>]) -> bool {
    for (step, row) in steps.iter().zip(wanted) {
        if step.action != row.0 || step.objects.as_slice() != row.1 {
            return false;
        }
    }
    steps.len() == wanted.len()
}

/// What a text is: these steps, or a fault at a line and a column.
#[derive(Clone, Copy, Debug)]
enum Answer {
    Steps(&'static [Wanted<'static>]),
    Syntax(usize, usize),
    Wide(usize, usize),
    Order(usize, usize),
    Unknown(usize, usize),
}

const ROWS: &[(&str, Answer)] = &[
    ("", Answer::Steps(&[])),
    (" ; nothing", Answer::Steps(&[])),
    ("(inc)", Answer::Steps(&[INC])),
    (
        "(inc) (MOVE a B); c)\n\t(Inc)",
        Answer::Steps(&[INC, AB, INC]),
    ),
    (
        "0: (inc) 0.5: (move a a)\n; x\n 1:(inc)",
        Answer::Steps(&[INC, AA, INC]),
    ),
    ("0.10:(inc)0.2:(inc)", Answer::Steps(&[INC, INC])),
    ("(inc", Answer::Syntax(1, 5)),
    ("(inc)\n(", Answer::Syntax(2, 2)),
    ("()", Answer::Syntax(1, 2)),
    ("(and)", Answer::Syntax(1, 2)),
    ("(inc ?x)", Answer::Syntax(1, 6)),
    ("(inc) )", Answer::Syntax(1, 7)),
    ("(inc) %", Answer::Syntax(1, 7)),
    ("0 (inc)", Answer::Syntax(1, 3)),
    ("0:go", Answer::Syntax(1, 2)),
    (": (inc)", Answer::Syntax(1, 1)),
    ("-1: (inc)", Answer::Syntax(1, 1)),
    ("(inc) 1: (inc)", Answer::Syntax(1, 7)),
    ("1: (inc) (inc)", Answer::Syntax(1, 10)),
    ("1: (inc) -2: (inc)", Answer::Syntax(1, 10)),
    (
        "0: (inc) 00000000000000000000.0000000000000000001: (inc)",
        Answer::Wide(1, 10),
    ),
    (
        "00000000000000000000.0000000000000000001: (go) )",
        Answer::Wide(1, 1),
    ),
    (
        "-00000000000000000000.0000000000000000001: (inc)",
        Answer::Syntax(1, 1),
    ),
    (
        "(00000000000000000000.0000000000000000001)",
        Answer::Syntax(1, 2),
    ),
    (
        "0: (inc) 0000000000000000000.0000000000000000001: (inc)",
        Answer::Steps(&[INC, INC]),
    ),
    ("0.0: (inc)\n0: (inc)", Answer::Order(2, 1)),
    ("1: (inc) 1.0: (inc)", Answer::Order(1, 10)),
    ("2: (inc)\n 1: (go)", Answer::Order(2, 2)),
    ("(inc a)", Answer::Unknown(1, 1)),
    ("(go)", Answer::Unknown(1, 1)),
    ("(move a)", Answer::Unknown(1, 1)),
    ("(inc)\n (move b a)", Answer::Unknown(2, 2)),
    ("(inc)\n(move a c)\n(go)", Answer::Unknown(2, 1)),
    ("1: (go)\n1: (inc)", Answer::Unknown(1, 4)),
];

/// Whether a text's answer is this one.
fn is_answer(read: &Result<Vec<Step>, PlanFault>, wanted: Answer) -> bool {
    match (read, wanted) {
        (Ok(steps), Answer::Steps(wanted)) => are_steps(steps.as_slice(), wanted),
        (Err(PlanFault::At(place)), Answer::Syntax(line, column)) => {
            place.line == line && place.column == column
        }
        (Err(PlanFault::NumberWide(place)), Answer::Wide(line, column)) => {
            place.line == line && place.column == column
        }
        (Err(PlanFault::StampOrder(place)), Answer::Order(line, column)) => {
            place.line == line && place.column == column
        }
        (Err(PlanFault::UnknownStep(place)), Answer::Unknown(line, column)) => {
            place.line == line && place.column == column
        }
        _ => false,
    }
}

/// Whether all rows have their answers.
fn all_rows(rt: &impl AllocGlobal, task: &Task) -> bool {
    for row in ROWS {
        let read = read_plan(rt.alloc(), task, row.0.as_bytes());
        if !is_answer(&read, row.1) {
            return false;
        }
    }
    true
}

/// Whether each prefix of a text of two lines stops at its end, save that of no line and that of the first line.
fn prefixes_stop(rt: &impl AllocGlobal, task: &Task, text: &[u8], first: usize) -> bool {
    for length in 0..text.len() {
        let good = match read_plan(rt.alloc(), task, &text[..length]) {
            Ok(steps) => steps.len() == 0 && length == 0 || steps.len() == 1 && length == first,
            Err(PlanFault::At(place)) => place.offset == length && length != 0 && length != first,
            Err(_) => false,
        };
        if !good {
            return false;
        }
    }
    true
}

/// A step.
fn step(rt: &(impl Abort + AllocGlobal), wanted: Wanted<'_>) -> Step {
    Step {
        action: wanted.0,
        objects: Objects::from_slice(rt.alloc(), wanted.1).expect(rt, "memory"),
    }
}

/// Whether two steps are printed so, and read back.
#[tactic(auto, using(np_model::proofs::Distinct::two))]
fn is_printed(
    rt: &(impl Abort + AllocGlobal),
    task: &Task,
    steps: [Step; 2],
    wanted: &str,
) -> bool {
    let [first, second] = &steps;
    if !is_step(task.parts(), first) || !is_step(task.parts(), second) {
        return false;
    }
    let text = print_plan(rt.alloc(), task, &steps).expect(rt, "memory");
    text.as_slice() == wanted.as_bytes()
}

#[test]
fn plans_are_read(rt: HostRuntime) {
    assert!(rt; all_rows(&rt, &task(&rt)));
    assert!(rt; prefixes_stop(&rt, &task(&rt), b"(inc)(move a b)", 5));
    assert!(rt; prefixes_stop(&rt, &task(&rt), b"1:(inc)2:(move a b)", 7));
}

#[test]
fn plans_are_printed(rt: HostRuntime) {
    let steps = [step(&rt, INC), step(&rt, AB)];
    assert!(rt; is_printed(&rt, &task(&rt), steps, "(inc)\n(move a b)\n"));
}
