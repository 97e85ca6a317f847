//! Lists of steps whose answers were worked by hand.
use crate::building::{action, boxed, frac, items, nothing, objects, steps};
use crate::ends::End::{Goal, NoCost, NoGoal, Stuck, Wide};
use crate::ends::{End, end_of};
use crate::rows::Change::{Adds, Deletes, Down, Up};
use crate::rows::Expr::{Number, Over, Plus, Times, Value};
use crate::rows::Need::{Atom, Compare, Is};
use crate::slow::slow_run;
use np_frac::Frac;
use np_model::{Action, Cond, Eff, Op, Sum, TaskParts, Term};
use np_run::run_parts;
use sqlite_items::Items;
use std::process::Abort;

/// A value that is 0 at the start.
const COUNT: u32 = 0;

/// The cost, which has no value unless the metric reads it, and is 0 then.
const COST: u32 = 1;

/// Another such value.
const UNSET: u32 = 2;

/// A static value, which is 7.
const SEVEN: u32 = 3;

/// A static value, which is 0.
const ZERO: u32 = 4;

/// A value that is 2 at the start.
const STOCK: u32 = 5;

/// A value that is `WIDE` at the start: twice as much, and its square, are too wide.
const LARGE: u32 = 6;

/// A value that is 0 at the start.
const LEVEL: u32 = 7;

/// A value that is less than 0 by `WIDE` at the start.
const DEEP: u32 = 8;

/// Ten to the power 38. The widest numbers are less than twice that.
const WIDE: i128 = 100_000_000_000_000_000_000_000_000_000_000_000_000;

/// The values at the start.
const STARTS: &[(u32, i128)] = &[
    (COUNT, 0),
    (SEVEN, 7),
    (ZERO, 0),
    (STOCK, 2),
    (LARGE, WIDE),
    (LEVEL, 0),
    (DEEP, -WIDE),
];

/// An expression over values.
#[derive(Clone, Copy)]
enum Expr {
    Number(i128, i128),
    Value(u32),
    Plus(u32, u32),
    Times(u32, u32),
    Over(u32, u32),
}

/// A condition: the only atom is true, a value is this number, or expressions compare so.
#[derive(Clone, Copy)]
enum Need {
    Atom,
    Is(u32, i128),
    Compare(Op, Expr, Expr),
}

/// An effect on the only atom or on a value.
#[derive(Clone, Copy)]
enum Change {
    Adds,
    Deletes,
    Up(u32, Expr),
    Down(u32, Expr),
}

/// An action: its conditions and its effects.
type Act = (&'static [Need], &'static [Change]);

const ONE: Expr = Number(1, 1);

const WIDE_NUMBER: Expr = Number(WIDE, 1);

/// This has a value, but none that can be computed.
const TOO_WIDE: Expr = Times(LARGE, LARGE);

const INC: Act = (&[], &[Up(COUNT, Number(3, 1)), Up(COST, Number(2, 1))]);

const DEC: Act = (
    &[Compare(Op::AtLeast, Value(COUNT), ONE)],
    &[Down(COUNT, ONE), Up(COST, ONE)],
);

const ADD_DELETE: Act = (&[], &[Adds, Deletes]);

const DELETE_ADD: Act = (&[], &[Deletes, Adds]);

const DELETE: Act = (&[], &[Deletes]);

/// Two increases and a decrease of one value: 4 in all.
const MIXED: Act = (
    &[],
    &[
        Up(COUNT, Number(5, 1)),
        Down(COUNT, Number(2, 1)),
        Up(COUNT, ONE),
    ],
);

/// The amounts are read in the state before.
const READ: Act = (&[], &[Up(COUNT, Number(3, 1)), Up(LEVEL, Value(COUNT))]);

const ADD_SEVEN: Act = (&[], &[Up(COUNT, Value(SEVEN))]);

const DIVIDE: Act = (&[], &[Up(COUNT, Over(SEVEN, ZERO))]);

const RAISE_UNSET: Act = (&[], &[Up(UNSET, Number(5, 1))]);

const REFUND: Act = (&[], &[Down(COST, Number(5, 2))]);

const LOWER_STOCK: Act = (&[], &[Down(STOCK, ONE)]);

/// A comparison of a value that there may not be, and what its negation is written as.
const NEED_UNSET: Act = (&[Compare(Op::AtLeast, Value(UNSET), ONE)], &[]);

const NEED_NOT_UNSET: Act = (&[Compare(Op::Less, Value(UNSET), ONE)], &[]);

/// The left side has no value, so the right one isn't computed.
const UNSET_FIRST: Act = (&[Compare(Op::Less, Value(UNSET), TOO_WIDE)], &[]);

/// The left side is computed first, and is too wide.
const WIDE_FIRST: Act = (&[Compare(Op::Less, TOO_WIDE, Value(UNSET))], &[]);

/// The second condition is computed only where the first one holds.
const GUARDED: Act = (
    &[
        Compare(Op::AtLeast, Value(COUNT), ONE),
        Compare(Op::AtLeast, TOO_WIDE, ONE),
    ],
    &[],
);

/// The amount is computed only where the changed value is there.
const UNSET_BY_WIDE: Act = (&[], &[Up(UNSET, TOO_WIDE)]);

const RAISE_LEVEL: Act = (&[], &[Up(LEVEL, WIDE_NUMBER)]);

const LOWER_LEVEL: Act = (&[], &[Down(LEVEL, WIDE_NUMBER)]);

const RAISE_BOTH: Act = (&[], &[Up(LEVEL, WIDE_NUMBER), Up(COUNT, WIDE_NUMBER)]);

const RAISE_LARGE: Act = (&[], &[Up(LARGE, WIDE_NUMBER)]);

const RAISE_DEEP: Act = (&[], &[Up(DEEP, WIDE_NUMBER)]);

/// The sum of the amounts is too wide, though the value after it wouldn't be.
const RAISE_DEEP_TWICE: Act = (&[], &[Up(DEEP, WIDE_NUMBER), Up(DEEP, WIDE_NUMBER)]);

/// The same amounts in two orders.
const UP_UP_DOWN: Act = (
    &[],
    &[
        Up(COUNT, WIDE_NUMBER),
        Up(COUNT, WIDE_NUMBER),
        Down(COUNT, WIDE_NUMBER),
    ],
);

const UP_DOWN_UP: Act = (
    &[],
    &[
        Up(COUNT, WIDE_NUMBER),
        Down(COUNT, WIDE_NUMBER),
        Up(COUNT, WIDE_NUMBER),
    ],
);

/// No metric: each step costs 1.
const STEPS: Option<Expr> = None;

const BY_COST: Option<Expr> = Some(Value(COST));

/// A sum with a term that has no value at the start.
const BY_UNSET: Option<Expr> = Some(Plus(UNSET, COST));

const BY_STOCK: Option<Expr> = Some(Over(COST, STOCK));

const BY_ZERO: Option<Expr> = Some(Over(COUNT, ZERO));

const BY_WIDE: Option<Expr> = Some(TOO_WIDE);

const BY_BOTH: Option<Expr> = Some(Plus(LEVEL, COUNT));

const BY_DEEP: Option<Expr> = Some(Value(DEEP));

/// A goal that can't be computed.
const WIDE_GOAL: Need = Compare(Op::AtLeast, TOO_WIDE, ONE);

/// The metric, the goal, the actions, the numbers of the actions that the steps are of, and what the steps come to.
type Row = (Option<Expr>, Need, &'static [Act], &'static [u32], End);

/// Rows that were worked by hand.
const ROWS: &[Row] = &[
    // Without steps nothing of the metric is computed.
    (STEPS, Is(COUNT, 0), &[], &[], Goal(0, 1)),
    (STEPS, Is(COUNT, 4), &[], &[], NoGoal),
    (STEPS, Is(UNSET, 0), &[], &[], NoGoal),
    (BY_UNSET, Is(UNSET, 0), &[], &[], Goal(0, 1)),
    (BY_ZERO, Is(COUNT, 0), &[], &[], Goal(0, 1)),
    (BY_WIDE, Is(COUNT, 0), &[], &[], Goal(0, 1)),
    // The count is 3, 6, 5, 4, and the cost 2, 4, 5, 6.
    (
        BY_COST,
        Is(COUNT, 4),
        &[INC, DEC],
        &[0, 0, 1, 1],
        Goal(6, 1),
    ),
    (BY_COST, Is(COUNT, 4), &[INC, DEC], &[0, 0, 1], NoGoal),
    (BY_COST, Atom, &[ADD_DELETE], &[0], Goal(0, 1)),
    (BY_COST, Atom, &[DELETE_ADD], &[0], Goal(0, 1)),
    (BY_COST, Atom, &[ADD_DELETE, DELETE], &[0, 1], NoGoal),
    (BY_COST, Is(COUNT, 4), &[MIXED], &[0], Goal(0, 1)),
    (STEPS, Is(COUNT, 8), &[MIXED], &[0, 0], Goal(2, 1)),
    (STEPS, Is(COUNT, 7), &[ADD_SEVEN], &[0], Goal(1, 1)),
    (STEPS, Is(LEVEL, 0), &[READ], &[0], Goal(1, 1)),
    (STEPS, Is(LEVEL, 3), &[READ], &[0, 0], Goal(2, 1)),
    // 0 + 0 at the start, then 0 + 2 and 5 + 2.
    (BY_UNSET, Is(COUNT, 3), &[INC], &[0], Goal(2, 1)),
    (
        BY_UNSET,
        Is(UNSET, 5),
        &[INC, RAISE_UNSET],
        &[0, 1],
        Goal(7, 1),
    ),
    (BY_COST, Is(COUNT, 0), &[REFUND], &[0], Goal(-5, 2)),
    (BY_COST, Is(COUNT, 3), &[REFUND, INC], &[0, 1], Goal(-1, 2)),
    // 2 / 2 and 3 / 2; 2 / 2 and 2 / 1.
    (BY_STOCK, Is(COUNT, 2), &[INC, DEC], &[0, 1], Goal(3, 2)),
    (
        BY_STOCK,
        Is(COUNT, 3),
        &[INC, LOWER_STOCK],
        &[0, 1],
        Goal(2, 1),
    ),
    // Steps that aren't applicable; the first of them has no action.
    (STEPS, Is(COUNT, 0), &[], &[0], Stuck(1)),
    (BY_COST, Is(COUNT, 0), &[DEC], &[0], Stuck(1)),
    (
        BY_COST,
        Is(COUNT, 0),
        &[INC, DEC],
        &[0, 1, 1, 1, 1],
        Stuck(5),
    ),
    (BY_COST, Is(COUNT, 0), &[DIVIDE], &[0], Stuck(1)),
    (BY_COST, Is(COUNT, 3), &[INC, DIVIDE], &[0, 1], Stuck(2)),
    (STEPS, Is(COUNT, 3), &[INC], &[0], Stuck(1)),
    (BY_COST, Is(COUNT, 0), &[RAISE_UNSET], &[0], Stuck(1)),
    (STEPS, Is(COUNT, 0), &[NEED_UNSET], &[0], Stuck(1)),
    (STEPS, Is(COUNT, 0), &[NEED_NOT_UNSET], &[0], Stuck(1)),
    (STEPS, Is(COUNT, 0), &[UNSET_FIRST], &[0], Stuck(1)),
    (STEPS, Is(COUNT, 0), &[UNSET_BY_WIDE], &[0], Stuck(1)),
    (STEPS, Is(COUNT, 0), &[GUARDED], &[0], Stuck(1)),
    // 0 / 2, 0 / 1, and then 0 / 0, which has no value.
    (BY_STOCK, Is(COUNT, 0), &[LOWER_STOCK], &[0, 0], NoCost(2)),
    (
        BY_STOCK,
        Is(COUNT, 0),
        &[LOWER_STOCK],
        &[0, 0, 1],
        NoCost(2),
    ),
    (BY_ZERO, Is(COUNT, 4), &[MIXED], &[0], NoCost(1)),
    (BY_ZERO, Is(COUNT, 0), &[DIVIDE], &[0], Stuck(1)),
    // Numbers that fit, and some that are too wide.
    (STEPS, Is(LEVEL, WIDE), &[RAISE_LEVEL], &[0], Goal(1, 1)),
    (STEPS, Is(LEVEL, WIDE), &[RAISE_LEVEL], &[0, 0], Wide(2)),
    (STEPS, Is(DEEP, WIDE), &[RAISE_DEEP], &[0, 0], Goal(2, 1)),
    (STEPS, Is(DEEP, WIDE), &[RAISE_DEEP_TWICE], &[0], Wide(1)),
    (STEPS, Is(COUNT, WIDE), &[UP_DOWN_UP], &[0], Goal(1, 1)),
    (STEPS, Is(COUNT, WIDE), &[UP_UP_DOWN], &[0], Wide(1)),
    (STEPS, Is(COUNT, 0), &[WIDE_FIRST], &[0], Wide(1)),
    (BY_COST, Is(COUNT, 3), &[INC, GUARDED], &[0, 1], Wide(2)),
    (STEPS, WIDE_GOAL, &[], &[], Wide(1)),
    (STEPS, WIDE_GOAL, &[MIXED], &[0], Wide(2)),
    // The step is computed before its cost, of which there is none; the metric at the start is computed before the step.
    (BY_ZERO, Is(COUNT, 0), &[RAISE_LARGE], &[0], Wide(1)),
    (BY_WIDE, Is(COUNT, 0), &[DEC], &[0], Wide(1)),
    // The metric is 0, then less by `WIDE`, then `WIDE`: it grows by too much.
    (
        BY_BOTH,
        Is(LEVEL, 0),
        &[LOWER_LEVEL, RAISE_BOTH],
        &[0, 1],
        Wide(2),
    ),
    // The metric grows by `WIDE` twice: the cost is too wide.
    (BY_DEEP, Is(DEEP, 0), &[RAISE_DEEP], &[0], Goal(WIDE, 1)),
    (BY_DEEP, Is(DEEP, WIDE), &[RAISE_DEEP], &[0, 0], Wide(2)),
];

/// The value of a function without parameters.
fn value(rt: &(impl Abort + AllocGlobal), function: u32) -> Sum {
    Sum::Value(function, Items::new(rt.alloc()))
}

/// An expression.
fn sum_of(rt: &(impl Abort + AllocGlobal), expr: Expr) -> Sum {
    match expr {
        Number(num, den) => Sum::Number(frac(rt, num, den)),
        Value(x) => value(rt, x),
        Plus(x, y) => Sum::Add(items(rt, [value(rt, x), value(rt, y)])),
        Times(x, y) => Sum::Mul(items(rt, [value(rt, x), value(rt, y)])),
        Over(x, y) => Sum::Div(boxed(rt, value(rt, x)), boxed(rt, value(rt, y))),
    }
}

/// A condition.
fn cond_of(rt: &(impl Abort + AllocGlobal), need: Need) -> Cond {
    match need {
        Atom => Cond::Atom(true, 0, Items::new(rt.alloc())),
        Is(x, n) => Cond::Compare(Op::Equal, value(rt, x), Sum::Number(frac(rt, n, 1))),
        Compare(op, x, y) => Cond::Compare(op, sum_of(rt, x), sum_of(rt, y)),
    }
}

/// An effect.
fn effect_of(rt: &(impl Abort + AllocGlobal), change: Change) -> Eff {
    match change {
        Adds => Eff::Add(0, Items::new(rt.alloc())),
        Deletes => Eff::Delete(0, Items::new(rt.alloc())),
        Up(x, by) => Eff::Change(true, x, Items::new(rt.alloc()), sum_of(rt, by)),
        Down(x, by) => Eff::Change(false, x, Items::new(rt.alloc()), sum_of(rt, by)),
    }
}

/// Conditions.
fn conds_of(rt: &(impl Abort + AllocGlobal), needs: &[Need]) -> Items<Cond> {
    let mut conds = Items::new(rt.alloc());
    for need in needs {
        conds.push(cond_of(rt, *need)).expect(rt, "memory");
    }
    conds
}

/// Effects.
fn effects_of(rt: &(impl Abort + AllocGlobal), changes: &[Change]) -> Items<Eff> {
    let mut effects = Items::new(rt.alloc());
    for change in changes {
        effects.push(effect_of(rt, *change)).expect(rt, "memory");
    }
    effects
}

/// Actions.
fn actions_of(rt: &(impl Abort + AllocGlobal), acts: &[Act]) -> Items<Action> {
    let mut actions = Items::new(rt.alloc());
    for (needs, changes) in acts {
        let action = action(rt, &[], conds_of(rt, needs), effects_of(rt, changes));
        actions.push(action).expect(rt, "memory");
    }
    actions
}

/// Values of functions without parameters.
fn values_of(rt: &(impl Abort + AllocGlobal), starts: &[(u32, i128)]) -> Items<(Term, Frac)> {
    let mut values = Items::new(rt.alloc());
    for (number, n) in starts {
        let (function, objects) = (*number, objects(rt, &[]));
        let value = (Term { function, objects }, frac(rt, *n, 1));
        values.push(value).expect(rt, "memory");
    }
    values
}

/// The task of a row.
fn task_of(
    rt: &(impl Abort + AllocGlobal),
    metric: Option<Expr>,
    goal: Need,
    acts: &[Act],
) -> TaskParts {
    let mut task = nothing(rt);
    task.values = values_of(rt, STARTS);
    task.actions = actions_of(rt, acts);
    task.goal = conds_of(rt, &[goal]);
    if let Some(expr) = metric {
        task.metric = Some(sum_of(rt, expr));
    }
    task
}

/// Whether a row comes to what it says, and in the slow run too.
fn is_right(rt: &(impl Abort + AllocGlobal), row: &Row) -> bool {
    let (metric, goal, acts, numbers, end) = *row;
    let task = task_of(rt, metric, goal, acts);
    let steps = steps(rt, numbers);
    end_of(run_parts(rt.alloc(), &task, steps.as_slice())) == Some(end)
        && slow_run(rt, &task, steps.as_slice()) == end
}

/// The first row that doesn't.
fn first_wrong(rt: &(impl Abort + AllocGlobal), rows: &[Row]) -> Option<usize> {
    for (number, row) in rows.iter().enumerate() {
        if !is_right(rt, row) {
            return Some(number);
        }
    }
    None
}

#[test]
fn rows_come_to_their_answers(rt: HostRuntime) {
    assert_eq!(rt; first_wrong(&rt, ROWS), None, "a row");
}
