//! A run by the definitions, slowly: lists are searched, and the metric and the sums of amounts are computed anew wherever they are
//! read. Symbols and actions have at most one parameter, and predicates and objects are 0 or 1.
use crate::ends::End;
use np_frac::{Frac, Scalar};
use np_model::{Action, Atom, Cond, Eff, Ref, Step, Sum, TaskParts, Term};
use std::process::Abort;

/// Why there is no answer.
#[derive(Clone, Copy)]
enum Lack {
    /// A value is missing, or a condition doesn't hold.
    Missing,
    /// A number is too wide.
    Wide,
}

/// An atom or a term: a symbol with its object, which is 0 where it has none.
type Ground = (u32, u32);

/// All atoms.
const ATOMS: [Ground; 4] = [(0, 0), (0, 1), (1, 0), (1, 1)];

/// The true atoms, and the terms that have values.
#[derive(Drop)]
struct State {
    atoms: Vec<Ground>,
    values: Vec<(Ground, Frac)>,
}

/// The only object of a list, or 0.
fn only(objects: &[u32]) -> u32 {
    match objects {
        [object, ..] => *object,
        [] => 0,
    }
}

/// The object that a reference stands for, where the parameter stands for this one.
fn meant(part: &Ref, object: u32) -> u32 {
    match part {
        Ref::Object(number) => *number,
        Ref::Parameter(_) => object,
    }
}

/// The atom or term of a symbol and references.
fn ground(symbol: u32, refs: &[Ref], object: u32) -> Ground {
    match refs {
        [part, ..] => (symbol, meant(part, object)),
        [] => (symbol, 0),
    }
}

/// The atoms of a task.
fn start_atoms(rt: &(impl Abort + AllocGlobal), atoms: &[Atom]) -> Vec<Ground> {
    let mut all = Vec::new(rt.alloc());
    for atom in atoms {
        all.push((atom.predicate, only(atom.objects.as_slice())))
            .expect(rt, "memory");
    }
    all
}

/// The values of a task.
fn start_values(rt: &(impl Abort + AllocGlobal), values: &[(Term, Frac)]) -> Vec<(Ground, Frac)> {
    let mut all = Vec::new(rt.alloc());
    for (term, value) in values {
        let term = (term.function, only(term.objects.as_slice()));
        all.push((term, *value)).expect(rt, "memory");
    }
    all
}

impl State {
    /// The start of a task.
    fn start(rt: &(impl Abort + AllocGlobal), task: &TaskParts) -> State {
        let mut state = State {
            atoms: start_atoms(rt, task.atoms.as_slice()),
            values: start_values(rt, task.values.as_slice()),
        };
        if let Some(metric) = &task.metric {
            state.give_zeros(rt, metric);
        }
        state
    }

    /// The value of a term.
    fn value(&self, term: Ground) -> Result<Frac, Lack> {
        for (other, value) in self.values.as_slice() {
            if *other == term {
                return Ok(*value);
            }
        }
        Err(Lack::Missing)
    }

    /// Gives 0 to each term of an expression that has no value.
    fn give_zeros(&mut self, rt: &(impl Abort + AllocGlobal), sum: &Sum) {
        match sum {
            Sum::Number(_) => {}
            Sum::Value(function, refs) => {
                let term = ground(*function, refs.as_slice(), 0);
                if self.value(term).is_err() {
                    self.values.push((term, Frac::zero())).expect(rt, "memory");
                }
            }
            Sum::Minus(x) => self.give_zeros(rt, x.get()),
            Sum::Sub(x, y) | Sum::Div(x, y) => {
                self.give_zeros(rt, x.get());
                self.give_zeros(rt, y.get());
            }
            Sum::Add(parts) | Sum::Mul(parts) => {
                for part in parts.as_slice() {
                    self.give_zeros(rt, part);
                }
            }
        }
    }
}

/// The value of an expression.
fn value_of(state: &State, object: u32, sum: &Sum) -> Result<Frac, Lack> {
    match sum {
        Sum::Number(x) => Ok(*x),
        Sum::Value(function, refs) => state.value(ground(*function, refs.as_slice(), object)),
        Sum::Minus(x) => {
            let value = value_of(state, object, x.get())?;
            Frac::zero().sub(&value).ok_or(Lack::Wide)
        }
        Sum::Sub(x, y) => {
            let left = value_of(state, object, x.get())?;
            let right = value_of(state, object, y.get())?;
            left.sub(&right).ok_or(Lack::Wide)
        }
        Sum::Div(x, y) => {
            let left = value_of(state, object, x.get())?;
            let right = value_of(state, object, y.get())?;
            if right.num() == 0 {
                return Err(Lack::Missing);
            }
            left.div(&right).ok_or(Lack::Wide)
        }
        Sum::Add(parts) | Sum::Mul(parts) => {
            let adds = matches!(sum, Sum::Add(_));
            let mut total = if adds { Frac::zero() } else { Frac::one() };
            for part in parts.as_slice() {
                let value = value_of(state, object, part)?;
                total = combined(adds, &total, &value)?;
            }
            Ok(total)
        }
    }
}

/// The sum of two numbers, or their product.
fn combined(adds: bool, x: &Frac, y: &Frac) -> Result<Frac, Lack> {
    let answer = if adds { x.add(y) } else { x.mul(y) };
    answer.ok_or(Lack::Wide)
}

/// Whether a condition holds.
fn holds(state: &State, object: u32, cond: &Cond) -> Result<bool, Lack> {
    match cond {
        Cond::Atom(positive, predicate, refs) => {
            let atom = ground(*predicate, refs.as_slice(), object);
            Ok(state.atoms.contains(&atom) == *positive)
        }
        Cond::Same(positive, a, b) => Ok((meant(a, object) == meant(b, object)) == *positive),
        Cond::Compare(op, x, y) => {
            let left = value_of(state, object, x)?;
            let right = value_of(state, object, y)?;
            Ok(op.compares(&left, &right))
        }
    }
}

/// Whether all conditions hold.
fn all_hold(state: &State, object: u32, conds: &[Cond]) -> Result<(), Lack> {
    for cond in conds {
        if !holds(state, object, cond)? {
            return Err(Lack::Missing);
        }
    }
    Ok(())
}

/// Whether an effect adds an atom, or deletes it where the flag is false.
fn makes(adds: bool, object: u32, effect: &Eff, atom: Ground) -> bool {
    match effect {
        Eff::Add(predicate, refs) => adds && ground(*predicate, refs.as_slice(), object) == atom,
        Eff::Delete(predicate, refs) => {
            !adds && ground(*predicate, refs.as_slice(), object) == atom
        }
        Eff::Change(_, _, _, _) => false,
    }
}

/// Whether one of the effects does.
fn one_makes(adds: bool, object: u32, effects: &[Eff], atom: Ground) -> bool {
    for effect in effects {
        if makes(adds, object, effect, atom) {
            return true;
        }
    }
    false
}

/// The atoms after effects: those that are added, and those that were true and aren't deleted.
fn atoms_after(
    rt: &(impl Abort + AllocGlobal),
    state: &State,
    object: u32,
    effects: &[Eff],
) -> Vec<Ground> {
    let mut atoms = Vec::new(rt.alloc());
    for atom in ATOMS {
        let stays = state.atoms.contains(&atom) && !one_makes(false, object, effects, atom);
        if one_makes(true, object, effects, atom) || stays {
            atoms.push(atom).expect(rt, "memory");
        }
    }
    atoms
}

/// The sum of the amounts of effects on a term, in the state before.
fn change_of(state: &State, object: u32, effects: &[Eff], term: Ground) -> Result<Frac, Lack> {
    let mut total = Frac::zero();
    for effect in effects {
        let Eff::Change(up, function, refs, amount) = effect else {
            continue;
        };
        if ground(*function, refs.as_slice(), object) == term {
            let amount = value_of(state, object, amount)?;
            let sum = if *up {
                total.add(&amount)
            } else {
                total.sub(&amount)
            };
            total = sum.ok_or(Lack::Wide)?;
        }
    }
    Ok(total)
}

/// Whether effects can happen: one after the other, the changed term has a value, and there is a sum up to this effect.
fn can_happen(state: &State, object: u32, effects: &[Eff]) -> Result<(), Lack> {
    for number in 0..effects.len() {
        if let Eff::Change(_, function, refs, _) = &effects[number] {
            let term = ground(*function, refs.as_slice(), object);
            let _old = state.value(term)?;
            let _sum = change_of(state, object, &effects[..number + 1], term)?;
        }
    }
    Ok(())
}

/// The values after effects that can happen.
fn values_after(
    rt: &(impl Abort + AllocGlobal),
    state: &State,
    object: u32,
    effects: &[Eff],
) -> Result<Vec<(Ground, Frac)>, Lack> {
    let mut values = Vec::new(rt.alloc());
    for (term, value) in state.values.as_slice() {
        let sum = change_of(state, object, effects, *term)?;
        let new = value.add(&sum).ok_or(Lack::Wide)?;
        values.push((*term, new)).expect(rt, "memory");
    }
    Ok(values)
}

/// The state after an action.
fn next(
    rt: &(impl Abort + AllocGlobal),
    state: &State,
    action: &Action,
    object: u32,
) -> Result<State, Lack> {
    let effects = action.effects.as_slice();
    all_hold(state, object, action.needs.as_slice())?;
    can_happen(state, object, effects)?;
    let values = values_after(rt, state, object, effects)?;
    let atoms = atoms_after(rt, state, object, effects);
    Ok(State { atoms, values })
}

/// The metric's value; 0 without a metric.
fn metric_of(task: &TaskParts, state: &State) -> Result<Frac, Lack> {
    match &task.metric {
        Some(metric) => value_of(state, 0, metric),
        None => Ok(Frac::zero()),
    }
}

/// The cost with that of one more step, before which the metric came to this.
fn cost_after(
    task: &TaskParts,
    before: Result<Frac, Lack>,
    after: &State,
    cost: &Frac,
) -> Result<Frac, Lack> {
    if task.metric.is_none() {
        return cost.add(&Frac::one()).ok_or(Lack::Wide);
    }
    let before = before?;
    let after = metric_of(task, after)?;
    let more = after.sub(&before).ok_or(Lack::Wide)?;
    cost.add(&more).ok_or(Lack::Wide)
}

/// What ends a run at the step of this number.
fn ended(lack: Lack, missing: End, number: u64) -> End {
    match lack {
        Lack::Missing => missing,
        Lack::Wide => End::Wide(number),
    }
}

/// The state after a step and the cost so far, or what ends the run.
fn after_step(
    rt: &(impl Abort + AllocGlobal),
    task: &TaskParts,
    step: &Step,
    number: u64,
    state: &State,
    cost: &Frac,
) -> Result<(State, Frac), End> {
    let before = metric_of(task, state);
    if let Err(Lack::Wide) = before {
        return Err(End::Wide(number));
    }
    let Some(action) = task.actions.as_slice().get(step.action as usize) else {
        return Err(End::Stuck(number));
    };
    let after = match next(rt, state, action, only(step.objects.as_slice())) {
        Ok(after) => after,
        Err(lack) => return Err(ended(lack, End::Stuck(number), number)),
    };
    match cost_after(task, before, &after, cost) {
        Ok(cost) => Ok((after, cost)),
        Err(lack) => Err(ended(lack, End::NoCost(number), number)),
    }
}

/// What a list of steps comes to.
pub fn slow_run(rt: &(impl Abort + AllocGlobal), task: &TaskParts, steps: &[Step]) -> End {
    let mut state = State::start(rt, task);
    let mut cost = Frac::zero();
    for (number, step) in steps.iter().enumerate() {
        match after_step(rt, task, step, number as u64 + 1, &state, &cost) {
            Ok((after, sum)) => {
                state = after;
                cost = sum;
            }
            Err(end) => return end,
        }
    }
    match all_hold(&state, 0, task.goal.as_slice()) {
        Ok(()) => End::Goal(cost.num(), cost.den()),
        Err(Lack::Missing) => End::NoGoal,
        Err(Lack::Wide) => End::Wide(steps.len() as u64 + 1),
    }
}
