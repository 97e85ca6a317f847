//! Counting rows: where each is allowed, its coefficient for each step, and its right side at each state.
ghost use Rattle.std.specs.Prelude.{◌≡◌, ◌<◌, ◌^◌, true, length, unsigned_abs};
ghost use Rattle.np_flat.specs.Flats.{IsFlat, IsStep, IsStateOf, AreSmall};
ghost use Rattle.np_count.specs.Rows.{coefficient, right, is_allowed};
ghost use Rattle.np_count.specs.Bounds.{is_small};

use crate::cuts::{cut_coefficient, cut_right, is_cut};
use crate::facts::{flow, flow_right, has};
use crate::floors::{floor_right, is_floor};
use crate::forms::{form_at, net_on, value_of};
use crate::proof::Row;
use np_flat::{Flat, FlatState, FlatStep, Parts};

/// The coefficient of a step. It takes no memory.
pub fn coefficient(flat: &Flat, step: &FlatStep, row: &Row) -> i128
    requires step { IsStep (length flat.now.facts) (length flat.now.values) (length flat.now.subgoals) step.now }
    requires row { is_allowed flat.now row.now ≡ true }
    ensures value { result ≡ coefficient flat.now step.now row.now }
    ensures small { unsigned_abs result < 2 ^ 99 }
{
    let parts = flat.parts();
    match row {
        Row::Demand(q) => net_on(parts, step, *q),
        Row::Flow(p) => flow(parts, true, *p, step),
        Row::FlowNot(p) => flow(parts, false, *p, step),
        Row::Floor(q, _) => net_on(parts, step, *q),
        Row::Cut(subgoals) => cut_coefficient(flat, step, subgoals.as_slice()),
    }
}

/// The right side at a state. It takes no memory.
pub fn right(parts: &Parts, state: &FlatState, row: &Row) -> i128
    requires flat { IsFlat parts.now }
    requires state { IsStateOf parts.now state.now }
    requires small { AreSmall state.now.values }
    requires row { is_small row.now ≡ true }
    ensures { result ≡ right parts.now state.now row.now }
{
    match row {
        Row::Demand(q) => 0 - value_of(parts, *q, state),
        Row::Flow(p) => flow_right(parts, true, *p, state),
        Row::FlowNot(p) => flow_right(parts, false, *p, state),
        Row::Floor(q, m) => floor_right(*m, value_of(parts, *q, state)),
        Row::Cut(subgoals) => cut_right(parts, state, subgoals.as_slice()),
    }
}

/// Whether the row is allowed. It takes no memory.
pub fn is_allowed(parts: &Parts, row: &Row) -> bool
    requires flat { IsFlat parts.now }
    requires row { is_small row.now ≡ true }
    ensures { result ≡ is_allowed parts.now row.now }
{
    match row {
        Row::Demand(q) => has(parts.goal.as_slice(), *q) && form_at(parts, *q).is_some(),
        Row::Flow(p) => *p < parts.facts.len() as u64,
        Row::FlowNot(p) => *p < parts.facts.len() as u64,
        Row::Floor(q, m) => is_floor(parts, *q, *m),
        Row::Cut(subgoals) => is_cut(parts.subgoals.len() as u64, subgoals.as_slice()),
    }
}
