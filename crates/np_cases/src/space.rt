//! A small space of states for tests of searches: places joined by edges, of which place 0 is the start.
ghost use Rattle.std.specs.Prelude.{◌≡◌, IfOk};
ghost use Rattle.std.specs.List.{list_all};
ghost use Rattle.std.specs.Ordering.{int_eq};
ghost use Rattle.np_space.specs.Bounds.{IsSmallBound};
ghost use Rattle.np_cases.specs.Graphs.{bound_of, bound_at, is_short, is_below, at_place, place_of, IsGraph};
ghost use Rattle.np_frac.specs.Fractions.{whole};
ghost use Rattle.np_state.specs.States.{value_of};

use np_space::{Bound, Judged, Reason, Space};
use np_state::{BitRow, Cell, State};
use std::alloc::{AllocError, Global};

/// Where an edge leads from and to, and its cost.
pub type Edge = (i128, i128, u32);

/// A place and its bound or its distance from the goal. `None` is that there is no plan.
pub type Row = (i128, Option<u32>);

/// Places joined by edges, with a goal and a table of bounds, and distances that show that the bounds are ones.
#[derive(Drop)]
pub struct Graph<'a> {
    edges: &'a [Edge],
    goal: i128,
    bounds: &'a [Row],
    distances: &'a [Row],
    ghost checked: { IsGraph edges.now goal bounds.now distances.now },
}

/// The bound of a row.
fn bound_of(bound: Option<u32>) -> Bound
    ensures value { result ≡ bound_of bound }
    ensures small { IsSmallBound result }
{
    match bound {
        None => Bound::NoPlan,
        Some(n) => Bound::AtLeast(u64::from(n)),
    }
}

/// The bound of a place: that of the first row that has it, or 0.
fn bound_at(table: &[Row], place: i128) -> Bound
    ensures value { result ≡ bound_at table.now place }
    ensures small { IsSmallBound result }
{
    for (at, bound) in table {
        if *at == place {
            return bound_of(*bound);
        }
    }
    Bound::AtLeast(0)
}

/// Whether the distance of an edge's start is at most its cost and the distance of its end.
fn is_short(distances: &[Row], edge: &Edge) -> bool
    ensures { result ≡ is_short distances.now edge.now }
{
    let along = Bound::AtLeast(u64::from(edge.2)).plus(&bound_at(distances, edge.1));
    match along {
        None => false,
        Some(along) => bound_at(distances, edge.0).is_at_most(&along),
    }
}

/// Whether a bound is at most the distance.
fn is_below(distances: &[Row], row: &Row) -> bool
    ensures { result ≡ is_below distances.now row.now }
{
    bound_of(row.1).is_at_most(&bound_at(distances, row.0))
}

/// The same along all edges.
fn all_short(distances: &[Row], edges: &[Edge]) -> bool
    ensures { result ≡ list_all (is_short distances.now) edges.now }
{
    edges.iter().all(|edge| is_short(distances, edge))
}

/// The same of all bounds.
fn all_below(distances: &[Row], bounds: &[Row]) -> bool
    ensures { result ≡ list_all (is_below distances.now) bounds.now }
{
    bounds.iter().all(|row| is_below(distances, row))
}

impl<'a> Graph<'a> {
    /// The space, where the distances show that the bounds are ones.
    pub fn new(
        edges: &'a [Edge],
        goal: i128,
        bounds: &'a [Row],
        distances: &'a [Row],
    ) -> Option<Graph<'a>> {
        if edges.len() > 1000 || !bound_at(distances, goal).is_at_most(&Bound::AtLeast(0)) {
            return None;
        }
        if !all_short(distances, edges) || !all_below(distances, bounds) {
            return None;
        }
        Some(Graph {
            edges,
            goal,
            bounds,
            distances,
        })
    }
}

/// Whether an edge leaves a place.
fn leaves(edge: &Edge, place: i128) -> bool
    ensures { result ≡ int_eq edge.now.0 place }
{
    edge.0 == place
}

/// The state of a place.
fn state_at(alloc: Global, place: i128) -> Result<State<i128>, AllocError>
    ensures { IfOk result (λ s. value_of whole s ≡ at_place place) }
{
    let facts = BitRow::new(alloc, 0)?;
    let cells = Vec::from_array(alloc, [place])?;
    Ok(State { facts, cells })
}

/// The state at the end of an edge.
fn end_of(alloc: Global, edge: &Edge) -> Result<State<i128>, AllocError>
    ensures { IfOk result (λ s. value_of whole s ≡ at_place edge.now.1) }
{
    state_at(alloc, edge.1)
}

/// The place of a state.
fn place_of(s: &State<i128>) -> i128
    ensures { result ≡ place_of (value_of whole s.now) }
{
    match s.cells.as_slice().first() {
        Some(place) => place.copy(),
        None => 0,
    }
}

impl Space for Graph<'_> {
    ghost use Rattle.std.specs.Prelude.{length, pos};
    ghost use Rattle.std.specs.Bool.{⊤};
    ghost use Rattle.np_cases.specs.Graphs.{at_place, is_at, next_along, no_more_edges};

    type C = i128;

    ghost first = { λ g. at_place (pos 0) };

    ghost goal = { λ g. is_at g.goal };

    ghost count = { λ g. length g.edges.now };

    ghost next_of = { λ g. next_along g.edges.now };

    ghost fits = { λ g s j. ⊤ };

    ghost bounded = { λ g. no_more_edges g.edges.now };

    fn start(&self, alloc: Global) -> Result<State<i128>, AllocError> {
        state_at(alloc, 0)
    }

    fn is_goal(&self, s: &State<i128>) -> bool {
        place_of(s) == self.goal
    }

    fn steps(&self) -> u32 {
        self.edges.len() as u32
    }

    fn next(
        &self,
        alloc: Global,
        s: &State<i128>,
        step: u32,
    ) -> Result<Option<(State<i128>, u64)>, AllocError> {
        let edge = &self.edges[step as usize];
        if !leaves(edge, place_of(s)) {
            return Ok(None);
        }
        let after = end_of(alloc, edge)?;
        Ok(Some((after, u64::from(edge.2))))
    }

    fn judge(&mut self, _alloc: Global, s: &State<i128>) -> Result<Judged, AllocError> {
        let bound = bound_at(self.bounds, place_of(s));
        Ok(Judged {
            bound,
            why: Reason::Zero,
            weak: false,
        })
    }
}
