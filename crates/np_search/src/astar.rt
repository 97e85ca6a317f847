//! The search.
ghost use Rattle.std.specs.Prelude.{◌≡◌, ◌+◌, ◌≤◌, ◌^◌, None, Some, ℕ, OnOk, IfOk};
ghost use Rattle.np_search.specs.Opens.{is_in};
ghost use Rattle.np_search.specs.Spaces.{IsSameSpace};
ghost use Rattle.np_search.specs.Outcomes.{expanded_count, IsOutcome};
ghost use Rattle.np_search.specs.Trees.{IsTree};
ghost use Rattle.np_search.specs.Choices.{IsSettled, IsChoice, IsOpenNext, IsEndOf};

use crate::open_list::OpenList;
use crate::tree::{Tree, begin, expand};
use np_space::Space;
use np_state::Cell;
use std::alloc::{AllocError, Global};

/// What a search answers.
#[derive(Drop)]
pub enum Found<C: Cell> {
    /// A goal state, whose parents give a cheapest plan.
    Goal { tree: Tree<C>, goal: usize },
    /// There is no plan.
    Empty { tree: Tree<C> },
    /// The budget is spent, and no plan costs less than `bound`.
    Spent { tree: Tree<C>, bound: u64 },
}

/// What a search does next.
enum Choice {
    /// This state is a goal that no plan is below.
    Goal(usize),
    /// No state is left that leads to a goal.
    Empty,
    /// This state comes next, with its path cost and bound together.
    Open(usize, u64),
}

/// Expands again what was reached at less cost after it was expanded, until nothing is left of that.
fn settle<P: Space>(
    alloc: Global,
    space: &mut P,
    tree: &mut Tree<P::C>,
    list: &mut OpenList,
) -> Result<Option<(usize, u64)>, AllocError>
    requires tree { IsTree (P.next_of space.old) (P.goal space.old) (P.first space.old) (P.fits space.old) tree.old.states tree.old.nodes.items (is_in list.old) None }
    requires few { expanded_count tree.old.nodes.items ≤ 2 ^ 24 }
    ensures settled { IfOk result (IsSettled (P.next_of space.new) (P.goal space.new) (P.first space.new) (P.fits space.new) tree.new.states tree.new.nodes.items (is_in list.new)) }
    ensures count { OnOk result (expanded_count tree.new.nodes.items ≡ expanded_count tree.old.nodes.items) }
    ensures space { IsSameSpace P.first P.goal P.count P.next_of P.fits space.old space.new }
{
    loop {
        let Some((at, key)) = list.pop() else {
            return Ok(None);
        };
        if !tree.nodes[at].expanded {
            return Ok(Some((at, key.first - 1)));
        }
        expand(alloc, space, tree, list, at)?;
    }
}

/// What comes next.
fn choose<P: Space>(
    alloc: Global,
    space: &mut P,
    tree: &mut Tree<P::C>,
    list: &mut OpenList,
) -> Result<Choice, AllocError>
    requires tree { IsTree (P.next_of space.old) (P.goal space.old) (P.first space.old) (P.fits space.old) tree.old.states tree.old.nodes.items (is_in list.old) None }
    requires few { expanded_count tree.old.nodes.items ≤ 2 ^ 24 }
    ensures choice { IfOk result (IsChoice (P.next_of space.new) (P.goal space.new) (P.first space.new) (P.fits space.new) tree.new.states tree.new.nodes.items (is_in list.new)) }
    ensures count { OnOk result (expanded_count tree.new.nodes.items ≡ expanded_count tree.old.nodes.items) }
    ensures space { IsSameSpace P.first P.goal P.count P.next_of P.fits space.old space.new }
{
    let Some((at, f)) = settle(alloc, space, tree, list)? else {
        return Ok(Choice::Empty);
    };
    if space.is_goal(tree.states.get(at)) {
        return Ok(Choice::Goal(at));
    }
    Ok(Choice::Open(at, f))
}

/// Expands a state for the first time.
fn expand_new<P: Space>(
    alloc: Global,
    space: &mut P,
    tree: &mut Tree<P::C>,
    list: &mut OpenList,
    at: usize,
) -> Result<(), AllocError>
    requires here { (f : ℕ) × IsOpenNext (P.next_of space.old) (P.goal space.old) (P.first space.old) (P.fits space.old) tree.old.states tree.old.nodes.items (is_in list.old) at f }
    requires few { expanded_count tree.old.nodes.items + 1 ≤ 2 ^ 24 }
    ensures tree { OnOk result (IsTree (P.next_of space.new) (P.goal space.new) (P.first space.new) (P.fits space.new) tree.new.states tree.new.nodes.items (is_in list.new) None) }
    ensures count { OnOk result (expanded_count tree.new.nodes.items ≡ expanded_count tree.old.nodes.items + 1) }
    ensures space { IsSameSpace P.first P.goal P.count P.next_of P.fits space.old space.new }
{
    tree.nodes[at].expanded = true;
    expand(alloc, space, tree, list, at)
}

/// Expands states until a goal comes next, none is left, or `nodes` of them are expanded.
fn advance<P: Space>(
    alloc: Global,
    space: &mut P,
    tree: &mut Tree<P::C>,
    list: &mut OpenList,
    nodes: u32,
) -> Result<Choice, AllocError>
    requires tree { IsTree (P.next_of space.old) (P.goal space.old) (P.first space.old) (P.fits space.old) tree.old.states tree.old.nodes.items (is_in list.old) None }
    requires none { expanded_count tree.old.nodes.items ≡ 0 }
    requires few { nodes ≤ 2 ^ 24 }
    ensures choice { IfOk result (IsChoice (P.next_of space.new) (P.goal space.new) (P.first space.new) (P.fits space.new) tree.new.states tree.new.nodes.items (is_in list.new)) }
    ensures end { IfOk result (IsEndOf (expanded_count tree.new.nodes.items) nodes) }
    ensures space { IsSameSpace P.first P.goal P.count P.next_of P.fits space.old space.new }
{
    for _ in 0..nodes {
        match choose(alloc, space, tree, list)? {
            Choice::Open(at, _) => expand_new(alloc, space, tree, list, at)?,
            end => return Ok(end),
        }
    }
    choose(alloc, space, tree, list)
}

/// A cheapest plan, or that there is none, or a lower bound on every plan's cost once `nodes` states are expanded.
///
/// It counts distinct expanded states. Expanding one again isn't counted. What it says of the space holds after the call, which changes
/// nothing of the space but the proofs that it keeps, also where memory ran out.
pub fn search<P: Space>(alloc: Global, space: &mut P, nodes: u32) -> Result<Found<P::C>, AllocError>
    requires { nodes ≤ 2 ^ 24 }
    ensures outcome { IfOk result (IsOutcome (P.next_of space.new) (P.goal space.new) (P.first space.new) (P.fits space.new) nodes) }
    ensures space { IsSameSpace P.first P.goal P.count P.next_of P.fits space.old space.new }
{
    let mut list = OpenList::new(alloc);
    let mut tree = begin(alloc, space, &mut list)?;
    match advance(alloc, space, &mut tree, &mut list, nodes)? {
        Choice::Goal(goal) => Ok(Found::Goal { tree, goal }),
        Choice::Empty => Ok(Found::Empty { tree }),
        Choice::Open(_, bound) => Ok(Found::Spent { tree, bound }),
    }
}
