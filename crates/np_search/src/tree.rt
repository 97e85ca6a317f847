//! The states that a search reached, and how it came to each.
ghost use Rattle.std.specs.Prelude.{◌≡◌, ◌+◌, ◌<◌, ◌≤◌, ◌^◌, false, None, Some, ℕ, OnOk, IfOk};
ghost use Rattle.np_state.specs.StateValues.{StateValue};
ghost use Rattle.np_state.specs.States.{value_of};
ghost use Rattle.np_space.specs.Runs.{IsReachedWithin};
ghost use Rattle.np_search.specs.Opens.{is_in};
ghost use Rattle.np_search.specs.Keys.{key_of, PutsAny, TakesAny};
ghost use Rattle.np_search.specs.Spaces.{IsSameSpace};
ghost use Rattle.np_search.specs.Weights.{weight, IsNoMore};
ghost use Rattle.np_search.specs.Outcomes.{expanded_count};
ghost use Rattle.np_search.specs.Changes.{IsNarrow, IsNarrowAt, IsLowered, IsPushed, IsFound};
ghost use Rattle.np_search.specs.Trees.{IsTree, IsUnderWay, IsKnownAfter};

use crate::open_list::{Key, OpenList};
use np_space::{Bound, Judged, Space};
use np_state::{Cell, State, StateStore};
use std::alloc::{AllocError, Global};

/// A state that was reached.
#[derive(Debug, Drop)]
pub struct Node {
    /// The cost of the run that the parents give.
    pub cost: u64,
    pub judged: Judged,
    /// The number of the state before and the step that leads from it. `None` for the start alone.
    pub parent: Option<(u32, u32)>,
    pub expanded: bool,
}

/// The states that were reached, each with its node. State 0 is the start.
#[derive(Drop)]
pub struct Tree<C: Cell> {
    pub states: StateStore<C>,
    pub nodes: Vec<Node>,
}

/// The place of a node in the open list; none where there is no plan from its state.
pub(crate) fn key_of(node: &Node) -> Option<Key>
    requires { IsNarrow node.now }
    ensures { result ≡ key_of node.now }
{
    if node.expanded {
        return Some(Key {
            first: 0,
            second: node.cost,
        });
    }
    match node.judged.bound {
        Bound::NoPlan => None,
        Bound::AtLeast(bound) => Some(Key {
            first: node.cost + bound + 1,
            second: bound,
        }),
    }
}

/// Puts a node into the list, unless there is no plan from its state.
pub(crate) fn put(list: &mut OpenList, at: usize, node: &Node) -> Result<(), AllocError>
    requires { IsNarrow node.now }
    ensures { OnOk result (PutsAny (is_in list.old) (is_in list.new) at (key_of node.now)) }
{
    match key_of(node) {
        None => Ok(()),
        Some(key) => list.insert(at, key),
    }
}

/// Takes a node out of the list.
fn take_out(list: &mut OpenList, at: usize, node: &Node)
    requires { IsNarrow node.now }
    ensures { TakesAny (is_in list.old) (is_in list.new) at (key_of node.now) }
{
    if let Some(key) = key_of(node) {
        list.remove(at, key);
    }
}

/// The node of a state that wasn't reached before.
fn found<P: Space>(
    alloc: Global,
    space: &mut P,
    state: &State<P::C>,
    parent: Option<(u32, u32)>,
    cost: u64,
) -> Result<Node, AllocError>
    requires { IsReachedWithin (P.next_of space.old) (P.first space.old) (2 ^ 24) (value_of P.C.value state.now) }
    ensures node { IfOk result (IsFound (P.next_of space.new) (P.goal space.new) (P.fits space.new) (value_of P.C.value state.now) parent cost) }
    ensures space { IsSameSpace P.first P.goal P.count P.next_of P.fits space.old space.new }
{
    let judged = space.judge(alloc, state)?;
    Ok(Node {
        parent,
        cost,
        judged,
        expanded: false,
    })
}

/// Takes note of a state that wasn't reached before.
fn add(nodes: &mut Vec<Node>, list: &mut OpenList, node: Node) -> Result<(), AllocError>
    requires { IsNarrow node }
    ensures { OnOk result (IsPushed nodes.old.items nodes.new.items (is_in list.old) (is_in list.new) node) }
{
    put(list, nodes.len(), &node)?;
    nodes.push(node)?;
    Ok(())
}

/// Takes note of a run to a known state, where it costs less.
fn lower(
    nodes: &mut Vec<Node>,
    list: &mut OpenList,
    at: usize,
    parent: (u32, u32),
    cost: u64,
) -> Result<(), AllocError>
    requires { IsNarrowAt nodes.old.items at }
    ensures { OnOk result (IsLowered nodes.old.items nodes.new.items (is_in list.old) (is_in list.new) at parent cost) }
{
    let node = &mut nodes[at];
    if node.cost <= cost {
        return Ok(());
    }
    take_out(list, at, node);
    node.parent = Some(parent);
    node.cost = cost;
    put(list, at, node)
}

/// The start alone.
pub(crate) fn begin<P: Space>(
    alloc: Global,
    space: &mut P,
    list: &mut OpenList,
) -> Result<Tree<P::C>, AllocError>
    requires { (i : ℕ) (key : Key) → is_in list.old i key ≡ false }
    ensures tree { IfOk result (λ tree. IsTree (P.next_of space.new) (P.goal space.new) (P.first space.new) (P.fits space.new) tree.states tree.nodes.items (is_in list.new) None) }
    ensures count { IfOk result (λ tree. expanded_count tree.nodes.items ≡ 0) }
    ensures space { IsSameSpace P.first P.goal P.count P.next_of P.fits space.old space.new }
{
    let start = space.start(alloc)?;
    let node = found(alloc, space, &start, None, 0)?;
    let mut tree = Tree {
        states: StateStore::new(alloc),
        nodes: Vec::new(alloc),
    };
    tree.states.intern(start)?;
    add(&mut tree.nodes, list, node)?;
    Ok(tree)
}

/// Takes note of what one step leads to, where it is applicable.
fn take_step<P: Space>(
    alloc: Global,
    space: &mut P,
    tree: &mut Tree<P::C>,
    list: &mut OpenList,
    at: u32,
    step: u32,
) -> Result<(), AllocError>
    requires tree { IsTree (P.next_of space.old) (P.goal space.old) (P.first space.old) (P.fits space.old) tree.old.states tree.old.nodes.items (is_in list.old) (Some at) }
    requires under_way { IsUnderWay (P.next_of space.old) (P.goal space.old) tree.old.states tree.old.nodes.items (is_in list.old) at step }
    requires few { expanded_count tree.old.nodes.items ≤ 2 ^ 24 }
    requires step { step < P.count space.old }
    ensures tree { OnOk result (IsTree (P.next_of space.new) (P.goal space.new) (P.first space.new) (P.fits space.new) tree.new.states tree.new.nodes.items (is_in list.new) (Some at)) }
    ensures under_way { OnOk result (IsUnderWay (P.next_of space.new) (P.goal space.new) tree.new.states tree.new.nodes.items (is_in list.new) at (step + 1)) }
    ensures count { OnOk result (expanded_count tree.new.nodes.items ≡ expanded_count tree.old.nodes.items) }
    ensures less { OnOk result (IsKnownAfter (P.next_of space.old) tree.old.states at → IsNoMore tree.old.states tree.new.states (weight (is_in list.old) tree.old.nodes.items) (weight (is_in list.new) tree.new.nodes.items)) }
    ensures space { IsSameSpace P.first P.goal P.count P.next_of P.fits space.old space.new }
{
    let Some((state, cost)) = space.next(alloc, tree.states.get(at as usize), step)? else {
        return Ok(());
    };
    let cost = tree.nodes[at as usize].cost + cost;
    let (number, is_new) = tree.states.intern(state)?;
    if !is_new {
        return lower(&mut tree.nodes, list, number, (at, step), cost);
    }
    let node = found(
        alloc,
        space,
        tree.states.get(number),
        Some((at, step)),
        cost,
    )?;
    add(&mut tree.nodes, list, node)
}

/// A number in 32 bits. Where it has more, that is said as out of memory.
fn number_of(at: usize) -> Result<u32, AllocError>
    ensures { IfOk result (λ number. number ≡ at) }
{
    if at > u32::MAX as usize {
        return Err(AllocError);
    }
    Ok(at as u32)
}

/// Takes note of what each step leads to from the state of this number.
fn expand_from<P: Space>(
    alloc: Global,
    space: &mut P,
    tree: &mut Tree<P::C>,
    list: &mut OpenList,
    at: u32,
) -> Result<(), AllocError>
    requires tree { IsTree (P.next_of space.old) (P.goal space.old) (P.first space.old) (P.fits space.old) tree.old.states tree.old.nodes.items (is_in list.old) (Some at) }
    requires under_way { IsUnderWay (P.next_of space.old) (P.goal space.old) tree.old.states tree.old.nodes.items (is_in list.old) at 0 }
    requires few { expanded_count tree.old.nodes.items ≤ 2 ^ 24 }
    ensures tree { OnOk result (IsTree (P.next_of space.new) (P.goal space.new) (P.first space.new) (P.fits space.new) tree.new.states tree.new.nodes.items (is_in list.new) None) }
    ensures count { OnOk result (expanded_count tree.new.nodes.items ≡ expanded_count tree.old.nodes.items) }
    ensures less { OnOk result (IsKnownAfter (P.next_of space.old) tree.old.states at → IsNoMore tree.old.states tree.new.states (weight (is_in list.old) tree.old.nodes.items) (weight (is_in list.new) tree.new.nodes.items)) }
    ensures space { IsSameSpace P.first P.goal P.count P.next_of P.fits space.old space.new }
{
    for step in 0..space.steps() {
        take_step(alloc, space, tree, list, at, step)?;
    }
    Ok(())
}

/// Takes note of what each step leads to. A state whose number has more than 32 bits can't be told as a parent: for it there is no memory.
pub(crate) fn expand<P: Space>(
    alloc: Global,
    space: &mut P,
    tree: &mut Tree<P::C>,
    list: &mut OpenList,
    at: usize,
) -> Result<(), AllocError>
    requires tree { IsTree (P.next_of space.old) (P.goal space.old) (P.first space.old) (P.fits space.old) tree.old.states tree.old.nodes.items (is_in list.old) (Some at) }
    requires under_way { IsUnderWay (P.next_of space.old) (P.goal space.old) tree.old.states tree.old.nodes.items (is_in list.old) at 0 }
    requires few { expanded_count tree.old.nodes.items ≤ 2 ^ 24 }
    ensures tree { OnOk result (IsTree (P.next_of space.new) (P.goal space.new) (P.first space.new) (P.fits space.new) tree.new.states tree.new.nodes.items (is_in list.new) None) }
    ensures count { OnOk result (expanded_count tree.new.nodes.items ≡ expanded_count tree.old.nodes.items) }
    ensures less { OnOk result (IsKnownAfter (P.next_of space.old) tree.old.states at → IsNoMore tree.old.states tree.new.states (weight (is_in list.old) tree.old.nodes.items) (weight (is_in list.new) tree.new.nodes.items)) }
    ensures space { IsSameSpace P.first P.goal P.count P.next_of P.fits space.old space.new }
{
    expand_from(alloc, space, tree, list, number_of(at)?)
}
