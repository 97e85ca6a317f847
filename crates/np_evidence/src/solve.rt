//! The search for a cheapest plan of a flat task.
ghost use Rattle.std.specs.Prelude.{◌≤◌, ◌^◌, IfOk};
ghost use Rattle.np_flat.specs.Flats.{IsFlat};
ghost use Rattle.np_search.specs.declared.astar.Found.TheVariants.{Goal, Empty, Spent};
ghost use Rattle.np_evidence.specs.Outcomes.{IsOutcomeOf};
ghost use Rattle.np_evidence.specs.Searches.{IsFoundIn};

use crate::evidence::evidence;
use crate::outcome::{End, Outcome};
use crate::way_back::steps_to;
use np_blind::BlindSpace;
use np_cert::Limit;
use np_flat::Flat;
use np_search::{Found, Tree, search};
use std::alloc::{AllocError, Global};

/// Searches for a cheapest plan, expanding at most so many different states, always one of least path cost. Out of memory is the only
/// error.
pub fn solve_flat(alloc: Global, flat: &Flat, nodes: u32) -> Result<Outcome, AllocError>
    requires { nodes ≤ 2 ^ 24 }
    ensures { IfOk result (IsOutcomeOf flat.now nodes) }
{
    // For the proof, which learns by this call that the task is within its limits.
    let _parts = flat.parts();
    let mut space = BlindSpace::new(flat);
    let found = search(alloc, &mut space, nodes)?;
    outcome_of(alloc, flat, found, nodes)
}

/// What a search comes to.
fn outcome_of(
    alloc: Global,
    flat: &Flat,
    found: Found<i128>,
    nodes: u32,
) -> Result<Outcome, AllocError>
    requires flat { IsFlat flat.now }
    requires few { nodes ≤ 2 ^ 24 }
    requires found { IsFoundIn flat.now nodes found }
    ensures { IfOk result (IsOutcomeOf flat.now nodes) }
{
    match found {
        Found::Goal { tree, goal } => after_goal(alloc, flat, tree, goal, nodes),
        Found::Empty { tree } => after_empty(alloc, flat, tree, nodes),
        Found::Spent { tree, bound } => after_spent(alloc, flat, tree, bound, nodes),
    }
}

/// What a search comes to that found a goal state.
fn after_goal(
    alloc: Global,
    flat: &Flat,
    tree: Tree<i128>,
    goal: usize,
    nodes: u32,
) -> Result<Outcome, AllocError>
    requires flat { IsFlat flat.now }
    requires few { nodes ≤ 2 ^ 24 }
    requires found { IsFoundIn flat.now nodes (Goal tree goal) }
    ensures { IfOk result (IsOutcomeOf flat.now nodes) }
{
    let steps = steps_to(alloc, tree.nodes.as_slice(), goal, nodes)?;
    let cost = tree.nodes[goal].cost;
    let text = evidence(alloc, flat, &tree, Limit::Number(u128::from(cost)))?;
    Ok(Outcome {
        end: End::Plan(steps, cost),
        text,
    })
}

/// What a search comes to that left no state open.
fn after_empty(
    alloc: Global,
    flat: &Flat,
    tree: Tree<i128>,
    _nodes: u32,
) -> Result<Outcome, AllocError>
    requires flat { IsFlat flat.now }
    requires few { _nodes ≤ 2 ^ 24 }
    requires found { IsFoundIn flat.now _nodes (Empty tree) }
    ensures { IfOk result (IsOutcomeOf flat.now _nodes) }
{
    let text = evidence(alloc, flat, &tree, Limit::Absent)?;
    Ok(Outcome {
        end: End::NoPlan,
        text,
    })
}

/// What a search comes to that spent its budget.
fn after_spent(
    alloc: Global,
    flat: &Flat,
    tree: Tree<i128>,
    bound: u64,
    _nodes: u32,
) -> Result<Outcome, AllocError>
    requires flat { IsFlat flat.now }
    requires few { _nodes ≤ 2 ^ 24 }
    requires found { IsFoundIn flat.now _nodes (Spent tree bound) }
    ensures { IfOk result (IsOutcomeOf flat.now _nodes) }
{
    let text = evidence(alloc, flat, &tree, Limit::Number(u128::from(bound)))?;
    Ok(Outcome {
        end: End::Spent(bound),
        text,
    })
}
