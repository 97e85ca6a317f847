//! The text of the certificate of what a search has expanded.
ghost use Rattle.std.specs.Prelude.{◌≡◌, ◌++◌, IfOk, OnOk};
ghost use Rattle.std.specs.List.{flat_map};
ghost use Rattle.np_frac.specs.Fractions.{whole};
ghost use Rattle.np_state.specs.States.{value_of};
ghost use Rattle.np_space.specs.Runs.{IsReached};
ghost use Rattle.np_blind.specs.Spaces.{first_of, next_of};
ghost use Rattle.np_cert.specs.Layout.{entry_text, certificate_text};
ghost use Rattle.np_evidence.specs.Certified.{less};
ghost use Rattle.np_evidence.specs.Entries.{entry_of, entries_at, certificate_of, AreReached};

use np_blind::BlindSpace;
use np_cert::{Entry, Limit, Why, print_head, push_end, push_entry};
use np_flat::Flat;
use np_search::{Node, Tree};
use np_state::State;
use std::alloc::{AllocError, Global};

/// The text of the certificate of what a search has expanded, with this claim. Out of memory is the only error.
pub(crate) fn evidence(
    alloc: Global,
    flat: &Flat,
    tree: &Tree<i128>,
    claim: Limit,
) -> Result<Vec<u8>, AllocError>
    requires { AreReached flat.now tree.now.states tree.now.nodes.items }
    ensures { IfOk result (λ text. text.items ≡ certificate_text (certificate_of claim tree.now.states tree.now.nodes.items)) }
{
    let space = BlindSpace::new(flat);
    let mut text = print_head(alloc, claim, &[])?;
    for number in 0..tree.nodes.len() {
        let node = &tree.nodes[number];
        add(
            alloc,
            &mut text,
            &space,
            tree.states.get(number),
            node,
            claim,
        )?;
    }
    push_end(&mut text)?;
    Ok(text)
}

/// Adds the entry of a state, if it is expanded.
fn add(
    alloc: Global,
    text: &mut Vec<u8>,
    space: &BlindSpace,
    state: &State<i128>,
    node: &Node,
    claim: Limit,
) -> Result<(), AllocError>
    requires { IsReached (next_of space.now) (first_of space.now) (value_of whole state.now) }
    ensures { OnOk result (text.new.items ≡ text.old.items ++ flat_map entry_text (entries_at claim (value_of whole state.now) node.now)) }
{
    if node.expanded {
        push_entry(text, &entry(alloc, space, state, node.cost, claim)?)?;
    }
    Ok(())
}

/// The entry of a state that was expanded at this path cost.
fn entry(
    alloc: Global,
    space: &BlindSpace,
    state: &State<i128>,
    cost: u64,
    claim: Limit,
) -> Result<Entry, AllocError>
    requires { IsReached (next_of space.now) (first_of space.now) (value_of whole state.now) }
    ensures { IfOk result (λ e. e ≡ entry_of claim (value_of whole state.now) cost) }
{
    Ok(Entry {
        state: space.flat_state(alloc, state)?,
        bound: less(claim, cost),
        why: Why::Expanded,
    })
}

/// What a cost leaves of a claim.
fn less(claim: Limit, cost: u64) -> Limit
    ensures { result ≡ less claim cost }
{
    match claim {
        Limit::Number(claim) => Limit::Number(claim.saturating_sub(u128::from(cost))),
        Limit::Absent => Limit::Absent,
    }
}
