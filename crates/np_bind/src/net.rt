//! What a step's effects come to.
ghost use Rattle.std.specs.Prelude.{◌≡◌, ◌++◌, ◌∷◌, [], true, Ok};
ghost use Rattle.np_model.specs.States.{value_among};
ghost use Rattle.np_linear.specs.Answers.{Gives, and_then};
ghost use Rattle.np_linear.specs.Linears.{with_multiple};
ghost use Rattle.np_bind.specs.Grounding.{constant_of, number_of_amount, with_change, with_effect, with_effects, no_effects};

use crate::known::Known;
use np_frac::Frac;
use np_linear::{Finding, Halt, Linear, is_constant, with_multiple};
use np_model::{Atom, Eff, Sum, Term, atom_of, term_of};
use sqlite_items::Items;
use std::alloc::Global;

/// What effects come to together.
#[derive(Debug, Drop)]
pub struct Net {
    /// The atoms that become true, in order of text.
    pub adds: Items<Atom>,
    /// The atoms that become false unless they are added too, in order of text.
    pub deletes: Items<Atom>,
    /// The net change on each changed term, in order of the first effect on it.
    pub changes: Items<(Term, Frac)>,
}

/// The number that a linear sum is.
fn constant_of(linear: &Linear) -> Result<Frac, Halt<Finding>>
    ensures { Gives result (constant_of linear.now) }
{
    if is_constant(linear) {
        Ok(linear.constant)
    } else {
        Err(Halt::Cause(Finding::NotLinear))
    }
}

/// The number that an amount is.
#[tactic(auto, unfolding(crate::specs::Grounding::number_of_amount))]
fn number_of_amount(
    alloc: Global,
    known: &Known<'_>,
    objects: &[u32],
    amount: &Sum,
) -> Result<Frac, Halt<Finding>>
    ensures { Gives result (number_of_amount known.now.task known.now.values objects.now amount.now) }
{
    let linear = known.linear_of(alloc, objects, amount)?;
    constant_of(&linear)
}

/// The effects and one more that adds an atom.
fn with_added(net: Net, atom: Atom) -> Result<Net, Halt<Finding>>
    ensures { Gives result (Ok (record { adds = net.adds ++ atom ∷ []; deletes = net.deletes; changes = net.changes })) }
{
    let Net {
        mut adds,
        deletes,
        changes,
    } = net;
    adds.push(atom)?;
    Ok(Net {
        adds,
        deletes,
        changes,
    })
}

/// The effects and one more that deletes an atom.
fn with_deleted(net: Net, atom: Atom) -> Result<Net, Halt<Finding>>
    ensures { Gives result (Ok (record { adds = net.adds; deletes = net.deletes ++ atom ∷ []; changes = net.changes })) }
{
    let Net {
        adds,
        mut deletes,
        changes,
    } = net;
    deletes.push(atom)?;
    Ok(Net {
        adds,
        deletes,
        changes,
    })
}

/// The effects and one more that adds a number to a term, or subtracts it where the flag is false.
fn with_number(up: bool, term: Term, by: Frac, net: Net) -> Result<Net, Halt<Finding>>
    ensures { Gives result (and_then (with_multiple true up term by net.changes) (λ cs. Ok (record { adds = net.adds; deletes = net.deletes; changes = cs }))) }
{
    let Net {
        adds,
        deletes,
        changes,
    } = net;
    let changes = with_multiple(true, up, term, by, changes)?;
    Ok(Net {
        adds,
        deletes,
        changes,
    })
}

/// The effects and one more that changes a term, which has to have a start value.
fn with_change(
    alloc: Global,
    known: &Known<'_>,
    objects: &[u32],
    up: bool,
    term: Term,
    amount: &Sum,
    net: Net,
) -> Result<Net, Halt<Finding>>
    ensures { Gives result (with_change (value_among known.now.values term) up term (number_of_amount known.now.task known.now.values objects.now amount.now) net) }
{
    match known.value(&term) {
        None => Err(Halt::Cause(Finding::Missing)),
        Some(_) => {
            let by = number_of_amount(alloc, known, objects, amount)?;
            with_number(up, term, by, net)
        }
    }
}

/// The effects and one more.
fn with_effect(
    alloc: Global,
    known: &Known<'_>,
    objects: &[u32],
    net: Net,
    effect: &Eff,
) -> Result<Net, Halt<Finding>>
    ensures { Gives result (with_effect known.now.task known.now.values objects.now net effect.now) }
{
    match effect {
        Eff::Add(predicate, refs) => {
            let atom = atom_of(alloc, objects, *predicate, refs.as_slice())?;
            with_added(net, atom)
        }
        Eff::Delete(predicate, refs) => {
            let atom = atom_of(alloc, objects, *predicate, refs.as_slice())?;
            with_deleted(net, atom)
        }
        Eff::Change(up, function, refs, amount) => {
            let term = term_of(alloc, objects, *function, refs.as_slice())?;
            with_change(alloc, known, objects, *up, term, amount, net)
        }
    }
}

/// What effects come to together, or the first finding.
pub(crate) fn net_of(
    alloc: Global,
    known: &Known<'_>,
    objects: &[u32],
    effects: &[Eff],
) -> Result<Net, Halt<Finding>>
    ensures { Gives result (with_effects known.now.task known.now.values objects.now no_effects effects.now) }
{
    let mut net = Net {
        adds: Items::new(alloc),
        deletes: Items::new(alloc),
        changes: Items::new(alloc),
    };
    for effect in effects {
        net = with_effect(alloc, known, objects, net, effect)?;
    }
    Ok(net)
}
