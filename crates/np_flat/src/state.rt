//! Flat states.
ghost use Rattle.std.specs.Prelude.{◌++◌};

use crate::numbers::has;
use sqlite_items::Items;
use std::hash::{Hash, Hasher};

/// A flat state: the numbers of the facts that are true, ascending, and the scaled values by number.
#[derive(Debug, Drop)]
pub struct FlatState {
    pub facts: Items<u32>,
    pub values: Items<i128>,
}

impl FlatState {
    ghost use Rattle.std.specs.Prelude.{◌≡◌};
    ghost use Rattle.np_flat.specs.Flats.{IsAscending};
    ghost use Rattle.np_flat.specs.States.{has};

    /// Whether the fact of this number is true. It takes no memory.
    pub fn has(&self, fact: u32) -> bool
        requires { IsAscending self.now.facts }
        ensures { result ≡ has self.now.facts fact }
    {
        has(self.facts.as_slice(), fact)
    }
}

impl PartialEq for FlatState {
    ghost use Rattle.std.specs.Cmp.{partial_equiv_from_equiv};
    ghost use Rattle.np_flat.specs.Same.{same_state, same_state_laws};

    ghost eq = { same_state };

    ghost laws = { partial_equiv_from_equiv same_state_laws };

    fn eq(&self, other: &FlatState) -> bool {
        self.facts.as_slice() == other.facts.as_slice()
            && self.values.as_slice() == other.values.as_slice()
    }
}

impl Eq for FlatState {
    ghost use Rattle.np_flat.specs.Same.{same_state_laws};

    ghost laws = { same_state_laws };
}

impl Hash for FlatState {
    ghost use Rattle.std.specs.Prelude.{◌++◌};
    ghost use Rattle.std.proofs.Common.{ap};
    ghost use Rattle.std.specs.Hash as fed;
    ghost use Rattle.np_flat.specs.Same.{same_state-Decides};

    ghost hash_input = { λ s. fed.slice fed.u32 s.facts ++ fed.slice fed.i128 s.values };

    ghost respects_eq = { λ a b e. ap (λ s. fed.slice fed.u32 s.facts ++ fed.slice fed.i128 s.values) ((same_state-Decides a b).0 e) };

    fn hash<H: Hasher>(&self, state: &mut H) {
        self.facts.as_slice().hash(state);
        self.values.as_slice().hash(state);
    }
}
