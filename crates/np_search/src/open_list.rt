//! The open list.
ghost use Rattle.std.specs.Prelude.{◌≡◌, ℕ, Bool, false, true, OnOk, OnErr, IfSome, IfNone};
ghost use Rattle.np_search.specs.Opens.{is_in, Puts, Takes, IsLeast};
ghost use Rattle.np_search.specs.Keys.{IsSameList};
ghost use Rattle.np_search.specs.declared.open_list.Key.{Key};

use std::alloc::{AllocError, Global};
use std::cmp::Reverse;
use std::collections::BTreeSet;

/// What the list is ordered by. Less goes first.
#[derive(Clone, Copy, Debug, PartialEq, Eq, PartialOrd, Ord)]
pub(crate) struct Key {
    pub first: u64,
    pub second: u64,
}

/// Nodes by number, each with a key. Of equal keys the node found last goes first.
#[derive(Drop)]
pub(crate) struct OpenList {
    entries: BTreeSet<(Key, Reverse<usize>)>,
}

impl OpenList {
    /// An empty list.
    pub(crate) fn new(alloc: Global) -> OpenList
        ensures { (node : ℕ) (key : Key) → is_in result node key ≡ false }
    {
        OpenList {
            entries: BTreeSet::new(alloc),
        }
    }

    /// Puts a node in.
    pub(crate) fn insert(&mut self, node: usize, key: Key) -> Result<(), AllocError>
        ensures { OnOk result (Puts (is_in self.old) (is_in self.new) node key) }
    {
        self.entries.insert((key, Reverse(node)))?;
        Ok(())
    }

    /// Takes a node out.
    pub(crate) fn remove(&mut self, node: usize, key: Key)
        ensures { Takes (is_in self.old) (is_in self.new) node key }
    {
        self.entries.remove(&(key, Reverse(node)));
    }

    /// Takes out a node of least key.
    pub(crate) fn pop(&mut self) -> Option<(usize, Key)>
        ensures taken { IfSome result (λ p. Takes (is_in self.old) (is_in self.new) p.0 p.1) }
        ensures there { IfSome result (λ p. is_in self.old p.0 p.1 ≡ true) }
        ensures least { IfSome result (λ p. IsLeast (is_in self.old) p.1) }
        ensures empty { IfNone result ((node : ℕ) (key : Key) → is_in self.old node key ≡ false) }
        ensures unchanged { IfNone result (IsSameList (is_in self.old) (is_in self.new)) }
    {
        let (key, Reverse(node)) = self.entries.pop_first()?;
        Some((node, key))
    }
}
