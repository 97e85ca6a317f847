//! Whether a type is under itself. Ranks show at once which types aren't, so that not each has to be followed up to `object`.
ghost use Rattle.std.specs.Prelude.{◌≡◌, ◌<◌, length, IfOk, IsTrue};
ghost use Rattle.np_declared.specs.TypeRules.{is_under_itself};
ghost use Rattle.np_declared.specs.Ranks.{rank_of, NeverFall};

use np_model::{TypeName, is_under, parent_of};
use sqlite_items::Items;
use std::alloc::{AllocError, Global};

/// Types from which those that none is under are taken off, one after the other.
#[derive(Drop)]
struct Taking {
    /// How many of the types that are left are directly under each.
    under: Vec<u32>,
    /// How many types were taken off before each, and the last rank for those that are left.
    ranks: Vec<u32>,
    /// How many types are taken off.
    taken: u32,
}

impl Taking {
    /// Takes a type off if none that is left is under it. The answer says whether it is taken off now.
    fn take(&mut self, number: usize, parent: usize) -> bool {
        // the count of a type that is taken off is never 0 again
        match self.under.get_mut(number) {
            Some(under) if *under == 0 => *under = u32::MAX,
            _ => return false,
        }
        if let Some(rank) = self.ranks.get_mut(number) {
            *rank = self.taken;
        }
        self.taken = self.taken.saturating_add(1);
        if let Some(under) = self.under.get_mut(parent) {
            *under = under.saturating_sub(1);
        }
        true
    }

    /// Takes a type off if none is under it, then the one that it is under if it was the last there, and so on.
    fn take_up(&mut self, types: &[TypeName], first: usize) {
        let mut number = first;
        for _ in types {
            let Some(name) = types.get(number) else {
                return;
            };
            let parent = name.parent as usize;
            if !self.take(number, parent) {
                return;
            }
            number = parent;
        }
    }
}

/// How many types are directly under each.
fn counts_under(alloc: Global, types: &[TypeName]) -> Result<Vec<u32>, AllocError> {
    let mut counts = vec![in alloc; 0u32; types.len()]?;
    for name in types {
        if let Some(count) = counts.get_mut(name.parent as usize) {
            *count = count.saturating_add(1);
        }
    }
    Ok(counts)
}

/// When each type is taken off. Those that are under themselves never are, and have the last rank.
fn order_of(alloc: Global, types: &[TypeName]) -> Result<Vec<u32>, AllocError> {
    let mut taking = Taking {
        under: counts_under(alloc, types)?,
        ranks: vec![in alloc; u32::MAX; types.len()]?,
        taken: 0,
    };
    for number in 0..types.len() {
        taking.take_up(types, number);
    }
    Ok(taking.ranks)
}

/// The rank of a type, the last where it has none.
fn rank_of(ranks: &[u32], number: usize) -> u32
    ensures { result ≡ rank_of ranks.now number }
{
    match ranks.get(number) {
        Some(rank) => *rank,
        None => u32::MAX,
    }
}

/// Whether no type has a higher rank than the one that it is under.
fn never_fall(types: &[TypeName], ranks: &[u32]) -> bool
    ensures { IsTrue result → NeverFall types.now ranks.now }
{
    for number in 0..types.len() {
        let parent = types[number].parent as usize;
        if rank_of(ranks, number) > rank_of(ranks, parent) {
            return false;
        }
    }
    true
}

/// Ranks that never fall from a type to the one that it is under. Nothing is proved of the order in which types are taken
/// off: it is looked through once.
pub fn ranks_of(alloc: Global, types: &[TypeName]) -> Result<Items<u32>, AllocError>
    ensures { IfOk result (λ ranks. NeverFall types.now ranks) }
{
    let ranks = order_of(alloc, types)?;
    if never_fall(types, ranks.as_slice()) {
        Ok(Items::from_vec(ranks))
    } else {
        Ok(Items::new(alloc))
    }
}

/// Whether a type is under itself. It isn't where its rank is lower than that of the type that it is under.
pub fn is_under_itself(types: &[TypeName], ranks: &[u32], number: u32) -> bool
    requires { NeverFall types.now ranks.now }
    ensures { result ≡ is_under_itself types.now number }
{
    let parent = parent_of(types, number);
    if rank_of(ranks, number as usize) < rank_of(ranks, parent as usize) {
        return false;
    }
    is_under(types, parent, number)
}
