//! A table as the list of its entries above 0.
ghost use Rattle.std.specs.Prelude.{◌≡◌, length, IfOk, OnOk};
ghost use Rattle.np_flat.specs.Flats.{IsFlat};
ghost use Rattle.np_table.specs.Tables.{at};
ghost use Rattle.np_table.specs.Listing.{added, AreListed};

use np_flat::Flat;
use np_space::Bound;
use std::alloc::{AllocError, Global};

/// The entries above 0, by ascending subgoal.
pub(crate) fn listed(
    alloc: Global,
    flat: &Flat,
    entries: &[Option<u64>],
) -> Result<Vec<(u32, Bound)>, AllocError>
    requires { length entries.now ≡ length flat.now.subgoals }
    ensures kept { IsFlat flat.now }
    ensures listed { IfOk result (λ numbers. AreListed (at entries.now) (length flat.now.subgoals) numbers.items) }
{
    let count = flat.parts().subgoals.len();
    let mut numbers = Vec::new(alloc);
    for subgoal in 0..count {
        add(&mut numbers, subgoal as u32, entries[subgoal])?;
    }
    Ok(numbers)
}

/// Puts the entry of this subgoal at the end, where it is above 0.
fn add(numbers: &mut Vec<(u32, Bound)>, subgoal: u32, entry: Option<u64>) -> Result<(), AllocError>
    ensures { OnOk result (numbers.new.items ≡ added numbers.old.items subgoal entry) }
{
    match entry {
        Some(number) => {
            if number != 0 {
                numbers.push((subgoal, Bound::AtLeast(number)))?;
            }
        }
        None => numbers.push((subgoal, Bound::NoPlan))?,
    }
    Ok(())
}
