//! Ascending lists of numbers.
ghost use Rattle.std.specs.Prelude.{◌≡◌, OnOk, OnErr};
ghost use Rattle.np_flat.specs.Flats.{IsAscending};
ghost use Rattle.np_flat.specs.States.{has, put_in, put_all};

use std::alloc::AllocError;

/// Whether a number is in an ascending list. It takes no memory.
#[tactic(auto, using(crate::proofs::Ascending::has_found))]
pub fn has(numbers: &[u32], number: u32) -> bool
    requires { IsAscending numbers.now }
    ensures { result ≡ has numbers.now number }
{
    numbers.binary_search(&number).is_ok()
}

/// Whether a wide number is in an ascending list of wide numbers. It takes no memory.
#[tactic(auto, using(crate::proofs::Ascending::has_found))]
pub fn has_wide(numbers: &[u64], number: u64) -> bool
    requires { IsAscending numbers.now }
    ensures { result ≡ has numbers.now number }
{
    numbers.binary_search(&number).is_ok()
}

/// Puts a number in its place in an ascending list, which stays as it is where the number is in it, and where there is
/// no memory for one more number, which is an error.
pub fn put_in(numbers: &mut Vec<u32>, number: u32) -> Result<(), AllocError>
    requires { IsAscending numbers.old.items }
    ensures put { OnOk result (numbers.new.items ≡ put_in number numbers.old.items) }
    ensures ascending { OnOk result (IsAscending numbers.new.items) }
    ensures kept { OnErr result (numbers.new.items ≡ numbers.old.items) }
{
    if let Err(place) = numbers.as_slice().binary_search(&number) {
        numbers.insert(place, number)?;
    }
    Ok(())
}

/// Puts all the numbers in their places in an ascending list. Out of memory is an error.
pub fn put_all(numbers: &mut Vec<u32>, more: &[u32]) -> Result<(), AllocError>
    requires { IsAscending numbers.old.items }
    ensures { OnOk result (numbers.new.items ≡ put_all more.now numbers.old.items) }
{
    for number in more {
        put_in(numbers, *number)?;
    }
    Ok(())
}
