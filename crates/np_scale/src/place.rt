//! Pairs in the order of their numbers.
ghost use Rattle.std.specs.Prelude.{◌≡◌, ◌≤◌, nat_lt, length, OnOk};
ghost use Rattle.std.specs.List.{position_or_len};
ghost use Rattle.np_scale.specs.Forms.{in_place};

use std::alloc::AllocError;

/// Puts a pair in its place by number, after those whose numbers are at most its own. Out of memory is an error.
pub fn put_in_place<T: Drop>(
    pairs: &mut Vec<(u32, T)>,
    number: u32,
    value: T,
) -> Result<(), AllocError>
    ensures { OnOk result (pairs.new.items ≡ in_place (number, value) pairs.old.items) }
{
    let place = place_for(pairs.as_slice(), number);
    pairs.insert(place, (number, value))?;
    Ok(())
}

/// The place of the first pair with a greater number; the number of pairs where there is none.
fn place_for<T>(pairs: &[(u32, T)], number: u32) -> usize
    ensures place { result ≡ position_or_len (λ p. nat_lt number p.0) pairs.now }
    ensures within { result ≤ length pairs.now }
{
    for (place, pair) in pairs.iter().enumerate() {
        if number < pair.0 {
            return place;
        }
    }
    pairs.len()
}
