//! How a step changes the value of a form.
ghost use Rattle.std.specs.Prelude.{◌≡◌, ◌<◌, ◌≤◌, ◌^◌, length, map, All, unsigned_abs};
ghost use Rattle.np_flat.specs.declared.limits.TheConstants.{CHANGE_SIZE, COEFFICIENT_SIZE, MOST_TERMS};
ghost use Rattle.np_flat.specs.Flats.{IsAscending};
ghost use Rattle.np_flat.specs.Achieving.{change_on, net_terms};

use crate::form::with_term;

/// The change on the value of this number; 0 where there is none.
fn change_on(changes: &[(u32, i128)], number: u32) -> i128
    requires small { All (λ c. unsigned_abs c.1 < CHANGE_SIZE) changes.now }
    requires ascending { IsAscending (map (λ c. c.0) changes.now) }
    ensures value { result ≡ change_on changes.now number }
    ensures small { unsigned_abs result ≤ CHANGE_SIZE }
{
    match changes.binary_search_by_key(&number, |change| change.0) {
        Ok(at) => changes[at].1,
        Err(_) => 0,
    }
}

/// Coefficient times change, added up over the terms. It takes no memory.
pub fn net_terms(changes: &[(u32, i128)], terms: &[(u32, i128)]) -> i128
    requires changes { All (λ c. unsigned_abs c.1 < CHANGE_SIZE) changes.now }
    requires ascending { IsAscending (map (λ c. c.0) changes.now) }
    requires terms { All (λ t. unsigned_abs t.1 < COEFFICIENT_SIZE) terms.now }
    requires few { length terms.now ≤ MOST_TERMS }
    ensures value { result ≡ net_terms changes.now terms.now }
    ensures small { unsigned_abs result < 2 ^ 99 }
{
    let mut sum = 0;
    for (value, coefficient) in terms {
        sum = with_term(sum, *coefficient, change_on(changes, *value));
    }
    sum
}
