//! Weighted sums in 128 bits, whether a proof is right, and what it bounds at a state.
ghost use Rattle.std.specs.Prelude.{◌≡◌, ◌<◌, ◌≤◌, ◌^◌, ◌*◌, ◌+◌, ◌-◌, ◌/◌, pos, int_le, ◌+ℤ◌, ◌*ℤ◌, true, false, length, unsigned_abs, All};
ghost use Rattle.std.specs.List.{list_all};
ghost use Rattle.np_flat.specs.Flats.{IsFlat, IsStep, IsStateOf, AreSmall, AreWithinLimit};
ghost use Rattle.np_count.specs.Rows.{coefficient, right, is_allowed};
ghost use Rattle.np_count.specs.Bounds.{fits, with_item, added_up, pays, is_small, is_item, is_proof, at_least_0, bound_below, bound_of, proof_bound};

use crate::proof::{Proof, Row};
use crate::rows::{coefficient, is_allowed, right};
use np_flat::{Flat, FlatState, FlatStep, Parts};
use np_space::Bound;

/// A sum with one more weighted amount, where the product and the sum fit.
fn with_item(sum: i128, weight: u64, amount: i128) -> Option<i128>
    ensures { result ≡ with_item sum weight amount }
{
    if amount == 0 {
        return Some(sum);
    }
    let product = i128::from(weight).checked_mul(amount)?;
    sum.checked_add(product)
}

/// The weighted coefficients of a step, where every product and partial sum fits.
fn coefficients(flat: &Flat, step: &FlatStep, items: &[(u64, Row)]) -> Option<i128>
    requires step { IsStep (length flat.now.facts) (length flat.now.values) (length flat.now.subgoals) step.now }
    requires rows { All (λ i. is_allowed flat.now i.1 ≡ true) items.now }
    ensures { result ≡ added_up (coefficient flat.now step.now) (pos 0) items.now }
{
    let mut sum = 0;
    for (weight, row) in items {
        sum = with_item(sum, *weight, coefficient(flat, step, row))?;
    }
    Some(sum)
}

/// The weighted right sides at a state, where every product and partial sum fits.
fn right_sides(parts: &Parts, state: &FlatState, items: &[(u64, Row)]) -> Option<i128>
    requires flat { IsFlat parts.now }
    requires state { IsStateOf parts.now state.now }
    requires small { AreSmall state.now.values }
    requires rows { All (λ i. is_small i.1 ≡ true) items.now }
    ensures { result ≡ added_up (right parts.now state.now) (pos 0) items.now }
{
    let mut sum = 0;
    for (weight, row) in items {
        sum = with_item(sum, *weight, right(parts, state, row))?;
    }
    Some(sum)
}

/// Whether the weighted coefficients of a step add up to at most the divisor times its cost.
fn pays(flat: &Flat, proof: &Proof, step: &FlatStep) -> bool
    requires divisor { proof.now.divisor < 2 ^ 62 }
    requires step { IsStep (length flat.now.facts) (length flat.now.values) (length flat.now.subgoals) step.now }
    requires rows { All (λ i. is_allowed flat.now i.1 ≡ true) proof.now.items }
    ensures { result ≡ pays flat.now proof.now step.now }
{
    match coefficients(flat, step, proof.items.as_slice()) {
        Some(sum) => sum <= paid(proof.divisor, step.cost),
        None => false,
    }
}

/// The divisor times a cost.
fn paid(divisor: u64, cost: u64) -> i128
    requires divisor { divisor < 2 ^ 62 }
    requires cost { cost < 2 ^ 32 }
    ensures { result ≡ pos (divisor * cost) }
{
    i128::from(divisor) * i128::from(cost)
}

/// Whether all of these steps pay.
fn all_pay(flat: &Flat, proof: &Proof, steps: &[FlatStep]) -> bool
    requires divisor { proof.now.divisor < 2 ^ 62 }
    requires steps { All (IsStep (length flat.now.facts) (length flat.now.values) (length flat.now.subgoals)) steps.now }
    requires rows { All (λ i. is_allowed flat.now i.1 ≡ true) proof.now.items }
    ensures { result ≡ list_all (pays flat.now proof.now) steps.now }
{
    steps.iter().all(|step| pays(flat, proof, step))
}

/// Whether the number of a floor is within its limit.
fn is_small(row: &Row) -> bool
    ensures { result ≡ is_small row.now }
{
    match row {
        Row::Floor(_, floor) => floor.unsigned_abs() < 1 << 125,
        _ => true,
    }
}

/// Whether the weight is within its limit, and the row allowed.
fn is_item(parts: &Parts, item: &(u64, Row)) -> bool
    requires { IsFlat parts.now }
    ensures { result ≡ is_item parts.now item.now }
{
    0 < item.0 && item.0 < 1 << 62 && is_small(&item.1) && is_allowed(parts, &item.1)
}

/// Whether all of these are items.
fn are_items(parts: &Parts, items: &[(u64, Row)]) -> bool
    requires { IsFlat parts.now }
    ensures { result ≡ list_all (is_item parts.now) items.now }
{
    items.iter().all(|item| is_item(parts, item))
}

/// Whether a proof is right, as far as that doesn't depend on a state. It takes no memory.
#[tactic(auto, using(crate::proofs::Members::rows_allowed))]
pub fn proof_ok(flat: &Flat, proof: &Proof) -> bool
    ensures { result ≡ is_proof flat.now proof.now }
{
    let parts = flat.parts();
    proof.divisor < 1 << 62
        && are_items(parts, proof.items.as_slice())
        && all_pay(flat, proof, parts.steps.as_slice())
}

/// A number below 2^62 as a bound.
fn bound_below(number: u128) -> Option<Bound>
    ensures { result ≡ bound_below number }
{
    if number < 1 << 62 {
        Some(Bound::AtLeast(number as u64))
    } else {
        None
    }
}

/// The number, and 0 where it is below 0.
fn at_least_0(number: i128) -> u128
    ensures value { result ≡ at_least_0 number }
    ensures small { result < 2 ^ 127 }
{
    if number < 0 { 0 } else { number as u128 }
}

/// The weighted right sides over the divisor, rounded up.
fn bound_of(divisor: u64, total: i128) -> Option<Bound>
    ensures { result ≡ bound_of divisor total }
{
    if divisor == 0 {
        Some(if 0 < total {
            Bound::NoPlan
        } else {
            Bound::AtLeast(0)
        })
    } else {
        bound_below((at_least_0(total) + u128::from(divisor - 1)) / u128::from(divisor))
    }
}

/// What a right proof bounds at a state. None exactly where a product, a partial sum or the bound passes its limit. It takes no
/// memory.
pub fn proof_value(flat: &Flat, proof: &Proof, state: &FlatState) -> Option<Bound>
    requires right { is_proof flat.now proof.now ≡ true }
    requires state { IsStateOf flat.now state.now }
    requires small { AreWithinLimit state.now.values }
    ensures { result ≡ proof_bound flat.now proof.now state.now }
{
    let total = right_sides(flat.parts(), state, proof.items.as_slice())?;
    bound_of(proof.divisor, total)
}
