//! The value of a form.
ghost use Rattle.std.specs.Prelude.{◌≡◌, ◌<◌, ◌≤◌, ◌^◌, ◌+ℤ◌, ◌*ℤ◌, length, unsigned_abs};
ghost use Rattle.np_flat.specs.declared.limits.TheConstants.{COEFFICIENT_SIZE};
ghost use Rattle.np_flat.specs.States.{form_value};
ghost use Rattle.np_flat.specs.Flats.{IsForm, AreSmall};

use crate::parts::Form;
use crate::state::FlatState;

impl Form {
    /// The exact value of the form in a state. It takes no memory.
    pub fn value(&self, state: &FlatState) -> i128
        requires form { IsForm (length state.now.values) self.now }
        requires small { AreSmall state.now.values }
        ensures value { result ≡ form_value self.now state.now }
        ensures small { unsigned_abs result < 2 ^ 125 }
    {
        let values = state.values.as_slice();
        let mut sum = self.constant;
        for (number, coefficient) in self.terms.as_slice() {
            sum = with_term(sum, *coefficient, values[*number as usize]);
        }
        sum
    }
}

/// A sum with one more term, a coefficient times a value.
pub fn with_term(sum: i128, coefficient: i128, value: i128) -> i128
    requires sum { unsigned_abs sum ≤ 2 ^ 126 }
    requires coefficient { unsigned_abs coefficient ≤ COEFFICIENT_SIZE }
    requires value { unsigned_abs value ≤ 2 ^ 88 }
    ensures { result ≡ sum +ℤ (coefficient *ℤ value) }
{
    sum + coefficient * value
}
