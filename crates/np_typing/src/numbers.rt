//! The number that a literal stands for.

ghost use Rattle.std.specs.Prelude.{◌≡◌, []};
ghost use Rattle.np_words.specs.Numbers.{fraction_of};
ghost use Rattle.np_names.specs.Answers.{Answers};

use np_declared::TypeFault;
use np_frac::Frac;
use np_syntax::Decimal;

/// The exact number of a literal. It has one in a text that was read; `Memory` stands for more than 38 digits.
pub fn fraction_of(number: &Decimal) -> Result<Frac, TypeFault>
    ensures { Answers [] (λ x. x ≡ fraction_of number.now) result }
{
    match number.value() {
        Some(value) => Ok(value),
        None => Err(TypeFault::Memory),
    }
}
