//! Whether the state of an entry is one of the task, with values and a bound that are small.
ghost use Rattle.std.specs.Prelude.{◌↔◌, IsTrue};
ghost use Rattle.np_flat.specs.Flats.{AreNumbers, AreWithinLimit};
ghost use Rattle.np_cert.specs.Valid.{IsFitting};

use np_cert::Entry;
use np_flat::{Parts, VALUE_SIZE};

/// Whether the entry fits the task.
pub fn is_fitting(parts: &Parts, entry: &Entry) -> bool
    ensures { IsTrue result ↔ IsFitting parts.now entry.now }
{
    are_numbers(parts.facts.len(), entry.state.facts.as_slice())
        && entry.state.values.len() == parts.values.len()
        && are_within(entry.state.values.as_slice())
        && entry.bound.is_small()
}

/// Whether the numbers ascend, and are below the limit.
fn are_numbers(limit: usize, numbers: &[u32]) -> bool
    ensures { IsTrue result ↔ AreNumbers limit numbers.now }
{
    let mut least = 0;
    for number in numbers {
        let number = *number as usize;
        if number < least || limit <= number {
            return false;
        }
        least = number + 1;
    }
    true
}

/// Whether the sizes of the values are within the limit.
fn are_within(values: &[i128]) -> bool
    ensures { IsTrue result ↔ AreWithinLimit values.now }
{
    values.iter().all(|value| value.unsigned_abs() < VALUE_SIZE)
}
