//! Bits as numbers, and back.
ghost use Rattle.std.specs.Prelude.{◌≡◌, ◌<◌, length, All, IfOk, true};
ghost use Rattle.np_blind.specs.Readings.{bits_of, true_numbers};

use crate::after::set_all;
use np_state::BitRow;
use std::alloc::{AllocError, Global};

/// So many bits. Those of the numbers are true.
pub(crate) fn bits_of(alloc: Global, count: usize, numbers: &[u32]) -> Result<BitRow, AllocError>
    requires { All (λ n. n < count) numbers.now }
    ensures { IfOk result (λ bits. bits ≡ bits_of count numbers.now) }
{
    let mut bits = BitRow::new(alloc, count)?;
    set_all(&mut bits, numbers, true);
    Ok(bits)
}

/// The numbers of the bits that are true, ascending.
pub(crate) fn numbers_of(alloc: Global, bits: &BitRow, count: u32) -> Result<Vec<u32>, AllocError>
    requires { count ≡ length bits.now }
    ensures { IfOk result (λ numbers. numbers.items ≡ true_numbers bits.now) }
{
    let mut numbers = Vec::new(alloc);
    for number in 0..count {
        if bits.get(number as usize) {
            numbers.push(number)?;
        }
    }
    Ok(numbers)
}
