//! Rows of truth values.
ghost use Rattle.std.specs.Prelude.{◌≡◌, ◌<◌, ◌==◌, ℕ, Some, false, length, replicate, slice_get, slice_set, IfOk, if◌then◌else◌};
ghost use Rattle.np_state.specs.Words.{is_set};

use crate::words::Words;
use std::alloc::{AllocError, Global};
use std::hash::{Hash, Hasher};
use std::marker::Model;

/// A row of truth values, which contracts see as their list. 64 values are kept in one word.
#[derive(Debug, Drop)]
pub struct BitRow {
    // At least one word. The bits past the last value are 0.
    words: Words,
}

impl Model for BitRow {
    ghost use Rattle.std.specs.Prelude.{List, Bool};
    ghost use Rattle.std.specs.Coded.{coded_list, coded_bool};
    ghost use Rattle.np_state.specs.Words.{row_of, ArePacked};

    ghost Value = { List Bool };

    ghost coded = { coded_list coded_bool };

    ghost view = { λ r. row_of r.words.0 r.words.1 };

    ghost invariant = { λ r. ArePacked r.words.0 r.words.1 };
}

impl PartialEq for BitRow {
    ghost use Rattle.np_state.specs.Bits.{bits_eq, bits_eq_laws};
    ghost use Rattle.std.specs.Cmp.{partial_equiv_from_equiv};

    ghost eq = { bits_eq };

    ghost laws = { partial_equiv_from_equiv bits_eq_laws };

    fn eq(&self, other: &BitRow) -> bool {
        self.words.len() == other.words.len() && self.words.as_slice() == other.words.as_slice()
    }
}

impl Eq for BitRow {
    ghost use Rattle.np_state.specs.Bits.{bits_eq_laws};

    ghost laws = { bits_eq_laws };
}

impl Hash for BitRow {
    ghost use Rattle.np_state.specs.Bits.{bits_fed, bits_fed_alike};

    ghost hash_input = { bits_fed };

    ghost respects_eq = { bits_fed_alike };

    fn hash<H: Hasher>(&self, state: &mut H) {
        u64::hash_slice(self.words.as_slice(), state);
    }
}

/// Whether a bit of the word is 1.
fn is_set(word: u64, place: usize) -> bool
    requires { place < 64 }
    ensures { result ≡ is_set word place }
{
    (word >> place) & 1 == 1
}

/// The word with one bit changed.
fn with_bit(word: u64, place: usize, on: bool) -> u64
    requires { place < 64 }
    ensures { (i : ℕ) → i < 64 → is_set result i ≡ (if i == place then on else is_set word i) }
{
    let bit = 1u64 << place;
    if on { word | bit } else { word & !bit }
}

impl BitRow {
    /// `n` values that are all false.
    pub fn new(alloc: Global, n: usize) -> Result<BitRow, AllocError>
        ensures { IfOk result (λ row. row ≡ replicate n false) }
    {
        let words = Words::zeros(alloc, n.saturating_sub(1) / 64 + 1, n)?;
        Ok(BitRow { words })
    }

    /// The same values.
    pub fn copy(&self, alloc: Global) -> Result<BitRow, AllocError>
        ensures { IfOk result (λ copy. copy ≡ self.now) }
    {
        let words = self.words.copy(alloc)?;
        Ok(BitRow { words })
    }

    /// How many values there are.
    pub fn len(&self) -> usize
        ensures { result ≡ length self.now }
    {
        self.words.len()
    }

    /// The value at a place.
    pub fn get(&self, i: usize) -> bool
        requires { i < length self.now }
        ensures { slice_get self.now i ≡ Some result }
    {
        is_set(self.words.at(i / 64), i % 64)
    }

    /// Changes the value at a place, and no other.
    pub fn set(&mut self, i: usize, on: bool)
        requires { i < length self.old }
        ensures { self.new ≡ slice_set self.old i on }
    {
        let word = with_bit(self.words.at(i / 64), i % 64, on);
        self.words.set(i / 64, word);
    }
}
