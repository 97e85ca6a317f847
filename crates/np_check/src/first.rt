//! The first entry of each state.
ghost use Rattle.std.specs.Prelude.{◌≡◌, length, IfOk, MatchOption};

use indexmap::IndexMap;
use np_cert::{Entry, Limit};
use np_flat::FlatState;
use std::alloc::{AllocError, Global};
use std::marker::Model;

/// Entries, with the number of the first one of each state. Contracts see the entries.
#[derive(Drop)]
pub struct FirstEntries<'a> {
    entries: &'a [Entry],
    numbers: IndexMap<&'a FlatState, usize>,
    // Whether no two entries have the same state.
    distinct: bool,
}

impl<'a> Model for FirstEntries<'a> {
    ghost use Rattle.std.specs.Prelude.{List};
    ghost use Rattle.np_cert.specs.declared.certificate.Entry.{Entry};
    ghost use Rattle.np_check.specs.First.{ArePlaced};

    ghost Value = { List Entry };

    ghost view = { λ f. f.entries.now };

    ghost invariant = { λ f. ArePlaced f.numbers f.distinct f.entries.now 0 };
}

impl<'a> FirstEntries<'a> {
    ghost use Rattle.std.specs.Prelude.{Some, slice_get};
    ghost use Rattle.std.specs.Option.{option_map};
    ghost use Rattle.np_cert.specs.declared.certificate.Entry.{Entry};
    ghost use Rattle.np_cert.specs.Valid.{bound_at};
    ghost use Rattle.np_check.specs.First.{HasNone, IsFirst};

    /// The entries, each put in once, the last one first, so that the number of the first one stays. Out of memory is an
    /// error.
    pub fn new(alloc: Global, entries: &'a [Entry]) -> Result<FirstEntries<'a>, AllocError>
        ensures { IfOk result (λ f. f ≡ entries.now) }
    {
        let mut numbers = IndexMap::with_capacity(alloc, entries.len())?;
        let mut distinct = true;
        for number in (0..entries.len()).rev() {
            let later = numbers.insert(&entries[number].state, number)?;
            distinct &= later.is_none();
        }
        Ok(FirstEntries {
            entries,
            numbers,
            distinct,
        })
    }

    /// The number of the first entry of a state.
    fn number(&self, state: &FlatState) -> Option<usize>
        ensures { MatchOption result (HasNone self.now state.now 0 (length self.now)) (IsFirst self.now state.now 0) }
    {
        self.numbers.get(&state).copied()
    }

    /// The number of the first entry of the state of an entry, which has this number.
    #[tactic(auto, using(crate::proofs::LookUps::distinct_first))]
    pub fn number_of(&self, number: usize, state: &FlatState) -> Option<usize>
        requires { option_map (λ (e : Entry). e.state) (slice_get self.now number) ≡ Some state.now }
        ensures { MatchOption result (HasNone self.now state.now 0 (length self.now)) (IsFirst self.now state.now 0) }
    {
        if self.distinct {
            return Some(number);
        }
        self.number(state)
    }

    /// The number of the first entry of a state, which one comparison finds where it is the guess. Any number may be guessed.
    fn number_near(&self, guess: usize, state: &FlatState) -> Option<usize>
        ensures { MatchOption result (HasNone self.now state.now 0 (length self.now)) (IsFirst self.now state.now 0) }
    {
        if self.distinct && guess < self.entries.len() && self.entries[guess].state == *state {
            return Some(guess);
        }
        self.number(state)
    }

    /// The bound of the first entry of a state; 0 where there is none.
    pub fn bound(&self, state: &FlatState) -> Limit
        ensures { result ≡ bound_at self.now state.now }
    {
        // Any guess serves; the start's entry is mostly the first one.
        let mut guess = 0;
        self.bound_near(&mut guess, state)
    }

    /// The bound of the first entry of a state; 0 where there is none. The entry is looked for at the guess first, which
    /// then becomes the number after it. Any number may be guessed.
    pub fn bound_near(&self, guess: &mut usize, state: &FlatState) -> Limit
        ensures { result ≡ bound_at self.now state.now }
    {
        match self.number_near(*guess, state) {
            Some(number) => {
                *guess = number + 1;
                self.entries[number].bound
            }
            None => Limit::Number(0),
        }
    }
}
