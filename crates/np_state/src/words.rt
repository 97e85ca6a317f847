//! Words of 64 bits.
ghost use Rattle.std.specs.Prelude.{◌≡◌, ◌<◌, length, replicate, slice_get, slice_set, Some, IfOk};

use std::alloc::{AllocError, Global};
use std::marker::Model;
use std::slice::from_ref;

/// Some words, and how many values are in them: contracts see the list and the number. One word alone takes no memory.
#[derive(Debug, Drop)]
pub(crate) struct Words {
    kept: Kept,
}

// A number of 32 bits beside the one word keeps this at 16 bytes.
#[derive(Debug, Drop)]
enum Kept {
    One(u32, u64),
    More(Box<Many>),
}

#[derive(Debug, Drop)]
struct Many {
    words: Vec<u64>,
    len: usize,
}

impl Model for Words {
    ghost use Rattle.std.specs.Prelude.{ℕ, List};
    ghost use Rattle.std.specs.Coded.{coded×, coded_list, coded_ℕ};

    ghost Value = { List ℕ × ℕ };

    ghost coded = { coded× (coded_list coded_ℕ) coded_ℕ };

    ghost use Rattle.np_state.specs.Kept.{words_in};

    ghost view = { λ w. words_in w.kept };
}

impl Words {
    /// So many words, which are all 0, for so many values.
    pub(crate) fn zeros(alloc: Global, count: usize, len: usize) -> Result<Words, AllocError>
        ensures { IfOk result (λ words. words ≡ (replicate count 0, len)) }
    {
        if count == 1 && len <= 64 {
            return Ok(Words {
                kept: Kept::One(len as u32, 0),
            });
        }
        let words = vec![in alloc; 0u64; count]?;
        let many = Box::new(alloc, Many { words, len })?;
        Ok(Words {
            kept: Kept::More(many),
        })
    }

    /// The same words.
    pub(crate) fn copy(&self, alloc: Global) -> Result<Words, AllocError>
        ensures { IfOk result (λ words. words ≡ self.now) }
    {
        match &self.kept {
            Kept::One(len, word) => Ok(Words {
                kept: Kept::One(*len, *word),
            }),
            Kept::More(many) => {
                let words = Vec::from_slice(alloc, many.words.as_slice())?;
                let len = many.len;
                let many = Box::new(alloc, Many { words, len })?;
                Ok(Words {
                    kept: Kept::More(many),
                })
            }
        }
    }

    /// How many values are in them.
    pub(crate) fn len(&self) -> usize
        ensures { result ≡ self.now.1 }
    {
        match &self.kept {
            Kept::One(len, _) => *len as usize,
            Kept::More(many) => many.len,
        }
    }

    /// All of them.
    pub(crate) fn as_slice(&self) -> &[u64]
        ensures { result.now ≡ self.now.0 }
    {
        match &self.kept {
            Kept::One(_, word) => from_ref(word),
            Kept::More(many) => many.words.as_slice(),
        }
    }

    /// The word at a place.
    pub(crate) fn at(&self, place: usize) -> u64
        requires { place < length self.now.0 }
        ensures { slice_get self.now.0 place ≡ Some result }
    {
        match &self.kept {
            Kept::One(_, word) => *word,
            Kept::More(many) => many.words[place],
        }
    }

    /// Changes the word at a place, and no other.
    pub(crate) fn set(&mut self, place: usize, word: u64)
        requires { place < length self.old.0 }
        ensures { self.new ≡ (slice_set self.old.0 place word, self.old.1) }
    {
        match &mut self.kept {
            Kept::One(_, only) => *only = word,
            Kept::More(many) => many.words[place] = word,
        }
    }
}
