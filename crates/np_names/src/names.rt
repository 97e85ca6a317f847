//! Names by number.
ghost use Rattle.std.specs.Prelude.{◌≡◌, ◌∷◌, ◌++◌, [], Some, None, not, length, map, fold, slice_get, string_bytes, if◌then◌else◌, IfOk, OnOk, OnErr};
ghost use Rattle.std.specs.Option.{option_copied};
ghost use Rattle.np_names.specs.Names.{is_among, with_name, number_of, texts, repeats, words_of};
ghost use Rattle.np_names.specs.Faults.{faults_of};
ghost use Rattle.np_names.specs.Answers.{Answers};

use crate::fault::{Source, TypeFault, TypeWhy};
use indexmap::IndexSet;
use np_model::Name;
use np_syntax::{Group, Word};
use std::alloc::{AllocError, Global};
use std::marker::Model;

/// Different names, each with its place among them as its number. Contracts see their list.
#[derive(Drop)]
pub struct Names<'a> {
    set: IndexSet<&'a Name>,
}

impl<'a> Model for Names<'a> {
    ghost use Rattle.std.specs.Prelude.{List, ℕ};
    ghost use Rattle.np_names.specs.NameSets.{AreNumbered, names_in};

    ghost Value = { List (List ℕ) };

    ghost view = { λ n. names_in n.set };

    ghost invariant = { λ n. AreNumbered n.set };
}

impl<'a> Names<'a> {
    /// No names.
    pub fn new(alloc: Global) -> Names<'a>
        ensures { result ≡ [] }
    {
        Names {
            set: IndexSet::new(alloc),
        }
    }

    /// Whether a name is among them.
    pub fn has(&self, name: &Name) -> bool
        ensures { result ≡ is_among name.now self.now }
    {
        self.set.contains(&name)
    }

    /// The number of a name that is among them.
    pub fn find(&self, name: &Name) -> Option<u32>
        ensures { result ≡ (if is_among name.now self.now then Some (number_of self.now name.now) else None) }
    {
        match self.set.get_index_of(&name) {
            Some(number) => Some(number as u32),
            None => None,
        }
    }

    /// The number of a name, and how many they are where it isn't among them.
    pub fn number(&self, name: &Name) -> u32
        ensures { result ≡ number_of self.now name.now }
    {
        match self.set.get_index_of(&name) {
            Some(number) => number as u32,
            None => self.set.len() as u32,
        }
    }

    /// Puts a name at the end, unless it is among them. The answer says whether it was put there. They are fewer than 2^32: one
    /// more is out of memory.
    pub fn add(&mut self, name: &'a Name) -> Result<bool, TypeFault>
        ensures { Answers [] (λ fresh. (fresh ≡ not (is_among name.now self.old)) × (self.new ≡ with_name self.old name.now)) result }
    {
        if self.set.len() >= u32::MAX as usize {
            return Err(TypeFault::Memory);
        }
        let (_, fresh) = self.set.insert_full(name)?;
        Ok(fresh)
    }

    /// Adds the names of words that aren't among them.
    pub fn add_words(&mut self, words: &'a [Word]) -> Result<(), TypeFault>
        ensures { Answers [] (λ _. self.new ≡ fold with_name self.old (texts words.now)) result }
    {
        for word in words {
            self.add(&word.text)?;
        }
        Ok(())
    }

    /// How many they are.
    pub fn len(&self) -> usize
        ensures { result ≡ length self.now }
    {
        self.set.len()
    }

    /// The names in their order.
    pub fn as_slice(&self) -> &[&'a Name]
        ensures { map (λ k. k.now) result.now ≡ self.now }
    {
        self.set.as_slice()
    }
}

/// A copy of a name. Out of memory is an error.
pub fn copy(alloc: Global, name: &Name) -> Result<Name, AllocError>
    ensures { IfOk result (λ copy. copy ≡ name.now) }
{
    Ok(Name::new(String::from_str(alloc, name.as_str())?))
}

/// Puts a word's name at the end. It is a fault where the name is among them.
pub fn put<'a>(names: &mut Names<'a>, source: Source, word: &'a Word) -> Result<(), TypeFault>
    ensures { Answers (faults_of source TypeWhy.NameTwice (repeats names.old (word.now ∷ []))) (λ _. names.new ≡ names.old ++ word.now.text ∷ []) result }
{
    if names.add(&word.text)? {
        Ok(())
    } else {
        Err(TypeFault::At(source, word.place, TypeWhy::NameTwice))
    }
}

/// Puts the names of words at the end. The first that is among them is a fault.
#[tactic(auto, using(crate::proofs::Repeats::repeats_first, crate::proofs::Repeats::repeats_after, crate::proofs::Repeats::texts_more))]
pub fn put_words<'a>(
    names: &mut Names<'a>,
    source: Source,
    words: &'a [Word],
) -> Result<(), TypeFault>
    ensures { Answers (faults_of source TypeWhy.NameTwice (repeats names.old words.now)) (λ _. names.new ≡ names.old ++ texts words.now) result }
{
    for word in words {
        put(names, source, word)?;
    }
    Ok(())
}

/// Puts the names of a typed list at the end. The first that is among them is a fault.
#[tactic(auto, using(crate::proofs::Lists::flat_map_cons, crate::proofs::Repeats::repeats_first, crate::proofs::Repeats::repeats_after, crate::proofs::Repeats::names_more))]
pub fn put_groups<'a>(
    names: &mut Names<'a>,
    source: Source,
    groups: &'a [Group],
) -> Result<(), TypeFault>
    ensures { Answers (faults_of source TypeWhy.NameTwice (repeats names.old (words_of groups.now))) (λ _. names.new ≡ names.old ++ texts (words_of groups.now)) result }
{
    for group in groups {
        put_words(names, source, group.words.as_slice())?;
    }
    Ok(())
}
