//! Distinct words in the order in which they came, found fast: the names of a text.
//!
//! A set answers the place of a word in the list of the words that were put into it, each once.
#![tactic(auto)]

ghost use Rattle.std.specs.Prelude.{◌≡◌, [], length, position, OnOk, OnErr, IfOk};
ghost use Rattle.target_base.specs.Storage.{same_numbers};
ghost use Rattle.word_set.specs.Words.{with_name};

use indexmap::IndexSet;
use std::alloc::{AllocError, Global};
use std::marker::Model;
use target_base::{List, Words};

/// Distinct words in the order in which they came.
#[derive(Drop)]
pub struct WordSet {
    set: IndexSet<Vec<u8>>,
}

impl Model for WordSet {
    ghost use Rattle.std.specs.Prelude.{ℕ, List, map};

    ghost Value = { List (List ℕ) };

    ghost view = { λ w. map (λ v. v.items) w.set.keys };
}

impl WordSet {
    /// No words.
    pub fn new(alloc: Global) -> WordSet
        ensures { result ≡ [] }
    {
        WordSet {
            set: IndexSet::new(alloc),
        }
    }

    /// The place of a word, from 0. None where it isn't there.
    pub fn place(&self, word: &[u8]) -> Option<usize>
        ensures { result ≡ position (same_numbers word.now) self.now }
    {
        self.set.get_index_of(word)
    }

    /// How many words there are.
    pub fn len(&self) -> usize
        ensures { result ≡ length self.now }
    {
        self.set.len()
    }

    /// Puts a word at the end, unless it is there. After a refusal the words are unchanged.
    pub fn add(&mut self, alloc: Global, word: &[u8]) -> Result<(), AllocError>
        ensures ok { OnOk result (self.new ≡ with_name self.old word.now) }
        ensures err { OnErr result (self.new ≡ self.old) }
    {
        self.set.insert(Vec::from_slice(alloc, word)?)?;
        Ok(())
    }

    /// The words as a list.
    pub fn to_words(&self, alloc: Global) -> Result<Words, AllocError>
        ensures { IfOk result (λ words. words ≡ self.now) }
    {
        let mut made = List::new(alloc);
        for word in self.set.as_slice() {
            made.push(List::from_slice(alloc, word.as_slice())?)?;
        }
        Ok(made)
    }
}
