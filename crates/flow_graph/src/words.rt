//! The numbers of the nodes of raw words.

ghost use Rattle.std.specs.Prelude.{◌≡◌, ℤ, [], OnOk};
ghost use Rattle.std.specs.Option.{option_or};
ghost use Rattle.flow_graph.specs.Private.Words.{number_in, number_if};

use indexmap::IndexMap;
use std::alloc::{AllocError, Global};
use std::marker::Model;

/// Raw words with the numbers of their nodes, which contracts see as a list of pairs.
#[derive(Drop)]
pub(crate) struct Words {
    numbers: IndexMap<i64, u32>,
}

impl Model for Words {
    ghost use Rattle.std.specs.Prelude.{ℕ, ℤ, List as Listed};

    ghost Value = { Listed (ℤ × ℕ) };

    ghost view = { λ words. words.numbers.entries };
}

impl Words {
    pub fn new(alloc: Global) -> Words
        ensures { result ≡ [] }
    {
        Words {
            numbers: IndexMap::new(alloc),
        }
    }

    pub fn get(&self, word: i64) -> Option<u32>
        ensures { result ≡ number_in self.now word }
    {
        self.numbers.get(&word).copied()
    }

    /// Adds a word that has no number.
    pub fn add(&mut self, word: i64, number: u32) -> Result<(), AllocError>
        ensures { OnOk result ((other : ℤ) → number_in self.new other
            ≡ option_or (number_in self.old other) (number_if word number other)) }
    {
        if self.numbers.get(&word).is_some() {
            return Ok(());
        }
        self.numbers.insert(word, number)?;
        Ok(())
    }
}
