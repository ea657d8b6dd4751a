//! The numbers of nodes: each node is named by the place at which it is made, and the places are numbered in order.

ghost use Rattle.std.specs.Prelude.{◌≡◌, ◌+◌, ◌≤◌, ◌<◌, ◌^◌, length, map, IfOk, OnOk};
ghost use Rattle.signal_graph.specs.GraphOf.{constant};
ghost use Rattle.flow_graph.specs.Private.Sites.{view_made, view_site};
ghost use Rattle.flow_graph.specs.Private.Nodes.{Numbers as GivesNumber, AreNumbers};

use crate::sites::{Made, Site};
use crate::words::Words;
use lists::List;
use std::alloc::{AllocError, AllocFailed, Global};

/// The nodes so far: how many there are, and the numbers of the words among them.
#[derive(Drop)]
struct Numbering {
    words: Words,
    count: u32,
}

impl Numbering {
    /// The number of the node of a word, which is the next one where the word is new.
    fn number_word(&mut self, word: i64) -> Result<u32, AllocError>
        requires { self.old.count + 1 < 2 ^ 32 }
        ensures { IfOk result (GivesNumber self.old.words self.old.count (constant word)
            self.new.words self.new.count) }
    {
        if let Some(number) = self.words.get(word) {
            return Ok(number);
        }
        let number = self.count;
        self.words.add(word, number)?;
        self.count += 1;
        Ok(number)
    }

    /// The number of the node at a place. Where nothing is made it is that of the next node.
    fn number_place(&mut self, made: &Made) -> Result<u32, AllocError>
        requires { self.old.count + 1 < 2 ^ 32 }
        ensures { IfOk result (GivesNumber self.old.words self.old.count (view_made made.now)
            self.new.words self.new.count) }
    {
        match made {
            Made::Nothing => Ok(self.count),
            Made::Constant(word) => self.number_word(*word),
            Made::Input(_) | Made::Operation { .. } => {
                let number = self.count;
                self.count += 1;
                Ok(number)
            }
        }
    }
}

/// The numbers of the nodes of places and of words.
#[derive(Drop)]
pub(crate) struct Numbers {
    /// For each place the number of its node. Where nothing is made it is that of the next node.
    pub(crate) places: List<u32>,
    pub(crate) words: Words,
}

/// Numbers the nodes in the order of their places.
pub(crate) fn number_all(alloc: Global, sites: &[Site]) -> Result<Numbers, AllocError>
    requires { length sites.now + 1 < 2 ^ 32 }
    ensures { IfOk result (λ numbers. AreNumbers (map view_site sites.now) numbers.places numbers.words) }
{
    let mut numbering = Numbering {
        words: Words::new(alloc),
        count: 0,
    };
    let mut places = List::with_capacity(alloc, sites.len())?;
    for site in sites {
        let number = numbering.number_place(&site.made)?;
        places.push(number)?;
    }
    Ok(Numbers {
        places,
        words: numbering.words,
    })
}
