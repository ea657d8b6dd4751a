//! Sets of names, in the order in which the names came.

ghost use Rattle.std.specs.Prelude.{◌≡◌, [], not, position, bytes_eq, IfOk, OnOk, IfErr, OnErr};
ghost use Rattle.name_rules.specs.Meanings.{is_among};
ghost use Rattle.name_rules.specs.NameLists.{with_name};

use crate::NameFault;
use indexmap::IndexSet;
use lists::Name;
use std::alloc::{AllocError, AllocFailed, Global};
use std::marker::Model;

/// Names in order, none of them twice.
#[derive(Drop)]
pub struct NameSet {
    names: IndexSet<Name>,
}

impl Model for NameSet {
    ghost use Rattle.std.specs.Prelude.{ℕ, List as Listed};

    ghost Value = { Listed (Listed ℕ) };

    ghost view = { λ set. set.names.keys };
}

impl NameSet {
    pub fn new(alloc: Global) -> NameSet
        ensures { result ≡ [] }
    {
        NameSet {
            names: IndexSet::new(alloc),
        }
    }

    /// Adds a name at the end, unless it is there already. Whether it was added.
    pub fn insert(&mut self, alloc: Global, name: &Name) -> Result<bool, NameFault>
        ensures added { IfOk result (λ added. added ≡ not (is_among self.old name.now)) }
        ensures names { OnOk result (self.new ≡ with_name self.old name.now) }
        ensures fault { IfErr result (λ fault. fault ≡ NameFault.Memory) }
        ensures kept { OnErr result (self.new ≡ self.old) }
    {
        let text = Name::from_slice(alloc, name.as_slice())?;
        Ok(self.names.insert(text)?)
    }

    /// The place of a name.
    pub fn position(&self, name: &Name) -> Option<usize>
        ensures { result ≡ position (bytes_eq name.now) self.now }
    {
        self.names.get_index_of(name)
    }
}
