//! The load, the instances and the elements so far.

ghost use Rattle.std.specs.Prelude.{◌≡◌, ◌≤◌, [], length};

use crate::empty_loops::Look;
use element_rules::{Element, Instance};
use lists::List;
use std::alloc::Global;

/// What the walk has come to. Each instance has an element or more, which its load counts.
#[derive(Drop)]
pub(crate) struct Walked {
    pub load: u32,
    pub instances: List<Instance>,
    pub elements: List<Element>,
    /// For manifest constants.
    pub stack: Vec<i32>,
    pub look: Look,
    ghost fits: { load ≤ 8192 },
    ghost few: { length instances ≤ load },
}

impl Walked {
    ghost use Rattle.elaboration_run.specs.Private.States.{walked_of};

    pub(crate) fn new(alloc: Global) -> Walked
        ensures { walked_of result ≡ record { load = 0; instances = []; elements = [] } }
    {
        Walked {
            load: 0,
            instances: List::new(alloc),
            elements: List::new(alloc),
            stack: Vec::new(alloc),
            look: Look::new(alloc),
        }
    }
}
