//! The numbers of the nodes in the lowered list.

ghost use Rattle.std.specs.Prelude.{◌≡◌, ◌≤◌, ℕ, length, IfOk};
ghost use Rattle.plan_core.specs.Lowered.{origins_of};
ghost use Rattle.delay_memory.specs.Private.Delays.{AreFew};
ghost use Rattle.delay_memory.specs.Private.Numbers.{AreNumbers};

use lists::List;
use std::alloc::{AllocError, Global};

/// Behind a node with a delay line come the address of its newest word, its store, and an address and a load for each
/// of its delays. These are their places, and how many nodes each delay has.
pub(crate) const FIRST_ADDRESS: u32 = 1;

pub(crate) const FIRST_OF_DELAYS: u32 = 3;

pub(crate) const NODES_OF_DELAY: u32 = 2;

/// How many nodes a node with these long delays becomes.
fn node_count(delays: &List<u16>) -> u32
    requires { length delays.now ≤ 1024 }
    ensures { (v : ℕ) → result ≡ length (origins_of v delays.now) }
{
    if delays.is_empty() {
        1
    } else {
        FIRST_OF_DELAYS + NODES_OF_DELAY * delays.len() as u32
    }
}

/// The number of each node.
pub(crate) fn numbers_of(alloc: Global, delays: &List<List<u16>>) -> Result<List<u32>, AllocError>
    requires { AreFew delays.now }
    ensures { IfOk result (AreNumbers delays.now (length delays.now)) }
{
    let mut numbers = List::with_capacity(alloc, delays.len())?;
    let mut next = 0;
    for v in 0..delays.len() {
        numbers.push(next)?;
        next += node_count(&delays[v]);
    }
    Ok(numbers)
}
