//! The first element that depends on itself without a delay.

ghost use Rattle.std.specs.Prelude.{IfOk};
ghost use Rattle.signal_graph.specs.Flat.{view};
ghost use Rattle.signal_graph.specs.FlatRules.{IsFlat};
ghost use Rattle.flow_graph.specs.Loops.{IsLoopIn};

use crate::reads::reads_of_all;
use digraph::first_cyclic;
use signal_graph::FlatProgram;
use std::alloc::{AllocError, Global};

/// The first element that depends on itself without a delay.
pub(crate) fn first_loop(alloc: Global, flat: &FlatProgram) -> Result<Option<u32>, AllocError>
    requires { IsFlat (view flat.now) }
    ensures { IfOk result (IsLoopIn (view flat.now)) }
{
    let reads = reads_of_all(alloc, flat)?;
    first_cyclic(alloc, reads.as_slice())
}
