//! How often a microprogram repeats the operations of a sample.

ghost use Rattle.plan_core.specs.Arcs.{IsUnroll};

use plan_core::Arc;

/// The unroll factor of lifetimes: after this many samples each word is in the register in which the first one was.
/// Page `docs/PLANNING.md`, "Lifetimes".
pub fn unroll(arcs: &[Arc]) -> u8
    ensures { IsUnroll arcs.now result }
{
    let mut most = 1;
    for arc in arcs {
        if most < arc.copies {
            most = arc.copies;
        }
    }
    most
}
