//! The lifetimes of a plan, by node and by cycle.

ghost use Rattle.std.specs.Prelude.{◌≡◌, ◌<◌, ◌↔◌, ℕ, IfOk, IsTrue};
ghost use Rattle.microcode_asm.specs.Lifetimes.{AreLifetimes, AreKept, AreWritten, IsFoundArc};

use bucket_sort::Buckets;
use datapath::PortRef;
use plan_core::{Arc, Arcs};
use std::alloc::{AllocError, Global};

/// The lifetimes of a plan.
#[derive(Drop)]
pub struct Lifetimes {
    /// By the node whose words they keep.
    pub kept: Buckets,
    /// By the cycle of their write.
    pub written: Buckets,
}

/// Deals the lifetimes of so many nodes to these and to the cycles of their writes.
///
/// # Errors
///
/// `AllocError` where no memory is left.
pub fn lifetimes_of(
    alloc: Global,
    arcs: &Arcs,
    nodes: usize,
    period: u16,
) -> Result<Lifetimes, AllocError>
    requires { AreLifetimes nodes period arcs.now }
    ensures kept { IfOk result (λ lifetimes. AreKept nodes arcs.now lifetimes.kept) }
    ensures written { IfOk result (λ lifetimes. AreWritten period arcs.now lifetimes.written) }
{
    let count = arcs.len();
    let mut kept = Buckets::empty(alloc, nodes, count)?;
    let mut written = Buckets::empty(alloc, usize::from(period), count)?;
    for k in (0..count).rev() {
        let arc = arcs[k];
        kept.put_first(arc.node as usize, k);
        written.put_first(usize::from(arc.w), k);
    }
    Ok(Lifetimes { kept, written })
}

/// Whether the two ports are one.
pub(crate) fn is_same_port(a: PortRef, b: PortRef) -> bool
    ensures { IsTrue result ↔ (a ≡ b) }
{
    a.unit == b.unit && a.port == b.port
}

/// The lifetime of the words of a node at a port, which there is. Most nodes have one or two.
pub fn lifetime_at(kept: &Buckets, arcs: &[Arc], node: usize, port: PortRef) -> usize
    requires kept { (count : ℕ) × (node < count) × AreKept count arcs.now kept.now }
    requires there { (k : ℕ) × IsFoundArc arcs.now node port k }
    ensures { IsFoundArc arcs.now node port result }
{
    let mut k = kept.first[node];
    while !is_same_port(arcs[k].port, port) {
        k = kept.next[k];
    }
    k
}
