//! The lifetimes that reads end.

ghost use Rattle.std.specs.Prelude.{◌≡◌, ◌<◌, ◌≤◌, map, All, IfOk};
ghost use Rattle.cyclic_life.specs.Private.Reads.{later as later_of, lasts, lasts_from, copies_of, arc_to};

use crate::fault::ArcFault;
use crate::read::Read;
use datapath::PortRef;
use lists::List;
use plan_core::{Arc, Arcs};
use std::alloc::Global;

/// In how many registers the words of successive samples stand in turn, where each is written at cycle w of its sample
/// and read up to cycle r: the least of 1, 2 and 4 samples after which it is read no more.
fn copies(period: u16, w: u16, r: u16) -> u8
    requires period { period ≤ 4096 }
    requires w { w < 4096 }
    ensures { result ≡ copies_of period w r }
{
    if r <= w + period {
        1
    } else if r <= w + 2 * period {
        2
    } else {
        4
    }
}

/// The lifetime that ends with the read.
fn arc_to_read(period: u16, read: Read) -> Arc
    requires period { period ≤ 4096 }
    requires w { read.w < 4096 }
    ensures { result ≡ arc_to period read }
{
    Arc {
        node: read.node,
        port: PortRef {
            unit: read.unit,
            port: read.port,
        },
        w: read.w,
        r: read.r,
        copies: copies(period, read.w, read.r),
    }
}

/// Of two reads of one lifetime the one that is not earlier.
fn later(x: Read, y: Read) -> Read
    ensures { result ≡ later_of x y }
{
    if x.r <= y.r { y } else { x }
}

/// The lifetimes of a read and of those after it, which are in order.
fn lifetimes_from(alloc: Global, first: Read, rest: &[Read], period: u16) -> Result<Arcs, ArcFault>
    requires period { period ≤ 4096 }
    requires first { first.w < 4096 }
    requires w { All (λ read. read.w < 4096) rest.now }
    ensures { IfOk result (λ arcs. arcs ≡ map (arc_to period) (lasts_from first rest.now)) }
{
    let mut arcs = List::with_capacity(alloc, rest.len() + 1)?;
    let mut last = first;
    for read in rest {
        if last.is_alike(*read) {
            last = later(last, *read);
        } else {
            arcs.push(arc_to_read(period, last))?;
            last = *read;
        }
    }
    arcs.push(arc_to_read(period, last))?;
    Ok(arcs)
}

/// The lifetimes of reads that are in order.
pub(crate) fn lifetimes(alloc: Global, reads: &[Read], period: u16) -> Result<Arcs, ArcFault>
    requires period { period ≤ 4096 }
    requires w { All (λ read. read.w < 4096) reads.now }
    ensures { IfOk result (λ arcs. arcs ≡ map (arc_to period) (lasts reads.now)) }
{
    match reads.split_first() {
        Some((first, rest)) => lifetimes_from(alloc, *first, rest, period),
        None => Ok(List::new(alloc)),
    }
}
