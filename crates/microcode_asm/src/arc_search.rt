//! The registers of a lifetime, by its node and its port.

ghost use Rattle.std.specs.Prelude.{◌≡◌, ◌<◌, length};
ghost use Rattle.std.specs.List.{position_or_len};
ghost use Rattle.microcode_asm.specs.ScheduleText.{is_arc_for};
ghost use Rattle.microcode_asm.specs.Printable.{HasArc, IsPrintable};
ghost use Rattle.microcode_asm.specs.Private.Shown.{is_before as is_before_in, nodes_of, written_in};
ghost use Rattle.microcode_asm.specs.Private.Shown.{registers_at as registers_in};

use crate::printed::Printed;
use datapath::PortRef;
use plan_core::Arc;

/// The cycle of the period in which the result of node v is there.
fn written(printed: &Printed, v: usize) -> u16
    requires printable { IsPrintable printed.now }
    requires node { v < length (nodes_of printed.now) }
    ensures { result ≡ written_in printed.now v }
{
    let unit = printed.assigned.units[v];
    let latency = printed.datapath.units[usize::from(unit)].latency;
    (printed.schedule.slots[v].cycle + (u16::from(latency) - 1)) % printed.datapath.period
}

/// Whether a lifetime stands before one of node v that is written in cycle w at the port.
fn is_before(arc: &Arc, port: PortRef, w: u16, v: usize) -> bool
    ensures { result ≡ is_before_in port w v arc.now }
{
    let by_node = arc.w < w || arc.w == w && (arc.node as usize) < v;
    let by_port = arc.port.port < port.port || arc.port.port == port.port && by_node;
    arc.port.unit < port.unit || arc.port.unit == port.unit && by_port
}

/// Where the lifetime of node v at the port stands. Takes time in proportion to the logarithm of the lifetimes.
fn arc_place(printed: &Printed, v: usize, port: PortRef) -> usize
    requires printable { IsPrintable printed.now }
    requires node { v < length (nodes_of printed.now) }
    requires arc { HasArc printed.now.arcs.now v port }
    ensures place { result ≡ position_or_len (is_arc_for v port) printed.now.arcs.now }
    ensures there { result < length printed.now.arcs.now }
{
    let w = written(printed, v);
    printed
        .arcs
        .as_slice()
        .partition_point(|arc| is_before(arc, port, w, v))
}

/// The registers of the copies of the lifetime of node v at the port.
pub(crate) fn registers_at<'a>(printed: &'a Printed, v: usize, port: PortRef) -> &'a [u8]
    requires printable { IsPrintable printed.now }
    requires node { v < length (nodes_of printed.now) }
    requires arc { HasArc printed.now.arcs.now v port }
    ensures { result.now ≡ registers_in printed.now v port }
{
    let place = arc_place(printed, v, port);
    printed.registers.regs[place].as_slice()
}
