//! The line of a node.

ghost use Rattle.std.specs.Prelude.{◌≡◌, ◌<◌, ◌++◌, [], ◌∷◌, length, OnOk};
ghost use Rattle.std.specs.List.{flat_map};
ghost use Rattle.microcode_asm.specs.ScheduleText.{operand, operation_part};
ghost use Rattle.microcode_asm.specs.Printable.{IsToPort, IsPrintable, node_line};
ghost use Rattle.microcode_asm.specs.Private.Shown.{nodes_of, transfers_of, placing_part, destination};

use crate::arc_search::registers_at;
use crate::operation_text::{put_argument, put_format};
use crate::printed::Printed;
use crate::text::{put_number, put_registers, put_text};
use lists::Bytes;
use operations::operation_name;
use plan_core::Transfer;
use signal_graph::{Edge, Node};
use std::alloc::AllocError;

/// Adds an operand.
fn put_operand(out: &mut Bytes, edge: Edge) -> Result<(), AllocError>
    ensures { OnOk result (out.new ≡ out.old ++ operand edge) }
{
    put_number(out, b" ", u64::from(edge.node))?;
    if edge.delay == 0 {
        Ok(())
    } else {
        put_number(out, b"@", u64::from(edge.delay))
    }
}

/// Adds the operands.
fn put_operands(out: &mut Bytes, edges: &[Edge]) -> Result<(), AllocError>
    ensures { OnOk result (out.new ≡ out.old ++ flat_map operand edges.now) }
{
    for edge in edges {
        put_operand(out, *edge)?;
    }
    Ok(())
}

/// Adds what a node does.
#[tactic(auto, unfolding(crate::specs::ScheduleText::operation_part))]
fn put_operation(out: &mut Bytes, node: &Node) -> Result<(), AllocError>
    ensures { OnOk result (out.new ≡ out.old ++ operation_part node.now) }
{
    put_text(out, b" op ", operation_name(node.op).as_bytes())?;
    put_argument(out, node.op, node.arg)?;
    put_operands(out, node.edges.as_slice())?;
    put_format(out, node.op, node.fmt)
}

/// Adds when and where node v is done.
#[tactic(auto, unfolding(crate::specs::ScheduleText::placing_part))]
fn put_placing(out: &mut Bytes, printed: &Printed, v: usize) -> Result<(), AllocError>
    requires printable { IsPrintable printed.now }
    requires node { v < length (nodes_of printed.now) }
    ensures { OnOk result (out.new ≡ out.old ++ placing_part printed.now v) }
{
    put_number(out, b"node ", v as u64)?;
    put_number(out, b" cycle ", u64::from(printed.schedule.slots[v].cycle))?;
    let unit = usize::from(printed.assigned.units[v]);
    put_text(out, b" unit ", printed.datapath.units[unit].name.as_slice())
}

/// Adds a port that takes the result of node v.
#[tactic(auto, unfolding(crate::specs::ScheduleText::destination))]
fn put_destination(
    out: &mut Bytes,
    printed: &Printed,
    v: usize,
    transfer: Transfer,
) -> Result<(), AllocError>
    requires printable { IsPrintable printed.now }
    requires node { v < length (nodes_of printed.now) }
    requires transfer { IsToPort printed.now.datapath.now printed.now.arcs.now v transfer }
    ensures { OnOk result (out.new ≡ out.old ++ destination printed.now v transfer) }
{
    let port = transfer.port;
    put_text(
        out,
        b" to ",
        printed.datapath.units[usize::from(port.unit)]
            .name
            .as_slice(),
    )?;
    put_number(out, b".", u64::from(port.port))?;
    put_text(
        out,
        b" bus ",
        printed.datapath.buses[usize::from(transfer.bus)]
            .name
            .as_slice(),
    )?;
    out.extend_from_slice(b" regs ")?;
    put_registers(out, registers_at(printed, v, port))
}

/// Adds the ports that take the result of node v.
fn put_destinations(out: &mut Bytes, printed: &Printed, v: usize) -> Result<(), AllocError>
    requires printable { IsPrintable printed.now }
    requires node { v < length (nodes_of printed.now) }
    ensures { OnOk result (out.new ≡ out.old
        ++ flat_map (destination printed.now v) (transfers_of printed.now v)) }
{
    for transfer in printed.schedule.slots[v].transfers.iter() {
        put_destination(out, printed, v, *transfer)?;
    }
    Ok(())
}

/// Adds the line of node v.
#[tactic(auto, unfolding(crate::specs::ScheduleText::node_line))]
pub(crate) fn put_node(out: &mut Bytes, printed: &Printed, v: usize) -> Result<(), AllocError>
    requires printable { IsPrintable printed.now }
    requires node { v < length (nodes_of printed.now) }
    ensures { OnOk result (out.new ≡ out.old ++ node_line printed.now v) }
{
    put_placing(out, printed, v)?;
    put_operation(out, &printed.assigned.lowered.nodes[v])?;
    put_destinations(out, printed, v)?;
    Ok(out.push(b'\n')?)
}
