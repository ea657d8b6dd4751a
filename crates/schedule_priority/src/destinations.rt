//! The ports that read each node.

ghost use Rattle.std.specs.Prelude.{◌≡◌, ◌<◌, length, IfOk, OnOk, OnErr};
ghost use Rattle.std.specs.List.{All};
ghost use Rattle.plan_core.specs.Operands.{node_of};
ghost use Rattle.plan_core.specs.ListSchedule.{IsDestination, AreDestinations};
ghost use Rattle.schedule_priority.specs.Parts.{nodes_of, IsSound};
ghost use Rattle.schedule_priority.specs.Private.Destinations.{AreReaders, AddsReads};

use crate::ports::{list_ports, with_port};
use crate::problem::Problem;
use bit_sets::Set128;
use datapath::PortRef;
use lists::List;
use plan_core::Assigned;
use std::alloc::{AllocError, Global};
use std::marker::Model;
use std::snapshot::Snapshot;

/// For each node of a graph the ports that read it. A contract sees the graph.
#[derive(Drop)]
pub struct Destinations {
    readers: List<Set128>,
    assigned: Snapshot<Assigned>,
}

impl Model for Destinations {
    ghost use Rattle.plan_core.specs.declared.schedule.Assigned.{Assigned};

    ghost Value = { Assigned };

    ghost use Rattle.schedule_priority.specs.Private.Destinations.{AreReadersOf};

    ghost view = { λ destinations. destinations.assigned.value };

    ghost invariant = { λ destinations. AreReadersOf destinations.assigned.value destinations.readers };
}

/// Adds the ports of node c to those that read its operands.
fn add_reads(problem: &Problem, c: usize, readers: &mut List<Set128>)
    requires problem { IsSound problem.now }
    requires node { c < length (nodes_of problem.now) }
    requires count { length readers.old ≡ length (nodes_of problem.now) }
    ensures { AddsReads problem.now.assigned.now c
        (length (node_of (nodes_of problem.now) c).edges) readers.old readers.new }
{
    let unit = problem.unit(c);
    for (port, edge) in problem.node(c).edges.iter().enumerate() {
        let operand = edge.node as usize;
        let more = with_port(readers[operand], unit, port as u8);
        readers[operand] = more;
    }
}

/// For each node the ports that read it.
fn readers_of(alloc: Global, problem: &Problem) -> Result<List<Set128>, AllocError>
    requires { IsSound problem.now }
    ensures { IfOk result (AreReaders problem.now.assigned.now (length (nodes_of problem.now))) }
{
    let mut readers = List::from_vec(vec![in alloc; Set128::empty(); problem.count()]?);
    for c in 0..problem.count() {
        add_reads(problem, c, &mut readers);
    }
    Ok(readers)
}

impl Destinations {
    pub fn new(alloc: Global, problem: &Problem) -> Result<Destinations, AllocError>
        requires { IsSound problem.now }
        ensures { IfOk result (λ destinations. destinations ≡ problem.now.assigned.now) }
    {
        Ok(Destinations {
            readers: readers_of(alloc, problem)?,
            assigned: Snapshot::of(problem.assigned),
        })
    }

    /// Puts the ports that read node v, in order, in the place of what the list has. Where no memory is left, some
    /// of them.
    pub fn list(&self, v: u32, ports: &mut Vec<PortRef>) -> Result<(), AllocError>
        requires { v < length self.now.lowered.nodes }
        ensures ok { OnOk result (AreDestinations self.now v ports.new.items) }
        ensures err { OnErr result (All (IsDestination self.now v) ports.new.items) }
    {
        list_ports(self.readers[v as usize], ports)
    }
}
