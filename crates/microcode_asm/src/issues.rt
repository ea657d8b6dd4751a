//! The issues of a cycle.

ghost use Rattle.std.specs.Prelude.{◌≡◌, ◌<◌, ◌^◌, length, IfOk};
ghost use Rattle.plan_core.specs.Hardware.{unit_of};
ghost use Rattle.plan_soundness.specs.Parts.{nodes_of, node_at, edge_at, unit_at, IsCopy};
ghost use Rattle.plan_soundness.specs.ImageOf.{IsIssueOf};
ghost use Rattle.microcode_asm.specs.Private.Words.{IsPortRegister, ArePortRegisters, HasIssues, IsIssuer};

use crate::fault::AsmFault;
use crate::lifetimes::lifetime_at;
use bucket_sort::Buckets;
use datapath::{Datapath, PortRef};
use lists::List;
use micro_image::{Issue, PortRegisters};
use plan_core::Plan;
use signal_graph::Edge;
use std::alloc::Global;

/// The register of a port that an operation does not read.
const UNREAD: u8 = 0;

/// The copy with the word of so many samples before sample n, where the words of successive samples stand in so many
/// copies in turn.
pub fn copy_ago(copies: u8, n: usize, ago: usize) -> usize
    requires some { 0 < copies }
    requires few { n < 2 ^ 16 }
    ensures { IsCopy copies n ago result }
{
    // Most lifetimes have one copy, for which nothing is divided.
    if copies == 1 {
        return 0;
    }
    let copies = usize::from(copies);
    (n + copies - ago % copies) % copies
}

/// A plan whose microwords are made, with what stands in each of its cycles.
#[derive(Clone, Copy)]
pub(crate) struct Issuer<'a> {
    pub plan: &'a Plan,
    pub datapath: &'a Datapath,
    /// The nodes by unit.
    pub order: &'a List<usize>,
    /// The lifetimes by the node whose words they keep.
    pub kept: &'a Buckets,
    /// The nodes, by their places in order, by the cycle in which they are issued.
    pub issued: &'a Buckets,
    /// The nodes, by their places in order, by the cycle in which their result is there.
    pub ended: &'a Buckets,
    /// How many nodes are issued in each cycle.
    pub rooms: &'a List<u8>,
    /// The lifetimes by the cycle of their write.
    pub written: &'a Buckets,
}

impl Issuer<'_> {
    /// The register that node v on its unit reads at a port through an edge in sample n.
    fn operand_register(&self, v: usize, unit: u8, port: usize, edge: Edge, n: usize) -> u8
        requires issuer { IsIssuer self.now }
        requires node { v < length (nodes_of self.now.plan.now) }
        requires unit { unit ≡ unit_at self.now.plan.now v }
        requires port { port < length (node_at self.now.plan.now v).edges }
        requires edge { edge ≡ edge_at self.now.plan.now v port }
        requires sample { n < self.now.plan.now.unroll }
        ensures { IsPortRegister self.now.datapath.now self.now.plan.now v n port result }
    {
        let file = PortRef {
            unit,
            port: port as u8,
        };
        let arcs = self.plan.arcs.as_slice();
        let k = lifetime_at(self.kept, arcs, edge.node as usize, file);
        let copy = copy_ago(self.plan.arcs[k].copies, n, usize::from(edge.delay));
        self.plan.registers.regs[k][copy]
    }

    /// The register of an issue of node v on its unit in sample n at a port.
    fn register(&self, v: usize, unit: u8, edges: &[Edge], port: usize, n: usize) -> u8
        requires issuer { IsIssuer self.now }
        requires node { v < length (nodes_of self.now.plan.now) }
        requires unit { unit ≡ unit_at self.now.plan.now v }
        requires edges { edges.now ≡ (node_at self.now.plan.now v).edges }
        requires sample { n < self.now.plan.now.unroll }
        ensures { IsPortRegister self.now.datapath.now self.now.plan.now v n port result }
    {
        match edges.get(port) {
            Some(edge) => self.operand_register(v, unit, port, *edge, n),
            None => UNREAD,
        }
    }

    /// The registers of an issue of node v on its unit in sample n.
    fn registers(
        &self,
        alloc: Global,
        v: usize,
        unit: u8,
        n: usize,
    ) -> Result<PortRegisters, AsmFault>
        requires issuer { IsIssuer self.now }
        requires node { v < length (nodes_of self.now.plan.now) }
        requires unit { unit ≡ unit_at self.now.plan.now v }
        requires sample { n < self.now.plan.now.unroll }
        ensures count { IfOk result (λ regs. length regs
            ≡ length (unit_of self.now.datapath.now (unit_at self.now.plan.now v)).files) }
        ensures each { IfOk result
            (ArePortRegisters self.now.datapath.now self.now.plan.now v n) }
    {
        let edges = self.plan.assigned.lowered.nodes[v].edges.as_slice();
        let ports = self.datapath.units[usize::from(unit)].files.len();
        let mut regs = PortRegisters::new(alloc);
        for port in 0..ports {
            regs.push(self.register(v, unit, edges, port, n))?;
        }
        Ok(regs)
    }

    /// The issue of node v in sample n.
    fn issue(&self, alloc: Global, v: usize, n: usize) -> Result<Issue, AsmFault>
        requires issuer { IsIssuer self.now }
        requires node { v < length (nodes_of self.now.plan.now) }
        requires sample { n < self.now.plan.now.unroll }
        ensures { IfOk result (IsIssueOf self.now.datapath.now self.now.plan.now v n) }
    {
        let unit = self.plan.assigned.units[v];
        let regs = self.registers(alloc, v, unit, n)?;
        let node = &self.plan.assigned.lowered.nodes[v];
        Ok(Issue {
            unit,
            op: node.op,
            fmt: node.fmt,
            arg: node.arg,
            regs,
        })
    }

    /// The issues of cycle c of sample n.
    pub(crate) fn issues(&self, alloc: Global, n: usize, c: usize) -> Result<List<Issue>, AsmFault>
        requires issuer { IsIssuer self.now }
        requires sample { n < self.now.plan.now.unroll }
        requires cycle { c < self.now.datapath.now.period }
        ensures { IfOk result (HasIssues self.now.datapath.now self.now.plan.now n c) }
    {
        let mut issues = List::with_capacity(alloc, usize::from(self.rooms[c]))?;
        let mut i = self.issued.first[c];
        while i < self.order.len() {
            issues.push(self.issue(alloc, self.order[i], n)?)?;
            i = self.issued.next[i];
        }
        Ok(issues)
    }
}
