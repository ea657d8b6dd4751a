//! The issues of a cycle of the period.

ghost use Rattle.std.specs.Prelude.{◌≡◌, ◌<◌, ℕ, length, pos, ◌+ℤ◌, IfOk};
ghost use Rattle.std.specs.Int.{int_rem_euclid};
ghost use Rattle.plan_core.specs.Hardware.{unit_of};
ghost use Rattle.plan_soundness.specs.Parts.{nodes_of, node_at, edge_at, unit_at};
ghost use Rattle.overlap_plan.specs.IsStagePlan.{plan_of};
ghost use Rattle.overlap_sim.specs.GuardedOf.{IsStagedIssueOf, arg_by};
ghost use Rattle.overlap_sim.specs.Private.Staged.{IsPortRegister, ArePortRegisters, HasIssues, IsIssuer, IsBound, IsStageReady};

use crate::cycles::{shift_of, stage_of};
use crate::guarded::Staged;
use bucket_sort::Buckets;
use datapath::{Datapath, PortRef};
use fix_word::Op;
use lists::List;
use micro_image::{Issue, PortRegisters};
use microcode_asm::{copy_ago, lifetime_at};
use overlap_plan::{GuardFault, StagePlan};
use signal_graph::Edge;
use std::alloc::Global;

/// The register of a port that an operation does not read.
const UNREAD: u8 = 0;

/// The offset so many stages further on, around the cells of its ram.
fn slid(offset: i64, stage: u8, cells: u32) -> i64
    requires natural { (o : ℕ) × (offset ≡ pos o) }
    requires some { 0 < cells }
    ensures { result ≡ int_rem_euclid (offset +ℤ pos stage) (pos cells) }
{
    let cells = i64::from(cells);
    // The offset itself may be too great for the sum.
    (offset.rem_euclid(cells) + i64::from(stage)).rem_euclid(cells)
}

/// A node with its unit and the stage in which it is issued.
#[derive(Clone, Copy)]
pub(crate) struct Bound {
    pub node: usize,
    pub unit: u8,
    pub stage: u8,
}

/// A plan whose guarded words are made, with what stands in each cycle of the period.
#[derive(Clone, Copy)]
pub(crate) struct Issuer<'a> {
    pub plan: &'a StagePlan,
    pub datapath: &'a Datapath,
    /// The nodes by unit.
    pub order: &'a List<usize>,
    /// The lifetimes by the node whose words they keep.
    pub kept: &'a Buckets,
    /// The nodes, by their places in order, by the cycle in which they are issued.
    pub issued: &'a Buckets,
    /// The nodes, by their places in order, by the cycle in which their result is there.
    pub ended: &'a Buckets,
    /// The lifetimes by the cycle of their write.
    pub written: &'a Buckets,
}

/// A node as it is bound.
fn bound_of(plan: &StagePlan, datapath: &Datapath, v: usize) -> Bound
    requires ready { IsStageReady datapath.now plan.now }
    requires node { v < length (nodes_of (plan_of plan.now)) }
    ensures bound { IsBound datapath.now (plan_of plan.now) result }
    ensures node { result.node ≡ v }
{
    Bound {
        node: v,
        unit: plan.assigned.units[v],
        stage: stage_of(plan, datapath, v),
    }
}

/// The argument of the issue of a node. A machine slides the offset of an address by its own sample.
fn argument(plan: &StagePlan, datapath: &Datapath, bound: Bound) -> i64
    requires ready { IsStageReady datapath.now plan.now }
    requires bound { IsBound datapath.now (plan_of plan.now) bound }
    ensures { result ≡ arg_by (node_at (plan_of plan.now) bound.node).op datapath.now (plan_of plan.now) bound.node }
{
    let node = &plan.assigned.lowered.nodes[bound.node];
    match node.op {
        Op::Addr => {
            let ram = datapath.units[usize::from(bound.unit)].ram;
            let cells = datapath.units[usize::from(ram)].cells;
            slid(node.arg, bound.stage, cells)
        }
        _ => node.arg,
    }
}

impl Issuer<'_> {
    /// The register that a node reads at a port through an edge in machine sample m.
    fn operand_register(&self, bound: Bound, port: usize, edge: Edge, m: usize) -> u8
        requires issuer { IsIssuer self.now }
        requires bound { IsBound self.now.datapath.now (plan_of self.now.plan.now) bound }
        requires port { port < length (node_at (plan_of self.now.plan.now) bound.node).edges }
        requires edge { edge ≡ edge_at (plan_of self.now.plan.now) bound.node port }
        requires sample { m < self.now.plan.now.unroll }
        ensures { IsPortRegister self.now.datapath.now (plan_of self.now.plan.now) bound.node m port result }
    {
        let file = PortRef {
            unit: bound.unit,
            port: port as u8,
        };
        let k = lifetime_at(
            self.kept,
            self.plan.arcs.as_slice(),
            edge.node as usize,
            file,
        );
        let shift = usize::from(shift_of(self.plan, self.datapath, k));
        let ago = usize::from(edge.delay) + usize::from(bound.stage);
        let copy = copy_ago(self.plan.arcs[k].copies, m + shift, ago);
        self.plan.registers.regs[k][copy]
    }

    /// The register of an issue of a node in machine sample m at a port.
    fn register(&self, bound: Bound, edges: &[Edge], port: usize, m: usize) -> u8
        requires issuer { IsIssuer self.now }
        requires bound { IsBound self.now.datapath.now (plan_of self.now.plan.now) bound }
        requires edges { edges.now ≡ (node_at (plan_of self.now.plan.now) bound.node).edges }
        requires sample { m < self.now.plan.now.unroll }
        ensures { IsPortRegister self.now.datapath.now (plan_of self.now.plan.now) bound.node m port result }
    {
        match edges.get(port) {
            Some(edge) => self.operand_register(bound, port, *edge, m),
            None => UNREAD,
        }
    }

    /// The registers of an issue of a node in machine sample m.
    fn registers(&self, alloc: Global, bound: Bound, m: usize) -> Result<PortRegisters, GuardFault>
        requires issuer { IsIssuer self.now }
        requires bound { IsBound self.now.datapath.now (plan_of self.now.plan.now) bound }
        requires sample { m < self.now.plan.now.unroll }
        ensures count { IfOk result (λ regs. length regs
            ≡ length (unit_of self.now.datapath.now (unit_at (plan_of self.now.plan.now) bound.node)).files) }
        ensures each { IfOk result
            (ArePortRegisters self.now.datapath.now (plan_of self.now.plan.now) bound.node m) }
    {
        let edges = self.plan.assigned.lowered.nodes[bound.node]
            .edges
            .as_slice();
        let ports = self.datapath.units[usize::from(bound.unit)].files.len();
        let mut regs = PortRegisters::new(alloc);
        for port in 0..ports {
            regs.push(self.register(bound, edges, port, m))?;
        }
        Ok(regs)
    }

    /// The issue of node v in machine sample m.
    fn issue(&self, alloc: Global, v: usize, m: usize) -> Result<Staged<Issue>, GuardFault>
        requires issuer { IsIssuer self.now }
        requires node { v < length (nodes_of (plan_of self.now.plan.now)) }
        requires sample { m < self.now.plan.now.unroll }
        ensures { IfOk result (IsStagedIssueOf self.now.datapath.now (plan_of self.now.plan.now) v m) }
    {
        let bound = bound_of(self.plan, self.datapath, v);
        let regs = self.registers(alloc, bound, m)?;
        let arg = argument(self.plan, self.datapath, bound);
        let node = &self.plan.assigned.lowered.nodes[v];
        let part = Issue {
            unit: bound.unit,
            op: node.op,
            fmt: node.fmt,
            arg,
            regs,
        };
        Ok(Staged {
            part,
            stage: bound.stage,
        })
    }

    /// The issues of cycle c of machine sample m.
    pub(crate) fn issues(
        &self,
        alloc: Global,
        m: usize,
        c: usize,
    ) -> Result<List<Staged<Issue>>, GuardFault>
        requires issuer { IsIssuer self.now }
        requires sample { m < self.now.plan.now.unroll }
        requires cycle { c < self.now.datapath.now.period }
        ensures { IfOk result (HasIssues self.now.datapath.now (plan_of self.now.plan.now) m c) }
    {
        let mut issues = List::new(alloc);
        let mut i = self.issued.first[c];
        while i < self.order.len() {
            issues.push(self.issue(alloc, self.order[i], m)?)?;
            i = self.issued.next[i];
        }
        Ok(issues)
    }
}
