//! A schedule with what it places, and the reads in it.

ghost use Rattle.std.specs.Prelude.{◌≡◌, ◌+◌, ◌<◌, length, IfOk, OnOk};
ghost use Rattle.plan_core.specs.Operands.{node_of, edge_of};
ghost use Rattle.plan_core.specs.ListSchedule.{cycle_of, ends as ends_in};
ghost use Rattle.cyclic_life.specs.Private.Placed.{IsPlacement, read_of, AreReadsBefore, AreReads, AreReadLater, AreReadsAround};

use crate::fault::ArcFault;
use crate::read::Read;
use datapath::Datapath;
use plan_core::{Assigned, Schedule};
use std::alloc::{AllocFailed, Global};

/// A schedule with what it places.
#[derive(Clone, Copy)]
pub(crate) struct Placement<'a> {
    pub datapath: &'a Datapath,
    pub assigned: &'a Assigned,
    pub schedule: &'a Schedule,
}

impl Placement<'_> {
    /// The cycle in which node v is issued.
    fn cycle(&self, v: usize) -> u16
        requires { v < length self.now.schedule.now.slots }
        ensures { result ≡ cycle_of self.now.schedule.now v }
    {
        self.schedule.slots[v].cycle
    }

    /// The cycle in which the result of node v is there.
    fn ends(&self, v: usize) -> u16
        requires placed { IsPlacement self.now.datapath.now self.now.assigned.now self.now.schedule.now }
        requires node { v < length self.now.assigned.now.lowered.nodes }
        ensures { result ≡ ends_in self.now.datapath.now self.now.assigned.now self.now.schedule.now v }
    {
        let unit = self.assigned.units[v];
        let latency = self.datapath.units[usize::from(unit)].latency;
        self.cycle(v) + (u16::from(latency) - 1)
    }

    /// The read of node c at a port.
    fn read(&self, c: usize, port: usize) -> Read
        requires placed { IsPlacement self.now.datapath.now self.now.assigned.now self.now.schedule.now }
        requires node { c < length self.now.assigned.now.lowered.nodes }
        requires port { port < length (node_of self.now.assigned.now.lowered.nodes c).edges }
        ensures { let v = (edge_of (node_of self.now.assigned.now.lowered.nodes c) port).node in
            result ≡ read_of self.now.datapath.now self.now.assigned.now self.now.schedule.now c port v }
    {
        let edge = self.assigned.lowered.nodes[c].edges[port];
        Read {
            unit: self.assigned.units[c],
            port: port as u8,
            w: self.ends(edge.node as usize),
            node: edge.node,
            r: self.cycle(c) + edge.delay * self.datapath.period,
        }
    }

    /// Adds the reads of node c.
    fn push_reads(&self, c: usize, reads: &mut Vec<Read>) -> Result<(), AllocFailed<Read>>
        requires placed { IsPlacement self.now.datapath.now self.now.assigned.now self.now.schedule.now }
        requires node { c < length self.now.assigned.now.lowered.nodes }
        requires before { AreReadsBefore self.now.datapath.now self.now.assigned.now self.now.schedule.now
            c 0 reads.old.items }
        ensures { OnOk result (AreReadsBefore self.now.datapath.now self.now.assigned.now self.now.schedule.now
            (c + 1) 0 reads.new.items) }
    {
        for port in 0..self.assigned.lowered.nodes[c].edges.len() {
            reads.push(self.read(c, port))?;
        }
        Ok(())
    }

    /// The reads of all nodes.
    pub(crate) fn reads(&self, alloc: Global) -> Result<Vec<Read>, ArcFault>
        requires { IsPlacement self.now.datapath.now self.now.assigned.now self.now.schedule.now }
        ensures { IfOk result (λ reads.
            AreReads self.now.datapath.now self.now.assigned.now self.now.schedule.now reads.items) }
    {
        let mut reads = Vec::with_capacity(alloc, self.assigned.lowered.nodes.len())?;
        for c in 0..self.assigned.lowered.nodes.len() {
            self.push_reads(c, &mut reads)?;
        }
        Ok(reads)
    }

    /// The reads of all nodes where samples overlap, each with its write in the period.
    pub(crate) fn reads_around(&self, alloc: Global) -> Result<Vec<Read>, ArcFault>
        requires placed { IsPlacement self.now.datapath.now self.now.assigned.now self.now.schedule.now }
        requires some { 0 < self.now.datapath.now.period }
        requires later { AreReadLater self.now.datapath.now self.now.assigned.now self.now.schedule.now }
        ensures { IfOk result (λ reads.
            AreReadsAround self.now.datapath.now self.now.assigned.now self.now.schedule.now reads.items) }
    {
        let mut reads = self.reads(alloc)?;
        for k in 0..reads.len() {
            reads[k] = reads[k].around(self.datapath.period);
        }
        Ok(reads)
    }
}
