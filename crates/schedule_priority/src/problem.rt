//! The graph that is scheduled, with its datapath.

ghost use Rattle.std.specs.Prelude.{◌≡◌, ◌<◌, ◌≤◌, length};
ghost use Rattle.plan_core.specs.Operands.{node_of};
ghost use Rattle.plan_core.specs.Assigned.{unit_in};
ghost use Rattle.plan_core.specs.Heights.{latency_of};
ghost use Rattle.schedule_priority.specs.Parts.{nodes_of, IsSound};

use datapath::Datapath;
use plan_core::Assigned;
use signal_graph::Node;

/// A graph whose nodes are bound to the units of a datapath.
#[derive(Clone, Copy)]
pub struct Problem<'a> {
    pub datapath: &'a Datapath,
    pub assigned: &'a Assigned,
}

impl Problem<'_> {
    /// How many nodes there are.
    pub fn count(&self) -> usize
        ensures { result ≡ length (nodes_of self.now) }
    {
        self.assigned.lowered.nodes.len()
    }

    pub fn node(&self, v: usize) -> &Node
        requires { v < length (nodes_of self.now) }
        ensures { result.now ≡ node_of (nodes_of self.now) v }
    {
        &self.assigned.lowered.nodes[v]
    }

    /// The unit of node v.
    pub fn unit(&self, v: usize) -> u8
        requires problem { IsSound self.now }
        requires node { v < length (nodes_of self.now) }
        ensures unit { result ≡ unit_in self.now.assigned.now.units v }
        ensures there { result < length self.now.datapath.now.units }
    {
        self.assigned.units[v]
    }

    /// How many cycles node v takes on its unit.
    pub fn latency(&self, v: usize) -> u8
        requires problem { IsSound self.now }
        requires node { v < length (nodes_of self.now) }
        ensures latency { result ≡ latency_of self.now.datapath.now self.now.assigned.now v }
        ensures some { 1 ≤ result }
        ensures most { result ≤ 8 }
    {
        self.datapath.units[usize::from(self.unit(v))].latency
    }
}
