//! Which units a node can be bound to.

ghost use Rattle.std.specs.Prelude.{◌≡◌, ◌<◌, ◌≤◌, ◌↔◌, ◌⊎◌, ℕ, length, slice_index_or, IsTrue, IfOk, IfErr, MatchOption};
ghost use Rattle.plan_core.specs.Hardware.{port_of, HasRoute, IsOfKind};
ghost use Rattle.plan_core.specs.Operands.{node_of, Reads};
ghost use Rattle.plan_core.specs.Assigned.{IsForRam, IsRightUnit, IsCandidate, IsUnitFor};
ghost use Rattle.plan_core.specs.Refusals.{IsNextNode, LacksOperand, LacksConsumer, IsOperandWithout, IsConsumerWithout};
ghost use Rattle.unit_assign.specs.Faults.{IsUnitFault};
ghost use Rattle.unit_assign.specs.Private.UnitSets.{Has};
ghost use Rattle.unit_assign.specs.Private.Drivers.{most_ports};
ghost use Rattle.unit_assign.specs.Private.Problems.{nodes_of, IsSound};
ghost use Rattle.unit_assign.specs.Private.Missing.{LacksFrom, IsFirstPort, IsFirstConsumer, IsFirstRight};
ghost use Rattle.unit_assign.specs.Private.Bindings.{IsBinding, HasRouteFrom, IsBest};

use crate::binding::Binding;
use crate::drivers::place_of;
use crate::fault::UnitFault;
use crate::wiring::Wiring;
use bit_sets::Set32;
use datapath::{Datapath, Kind, PortRef};
use fix_word::Op;
use plan_core::Lowered;
use signal_graph::{Edge, Node};

/// A graph that is to be bound to the units of a datapath.
#[derive(Clone, Copy)]
pub(crate) struct Problem<'a> {
    pub datapath: &'a Datapath,
    pub lowered: &'a Lowered,
    pub wiring: &'a Wiring,
}

/// Whether a unit that is of the right kind for an operation is meant for its ram.
fn is_for_ram(datapath: &Datapath, node: &Node, unit: u8) -> bool
    requires { unit < length datapath.now.units }
    ensures { IsTrue result ↔ IsForRam datapath.now node.now.op node.now.ram unit }
{
    match node.op {
        Op::Load | Op::Store => unit == node.ram,
        Op::Addr => datapath.units[usize::from(unit)].ram == node.ram,
        _ => true,
    }
}

/// Whether the unit is of the right kind for the node.
fn is_right(datapath: &Datapath, node: &Node, unit: u8) -> bool
    requires { unit < length datapath.now.units }
    ensures { IsTrue result ↔ IsRightUnit datapath.now node.now unit }
{
    datapath.units[usize::from(unit)].kind == Kind::of(node.op) && is_for_ram(datapath, node, unit)
}

impl Problem<'_> {
    /// The units from which a bus leads to the port.
    pub(crate) fn drivers(&self, unit: u8, port: usize) -> Set32
        requires problem { IsSound self.now }
        requires unit { unit < length self.now.datapath.now.units }
        requires port { port < most_ports }
        ensures { (u : ℕ) → Has result u ↔ HasRoute self.now.datapath.now u (port_of unit port) }
    {
        self.wiring.drivers[place_of(unit, port)]
    }

    fn has_route(&self, from: u8, unit: u8, port: usize) -> bool
        requires problem { IsSound self.now }
        requires from { from < length self.now.datapath.now.units }
        requires unit { unit < length self.now.datapath.now.units }
        requires port { port < most_ports }
        ensures { IsTrue result ↔ HasRoute self.now.datapath.now from (port_of unit port) }
    {
        self.drivers(unit, port).contains(from)
    }

    /// Whether node v on this unit has no route for an operand.
    fn lacks_operand(&self, units: &[u8], v: usize, unit: u8, port: usize, edge: Edge) -> bool
        requires problem { IsSound self.now }
        requires next { IsNextNode self.now.datapath.now self.now.lowered.now units.now v }
        requires unit { unit < length self.now.datapath.now.units }
        requires port { port < most_ports }
        ensures { IsTrue result ↔ LacksFrom self.now.datapath.now self.now.lowered.now units.now v unit port edge.node }
    {
        let operand = edge.node as usize;
        if operand < v {
            !self.has_route(units[operand], unit, port)
        } else {
            operand == v && !self.has_route(unit, unit, port)
        }
    }

    /// The first port at which node v on this unit has no route for its operand.
    fn missing_operand(&self, units: &[u8], v: usize, unit: u8) -> Option<u8>
        requires problem { IsSound self.now }
        requires next { IsNextNode self.now.datapath.now self.now.lowered.now units.now v }
        requires unit { unit < length self.now.datapath.now.units }
        ensures { MatchOption result
            ((q : ℕ) → LacksOperand self.now.datapath.now self.now.lowered.now units.now v unit q → ⊥)
            (λ q. IsOperandWithout self.now.datapath.now self.now.lowered.now units.now v unit (port_of unit q)) }
    {
        for (port, edge) in self.lowered.nodes[v].edges.iter().enumerate() {
            if self.lacks_operand(units, v, unit, port, *edge) {
                return Some(port as u8);
            }
        }
        None
    }

    /// The first port of node c at which it reads node v without a route from this unit.
    fn missing_port(&self, units: &[u8], v: usize, unit: u8, c: usize) -> Option<u8>
        requires problem { IsSound self.now }
        requires next { IsNextNode self.now.datapath.now self.now.lowered.now units.now v }
        requires unit { unit < length self.now.datapath.now.units }
        requires before { c < v }
        ensures { MatchOption result
            ((q : ℕ) → LacksConsumer self.now.datapath.now self.now.lowered.now units.now v unit c q → ⊥)
            (IsFirstPort self.now.datapath.now self.now.lowered.now units.now v unit c) }
    {
        for (port, edge) in self.lowered.nodes[c].edges.iter().enumerate() {
            if edge.node as usize == v && !self.has_route(unit, units[c], port) {
                return Some(port as u8);
            }
        }
        None
    }

    /// The port of the first consumer, of those that are bound, to which node v on this unit has no route.
    fn missing_consumer(&self, units: &[u8], v: usize, unit: u8) -> Option<PortRef>
        requires problem { IsSound self.now }
        requires next { IsNextNode self.now.datapath.now self.now.lowered.now units.now v }
        requires unit { unit < length self.now.datapath.now.units }
        ensures { MatchOption result
            ((c q : ℕ) → LacksConsumer self.now.datapath.now self.now.lowered.now units.now v unit c q → ⊥)
            (IsFirstConsumer self.now.datapath.now self.now.lowered.now units.now v unit) }
    {
        for c in 0..v {
            if let Some(port) = self.missing_port(units, v, unit, c) {
                return Some(PortRef {
                    unit: units[c],
                    port,
                });
            }
        }
        None
    }

    /// The right units for a node that is meant for a ram.
    fn right_for_ram(&self, node: &Node) -> Set32
        requires problem { IsSound self.now }
        ensures { (u : ℕ) → Has result u ↔ IsRightUnit self.now.datapath.now node.now u }
    {
        let mut right = Set32::empty();
        for number in 0..self.datapath.units.len() {
            let unit = number as u8;
            if is_right(self.datapath, node, unit) {
                right = right.with(unit);
            }
        }
        right
    }

    /// The right units for the node.
    fn right_units(&self, node: &Node) -> Set32
        requires problem { IsSound self.now }
        ensures { (u : ℕ) → Has result u ↔ IsRightUnit self.now.datapath.now node.now u }
    {
        match node.op {
            Op::Load | Op::Store | Op::Addr => self.right_for_ram(node),
            op => self.wiring.kinds.units(Kind::of(op)),
        }
    }

    /// The units that have a route to this port of their own.
    fn own_takers(&self, port: usize) -> Set32
        requires problem { IsSound self.now }
        requires port { port < most_ports }
        ensures { (u : ℕ) → u < length self.now.datapath.now.units
            → Has result u ↔ HasRoute self.now.datapath.now u (port_of u port) }
    {
        let mut takers = Set32::empty();
        for number in 0..self.datapath.units.len() {
            let unit = number as u8;
            if self.has_route(unit, unit, port) {
                takers = takers.with(unit);
            }
        }
        takers
    }

    /// The units on which node v has a route for the operand at this port, if it needs one yet.
    fn takers(&self, units: &[u8], v: usize, port: usize, operand: usize) -> Set32
        requires problem { IsSound self.now }
        requires next { IsNextNode self.now.datapath.now self.now.lowered.now units.now v }
        requires port { port < most_ports }
        ensures { (u : ℕ) → u < length self.now.datapath.now.units
            → Has result u
            ↔ HasRouteFrom self.now.datapath.now (nodes_of self.now) units.now v u port operand }
    {
        if operand == v {
            self.own_takers(port)
        } else if operand < v {
            self.wiring.takers[place_of(units[operand], port)]
        } else {
            Set32::full()
        }
    }

    /// The units on which node v can be.
    fn candidates(&self, binding: &Binding, v: usize) -> Set32
        requires problem { IsSound self.now }
        requires next { IsNextNode self.now.datapath.now self.now.lowered.now binding.now.units v }
        requires binding { IsBinding self.now.datapath.now (nodes_of self.now) binding.now }
        ensures { (u : ℕ) → Has result u ↔ IsCandidate self.now.datapath.now (nodes_of self.now) binding.now.units v u }
    {
        let node = &self.lowered.nodes[v];
        let mut left = self.right_units(node).intersection(binding.allowed[v]);
        for (port, edge) in node.edges.iter().enumerate() {
            let takers = self.takers(binding.units.as_slice(), v, port, edge.node as usize);
            left = left.intersection(takers);
        }
        left
    }

    /// The first of these candidates with the fewest nodes.
    fn best_of(&self, binding: &Binding, v: usize, candidates: Set32) -> Option<u8>
        requires problem { IsSound self.now }
        requires next { IsNextNode self.now.datapath.now self.now.lowered.now binding.now.units v }
        requires binding { IsBinding self.now.datapath.now (nodes_of self.now) binding.now }
        requires candidates { (u : ℕ) → Has candidates u
            ↔ IsCandidate self.now.datapath.now (nodes_of self.now) binding.now.units v u }
        ensures { let count = length self.now.datapath.now.units in
            IsBest self.now.datapath.now (nodes_of self.now) binding.now.units v count result }
    {
        let mut left = candidates;
        let mut best = None;
        while let Some(unit) = left.pop_first() {
            best = Some(binding.lighter(best, unit));
        }
        best
    }

    /// The first of the candidates with the fewest nodes. It is mostly one of the lightest units of its kind.
    fn best_candidate(&self, binding: &Binding, v: usize) -> Option<u8>
        requires problem { IsSound self.now }
        requires next { IsNextNode self.now.datapath.now self.now.lowered.now binding.now.units v }
        requires binding { IsBinding self.now.datapath.now (nodes_of self.now) binding.now }
        ensures { let count = length self.now.datapath.now.units in
            IsBest self.now.datapath.now (nodes_of self.now) binding.now.units v count result }
    {
        let candidates = self.candidates(binding, v);
        let mut lightest = candidates.intersection(binding.lightest);
        match lightest.pop_first() {
            Some(unit) => Some(unit),
            None => self.best_of(binding, v, candidates),
        }
    }

    fn first_right(&self, v: usize) -> Option<u8>
        requires problem { IsSound self.now }
        requires node { v < length (nodes_of self.now) }
        ensures { MatchOption result
            ((u : ℕ) → IsRightUnit self.now.datapath.now (node_of (nodes_of self.now) v) u → ⊥)
            (IsFirstRight self.now.datapath.now (node_of (nodes_of self.now) v)) }
    {
        for number in 0..self.datapath.units.len() {
            let unit = number as u8;
            if is_right(self.datapath, &self.lowered.nodes[v], unit) {
                return Some(unit);
            }
        }
        None
    }

    /// The port of the first missing route of node v on this unit, which is no candidate.
    fn missing_route(&self, units: &[u8], v: usize, unit: u8) -> PortRef
        requires problem { IsSound self.now }
        requires next { IsNextNode self.now.datapath.now self.now.lowered.now units.now v }
        requires right { IsRightUnit self.now.datapath.now (node_of (nodes_of self.now) v) unit }
        requires none { IsCandidate self.now.datapath.now (nodes_of self.now) units.now v unit → ⊥ }
        ensures { IsOperandWithout self.now.datapath.now self.now.lowered.now units.now v unit result
            ⊎ IsConsumerWithout self.now.datapath.now self.now.lowered.now units.now v unit result }
    {
        if let Some(port) = self.missing_operand(units, v, unit) {
            return PortRef { unit, port };
        }
        match self.missing_consumer(units, v, unit) {
            Some(port) => port,
            None => unreachable!(),
        }
    }

    /// Why node v has no candidate.
    fn refusal(&self, units: &[u8], v: usize) -> UnitFault
        requires problem { IsSound self.now }
        requires next { IsNextNode self.now.datapath.now self.now.lowered.now units.now v }
        requires width { (node_of (nodes_of self.now) v).width ≤ self.now.datapath.now.word }
        requires none { (u : ℕ) → IsCandidate self.now.datapath.now (nodes_of self.now) units.now v u → ⊥ }
        ensures { IsUnitFault self.now.datapath.now self.now.lowered.now result }
    {
        let node = v as u32;
        let Some(unit) = self.first_right(v) else {
            return UnitFault::NoUnit {
                kind: Kind::of(self.lowered.nodes[v].op),
                node,
            };
        };
        let port = self.missing_route(units, v, unit);
        UnitFault::NoRoute {
            unit: port.unit,
            port: port.port,
            node,
        }
    }

    /// The unit of node v, which is the next one.
    pub(crate) fn unit_for(&self, binding: &Binding, v: usize) -> Result<u8, UnitFault>
        requires problem { IsSound self.now }
        requires next { IsNextNode self.now.datapath.now self.now.lowered.now binding.now.units v }
        requires binding { IsBinding self.now.datapath.now (nodes_of self.now) binding.now }
        ensures unit { IfOk result (IsUnitFor self.now.datapath.now (nodes_of self.now) binding.now.units v) }
        ensures fault { IfErr result (IsUnitFault self.now.datapath.now self.now.lowered.now) }
    {
        if self.lowered.nodes[v].width > self.datapath.word {
            return Err(UnitFault::TooWide(v as u32));
        }
        match self.best_candidate(binding, v) {
            Some(unit) => Ok(unit),
            None => Err(self.refusal(binding.units.as_slice(), v)),
        }
    }
}
