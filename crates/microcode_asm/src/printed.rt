//! What the text of a schedule shows.

use datapath::Datapath;
use plan_core::{Arcs, Assigned, Registers, Schedule};

/// The parts of a plan that the text of its schedule shows below its head line, with their datapath.
#[derive(Clone, Copy)]
pub struct Printed<'a> {
    pub datapath: &'a Datapath,
    pub assigned: &'a Assigned,
    pub schedule: &'a Schedule,
    pub arcs: &'a Arcs,
    pub registers: &'a Registers,
}
