//! Plans over several stages.

use fix_word::SigType;
use lists::List;
use plan_core::{Arcs, Assigned, Registers, Schedule};

/// A program on a datapath, of which several samples are in flight at once: a unit, a cycle, transfers and registers
/// for each node. Cycles count from the start of the sample, over all of its stages.
#[derive(Drop)]
pub struct StagePlan {
    pub assigned: Assigned,
    pub schedule: Schedule,
    /// The lifetimes, each from the cycle of the period in which its words are written.
    pub arcs: Arcs,
    pub registers: Registers,
    /// The unroll factor: the microprogram repeats after this many periods.
    pub unroll: u8,
    /// Over how many periods a sample is issued: as many samples are in flight at once.
    pub stages: u8,
    /// The type of each input word.
    pub inputs: List<SigType>,
    /// How many output words there are.
    pub outs: u8,
}
