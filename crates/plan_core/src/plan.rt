//! Plans. Page `docs/PLANNING.md`.

use crate::registers::{Arcs, Registers};
use crate::schedule::{Assigned, Schedule};
use fix_word::SigType;
use lists::List;

/// A program on a datapath: a unit, a cycle, transfers and registers for each node.
#[derive(Drop)]
pub struct Plan {
    pub assigned: Assigned,
    pub schedule: Schedule,
    pub arcs: Arcs,
    pub registers: Registers,
    /// The unroll factor: the microprogram repeats after this many samples.
    pub unroll: u8,
    /// The type of each input word.
    pub inputs: List<SigType>,
    /// How many output words there are.
    pub outs: u8,
}
