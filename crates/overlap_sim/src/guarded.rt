//! Guarded images: the microwords of samples that overlap.

use lists::List;
use micro_image::{Enable, Issue, Take, UnitDesc};

/// A part of a microword, and the stage of its sample in which it stands. A machine obeys it from the sample of that
/// number on: in the samples before, the one that it would speak of has not begun.
#[derive(Drop)]
pub struct Staged<T> {
    pub part: T,
    pub stage: u8,
}

/// A microword of which each part has a stage.
#[derive(Drop)]
pub struct GuardedWord {
    pub issues: List<Staged<Issue>>,
    pub enables: List<Staged<Enable>>,
    pub takes: List<Staged<Take>>,
}

/// A microprogram of samples that overlap, with the hardware that it is for: an image, but for the stages.
#[derive(Drop)]
pub struct Guarded {
    /// Cycles in a sample.
    pub period: u16,
    /// Samples until the words repeat.
    pub unroll: u8,
    /// The width of each input word in bits, 0 for a truth value.
    pub inputs: List<u8>,
    /// How many output words there are.
    pub outs: u8,
    pub units: List<UnitDesc>,
    /// How many buses there are.
    pub buses: u8,
    /// The words of `unroll` samples, `period` for each.
    pub words: List<GuardedWord>,
}
