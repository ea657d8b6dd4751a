//! What the hardware can't do in one cycle.

use thiserror::Error;

/// What the hardware can't do in one cycle, the structural hazards, in the order in which they are reported.
#[derive(Clone, Copy, Debug, PartialEq, Eq, PartialOrd, Ord, Error)]
pub enum ConflictKind {
    /// An issue on a unit that is still busy; the place is the unit.
    #[error("busy")]
    Busy,
    /// Two units drive one bus; the place is the bus.
    #[error("two drivers")]
    TwoDrivers,
    /// Two takes into one register file, which has one write port; the place is four times the unit plus the port.
    #[error("file twice")]
    FileTwice,
    /// A take from a bus that no unit drives; the place is the bus.
    #[error("no driver")]
    NoDriver,
    /// A unit drives a bus without a result; the place is the unit.
    #[error("no result")]
    NoResult,
    /// A load or store outside the cells of its ram; the place is the unit.
    #[error("address")]
    Address,
}

/// The first conflict (structural hazard) of a run: its cycle, counted from the start of the run, its kind and
/// its place.
#[derive(Clone, Copy, Debug, PartialEq, Eq, Error)]
#[error("conflict at cycle {cycle}: {kind} {place}")]
pub struct Conflict {
    pub cycle: u64,
    pub kind: ConflictKind,
    pub place: u16,
}
