use lists::{List, Name};
use operations::{Kind, PortRef};

/// A unit of the datapath.
#[derive(Drop)]
pub struct Unit {
    pub name: Name,
    pub kind: Kind,
    /// How many cycles an operation takes: the result of an issue at cycle T is on its buses in cycle T + latency - 1.
    pub latency: u8,
    /// How many cycles after an issue the unit can have the next one: its initiation interval.
    pub gap: u8,
    /// How many registers the file of each port has.
    pub files: List<u16>,
    /// How many cells a ram has; 0 for the other kinds.
    pub cells: u32,
    /// The position of the ram that an acu addresses; 0 for the other kinds.
    pub ram: u8,
}

/// A bus of the datapath.
#[derive(Drop)]
pub struct Bus {
    pub name: Name,
    /// The positions of the units that can drive it.
    pub from: List<u8>,
    /// The ports whose files it can be written to.
    pub to: List<PortRef>,
}

/// The hardware that a program is compiled for. `docs/DATAPATH.md` says what its numbers may be.
#[derive(Drop)]
pub struct Datapath {
    /// Cycles in a sample.
    pub period: u16,
    /// The widest word, in bits.
    pub word: u8,
    /// The longest delay, in samples, that register files hold; a longer one takes cells of a ram: 0 to 3.
    pub hold: u8,
    pub units: List<Unit>,
    pub buses: List<Bus>,
}
