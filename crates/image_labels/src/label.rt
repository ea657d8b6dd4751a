//! Labels, and the certificate that says where words are.

ghost use Rattle.std.specs.Prelude.{◌≡◌};
ghost use Rattle.micro_image.specs.Fields.{nth};

use lists::List;

/// What a storage location holds, or a result is. Samples are counted from the turn's first, which has the number 1024.
#[derive(Clone, Copy, Debug, PartialEq, Eq)]
pub enum Label {
    /// Nothing is known of it.
    Unknown,
    /// The word of the node with this number at the sample with this number.
    Signal(u32, u32),
    /// The address of a cell, in a ram of so many cells: how many cells there are, and the cell. Cells are counted so
    /// that the address of an offset in the turn's first sample is the offset.
    Address(u32, u32),
    /// This raw word, in each sample of a run.
    Constant(i64),
}

/// Where the words of a graph are in a turn of an image: what an image is checked by. Nothing is asked of it.
#[derive(Drop)]
pub struct Certificate {
    /// For each node of the graph the one that stands for it, which has the same word in each sample.
    pub representatives: List<u32>,
    /// What the issue of each cycle of the turn and each unit comes to: that of cycle c on unit u is at 32 c + u.
    pub issues: List<Label>,
    /// What each register holds when a turn starts: register r of port p of unit u is at 1024 u + 256 p + r.
    pub registers: List<Label>,
    /// What each cell of a ram holds when a turn starts: cell x of unit u is at 65536 u + x.
    pub cells: List<Label>,
    /// In which cycle of the turn the first store into each cell ends, or 0, in the order of `cells`. This is a hint:
    /// where the list has other cycles, the answer is the same and takes longer.
    pub fresh: List<u16>,
    /// The cycle after the one in which the last store into each cell ends, or 0. It is a hint too.
    pub settled: List<u16>,
    /// The cycle after the last one before it in which the register is written that the issue of a cycle reads at a
    /// port, or 0: for port p of unit u in cycle c it is at 96 c + 3 u + p. It is a hint too.
    pub written: List<u16>,
}

/// Which hints of a certificate are right.
#[derive(Clone, Copy)]
pub struct Hints {
    /// Those on the registers that issues read.
    pub reads: bool,
    /// Those on the first and the last store into each cell.
    pub stores: bool,
}

/// What a list of hints has at a place.
pub fn cycle_at(cycles: &List<u16>, index: usize) -> u16
    ensures { result ≡ nth cycles.now index 0 }
{
    if index < cycles.len() {
        cycles[index]
    } else {
        0
    }
}
