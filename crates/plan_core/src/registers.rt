//! Lifetimes of words in register files, and their registers. Page `docs/PLANNING.md`, "Lifetimes" and "Registers".

use datapath::PortRef;
use lists::List;
use short_lists::ShortList;

/// The most copies of a lifetime.
const COPIES: usize = 4;

/// A cyclic lifetime: how long a node's words stay in the file of one port. On the circle of cycles after which the
/// microprogram repeats it is an arc.
#[derive(Clone, Copy)]
pub struct Arc {
    pub node: u32,
    pub port: PortRef,
    /// The cycle of the sample at whose end a word is written.
    pub w: u16,
    /// The cycle of the last read, counted from the start of the sample in which the word is written.
    pub r: u16,
    /// In how many registers the words of successive samples stand in turn (modulo variable expansion): 1, 2 or 4.
    pub copies: u8,
}

/// Lifetimes by unit, port, `w`, then node.
pub type Arcs = List<Arc>;

/// The registers of the copies of one lifetime.
pub type CopyRegisters = ShortList<u8, COPIES>;

/// For each lifetime the registers of its copies.
#[derive(Drop)]
pub struct Registers {
    pub regs: List<CopyRegisters>,
}
