//! Images: the units of a processor and its microwords.

ghost use Rattle.std.specs.Prelude.{◌≡◌};
ghost use Rattle.micro_image.specs.Fields.{word_at};
ghost use Rattle.micro_image.specs.Valid.{IsValid};

use fix_word::{Format, Op};
use lists::List;
use operations::{Kind, PortRef};
use short_lists::ShortList;

/// The most ports of a unit.
const PORTS: usize = 3;

/// For how many bus drives, and for how many register-file writes, a microword has room in itself.
const TRANSFERS: usize = 8;

/// A register for each port of a unit.
pub type PortRegisters = ShortList<u8, PORTS>;

/// The bus drives of a microword.
pub type Enables = ShortList<Enable, TRANSFERS>;

/// The register-file writes of a microword.
pub type Takes = ShortList<Take, TRANSFERS>;

/// A unit of the hardware, and the state in which it starts.
#[derive(Debug, Drop)]
pub struct UnitDesc {
    pub kind: Kind,
    /// How many cycles an operation takes: the result of an issue at cycle T is on its buses in cycle T + latency - 1.
    pub latency: u8,
    /// How many cycles after an issue the unit can have the next one: its initiation interval.
    pub gap: u8,
    /// The registers of each port, as raw words.
    pub files: List<List<i64>>,
    /// The cells of a ram, as raw words; empty for the other kinds.
    pub cells: List<i64>,
    /// The unit number of the ram that an acu addresses; 0 for the other kinds.
    pub ram: u8,
}

/// An issue: an operation that a unit begins in a cycle.
#[derive(Debug, Drop)]
pub struct Issue {
    pub unit: u8,
    pub op: Op,
    /// How a formatted operation brings its exact result to a word; shift 0, trunc and width 0 for the others.
    pub fmt: Format,
    /// The input or output word's number, the constant's raw word or the address's offset; 0 for the others.
    pub arg: i64,
    /// The register that is read at each port of the unit.
    pub regs: PortRegisters,
}

/// A bus drive: a unit that drives a bus in a cycle.
#[derive(Clone, Copy, Debug, Default, PartialEq, Eq)]
pub struct Enable {
    pub unit: u8,
    pub bus: u8,
}

/// A register-file write: a register that takes what its bus carries at the end of a cycle.
#[derive(Clone, Copy, Debug, PartialEq, Eq)]
pub struct Take {
    pub port: PortRef,
    pub bus: u8,
    pub reg: u8,
}

/// The blank of a list's room.
impl Default for Take {
    fn default() -> Take {
        Take {
            port: PortRef { unit: 0, port: 0 },
            bus: 0,
            reg: 0,
        }
    }
}

/// A microword: all that the hardware does in one cycle.
#[derive(Debug, Drop)]
pub struct Word {
    pub issues: List<Issue>,
    pub enables: Enables,
    pub takes: Takes,
}

/// A microprogram with the hardware that it is for.
#[derive(Debug, Drop)]
pub struct Image {
    /// Cycles in a sample.
    pub period: u16,
    /// Samples until the words repeat.
    pub unroll: u8,
    /// The width of each input word in bits, 0 for a truth value.
    pub inputs: List<u8>,
    /// How many output words there are.
    pub outs: u8,
    pub units: List<UnitDesc>,
    /// How many buses there are.
    pub buses: u8,
    /// The words of `unroll` samples, `period` for each.
    pub words: List<Word>,
}

impl Image {
    /// The word that the hardware obeys at a cycle, counted from the start of the run.
    pub fn word_at(&self, cycle: u64) -> &Word
        requires { IsValid self.now }
        ensures { result.now ≡ word_at self.now cycle }
    {
        let count = u64::from(self.unroll) * u64::from(self.period);
        &self.words[(cycle % count) as usize]
    }
}
