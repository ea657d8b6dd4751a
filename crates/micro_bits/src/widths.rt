//! How many bits the fields of a packed file have.

/// A flag.
pub const FLAG: u32 = 1;

/// The period.
pub const PERIOD: u32 = 12;

/// The unroll factor.
pub const UNROLL: u32 = 2;

/// The number of input or output words.
pub const CHANNELS: u32 = 4;

/// The width of an input word or a format.
pub const WIDTH: u32 = 6;

/// The number of a unit, or of units.
pub const UNIT: u32 = 5;

/// A kind.
pub const KIND: u32 = 3;

/// A latency or a gap.
pub const CYCLES: u32 = 3;

/// A register, or how many a file has.
pub const REGISTER: u32 = 8;

/// How many cells a ram has.
pub const CELLS: u32 = 16;

/// A bus, or how many there are.
pub const BUS: u32 = 5;

/// A shift.
pub const SHIFT: u32 = 7;

/// A mode.
pub const MODE: u32 = 2;

/// The number of an input or output word.
pub const WORD_NUMBER: u32 = 4;

/// The offset of an address.
pub const OFFSET: u32 = 16;

/// A raw word.
pub const RAW_WORD: u32 = 40;
