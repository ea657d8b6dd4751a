use lists::{List, Name};

/// Where an input word of a processor comes from.
#[derive(Clone, Copy, Debug, PartialEq, Eq)]
pub enum Wire {
    /// A word of the net's row.
    Input(u8),
    /// An output word of a processor of a smaller number.
    From { proc: u8, word: u8 },
}

/// A processor of a net.
#[derive(Drop)]
pub struct NetProc {
    /// The file of its program.
    pub src: Name,
    /// The file of its datapath.
    pub dp: Name,
    /// Where its input words come from, one wire for each.
    pub feed: List<Wire>,
}

/// Processors that are joined by bounded queues. A processor is named by its position.
#[derive(Drop)]
pub struct NetFile {
    /// How many words the net's row has: 1 to 16.
    pub inputs: u8,
    /// How many rows a queue holds: 1 to 64.
    pub capacity: u8,
    /// 1 to 8 processors.
    pub procs: List<NetProc>,
}
