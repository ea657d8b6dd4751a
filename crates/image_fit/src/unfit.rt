//! Why an image is none of a datapath.

use operations::Kind;
use thiserror::Error;

/// The first place at which an image differs from a datapath, with what the image has there and what the datapath has.
#[derive(Clone, Copy, Debug, PartialEq, Eq, Error)]
pub enum Unfit {
    #[error("a sample has {has} cycles, and {wants} on the datapath")]
    Period {
        has: u16,
        wants: u16,
    },
    #[error("there are {has} buses, and {wants} on the datapath")]
    Buses {
        has: u8,
        wants: usize,
    },
    #[error("there are {has} units, and {wants} on the datapath")]
    Units {
        has: usize,
        wants: usize,
    },
    #[error("a word of the datapath has {wants} bits, and input word {input} has {has}")]
    Input {
        input: usize,
        has: u8,
        wants: u8,
    },
    #[error("unit {unit} is of kind {}, and of kind {} on the datapath", .has.name(), .wants.name())]
    Kind {
        unit: usize,
        has: Kind,
        wants: Kind,
    },
    #[error("unit {unit} has latency {has}, and {wants} on the datapath")]
    Latency {
        unit: usize,
        has: u8,
        wants: u8,
    },
    #[error("unit {unit} has gap {has}, and {wants} on the datapath")]
    Gap {
        unit: usize,
        has: u8,
        wants: u8,
    },
    #[error("the register files of unit {unit} have other sizes than on the datapath")]
    Files {
        unit: usize,
    },
    #[error("unit {unit} has {has} cells, and {wants} on the datapath")]
    Cells {
        unit: usize,
        has: usize,
        wants: u32,
    },
    #[error("unit {unit} addresses ram {has}, and ram {wants} on the datapath")]
    Ram {
        unit: usize,
        has: u8,
        wants: u8,
    },
    #[error("a register or cell of unit {unit} starts with a word of more bits than the datapath's")]
    Start {
        unit: usize,
    },
    #[error("word {word}: unit {unit} has a word of more bits than the datapath's")]
    Wide {
        word: usize,
        unit: u8,
    },
    #[error("word {word}: unit {unit} can't drive bus {bus} on the datapath")]
    Drive {
        word: usize,
        unit: u8,
        bus: u8,
    },
    #[error("word {word}: port {unit}.{port} can't take from bus {bus} on the datapath")]
    Take {
        word: usize,
        unit: u8,
        port: u8,
        bus: u8,
    },
}
