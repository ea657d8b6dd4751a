//! Why the labels of an image do not fit a graph.

use thiserror::Error;

/// The first place at which the labels do not fit. Cycles and samples are those of a turn, and nodes those of the graph.
#[derive(Clone, Copy, Debug, PartialEq, Eq, Error)]
pub enum Mismatch {
    /// The image puts another count of words than the graph.
    #[error("the count of output words differs")]
    Outs,
    /// A node is no copy of the one that stands for it.
    #[error("node {0} is no copy of the one that stands for it")]
    Copy(u32),
    /// An issue reads another word at a port than its node does there.
    #[error("cycle {cycle}: port {port} of unit {unit} has node {has} of {ago} samples ago, where node {node} reads node \
         {wants} of {delay}")]
    OtherOperand {
        cycle: u16,
        unit: u8,
        port: u8,
        has: u32,
        ago: u32,
        node: u32,
        wants: u32,
        delay: u16,
    },
    /// An issue reads no word of a node that is known at a port.
    #[error("cycle {cycle}: what port {port} of unit {unit} has is not known, where node {node} reads node {wants} of \
         {delay} samples ago")]
    UnknownOperand {
        cycle: u16,
        unit: u8,
        port: u8,
        node: u32,
        wants: u32,
        delay: u16,
    },
    /// An issue has another operation, format or argument than its node.
    #[error("cycle {cycle}: unit {unit} does not do what node {node} does")]
    OtherOperation {
        cycle: u16,
        unit: u8,
        node: u32,
    },
    /// The issue of a cycle on a unit does not fit for another reason: nothing is known of an output's word, it accesses
    /// memory at no address of its ram, ends behind its sample or turn, or meets a busy unit.
    #[error("cycle {0}: the issue on unit {1} does not fit")]
    Issue(u16, u8),
    /// A unit drives a bus in a cycle beside another one, or without a result.
    #[error("cycle {0}: unit {1} drives a bus that is driven, or has no result")]
    Drive(u16, u8),
    /// A take from a bus that no unit drives, or beside another take into its file.
    #[error("cycle {0}: the take from bus {1} has no driver, or is not alone in its file")]
    Take(u16, u8),
    /// What a register of a port of a unit starts with, or holds at the end of a turn, is not what its label says.
    #[error("register {2} of port {1} of unit {0} does not come round")]
    Register(u32, u32, u32),
    /// The same of a cell of a ram.
    #[error("cell {1} of unit {0} does not come round")]
    Cell(u32, u32),
    /// An output word that is not put in a sample.
    #[error("sample {0}: output word {1} is not put")]
    Row(u8, u8),
}
