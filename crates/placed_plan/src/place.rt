//! Where nodes are to stand.

/// Where a node is to stand.
#[derive(Debug, Clone, Copy, PartialEq, Eq)]
pub struct Place {
    /// The number of its unit.
    pub unit: u8,
    /// The cycle of the sample in which it is issued.
    pub cycle: u16,
}
