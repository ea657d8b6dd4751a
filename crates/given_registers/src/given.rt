//! Registers that are given.

use datapath::PortRef;

/// The register that a copy of a lifetime is to have.
#[derive(Debug, Clone, Copy, PartialEq, Eq)]
pub struct GivenRegister {
    /// The node whose words the lifetime keeps.
    pub node: u32,
    /// The port in whose file it keeps them.
    pub port: PortRef,
    /// The number of the copy.
    pub copy: u8,
    pub register: u8,
}
