//! The versions of a microcode file.

/// In what the fields of a microcode file stand.
#[derive(Clone, Copy, Debug, PartialEq, Eq)]
pub enum Version {
    /// In bytes.
    One,
    /// In packed bits.
    Two,
}
