//! What a graph is lowered to.

ghost use Rattle.std.specs.Prelude.{◌≡◌, ◌+◌};

use datapath::Datapath;

/// The datapath whose rams have the delay lines, and the two numbers that say which delays become lines and how long
/// these are.
#[derive(Clone, Copy)]
pub(crate) struct Target<'a> {
    pub datapath: &'a Datapath,
    /// The longest delay that stays on its edge.
    pub hold: u8,
    /// How many cells a line has beyond its longest delay.
    pub spare: u8,
}

impl Target<'_> {
    /// How many cells the line of a node has whose longest delay is this one.
    pub fn cells(&self, depth: u16) -> u32
        ensures { result ≡ depth + self.now.spare }
    {
        u32::from(depth) + u32::from(self.spare)
    }
}
