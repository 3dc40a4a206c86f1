//! What fixes a world: its depth and its reach, and the greatest that they may be.

ghost use Rattle.std.specs.Prelude.{◌≡◌, ◌≤◌};
ghost use Rattle.lattice.specs.declared.settings.TheConstants.{MAX_SIDE};
ghost use Rattle.lattice.specs.Settings.{IsDepth, world_side};

use crate::node::CELLS;

/// The greatest depth of a world.
pub const MAX_DEPTH: u8 = 6;

/// The greatest reach.
pub const MAX_REACH: u8 = 8;

/// The side of a world of the greatest depth, in fine cells.
pub const MAX_SIDE: u32 = CELLS << MAX_DEPTH;

/// What fixes a world: its depth (0 to `MAX_DEPTH`) and its reach (0 to `MAX_REACH`).
///
/// The reach says how near a camera has to be for a node to be wanted split.
#[derive(Clone, Copy, Debug, PartialEq, Eq, Hash)]
pub struct Settings {
    pub depth: u8,
    pub reach: u8,
}

impl Settings {
    /// Returns the side of the world, in fine cells: `CELLS * 2^depth`.
    pub fn world_side(&self) -> u32
        requires { IsDepth self.now.depth }
        ensures value { result ≡ world_side self.now.depth }
        ensures most { result ≤ MAX_SIDE }
    {
        CELLS << self.depth
    }
}
