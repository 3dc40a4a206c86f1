//! A level of a level map, row by row.

ghost use Rattle.std.specs.Prelude.{◌≡◌, ℕ, ◌+◌, ◌<◌, ◌≤◌, ◌^◌, ◌↔◌, IsTrue};
ghost use Rattle.lattice.specs.declared.settings.TheConstants.{MAX_DEPTH};
ghost use Rattle.lattice.specs.Node.{nodes_across};
ghost use Rattle.octree.specs.SplitBits.{row_bit, split_at};

use crate::levels::Levels;
use lattice::nodes_across;
use std::marker::Model;

/// The words of the rows of a level, at hand. Level 0 has none, and neither has a level that isn't in the world.
///
/// Contracts see the level map and the level.
#[derive(Drop)]
pub(crate) struct Layer<'a> {
    pub(crate) levels: &'a Levels,
    pub(crate) level: u8,
    /// How many rows it has along each axis.
    pub(crate) across: u32,
    /// By k, then j.
    pub(crate) rows: &'a [u64],
}

impl<'a> Model for Layer<'a> {
    ghost use Rattle.octree.specs.Layers.{IsLayer, LayerOf};

    ghost Value = { LayerOf };

    ghost view = { λ layer. record { levels = layer.levels.now; level = layer.level } };

    ghost invariant = { λ layer.
        IsLayer layer.levels.now layer.level layer.across layer.rows.now };
}

impl<'a> Layer<'a> {
    /// Returns the word of a row: the bits of its nodes that are split. It is 0 for a row that isn't in the world, or
    /// of level 0.
    pub(crate) fn row(&self, k: u32, j: u32) -> u64
        ensures fits { result < 2 ^ 32 }
        ensures each { (i : ℕ) → row_bit result i ≡ split_at self.now.levels
            (record { level = self.now.level; k = k; j = j; i = i }) }
    {
        if k < self.across && j < self.across {
            return self.rows[(k * self.across + j) as usize];
        }
        0
    }

    /// Returns whether a plane has the same words as that of another map's level.
    pub(crate) fn has_same_plane(&self, other: &Layer<'_>, k: u32) -> bool
        ensures { IsTrue result → (j i : ℕ) → split_at self.now.levels
            (record { level = self.now.level; k = k; j = j; i = i })
            ≡ split_at other.now.levels
            (record { level = other.now.level; k = k; j = j; i = i }) }
    {
        if self.across != other.across {
            return false;
        }
        if k >= self.across {
            return true;
        }
        let first = (k * self.across) as usize;
        let end = first + self.across as usize;
        let (mine, others) = (&self.rows[first..end], &other.rows[first..end]);
        mine == others
    }

    /// Returns how many nodes there are in a row of the level above.
    pub(crate) fn across_above(&self) -> u32
        requires { self.now.level < self.now.levels.depth }
        ensures value { result ≡ nodes_across self.now.levels.depth (self.now.level + 1) }
        ensures low { 1 ≤ result }
        ensures high { result ≤ 2 ^ MAX_DEPTH }
    {
        nodes_across(self.levels.depth(), self.level + 1)
    }

    /// Returns whether it is the level of the root.
    pub(crate) fn is_top(&self) -> bool
        ensures { IsTrue result ↔ (self.now.level ≡ self.now.levels.depth) }
    {
        self.level == self.levels.depth()
    }
}
