//! The leaves that come and go from one level map to another, row by row.

ghost use Rattle.std.specs.Prelude.{◌≡◌, ◌==◌, ◌&&◌, ◌||◌, ℕ, ◌-◌, ◌<◌, ◌≤◌, ◌^◌, ◌↔◌, false, filter, nat_lt, not, IfOk, IsTrue, OnOk};
ghost use Rattle.lattice.specs.Node.{level_nodes, nodes_across, parent};
ghost use Rattle.octree.specs.Changes.{AddsChanges, IsQuietPlane, IsSwitchedAround, IsSwitchedBeside, is_switched};
ghost use Rattle.octree.specs.LeafLists.{nodes_of_plane, nodes_of_row};
ghost use Rattle.octree.specs.SplitBits.{row_bit, split_at};
ghost use Rattle.terrain.specs.Levels.{is_leaf, leaves, rim};

use crate::layer::Layer;
use crate::leaves::leaf_row;
use crate::levels::Levels;
use crate::rows::{push_nodes, widened};
use lattice::{Node, nodes_across};
use std::alloc::{AllocError, Global};
use std::marker::Model;

/// The leaves that a change of levels makes new or gives another rim, and those that it makes none, each in the order
/// of nodes.
#[derive(Debug, Drop)]
pub struct LeafChange {
    pub changed: Vec<Node>,
    pub lost: Vec<Node>,
}

/// Returns the leaves of a level map that weren't leaves of the one before it or have another rim, and the leaves of
/// the one before it that are none any more. Out of memory is the only error.
///
/// A row is told from a few words: its leaves from its own bits and its parents', and those that have another rim from
/// the nodes beside it that one map splits and the other doesn't. No node is looked at, and no rim, and a plane that
/// both maps have alike is passed over.
pub fn leaf_change(alloc: Global, before: &Levels, after: &Levels) -> Result<LeafChange, AllocError>
    requires { before.now.depth ≡ after.now.depth }
    ensures changed { let depth = after.now.depth in IfOk result (λ change. change.changed.items
        ≡ filter (λ n. not (is_leaf depth (split_at before.now) n)
        || not (rim depth (split_at before.now) n == rim depth (split_at after.now) n))
        (leaves depth (split_at after.now))) }
    ensures lost { IfOk result (λ change. change.lost.items
        ≡ filter (λ n. not (is_leaf after.now.depth (split_at after.now) n))
        (leaves before.now.depth (split_at before.now))) }
{
    let mut change = LeafChange {
        changed: Vec::new(alloc),
        lost: Vec::new(alloc),
    };
    for level in 0..after.depth() + 1 {
        LevelPair::of(before, after, level).push_changes(&mut change)?;
    }
    Ok(change)
}

/// A level of two level maps of a world, and the level above it, row by row.
///
/// Contracts see the two level maps and the level.
#[derive(Drop)]
struct LevelPair<'a> {
    level: u8,
    /// How many nodes of the level there are in a row.
    across: u32,
    before: Layer<'a>,
    after: Layer<'a>,
    above_before: Layer<'a>,
    above_after: Layer<'a>,
}

impl<'a> Model for LevelPair<'a> {
    ghost use Rattle.octree.specs.Layers.{IsLevelPair, PairOf};

    ghost Value = { PairOf };

    ghost view = { λ pair. record {
      before = pair.before.levels;
      after = pair.after.levels;
      level = pair.level;
    } };

    ghost invariant = { λ pair. IsLevelPair pair.level pair.across pair.before pair.after
        pair.above_before pair.above_after };
}

impl<'a> LevelPair<'a> {
    /// Lends a level of two level maps.
    fn of(before: &'a Levels, after: &'a Levels, level: u8) -> LevelPair<'a>
        requires depth { before.now.depth ≡ after.now.depth }
        requires level { level ≤ after.now.depth }
        ensures { result ≡ record { before = before.now; after = after.now; level = level } }
    {
        LevelPair {
            level,
            across: nodes_across(after.depth(), level),
            before: before.layer(level),
            after: after.layer(level),
            above_before: before.layer(level + 1),
            above_after: after.layer(level + 1),
        }
    }

    /// Appends the changed and the lost leaves of the level.
    fn push_changes(&self, change: &mut LeafChange) -> Result<(), AllocError>
        ensures { OnOk result (AddsChanges self.now.before self.now.after
            (level_nodes self.now.after.depth self.now.level) change.old change.new) }
    {
        let mut low = true;
        let mut here = self.has_same_plane(0);
        for k in 0..self.across {
            let high = self.has_same_plane(k + 1);
            self.push_plane(change, k, low & (here & high))?;
            low = here;
            here = high;
        }
        Ok(())
    }

    /// Appends the changed and the lost leaves of a plane, given whether both maps are known to split the same nodes of
    /// it and of those beside it.
    fn push_plane(&self, change: &mut LeafChange, k: u32, same: bool) -> Result<(), AllocError>
        requires k { k < nodes_across self.now.after.depth self.now.level }
        requires same { IsTrue same → (j i : ℕ)
            → IsSwitchedAround self.now.before self.now.after
            (record { level = self.now.level; k = k; j = j; i = i }) → ⊥ }
        ensures { OnOk result (AddsChanges self.now.before self.now.after
            (nodes_of_plane self.now.after.depth self.now.level k) change.old change.new) }
    {
        let across = self.across;
        if self.is_quiet(k, same) {
            return Ok(());
        }
        let mut low = 0;
        let mut here = self.switched_beside(k, 0);
        for j in 0..across {
            let high = self.switched_beside(k, j + 1);
            self.push_row(change, k, j, low | (here | high))?;
            low = here;
            here = high;
        }
        Ok(())
    }

    /// Returns whether both maps split the same nodes of a plane and of those beside it, as far as that is known, and
    /// the same parents of its nodes.
    fn is_quiet(&self, k: u32, same: bool) -> bool
        requires { IsTrue same → (j i : ℕ)
            → IsSwitchedAround self.now.before self.now.after
            (record { level = self.now.level; k = k; j = j; i = i }) → ⊥ }
        ensures { IsTrue result
            → IsQuietPlane self.now.before self.now.after self.now.level k }
    {
        if same {
            return self.has_same_plane_above(k);
        }
        false
    }

    /// Returns whether both maps split the same parents of the nodes of a plane.
    fn has_same_plane_above(&self, k: u32) -> bool
        ensures { IsTrue result → (j i : ℕ) → split_at self.now.before
            (parent (record { level = self.now.level; k = k; j = j; i = i }))
            ≡ split_at self.now.after
            (parent (record { level = self.now.level; k = k; j = j; i = i })) }
    {
        self.above_before.has_same_plane(&self.above_after, k / 2)
    }

    /// Returns whether both maps split the same nodes of a plane.
    fn has_same_plane(&self, k: u32) -> bool
        ensures { IsTrue result → (j i : ℕ) → is_switched self.now.before self.now.after
            (record { level = self.now.level; k = k; j = j; i = i }) ≡ false }
    {
        self.before.has_same_plane(&self.after, k)
    }

    /// Appends the changed and the lost leaves of a row, given the bits of the nodes around which one is switched.
    fn push_row(&self, change: &mut LeafChange, k: u32, j: u32, near: u64) -> Result<(), AllocError>
        requires k { k < nodes_across self.now.after.depth self.now.level }
        requires j { j < nodes_across self.now.after.depth self.now.level }
        requires near { (i : ℕ) → IsTrue (row_bit near i)
            ↔ IsSwitchedAround self.now.before self.now.after
            (record { level = self.now.level; k = k; j = j; i = i }) }
        ensures { OnOk result (AddsChanges self.now.before self.now.after
            (nodes_of_row self.now.after.depth self.now.level k j) change.old change.new) }
    {
        let level = self.level;
        if near == 0 && self.has_same_parents(k, j) {
            return Ok(());
        }
        let was = leaf_row(&self.before, &self.above_before, k, j);
        let now = leaf_row(&self.after, &self.above_after, k, j);
        push_nodes(&mut change.changed, level, k, j, now & (near | !was))?;
        push_nodes(&mut change.lost, level, k, j, was & !now)
    }

    /// Returns whether both maps split the same parents of the nodes of a row.
    fn has_same_parents(&self, k: u32, j: u32) -> bool
        ensures { IsTrue result → (i : ℕ) → split_at self.now.before
            (parent (record { level = self.now.level; k = k; j = j; i = i }))
            ≡ split_at self.now.after
            (parent (record { level = self.now.level; k = k; j = j; i = i })) }
    {
        self.above_before.row(k / 2, j / 2) == self.above_after.row(k / 2, j / 2)
    }

    /// Returns the bits of the indices on x at most one away from a node that one of the maps splits and the other
    /// doesn't, in three rows: those with this index on y whose index on z is at most one away.
    fn switched_beside(&self, k: u32, j: u32) -> u64
        requires { k < 2 ^ 31 }
        ensures { (i : ℕ) → IsTrue (row_bit result i)
            ↔ IsSwitchedBeside self.now.before self.now.after self.now.level k j i }
    {
        if self.level == 0 {
            return 0;
        }
        let low = self.switched_below(k, j);
        let here = self.switched_row(k, j);
        let high = self.switched_row(k + 1, j);
        widened(low | (here | high))
    }

    /// Returns the bits of the nodes that one of the maps splits and the other doesn't, of the row before a row on z.
    fn switched_below(&self, k: u32, j: u32) -> u64
        ensures fits { result < 2 ^ 32 }
        ensures each { (i : ℕ) → row_bit result i
            ≡ (nat_lt 0 k && is_switched self.now.before self.now.after
            (record { level = self.now.level; k = k - 1; j = j; i = i })) }
    {
        if k == 0 {
            return 0;
        }
        self.switched_row(k - 1, j)
    }

    /// Returns the bits of the nodes of a row that one of the maps splits and the other doesn't.
    fn switched_row(&self, k: u32, j: u32) -> u64
        ensures fits { result < 2 ^ 32 }
        ensures each { (i : ℕ) → row_bit result i ≡ is_switched self.now.before self.now.after
            (record { level = self.now.level; k = k; j = j; i = i }) }
    {
        self.before.row(k, j) ^ self.after.row(k, j)
    }
}
