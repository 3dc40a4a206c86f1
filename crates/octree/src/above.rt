//! The nodes of a level that balance needs split, row by row, told from the level below.

ghost use Rattle.std.specs.Prelude.{◌≡◌, ℕ, ◌+◌, ◌*◌, ◌/◌, ◌<◌, ◌≤◌, ◌^◌, ◌-◌, ◌⊎◌, ◌↔◌, IsTrue};
ghost use Rattle.lattice.specs.Node.{nodes_across};
ghost use Rattle.octree.specs.Growing.{IsAboveSplit, IsSplitAmong, IsSplitInLine, IsSplitNear};
ghost use Rattle.octree.specs.SplitBits.{row_bit};

use crate::layer::Layer;
use crate::rows::{halved, widened};

/// Returns the bits of the nodes of a row that are above split nodes, given the level below.
///
/// A node is above another where a child of it is that one or next to it across a face or an edge.
pub(crate) fn above_row(below: &Layer<'_>, k: u32, j: u32) -> u64
    requires high { below.now.level < below.now.levels.depth }
    requires k { k < nodes_across below.now.levels.depth (below.now.level + 1) }
    requires j { j < nodes_across below.now.levels.depth (below.now.level + 1) }
    ensures fits { result < 2 ^ nodes_across below.now.levels.depth (below.now.level + 1) }
    ensures each { (i : ℕ) → i < nodes_across below.now.levels.depth (below.now.level + 1)
        → IsTrue (row_bit result i) ↔ IsAboveSplit below.now.levels
        (record { level = below.now.level + 1; k = k; j = j; i = i }) }
{
    let across = below.across_above();
    let children = near_bits(below, 2 * k, j) | near_bits(below, 2 * k + 1, j);
    let beside = in_line_before(below, 2 * k, j) | in_line_bits(below, 2 * k + 2, j);
    halved(children | beside) & (u64::MAX >> (64 - across))
}

/// Returns the bits of the indices on x at most one away from a split node of a plane, in the rows at most one away
/// from a parent's children.
fn near_bits(below: &Layer<'_>, k: u32, j: u32) -> u64
    requires { j < 2 ^ 30 }
    ensures { (i : ℕ) → IsTrue (row_bit result i)
        ↔ IsSplitNear below.now.levels below.now.level k j i }
{
    widened(children_rows(below, k, j) | outer_rows(below, k, j))
}

/// Returns those bits of the plane before one; the first has none before it.
fn in_line_before(below: &Layer<'_>, k: u32, j: u32) -> u64
    requires { j < 2 ^ 30 }
    ensures { (i : ℕ) → IsTrue (row_bit result i)
        ↔ ((1 ≤ k) × IsSplitInLine below.now.levels below.now.level (k - 1) j i) }
{
    if k == 0 {
        return 0;
    }
    in_line_bits(below, k - 1, j)
}

/// Returns the bits of the indices on x at most one away from a split node of a plane, in the rows of a parent's
/// children, and those of the split nodes themselves in the rows beside these.
fn in_line_bits(below: &Layer<'_>, k: u32, j: u32) -> u64
    requires { j < 2 ^ 30 }
    ensures { (i : ℕ) → IsTrue (row_bit result i)
        ↔ IsSplitInLine below.now.levels below.now.level k j i }
{
    widened(children_rows(below, k, j)) | outer_rows(below, k, j)
}

/// Returns the bits of the split nodes of a plane in the two rows of a parent's children.
fn children_rows(below: &Layer<'_>, k: u32, j: u32) -> u64
    requires { j < 2 ^ 30 }
    ensures fits { result < 2 ^ 32 }
    ensures each { (i : ℕ) → IsTrue (row_bit result i)
        ↔ IsSplitAmong below.now.levels below.now.level k (λ y. y / 2 ≡ j) i }
{
    below.row(k, 2 * j) | below.row(k, 2 * j + 1)
}

/// Returns the bits of the split nodes of a plane in the two rows beside those of a parent's children.
fn outer_rows(below: &Layer<'_>, k: u32, j: u32) -> u64
    requires { j < 2 ^ 30 }
    ensures fits { result < 2 ^ 32 }
    ensures each { (i : ℕ) → IsTrue (row_bit result i)
        ↔ IsSplitAmong below.now.levels below.now.level k
        (λ y. (y + 1 ≡ 2 * j) ⊎ (y ≡ 2 * j + 2)) i }
{
    let behind = below.row(k, 2 * j + 2);
    if j == 0 {
        return behind;
    }
    below.row(k, 2 * j - 1) | behind
}
