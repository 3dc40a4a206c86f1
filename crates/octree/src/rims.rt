//! The rims of leaves, row by row of the places around a leaf.

ghost use Rattle.std.specs.Prelude.{◌≡◌, ◌+◌, ◌*◌, ◌/◌, ◌%◌, ◌<◌, ◌≤◌, ◌^◌};
ghost use Rattle.lattice.specs.Node.{IsNode};
ghost use Rattle.terrain.specs.Levels.{rim};
ghost use Rattle.terrain.specs.Lists.{binary};
ghost use Rattle.octree.specs.Rims.{bits_beside, plane_of_rim, row_of_rim};
ghost use Rattle.octree.specs.SplitBits.{split_at};

use crate::levels::Levels;
use crate::rows::row_bit;
use lattice::{Node, nodes_across};

/// Returns the rim of a node above level 0.
pub(crate) fn rim_of(levels: &Levels, node: Node) -> u32
    requires node { IsNode levels.now.depth node }
    requires level { 1 ≤ node.level }
    ensures { result ≡ rim levels.now.depth (split_at levels.now) node }
{
    let low = plane_bits(levels, node, 0);
    let here = plane_bits(levels, node, 1);
    let high = plane_bits(levels, node, 2);
    low + 512 * (without_middle(here) + 256 * high)
}

/// Returns nine bits without the middle one.
fn without_middle(bits: u32) -> u32
    requires { bits < 2 ^ 9 }
    ensures { result ≡ bits % 16 + 16 * (bits / 32) }
{
    bits % 16 + 16 * (bits / 32)
}

/// Returns the bits of the nine places of a plane, which is one below a node on z, that of the node, or one above it:
/// whether they are in the world and their nodes are split.
fn plane_bits(levels: &Levels, node: Node, z: u32) -> u32
    requires node { IsNode levels.now.depth node }
    requires level { 1 ≤ node.level }
    requires z { z < 3 }
    ensures value { result ≡ binary (plane_of_rim levels.now node z) }
    ensures nine { result < 2 ^ 9 }
{
    row_bits(levels, node, z, 0)
        + 8 * (row_bits(levels, node, z, 1) + 8 * row_bits(levels, node, z, 2))
}

/// Returns the bits of the three places of a row of such a plane.
fn row_bits(levels: &Levels, node: Node, z: u32, y: u32) -> u32
    requires node { IsNode levels.now.depth node }
    requires level { 1 ≤ node.level }
    requires z { z < 3 }
    requires y { y < 3 }
    ensures value { result ≡ binary (row_of_rim levels.now node z y) }
    ensures three { result < 2 ^ 3 }
{
    let across = nodes_across(levels.depth(), node.level);
    let (k, j) = (node.k + z, node.j + y);
    if k == 0 || k > across || j == 0 || j > across {
        return 0;
    }
    beside(levels.layer(node.level).row(k - 1, j - 1), node.i)
}

/// Returns the bits of a row before an index, at it and behind it.
fn beside(row: u64, i: u32) -> u32
    requires { i < 63 }
    ensures value { result ≡ binary (bits_beside row i) }
    ensures three { result < 2 ^ 3 }
{
    let low = i > 0 && row_bit(row, i - 1);
    let high = row_bit(row, i + 1);
    u32::from(low) + 2 * (u32::from(row_bit(row, i)) + 2 * u32::from(high))
}
