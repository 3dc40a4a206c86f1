//! The leaves whose closed cubes meet a box of points.

ghost use Rattle.std.specs.Prelude.{◌≡◌, ◌<◌, ◌≤◌, ◌++◌, filter, IfOk, OnOk};
ghost use Rattle.lattice.specs.Node.{level_nodes, nodes_across};
ghost use Rattle.lattice.specs.Region.{IsRegion};
ghost use Rattle.lattice.specs.Settings.{IsDepth, world_side};
ghost use Rattle.octree.specs.SplitBits.{split_at};
ghost use Rattle.terra_events.specs.Met.{AreMet, IsMet, is_met, met_leaves, plane_nodes, row_nodes};

use lattice::{Node, Region, node_side, nodes_across};
use octree::{Indices, Levels};
use std::alloc::{AllocError, Global};

/// Returns the leaves whose closed cubes meet a box of points, in the order of nodes. It looks only at nodes that meet
/// the box. Out of memory is the only error.
pub(crate) fn met_leaves(
    alloc: Global,
    levels: &Levels,
    region: Region,
) -> Result<Vec<Node>, AllocError>
    requires { IsRegion levels.now.depth region }
    ensures { IfOk result (λ list. list.items
        ≡ met_leaves levels.now.depth (split_at levels.now) region) }
{
    let mut list = Vec::new(alloc);
    for level in 0..levels.depth() + 1 {
        push_level(&mut list, levels, region, level)?;
    }
    Ok(list)
}

/// Appends the leaves of a level that meet a box, by k, then j, then i.
fn push_level(
    list: &mut Vec<Node>,
    levels: &Levels,
    region: Region,
    level: u8,
) -> Result<(), AllocError>
    requires depth { IsDepth levels.now.depth }
    requires region { IsRegion levels.now.depth region }
    requires level { level ≤ levels.now.depth }
    ensures { let depth = levels.now.depth in OnOk result (list.new.items ≡ list.old.items
        ++ filter (is_met depth (split_at levels.now) region) (level_nodes depth level)) }
{
    let ks = met_indices(levels.depth(), level, region.lo.z, region.hi.z);
    for k in ks.low..ks.end {
        push_plane(list, levels, region, level, k)?;
    }
    Ok(())
}

/// Appends the leaves of a plane of nodes that meet a box, by j, then i.
fn push_plane(
    list: &mut Vec<Node>,
    levels: &Levels,
    region: Region,
    level: u8,
    k: u32,
) -> Result<(), AllocError>
    requires depth { IsDepth levels.now.depth }
    requires region { IsRegion levels.now.depth region }
    requires level { level ≤ levels.now.depth }
    requires k { k < nodes_across levels.now.depth level }
    requires z { IsMet level region.lo.z region.hi.z k }
    ensures { let depth = levels.now.depth in OnOk result (list.new.items ≡ list.old.items
        ++ filter (is_met depth (split_at levels.now) region) (plane_nodes depth level k)) }
{
    let js = met_indices(levels.depth(), level, region.lo.y, region.hi.y);
    for j in js.low..js.end {
        push_row(list, levels, region, level, k, j)?;
    }
    Ok(())
}

/// Appends the leaves of a row of nodes that meet a box, by i.
fn push_row(
    list: &mut Vec<Node>,
    levels: &Levels,
    region: Region,
    level: u8,
    k: u32,
    j: u32,
) -> Result<(), AllocError>
    requires depth { IsDepth levels.now.depth }
    requires region { IsRegion levels.now.depth region }
    requires level { level ≤ levels.now.depth }
    requires k { k < nodes_across levels.now.depth level }
    requires j { j < nodes_across levels.now.depth level }
    requires z { IsMet level region.lo.z region.hi.z k }
    requires y { IsMet level region.lo.y region.hi.y j }
    ensures { let depth = levels.now.depth in OnOk result (list.new.items ≡ list.old.items
        ++ filter (is_met depth (split_at levels.now) region) (row_nodes depth level k j)) }
{
    let is = met_indices(levels.depth(), level, region.lo.x, region.hi.x);
    for i in is.low..is.end {
        let node = Node { level, k, j, i };
        if levels.is_leaf(node) {
            list.push(node)?;
        }
    }
    Ok(())
}

/// Returns the indices, on one axis, of the nodes of a level that meet a range of coordinates.
fn met_indices(depth: u8, level: u8, low: u32, high: u32) -> Indices
    requires depth { IsDepth depth }
    requires level { level ≤ depth }
    requires order { low ≤ high }
    requires world { high ≤ world_side depth }
    ensures { AreMet depth level low high result }
{
    let side = node_side(level);
    // A node whose high corner is at `low` meets the range too.
    Indices {
        low: low.saturating_sub(1) / side,
        end: (high / side + 1).min(nodes_across(depth, level)),
    }
}
