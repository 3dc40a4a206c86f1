//! The leaves of a level, row by row.

ghost use Rattle.std.specs.Prelude.{◌≡◌, ℕ, ◌+◌, ◌<◌, ◌≤◌, ◌++◌, filter, OnOk};
ghost use Rattle.lattice.specs.Node.{level_nodes, nodes_across};
ghost use Rattle.terrain.specs.Levels.{is_leaf};
ghost use Rattle.octree.specs.LeafLists.{is_held};
ghost use Rattle.octree.specs.SplitBits.{row_bit, split_at};

use crate::layer::Layer;
use crate::levels::Levels;
use crate::rows::{doubled, push_nodes};
use lattice::{Node, nodes_across};
use std::alloc::AllocError;

/// Appends the leaves of a level, by k, then j, then i. Out of memory is the only error.
pub(crate) fn push_leaves(
    list: &mut Vec<Node>,
    levels: &Levels,
    level: u8,
) -> Result<(), AllocError>
    requires { level ≤ levels.now.depth }
    ensures { let depth = levels.now.depth in OnOk result (list.new.items ≡ list.old.items
        ++ filter (is_leaf depth (split_at levels.now)) (level_nodes depth level)) }
{
    let across = nodes_across(levels.depth(), level);
    let (own, above) = (levels.layer(level), levels.layer(level + 1));
    for k in 0..across {
        for j in 0..across {
            push_nodes(list, level, k, j, leaf_row(&own, &above, k, j))?;
        }
    }
    Ok(())
}

/// Returns the bits of the leaves of a row, given its level and the one above it.
pub(crate) fn leaf_row(own: &Layer<'_>, above: &Layer<'_>, k: u32, j: u32) -> u64
    requires level { own.now.level ≤ own.now.levels.depth }
    requires above { above.now
        ≡ record { levels = own.now.levels; level = own.now.level + 1 } }
    requires k { k < nodes_across own.now.levels.depth own.now.level }
    requires j { j < nodes_across own.now.levels.depth own.now.level }
    ensures { (i : ℕ) → row_bit result i
        ≡ is_leaf own.now.levels.depth (split_at own.now.levels)
        (record { level = own.now.level; k = k; j = j; i = i }) }
{
    held_row(own, above, k, j) & !own.row(k, j)
}

/// Returns the bits of the nodes of a row that are the root or have a split parent.
fn held_row(own: &Layer<'_>, above: &Layer<'_>, k: u32, j: u32) -> u64
    requires level { own.now.level ≤ own.now.levels.depth }
    requires above { above.now
        ≡ record { levels = own.now.levels; level = own.now.level + 1 } }
    requires k { k < nodes_across own.now.levels.depth own.now.level }
    requires j { j < nodes_across own.now.levels.depth own.now.level }
    ensures { (i : ℕ) → row_bit result i
        ≡ is_held own.now.levels.depth (split_at own.now.levels)
        (record { level = own.now.level; k = k; j = j; i = i }) }
{
    if own.is_top() {
        return 1;
    }
    doubled(above.row(k / 2, j / 2))
}
