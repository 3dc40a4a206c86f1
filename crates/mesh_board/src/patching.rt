//! The blocks of some leaves, for a patch.

ghost use Rattle.std.specs.Prelude.{◌≡◌, IfOk, IsTrue, map};
ghost use Rattle.std.specs.Arc.{arc_value};
ghost use Rattle.lattice.specs.declared.node.Node.{Node as NodeOf};
ghost use Rattle.node_tables.specs.Members.{members};
ghost use Rattle.node_tables.specs.NodeBits.{has};
ghost use Rattle.mesh_board.specs.LeafStates.{IsFresh, fresh, state_at};

use crate::leaf_table::LeafTable;
use block_mesh::Block;
use node_tables::NodeSet;
use std::alloc::{AllocError, Global};
use std::sync::Arc;

/// Returns the blocks of some fresh leaves, in the order of nodes. Out of memory is the only error.
pub(crate) fn blocks_of(
    alloc: Global,
    leaves: &LeafTable,
    nodes: &NodeSet,
) -> Result<Vec<Arc<Block>>, AllocError>
    requires { (n : NodeOf) → IsTrue (has nodes.now n) → IsFresh (state_at leaves.now n) }
    ensures { IfOk result (λ blocks. map (λ done. fresh (arc_value done)) blocks.items
        ≡ map (state_at leaves.now) (members nodes.now)) }
{
    let mut blocks = Vec::new(alloc);
    for leaf in nodes.iter() {
        blocks.push(Arc::try_clone(leaves.block(leaf))?)?;
    }
    Ok(blocks)
}
