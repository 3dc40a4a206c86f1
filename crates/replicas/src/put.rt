//! Blocks that a patch puts, and tables of blocks.

ghost use Rattle.std.specs.Prelude.{◌≡◌, ◌∷◌, ◌++◌, [], All, OnOk, map};
ghost use Rattle.lattice.specs.declared.node.Node.{Node as NodeOf};
ghost use Rattle.lattice.specs.Node.{IsNode};
ghost use Rattle.node_tables.specs.NodeSlots.{item_at};
ghost use Rattle.replicas.specs.Following.{put_last, without};
ghost use Rattle.replicas.specs.Puts.{block_put};

use crate::block::Block;
use lattice::Node;
use node_tables::NodeTable;
use std::alloc::{AllocError, Global};
use std::sync::Arc;

/// A block that a patch puts.
#[derive(Drop)]
pub(crate) struct Put {
    pub(crate) node: Node,
    pub(crate) block: Arc<Block>,
}

/// Puts the block of a node behind others. Out of memory is the only error.
pub(crate) fn push_put(
    alloc: Global,
    puts: &mut Vec<Put>,
    node: Node,
    block: Block,
) -> Result<(), AllocError>
    ensures { OnOk result (map block_put puts.new.items
        ≡ map block_put puts.old.items ++ record { node = node; mesh = block } ∷ []) }
{
    let block = Arc::new(alloc, block)?;
    puts.push(Put { node, block })?;
    Ok(())
}

/// Puts blocks into the slots of their nodes, one after another.
pub(crate) fn put_all(table: &mut NodeTable<Block>, puts: Vec<Put>)
    requires { All (λ put. IsNode table.old.depth put.node) puts.items }
    ensures depth { table.new.depth ≡ table.old.depth }
    ensures slots { (n : NodeOf) → item_at table.new n
        ≡ put_last (map block_put puts.items) n (item_at table.old n) }
{
    let _depth = table.depth();
    for put in puts {
        table.set(put.node, put.block);
    }
}

/// Clears the slots of nodes.
pub(crate) fn clear_all(table: &mut NodeTable<Block>, nodes: &[Node])
    ensures depth { table.new.depth ≡ table.old.depth }
    ensures slots { (n : NodeOf) → item_at table.new n
        ≡ without nodes.now n (item_at table.old n) }
{
    let _depth = table.depth();
    for node in nodes {
        let _ = table.clear(*node);
    }
}
