//! What a frame does with a patch that it absorbs, and the laws of it.

ghost use Rattle.std.specs.Prelude.{◌≡◌, ◌+◌, ◌≤◌, ◌++◌, IfOk, OnErr, OnOk, length, map, not, take};
ghost use Rattle.std.specs.Arc.{arc_value};
ghost use Rattle.std.specs.List.{filter, list_all};
ghost use Rattle.lattice.specs.Node.{is_node};
ghost use Rattle.lattice.specs.Settings.{IsDepth};
ghost use Rattle.octree.specs.SplitBits.{split_at};
ghost use Rattle.terrain.specs.Levels.{is_leaf, leaves};
ghost use Rattle.terrain.specs.declared.event.TheConstants.{MAX_EVENTS};
ghost use Rattle.snapshots.specs.Blocks.{block_node};
ghost use Rattle.snapshots.specs.Absorbed.{FramesAbsorbPatches, FramesStaySound, LastPatchSuffices, LaterPatchesSuffice};

use block_mesh::Block;
use event_laws::leaves_keep_their_bricks_until_touched;
use lattice::Node;
use octree::{Levels, leaf_change};
use std::alloc::{AllocError, Global};
use std::sync::Arc;
use terrain::Event;

/// Returns whether these blocks are all of nodes of a world.
pub(crate) fn are_in_world(blocks: &[Arc<Block>], depth: u8) -> bool
    requires { IsDepth depth }
    ensures { result ≡ list_all (λ done. is_node depth (block_node (arc_value done))) blocks.now }
{
    blocks.iter().all(|done| done.node().is_in_world(depth))
}

/// Returns the nodes of these blocks. Out of memory is the only error.
pub(crate) fn nodes_of(alloc: Global, blocks: &[Arc<Block>]) -> Result<Vec<Node>, AllocError>
    ensures { IfOk result (λ nodes. nodes.items
        ≡ map (λ done. block_node (arc_value done)) blocks.now) }
{
    blocks.iter().map(|done| done.node()).collect(alloc)
}

/// Returns the same blocks, which both lists share. Out of memory is the only error.
pub(crate) fn shared(alloc: Global, blocks: &[Arc<Block>]) -> Result<Vec<Arc<Block>>, AllocError>
    ensures { IfOk result (λ list. map arc_value list.items ≡ map arc_value blocks.now) }
{
    let mut list = Vec::with_capacity(alloc, blocks.len())?;
    for done in blocks {
        list.push(Arc::try_clone(done)?)?;
    }
    Ok(list)
}

/// Returns those of some nodes that aren't leaves of a level map, in their order. Out of memory is the only error.
pub(crate) fn others(
    alloc: Global,
    nodes: &[Node],
    levels: &Levels,
) -> Result<Vec<Node>, AllocError>
    ensures { IfOk result (λ others. others.items
        ≡ filter (λ n. not (is_leaf levels.now.depth (split_at levels.now) n)) nodes.now) }
{
    let mut others = Vec::new(alloc);
    for node in nodes {
        if !levels.is_leaf(*node) {
            others.push(*node)?;
        }
    }
    Ok(others)
}

/// Returns the leaves of a level map that aren't leaves of another one, in the order of nodes. Out of memory is the
/// only error.
///
/// Where the two are the same, no leaf is looked at, and else those alone at the nodes that only one of them splits.
pub(crate) fn lost_leaves(
    alloc: Global,
    before: &Levels,
    after: &Levels,
) -> Result<Vec<Node>, AllocError>
    ensures { IfOk result (λ lost. lost.items
        ≡ filter (λ n. not (is_leaf after.now.depth (split_at after.now) n))
        (leaves before.now.depth (split_at before.now))) }
{
    if *before == *after {
        return Ok(Vec::new(alloc));
    }
    if before.depth() != after.depth() {
        let leaves = before.leaves(alloc)?;
        return others(alloc, &leaves, after);
    }
    Ok(leaf_change(alloc, before, after)?.lost)
}

/// Cuts a journal behind its first events, as many as the base, and adds others. Out of memory is the only error, and
/// leaves it as it was.
pub(crate) fn go_on(
    journal: &mut Vec<Event>,
    base: usize,
    events: &[Event],
) -> Result<(), AllocError>
    requires base { base ≤ length journal.old.items }
    requires few { base + length events.now ≤ MAX_EVENTS }
    ensures journal { OnOk result (journal.new.items ≡ take base journal.old.items ++ events.now) }
    ensures unchanged { OnErr result (journal.new.items ≡ journal.old.items) }
{
    let more = (base + events.len()).saturating_sub(journal.len());
    journal.reserve(more)?;
    journal.truncate(base);
    journal.extend_from_slice(events)
}

/// The law that a frame which stands for a history, and absorbs a patch that fits it, stands for the history with the
/// patch's events.
pub fn frames_absorb_patches()
    ensures leads { FramesAbsorbPatches }
    ensures sound { FramesStaySound }
{
    leaves_keep_their_bricks_until_touched();
}

/// The law that of two patches which fit one frame, where the events of the later one go on from those of the other,
/// the later one alone makes of the frame what both make of it, one after the other; and so does the last one of any
/// number of such patches.
pub fn later_patches_suffice()
    ensures two { LaterPatchesSuffice }
    ensures pending { LastPatchSuffices }
{
    leaves_keep_their_bricks_until_touched();
}
