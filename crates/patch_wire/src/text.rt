//! The text of replicas.

ghost use Rattle.std.specs.Prelude.{◌≡◌, ◌≤◌, ◌∷◌, ◌++◌, [], IfErr, IfOk, OnOk, filter};
ghost use Rattle.std.specs.List.{flat_map};
ghost use Rattle.lattice.specs.declared.node.Node.{Node as NodeOf};
ghost use Rattle.lattice.specs.Lists.{joined};
ghost use Rattle.lattice.specs.Node.{level_nodes, nodes};
ghost use Rattle.lattice.specs.Settings.{IsDepth};
ghost use Rattle.mesh_out.specs.Writing.{StopsWriting, Writes};
ghost use Rattle.replicas.specs.Replicas.{block_shown};
ghost use Rattle.patch_wire.specs.Written.{TextsAreShots, blocks_at, blocks_text, has_block, text_shown};
ghost use Rattle.terra_io.specs.Stream.{Appends, IsFaultless};

use lattice::{Node, counts_of_nodes, nodes_across};
use mesh_out::{OutFault, push_shot_head, write_mesh};
use replicas::Replica;
use snapshots::sound_frames_have_no_crack;
use std::alloc::{AllocError, Global};
use terra_io::{Sink, put_all};

/// Writes the text of a replica, as Wavefront OBJ: the first shot of its events and its blocks, these in the order of
/// nodes. Before its head is whole it has no text.
///
/// The error is out of memory, or that a write failed; the sink has a first part of the text then.
pub fn write_replica<K: Sink>(
    alloc: Global,
    sink: &mut K,
    replica: &Replica,
) -> Result<(), OutFault>
    ensures text { OnOk result (Appends (K.state sink.old) (K.state sink.new)
        (text_shown replica.now)) }
    ensures faultless { OnOk result (IsFaultless (K.state sink.old) (K.state sink.new)) }
    ensures stopped { IfErr result (λ fault.
        StopsWriting fault (K.state sink.old) (K.state sink.new) (text_shown replica.now)) }
{
    let Some(settings) = replica.settings() else {
        return Ok(());
    };
    let mut text = Vec::new(alloc);
    push_shot_head(&mut text, 1, replica.events().len() as u64)?;
    write_blocks(sink, &mut text, alloc, replica, settings.depth)?;
    put_all(sink, &text)?;
    Ok(())
}

/// Writes the text so far and the blocks of a replica behind it, up to a last part, which is the text then. The error
/// is out of memory, or that a write failed.
fn write_blocks<K: Sink>(
    sink: &mut K,
    text: &mut Vec<u8>,
    alloc: Global,
    replica: &Replica,
    depth: u8,
) -> Result<(), OutFault>
    requires { IsDepth depth }
    ensures text { OnOk result (Writes (K.state sink.old) (K.state sink.new)
        (text.old.items
        ++ blocks_text 0 (flat_map (blocks_at (block_shown replica.now)) (nodes depth)))
        text.new.items) }
    ensures stopped { IfErr result (λ fault. StopsWriting fault (K.state sink.old)
        (K.state sink.new) (text.old.items
        ++ blocks_text 0 (flat_map (blocks_at (block_shown replica.now)) (nodes depth)))) }
{
    counts_of_nodes();
    let nodes = nodes_with_blocks(alloc, replica, depth)?;
    let mut vertices = 0;
    for node in &nodes {
        if let Some(block) = replica.block(*node) {
            write_mesh(sink, text, vertices, *node, block)?;
            vertices += block.keys.len() as u64;
        }
    }
    Ok(())
}

/// Returns the nodes of a world at which a replica has a block, in their order. Out of memory is the only error.
fn nodes_with_blocks(alloc: Global, replica: &Replica, depth: u8) -> Result<Vec<Node>, AllocError>
    requires { IsDepth depth }
    ensures { IfOk result (λ list. list.items ≡ filter (has_block replica.now) (nodes depth)) }
{
    let mut list = Vec::new(alloc);
    for level in 0..depth + 1 {
        push_level(&mut list, replica, depth, level)?;
    }
    Ok(list)
}

/// Appends those of a level, by k, then j, then i. Out of memory is the only error.
fn push_level(
    list: &mut Vec<Node>,
    replica: &Replica,
    depth: u8,
    level: u8,
) -> Result<(), AllocError>
    requires { IsDepth depth }
    ensures { OnOk result (list.new.items
        ≡ list.old.items ++ filter (has_block replica.now) (level_nodes depth level)) }
{
    let across = nodes_across(depth, level);
    for k in 0..across {
        for j in 0..across {
            let first = Node { level, k, j, i: 0 };
            push_row(list, replica, across, first)?;
        }
    }
    Ok(())
}

/// Appends those of a row, by i. Out of memory is the only error.
fn push_row(
    list: &mut Vec<Node>,
    replica: &Replica,
    across: u32,
    first: Node,
) -> Result<(), AllocError>
    ensures { OnOk result (list.new.items ≡ list.old.items ++ filter (has_block replica.now)
        (joined across (λ i. record first { i = i } ∷ []))) }
{
    for i in 0..across {
        let node = Node { i, ..first };
        if replica.block(node).is_some() {
            list.push(node)?;
        }
    }
    Ok(())
}

/// The law that the text of what shows all of a sound frame is the text of a shot of the frame.
pub fn texts_of_replicas_are_shots()
    ensures { TextsAreShots }
{
    sound_frames_have_no_crack();
}
