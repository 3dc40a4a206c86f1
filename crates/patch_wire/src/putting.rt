//! Heads and patches, written into sinks.

ghost use Rattle.std.specs.Prelude.{◌≡◌, ◌++◌, ◌^◌, ◌<◌, All, OnErr, OnOk, flat_map, length, map};
ghost use Rattle.std.specs.Arc.{arc_value};
ghost use Rattle.std.specs.List.{zip};
ghost use Rattle.terrain.specs.MeshLists.{lists_of};
ghost use Rattle.lattice.specs.Node.{IsNode};
ghost use Rattle.lattice.specs.Settings.{IsDepth, IsSettings};
ghost use Rattle.mesh_out.specs.Writing.{Writes};
ghost use Rattle.replicas.specs.Fits.{FitsEvent, FitsKey, FitsNode};
ghost use Rattle.replicas.specs.Grammar.{block_bytes, event_bytes, head_bytes, node_bytes, patch_bytes, triangle_bytes, vertex_bytes};
ghost use Rattle.patch_wire.specs.Puttable.{CanBePut, wire_block, wire_patch};
ghost use Rattle.replicas.specs.Worlds.{IsOfWorld};
ghost use Rattle.patch_wire.specs.Putting.{CutsOff};
ghost use Rattle.terra_io.specs.Stream.{Appends, IsFaultless};

use crate::batch::Batch;
use crate::events::put_event;
use crate::fields::{
    block_head_bytes, counts_bytes, head_bytes, node_bytes, triangle_bytes, vertex_bytes,
};
use block_mesh::Block;
use cell_laws::triangles_are_few;
use lattice::{Key, Node, Pos, Settings, counts_of_nodes};
use snapshots::Patch;
use std::sync::Arc;
use terra_io::{Failed, Sink, put_all};
use terrain::Event;

/// Writes the head of a wire in a world of these settings. It takes no memory.
///
/// The error is a write that failed; the sink has a first part of the head then.
pub fn put_head<K: Sink>(sink: &mut K, settings: &Settings) -> Result<(), Failed>
    requires { IsSettings settings.now }
    ensures appended { OnOk result (Appends (K.state sink.old) (K.state sink.new)
        (head_bytes settings.now)) }
    ensures faultless { OnOk result (IsFaultless (K.state sink.old) (K.state sink.new)) }
    ensures stopped { OnErr result (CutsOff (K.state sink.old) (K.state sink.new)
        (head_bytes settings.now)) }
{
    put_all(sink, &head_bytes(settings))
}

/// Writes a patch, in large pieces. It takes no memory.
///
/// The error is a write that failed; the sink has a first part of the patch then.
pub fn put_patch<K: Sink>(sink: &mut K, patch: &Patch) -> Result<(), Failed>
    requires { CanBePut patch.now }
    ensures appended { OnOk result (Appends (K.state sink.old) (K.state sink.new)
        (patch_bytes (wire_patch patch.now))) }
    ensures faultless { OnOk result (IsFaultless (K.state sink.old) (K.state sink.new)) }
    ensures stopped { OnErr result (CutsOff (K.state sink.old) (K.state sink.new)
        (patch_bytes (wire_patch patch.now))) }
{
    let depth = patch.version.depth();
    let mut batch = Batch::new();
    put_parts(&mut batch, sink, depth, patch)?;
    batch.write(sink)
}

/// Puts the parts of a patch into a batch.
fn put_parts<K: Sink>(
    batch: &mut Batch,
    sink: &mut K,
    depth: u8,
    patch: &Patch,
) -> Result<(), Failed>
    requires depth { IsDepth depth }
    requires of { depth ≡ patch.now.version.value.depth }
    requires taken { CanBePut patch.now }
    ensures held { OnOk result (Writes (K.state sink.old) (K.state sink.new)
        (batch.old ++ patch_bytes (wire_patch patch.now)) batch.new) }
    ensures stopped { OnErr result (CutsOff (K.state sink.old) (K.state sink.new)
        (batch.old ++ patch_bytes (wire_patch patch.now))) }
{
    counts_of_nodes();
    let events: &[Event] = &patch.events;
    let gone: &[Node] = &patch.gone;
    let blocks: &[Arc<Block>] = &patch.put;
    let counts = counts_bytes(
        patch.base,
        events.len() as u32,
        gone.len() as u32,
        blocks.len() as u32,
    );
    batch.put(sink, &counts)?;
    put_events(batch, sink, events)?;
    put_nodes(batch, sink, gone)?;
    put_blocks(batch, sink, depth, blocks)
}

/// Puts events into a batch.
fn put_events<K: Sink>(batch: &mut Batch, sink: &mut K, events: &[Event]) -> Result<(), Failed>
    requires { All FitsEvent events.now }
    ensures held { OnOk result (Writes (K.state sink.old) (K.state sink.new)
        (batch.old ++ flat_map event_bytes events.now) batch.new) }
    ensures stopped { OnErr result (CutsOff (K.state sink.old) (K.state sink.new)
        (batch.old ++ flat_map event_bytes events.now)) }
{
    for event in events {
        put_event(batch, sink, event)?;
    }
    Ok(())
}

/// Puts nodes into a batch.
fn put_nodes<K: Sink>(batch: &mut Batch, sink: &mut K, nodes: &[Node]) -> Result<(), Failed>
    requires { All FitsNode nodes.now }
    ensures held { OnOk result (Writes (K.state sink.old) (K.state sink.new)
        (batch.old ++ flat_map node_bytes nodes.now) batch.new) }
    ensures stopped { OnErr result (CutsOff (K.state sink.old) (K.state sink.new)
        (batch.old ++ flat_map node_bytes nodes.now)) }
{
    for node in nodes {
        batch.put(sink, &node_bytes(*node))?;
    }
    Ok(())
}

/// Puts blocks of a world of this depth into a batch.
fn put_blocks<K: Sink>(
    batch: &mut Batch,
    sink: &mut K,
    depth: u8,
    dones: &[Arc<Block>],
) -> Result<(), Failed>
    requires depth { IsDepth depth }
    requires world { All (λ done. IsOfWorld depth (wire_block (arc_value done))) dones.now }
    ensures held { OnOk result (Writes (K.state sink.old) (K.state sink.new)
        (batch.old ++ flat_map (λ done. block_bytes (wire_block (arc_value done))) dones.now)
        batch.new) }
    ensures stopped { OnErr result (CutsOff (K.state sink.old) (K.state sink.new)
        (batch.old ++ flat_map (λ done. block_bytes (wire_block (arc_value done))) dones.now)) }
{
    for done in dones {
        put_block(batch, sink, depth, done)?;
    }
    Ok(())
}

/// Puts a block of a world of this depth into a batch.
fn put_block<K: Sink>(
    batch: &mut Batch,
    sink: &mut K,
    depth: u8,
    done: &Arc<Block>,
) -> Result<(), Failed>
    requires depth { IsDepth depth }
    requires world { IsOfWorld depth (wire_block (arc_value done.now)) }
    ensures held { OnOk result (Writes (K.state sink.old) (K.state sink.new)
        (batch.old ++ block_bytes (wire_block (arc_value done.now))) batch.new) }
    ensures stopped { OnErr result (CutsOff (K.state sink.old) (K.state sink.new)
        (batch.old ++ block_bytes (wire_block (arc_value done.now)))) }
{
    triangles_are_few();
    let node = done.node();
    let mesh = done.view();
    let keys = mesh.keys.len() as u32;
    let triangles = mesh.triangles.len() as u32;
    batch.put(sink, &block_head_bytes(node, keys, triangles))?;
    put_vertices(batch, sink, mesh.keys, mesh.positions)?;
    put_triangles(batch, sink, mesh.triangles)
}

/// Puts keys and their positions into a batch.
fn put_vertices<K: Sink>(
    batch: &mut Batch,
    sink: &mut K,
    keys: &[Key],
    positions: &[Pos],
) -> Result<(), Failed>
    requires keys { All FitsKey keys.now }
    requires paired { length positions.now ≡ length keys.now }
    ensures held { OnOk result (Writes (K.state sink.old) (K.state sink.new)
        (batch.old ++ flat_map vertex_bytes (zip keys.now positions.now)) batch.new) }
    ensures stopped { OnErr result (CutsOff (K.state sink.old) (K.state sink.new)
        (batch.old ++ flat_map vertex_bytes (zip keys.now positions.now))) }
{
    for (i, key) in keys.iter().enumerate() {
        put_vertex(batch, sink, key, &positions[i])?;
    }
    Ok(())
}

/// Puts a key and its position into a batch.
#[inline(always)]
fn put_vertex<K: Sink>(batch: &mut Batch, sink: &mut K, key: &Key, at: &Pos) -> Result<(), Failed>
    requires { FitsKey key.now }
    ensures held { OnOk result (Writes (K.state sink.old) (K.state sink.new)
        (batch.old ++ vertex_bytes (key.now, at.now)) batch.new) }
    ensures stopped { OnErr result (CutsOff (K.state sink.old) (K.state sink.new)
        (batch.old ++ vertex_bytes (key.now, at.now))) }
{
    batch.put(sink, &vertex_bytes(key, at))
}

/// Puts triangles into a batch.
fn put_triangles<K: Sink>(
    batch: &mut Batch,
    sink: &mut K,
    triangles: &[[u32; 3]],
) -> Result<(), Failed>
    ensures held { OnOk result (Writes (K.state sink.old) (K.state sink.new)
        (batch.old ++ flat_map triangle_bytes triangles.now) batch.new) }
    ensures stopped { OnErr result (CutsOff (K.state sink.old) (K.state sink.new)
        (batch.old ++ flat_map triangle_bytes triangles.now)) }
{
    for places in triangles {
        put_triangle(batch, sink, places)?;
    }
    Ok(())
}

/// Puts a triangle into a batch.
#[inline(always)]
fn put_triangle<K: Sink>(batch: &mut Batch, sink: &mut K, places: &[u32; 3]) -> Result<(), Failed>
    ensures held { OnOk result (Writes (K.state sink.old) (K.state sink.new)
        (batch.old ++ triangle_bytes places.now) batch.new) }
    ensures stopped { OnErr result (CutsOff (K.state sink.old) (K.state sink.new)
        (batch.old ++ triangle_bytes places.now)) }
{
    batch.put(sink, &triangle_bytes(places))
}
