//! Which patches a wire takes.

ghost use Rattle.std.specs.Prelude.{◌≡◌, ◌+◌, ◌≤◌, ◌↔◌, All, IsTrue, length};
ghost use Rattle.std.specs.Arc.{arc_value};
ghost use Rattle.lattice.specs.Key.{IsKey};
ghost use Rattle.lattice.specs.Node.{IsNode, nodes};
ghost use Rattle.lattice.specs.Settings.{IsDepth, IsSettings};
ghost use Rattle.patch_wire.specs.Puttable.{CanBePut, wire_block};
ghost use Rattle.replicas.specs.Worlds.{IsOfWorld, IsPosition};
ghost use Rattle.terrain.specs.History.{IsLawfulEvent};

use block_mesh::Block;
use lattice::{Key, Node, Pos, Settings};
use node_tables::slot_count;
use replicas::{is_key, is_lawful, is_position};
use snapshots::Patch;
use std::sync::Arc;
use terrain::{Event, MAX_EVENTS};

/// Returns whether a wire takes a patch: its events are lawful in the world of its field, its nodes, keys and positions
/// are in that world, no more nodes and blocks than the world has nodes, and the events before it and its own are no
/// more than a journal may have.
pub fn can_be_put(patch: &Patch) -> bool
    ensures { IsTrue result ↔ CanBePut patch.now }
{
    let depth = patch.version.depth();
    let events: &[Event] = &patch.events;
    let gone: &[Node] = &patch.gone;
    let blocks: &[Arc<Block>] = &patch.put;
    are_few(patch.base, events, gone, blocks, depth) && are_taken(events, gone, blocks, depth)
}

/// Returns whether a patch of these parts has few enough of each for a world of this depth.
fn are_few(base: u32, events: &[Event], gone: &[Node], blocks: &[Arc<Block>], depth: u8) -> bool
    requires { IsDepth depth }
    ensures { IsTrue result
        ↔ ((base + length events.now ≤ MAX_EVENTS) × (length gone.now ≤ length (nodes depth))
        × (length blocks.now ≤ length (nodes depth))) }
{
    events.len() <= MAX_EVENTS
        && base as usize <= MAX_EVENTS - events.len()
        && gone.len() <= slot_count(depth)
        && blocks.len() <= slot_count(depth)
}

/// Returns whether these events, nodes and blocks are ones of a world of this depth.
fn are_taken(events: &[Event], gone: &[Node], blocks: &[Arc<Block>], depth: u8) -> bool
    requires { IsDepth depth }
    ensures { IsTrue result
        ↔ (All (IsLawfulEvent depth) events.now × All (IsNode depth) gone.now
        × All (λ done. IsOfWorld depth (wire_block (arc_value done))) blocks.now) }
{
    let settings = Settings { depth, reach: 0 };
    are_lawful(events, &settings) && are_nodes(gone, depth) && are_of_world(blocks, &settings)
}

/// Returns whether events are lawful in a world.
fn are_lawful(events: &[Event], settings: &Settings) -> bool
    requires { IsSettings settings.now }
    ensures { IsTrue result ↔ All (IsLawfulEvent settings.now.depth) events.now }
{
    events.iter().all(|event| is_lawful(event, settings))
}

/// Returns whether nodes are in a world.
fn are_nodes(nodes: &[Node], depth: u8) -> bool
    requires { IsDepth depth }
    ensures { IsTrue result ↔ All (IsNode depth) nodes.now }
{
    nodes.iter().all(|node| node.is_in_world(depth))
}

/// Returns whether blocks are of a world.
fn are_of_world(blocks: &[Arc<Block>], settings: &Settings) -> bool
    requires { IsSettings settings.now }
    ensures { IsTrue result
        ↔ All (λ done. IsOfWorld settings.now.depth (wire_block (arc_value done))) blocks.now }
{
    blocks.iter().all(|done| is_of_world(done, settings))
}

/// Returns whether a block is of a world.
fn is_of_world(done: &Arc<Block>, settings: &Settings) -> bool
    requires { IsSettings settings.now }
    ensures { IsTrue result
        ↔ IsOfWorld settings.now.depth (wire_block (arc_value done.now)) }
{
    let mesh = done.view();
    done.node().is_in_world(settings.depth)
        && are_keys(mesh.keys, settings)
        && are_positions(mesh.positions, settings)
}

/// Returns whether keys are those of a world.
fn are_keys(keys: &[Key], settings: &Settings) -> bool
    requires { IsSettings settings.now }
    ensures { IsTrue result ↔ All (IsKey settings.now.depth) keys.now }
{
    keys.iter().all(|key| key.at.is_in_world(settings) && is_key(key, settings))
}

/// Returns whether positions are in a world.
fn are_positions(positions: &[Pos], settings: &Settings) -> bool
    requires { IsSettings settings.now }
    ensures { IsTrue result ↔ All (IsPosition settings.now.depth) positions.now }
{
    positions.iter().all(|at| is_position(at, settings))
}
