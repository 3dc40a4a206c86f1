//! The calls that copy blocks out of a frame, and what changed out of a world.

ghost use Rattle.std.specs.Prelude.{◌≡◌, MatchOption};
ghost use Rattle.terra_c.specs.Blocks.{CopiesFloats, CopiesNodes, CopiesNormals, CopiesTriangles, CopiesTriangles16, CopiesVertices, Measures};
ghost use Rattle.terra_c.specs.Held.{frame_in, world_in};
ghost use Rattle.terra_c.specs.Shapes.{node_of_c};

use crate::copying::{
    copy_floats, copy_nodes, copy_normals, copy_triangles, copy_triangles16, copy_vertices,
};
use crate::handle::TerraHandle;
use crate::holding::{put, read, take};
use crate::shapes::{
    TerraBlock, TerraFloats, TerraNode, TerraNormal, TerraPoint, TerraTriangle, TerraTriangle16,
    TerraVertex,
};
use crate::status::{DONE, NO_ROOM, NOT_A_LEAF, NOT_HELD, TOO_LARGE};
use std::alloc::Global;
use terra_world::{Node, Snapshot, keys_of_leaves_are_in_their_world};

/// Copies the vertices of a leaf of a frame, which is a world's or one that is held, into the caller's room.
#[unsafe(no_mangle)]
pub extern "C" fn terra_vertices(
    alloc: Global,
    of: &mut TerraHandle,
    node: &TerraNode,
    vertices: &mut [TerraVertex],
) -> u8
    ensures held { of.new.held ≡ of.old.held }
    ensures copied { MatchOption (frame_in of.old.held)
        ((result ≡ NOT_HELD) × (vertices.new ≡ vertices.old))
        (λ frame. CopiesVertices frame (node_of_c node.now) vertices.old vertices.new result) }
{
    read!(
        alloc,
        of.frame(),
        |frame| vertices_of(frame, node.node(), vertices)
    )
}

/// Copies the vertices of a leaf.
fn vertices_of(frame: &Snapshot, node: Node, vertices: &mut [TerraVertex]) -> u8
    ensures { CopiesVertices frame.now node vertices.old vertices.new result }
{
    let Some(block) = frame.block(node) else {
        return NOT_A_LEAF;
    };
    if vertices.len() < block.positions.len() {
        return NO_ROOM;
    }
    copy_vertices(block.positions, vertices);
    DONE
}

/// Copies the vertices of a leaf of a frame as floats, in fine cells, which are exactly those of `terra_vertices`.
#[unsafe(no_mangle)]
pub extern "C" fn terra_floats(
    alloc: Global,
    of: &mut TerraHandle,
    node: &TerraNode,
    vertices: &mut [TerraFloats],
) -> u8
    ensures held { of.new.held ≡ of.old.held }
    ensures copied { MatchOption (frame_in of.old.held)
        ((result ≡ NOT_HELD) × (vertices.new ≡ vertices.old))
        (λ frame. CopiesFloats frame (node_of_c node.now) vertices.old vertices.new result) }
{
    read!(
        alloc,
        of.frame(),
        |frame| floats_of(frame, node.node(), vertices)
    )
}

/// Copies the vertices of a leaf as floats.
fn floats_of(frame: &Snapshot, node: Node, vertices: &mut [TerraFloats]) -> u8
    ensures { CopiesFloats frame.now node vertices.old vertices.new result }
{
    let Some(block) = frame.block(node) else {
        return NOT_A_LEAF;
    };
    if vertices.len() < block.positions.len() {
        return NO_ROOM;
    }
    copy_floats(block.positions, vertices);
    DONE
}

/// Copies the normals of the vertices of a leaf of a frame, as `terra_vertices` the vertices and in their order.
#[unsafe(no_mangle)]
pub extern "C" fn terra_normals(
    alloc: Global,
    of: &mut TerraHandle,
    node: &TerraNode,
    normals: &mut [TerraNormal],
) -> u8
    ensures held { of.new.held ≡ of.old.held }
    ensures copied { MatchOption (frame_in of.old.held)
        ((result ≡ NOT_HELD) × (normals.new ≡ normals.old))
        (λ frame. CopiesNormals frame (node_of_c node.now) normals.old normals.new result) }
{
    read!(
        alloc,
        of.frame(),
        |frame| normals_of(frame, node.node(), normals)
    )
}

/// Copies the normals of the vertices of a leaf.
fn normals_of(frame: &Snapshot, node: Node, normals: &mut [TerraNormal]) -> u8
    ensures { CopiesNormals frame.now node normals.old normals.new result }
{
    keys_of_leaves_are_in_their_world();
    let Some(block) = frame.block(node) else {
        return NOT_A_LEAF;
    };
    if normals.len() < block.keys.len() {
        return NO_ROOM;
    }
    copy_normals(frame, block.keys, normals);
    DONE
}

/// Copies the triangles of a leaf of a frame, as `terra_vertices` its vertices.
#[unsafe(no_mangle)]
pub extern "C" fn terra_triangles(
    alloc: Global,
    of: &mut TerraHandle,
    node: &TerraNode,
    triangles: &mut [TerraTriangle],
) -> u8
    ensures held { of.new.held ≡ of.old.held }
    ensures copied { MatchOption (frame_in of.old.held)
        ((result ≡ NOT_HELD) × (triangles.new ≡ triangles.old))
        (λ frame. CopiesTriangles frame (node_of_c node.now) triangles.old triangles.new result) }
{
    read!(
        alloc,
        of.frame(),
        |frame| triangles_of(frame, node.node(), triangles)
    )
}

/// Copies the triangles of a leaf.
fn triangles_of(frame: &Snapshot, node: Node, triangles: &mut [TerraTriangle]) -> u8
    ensures { CopiesTriangles frame.now node triangles.old triangles.new result }
{
    let Some(block) = frame.block(node) else {
        return NOT_A_LEAF;
    };
    if triangles.len() < block.triangles.len() {
        return NO_ROOM;
    }
    copy_triangles(block.triangles, triangles);
    DONE
}

/// Copies the triangles of a leaf of a frame with indices of 16 bits, if its block has at most 65,536 vertices.
#[unsafe(no_mangle)]
pub extern "C" fn terra_triangles16(
    alloc: Global,
    of: &mut TerraHandle,
    node: &TerraNode,
    triangles: &mut [TerraTriangle16],
) -> u8
    ensures held { of.new.held ≡ of.old.held }
    ensures copied { MatchOption (frame_in of.old.held)
        ((result ≡ NOT_HELD) × (triangles.new ≡ triangles.old))
        (λ frame. CopiesTriangles16 frame (node_of_c node.now) triangles.old triangles.new result) }
{
    read!(
        alloc,
        of.frame(),
        |frame| triangles16_of(frame, node.node(), triangles)
    )
}

/// Copies the triangles of a leaf with indices of 16 bits.
fn triangles16_of(frame: &Snapshot, node: Node, triangles: &mut [TerraTriangle16]) -> u8
    ensures { CopiesTriangles16 frame.now node triangles.old triangles.new result }
{
    let Some(block) = frame.block(node) else {
        return NOT_A_LEAF;
    };
    if block.positions.len() > 65_536 {
        return TOO_LARGE;
    }
    if triangles.len() < block.triangles.len() {
        return NO_ROOM;
    }
    copy_triangles16(block.triangles, triangles);
    DONE
}

/// Tells how many vertices and triangles the mesh of a leaf has, and where it lies, of a frame as `terra_vertices`.
#[unsafe(no_mangle)]
pub extern "C" fn terra_block(
    alloc: Global,
    of: &mut TerraHandle,
    node: &TerraNode,
    block: &mut TerraBlock,
) -> u8
    ensures held { of.new.held ≡ of.old.held }
    ensures measured { MatchOption (frame_in of.old.held)
        ((result ≡ NOT_HELD) × (block.new ≡ block.old))
        (λ frame. Measures frame (node_of_c node.now) block.old block.new result) }
{
    read!(
        alloc,
        of.frame(),
        |frame| measure(frame, node.node(), block)
    )
}

/// Measures the mesh of a leaf.
fn measure(frame: &Snapshot, node: Node, block: &mut TerraBlock) -> u8
    ensures { Measures frame.now node block.old block.new result }
{
    let Some(view) = frame.block(node) else {
        return NOT_A_LEAF;
    };
    *block = TerraBlock {
        vertices: view.positions.len(),
        triangles: view.triangles.len(),
        origin: TerraPoint::of(frame.corner(node)),
    };
    DONE
}

/// Copies the leaves that the last update of a world put, in the order of nodes, and tells how many there are.
#[unsafe(no_mangle)]
pub extern "C" fn terra_put(
    alloc: Global,
    world: &mut TerraHandle,
    nodes: &mut [TerraNode],
    count: &mut usize,
) -> u8
    ensures held { world.new.held ≡ world.old.held }
    ensures copied { MatchOption (world_in world.old.held)
        ((result ≡ NOT_HELD) × ((nodes.new ≡ nodes.old) × (count.new ≡ count.old)))
        (λ game. CopiesNodes game.changes.put nodes.old nodes.new count.new result) }
{
    read!(
        alloc,
        world.world(),
        |game| copy_list(game.put(), nodes, count)
    )
}

/// Copies the leaves that went by the last update of a world, in the order of nodes, and tells how many there are.
#[unsafe(no_mangle)]
pub extern "C" fn terra_gone(
    alloc: Global,
    world: &mut TerraHandle,
    nodes: &mut [TerraNode],
    count: &mut usize,
) -> u8
    ensures held { world.new.held ≡ world.old.held }
    ensures copied { MatchOption (world_in world.old.held)
        ((result ≡ NOT_HELD) × ((nodes.new ≡ nodes.old) × (count.new ≡ count.old)))
        (λ game. CopiesNodes game.changes.gone nodes.old nodes.new count.new result) }
{
    read!(
        alloc,
        world.world(),
        |game| copy_list(game.gone(), nodes, count)
    )
}

/// Copies nodes, if there is room for them, and tells how many there are.
pub(crate) fn copy_list(from: &[Node], nodes: &mut [TerraNode], count: &mut usize) -> u8
    ensures { CopiesNodes from.now nodes.old nodes.new count.new result }
{
    *count = from.len();
    if nodes.len() < from.len() {
        return NO_ROOM;
    }
    copy_nodes(from, nodes);
    DONE
}
