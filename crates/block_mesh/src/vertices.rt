//! The keys of a mesh and their positions, made from its edges in a loop when all are known.
//!
//! The loop stands twice: once for leaves whose rim is empty, as most are, so that it asks nothing of moves, and once
//! for the others. The compiler doesn't part them itself.

ghost use Rattle.std.specs.Prelude.{◌≡◌, IfOk};
ghost use Rattle.block_mesh.specs.Builder.{AreEdgesOf};
ghost use Rattle.block_mesh.specs.Vertices.{AreVertices};

use crate::mesh_edge::MeshEdge;
use bricks::BrickView;
use lattice::{Key, Pos};
use std::alloc::{AllocError, Global};
use vertex_places::{Moves, edge_position, unmoved_position};

/// The keys of a mesh, and where the vertex of each lies.
#[derive(Drop)]
pub(crate) struct Vertices {
    pub keys: Vec<Key>,
    pub positions: Vec<Pos>,
}

/// Returns the vertices of the edges of a mesh. `brick` is that of its leaf, and `moves` are the leaf's.
pub(crate) fn vertices_of(
    alloc: Global,
    brick: &BrickView<'_>,
    moves: &Moves,
    edges: &[MeshEdge],
) -> Result<Vertices, AllocError>
    requires edges { AreEdgesOf brick.now edges.now }
    requires moves { moves.now
        ≡ record { depth = brick.now.depth; node = brick.now.node; rim = brick.now.rim } }
    ensures { IfOk result (AreVertices brick.now edges.now) }
{
    if moves.are_none() {
        unmoved_vertices(alloc, brick, edges)
    } else {
        moved_vertices(alloc, brick, moves, edges)
    }
}

/// Returns the vertices of the edges of a mesh of a leaf whose rim is empty.
fn unmoved_vertices(
    alloc: Global,
    brick: &BrickView<'_>,
    edges: &[MeshEdge],
) -> Result<Vertices, AllocError>
    requires edges { AreEdgesOf brick.now edges.now }
    requires rim { brick.now.rim ≡ 0 }
    ensures { IfOk result (AreVertices brick.now edges.now) }
{
    let count = edges.len();
    let mut keys = Vec::with_capacity(alloc, count)?;
    let mut positions = Vec::with_capacity(alloc, count)?;
    let low = brick.node().low_corner();
    for edge in edges {
        let edge = edge.leaf_edge(brick);
        let key = edge.key(low);
        keys.push_reserved(key);
        positions.push_reserved(unmoved_position(&edge, &key));
    }
    Ok(Vertices { keys, positions })
}

/// Returns the vertices of the edges of a mesh, by the moves of its leaf's points.
fn moved_vertices(
    alloc: Global,
    brick: &BrickView<'_>,
    moves: &Moves,
    edges: &[MeshEdge],
) -> Result<Vertices, AllocError>
    requires edges { AreEdgesOf brick.now edges.now }
    requires moves { moves.now
        ≡ record { depth = brick.now.depth; node = brick.now.node; rim = brick.now.rim } }
    ensures { IfOk result (AreVertices brick.now edges.now) }
{
    let count = edges.len();
    let mut keys = Vec::with_capacity(alloc, count)?;
    let mut positions = Vec::with_capacity(alloc, count)?;
    let low = brick.node().low_corner();
    for edge in edges {
        let edge = edge.leaf_edge(brick);
        let key = edge.key(low);
        keys.push_reserved(key);
        positions.push_reserved(edge_position(moves, &edge, &key));
    }
    Ok(Vertices { keys, positions })
}
