//! Edges of a mesh, as they are kept until their keys are made.
//!
//! Most edges are those of the leaf's own cells. Such an edge is kept by its slot alone, so that little is done where a
//! cell has it first: its place and its samples are found from the slot when the mesh is whole.

ghost use Rattle.std.specs.Prelude.{◌≡◌};
ghost use Rattle.bricks.specs.Slots.{point_step};
ghost use Rattle.vertex_places.specs.LeafEdges.{IsLeafEdge};
ghost use Rattle.block_mesh.specs.MeshEdges.{edge_at_slot, point_at_slot};

use bricks::{BrickView, POINTS};
use lattice::{Axis, Point};
use vertex_places::LeafEdge;

/// The axes, by their numbers. A `const` would be put on the stack at each use.
static AXES: [Axis; 3] = [Axis::X, Axis::Y, Axis::Z];

/// For each axis how much further the next point on it is among a leaf's points.
const POINT_STEPS: [u16; 3] = [1, 17, 289];

/// An edge of a mesh.
#[derive(Clone, Copy, Debug)]
pub(crate) enum MeshEdge {
    /// An edge of the leaf's cells, by its slot among all of them.
    Coarse(u16),
    /// An edge of the level below on the leaf's border.
    Fine(LeafEdge),
}

impl MeshEdge {
    ghost use Rattle.block_mesh.specs.MeshEdges.{leaf_edge_of};

    /// Returns the edge with its place, its axis and the samples at its ends. `brick` is that of the mesh's leaf.
    #[inline(always)]
    pub(crate) fn leaf_edge(&self, brick: &BrickView<'_>) -> LeafEdge
        requires { IsLeafEdge brick.now.node (leaf_edge_of brick.now self.now) }
        ensures { result ≡ leaf_edge_of brick.now self.now }
    {
        match self {
            MeshEdge::Coarse(slot) => edge_at_slot(brick, *slot),
            MeshEdge::Fine(edge) => *edge,
        }
    }
}

/// Returns the edge of a leaf's cells at a slot.
#[inline(always)]
fn edge_at_slot(brick: &BrickView<'_>, slot: u16) -> LeafEdge
    requires { IsLeafEdge brick.now.node (edge_at_slot brick.now slot) }
    ensures { result ≡ edge_at_slot brick.now slot }
{
    let point = slot / 3;
    let axis = AXES[usize::from(slot % 3)];
    let at = point_at_slot(point);
    let samples = brick.samples();
    let near = samples[usize::from(point)];
    let far = samples[usize::from(point) + point_step(axis)];
    LeafEdge::new(brick.node().level, at, axis, near, far)
}

/// Returns the point of a leaf at a slot.
#[inline(always)]
fn point_at_slot(slot: u16) -> Point
    ensures { result ≡ point_at_slot slot }
{
    let slot = u32::from(slot);
    let row = slot / POINTS;
    Point {
        z: row / POINTS,
        y: row % POINTS,
        x: slot % POINTS,
    }
}

/// Returns how much further the next point on an axis is among a leaf's points.
fn point_step(axis: Axis) -> usize
    ensures { result ≡ point_step axis }
{
    usize::from(POINT_STEPS[axis as usize])
}
