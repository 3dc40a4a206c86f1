//! Copies into the caller's room.

ghost use Rattle.std.specs.Prelude.{◌≡◌, ◌≤◌, ◌<◌, ◌^◌, All, length, List, ℕ};
ghost use Rattle.lattice.specs.Key.{IsKey};
ghost use Rattle.lattice.specs.declared.key.Key.{Key as KeyOf};
ghost use Rattle.lattice.specs.declared.node.Node.{Node as NodeOf};
ghost use Rattle.lattice.specs.declared.point.Pos.{Pos as PosOf};
ghost use Rattle.terra_c.specs.declared.shapes.TerraFloats.{TerraFloats as CFloats};
ghost use Rattle.terra_c.specs.declared.shapes.TerraNode.{TerraNode as CNode};
ghost use Rattle.terra_c.specs.Blocks.{normal_in};
ghost use Rattle.terra_c.specs.declared.shapes.TerraNormal.{TerraNormal as CNormal};
ghost use Rattle.terra_c.specs.declared.shapes.TerraTriangle.{TerraTriangle as CTriangle};
ghost use Rattle.terra_c.specs.declared.shapes.TerraTriangle16.{TerraTriangle16 as CTriangle16};
ghost use Rattle.terra_c.specs.declared.shapes.TerraVertex.{TerraVertex as CVertex};
ghost use Rattle.terra_c.specs.Shapes.{FloatsAreExact, IsCopy, c_floats, c_node, c_triangle, c_triangle16, c_vertex, cells_of_units};

use crate::shapes::{
    TerraFloats, TerraNode, TerraNormal, TerraTriangle, TerraTriangle16, TerraVertex,
};
use std::num::nearest_u32_to_f32;
use terra_world::{Key, Node, Pos, Snapshot};

/// Copies nodes into room that is enough for them.
pub(crate) fn copy_nodes(from: &[Node], to: &mut [TerraNode])
    requires { length from.now ≤ length to.old }
    ensures { IsCopy NodeOf CNode c_node from.now to.old to.new }
{
    for i in 0..from.len() {
        to[i] = TerraNode::of(&from[i]);
    }
}

/// Copies positions into room that is enough for them.
pub(crate) fn copy_vertices(from: &[Pos], to: &mut [TerraVertex])
    requires { length from.now ≤ length to.old }
    ensures { IsCopy PosOf CVertex c_vertex from.now to.old to.new }
{
    for i in 0..from.len() {
        let Pos { x, y, z } = from[i];
        to[i] = TerraVertex { x, y, z };
    }
}

/// Copies the normals of keys of a frame's world into room that is enough for them.
pub(crate) fn copy_normals(frame: &Snapshot, from: &[Key], to: &mut [TerraNormal])
    requires room { length from.now ≤ length to.old }
    requires keys { All (IsKey frame.now.settings.depth) from.now }
    ensures { IsCopy KeyOf CNormal (normal_in frame.now) from.now to.old to.new }
{
    for i in 0..from.len() {
        to[i] = normal_at(frame, &from[i]);
    }
}

/// Returns the normal of a key of a frame's world as C sees it.
fn normal_at(frame: &Snapshot, key: &Key) -> TerraNormal
    requires { IsKey frame.now.settings.depth key.now }
    ensures { result ≡ normal_in frame.now key.now }
{
    TerraNormal::of(frame.normal(*key))
}

/// Copies triangles into room that is enough for them.
pub(crate) fn copy_triangles(from: &[[u32; 3]], to: &mut [TerraTriangle])
    requires { length from.now ≤ length to.old }
    ensures { IsCopy (List ℕ) CTriangle c_triangle from.now to.old to.new }
{
    for i in 0..from.len() {
        let [a, b, c] = from[i];
        to[i] = TerraTriangle { a, b, c };
    }
}

/// One unit of 1/256 fine cell.
const UNIT: f32 = 0.00390625;

/// Returns units of 1/256 fine cell in fine cells.
fn cells(units: u32) -> f32
    ensures { result ≡ cells_of_units units }
{
    UNIT * nearest_u32_to_f32(units)
}

/// Units as floats are exact, up to far more than a coordinate has.
pub fn floats_are_exact()
    ensures { FloatsAreExact }
{}

/// Copies positions as floats into room that is enough for them.
pub(crate) fn copy_floats(from: &[Pos], to: &mut [TerraFloats])
    requires { length from.now ≤ length to.old }
    ensures { IsCopy PosOf CFloats c_floats from.now to.old to.new }
{
    for i in 0..from.len() {
        let Pos { x, y, z } = from[i];
        to[i] = TerraFloats {
            x: cells(x),
            y: cells(y),
            z: cells(z),
        };
    }
}

/// Copies triangles whose indices fit 16 bits into room that is enough for them.
pub(crate) fn copy_triangles16(from: &[[u32; 3]], to: &mut [TerraTriangle16])
    requires room { length from.now ≤ length to.old }
    requires small { All (All (λ place. place < 2 ^ 16)) from.now }
    ensures { IsCopy (List ℕ) CTriangle16 c_triangle16 from.now to.old to.new }
{
    for i in 0..from.len() {
        let [a, b, c] = from[i];
        to[i] = TerraTriangle16 {
            a: a as u16,
            b: b as u16,
            c: c as u16,
        };
    }
}
