//! A mesh to which the cells of a leaf are added, one triangle after another.
//!
//! Each triangle names three edges of a cell. An edge has one key in the mesh, at the index at which it was first met;
//! up to four cells ask for it. That index is read from a table with a slot for each edge: one for the edges of the
//! leaf's own cells (`coarse`), and one for those of the level below on the leaf's border (`fine`), which transition
//! cells have.
//!
//! The builder is kept from leaf to leaf, with its memory. The tables have 34,341 numbers, and clearing them would take
//! as long as many a mesh. So their numbers count from a base: one that isn't above the base says nothing, and for the
//! next leaf the base goes up by the edges of this one. Only when it nears the end of its type are they filled anew.
//!
//! While cells are added, a `MeshEdge` of 8 bytes stands for a key. Keys and positions, 32 bytes, are made from these
//! in a loop at the end, into lists with just the room.

ghost use Rattle.std.specs.Prelude.{◌≡◌, ℕ, ◌+◌, ◌-◌, ◌*◌, ◌/◌, ◌<◌, ◌≤◌, ◌^◌, ◌++◌, [], ◌∷◌, IfOk, OnOk, List, length, map, slice_index};
ghost use Rattle.std.specs.List.{AllByRecursion};
ghost use Rattle.lattice.specs.declared.key.Key.{Key as KeyOf};
ghost use Rattle.lattice.specs.Point.{moved};
ghost use Rattle.terrain.specs.Blocks.{cell_corner};
ghost use Rattle.terrain.specs.Cells.{IsPresent, regular_faces, triangles_of};
ghost use Rattle.terrain.specs.Levels.{LevelMap};
ghost use Rattle.terrain.specs.Samples.{Field};
ghost use Rattle.cells.specs.declared.edges.TheConstants.{TRANSITION_EDGES};
ghost use Rattle.cells.specs.Edges.{face_axis};
ghost use Rattle.lattice.specs.Face.{axis_along};
ghost use Rattle.face_curves.specs.declared.triangles.TheConstants.{MAX_TRIANGLES};
ghost use Rattle.bricks.specs.declared.brick.TheConstants.{LEAF_SAMPLES};
ghost use Rattle.bricks.specs.declared.faces.TheConstants.{FINE_POINTS};
ghost use Rattle.block_mesh.specs.declared.mesher.TheConstants.{MAX_KEYS};
ghost use Rattle.bricks.specs.Brick.{HasSamples};
ghost use Rattle.block_mesh.specs.KeyTable.{border_slot, edge_slot, fine_slot};
ghost use Rattle.bricks.specs.Slots.{point_slot};
ghost use Rattle.block_mesh.specs.MeshEdges.{IsEdgeSlot, key_at_slot};
ghost use Rattle.vertex_places.specs.LeafEdges.{key_of};
ghost use Rattle.block_mesh.specs.LeafCells.{IsFace, cell_triangles, square_key, square_triangles};
ghost use Rattle.lattice.specs.Steps.{AreAtMost, face_steps, key_at};
ghost use Rattle.block_mesh.specs.LeafCells.{EndsOnFace};

use crate::block::Mesh;
use crate::cell_steps::CellSteps;
use crate::growing::Growing;
use crate::mesh_edge::MeshEdge;
use crate::vertices::{Vertices, vertices_of};
use bricks::{BrickView, FINE_POINTS, POINTS};
use cell_laws::keys_are_told_apart;
use cells::{Along, TRANSITION_EDGES, transition_edge};
use lattice::{Axis, CELLS, Face, Point};
use std::alloc::{AllocError, Global};
use vertex_places::{LeafEdge, Moves};

/// How many slots the table of a leaf's edges has: three for each of its points.
const EDGES: usize = (3 * POINTS * POINTS * POINTS) as usize;

/// How many slots the table of the finer edges on a leaf's border has: three for each point of six planes.
const FINE_EDGES: usize = (3 * 6 * FINE_POINTS * FINE_POINTS) as usize;

/// A table whose base is above this is filled anew. So an entry fits its type.
const MAX_BASE: usize = 1 << 30;

/// Some edge.
const NO_EDGE: MeshEdge = MeshEdge::Coarse(0);

/// A mesh to which cells are added. It keeps its memory from leaf to leaf.
pub(crate) struct Builder {
    pub moves: Moves,
    /// The edges whose keys are those of the mesh, in the order of first use, each once.
    pub edges: Growing<MeshEdge>,
    pub triangles: Growing<[u32; 3]>,
    /// For each edge of the leaf's cells by how much this is above the base: one more than the index of its key, or 0
    /// where it isn't among the keys.
    pub coarse: Vec<u32>,
    /// The same for each edge of the level below on the leaf's border.
    pub fine: Vec<u32>,
    /// No entry that was made for an earlier leaf is above it. So the tables needn't be cleared for the next leaf.
    pub base: u32,
}

// Written out, since a derived drop is proved anew at each way out that drops a builder.
impl Drop for Builder {
    fn drop(self) {
        let Self {
            moves: _,
            edges: _edges,
            triangles: _triangles,
            coarse: _coarse,
            fine: _fine,
            base: _,
        } = self;
    }
}

/// A square of a leaf's face on which a transition cell is: the v-th and the u-th on the face's higher and lower
/// axis.
#[derive(Clone, Copy, Debug)]
pub(crate) struct Square {
    pub face: Face,
    pub v: u32,
    pub u: u32,
}

impl Builder {
    ghost use Rattle.lattice.specs.declared.point.Pos.{Pos as PosOf};
    ghost use Rattle.terrain.specs.Blocks.{place};
    ghost use Rattle.bricks.specs.Brick.{HasBrick};
    ghost use Rattle.block_mesh.specs.Builder.{Adds, AddsTriangles, Builds, HasMet};
    ghost use Rattle.block_mesh.specs.Builder.{HoldsTriangles, IsSpare, IsSquare, lists_in};
    ghost use Rattle.block_mesh.specs.Mesh.{IsMesh};

    /// Returns a mesh without triangles for a brick's leaf.
    pub(crate) fn new(alloc: Global, brick: &BrickView<'_>) -> Result<Builder, AllocError>
        ensures none { IfOk result (λ builder. length builder.edges ≡ 0) }
        ensures builds { IfOk result (λ builder. Builds brick.now builder) }
        ensures holds { IfOk result (λ builder. HoldsTriangles brick.now [] builder) }
    {
        Ok(Builder {
            moves: Moves::new(brick.depth(), brick.node(), brick.rim()),
            edges: Growing::new(alloc, NO_EDGE),
            triangles: Growing::new(alloc, [0; 3]),
            coarse: vec![in alloc; 0; EDGES]?,
            fine: vec![in alloc; 0; FINE_EDGES]?,
            base: 0,
        })
    }

    /// Makes it a mesh without triangles for another brick's leaf. The memory stays.
    pub(crate) fn restart(&mut self, brick: &BrickView<'_>)
        requires { IsSpare self.old }
        ensures none { length self.new.edges ≡ 0 }
        ensures builds { Builds brick.now self.new }
        ensures holds { HoldsTriangles brick.now [] self.new }
    {
        self.moves = Moves::new(brick.depth(), brick.node(), brick.rim());
        self.base = next_base(
            &mut self.coarse,
            &mut self.fine,
            self.base,
            self.edges.len(),
        );
        self.edges.clear();
        self.triangles.clear();
    }

    /// Returns the mesh.
    #[inline(never)]
    pub(crate) fn finish(&self, alloc: Global, brick: &BrickView<'_>) -> Result<Mesh, AllocError>
        requires builds { Builds brick.now self.now }
        requires mesh { (positions : List PosOf) → length positions ≡ length self.now.edges
            → IsMesh (lists_in brick.now self.now positions) }
        ensures lists { IfOk result (λ mesh. mesh ≡ lists_in brick.now self.now mesh.positions) }
        ensures placed { IfOk result (λ mesh. (s : Field) (m : LevelMap) → HasBrick s m brick.now
            → mesh.positions ≡ map (place brick.now.depth s m) mesh.keys) }
    {
        let made = vertices_of(alloc, brick, &self.moves, self.edges.items())?;
        let triangles = self.triangles.to_vec(alloc)?;
        let Vertices { keys, positions } = made;
        Ok(Mesh {
            keys,
            positions,
            triangles,
        })
    }

    /// Adds the triangles of the regular cell at a place of the leaf, by its sign number.
    pub(crate) fn add_regular(
        &mut self,
        brick: &BrickView<'_>,
        cell: Point,
        steps: &CellSteps,
        signs: u8,
    ) -> Result<(), AllocError>
        requires cell { AreAtMost (CELLS - 1) cell }
        requires present { (s : Field) → HasSamples s brick.now
            → AllByRecursion (AllByRecursion (IsPresent s))
            (cell_triangles brick.now.node cell (triangles_of (regular_faces signs))) }
        requires builds { Builds brick.now self.old }
        requires room { length self.old.edges + 3 * MAX_TRIANGLES ≤ MAX_KEYS }
        ensures few { OnOk result (length self.new.edges
            ≤ length self.old.edges + 3 * MAX_TRIANGLES) }
        ensures adds { OnOk result (AddsTriangles brick.now
            (λ _. cell_triangles brick.now.node cell (triangles_of (regular_faces signs)))
            self.old self.new) }
    {
        let first = edge_slot(cell, Axis::X);
        for triangle in steps.of(signs) {
            self.add_regular_triangle(brick, first, triangle)?;
        }
        Ok(())
    }

    /// Adds a triangle whose keys are edges of the leaf's cells, each by how much further its slot is than `first`.
    #[inline(always)]
    fn add_regular_triangle(
        &mut self,
        brick: &BrickView<'_>,
        first: usize,
        triangle: &[u16; 3],
    ) -> Result<(), AllocError>
        requires first { first < EDGES }
        requires slots { AllByRecursion (λ step. IsEdgeSlot (first + step)) triangle.now }
        requires present { (s : Field) → HasSamples s brick.now → AllByRecursion (IsPresent s)
            (map (λ step. key_at_slot brick.now (first + step)) triangle.now) }
        requires builds { Builds brick.now self.old }
        requires room { length self.old.edges + 3 ≤ MAX_KEYS }
        ensures few { OnOk result (length self.new.edges ≤ length self.old.edges + 3) }
        ensures adds { OnOk result (AddsTriangles brick.now
            (λ _. map (λ step. key_at_slot brick.now (first + step)) triangle.now ∷ [])
            self.old self.new) }
    {
        let [a, b, c] = *triangle;
        let places = [
            self.slot_index(brick, first + usize::from(a))?,
            self.slot_index(brick, first + usize::from(b))?,
            self.slot_index(brick, first + usize::from(c))?,
        ];
        self.triangles.push(places)
    }

    /// Returns the index of the key of the edge of the leaf's cells at a slot, and puts the key behind the others if it
    /// isn't among them.
    #[inline(always)]
    fn slot_index(&mut self, brick: &BrickView<'_>, slot: usize) -> Result<u32, AllocError>
        requires slot { IsEdgeSlot slot }
        requires present { (s : Field) → HasSamples s brick.now
            → IsPresent s (key_at_slot brick.now slot) }
        requires builds { Builds brick.now self.old }
        requires room { length self.old.edges < MAX_KEYS }
        ensures few { OnOk result (length self.new.edges ≤ length self.old.edges + 1) }
        ensures adds { IfOk result (Adds brick.now (key_at_slot brick.now slot)
            self.old self.new) }
    {
        let known = self.coarse[slot].saturating_sub(self.base);
        if known > 0 {
            return Ok(known - 1);
        }
        self.add_coarse(brick, slot)
    }

    /// Adds triangles whose keys are edges of the transition cell on a square of a leaf's face.
    pub(crate) fn add_transition(
        &mut self,
        brick: &BrickView<'_>,
        square: Square,
        fines: &[i8],
        triangles: &[[u8; 3]],
    ) -> Result<(), AllocError>
        requires face { IsFace brick.now square.face fines.now }
        requires square { IsSquare square }
        requires edges { AllByRecursion (AllByRecursion (λ edge. edge < TRANSITION_EDGES))
            triangles.now }
        requires present { (s : Field) → HasSamples s brick.now
            → AllByRecursion (AllByRecursion (IsPresent s))
            (square_triangles brick.now.node square.face square.v square.u triangles.now) }
        requires count { length triangles.now ≤ MAX_TRIANGLES }
        requires builds { Builds brick.now self.old }
        requires room { length self.old.edges + 3 * length triangles.now ≤ MAX_KEYS }
        ensures few { OnOk result (length self.new.edges
            ≤ length self.old.edges + 3 * length triangles.now) }
        ensures adds { OnOk result (AddsTriangles brick.now
            (λ _. square_triangles brick.now.node square.face square.v square.u triangles.now)
            self.old self.new) }
    {
        let mut met = [0; TRANSITION_EDGES];
        for triangle in triangles {
            self.add_transition_triangle(brick, square, fines, &mut met, triangle)?;
        }
        Ok(())
    }

    /// Adds a triangle whose keys are edges of the transition cell on a square of a leaf's face.
    ///
    /// `met` has for each edge of the cell one more than the index of its key, or 0 where the edge wasn't met yet.
    #[inline(always)]
    fn add_transition_triangle(
        &mut self,
        brick: &BrickView<'_>,
        square: Square,
        fines: &[i8],
        met: &mut [u32; TRANSITION_EDGES],
        triangle: &[u8; 3],
    ) -> Result<(), AllocError>
        requires face { IsFace brick.now square.face fines.now }
        requires square { IsSquare square }
        requires edges { AllByRecursion (λ edge. edge < TRANSITION_EDGES) triangle.now }
        requires present { (s : Field) → HasSamples s brick.now → AllByRecursion (IsPresent s)
            (map (square_key brick.now.node square.face square.v square.u) triangle.now) }
        requires builds { Builds brick.now self.old }
        requires room { length self.old.edges + 3 ≤ MAX_KEYS }
        requires met { HasMet brick.now square met.old self.old }
        ensures few { OnOk result (length self.new.edges ≤ length self.old.edges + 3) }
        ensures adds { OnOk result (AddsTriangles brick.now
            (λ _. map (square_key brick.now.node square.face square.v square.u) triangle.now ∷ [])
            self.old self.new) }
        ensures met { OnOk result (HasMet brick.now square met.new self.new) }
    {
        let [a, b, c] = *triangle;
        let places = [
            self.met_index(brick, square, fines, met, a)?,
            self.met_index(brick, square, fines, met, b)?,
            self.met_index(brick, square, fines, met, c)?,
        ];
        self.triangles.push(places)
    }

    /// Returns the index of the key of an edge of the transition cell on a square of a leaf's face, and puts the key
    /// behind the others if it isn't among them.
    ///
    /// `met` has for each edge of the cell one more than the index of its key, or 0 where the edge wasn't met yet. So
    /// each edge of the cell is looked up once.
    #[inline(always)]
    fn met_index(
        &mut self,
        brick: &BrickView<'_>,
        square: Square,
        fines: &[i8],
        met: &mut [u32; TRANSITION_EDGES],
        edge: u8,
    ) -> Result<u32, AllocError>
        requires face { IsFace brick.now square.face fines.now }
        requires square { IsSquare square }
        requires edge { edge < TRANSITION_EDGES }
        requires present { (s : Field) → HasSamples s brick.now → IsPresent s
            (square_key brick.now.node square.face square.v square.u edge) }
        requires builds { Builds brick.now self.old }
        requires room { length self.old.edges < MAX_KEYS }
        requires met { HasMet brick.now square met.old self.old }
        ensures few { OnOk result (length self.new.edges ≤ length self.old.edges + 1) }
        ensures adds { IfOk result (Adds brick.now
            (square_key brick.now.node square.face square.v square.u edge)
            self.old self.new) }
        ensures met { OnOk result (HasMet brick.now square met.new self.new) }
    {
        let slot = usize::from(edge);
        let known = met[slot];
        if known > 0 {
            return Ok(known - 1);
        }
        let place = self.transition_index(brick, square, fines, edge)?;
        met[slot] = place + 1;
        Ok(place)
    }

    /// Returns the index of the key of an edge of the transition cell on a square of a leaf's face, and puts the key
    /// behind the others if it isn't among them.
    fn transition_index(
        &mut self,
        brick: &BrickView<'_>,
        square: Square,
        fines: &[i8],
        edge: u8,
    ) -> Result<u32, AllocError>
        requires face { IsFace brick.now square.face fines.now }
        requires square { IsSquare square }
        requires edge { edge < TRANSITION_EDGES }
        requires present { (s : Field) → HasSamples s brick.now → IsPresent s
            (square_key brick.now.node square.face square.v square.u edge) }
        requires builds { Builds brick.now self.old }
        requires room { length self.old.edges < MAX_KEYS }
        ensures few { OnOk result (length self.new.edges ≤ length self.old.edges + 1) }
        ensures adds { IfOk result (Adds brick.now
            (square_key brick.now.node square.face square.v square.u edge)
            self.old self.new) }
    {
        let edge = transition_edge(edge);
        let axis = edge.along.axis(square.face);
        let (v, u) = (u32::from(edge.point / 3), u32::from(edge.point % 3));
        if edge.is_coarse {
            let at = face_steps(square.face, CELLS, square.v + v / 2, square.u + u / 2);
            self.coarse_index(brick, at, axis)
        } else {
            self.fine_index(
                brick,
                square.face,
                fines,
                2 * square.v + v,
                2 * square.u + u,
                edge.along,
            )
        }
    }

    /// Returns the index of the key of the level below that begins at a finer point of a leaf's face, and puts the key
    /// behind the others if it isn't among them.
    fn fine_index(
        &mut self,
        brick: &BrickView<'_>,
        face: Face,
        fines: &[i8],
        v: u32,
        u: u32,
        along: Along,
    ) -> Result<u32, AllocError>
        requires face { IsFace brick.now face fines.now }
        requires end { EndsOnFace v u along }
        requires present { (s : Field) → HasSamples s brick.now
            → IsPresent s (key_at (brick.now.node.level - 1)
            brick.now.node (face_steps face (2 * CELLS) v u) (axis_along face (face_axis along))) }
        requires builds { Builds brick.now self.old }
        requires room { length self.old.edges < MAX_KEYS }
        ensures few { OnOk result (length self.new.edges ≤ length self.old.edges + 1) }
        ensures adds { IfOk result (Adds brick.now (key_at (brick.now.node.level - 1) brick.now.node
            (face_steps face (2 * CELLS) v u) (axis_along face (face_axis along)))
            self.old self.new) }
    {
        let at = face_steps(face, 2 * CELLS, v, u);
        let axis = along.axis(face);
        let slot = fine_slot(at, axis);
        let known = self.fine[slot].saturating_sub(self.base);
        if known > 0 {
            return Ok(known - 1);
        }
        keys_are_told_apart();
        let first = (v * FINE_POINTS + u) as usize;
        let step = match along {
            Along::Lower => 1,
            Along::Higher => FINE_POINTS as usize,
        };
        let near = fines[first];
        let far = fines[first + step];
        let place = self.edges.len() as u32;
        let edge = LeafEdge::new(brick.node().level - 1, at, axis, near, far);
        self.edges.push(MeshEdge::Fine(edge))?;
        self.fine[slot] = self.base + place + 1;
        Ok(place)
    }

    /// Returns the index of the key of an edge of the leaf's cells, by its low end, and puts the key behind the others
    /// if it isn't among them.
    fn coarse_index(
        &mut self,
        brick: &BrickView<'_>,
        at: Point,
        axis: Axis,
    ) -> Result<u32, AllocError>
        requires end { AreAtMost CELLS (moved axis 1 at) }
        requires present { (s : Field) → HasSamples s brick.now
            → IsPresent s (key_at brick.now.node.level brick.now.node at axis) }
        requires builds { Builds brick.now self.old }
        requires room { length self.old.edges < MAX_KEYS }
        ensures few { OnOk result (length self.new.edges ≤ length self.old.edges + 1) }
        ensures adds { IfOk result (Adds brick.now
            (key_at brick.now.node.level brick.now.node at axis) self.old self.new) }
    {
        self.slot_index(brick, edge_slot(at, axis))
    }

    /// Puts the key of the edge of the leaf's cells at a slot, which isn't among the others, behind them, and returns
    /// its index.
    #[inline(always)]
    fn add_coarse(&mut self, brick: &BrickView<'_>, slot: usize) -> Result<u32, AllocError>
        requires slot { IsEdgeSlot slot }
        requires new { slice_index self.old.coarse.items slot - self.old.base ≡ 0 }
        requires present { (s : Field) → HasSamples s brick.now
            → IsPresent s (key_at_slot brick.now slot) }
        requires builds { Builds brick.now self.old }
        requires room { length self.old.edges < MAX_KEYS }
        ensures few { OnOk result (length self.new.edges ≤ length self.old.edges + 1) }
        ensures adds { IfOk result (Adds brick.now (key_at_slot brick.now slot)
            self.old self.new) }
    {
        keys_are_told_apart();
        let _ = brick.samples();
        let place = self.edges.len() as u32;
        self.edges.push(MeshEdge::Coarse(slot as u16))?;
        self.coarse[slot] = self.base + place + 1;
        Ok(place)
    }
}

/// Returns the place of a point of a leaf among its points.
fn point_slot(at: Point) -> usize
    requires { AreAtMost CELLS at }
    ensures value { result ≡ point_slot at }
    ensures within { result < LEAF_SAMPLES }
{
    ((at.z * POINTS + at.y) * POINTS + at.x) as usize
}

/// Returns the place of an edge of a leaf's cells among all of them.
fn edge_slot(at: Point, axis: Axis) -> usize
    requires { AreAtMost CELLS at }
    ensures value { result ≡ edge_slot at axis }
    ensures within { result < EDGES }
{
    3 * point_slot(at) + axis as usize
}

/// Returns the place of a point of the level below on a leaf's border among all of them: in the first of the six planes
/// on which it lies.
fn border_slot(at: Point) -> usize
    requires { AreAtMost (2 * CELLS) at }
    ensures value { result ≡ border_slot at }
    ensures within { result < 6 * (FINE_POINTS * FINE_POINTS) }
{
    let side = 2 * CELLS;
    let (plane, row, column) = if at.z % side == 0 {
        (at.z / side, at.y, at.x)
    } else if at.y % side == 0 {
        (2 + at.y / side, at.z, at.x)
    } else {
        (4 + at.x / side, at.z, at.y)
    };
    ((plane * FINE_POINTS + row) * FINE_POINTS + column) as usize
}

/// Returns the place of an edge of the level below on a leaf's border among all of them.
fn fine_slot(at: Point, axis: Axis) -> usize
    requires { AreAtMost (2 * CELLS) at }
    ensures value { result ≡ fine_slot at axis }
    ensures within { result < FINE_EDGES }
{
    3 * border_slot(at) + axis as usize
}

/// Returns the steps from a leaf's low corner to the point of a face that is the v-th and the u-th on the face's higher
/// and lower axis, where a side of the leaf is so many steps.
fn face_steps(face: Face, side: u32, v: u32, u: u32) -> Point
    requires side { side < 2 ^ 8 }
    requires v { v < 2 ^ 8 }
    requires u { u < 2 ^ 8 }
    ensures { result ≡ face_steps face side v u }
{
    let off = if face.is_high() { side } else { 0 };
    Point::new(0, 0, 0)
        .moved(face.axis_across(), off)
        .moved(face.higher_axis(), v)
        .moved(face.lower_axis(), u)
}

/// Returns a base that no entry of two tables is above: the last base and so many more, or 0 where that is too high,
/// and then the tables are filled with 0.
fn next_base(coarse: &mut [u32], fine: &mut [u32], base: u32, count: usize) -> u32
    requires coarse { (slot : ℕ) → slice_index coarse.old slot ≤ base + count }
    requires fine { (slot : ℕ) → slice_index fine.old slot ≤ base + count }
    ensures low { result ≤ MAX_BASE }
    ensures coarse { (slot : ℕ) → slice_index coarse.new slot ≤ result }
    ensures fine { (slot : ℕ) → slice_index fine.new slot ≤ result }
    ensures coarse_len { length coarse.new ≡ length coarse.old }
    ensures fine_len { length fine.new ≡ length fine.old }
{
    let next = count.saturating_add(base as usize);
    if next <= MAX_BASE {
        return next as u32;
    }
    coarse.fill(0);
    fine.fill(0);
    0
}
