//! The mesh of a brick: the triangles of the leaf's regular cells, then those of its transition cells, face by face.
//!
//! A cell's triangles depend on the signs of its corners alone, and are lent by the tables of `cells`. So what the
//! mesher does for a cell is to find its sign number. It never looks at corners one by one: the signs of a row of
//! points are one number, four such rows bound a row of cells, and the bits at a place of the four are the cell's
//! signs. Most cells of a leaf have one sign; `surface_cells` tells for a whole row which ones don't, and the loop
//! goes from one to the next. A leaf, a face or a row of squares whose samples have one sign is passed over at once.
//!
//! The bounds below count keys: three for a triangle, and so many triangles a cell at most. They are far above any
//! real mesh, and make each number of the builder fit its type.

ghost use Rattle.std.specs.Prelude.{◌≡◌, ℕ, ◌+◌, ◌*◌, ◌-◌, ◌<◌, ◌≤◌, ◌^◌, IfOk, OnOk, false, List, [], length, slice_index};
ghost use Rattle.lattice.specs.declared.key.Key.{Key as KeyOf};
ghost use Rattle.lattice.specs.declared.point.Face.{Face as FaceOf};
ghost use Rattle.lattice.specs.Lists.{joined};
ghost use Rattle.terrain.specs.Blocks.{cell_corner, over_cells, over_squares, square_corner};
ghost use Rattle.terrain.specs.Cells.{regular_triangles, transition_triangles};
ghost use Rattle.terrain.specs.Samples.{Field};
ghost use Rattle.bricks.specs.Brick.{HasSamples, IsBrick, leaf_line, over_rim};
ghost use Rattle.block_mesh.specs.Builder.{AddsTriangles, Builds, HoldsTriangles, IsSpare, IsSquare};
ghost use Rattle.block_mesh.specs.LeafCells.{IsFace};
ghost use Rattle.block_mesh.specs.Mesh.{IsMeshOf};
ghost use Rattle.block_mesh.specs.Signs.{BoundCells, BoundSquares, line_signs};

use crate::block::Mesh;
use crate::builder::{Builder, Square};
use crate::cell_steps::CellSteps;
use crate::scratch::Scratch;
use crate::signs::{
    are_plain, fine_row_signs, first_set, have_one_sign, regular_signs, row_signs, surface_cells,
    transition_signs, without,
};
use bricks::{Brick, BrickView, FACE_SAMPLES, FINE_POINTS, POINTS, has_face};
use cell_laws::keys_of_cells_are_present;
use cells::Cases;
use face_curves::MAX_TRIANGLES;
use lattice::{CELLS, Face, Point};
use std::alloc::{AllocError, Global};
use terrain::TRANSITION_CASES;

/// No cell has more keys: its triangles have three each.
pub(crate) const CELL_KEYS: u32 = 3 * MAX_TRIANGLES as u32;

/// No row of cells along a leaf has more keys.
pub(crate) const ROW_KEYS: u32 = CELLS * CELL_KEYS;

/// No layer of a leaf's regular cells has more keys, and the transition cells on a face have no more.
pub(crate) const LAYER_KEYS: u32 = CELLS * ROW_KEYS;

/// No mesh of a leaf has more keys: those of its layers of regular cells, and of the transition cells on six faces.
pub const MAX_KEYS: u32 = (CELLS + 6) * LAYER_KEYS;

/// How many rows of points a leaf has.
const ROWS: usize = (POINTS * POINTS) as usize;

/// The signs of a row of a face's finer points that are all solid.
const FINE_SOLID: u64 = (1 << FINE_POINTS) - 1;

/// Returns the mesh of a brick.
pub(crate) fn mesh_on(
    scratch: &mut Scratch,
    alloc: Global,
    cases: &Cases,
    brick: &Brick,
) -> Result<Mesh, AllocError>
    ensures shows { IfOk result (IsMeshOf brick.now) }
    ensures few { IfOk result (λ made. length made.keys ≤ MAX_KEYS) }
    ensures brick { IsBrick brick.now }
{
    match brick.lists() {
        Some(lists) => mesh_lists(scratch, alloc, cases, &lists),
        None => Ok(Mesh::empty(alloc)),
    }
}

/// Returns the mesh of a brick that has lists of samples.
pub(crate) fn mesh_lists(
    scratch: &mut Scratch,
    alloc: Global,
    cases: &Cases,
    brick: &BrickView<'_>,
) -> Result<Mesh, AllocError>
    ensures shows { IfOk result (IsMeshOf brick.now) }
    ensures few { IfOk result (λ made. length made.keys ≤ MAX_KEYS) }
    ensures brick { IsBrick brick.now }
{
    if have_one_sign(brick.samples()) && have_one_sign(brick.faces()) {
        return Ok(Mesh::empty(alloc));
    }
    let mut builder = scratch.begin(alloc, brick)?;
    let steps = scratch.steps(alloc, cases)?;
    let mesh = mesh_in(&mut builder, alloc, cases, steps, brick)?;
    scratch.keep(builder);
    Ok(mesh)
}

/// Returns the mesh of a brick that has lists of samples, made in a builder that was begun for it.
fn mesh_in(
    builder: &mut Builder,
    alloc: Global,
    cases: &Cases,
    steps: &CellSteps,
    brick: &BrickView<'_>,
) -> Result<Mesh, AllocError>
    requires brick { IsBrick brick.now }
    requires none { length builder.old.edges ≡ 0 }
    requires builds { Builds brick.now builder.old }
    requires holds { HoldsTriangles brick.now [] builder.old }
    ensures shows { IfOk result (IsMeshOf brick.now) }
    ensures few { IfOk result (λ made. length made.keys ≤ MAX_KEYS) }
    ensures spare { OnOk result (IsSpare builder.new) }
{
    add_cells(builder, brick, steps)?;
    add_faces(builder, brick, cases)?;
    builder.finish(alloc, brick)
}

/// Adds the triangles of the regular cells of a leaf.
fn add_cells(
    builder: &mut Builder,
    brick: &BrickView<'_>,
    steps: &CellSteps,
) -> Result<(), AllocError>
    requires builds { Builds brick.now builder.old }
    requires room { length builder.old.edges + CELLS * LAYER_KEYS ≤ MAX_KEYS }
    ensures few { OnOk result (length builder.new.edges
        ≤ length builder.old.edges + CELLS * LAYER_KEYS) }
    ensures adds { OnOk result (AddsTriangles brick.now
        (λ s. over_cells brick.now.node (regular_triangles s brick.now.node.level))
        builder.old builder.new) }
{
    let rows = leaf_rows(brick);
    for z in 0..CELLS {
        add_layer(builder, brick, steps, &rows, z)?;
    }
    Ok(())
}

/// Adds the triangles of a layer of a leaf's regular cells, by the signs of the rows of the leaf's points. A layer
/// between rows that are all empty, or all solid, has none.
#[inline(never)]
fn add_layer(
    builder: &mut Builder,
    brick: &BrickView<'_>,
    steps: &CellSteps,
    rows: &[u64],
    z: u32,
) -> Result<(), AllocError>
    requires z { z < CELLS }
    requires count { length rows.now ≡ ROWS }
    requires rows { (s : Field) → HasSamples s brick.now → (z y : ℕ) → z < POINTS → y < POINTS
        → slice_index rows.now (z * POINTS + y) ≡ line_signs s (leaf_line brick.now.node z y) }
    requires builds { Builds brick.now builder.old }
    requires room { length builder.old.edges + LAYER_KEYS ≤ MAX_KEYS }
    ensures few { OnOk result (length builder.new.edges ≤ length builder.old.edges + LAYER_KEYS) }
    ensures adds { OnOk result (AddsTriangles brick.now (λ s. joined CELLS (λ y. joined CELLS (λ x.
        regular_triangles s brick.now.node.level (cell_corner brick.now.node z y x))))
        builder.old builder.new) }
{
    let first = (z * POINTS) as usize;
    if are_plain(&rows[first..first + 2 * POINTS as usize]) {
        return Ok(());
    }
    for y in 0..CELLS {
        let row = (z * POINTS + y) as usize;
        let next = row + POINTS as usize;
        let signs = [rows[row], rows[row + 1], rows[next], rows[next + 1]];
        add_row(builder, brick, steps, signs, z, y)?;
    }
    Ok(())
}

/// Returns the signs of the rows of a leaf's points, by z, then y.
fn leaf_rows(brick: &BrickView<'_>) -> [u64; ROWS]
    ensures { (s : Field) → HasSamples s brick.now → (z y : ℕ) → z < POINTS → y < POINTS
        → slice_index result (z * POINTS + y) ≡ line_signs s (leaf_line brick.now.node z y) }
{
    let samples = brick.samples();
    let mut rows = [0; ROWS];
    for row in 0..ROWS {
        let at = row * POINTS as usize;
        rows[row] = row_signs(&samples[at..at + POINTS as usize]);
    }
    rows
}

/// Adds the triangles of a row of a leaf's regular cells, by the signs of the rows of points that bound it.
fn add_row(
    builder: &mut Builder,
    brick: &BrickView<'_>,
    steps: &CellSteps,
    rows: [u64; 4],
    z: u32,
    y: u32,
) -> Result<(), AllocError>
    requires z { z < CELLS }
    requires y { y < CELLS }
    requires rows { (s : Field) → HasSamples s brick.now → BoundCells s brick.now.node z y rows }
    requires builds { Builds brick.now builder.old }
    requires room { length builder.old.edges + ROW_KEYS ≤ MAX_KEYS }
    ensures few { OnOk result (length builder.new.edges ≤ length builder.old.edges + ROW_KEYS) }
    ensures adds { OnOk result (AddsTriangles brick.now (λ s. joined CELLS (λ x.
        regular_triangles s brick.now.node.level (cell_corner brick.now.node z y x)))
        builder.old builder.new) }
{
    let cells = surface_cells(rows);
    let mut rest = cells;
    let mut x = first_set(rest);
    while x < CELLS {
        add_cell(builder, brick, steps, rows, Point::new(x, y, z))?;
        rest = without(rest, x);
        x = first_set(rest);
    }
    Ok(())
}

/// Adds the triangles of a regular cell of a leaf, by the signs of the rows of points that bound its row.
fn add_cell(
    builder: &mut Builder,
    brick: &BrickView<'_>,
    steps: &CellSteps,
    rows: [u64; 4],
    cell: Point,
) -> Result<(), AllocError>
    requires z { cell.z < CELLS }
    requires y { cell.y < CELLS }
    requires x { cell.x < CELLS }
    requires rows { (s : Field) → HasSamples s brick.now
        → BoundCells s brick.now.node cell.z cell.y rows }
    requires builds { Builds brick.now builder.old }
    requires room { length builder.old.edges + CELL_KEYS ≤ MAX_KEYS }
    ensures few { OnOk result (length builder.new.edges ≤ length builder.old.edges + CELL_KEYS) }
    ensures adds { OnOk result (AddsTriangles brick.now
        (λ s. regular_triangles s brick.now.node.level
        (cell_corner brick.now.node cell.z cell.y cell.x)) builder.old builder.new) }
{
    keys_of_cells_are_present();
    let signs = regular_signs(rows, cell.x);
    builder.add_regular(brick, cell, steps, signs)
}

/// Adds the triangles of the transition cells of a leaf.
fn add_faces(builder: &mut Builder, brick: &BrickView<'_>, cases: &Cases) -> Result<(), AllocError>
    requires builds { Builds brick.now builder.old }
    requires room { length builder.old.edges + 6 * LAYER_KEYS ≤ MAX_KEYS }
    ensures few { OnOk result
        (length builder.new.edges ≤ length builder.old.edges + 6 * LAYER_KEYS) }
    ensures adds { OnOk result (AddsTriangles brick.now (λ s. over_rim brick.now.rim (λ face.
        over_squares brick.now.node face (transition_triangles s brick.now.node.level face)))
        builder.old builder.new) }
{
    let mut at = 0;
    for face in Face::ALL {
        if has_face(brick.rim(), face) {
            let fines = &brick.faces()[at..at + FACE_SAMPLES];
            add_face(builder, brick, cases, face, fines)?;
            at += FACE_SAMPLES;
        }
    }
    Ok(())
}

/// Adds the triangles of the transition cells on a leaf's face.
fn add_face(
    builder: &mut Builder,
    brick: &BrickView<'_>,
    cases: &Cases,
    face: Face,
    fines: &[i8],
) -> Result<(), AllocError>
    requires face { IsFace brick.now face fines.now }
    requires builds { Builds brick.now builder.old }
    requires room { length builder.old.edges + LAYER_KEYS ≤ MAX_KEYS }
    ensures few { OnOk result (length builder.new.edges ≤ length builder.old.edges + LAYER_KEYS) }
    ensures adds { OnOk result (AddsTriangles brick.now (λ s.
        over_squares brick.now.node face (transition_triangles s brick.now.node.level face))
        builder.old builder.new) }
{
    if have_one_sign(fines) {
        return Ok(());
    }
    for v in 0..CELLS {
        add_squares(builder, brick, cases, face, fines, v)?;
    }
    Ok(())
}

/// Adds the triangles of a row of transition cells on a leaf's face.
fn add_squares(
    builder: &mut Builder,
    brick: &BrickView<'_>,
    cases: &Cases,
    face: Face,
    fines: &[i8],
    v: u32,
) -> Result<(), AllocError>
    requires face { IsFace brick.now face fines.now }
    requires v { v < CELLS }
    requires builds { Builds brick.now builder.old }
    requires room { length builder.old.edges + ROW_KEYS ≤ MAX_KEYS }
    ensures few { OnOk result (length builder.new.edges ≤ length builder.old.edges + ROW_KEYS) }
    ensures adds { OnOk result (AddsTriangles brick.now (λ s. joined CELLS (λ u.
        transition_triangles s brick.now.node.level face (square_corner brick.now.node face v u)))
        builder.old builder.new) }
{
    let width = FINE_POINTS as usize;
    let at = (2 * v) as usize * width;
    let rows = [
        fine_row_signs(&fines[at..at + width]),
        fine_row_signs(&fines[at + width..at + 2 * width]),
        fine_row_signs(&fines[at + 2 * width..at + 3 * width]),
    ];
    if rows == [0; 3] || rows == [FINE_SOLID; 3] {
        return Ok(());
    }
    for u in 0..CELLS {
        add_square(builder, brick, cases, fines, rows, Square { face, v, u })?;
    }
    Ok(())
}

/// Adds the triangles of the transition cell on a square, by the signs of the rows of finer points through it.
fn add_square(
    builder: &mut Builder,
    brick: &BrickView<'_>,
    cases: &Cases,
    fines: &[i8],
    rows: [u64; 3],
    square: Square,
) -> Result<(), AllocError>
    requires face { IsFace brick.now square.face fines.now }
    requires square { IsSquare square }
    requires rows { (s : Field) → HasSamples s brick.now
        → BoundSquares s brick.now.node square.face square.v rows }
    requires builds { Builds brick.now builder.old }
    requires room { length builder.old.edges + CELL_KEYS ≤ MAX_KEYS }
    ensures few { OnOk result (length builder.new.edges ≤ length builder.old.edges + CELL_KEYS) }
    ensures adds { OnOk result (AddsTriangles brick.now
        (λ s. transition_triangles s brick.now.node.level square.face
        (square_corner brick.now.node square.face square.v square.u)) builder.old builder.new) }
{
    keys_of_cells_are_present();
    let signs = transition_signs(rows, square.u);
    if signs == 0 || signs == TRANSITION_CASES - 1 {
        return Ok(());
    }
    let triangles = cases.transition_triangles(square.face, signs);
    builder.add_transition(brick, square, fines, triangles)?;
    Ok(())
}
