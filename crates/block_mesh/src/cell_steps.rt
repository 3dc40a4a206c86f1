//! The triangles of regular cells, by where the builder keeps the edges of a leaf's cells.
//!
//! The table of these edges has a slot for each, and the slots of a cell's edges are that of its first one and a step,
//! which is the same in all cells. So each corner of a triangle is kept by its edge's step, for each sign number: then
//! the slot of an edge takes one addition, where a look-up of its number's step would come first.

ghost use Rattle.std.specs.Prelude.{◌≡◌, ◌<◌, ◌≤◌, IfOk, length, map};
ghost use Rattle.std.specs.List.{AllByRecursion};
ghost use Rattle.cells.specs.declared.edges.TheConstants.{REGULAR_EDGES};
ghost use Rattle.cells.specs.Edges.{regular_edge};
ghost use Rattle.face_curves.specs.declared.triangles.TheConstants.{MAX_TRIANGLES};
ghost use Rattle.terrain.specs.Cells.{regular_faces, triangles_of};
ghost use Rattle.terrain.specs.declared.cells.TheConstants.{REGULAR_CASES};
ghost use Rattle.block_mesh.specs.KeyTable.{edge_step};
ghost use Rattle.block_mesh.specs.CellSteps.{HaveTriangleSteps, HasTriangleSteps, number_step, triangle_steps};

use arrayvec::ArrayVec;
use cells::{Cases, REGULAR_EDGES};
use face_curves::MAX_TRIANGLES;
use std::alloc::{AllocError, Global};
use std::marker::Model;
use terrain::REGULAR_CASES;

/// For each edge of a cell how much further its slot among the edges of a leaf is than that of the cell's first edge.
const EDGE_STEPS: [u16; REGULAR_EDGES] = [0, 1, 2, 4, 5, 51, 53, 56, 867, 868, 871, 918];

/// The triangles of a regular cell, by the steps of their edges.
#[derive(Drop)]
pub(crate) struct Triangles {
    pub(crate) steps: ArrayVec<[u16; 3], MAX_TRIANGLES>,
}

/// The triangles of the regular cell of each sign number, by the steps of their edges.
pub(crate) struct CellSteps {
    triangles: Vec<Triangles>,
}

impl Model for CellSteps {
    ghost use Rattle.std.specs.Prelude.{⊤};
    ghost use Rattle.block_mesh.specs.CellSteps.{HaveTriangleSteps};
    ghost use Rattle.terrain.specs.declared.cells.TheConstants.{REGULAR_CASES};

    ghost Value = { ⊤ };

    ghost view = { λ _. tt };

    ghost invariant = { λ cells. HaveTriangleSteps REGULAR_CASES cells.triangles.items };
}

// Written out, since a derived drop is proved anew at each way out that drops it.
impl Drop for CellSteps {
    fn drop(self) {
        let Self {
            triangles: _triangles,
        } = self;
    }
}

impl CellSteps {
    /// Returns the triangles of all regular cells. Out of memory is the only error.
    pub(crate) fn new(alloc: Global, cases: &Cases) -> Result<CellSteps, AllocError> {
        Ok(CellSteps {
            triangles: all_triangles(alloc, cases)?,
        })
    }

    /// Returns those of the regular cell of a sign number.
    #[inline(always)]
    pub(crate) fn of(&self, signs: u8) -> &[[u16; 3]]
        ensures steps { result.now ≡ triangle_steps signs }
        ensures few { length result.now ≤ MAX_TRIANGLES }
        ensures edges { AllByRecursion (AllByRecursion (λ edge. edge < REGULAR_EDGES))
            (triangles_of (regular_faces signs)) }
    {
        &self.cell(signs).steps
    }

    /// Returns the triangles of the regular cell of a sign number.
    #[inline(always)]
    fn cell(&self, signs: u8) -> &Triangles
        ensures { HasTriangleSteps signs result.now }
    {
        &self.triangles[usize::from(signs)]
    }
}

/// Returns the triangles of all regular cells, by sign numbers.
fn all_triangles(alloc: Global, cases: &Cases) -> Result<Vec<Triangles>, AllocError>
    ensures { IfOk result (λ made. HaveTriangleSteps REGULAR_CASES made.items) }
{
    let mut made = Vec::with_capacity(alloc, REGULAR_CASES.into())?;
    for signs in 0..REGULAR_CASES {
        made.push(triangles_by_steps(cases.regular_triangles(signs as u8)))?;
    }
    Ok(made)
}

/// Returns triangles by the steps of their edges.
fn triangles_by_steps(triangles: &[[u8; 3]]) -> Triangles
    requires few { length triangles.now ≤ MAX_TRIANGLES }
    requires edges { AllByRecursion (AllByRecursion (λ edge. edge < REGULAR_EDGES)) triangles.now }
    ensures { result.steps.items ≡ map (map number_step) triangles.now }
{
    let mut steps = ArrayVec::new();
    for triangle in triangles {
        steps.push(steps_of(triangle));
    }
    Triangles { steps }
}

/// Returns the steps of a triangle's edges.
fn steps_of(triangle: &[u8; 3]) -> [u16; 3]
    requires { AllByRecursion (λ edge. edge < REGULAR_EDGES) triangle.now }
    ensures { result ≡ map number_step triangle.now }
{
    let [a, b, c] = *triangle;
    [edge_step(a), edge_step(b), edge_step(c)]
}

/// Returns how much further among the edges of a leaf's cells an edge of a cell is than the cell's first edge.
fn edge_step(number: u8) -> u16
    requires { number < REGULAR_EDGES }
    ensures { result ≡ edge_step (regular_edge number) }
{
    EDGE_STEPS[usize::from(number)]
}
