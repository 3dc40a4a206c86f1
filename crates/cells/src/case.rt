//! One sign case: the loops of a cell, and the triangles that fill them.

ghost use Rattle.std.specs.Prelude.{◌≡◌, ◌<◌};
ghost use Rattle.terrain.specs.Curves.{fan};
ghost use Rattle.terrain.specs.Cells.{regular_faces, transition_faces};
ghost use Rattle.terrain.specs.declared.cells.TheConstants.{TRANSITION_CASES};
ghost use Rattle.cells.specs.declared.edges.TheConstants.{REGULAR_EDGES, TRANSITION_EDGES};
ghost use Rattle.cells.specs.Cases.{AreLoops};

use crate::regular::regular_faces;
use crate::transition::transition_faces;
use arrayvec::ArrayVec;
use cell_laws::cells_are_closed;
use face_curves::{Loops, MAX_TRIANGLES, fan, loops};
use lattice::Face;

/// The loops of a cell, and the triangles that fill them.
#[derive(Debug, Drop)]
pub(crate) struct Case {
    pub(crate) loops: Loops,
    pub(crate) triangles: ArrayVec<[u8; 3], MAX_TRIANGLES>,
}

impl Case {
    /// Returns the case with these loops.
    pub(crate) fn new(loops: Loops) -> Case
        ensures loops { result.loops ≡ loops }
        ensures triangles { result.triangles.items ≡ fan loops }
    {
        let triangles = fan(&loops);
        Case { loops, triangles }
    }
}

/// Returns the loops of the regular cell with this sign number.
pub(crate) fn regular_loops(signs: u8) -> Loops
    ensures { AreLoops (regular_faces signs) REGULAR_EDGES result }
{
    cells_are_closed();
    loops(&regular_faces(signs.into()))
}

/// Returns the loops of the transition cell with this sign number, on the face of a leaf.
pub(crate) fn transition_loops(face: Face, signs: u16) -> Loops
    requires { signs < TRANSITION_CASES }
    ensures { AreLoops (transition_faces face signs) TRANSITION_EDGES result }
{
    cells_are_closed();
    loops(&transition_faces(face, signs))
}
