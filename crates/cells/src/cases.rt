//! The loops and triangles of each sign case.

ghost use Rattle.std.specs.Prelude.{◌≡◌, ◌<◌, ◌≤◌, length, IfOk};
ghost use Rattle.std.specs.List.{AllByRecursion};
ghost use Rattle.terrain.specs.Curves.{HaveSameNet, cell_curves, curve_edges, loops, fan, all_edges};
ghost use Rattle.terrain.specs.Cells.{regular_faces, transition_faces, triangles_of};
ghost use Rattle.terrain.specs.declared.cells.TheConstants.{REGULAR_CASES, TRANSITION_CASES};
ghost use Rattle.face_curves.specs.declared.triangles.TheConstants.{MAX_TRIANGLES};
ghost use Rattle.cells.specs.declared.edges.TheConstants.{REGULAR_EDGES, TRANSITION_EDGES};
ghost use Rattle.cells.specs.Cases.{IsCase, AreCases};

use crate::case::{Case, regular_loops, transition_loops};
use crate::transition::is_straight;
use face_curves::Loops;
use lattice::Face;
use std::alloc::{AllocError, Global};
use std::marker::Model;
use terrain::{REGULAR_CASES, TRANSITION_CASES};

/// The loops and triangles of each sign case of regular and transition cells.
///
/// The loops of a transition cell depend on the turn of its face alone, so there is a table for each turn.
#[derive(Debug)]
pub struct Cases {
    regular: Vec<Case>,
    straight: Vec<Case>,
    reversed: Vec<Case>,
}

impl Model for Cases {
    ghost use Rattle.std.specs.Prelude.{⊤};

    ghost Value = { ⊤ };

    ghost use Rattle.cells.specs.Cases.{AreTables};

    ghost view = { λ _. tt };

    ghost invariant = { λ cases. AreTables cases.regular.items cases.straight.items
        cases.reversed.items };
}

// Written out, since a derived drop is proved anew in each crate that drops the tables.
impl Drop for Cases {
    fn drop(self) {
        let Self {
            regular: _regular,
            straight: _straight,
            reversed: _reversed,
        } = self;
    }
}

impl Cases {
    /// Returns the cases, each traced once, or an error when out of memory.
    pub fn new(alloc: Global) -> Result<Cases, AllocError> {
        Ok(Cases {
            regular: regular_cases(alloc)?,
            straight: transition_cases(alloc, Face::XHigh)?,
            reversed: transition_cases(alloc, Face::XLow)?,
        })
    }

    /// Returns the loops of the regular cell of which corner x + 2 y + 4 z is solid where that bit of `signs` is set.
    ///
    /// A key is the number of its edge, as in `regular_edge`. The cell is traced at each call; `regular_ref` lends what
    /// was traced before.
    pub fn regular(&self, signs: u8) -> Loops
        ensures exact { result ≡ loops (regular_faces signs) }
        // The triangles that fill the loops leave open just the curves of the cell's faces.
        ensures net { HaveSameNet (all_edges (fan result))
            (curve_edges (cell_curves (regular_faces signs))) }
        ensures three { AllByRecursion (λ keys. 3 ≤ length keys) result }
        ensures below { AllByRecursion (AllByRecursion (λ key. key < REGULAR_EDGES)) result }
        ensures triangles { AllByRecursion (AllByRecursion (λ key. key < REGULAR_EDGES))
            (fan result) }
    {
        regular_loops(signs)
    }

    /// Returns the loops of the transition cell on the face of a leaf of which fine point a + 3 b is solid where that
    /// bit of `signs` is set, a along the lower axis of the face and b along the higher one.
    ///
    /// A key is the number of its edge, as in `transition_edge`. The cell is traced at each call; `transition_ref`
    /// lends what was traced before.
    pub fn transition(&self, face: Face, signs: u16) -> Loops
        requires { signs < TRANSITION_CASES }
        ensures exact { result ≡ loops (transition_faces face signs) }
        ensures net { HaveSameNet (all_edges (fan result))
            (curve_edges (cell_curves (transition_faces face signs))) }
        ensures three { AllByRecursion (λ keys. 3 ≤ length keys) result }
        ensures below { AllByRecursion (AllByRecursion (λ key. key < TRANSITION_EDGES)) result }
        ensures triangles { AllByRecursion (AllByRecursion (λ key. key < TRANSITION_EDGES))
            (fan result) }
    {
        transition_loops(face, signs)
    }

    /// Returns a reference to the loops that `regular` returns.
    pub fn regular_ref(&self, signs: u8) -> &Loops
        ensures exact { result.now ≡ loops (regular_faces signs) }
        ensures net { HaveSameNet (all_edges (fan result.now))
            (curve_edges (cell_curves (regular_faces signs))) }
        ensures three { AllByRecursion (λ keys. 3 ≤ length keys) result.now }
        ensures below { AllByRecursion (AllByRecursion (λ key. key < REGULAR_EDGES)) result.now }
        ensures triangles { AllByRecursion (AllByRecursion (λ key. key < REGULAR_EDGES))
            (fan result.now) }
    {
        &self.regular_case(signs).loops
    }

    /// Returns a reference to the loops that `transition` returns.
    pub fn transition_ref(&self, face: Face, signs: u16) -> &Loops
        requires { signs < TRANSITION_CASES }
        ensures exact { result.now ≡ loops (transition_faces face signs) }
        ensures net { HaveSameNet (all_edges (fan result.now))
            (curve_edges (cell_curves (transition_faces face signs))) }
        ensures three { AllByRecursion (λ keys. 3 ≤ length keys) result.now }
        ensures below { AllByRecursion (AllByRecursion (λ key. key < TRANSITION_EDGES)) result.now }
        ensures triangles { AllByRecursion (AllByRecursion (λ key. key < TRANSITION_EDGES))
            (fan result.now) }
    {
        &self.transition_case(face, signs).loops
    }

    /// Returns the triangles that fill the loops of `regular_ref`.
    pub fn regular_triangles(&self, signs: u8) -> &[[u8; 3]]
        ensures exact { result.now ≡ triangles_of (regular_faces signs) }
        ensures below { AllByRecursion (AllByRecursion (λ key. key < REGULAR_EDGES)) result.now }
        ensures few { length result.now ≤ MAX_TRIANGLES }
    {
        &self.regular_case(signs).triangles
    }

    /// Returns the triangles that fill the loops of `transition_ref`.
    pub fn transition_triangles(&self, face: Face, signs: u16) -> &[[u8; 3]]
        requires { signs < TRANSITION_CASES }
        ensures exact { result.now ≡ triangles_of (transition_faces face signs) }
        ensures below { AllByRecursion (AllByRecursion (λ key. key < TRANSITION_EDGES)) result.now }
        ensures few { length result.now ≤ MAX_TRIANGLES }
    {
        &self.transition_case(face, signs).triangles
    }

    /// Returns the case of the regular cell with this sign number.
    fn regular_case(&self, signs: u8) -> &Case
        ensures { IsCase (regular_faces signs) REGULAR_EDGES result.now }
    {
        &self.regular[usize::from(signs)]
    }

    /// Returns the case of the transition cell with this sign number, on the face of a leaf.
    fn transition_case(&self, face: Face, signs: u16) -> &Case
        requires { signs < TRANSITION_CASES }
        ensures { IsCase (transition_faces face signs) TRANSITION_EDGES result.now }
    {
        if is_straight(face) {
            &self.straight[usize::from(signs)]
        } else {
            &self.reversed[usize::from(signs)]
        }
    }
}

/// Returns the cases of all regular cells.
fn regular_cases(alloc: Global) -> Result<Vec<Case>, AllocError>
    ensures { IfOk result (λ cases. AreCases regular_faces REGULAR_EDGES REGULAR_CASES
        cases.items) }
{
    let mut cases = Vec::with_capacity(alloc, REGULAR_CASES.into())?;
    for signs in 0..REGULAR_CASES {
        cases.push(Case::new(regular_loops(signs as u8)))?;
    }
    Ok(cases)
}

/// Returns the cases of all transition cells on the face of a leaf.
fn transition_cases(alloc: Global, face: Face) -> Result<Vec<Case>, AllocError>
    ensures { IfOk result (λ cases. AreCases (transition_faces face) TRANSITION_EDGES
        TRANSITION_CASES cases.items) }
{
    let mut cases = Vec::with_capacity(alloc, TRANSITION_CASES.into())?;
    for signs in 0..TRANSITION_CASES {
        cases.push(Case::new(transition_loops(face, signs)))?;
    }
    Ok(cases)
}
