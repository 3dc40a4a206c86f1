//! The loops of a cell.

ghost use Rattle.std.specs.Prelude.{◌≡◌, ◌<◌, ◌≤◌, length};
ghost use Rattle.std.specs.List.{AllByRecursion};
ghost use Rattle.face_curves.specs.declared.loop_list.TheConstants.{KEYS};
ghost use Rattle.terrain.specs.Curves.{IsClosed, AreOrbits, HaveSameNet, cell_curves, curve_edges, loops, fan, all_edges};

use crate::followers::Followers;
use crate::loop_list::{KEYS, Loops};
use crate::polygon::Faces;

/// Returns the loops of a cell with these faces: each orbit of "the end of the curve that starts here" once, listed
/// from its least key, by rising least key.
pub fn loops(faces: &Faces) -> Loops
    requires { IsClosed faces.now.items }
    ensures exact { result ≡ loops faces.now.items }
    ensures orbits { AreOrbits (cell_curves faces.now.items) result }
    // The triangles that fill the loops leave open just the curves.
    ensures net { HaveSameNet (all_edges (fan result)) (curve_edges (cell_curves faces.now.items)) }
    ensures three { AllByRecursion (λ keys. 3 ≤ length keys) result }
    ensures below { AllByRecursion (λ keys. AllByRecursion (λ key. key < KEYS) keys) result }
{
    let followers = Followers::new(faces);
    let mut loops = Loops::new();
    for key in 0..KEYS as u8 {
        if let Some(keys) = followers.loop_from(key) {
            loops.push(&keys);
        }
    }
    loops
}
