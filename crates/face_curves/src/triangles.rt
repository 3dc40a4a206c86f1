//! The triangles that fill loops.

ghost use Rattle.std.specs.Prelude.{◌≡◌, ◌+◌, ◌-◌, ◌≤◌, ◌++◌, length};
ghost use Rattle.face_curves.specs.declared.triangles.TheConstants.{MAX_TRIANGLES};
ghost use Rattle.terrain.specs.Curves.{HaveSameNet, fan, fan_of, all_edges};

use crate::loop_list::Loops;
use arrayvec::ArrayVec;

/// How many triangles fill the loops of a cell at most.
pub const MAX_TRIANGLES: usize = 14;

/// Returns the triangles that fill the loops, loop by loop: from the first key of a loop to each two neighbours after
/// it.
///
/// A triangle is its three keys, counter-clockwise as seen from the empty side.
pub fn fan(loops: &Loops) -> ArrayVec<[u8; 3], MAX_TRIANGLES>
    ensures exact { result.items ≡ fan loops.now }
    ensures net { HaveSameNet (all_edges result.items) (all_edges loops.now) }
{
    let mut triangles = ArrayVec::new();
    for index in 0..loops.len() {
        push_fan(&mut triangles, loops.keys_of(index));
    }
    triangles
}

/// Appends the triangles of one loop.
fn push_fan(triangles: &mut ArrayVec<[u8; 3], MAX_TRIANGLES>, keys: &[u8])
    requires { length triangles.old.items + (length keys.now - 2) ≤ MAX_TRIANGLES }
    ensures { triangles.new.items ≡ triangles.old.items ++ fan_of keys.now }
{
    for i in 2..keys.len() {
        triangles.push([keys[0], keys[i - 1], keys[i]]);
    }
}
