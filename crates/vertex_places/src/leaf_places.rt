//! Where the vertices of a leaf's edges lie.

ghost use Rattle.std.specs.Prelude.{◌≡◌, ◌+◌, ◌<◌, false, IsTrue, unsigned_abs};
ghost use Rattle.lattice.specs.declared.settings.TheConstants.{MAX_DEPTH};
ghost use Rattle.lattice.specs.Key.{IsKey};
ghost use Rattle.lattice.specs.Node.{IsNode};
ghost use Rattle.terrain.specs.Blocks.{place};
ghost use Rattle.terrain.specs.Levels.{IsBalanced, LevelMap};
ghost use Rattle.terrain.specs.Samples.{Field, IsSample};
ghost use Rattle.vertex_places.specs.declared.leaf_rim.LeafRim.{LeafRim as LeafRimOf};
ghost use Rattle.vertex_places.specs.LeafEdges.{AreEndSamples, IsCoarse, IsLeafEdge, key_of};
ghost use Rattle.vertex_places.specs.Moves.{IsLeafOf};
ghost use Rattle.vertex_places.specs.Places.{AreStill};

use crate::leaf_edge::LeafEdge;
use crate::moves::{Moves, fine_points_stay};
use crate::places::{End, position, still_position};
use lattice::{Key, Pos};

/// Returns where the vertex of an edge of a leaf lies, by the leaf's moves. `key` is the edge's key.
#[inline(always)]
pub fn edge_position(moves: &Moves, edge: &LeafEdge, key: &Key) -> Pos
    requires node { IsNode MAX_DEPTH moves.now.node }
    requires edge { IsLeafEdge moves.now.node edge.now }
    requires key { key.now ≡ key_of moves.now.node edge.now }
    ensures { (s : Field) (m : LevelMap) → IsBalanced moves.now.depth m → IsLeafOf m moves.now
        → AreEndSamples s key.now edge.now.near edge.now.far
        → result ≡ place moves.now.depth s m key.now }
{
    if is_still(moves, edge) {
        return still_position(key, edge.near, edge.far);
    }
    let at = edge.at();
    let end = at.moved(edge.axis, 1);
    let near = End {
        by: moves.at(at.z, at.y, at.x),
        sample: edge.near,
    };
    let far = End {
        by: moves.at(end.z, end.y, end.x),
        sample: edge.far,
    };
    position(key, &near, &far)
}

/// Returns where the vertex of an edge of a leaf lies whose rim is empty, so that no point moves. `key` is the edge's
/// key.
#[inline(always)]
pub fn unmoved_position(edge: &LeafEdge, key: &Key) -> Pos
    requires key { IsKey MAX_DEPTH key.now }
    requires near { IsSample edge.now.near }
    requires far { IsSample edge.now.far }
    requires some { 0 < unsigned_abs edge.now.near + unsigned_abs edge.now.far }
    ensures { (leaf : LeafRimOf) (s : Field) (m : LevelMap) → leaf.rim ≡ 0
        → IsLeafEdge leaf.node edge.now → key.now ≡ key_of leaf.node edge.now
        → IsBalanced leaf.depth m → IsLeafOf m leaf
        → AreEndSamples s key.now edge.now.near edge.now.far
        → result ≡ place leaf.depth s m key.now }
{
    fine_points_stay();
    still_position(key, edge.near, edge.far)
}

/// Returns whether neither end of an edge of a leaf moves, as far as the leaf's rim tells.
#[inline(always)]
fn is_still(moves: &Moves, edge: &LeafEdge) -> bool
    requires { IsLeafEdge moves.now.node edge.now }
    ensures still { IsTrue result → (m : LevelMap) → IsBalanced moves.now.depth m
        → IsLeafOf m moves.now
        → AreStill moves.now.depth m (key_of moves.now.node edge.now) }
    ensures coarse { result ≡ false → IsCoarse moves.now.node edge.now }
{
    fine_points_stay();
    !moves.may_move(edge.level) || moves.have_still(edge.at(), edge.axis)
}
