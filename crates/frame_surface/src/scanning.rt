//! The scan of the triangles of a leaf for the best hit over a place.

ghost use Rattle.std.specs.Prelude.{◌≡◌, [], ◌∷◌, ◌+◌, ◌*◌, ◌<◌, ◌≤◌, ◌^◌, ℕ, All, IfSome, IsTrue, false, length, map, slice_index_or};
ghost use Rattle.block_mesh.specs.Mesh.{IsMesh};
ghost use Rattle.terrain.specs.MeshLists.{lists_of};
ghost use Rattle.frame_surface.specs.Heights.{Covers, IsAtMost, IsHeight};
ghost use Rattle.frame_surface.specs.Scan.{IsBestBefore, IsSmallHit, ShowsSurface, origin};
ghost use Rattle.frame_surface.specs.Surface.{Surface};
ghost use Rattle.frame_surface.specs.Turns.{IsSmallPos, IsSpot};

use crate::corners::{is_beside, top};
use crate::height::Height;
use crate::hit::Hit;
use crate::spot::Spot;
use block_mesh::BlockView;
use lattice::{Node, Pos};

/// Returns the best of a hit, which is the best among all triangles before those of a node, and of the node's
/// triangles, which a mesh lists.
pub(crate) fn scan(view: BlockView<'_>, node: Node, at: Spot, best: Option<Hit>) -> Option<Hit>
    requires at { IsSpot at }
    requires mesh { IsMesh (lists_of view) }
    requires near { All IsSmallPos view.positions.now }
    requires few { length view.triangles.now < 2 ^ 32 }
    requires small { IfSome best IsSmallHit }
    ensures best { (s : Surface) → ShowsSurface s node (lists_of view.entry)
        → IsBestBefore s at.x at.y node 0 best
        → IsBestBefore s at.x at.y node (length view.entry.triangles.now) result }
    ensures small { IfSome result IsSmallHit }
{
    let mut best = best;
    for (number, places) in view.triangles.iter().enumerate() {
        best = scan_triangle(view.positions, *places, node, number as u32, at, best);
    }
    best
}

/// Returns the best of a hit, which is the best among all triangles before one, and of this one, which lists its
/// corners by their places among positions.
#[inline(always)]
fn scan_triangle(
    positions: &[Pos],
    places: [u32; 3],
    node: Node,
    number: u32,
    at: Spot,
    best: Option<Hit>,
) -> Option<Hit>
    requires at { IsSpot at }
    requires places { All (λ place. place < length positions.now) places }
    requires near { All IsSmallPos positions.now }
    requires small { IfSome best IsSmallHit }
    ensures best { (s : Surface)
        → s node number ≡ map (λ place. slice_index_or positions.now place origin) places
        → IsBestBefore s at.x at.y node number best
        → IsBestBefore s at.x at.y node (number + 1) result }
    ensures small { IfSome result IsSmallHit }
{
    let Corners { p, q, r } = corners_at(positions, places);
    if is_beside(p.x, q.x, r.x, at.x) || is_beside(p.y, q.y, r.y, at.y) {
        return best;
    }
    better(best, node, number, top(p, q, r, at))
}

/// The corners of a triangle.
#[derive(Clone, Copy)]
struct Corners {
    p: Pos,
    q: Pos,
    r: Pos,
}

/// Returns where the corners of a triangle lie.
#[inline(always)]
fn corners_at(positions: &[Pos], places: [u32; 3]) -> Corners
    requires places { All (λ place. place < length positions.now) places }
    requires near { All IsSmallPos positions.now }
    ensures corners { result.p ∷ result.q ∷ result.r ∷ []
        ≡ map (λ place. slice_index_or positions.now place origin) places }
    ensures p { IsSmallPos result.p }
    ensures q { IsSmallPos result.q }
    ensures r { IsSmallPos result.r }
{
    let [p, q, r] = places;
    Corners {
        p: positions[p as usize],
        q: positions[q as usize],
        r: positions[r as usize],
    }
}

/// Returns the better of a hit, which is the best among all triangles before one, and of the greatest height that this
/// one covers. Where both are equal it is the first.
fn better(best: Option<Hit>, node: Node, triangle: u32, top: Option<Height>) -> Option<Hit>
    requires small { IfSome best IsSmallHit }
    requires top { IfSome top IsHeight }
    ensures best { (s : Surface) (x y : ℕ)
        → IfSome top (λ h. Covers (s node triangle) x y h.num h.den)
        → ((n d : ℕ) → Covers (s node triangle) x y n d → IsAtMost n d top)
        → IsBestBefore s x y node triangle best
        → IsBestBefore s x y node (triangle + 1) result }
    ensures small { IfSome result IsSmallHit }
{
    let Some(top) = top else {
        return best;
    };
    let hit = Hit {
        node,
        triangle,
        num: top.num.into(),
        den: top.den.into(),
    };
    let Some(old) = best else {
        return Some(hit);
    };
    if is_higher(hit, old) { Some(hit) } else { best }
}

/// Returns whether a hit is higher than another.
fn is_higher(hit: Hit, old: Hit) -> bool
    requires hit { IsSmallHit hit }
    requires old { IsSmallHit old }
    ensures above { IsTrue result → old.num * hit.den < hit.num * old.den }
    ensures below { result ≡ false → hit.num * old.den ≤ old.num * hit.den }
{
    old.num * hit.den < hit.num * old.den
}
