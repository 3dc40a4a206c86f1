//! The nodes of a level that are near enough to a viewpoint to be wanted split.

ghost use Rattle.std.specs.Prelude.{◌≡◌, ℕ, ◌<◌, ◌≤◌, ◌↔◌, IsTrue, option_to_list};
ghost use Rattle.std.specs.Option.{ForSome};
ghost use Rattle.lattice.specs.Point.{IsInWorld};
ghost use Rattle.lattice.specs.Settings.{IsSettings, world_side};
ghost use Rattle.lattice.specs.Node.{nodes_across};
ghost use Rattle.octree.specs.Viewpoints.{AreInWorld, points_in};
ghost use Rattle.octree.specs.WantedNodes.{IsAmong, IsNear, IsWantedBox, WantSame};

use crate::indices::{Indices, NodeBox};
use crate::viewpoints::Viewpoints;
use lattice::{Point, Settings, node_side, nodes_across};
use terrain::MAX_VIEWS;

/// Returns whether viewpoints want the same nodes split at each level as others, number by number.
pub(crate) fn want_same(settings: &Settings, before: &Viewpoints, after: &Viewpoints) -> bool
    requires settings { IsSettings settings.now }
    requires before { AreInWorld settings.now.depth before.now }
    requires after { AreInWorld settings.now.depth after.now }
    ensures { IsTrue result
        → WantSame settings.now (points_in before.now) (points_in after.now) }
{
    for view in 0..MAX_VIEWS {
        if !wants_same(settings, before.places[view], after.places[view]) {
            return false;
        }
    }
    true
}

/// Returns whether one camera, or none, wants the same nodes split at each level as another. Each wants a box of nodes.
fn wants_same(settings: &Settings, a: Option<Point>, b: Option<Point>) -> bool
    requires settings { IsSettings settings.now }
    requires a { ForSome a (IsInWorld settings.now.depth) }
    requires b { ForSome b (IsInWorld settings.now.depth) }
    ensures { IsTrue result → WantSame settings.now (option_to_list a) (option_to_list b) }
{
    if a == b {
        return true;
    }
    for level in 1..settings.depth + 1 {
        if wanted_box(settings, level, a) != wanted_box(settings, level, b) {
            return false;
        }
    }
    true
}

/// Returns the box of the nodes of a level that are wanted split for a camera; without one it is empty.
pub(crate) fn wanted_box(settings: &Settings, level: u8, camera: Option<Point>) -> NodeBox
    requires settings { IsSettings settings.now }
    requires camera { ForSome camera (IsInWorld settings.now.depth) }
    requires low { 1 ≤ level }
    requires high { level ≤ settings.now.depth }
    ensures { IsWantedBox settings.now level camera result }
{
    let Some(at) = camera else {
        let none = Indices { low: 0, end: 0 };
        return NodeBox {
            ks: none,
            js: none,
            is: none,
        };
    };
    NodeBox {
        ks: near_indices(settings, level, at.z),
        js: near_indices(settings, level, at.y),
        is: near_indices(settings, level, at.x),
    }
}

/// Returns the indices, on one axis, of the nodes of a level that are near enough to a camera with this coordinate.
pub(crate) fn near_indices(settings: &Settings, level: u8, camera: u32) -> Indices
    requires settings { IsSettings settings.now }
    requires level { level ≤ settings.now.depth }
    requires camera { camera ≤ world_side settings.now.depth }
    ensures within { result.end ≤ nodes_across settings.now.depth level }
    ensures near { (index : ℕ) → index < nodes_across settings.now.depth level
        → IsAmong result index ↔ IsNear settings.now level camera index }
{
    if settings.reach == 0 {
        return Indices { low: 0, end: 0 };
    }
    let side = node_side(level);
    let reach = u32::from(settings.reach) * side;
    let low = (2 * camera).saturating_sub(reach) / (2 * side);
    let end = (2 * camera + reach).div_ceil(2 * side);
    Indices {
        low,
        end: end.min(nodes_across(settings.depth, level)),
    }
}
