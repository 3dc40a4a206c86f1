//! Heights in whole units.

ghost use Rattle.std.specs.Prelude.{◌≡◌, ◌*◌, ◌/◌, ◌<◌, ◌≤◌, ◌^◌};
ghost use Rattle.lattice.specs.Settings.{world_side};
ghost use Rattle.lattice.specs.declared.point.TheConstants.{UNITS};
ghost use Rattle.snapshots.specs.Frame.{IsSound};
ghost use Rattle.frame_surface.specs.Surface.{surface_after};
ghost use Rattle.frame_surface.specs.Tops.{height_over};

use crate::hit::Hit;
use crate::laws::{surfaces_stand_over_their_nodes, triangles_lie_in_their_leaf};
use crate::picking::pick;
use lattice::nodes_in_order;
use snapshots::Frame;

/// Returns how high the frame's surface is over the place (x, y), in units of 1/256 fine cell and rounded down; `None`
/// where no triangle covers any height there. It is the height of `pick`, and takes no memory.
pub fn height_over(frame: &Frame, x: u32, y: u32) -> Option<u32>
    requires sound { IsSound frame.now }
    requires x { x ≤ UNITS * world_side frame.now.settings.depth }
    requires y { y ≤ UNITS * world_side frame.now.settings.depth }
    ensures { result ≡ height_over frame.now.settings.depth
        (surface_after frame.now.settings frame.now.events) x y }
{
    nodes_in_order();
    surfaces_stand_over_their_nodes();
    triangles_lie_in_their_leaf();
    match pick(frame, x, y) {
        Some(hit) => Some(whole_units(hit)),
        None => None,
    }
}

/// Returns the height of a hit, rounded down.
fn whole_units(hit: Hit) -> u32
    requires some { 1 ≤ hit.den }
    requires fits { hit.num / hit.den < 2 ^ 32 }
    ensures whole { result ≡ hit.num / hit.den }
    ensures few { hit.triangle < 2 ^ 32 }
{
    (hit.num / hit.den) as u32
}
