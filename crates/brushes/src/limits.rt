//! Which brushes a world takes.

ghost use Rattle.std.specs.Prelude.{◌↔◌, IsTrue};
ghost use Rattle.lattice.specs.Settings.{IsSettings};
ghost use Rattle.terrain.specs.Brushes.{IsLawful};

use lattice::{Region, Settings};
use terrain::Brush;

/// Returns whether a world takes a brush: its points are in the world, a box's `lo` is at most `hi`
/// on each axis, a ball's radius is from 1 to the world's side, and a ground's height is at most
/// the side.
pub fn lawful(brush: &Brush, settings: &Settings) -> bool
    requires { IsSettings settings.now }
    ensures { IsTrue result ↔ IsLawful settings.now.depth brush.now }
{
    let side = settings.world_side();
    match *brush {
        Brush::Cuboid { lo, hi, .. } | Brush::Smooth { lo, hi } => {
            Region { lo, hi }.is_in_world(settings)
        }
        Brush::Ball { at, r, .. } => at.is_in_world(settings) && 1 <= r && r <= side,
        Brush::Ground { h, .. } => h <= side,
    }
}
