//! Points by steps from another point.

ghost use Rattle.std.specs.Prelude.{◌≡◌, ◌≤◌};
ghost use Rattle.lattice.specs.declared.settings.TheConstants.{MAX_DEPTH};
ghost use Rattle.lattice.specs.Point.{IsInWorld, point_from};

use crate::point::Point;

/// Returns the point that is so many cells of a level from another.
#[inline(always)]
pub fn point_after(from: Point, level: u8, steps: Point) -> Point
    requires level { level ≤ MAX_DEPTH }
    requires world { IsInWorld MAX_DEPTH (point_from from level steps) }
    ensures { result ≡ point_from from level steps }
{
    let side = 1 << level;
    Point {
        z: from.z + side * steps.z,
        y: from.y + side * steps.y,
        x: from.x + side * steps.x,
    }
}
