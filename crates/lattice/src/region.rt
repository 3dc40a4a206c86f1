//! Regions: boxes of points.

ghost use Rattle.std.specs.Prelude.{◌≡◌, ◌↔◌, IsTrue};
ghost use Rattle.lattice.specs.Settings.{IsDepth};

use crate::point::Point;
use crate::settings::Settings;

/// A box of points, from `lo` to `hi`, both of them in it.
#[derive(Clone, Copy, Debug, PartialEq, Eq, Hash)]
pub struct Region {
    pub lo: Point,
    pub hi: Point,
}

impl Region {
    ghost use Rattle.lattice.specs.Region.{IsRegion, IsWithin, is_within};

    /// Returns whether a point is in the box.
    pub fn contains(&self, p: Point) -> bool
        ensures value { result ≡ is_within self.now p }
        ensures fact { IsTrue result ↔ IsWithin self.now p }
    {
        self.lo.z <= p.z
            && p.z <= self.hi.z
            && self.lo.y <= p.y
            && p.y <= self.hi.y
            && self.lo.x <= p.x
            && p.x <= self.hi.x
    }

    /// Returns whether the box has `lo` at most `hi` on each axis, and `hi` in the world.
    pub fn is_in_world(&self, settings: &Settings) -> bool
        requires { IsDepth settings.now.depth }
        ensures { IsTrue result ↔ IsRegion settings.now.depth self.now }
    {
        self.lo.x <= self.hi.x
            && self.lo.y <= self.hi.y
            && self.lo.z <= self.hi.z
            && self.hi.is_in_world(settings)
    }
}
