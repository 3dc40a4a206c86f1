//! What a game asks of the surface that its viewers see.

ghost use Rattle.std.specs.Prelude.{◌≡◌, ◌*◌, ◌≤◌, IfNone, IfSome};
ghost use Rattle.lattice.specs.Key.{IsKey};
ghost use Rattle.lattice.specs.Settings.{world_side};
ghost use Rattle.lattice.specs.declared.point.TheConstants.{UNITS};
ghost use Rattle.snapshots.specs.Frame.{FrameState};
ghost use Rattle.surface_normals.specs.Normals.{normal_of};
ghost use Rattle.frame_surface.specs.Best.{IsBare, IsEarliest, IsHighest, IsReached};
ghost use Rattle.frame_surface.specs.Surface.{surface_after};
ghost use Rattle.terrain.specs.History.{sample};

use frame_surface::{Hit, Normal, normal, pick};
use lattice::Key;
use published_frames::Entered;

/// What has a surface to ask of, as the frame that a viewer has entered: it stays as it is while the world is edited.
pub trait Surface {
    // The frame whose surface it is.
    ghost frame_of: { Self → FrameState };

    /// Returns the normal of a key of the frame's world, from the samples round the key's ends. The key has this one
    /// normal in whichever blocks it is. It is meant to lead to where samples rise, so to the empty side, and may be 0;
    /// its length tells nothing.
    fn normal(&self, key: Key) -> Normal
        requires { IsKey (frame_of self.now).settings.depth key }
        ensures { let frame = frame_of self.now in
            result ≡ normal_of frame.settings.depth (sample frame.settings frame.events) key };

    /// Returns the highest point of the frame's surface over the place (x, y), in units of 1/256 fine cell, and the
    /// first triangle that has it; `None` where no triangle covers any height there. It takes no memory.
    fn pick(&self, x: u32, y: u32) -> Option<Hit>
        requires x { x ≤ UNITS * world_side (frame_of self.now).settings.depth }
        requires y { y ≤ UNITS * world_side (frame_of self.now).settings.depth }
        ensures reached { let frame = frame_of self.now in IfSome result
            (IsReached (surface_after frame.settings frame.events) x y) }
        ensures highest { let frame = frame_of self.now in IfSome result
            (IsHighest (surface_after frame.settings frame.events) x y) }
        ensures first { let frame = frame_of self.now in IfSome result
            (IsEarliest (surface_after frame.settings frame.events) x y) }
        ensures none { let frame = frame_of self.now in IfNone result
            (IsBare (surface_after frame.settings frame.events) x y) };
}

impl Surface for Entered {
    ghost frame_of = { λ entered. entered.frame };

    fn normal(&self, key: Key) -> Normal {
        normal(self.frame(), key)
    }

    fn pick(&self, x: u32, y: u32) -> Option<Hit> {
        pick(self.frame(), x, y)
    }
}
