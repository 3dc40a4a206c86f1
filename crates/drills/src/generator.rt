//! The generator of a drill.
//!
//! A linear congruential generator of 32 bits, with the constants of a textbook: anyone can compute a drill's commands
//! anew, in any language. A number below a count is taken from the high bits of a state, since the low ones repeat
//! soon. Each event takes seven states, also where its kind needs fewer, so that the kinds don't shift what comes
//! later.

ghost use Rattle.std.specs.Prelude.{◌≡◌, ◌+◌, ◌<◌, ◌≤◌, ◌^◌};
ghost use Rattle.lattice.specs.Settings.{IsDepth, world_side};
ghost use Rattle.lattice.specs.Point.{IsInWorld};
ghost use Rattle.terrain.specs.History.{IsLawfulEvent};
ghost use Rattle.drills.specs.Drill.{after_draws, event_draws, event_from, far_corner, mode_from, next_state, picked, picked_point, point_draws};

use lattice::{Point, Settings};
use terrain::{Brush, Event, Mode};

/// What a state is multiplied by for the next one (Press et al., Numerical Recipes, 1992).
pub const MULTIPLIER: u32 = 1664525;

/// What is added to that for the next state (the same source).
pub const INCREMENT: u32 = 1013904223;

/// Kinds of events: a box, a ball, smoothing, a camera.
pub const KINDS: u32 = 4;

/// The greatest extent of an edit, in fine cells.
pub const MAX_EXTENT: u32 = 8;

/// A linear congruential generator. Its first state is the seed.
#[derive(Debug, Drop)]
pub struct Generator {
    pub state: u32,
}

impl Generator {
    /// Returns the next state.
    fn draw(&mut self) -> u32
        ensures value { result ≡ next_state self.old.state }
        ensures state { self.new.state ≡ result }
    {
        let product = self.state as u64 * MULTIPLIER as u64 + INCREMENT as u64;
        self.state = (product % (1 << 32)) as u32;
        self.state
    }

    /// Returns a number below a count, by the next state.
    pub fn pick(&mut self, count: u32) -> u32
        requires { 0 < count }
        ensures value { result ≡ picked count self.new.state }
        ensures below { result < count }
        ensures state { self.new.state ≡ next_state self.old.state }
    {
        (self.draw() as u64 * count as u64 / (1 << 32)) as u32
    }

    /// Returns whether a brush fills or carves, by the next state.
    fn mode(&mut self) -> Mode
        ensures value { result ≡ mode_from self.new.state }
        ensures state { self.new.state ≡ next_state self.old.state }
    {
        match self.pick(2) {
            0 => Mode::Fill,
            _ => Mode::Carve,
        }
    }

    /// Returns a point of a world, by the next three states.
    fn point(&mut self, settings: &Settings) -> Point
        requires { IsDepth settings.now.depth }
        ensures value { result ≡ picked_point settings.now.depth self.old.state }
        ensures inside { IsInWorld settings.now.depth result }
        ensures state { self.new.state ≡ after_draws point_draws self.old.state }
    {
        let count = settings.world_side() + 1;
        let x = self.pick(count);
        let y = self.pick(count);
        let z = self.pick(count);
        Point { z, y, x }
    }

    /// Returns an event of a world, by the next seven states; the last of them is for nothing.
    pub(crate) fn event(&mut self, settings: &Settings) -> Event
        requires { IsDepth settings.now.depth }
        ensures value { result ≡ event_from settings.now.depth self.old.state }
        ensures lawful { IsLawfulEvent settings.now.depth result }
        ensures state { self.new.state ≡ after_draws event_draws self.old.state }
    {
        let kind = self.pick(KINDS);
        let mode = self.mode();
        let at = self.point(settings);
        let extent = self.pick(MAX_EXTENT) + 1;
        let _ = self.draw();
        let far = far_corner(settings, at, extent);
        match kind {
            0 => Event::Edit(Brush::Cuboid {
                mode,
                lo: at,
                hi: far,
            }),
            1 => Event::Edit(Brush::Ball {
                mode,
                at,
                r: extent,
            }),
            2 => Event::Edit(Brush::Smooth { lo: at, hi: far }),
            _ => Event::Camera { view: 0, at },
        }
    }
}

/// Returns the point that is an extent further on each axis, but no further than the world's end.
fn far_corner(settings: &Settings, at: Point, extent: u32) -> Point
    requires depth { IsDepth settings.now.depth }
    requires at { IsInWorld settings.now.depth at }
    requires extent { extent ≤ MAX_EXTENT }
    ensures { result ≡ far_corner settings.now.depth at extent }
{
    let side = settings.world_side();
    Point {
        z: (at.z + extent).min(side),
        y: (at.y + extent).min(side),
        x: (at.x + extent).min(side),
    }
}
