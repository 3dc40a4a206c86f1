//! The bytes of events.

ghost use Rattle.std.specs.Prelude.{◌≡◌, ◌∷◌, ◌++◌, ◌^◌, ◌<◌, OnErr, OnOk};
ghost use Rattle.mesh_out.specs.Writing.{Writes};
ghost use Rattle.replicas.specs.Fits.{FitsEvent, FitsPoint};
ghost use Rattle.replicas.specs.Grammar.{event_bytes, mode_byte, point_bytes, two};
ghost use Rattle.patch_wire.specs.Putting.{CutsOff};

use crate::batch::Batch;
use crate::fields::{mode_byte, point_bytes};
use lattice::Point;
use terra_io::{Failed, Sink};
use terrain::{Brush, Event, Mode};

/// Puts an event into a batch.
#[tactic(auto, unfolding(replicas::specs::Grammar::event_fields))]
pub(crate) fn put_event<K: Sink>(
    batch: &mut Batch,
    sink: &mut K,
    event: &Event,
) -> Result<(), Failed>
    requires { FitsEvent event.now }
    ensures held { OnOk result (Writes (K.state sink.old) (K.state sink.new)
        (batch.old ++ event_bytes event.now) batch.new) }
    ensures stopped { OnErr result (CutsOff (K.state sink.old) (K.state sink.new)
        (batch.old ++ event_bytes event.now)) }
{
    match *event {
        Event::Edit(Brush::Cuboid { mode, lo, hi }) => batch.put(sink, &cuboid_bytes(mode, lo, hi)),
        Event::Edit(Brush::Ball { mode, at, r }) => batch.put(sink, &ball_bytes(mode, at, r)),
        Event::Edit(Brush::Ground { mode, h }) => batch.put(sink, &ground_bytes(mode, h)),
        Event::Edit(Brush::Smooth { lo, hi }) => batch.put(sink, &smooth_bytes(lo, hi)),
        Event::Camera { view, at } => batch.put(sink, &camera_bytes(view, at)),
        Event::Away { view } => batch.put(sink, &[5, view]),
        Event::Undo => batch.put(sink, &[6]),
    }
}

/// Returns the bytes of a cuboid.
fn cuboid_bytes(mode: Mode, lo: Point, hi: Point) -> [u8; 14]
    requires lo { FitsPoint lo }
    requires hi { FitsPoint hi }
    ensures { result ≡ 0 ∷ mode_byte mode ∷ point_bytes lo ++ point_bytes hi }
{
    let [lx0, lx1, ly0, ly1, lz0, lz1] = point_bytes(lo);
    let [hx0, hx1, hy0, hy1, hz0, hz1] = point_bytes(hi);
    [
        0,
        mode_byte(mode),
        lx0,
        lx1,
        ly0,
        ly1,
        lz0,
        lz1,
        hx0,
        hx1,
        hy0,
        hy1,
        hz0,
        hz1,
    ]
}

/// Returns the bytes of a ball.
#[tactic(auto, unfolding(replicas::specs::Grammar::two))]
fn ball_bytes(mode: Mode, at: Point, r: u32) -> [u8; 10]
    requires at { FitsPoint at }
    requires r { r < 2 ^ 16 }
    ensures { result ≡ 1 ∷ mode_byte mode ∷ point_bytes at ++ two r }
{
    let [x0, x1, y0, y1, z0, z1] = point_bytes(at);
    let [r0, r1] = (r as u16).to_le_bytes();
    [1, mode_byte(mode), x0, x1, y0, y1, z0, z1, r0, r1]
}

/// Returns the bytes of a ground.
#[tactic(auto, unfolding(replicas::specs::Grammar::two))]
fn ground_bytes(mode: Mode, h: u32) -> [u8; 4]
    requires { h < 2 ^ 16 }
    ensures { result ≡ 2 ∷ mode_byte mode ∷ two h }
{
    let [h0, h1] = (h as u16).to_le_bytes();
    [2, mode_byte(mode), h0, h1]
}

/// Returns the bytes of a smoothing.
fn smooth_bytes(lo: Point, hi: Point) -> [u8; 13]
    requires lo { FitsPoint lo }
    requires hi { FitsPoint hi }
    ensures { result ≡ 3 ∷ point_bytes lo ++ point_bytes hi }
{
    let [lx0, lx1, ly0, ly1, lz0, lz1] = point_bytes(lo);
    let [hx0, hx1, hy0, hy1, hz0, hz1] = point_bytes(hi);
    [
        3, lx0, lx1, ly0, ly1, lz0, lz1, hx0, hx1, hy0, hy1, hz0, hz1,
    ]
}

/// Returns the bytes of a camera.
fn camera_bytes(view: u8, at: Point) -> [u8; 8]
    requires { FitsPoint at }
    ensures { result ≡ 4 ∷ view ∷ point_bytes at }
{
    let [x0, x1, y0, y1, z0, z1] = point_bytes(at);
    [4, view, x0, x1, y0, y1, z0, z1]
}
