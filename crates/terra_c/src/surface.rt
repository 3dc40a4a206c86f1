//! What a game asks of a frame's surface.

ghost use Rattle.std.specs.Prelude.{◌≡◌, MatchOption};
ghost use Rattle.terra_c.specs.Held.{frame_in};
ghost use Rattle.terra_c.specs.Surface.{Picks};

use crate::handle::TerraHandle;
use crate::holding::{put, read, take};
use crate::shapes::TerraHit;
use crate::status::{DONE, NO_SURFACE, NOT_HELD, NOT_LAWFUL};
use std::alloc::Global;
use terra_world::{Snapshot, UNITS};

/// Tells the highest point of a frame's surface over the place (x, y), in 1/256 fine cells, and the first triangle that
/// has it, of a frame as `terra_vertices`.
#[unsafe(no_mangle)]
pub extern "C" fn terra_pick(
    alloc: Global,
    of: &mut TerraHandle,
    x: u32,
    y: u32,
    hit: &mut TerraHit,
) -> u8
    ensures held { of.new.held ≡ of.old.held }
    ensures told { MatchOption (frame_in of.old.held)
        ((result ≡ NOT_HELD) × (hit.new ≡ hit.old))
        (λ frame. Picks frame x y hit.old hit.new result) }
{
    read!(alloc, of.frame(), |frame| pick_at(frame, x, y, hit))
}

/// Tells the highest point over a place.
fn pick_at(frame: &Snapshot, x: u32, y: u32, hit: &mut TerraHit) -> u8
    ensures { Picks frame.now x y hit.old hit.new result }
{
    let side = UNITS * frame.settings().world_side();
    if x > side || y > side {
        return NOT_LAWFUL;
    }
    match frame.pick(x, y) {
        Some(found) => {
            *hit = TerraHit::of(found);
            DONE
        }
        None => NO_SURFACE,
    }
}
