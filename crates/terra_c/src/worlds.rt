//! The calls for a game's world: it is opened, edited, meshed and brought up to date.

ghost use Rattle.std.specs.Prelude.{◌≡◌, None, Some};
ghost use Rattle.terra_c.specs.Held.{OnWorld};
ghost use Rattle.terra_c.specs.Shapes.{point_of_c};
ghost use Rattle.terra_c.specs.Worlds.{Applies, Edits, Opens, Settles, Updates};
ghost use Rattle.terra_world.specs.Game.{GameState};
ghost use Rattle.terrain.specs.declared.event.Event.TheVariants.{Away, Camera, Undo};

use crate::handle::TerraHandle;
use crate::held::Held;
use crate::holding::{boxed, put, take};
use crate::shapes::{TerraBrush, TerraPoint};
use crate::status::{
    BAD_SETTINGS, DONE, FULL, NO_MEMORY, NOT_HELD, NOT_LAWFUL, NOT_READY, NOTHING_TO_UNDO,
};
use std::alloc::Global;
use terra_world::{Event, GameWorld, MAX_DEPTH, MAX_REACH, NotUpdated, Refused, Settings};

/// Makes a world of this depth (0 to 6) and reach (0 to 8), before any event, in the place of what the handle holds.
/// Anything but `DONE` leaves the handle as it was.
#[unsafe(no_mangle)]
pub extern "C" fn terra_open(alloc: Global, world: &mut TerraHandle, depth: u8, reach: u8) -> u8
    ensures { Opens (record { depth = depth; reach = reach }) world.old.held world.new.held result }
{
    if depth > MAX_DEPTH || reach > MAX_REACH {
        return BAD_SETTINGS;
    }
    let Ok(game) = GameWorld::open(alloc, Settings { depth, reach }) else {
        return NO_MEMORY;
    };
    match boxed(alloc, Held::World(game)) {
        Ok(held) => {
            put(alloc, world, held);
            DONE
        }
        Err(_) => NO_MEMORY,
    }
}

/// Frees what a handle holds: a world, a job or a frame. The handle holds nothing then.
#[unsafe(no_mangle)]
pub extern "C" fn terra_close(alloc: Global, handle: &mut TerraHandle)
    ensures { handle.new.held ≡ None }
{
    drop(take(alloc, handle));
}

/// Applies a brush to a world.
#[unsafe(no_mangle)]
pub extern "C" fn terra_edit(alloc: Global, world: &mut TerraHandle, brush: &TerraBrush) -> u8
    ensures { OnWorld (Edits brush.now) world.old.held world.new.held result }
{
    let Some(mut held) = take(alloc, world) else {
        return NOT_HELD;
    };
    let status = edit(alloc, &mut held, brush);
    put(alloc, world, held);
    status
}

/// Applies a brush to a world that is held.
fn edit(alloc: Global, held: &mut Held, brush: &TerraBrush) -> u8
    ensures { OnWorld (Edits brush.now) (Some held.old) (Some held.new) result }
{
    let Held::World(world) = held else {
        return NOT_HELD;
    };
    match brush.brush() {
        Some(brush) => apply(alloc, world, Event::Edit(brush)),
        None => NOT_LAWFUL,
    }
}

/// Puts the viewpoint 0 of a world at a point: the camera of a game that has one.
#[unsafe(no_mangle)]
pub extern "C" fn terra_look_from(alloc: Global, world: &mut TerraHandle, at: &TerraPoint) -> u8
    ensures { OnWorld (Applies (Camera 0 (point_of_c at.now)))
        world.old.held world.new.held result }
{
    let at = at.point();
    apply_to(alloc, world, Event::Camera { view: 0, at })
}

/// Puts a viewpoint of a world at a point.
#[unsafe(no_mangle)]
pub extern "C" fn terra_view_from(
    alloc: Global,
    world: &mut TerraHandle,
    view: u8,
    at: &TerraPoint,
) -> u8
    ensures { OnWorld (Applies (Camera view (point_of_c at.now)))
        world.old.held world.new.held result }
{
    let at = at.point();
    apply_to(alloc, world, Event::Camera { view, at })
}

/// Takes a viewpoint of a world away.
#[unsafe(no_mangle)]
pub extern "C" fn terra_view_away(alloc: Global, world: &mut TerraHandle, view: u8) -> u8
    ensures { OnWorld (Applies (Away view)) world.old.held world.new.held result }
{
    apply_to(alloc, world, Event::Away { view })
}

/// Takes the last edit of a world that is in force out of force. What it changed is as if it had never been made.
#[unsafe(no_mangle)]
pub extern "C" fn terra_undo(alloc: Global, world: &mut TerraHandle) -> u8
    ensures { OnWorld (Applies Undo) world.old.held world.new.held result }
{
    apply_to(alloc, world, Event::Undo)
}

/// Adds an event to what a handle holds, if that is a world.
fn apply_to(alloc: Global, world: &mut TerraHandle, event: Event) -> u8
    ensures { OnWorld (Applies event) world.old.held world.new.held result }
{
    let Some(mut held) = take(alloc, world) else {
        return NOT_HELD;
    };
    let status = apply_held(alloc, &mut held, event);
    put(alloc, world, held);
    status
}

/// Adds an event to a world that is held.
fn apply_held(alloc: Global, held: &mut Held, event: Event) -> u8
    ensures { OnWorld (Applies event) (Some held.old) (Some held.new) result }
{
    match held {
        Held::World(world) => apply(alloc, world, event),
        _ => NOT_HELD,
    }
}

/// Adds an event to a world.
fn apply(alloc: Global, world: &mut GameWorld, event: Event) -> u8
    ensures { Applies event world.old world.new result }
{
    match world.apply(alloc, event) {
        Ok(()) => DONE,
        Err(Refused::NotLawful) => NOT_LAWFUL,
        Err(Refused::Full) => FULL,
        Err(Refused::NothingToUndo) => NOTHING_TO_UNDO,
        Err(Refused::NoMemory) => NO_MEMORY,
    }
}

/// Meshes all leaves of a world on the calling thread, those that are out too.
#[unsafe(no_mangle)]
pub extern "C" fn terra_settle(alloc: Global, world: &mut TerraHandle) -> u8
    ensures { OnWorld Settles world.old.held world.new.held result }
{
    let Some(mut held) = take(alloc, world) else {
        return NOT_HELD;
    };
    let status = settle(alloc, &mut held);
    put(alloc, world, held);
    status
}

/// Meshes all leaves of a world that is held.
fn settle(alloc: Global, held: &mut Held) -> u8
    ensures { OnWorld Settles (Some held.old) (Some held.new) result }
{
    let Held::World(world) = held else {
        return NOT_HELD;
    };
    match world.settle(alloc) {
        Ok(()) => DONE,
        Err(_) => NO_MEMORY,
    }
}

/// Brings the frame of a world up to date, where every leaf is meshed.
#[unsafe(no_mangle)]
pub extern "C" fn terra_update(alloc: Global, world: &mut TerraHandle) -> u8
    ensures { OnWorld Updates world.old.held world.new.held result }
{
    let Some(mut held) = take(alloc, world) else {
        return NOT_HELD;
    };
    let status = update(alloc, &mut held);
    put(alloc, world, held);
    status
}

/// Brings the frame of a world that is held up to date.
fn update(alloc: Global, held: &mut Held) -> u8
    ensures { OnWorld Updates (Some held.old) (Some held.new) result }
{
    let Held::World(world) = held else {
        return NOT_HELD;
    };
    match world.update(alloc) {
        Ok(()) => DONE,
        Err(NotUpdated::NotReady) => NOT_READY,
        Err(NotUpdated::NoMemory) => NO_MEMORY,
    }
}
