//! The calls for jobs, by which a game meshes on threads of its own.

ghost use Rattle.std.specs.Prelude.{◌≡◌, ◌≢◌, MatchOption, None, Some};
ghost use Rattle.mesh_board.specs.Board.{state_of};
ghost use Rattle.mesh_board.specs.LeafStates.{wanted};
ghost use Rattle.lattice.specs.declared.node.Node.{Node as NodeOf};
ghost use Rattle.terra_c.specs.Held.{OnWorld, job_in, job_of, made_in};
ghost use Rattle.terra_c.specs.Jobs.{HandsIn, MakesJob, Recalls, TakesJob};

use crate::handle::TerraHandle;
use crate::held::Held;
use crate::holding::{boxed, put, take};
use crate::status::{DONE, NO_MEMORY, NOT_HELD, NOTHING, STALE};
use std::alloc::Global;
use std::mem::replace;
use terra_world::{Done, GameWorld, Verdict};

/// Takes the next wanted brick of a world as a job, which `job` holds then in the place of what it held. There is none
/// where no leaf is wanted. Any other answer than `DONE` leaves both as they were.
#[unsafe(no_mangle)]
pub extern "C" fn terra_take(alloc: Global, world: &mut TerraHandle, job: &mut TerraHandle) -> u8
    ensures taken { OnWorld (TakesJob job.old.held job.new.held)
        world.old.held world.new.held result }
    ensures job { result ≡ NOT_HELD → job.new.held ≡ job.old.held }
{
    let Some(mut held) = take(alloc, world) else {
        return NOT_HELD;
    };
    let status = take_job(alloc, &mut held, job);
    put(alloc, world, held);
    status
}

/// Takes the next wanted brick of a world that is held.
fn take_job(alloc: Global, held: &mut Held, job: &mut TerraHandle) -> u8
    ensures taken { OnWorld (TakesJob job.old.held job.new.held)
        (Some held.old) (Some held.new) result }
    ensures job { result ≡ NOT_HELD → job.new.held ≡ job.old.held }
{
    let Held::World(world) = held else {
        return NOT_HELD;
    };
    if world.wants_nothing() {
        return NOTHING;
    }
    // The room for the job comes first: a leaf that is out without one would be lost.
    let Ok(mut room) = boxed(alloc, Held::Empty) else {
        return NO_MEMORY;
    };
    let status = take_into(alloc, world, &mut room);
    if status == DONE {
        put(alloc, job, room);
        return status;
    }
    drop(room);
    status
}

/// Takes the next wanted brick of a world, of which there is one, as a job into this room.
fn take_into(alloc: Global, world: &mut GameWorld, room: &mut Held) -> u8
    requires { ((n : NodeOf) → state_of world.old.board n ≢ wanted) → ⊥ }
    ensures { TakesJob (Some room.old) (Some room.new) world.old world.new result }
{
    match world.take(alloc) {
        Ok(Some(taken)) => {
            room.set(Held::Job(taken));
            DONE
        }
        Ok(None) => NOTHING,
        Err(_) => NO_MEMORY,
    }
}

/// Makes the mesh of a job, in any thread and without its world. Where memory runs out the job is as it was, and can be
/// made again.
#[unsafe(no_mangle)]
pub extern "C" fn terra_make(alloc: Global, job: &mut TerraHandle) -> u8
    ensures { MatchOption (job_in job.old.held)
        ((job.new.held ≡ job.old.held) × (result ≡ NOT_HELD))
        (λ brick. MakesJob brick job.old.held job.new.held result) }
{
    let Some(mut held) = take(alloc, job) else {
        return NOT_HELD;
    };
    let (made, status) = make(alloc, replace(&mut *held, Held::Empty));
    held.set(made);
    put(alloc, job, held);
    status
}

/// Makes the mesh of a job, if this is one.
fn make(alloc: Global, held: Held) -> (Held, u8)
    ensures { MatchOption (job_of held)
        ((result.0 ≡ held) × (result.1 ≡ NOT_HELD))
        (λ brick. MakesJob brick (Some held) (Some result.0) result.1) }
{
    match held {
        Held::Job(job) => match job.make(alloc) {
            Ok(done) => (Held::Made(done), DONE),
            Err(job) => (Held::Job(job), NO_MEMORY),
        },
        other => (other, NOT_HELD),
    }
}

/// Hands a job that was made in to a world, which keeps its mesh where its brick is the present one of a leaf. The job
/// holds nothing then. It may come late or never, and of another world.
#[unsafe(no_mangle)]
pub extern "C" fn terra_deliver(alloc: Global, world: &mut TerraHandle, job: &mut TerraHandle) -> u8
    ensures handed { OnWorld (HandsIn job.old.held job.new.held)
        world.old.held world.new.held result }
    ensures job { result ≡ NOT_HELD → job.new.held ≡ job.old.held }
{
    let Some(mut held) = take(alloc, world) else {
        return NOT_HELD;
    };
    let status = deliver(alloc, &mut held, job);
    put(alloc, world, held);
    status
}

/// Hands a job in to a world that is held.
fn deliver(alloc: Global, held: &mut Held, job: &mut TerraHandle) -> u8
    ensures handed { OnWorld (HandsIn job.old.held job.new.held)
        (Some held.old) (Some held.new) result }
    ensures job { result ≡ NOT_HELD → job.new.held ≡ job.old.held }
{
    let Held::World(world) = held else {
        return NOT_HELD;
    };
    match take_made(alloc, job) {
        Some(done) => match world.deliver(done) {
            Verdict::Kept => DONE,
            Verdict::Stale => STALE,
        },
        None => NOT_HELD,
    }
}

/// Takes the block out of a job that was made, which holds nothing then. Any other handle stays as it is.
fn take_made(alloc: Global, job: &mut TerraHandle) -> Option<Done>
    ensures { MatchOption result
        ((made_in job.old.held ≡ None) × (job.new.held ≡ job.old.held))
        (λ done. (made_in job.old.held ≡ Some done) × (job.new.held ≡ None)) }
{
    let Some(mut held) = take(alloc, job) else {
        return None;
    };
    match held.take_made() {
        Some(done) => {
            drop(held);
            Some(done)
        }
        None => {
            put(alloc, job, held);
            None
        }
    }
}

/// Asks anew for all leaves that are out, so that jobs which never come back do no harm.
#[unsafe(no_mangle)]
pub extern "C" fn terra_recall(alloc: Global, world: &mut TerraHandle) -> u8
    ensures { OnWorld Recalls world.old.held world.new.held result }
{
    let Some(mut held) = take(alloc, world) else {
        return NOT_HELD;
    };
    let status = recall(&mut held);
    put(alloc, world, held);
    status
}

/// Asks anew for all leaves of a world that is held which are out.
fn recall(held: &mut Held) -> u8
    ensures { OnWorld Recalls (Some held.old) (Some held.new) result }
{
    let Held::World(world) = held else {
        return NOT_HELD;
    };
    world.recall();
    DONE
}
