//! Watchers in threads of their own, beside other work.

ghost use Rattle.std.specs.Prelude.{◌≡◌, ◌*◌, ◌<◌, ◌^◌, All, IfOk, length, vec_len};
ghost use Rattle.snapshots.specs.Frame.{IsSound};
ghost use Rattle.watchers.specs.Looks.{IsClean, IsReport};

use crate::watching::{Report, Watched, look_on, watch};
use audits::Counts;
use gates::MeshGate;
use published_frames::{PlainDoor, Viewer};
use snapshots::Frame;
use std::alloc::{AllocError, Global};
use std::mem::replace;
use std::thread::{Threads, join_mut, map_vec};

/// A viewer that watches, and its number.
#[derive(Drop)]
struct Watcher {
    viewer: Viewer,
    number: u8,
}

/// Has each viewer watch in a thread of its own, through a door of its own, does some work beside them on the calling
/// thread, and returns what each watcher tells, in the order of viewers, and what the work returned. All threads are
/// joined then.
///
/// The gate is told of each look. The watchers' numbers count up from 0 in the order of viewers, and stop at 255.
///
/// A watcher whose thread can't be started watches in the thread of another one, or on the calling thread after the
/// work. Out of memory is the only error; the work is done all the same.
pub fn watch_beside<R: Threads + Sync, G: MeshGate, F: FnMut() -> T, T>(
    rt: &R,
    alloc: Global,
    viewers: Vec<Viewer>,
    looks: u32,
    gate: &G,
    work: &mut F,
) -> (Result<Vec<Report>, AllocError>, T)
    requires work { F.pre work.old }
    ensures watchers { IfOk result.0 (λ told. vec_len told ≡ vec_len viewers) }
    ensures watched { IfOk result.0 (λ told. All (IsReport looks) told.items) }
    ensures work { F.step work.old result.1 work.new }
{
    if viewers.is_empty() {
        return (Ok(Vec::new(alloc)), work());
    }
    let mut seated = viewers;
    let mut watch_in_threads = || -> Result<Vec<Report>, AllocError>
        ensures watchers { IfOk result (λ told. vec_len told ≡ vec_len seated.entry) }
        ensures watched { IfOk result (λ told. All (IsReport looks) told.items) }
    {
        watch_all(
            rt,
            alloc,
            replace(&mut seated, Vec::new(alloc)),
            looks,
            gate,
        )
    };
    join_mut(rt, &mut watch_in_threads, work)
}

/// Has each viewer watch in a thread of its own, and returns what each tells. Out of memory is the only error.
fn watch_all<R: Threads + Sync, G: MeshGate>(
    rt: &R,
    alloc: Global,
    viewers: Vec<Viewer>,
    looks: u32,
    gate: &G,
) -> Result<Vec<Report>, AllocError>
    ensures watchers { IfOk result (λ told. vec_len told ≡ vec_len viewers) }
    ensures watched { IfOk result (λ told. All (IsReport looks) told.items) }
{
    let watchers = numbered(alloc, viewers)?;
    let told = map_vec(
        rt,
        watchers,
        &|watcher| watch_freely(alloc, watcher, looks, gate),
    )?;
    all_or_error(alloc, told, looks)
}

/// Returns the watchers with these viewers, with their numbers. Out of memory is the only error.
fn numbered(alloc: Global, viewers: Vec<Viewer>) -> Result<Vec<Watcher>, AllocError>
    ensures { IfOk result (λ watchers. vec_len watchers ≡ vec_len viewers) }
{
    let mut watchers = Vec::with_capacity(alloc, viewers.len())?;
    let mut number: u8 = 0;
    for viewer in viewers {
        watchers.push(Watcher { viewer, number })?;
        number = number.saturating_add(1);
    }
    Ok(watchers)
}

/// Has a viewer watch through a door of its own that refuses only where no place is left.
fn watch_freely<G: MeshGate>(
    alloc: Global,
    watcher: Watcher,
    looks: u32,
    gate: &G,
) -> Result<Report, AllocError>
    ensures { IfOk result (IsReport looks) }
{
    let Watcher { viewer, number } = watcher;
    let mut door = PlainDoor::new();
    let watched = watch(alloc, viewer, &mut door, looks, number, gate)?;
    Ok(Report { watched, door })
}

/// Returns what each watcher tells, or the first error. Out of memory is the only error.
fn all_or_error(
    alloc: Global,
    told: Vec<Result<Report, AllocError>>,
    looks: u32,
) -> Result<Vec<Report>, AllocError>
    requires { All (λ one. IfOk one (IsReport looks)) told.items }
    ensures watchers { IfOk result (λ all. vec_len all ≡ vec_len told) }
    ensures watched { IfOk result (λ all. All (IsReport looks) all.items) }
{
    let mut all = Vec::with_capacity(alloc, told.len())?;
    for one in told {
        if all.push(one?).is_err() {
            return Err(AllocError);
        }
    }
    Ok(all)
}

/// Makes the looks that watchers left, at one frame, and returns what the looks of all of them counted. The gate is
/// told of each look that is made, in the place of its watcher. Out of memory is the only error.
pub fn look_for_all<G: MeshGate>(
    alloc: Global,
    told: &[Report],
    looks: u32,
    frame: &Frame,
    gate: &G,
) -> Result<Counts, AllocError>
    requires room { length told.now * looks < 2 ^ 32 }
    requires each { All (IsReport looks) told.now }
    requires sound { IsSound frame.now }
    ensures looks { IfOk result (λ counts. counts.looks ≡ length told.now * looks) }
    ensures clean { IfOk result IsClean }
{
    let mut all = Counts::new();
    let mut number: u8 = 0;
    for one in told {
        let Watched { counts, left } = one.watched;
        all = all.and(counts.and(look_on(alloc, frame, left, number, gate)?));
        number = number.saturating_add(1);
    }
    Ok(all)
}
