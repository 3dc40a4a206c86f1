//! Workers in threads of their own, beside other work.

ghost use Rattle.std.specs.Prelude.{◌≡◌, All, IfOk, vec_len};
ghost use Rattle.standing_workers.specs.Seats.{AreEndsOf, IsEndOf, IsSeatOf};

use crate::lanes::Lanes;
use crate::seat::Seat;
use crate::worker_end::WorkerEnd;
use crate::working::work;
use cells::Cases;
use gates::MeshGate;
use std::alloc::{AllocError, Global};
use std::mem::replace;
use std::sync::Wait;
use std::thread::{Threads, join_mut, map_vec};

/// Has each seat work in a thread of its own, does some other work beside them on the calling thread, and returns what
/// came of each seat, in their order, and what the other work returned. All threads are joined then.
///
/// The other work has to close the desk: until then no worker ends. A worker whose thread can't be started works in the
/// thread of another one, or on the calling thread after the other work, where it meets a Stop. Out of memory is the
/// only error; the other work is done all the same.
pub fn work_beside<R: Threads + Wait + Sync, G: MeshGate, F: FnMut() -> T, T>(
    rt: &R,
    alloc: Global,
    cases: &Cases,
    lanes: &Lanes,
    seats: Vec<Seat>,
    gate: &G,
    other: &mut F,
) -> (Result<Vec<WorkerEnd>, AllocError>, T)
    requires seats { All (IsSeatOf lanes.now) seats.items }
    requires other { F.pre other.old }
    ensures count { IfOk result.0 (λ ends. vec_len ends ≡ vec_len seats) }
    ensures seats { IfOk result.0 (λ ends. All (λ end. IsSeatOf lanes.now end.seat) ends.items) }
    ensures ends { IfOk result.0 (λ ends. AreEndsOf lanes.now seats.items ends.items) }
    ensures other { F.step other.old result.1 other.new }
{
    let mut left = seats;
    let mut work_in_threads = || -> Result<Vec<WorkerEnd>, AllocError>
        requires { All (IsSeatOf lanes.now) left.items }
        ensures count { IfOk result (λ ends. vec_len ends ≡ vec_len left.entry) }
        ensures seats { IfOk result (λ ends.
            All (λ end. IsSeatOf lanes.entry.now end.seat) ends.items) }
        ensures ends { IfOk result (λ ends.
            AreEndsOf lanes.entry.now left.entry.items ends.items) }
    {
        work_all(
            rt,
            alloc,
            cases,
            lanes,
            replace(&mut left, Vec::new(alloc)),
            gate,
        )
    };
    join_mut(rt, &mut work_in_threads, other)
}

/// Has each seat work in a thread of its own, and returns what came of each, in their order. Out of memory is the only
/// error.
fn work_all<R: Threads + Wait + Sync, G: MeshGate>(
    rt: &R,
    alloc: Global,
    cases: &Cases,
    lanes: &Lanes,
    seats: Vec<Seat>,
    gate: &G,
) -> Result<Vec<WorkerEnd>, AllocError>
    requires { All (IsSeatOf lanes.now) seats.items }
    ensures count { IfOk result (λ ends. vec_len ends ≡ vec_len seats) }
    ensures seats { IfOk result (λ ends. All (λ end. IsSeatOf lanes.now end.seat) ends.items) }
    ensures ends { IfOk result (λ ends. AreEndsOf lanes.now seats.items ends.items) }
{
    let ends = map_vec(
        rt,
        seats,
        &|seat: Seat| -> WorkerEnd
            requires { IsSeatOf lanes.now seat }
            ensures { IsEndOf lanes.entry.now seat result }
        { work(rt, alloc, cases, lanes, seat, gate) },
    )?;
    Ok(ends)
}
