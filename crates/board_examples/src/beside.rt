//! Workers in threads of their own, while the calling thread feeds and settles.

ghost use Rattle.std.specs.Prelude.{◌≡◌, [], ◌∷◌, IfOk};
ghost use Rattle.standing_workers.specs.Desks.{IsDeskOf, IsOpen};
ghost use Rattle.standing_workers.specs.Seats.{IsSeatOf};

use crate::accounts::{Calls, SMALL, mesh_by_workers, see_low};
use crate::asserts::{expect, expect_made};
use cells::Cases;
use mesh_jobs::Board;
use standing_workers::{Desk, Lanes, NoGate, Seat, Tally, WorkerEnd, work};
use std::alloc::{AllocError, Global};
use std::process::Abort;
use std::sync::Wait;
use std::thread::{Threads, join};

/// Returns a list with one worker's end.
fn one(alloc: Global, end: WorkerEnd) -> Result<Vec<WorkerEnd>, AllocError>
    ensures { IfOk result (λ ends. ends.items ≡ end ∷ []) }
{
    let mut ends = Vec::new(alloc);
    ends.push(end)?;
    Ok(ends)
}

/// Has a seat work, and returns what came of it.
fn work_alone<R: Wait>(rt: &R, alloc: Global, cases: &Cases, lanes: &Lanes, seat: Seat) -> WorkerEnd
    requires { IsSeatOf lanes.now seat }
    ensures { IsSeatOf lanes.now result.seat }
{
    work(rt, alloc, cases, lanes, seat, &NoGate)
}

/// Feeds and settles a board beside one worker in a thread of its own, and returns the worker's end, the desk, and
/// whether the board is settled.
fn settle_beside<R: Threads + Wait + Sync>(
    rt: &R,
    alloc: Global,
    cases: &Cases,
    lanes: &Lanes,
    desk: Desk,
    seat: Seat,
    board: &mut Board,
) -> (WorkerEnd, Desk, bool)
    requires desk { IsDeskOf lanes.now desk }
    requires is_open { IsOpen desk }
    requires seat { IsSeatOf lanes.now seat }
    ensures seat { IsSeatOf lanes.now result.0.seat }
    ensures desk { IsDeskOf lanes.now result.1 }
    ensures seats { result.1.seats ≡ desk.seats }
{
    let (end, (desk, is_settled)) = join(
        rt,
        move ||
            requires { IsSeatOf lanes.now seat }
            ensures { IsSeatOf lanes.entry.now result.seat }
        { work_alone(rt, alloc, cases, lanes, seat) },
        ||
            requires { IsDeskOf lanes.now desk × IsOpen desk }
            ensures { IsDeskOf lanes.entry.now result.0 × (result.0.seats ≡ desk.seats) }
        { mesh_by_workers(rt, alloc, cases, lanes, desk, board, Calls::FeedAndSettle) },
    );
    (end, desk, is_settled)
}

/// Returns the tally of the work of one worker, from its end.
fn tally_of_one(
    alloc: Global,
    lanes: Lanes,
    desk: Desk,
    end: WorkerEnd,
) -> Result<Tally, AllocError>
    requires desk { IsDeskOf lanes desk }
    requires seat { IsSeatOf lanes end.seat }
    requires seats { desk.seats ≡ 1 }
{
    let ends = one(alloc, end)?;
    Ok(desk.tally(ends, lanes))
}

/// Feeds and settles a board before any event beside one worker, and returns whether it is ready then, and whether the
/// tally counts all that the worker did.
fn tally_beside<R: Threads + Wait + Sync + Abort>(
    rt: &R,
    alloc: Global,
    cases: &Cases,
    board: &mut Board,
) -> bool {
    see_low(rt, alloc, board);
    let (lanes, desk, mut seats) = expect_made(rt, Lanes::new(alloc, 1));
    let Some(seat) = seats.pop() else {
        return false;
    };
    let (end, desk, is_settled) = settle_beside(rt, alloc, cases, &lanes, desk, seat, board);
    let popped = end.popped;
    let tally = expect_made(rt, tally_of_one(alloc, lanes, desk, end));
    is_settled && board.ready() && tally.issued == 15 && popped <= 15
}

/// Has one seat work in a thread of its own beside the engine, and returns whether the board is ready then, and whether
/// the tally counts all that the worker did.
fn play_beside<R: Threads + Wait + Sync + Abort>(rt: &R, alloc: Global) -> bool {
    let cases = expect_made(rt, Cases::new(alloc));
    let mut board = expect_made(rt, Board::new(alloc, &cases, SMALL));
    let found = tally_beside(rt, alloc, &cases, &mut board);
    drop((cases, board));
    found
}

#[test]
fn a_worker_in_a_thread_ends_at_its_stop(rt: HostRuntime) {
    let found = play_beside(&rt, rt.alloc());
    expect(&rt, "beside a worker", found, true);
}
