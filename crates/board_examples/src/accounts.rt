//! The accounts of work, where one seat after another works on the calling thread once the desk is closed.

ghost use Rattle.std.specs.Prelude.{◌≡◌, ◌≤◌, All, IfOk, vec_len};
ghost use Rattle.standing_workers.specs.Desks.{IsDeskOf, IsOpen};
ghost use Rattle.standing_workers.specs.Seats.{IsSeatOf};

use crate::asserts::{expect, expect_made};
use crate::events::{SEE_LOW, apply};
use cells::Cases;
use lattice::Settings;
use mesh_jobs::{Board, Mesher};
use standing_workers::{Desk, Lanes, NoGate, Seat, Standing, Tally, WorkerEnd, work};
use std::alloc::{AllocError, Global};
use std::process::Abort;
use std::sync::Wait;
use std::thread::Threads;

/// The world of depth 2 whose levels are chosen near the camera alone.
pub(crate) const SMALL: Settings = Settings { depth: 2, reach: 1 };

/// What the mesher is asked for before the desk is closed.
#[derive(Clone, Copy, Debug)]
pub(crate) enum Calls {
    Nothing,
    Feed,
    FeedAndSettle,
}

/// What came of it: whether the board is ready, what the workers counted, and the tally.
#[derive(Clone, Copy, Debug, PartialEq, Eq)]
struct Played {
    is_ready: bool,
    counted: Counted,
    tally: Tally,
}

/// How many jobs workers popped, made and lost.
#[derive(Clone, Copy, Debug, PartialEq, Eq)]
struct Counted {
    popped: u64,
    made: u64,
    lost: u64,
}

/// Returns what workers counted together.
fn counted_by(ends: &[WorkerEnd]) -> Counted {
    let mut all = NOTHING;
    for end in ends {
        all.popped = all.popped.saturating_add(end.popped);
        all.made = all.made.saturating_add(end.made);
        all.lost = all.lost.saturating_add(end.lost);
    }
    all
}

/// Makes the calls on the board of the small world after a first camera, closes the desk, has each seat work, and
/// returns what came of it.
fn play<R: Threads + Wait + Sync + Abort>(
    rt: &R,
    alloc: Global,
    workers: u8,
    calls: Calls,
) -> Played
    requires { workers ≤ 16 }
{
    let cases = expect_made(rt, Cases::new(alloc));
    let mut board = expect_made(rt, Board::new(alloc, &cases, SMALL));
    let played = play_on(rt, alloc, &cases, &mut board, workers, calls);
    drop((cases, board));
    played
}

/// Applies a first camera to the board of the small world, which has 15 leaves then.
pub(crate) fn see_low(rt: &impl Abort, alloc: Global, board: &mut Board) {
    let is_lawful = expect_made(rt, apply(alloc, board, SEE_LOW));
    expect(rt, "a first camera", is_lawful, true);
}

/// Does the same on a board before any event.
fn play_on<R: Threads + Wait + Sync + Abort>(
    rt: &R,
    alloc: Global,
    cases: &Cases,
    board: &mut Board,
    workers: u8,
    calls: Calls,
) -> Played
    requires { workers ≤ 16 }
{
    see_low(rt, alloc, board);
    let (lanes, desk, seats) = expect_made(rt, Lanes::new(alloc, workers));
    let (desk, is_made) = mesh_by_workers(rt, alloc, cases, &lanes, desk, board, calls);
    let is_ready = is_made && board.ready();
    let ends = expect_made(rt, work_in_turn(rt, alloc, cases, &lanes, seats));
    let counted = counted_by(&ends);
    Played {
        is_ready,
        counted,
        tally: desk.tally(ends, lanes),
    }
}

/// Makes the calls, closes the desk in any case, and returns it, and whether all calls were made.
pub(crate) fn mesh_by_workers<R: Threads + Wait + Sync>(
    rt: &R,
    alloc: Global,
    cases: &Cases,
    lanes: &Lanes,
    desk: Desk,
    board: &mut Board,
    calls: Calls,
) -> (Desk, bool)
    requires desk { IsDeskOf lanes.now desk }
    requires is_open { IsOpen desk }
    ensures desk { IsDeskOf lanes.now result.0 }
    ensures seats { result.0.seats ≡ desk.seats }
{
    let mut standing = Standing::new(rt, lanes, cases, desk);
    let made = make_calls(rt, alloc, &mut standing, board, calls);
    (standing.close(), made.is_ok())
}

/// Makes the calls. Out of memory is the only error.
fn make_calls<R: Threads + Wait + Sync>(
    rt: &R,
    alloc: Global,
    standing: &mut Standing<'_, R>,
    board: &mut Board,
    calls: Calls,
) -> Result<(), AllocError>
    ensures lanes { standing.new.lanes ≡ standing.old.lanes }
    ensures seats { standing.new.desk.seats ≡ standing.old.desk.seats }
{
    match calls {
        Calls::Nothing => Ok(()),
        Calls::Feed => standing.feed(alloc, board),
        Calls::FeedAndSettle => {
            standing.feed(alloc, board)?;
            standing.settle(rt, alloc, board)
        }
    }
}

/// Has each seat work, one after another.
fn work_in_turn<R: Wait>(
    rt: &R,
    alloc: Global,
    cases: &Cases,
    lanes: &Lanes,
    seats: Vec<Seat>,
) -> Result<Vec<WorkerEnd>, AllocError>
    requires { All (IsSeatOf lanes.now) seats.items }
    ensures seats { IfOk result (λ ends. All (λ end. IsSeatOf lanes.now end.seat) ends.items) }
    ensures count { IfOk result (λ ends. vec_len ends ≡ vec_len seats) }
{
    let mut left = seats;
    let mut ends = Vec::new(alloc);
    while let Some(seat) = left.pop() {
        let end = work(rt, alloc, cases, lanes, seat, &NoGate);
        ends.push(end)?;
    }
    Ok(ends)
}

/// How many workers there are, what is asked for, and what comes of it.
static PLAYS: [(u8, Calls, Played); 3] = [
    (
        1,
        Calls::Nothing,
        Played {
            is_ready: false,
            counted: NOTHING,
            tally: Tally {
                issued: 0,
                collected: 0,
                left: 0,
            },
        },
    ),
    // All 15 leaves are handed out, and the worker makes them once the desk is closed, so all outcomes are left.
    (
        1,
        Calls::Feed,
        Played {
            is_ready: false,
            counted: Counted {
                popped: 15,
                made: 15,
                lost: 0,
            },
            tally: Tally {
                issued: 15,
                collected: 0,
                left: 15,
            },
        },
    ),
    // No seat works before the desk is closed, so the desk does all that it handed out.
    (
        2,
        Calls::FeedAndSettle,
        Played {
            is_ready: true,
            counted: NOTHING,
            tally: Tally {
                issued: 15,
                collected: 15,
                left: 0,
            },
        },
    ),
];

/// What workers counted that did nothing.
const NOTHING: Counted = Counted {
    popped: 0,
    made: 0,
    lost: 0,
};

#[test]
fn all_jobs_are_counted(rt: HostRuntime) {
    for (workers, calls, expected) in &PLAYS {
        let found = play(&rt, rt.alloc(), (*workers).min(16), *calls);
        expect(&rt, *calls, found, *expected);
    }
}
