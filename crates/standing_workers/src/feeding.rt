//! What an engine does at its desk: it hands out the bricks of wanted leaves, and delivers what comes back.
//!
//! A board takes a result whenever it comes, and keeps it only where its brick is the present one. So nothing here has
//! to know which result is of which leaf. Where workers lost a job, the engine recalls all leaves that are out and
//! meshes them itself.

ghost use Rattle.std.specs.Prelude.{◌≡◌, ◌≢◌, ◌⊎◌, ◌<◌, IfOk, IsTrue, OnOk};
ghost use Rattle.std.specs.Thread.{IsSync};
ghost use Rattle.lattice.specs.declared.node.Node.{Node as NodeOf};
ghost use Rattle.mesh_board.specs.Board.{IsReady, state_of};
ghost use Rattle.mesh_board.specs.LeafStates.{wanted};
ghost use Rattle.standing_workers.specs.declared.desk.TheConstants.{MAX_OUTSTANDING, MAX_TICKETS};
ghost use Rattle.standing_workers.specs.Desks.{IsDeskOf, outstanding};
ghost use Rattle.mesh_board.specs.Keeping.{KeepsFresh};

use crate::desk::Desk;
use crate::lanes::Lanes;
use crate::outcome::Outcome;
use block_mesh::{Bench, Brick, Done};
use cells::Cases;
use mesh_jobs::{Board, settle};
use std::alloc::{AllocError, Global};
use std::sync::Wait;
use std::thread::Threads;

/// Delivers what came back, and hands out the bricks of wanted leaves, as long as a leaf is wanted and fewer than
/// `MAX_OUTSTANDING` tickets are outstanding. Where a job was lost, it meshes all leaves that aren't fresh. Out of
/// memory is the only error.
pub(crate) fn feed_board<R: Wait>(
    rt: &R,
    alloc: Global,
    cases: &Cases,
    lanes: &Lanes,
    desk: &mut Desk,
    board: &mut Board,
) -> Result<(), AllocError>
    requires { IsDeskOf lanes.now desk.old }
    ensures desk { IsDeskOf lanes.now desk.new }
    ensures seats { desk.new.seats ≡ desk.old.seats }
    ensures board { KeepsFresh board.old board.new }
    ensures handed { OnOk result (((n : NodeOf) → state_of board.new n ≢ wanted)
        ⊎ (outstanding desk.new ≡ MAX_OUTSTANDING)) }
{
    let is_lost = collect_all(rt, lanes, desk, board);
    if is_lost {
        return mesh_all(alloc, cases, board);
    }
    hand_out_all(rt, alloc, lanes, desk, board)?;
    if desk.can_count() {
        Ok(())
    } else {
        mesh_all(alloc, cases, board)
    }
}

/// Delivers all that came back, and returns whether a job was lost.
fn collect_all<R: Wait>(rt: &R, lanes: &Lanes, desk: &mut Desk, board: &mut Board) -> bool
    requires { IsDeskOf lanes.now desk.old }
    ensures desk { IsDeskOf lanes.now desk.new }
    ensures seats { desk.new.seats ≡ desk.old.seats }
    ensures board { KeepsFresh board.old board.new }
{
    let mut is_lost = false;
    for _ in rt.forever() {
        let Some(is_made) = collect_one(rt, lanes, desk, board) else {
            return is_lost;
        };
        is_lost |= !is_made;
    }
    unreachable!()
}

/// Delivers what came back first, and returns whether it has a block. Where nothing came back, or the desk doesn't
/// count on, it returns `None`.
fn collect_one<R: Wait>(rt: &R, lanes: &Lanes, desk: &mut Desk, board: &mut Board) -> Option<bool>
    requires { IsDeskOf lanes.now desk.old }
    ensures desk { IsDeskOf lanes.now desk.new }
    ensures seats { desk.new.seats ≡ desk.old.seats }
    ensures board { KeepsFresh board.old board.new }
{
    if !desk.can_count() {
        return None;
    }
    let outcome = desk.collect(rt, lanes)?;
    Some(receive(board, outcome))
}

/// Hands out the bricks of wanted leaves, as long as a leaf is wanted and there is room. Out of memory is the only
/// error.
fn hand_out_all<R: Wait>(
    rt: &R,
    alloc: Global,
    lanes: &Lanes,
    desk: &mut Desk,
    board: &mut Board,
) -> Result<(), AllocError>
    requires { IsDeskOf lanes.now desk.old }
    ensures desk { IsDeskOf lanes.now desk.new }
    ensures seats { desk.new.seats ≡ desk.old.seats }
    ensures board { KeepsFresh board.old board.new }
    ensures handed { OnOk result (((n : NodeOf) → state_of board.new n ≢ wanted)
        ⊎ (outstanding desk.new ≡ MAX_OUTSTANDING) ⊎ (desk.new.issued ≡ MAX_TICKETS)) }
{
    'handing: while desk.room(lanes) > 0 {
        let Some(brick) = board.take(alloc)? else {
            return Ok(());
        };
        desk.hand_out(rt, lanes, brick);
    }
    Ok(())
}

/// How many leaves each seat gets at a settling, at most.
const AHEAD: usize = 1;

/// Of so many wanted leaves one is handed out at a settling: to wake a worker takes longer than to mesh a few leaves.
const SHARE: usize = 8;

/// Hands out a few of the wanted leaves to each seat. Out of memory is the only error.
///
/// A result that comes back is compared with the samples again, which costs as much as to collect them: so the workers
/// get no more than what they can do beside the other leaves.
pub(crate) fn share_out<R: Wait>(
    rt: &R,
    alloc: Global,
    lanes: &Lanes,
    desk: &mut Desk,
    board: &mut Board,
) -> Result<(), AllocError>
    requires desk { IsDeskOf lanes.now desk.old }
    ensures desk { IsDeskOf lanes.now desk.new }
    ensures seats { desk.new.seats ≡ desk.old.seats }
    ensures board { KeepsFresh board.old board.new }
{
    let wanted = board.wanted_leaves(alloc)?.len();
    let few = (wanted / SHARE).min(AHEAD * usize::from(desk.seats));
    hand_out_few(rt, alloc, lanes, desk, board, few)
}

/// Hands out the bricks of so many wanted leaves, as far as there are so many and there is room. Out of memory is the
/// only error.
fn hand_out_few<R: Wait>(
    rt: &R,
    alloc: Global,
    lanes: &Lanes,
    desk: &mut Desk,
    board: &mut Board,
    few: usize,
) -> Result<(), AllocError>
    requires { IsDeskOf lanes.now desk.old }
    ensures desk { IsDeskOf lanes.now desk.new }
    ensures seats { desk.new.seats ≡ desk.old.seats }
    ensures board { KeepsFresh board.old board.new }
{
    'handing: for _ in 0..few {
        if desk.room(lanes) == 0 {
            return Ok(());
        }
        let Some(brick) = board.take(alloc)? else {
            return Ok(());
        };
        desk.hand_out(rt, lanes, brick);
    }
    Ok(())
}

/// Meshes all leaves of a board that aren't fresh: it feeds the workers, and where no result has come it does a job
/// itself. It waits only for jobs that workers popped. Out of memory is the only error.
pub(crate) fn settle_board<R: Wait>(
    rt: &R,
    alloc: Global,
    cases: &Cases,
    bench: &mut Bench,
    lanes: &Lanes,
    desk: &mut Desk,
    board: &mut Board,
) -> Result<(), AllocError>
    requires { IsDeskOf lanes.now desk.old }
    ensures desk { IsDeskOf lanes.now desk.new }
    ensures seats { desk.new.seats ≡ desk.old.seats }
    ensures board { KeepsFresh board.old board.new }
    ensures ready { OnOk result (IsReady board.new) }
{
    for _ in rt.forever() {
        if settle_more(rt, alloc, cases, bench, lanes, desk, board)? {
            return Ok(());
        }
    }
    unreachable!()
}

/// Feeds the workers, and does a job itself where no result has come. Returns whether all leaves are fresh. Out of
/// memory is the only error.
fn settle_more<R: Wait>(
    rt: &R,
    alloc: Global,
    cases: &Cases,
    bench: &mut Bench,
    lanes: &Lanes,
    desk: &mut Desk,
    board: &mut Board,
) -> Result<bool, AllocError>
    requires { IsDeskOf lanes.now desk.old }
    ensures desk { IsDeskOf lanes.now desk.new }
    ensures seats { desk.new.seats ≡ desk.old.seats }
    ensures board { KeepsFresh board.old board.new }
    ensures ready { IfOk result (λ is_ready. IsTrue is_ready → IsReady board.new) }
{
    feed_board(rt, alloc, cases, lanes, desk, board)?;
    if board.ready() {
        return Ok(true);
    }
    if desk.can_count() {
        help(rt, alloc, cases, bench, lanes, desk, board)?;
        Ok(false)
    } else {
        mesh_all(alloc, cases, board)?;
        Ok(true)
    }
}

/// Does one job itself, or where none is left waits for an outcome. Where no ticket is outstanding, it makes the leaves
/// that are out wanted. Out of memory is the only error, and then the job goes.
fn help<R: Wait>(
    rt: &R,
    alloc: Global,
    cases: &Cases,
    bench: &mut Bench,
    lanes: &Lanes,
    desk: &mut Desk,
    board: &mut Board,
) -> Result<(), AllocError>
    requires desk { IsDeskOf lanes.now desk.old }
    requires counted { desk.old.collected < MAX_TICKETS }
    ensures desk { IsDeskOf lanes.now desk.new }
    ensures seats { desk.new.seats ≡ desk.old.seats }
    ensures board { KeepsFresh board.old board.new }
{
    if desk.outstanding(lanes) == 0 {
        board.recall();
        return Ok(());
    }
    if let Some(brick) = desk.take_back(rt, lanes) {
        return make(alloc, cases, bench, board, brick);
    }
    let outcome = desk.wait(rt, lanes);
    if receive(board, outcome) {
        Ok(())
    } else {
        mesh_all(alloc, cases, board)
    }
}

/// Makes the block of a brick, and delivers it. Out of memory is the only error, and then the brick goes.
fn make(
    alloc: Global,
    cases: &Cases,
    bench: &mut Bench,
    board: &mut Board,
    brick: Brick,
) -> Result<(), AllocError>
    ensures { KeepsFresh board.old board.new }
{
    let Ok(done) = bench.make(alloc, cases, brick) else {
        return Err(AllocError);
    };
    deliver(board, done);
    Ok(())
}

/// Delivers a block, which comes to nothing where its brick isn't the present one of a leaf any more.
fn deliver(board: &mut Board, done: Done)
    ensures { KeepsFresh board.old board.new }
{
    let (brick, block) = done.into_parts();
    let _ = board.deliver(&brick, block);
}

/// Delivers the block of an outcome, and returns whether there is one.
fn receive(board: &mut Board, outcome: Outcome) -> bool
    ensures { KeepsFresh board.old board.new }
{
    match outcome {
        Outcome::Made { ticket: _, done } => {
            deliver(board, done);
            true
        }
        Outcome::Lost { .. } => false,
    }
}

/// Meshes all leaves of a board that aren't fresh, on the calling thread. Out of memory is the only error.
fn mesh_all(alloc: Global, cases: &Cases, board: &mut Board) -> Result<(), AllocError>
    ensures board { KeepsFresh board.old board.new }
    ensures ready { OnOk result (IsReady board.new) }
    ensures handed { OnOk result ((n : NodeOf) → state_of board.new n ≢ wanted) }
{
    settle(alloc, cases, board)
}
