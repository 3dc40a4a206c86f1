//! Calls that are made again: a settling that ran out of memory, and a patch that was dropped.

ghost use Rattle.mesh_board.specs.Keeping.{KeepsFresh};

use crate::asserts::{expect, expect_made, expect_some};
use crate::played::{Played, Stage};
use crate::stage::new_cases;
use block_mesh::Done;
use cells::Cases;
use lattice::{Point, Settings};
use mesh_jobs::{Board, Bulk, Mesher, settle};
use schedules::PlayFault;
use std::alloc::{AllocError, Global};
use std::process::Abort;
use std::sync::Wait;
use std::thread::Threads;
use terra_events::Event;

/// A world whose levels are chosen near the camera alone.
const SMALL: Settings = Settings { depth: 2, reach: 1 };

/// It makes 15 leaves.
const CAMERA: Event = Event::Camera {
    view: 0,
    at: Point { z: 0, y: 0, x: 0 },
};

/// More leaves than there are.
const MOST: usize = 100;

/// The event is accepted, and not shown.
const UNSHOWN: Played = (Some(PlayFault::NoMemory), 1, 0);

const SHOWN: Played = (None, 1, 1);

/// A mesher that runs out of memory when it settles for the first time, once it has delivered the block of one leaf.
#[derive(Drop)]
struct Stopping<'a, R> {
    rt: &'a R,
    cases: &'a Cases,
    has_stopped: bool,
}

impl<'a, R: Abort> Stopping<'a, R> {
    fn new(rt: &'a R, cases: &'a Cases) -> Stopping<'a, R> {
        Stopping {
            rt,
            cases,
            has_stopped: false,
        }
    }
}

impl<H: Abort> Mesher for Stopping<'_, H> {
    fn feed(&mut self, alloc: Global, board: &mut Board) -> Result<(), AllocError> {
        Ok(())
    }

    fn settle<R: Threads + Sync>(
        &mut self,
        rt: &R,
        alloc: Global,
        board: &mut Board,
    ) -> Result<(), AllocError> {
        if self.has_stopped {
            return settle(alloc, self.cases, board);
        }
        self.has_stopped = true;
        deliver_one(self.rt, alloc, self.cases, board);
        Err(AllocError)
    }
}

/// Makes the block of the first wanted leaf.
fn make_one(rt: &impl Abort, alloc: Global, cases: &Cases, board: &mut Board) -> Done
    ensures { KeepsFresh board.old board.new }
{
    let brick = expect_some(rt, expect_made(rt, board.take(alloc)), "no wanted leaf");
    expect_some(rt, Done::make(alloc, cases, brick).ok(), "no block")
}

/// Delivers a block.
fn deliver(board: &mut Board, made: Done)
    ensures { KeepsFresh board.old board.new }
{
    let (brick, block) = made.into_parts();
    let _ = board.deliver(&brick, block);
}

/// Makes the block of the first wanted leaf, and delivers it.
fn deliver_one(rt: &impl Abort, alloc: Global, cases: &Cases, board: &mut Board)
    ensures { KeepsFresh board.old board.new }
{
    let made = make_one(rt, alloc, cases, board);
    deliver(board, made);
}

/// Takes the bricks of all wanted leaves, and returns how many there were.
fn take_all(rt: &impl Abort, alloc: Global, stage: &mut Stage) -> usize {
    for count in 0..MOST {
        if !stage.take(rt, alloc) {
            return count;
        }
    }
    MOST
}

/// Plays an event by a mesher that runs out of memory, and then goes on by another one; asserts what comes of both, and
/// how many leaves were wanted between them.
fn settle_again<R: Threads + Wait + Sync + Abort>(
    rt: &R,
    alloc: Global,
    cases: &Cases,
    stage: &mut Stage,
) {
    let mut stopping = Stopping::new(rt, cases);
    stage.play(rt, alloc, &mut stopping, &[CAMERA], UNSHOWN);
    expect(rt, "wanted leaves", take_all(rt, alloc, stage), 14);
    stage.play(rt, alloc, &mut Bulk::new(cases), &[], SHOWN);
}

#[test]
fn settles_again_after_memory_ran_out(rt: HostRuntime) {
    let cases = new_cases(&rt, rt.alloc());
    let mut stage = Stage::alone(&rt, rt.alloc(), &cases, SMALL);
    settle_again(&rt, rt.alloc(), &cases, &mut stage);
    stage.close(&rt);
}

/// Plays an event by a mesher that runs out of memory, makes a patch and drops it, and then publishes another one.
fn publish_again<R: Threads + Wait + Sync + Abort>(
    rt: &R,
    alloc: Global,
    cases: &Cases,
    stage: &mut Stage,
) {
    let mut stopping = Stopping::new(rt, cases);
    stage.play(rt, alloc, &mut stopping, &[CAMERA], UNSHOWN);
    stage.drop_patch(rt, alloc, cases);
    stage.play(rt, alloc, &mut stopping, &[], SHOWN);
}

#[test]
fn publishes_a_patch_that_was_made_again(rt: HostRuntime) {
    let cases = new_cases(&rt, rt.alloc());
    let mut stage = Stage::alone(&rt, rt.alloc(), &cases, SMALL);
    publish_again(&rt, rt.alloc(), &cases, &mut stage);
    stage.close(&rt);
}
