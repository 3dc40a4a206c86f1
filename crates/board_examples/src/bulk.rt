//! Many leaves that are meshed at once.

use crate::asserts::{expect, expect_made};
use crate::stage::{Step, first_wrong, patch};
use block_mesh::Block;
use cells::Cases;
use lattice::{Point, Settings};
use mesh_jobs::{Board, Bulk, Mesher, settle};
use snapshots::Patch;
use std::alloc::{AllocError, Global};
use std::process::Abort;
use std::thread::Threads;
use terra_events::{Brush, Event};
use terrain::Mode;

/// A world of depth 3, which a camera in its middle splits everywhere.
pub(crate) const WIDE: Settings = Settings { depth: 3, reach: 4 };

const SEE_MIDDLE: Event = Event::Camera {
    view: 0,
    at: Point {
        z: 64,
        y: 64,
        x: 64,
    },
};

const FILL_GROUND: Event = Event::Edit(Brush::Ground {
    mode: Mode::Fill,
    h: 40,
});

/// The wide world has so many leaves then, all of level 0.
const LEAVES: usize = 512;

/// Their meshes have so many triangles together.
const TRIANGLES: usize = 32_768;

/// All these leaves are wanted then.
const STEPS: [Step; 2] = [Step::Apply(SEE_MIDDLE), Step::Apply(FILL_GROUND)];

/// So many threads mesh them at once.
const THREADS: usize = 3;

/// Applies the events to a board.
pub(crate) fn apply_steps(rt: &impl Abort, alloc: Global, cases: &Cases, board: &mut Board) {
    let wrong = first_wrong(rt, alloc, cases, board, &STEPS);
    expect(rt, "the events", wrong, None);
}

/// Applies the events to a board, and returns its patch once the calling thread has meshed its leaves.
fn patch_by_one(rt: &impl Abort, alloc: Global, cases: &Cases, board: &mut Board) -> Patch {
    apply_steps(rt, alloc, cases, board);
    expect_made(rt, settle(alloc, cases, board));
    patch(rt, alloc, board)
}

/// Returns that patch once its leaves were meshed at once.
fn patch_by_bulk<R: Threads + Sync + Abort>(
    rt: &R,
    alloc: Global,
    cases: &Cases,
    board: &mut Board,
) -> Patch {
    apply_steps(rt, alloc, cases, board);
    expect_made(rt, settle_at_once(rt, alloc, cases, board));
    patch(rt, alloc, board)
}

fn settle_at_once<R: Threads + Sync>(
    rt: &R,
    alloc: Global,
    cases: &Cases,
    board: &mut Board,
) -> Result<(), AllocError> {
    let mut mesher = Bulk::with_threads(cases, THREADS);
    mesher.feed(alloc, board)?;
    mesher.settle(rt, alloc, board)
}

/// Returns the patch of a board of the wide world whose leaves one thread meshed.
fn wide_by_one(rt: &impl Abort, alloc: Global, cases: &Cases) -> Patch {
    let mut board = expect_made(rt, Board::new(alloc, cases, WIDE));
    let patch = patch_by_one(rt, alloc, cases, &mut board);
    drop(board);
    patch
}

/// Returns the patch of another such board whose leaves were meshed at once.
fn wide_by_bulk<R: Threads + Sync + Abort>(rt: &R, alloc: Global, cases: &Cases) -> Patch {
    let mut board = expect_made(rt, Board::new(alloc, cases, WIDE));
    let patch = patch_by_bulk(rt, alloc, cases, &mut board);
    drop(board);
    patch
}

/// Returns whether two blocks are of one node, and have the same meshes.
fn are_alike(one: &Block, other: &Block) -> bool {
    let (mesh, twin) = (one.view(), other.view());
    one.node() == other.node()
        && mesh.keys == twin.keys
        && mesh.positions == twin.positions
        && mesh.triangles == twin.triangles
}

/// Returns how many blocks two patches have in common before they differ, and how many triangles these have together.
fn common(alone: &Patch, bulk: &Patch) -> (usize, usize) {
    let (mut count, mut triangles): (usize, usize) = (0, 0);
    for (one, other) in alone.put.iter().zip(&bulk.put) {
        if !are_alike(one, other) {
            break;
        }
        count = count.saturating_add(1);
        triangles = triangles.saturating_add(one.view().triangles.len());
    }
    (count, triangles)
}

/// Asserts that a patch of a board of the wide world has what one thread makes.
pub(crate) fn expect_wide(rt: &impl Abort, alloc: Global, cases: &Cases, patch: &Patch) {
    let alone = wide_by_one(rt, alloc, cases);
    let found = common(&alone, patch);
    drop(alone);
    expect(rt, "in common", found, (LEAVES, TRIANGLES));
}

#[test]
fn meshes_at_once_what_one_thread_meshes(rt: HostRuntime) {
    let cases = expect_made(&rt, Cases::new(rt.alloc()));
    let bulk = wide_by_bulk(&rt, rt.alloc(), &cases);
    expect_wide(&rt, rt.alloc(), &cases, &bulk);
    drop((cases, bulk));
}
