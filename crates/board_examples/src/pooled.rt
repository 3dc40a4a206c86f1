//! Many leaves that are meshed beside helpers that stand ready.

use crate::asserts::expect_made;
use crate::bulk::{WIDE, apply_steps, expect_wide};
use crate::stage::patch;
use cells::Cases;
use mesh_jobs::{Board, Mesher};
use mesh_pool::{Pool, Post, close_posts, help_beside, open_posts};
use snapshots::Patch;
use std::alloc::{AllocError, Global};
use std::mem::replace;
use std::process::Abort;
use std::sync::Wait;
use std::thread::Threads;

const HELPERS: usize = 3;

/// Settles a board by a pool with these posts.
fn settle_by_posts<R: Threads + Wait + Sync>(
    rt: &R,
    alloc: Global,
    cases: &Cases,
    posts: &mut Vec<Post>,
    board: &mut Board,
) -> Result<(), AllocError> {
    let mut pool = Pool::new(rt, cases, posts);
    pool.settle(rt, alloc, board)
}

/// Applies the events to a board, and returns its patch once a pool with these posts has meshed its leaves.
fn patch_by_posts<R: Threads + Wait + Sync + Abort>(
    rt: &R,
    alloc: Global,
    cases: &Cases,
    posts: &mut Vec<Post>,
    board: &mut Board,
) -> Patch {
    apply_steps(rt, alloc, cases, board);
    expect_made(rt, settle_by_posts(rt, alloc, cases, posts, board));
    patch(rt, alloc, board)
}

/// Returns the patch of a board of the wide world whose leaves were meshed by a pool with these posts.
fn wide_by_posts<R: Threads + Wait + Sync + Abort>(
    rt: &R,
    alloc: Global,
    cases: &Cases,
    posts: &mut Vec<Post>,
) -> Patch {
    let mut board = expect_made(rt, Board::new(alloc, cases, WIDE));
    let patch = patch_by_posts(rt, alloc, cases, posts, &mut board);
    drop(board);
    patch
}

/// Returns the same, with a helper in a thread of its own for each post.
fn wide_by_helpers<R: Threads + Wait + Sync + Abort>(
    rt: &R,
    alloc: Global,
    cases: &Cases,
) -> Patch {
    let (posts, seats) = expect_made(rt, open_posts(alloc, HELPERS));
    let mut place = posts;
    let mut play = || {
        let mut posts = replace(&mut place, Vec::new(alloc));
        let made = wide_by_posts(rt, alloc, cases, &mut posts);
        close_posts(rt, posts);
        made
    };
    help_beside(rt, alloc, cases, seats, &mut play)
}

/// Returns the same, where no helper comes.
fn wide_by_nobody<R: Threads + Wait + Sync + Abort>(rt: &R, alloc: Global, cases: &Cases) -> Patch {
    let (mut posts, seats) = expect_made(rt, open_posts(alloc, HELPERS));
    drop(seats);
    let patch = wide_by_posts(rt, alloc, cases, &mut posts);
    drop(posts);
    patch
}

#[test]
fn meshes_beside_helpers_what_one_thread_meshes(rt: HostRuntime) {
    let cases = expect_made(&rt, Cases::new(rt.alloc()));
    let helped = wide_by_helpers(&rt, rt.alloc(), &cases);
    expect_wide(&rt, rt.alloc(), &cases, &helped);
    drop((cases, helped));
}

#[test]
fn needs_no_helper_to_come(rt: HostRuntime) {
    let cases = expect_made(&rt, Cases::new(rt.alloc()));
    let left = wide_by_nobody(&rt, rt.alloc(), &cases);
    expect_wide(&rt, rt.alloc(), &cases, &left);
    drop((cases, left));
}
