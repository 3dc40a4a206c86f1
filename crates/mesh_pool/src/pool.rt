//! The mesher that has a pool of helpers.
//!
//! At a settling it asks the helpers for their shares of a round of the wanted leaves, and makes blocks of it itself
//! until no leaf is left. Then it collects the hauls. A helper that hasn't begun by then isn't waited for: what it was
//! asked is taken back. So a helper that wakes too late costs nothing.

ghost use Rattle.std.specs.Arc.{arc_value};
ghost use Rattle.mesh_board.specs.Keeping.{KeepsFresh};
ghost use Rattle.mesh_jobs.specs.Round.{IsRoundOf};

use crate::post::Post;
use block_mesh::Bench;
use cells::Cases;
use mesh_jobs::{Board, Haul, Mesher, Round, settle_on};
use std::alloc::{AllocError, Global};
use std::sync::{Arc, Wait};
use std::thread::Threads;

/// One helper more is asked for each so many leaves: to wake one takes longer than to mesh fewer.
const SHARE: usize = 6;

/// A mesher that does nothing between events, and then meshes all wanted leaves, with helpers where there are many.
#[derive(Drop)]
pub struct Pool<'a, R: Wait> {
    rt: &'a R,
    cases: &'a Cases,
    posts: &'a mut Vec<Post>,
    bench: Bench,
}

impl<'a, R: Wait> Pool<'a, R> {
    /// Returns the mesher with the helpers of these posts.
    pub fn new(rt: &'a R, cases: &'a Cases, posts: &'a mut Vec<Post>) -> Pool<'a, R> {
        Pool {
            rt,
            cases,
            posts,
            bench: Bench::new(),
        }
    }

    /// Meshes wanted leaves, with as many helpers as they are worth, and leaves alone those that are out. Where memory
    /// runs out some leaves may stay wanted, also after a success; leaves that are fresh stay fresh, and the world and
    /// the mark stay as they are.
    pub fn mesh_wanted(&mut self, alloc: Global, board: &mut Board) -> Result<(), AllocError>
        ensures { KeepsFresh board.old board.new }
    {
        mesh_some(
            self.rt,
            alloc,
            self.cases,
            self.posts,
            &mut self.bench,
            board,
        )
    }
}

impl<R: Wait> Mesher for Pool<'_, R> {
    fn feed(&mut self, alloc: Global, board: &mut Board) -> Result<(), AllocError> {
        Ok(())
    }

    fn settle<T: Threads + Sync>(
        &mut self,
        rt: &T,
        alloc: Global,
        board: &mut Board,
    ) -> Result<(), AllocError> {
        board.recall();
        self.mesh_wanted(alloc, board)?;
        settle_on(alloc, self.cases, &mut self.bench, board)
    }
}

/// Meshes wanted leaves of a board, with as many helpers as they are worth, as many as are made before memory runs out.
/// Out of memory is the only error.
fn mesh_some<R: Wait>(
    rt: &R,
    alloc: Global,
    cases: &Cases,
    posts: &mut [Post],
    bench: &mut Bench,
    board: &mut Board,
) -> Result<(), AllocError>
    ensures { KeepsFresh board.old board.new }
{
    let round = Arc::new(alloc, Round::of(alloc, board)?)?;
    let helpers = posts.len().min(round.len() / SHARE);
    mesh_with(
        rt,
        alloc,
        cases,
        &mut posts[..helpers],
        &round,
        bench,
        board,
    );
    Ok(())
}

/// Meshes leaves of a round of a board, beside the helpers of these posts, as many as are made before memory runs out.
///
/// Each helper is asked before the next one, and its haul is collected after those of the others.
fn mesh_with<R: Wait>(
    rt: &R,
    alloc: Global,
    cases: &Cases,
    posts: &mut [Post],
    round: &Arc<Round>,
    bench: &mut Bench,
    board: &mut Board,
)
    requires { IsRoundOf board.old (arc_value round.now) }
    ensures { KeepsFresh board.old board.new }
{
    if posts.is_empty() {
        let mut haul = Haul::new(alloc);
        round.work(alloc, cases, bench, &mut haul);
        round.keep_haul(board, &mut haul);
        return;
    }
    let (first, others) = posts.split_at_mut(1);
    if let Ok(theirs) = Arc::try_clone(round) {
        first[0].ask(rt, theirs);
        mesh_with(rt, alloc, cases, others, round, bench, board);
        if let Some(mut haul) = first[0].collect(rt) {
            round.keep_haul(board, &mut haul);
        }
    } else {
        mesh_with(rt, alloc, cases, others, round, bench, board);
    }
}
