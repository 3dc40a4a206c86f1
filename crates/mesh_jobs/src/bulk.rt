//! Meshing many leaves at once.
//!
//! `Bulk` keeps a worker for each processor, less one where there are more than two: the last thread to start mostly
//! comes too late to help. They share a round of the wanted leaves. Then the board keeps their blocks, one worker after
//! another, and what they left is meshed on the calling thread, on the first one's workbench.

ghost use Rattle.std.specs.Prelude.{◌≡◌, All, OnOk};
ghost use Rattle.std.specs.Thread.{IsSync};
ghost use Rattle.mesh_board.specs.Board.{IsReady};
ghost use Rattle.mesh_board.specs.Keeping.{KeepsFresh};
ghost use Rattle.mesh_jobs.specs.Round.{IsHaulOf, IsRoundOf};

use crate::mesher::Mesher;
use crate::meshing::{settle, settle_on};
use crate::round::Round;
use crate::worker::Worker;
use cells::Cases;
use mesh_board::Board;
use rayon::current_num_threads;
use std::alloc::{AllocError, Global};
use std::thread;
use std::thread::Threads;

/// There is one worker more for each so many leaves: starting a thread may cost more than meshing fewer.
const SHARE: usize = 12;

/// There are no more workers than this.
const MOST_WORKERS: usize = 32;

/// A mesher that does nothing between events, and then meshes all wanted leaves on several threads: as many as it was
/// given, or one for each processor, less one where there are more than two. Where threads can't be started, it meshes
/// on the calling thread.
pub struct Bulk<'a> {
    cases: &'a Cases,
    /// How many threads it was given.
    threads: Option<usize>,
    /// They are there from the first settling on.
    workers: Option<Vec<Worker>>,
}

// Written out, since a derived drop is proved anew in each crate that drops such a mesher.
impl Drop for Bulk<'_> {
    fn drop(self) {
        let Self {
            cases: _,
            threads: _,
            workers: _workers,
        } = self;
    }
}

impl<'a> Bulk<'a> {
    /// Returns the mesher that uses these cases.
    pub fn new(cases: &'a Cases) -> Bulk<'a> {
        Bulk {
            cases,
            threads: None,
            workers: None,
        }
    }

    /// Returns the mesher that uses these cases, on no more than this many threads, the calling one among them.
    pub fn with_threads(cases: &'a Cases, threads: usize) -> Bulk<'a> {
        Bulk {
            cases,
            threads: Some(threads),
            workers: None,
        }
    }

    /// Meshes the wanted leaves, on as many threads as they are worth, and leaves alone those that are out. Where
    /// memory runs out some leaves may stay wanted, also after a success; leaves that are fresh stay fresh, and the
    /// world and the mark stay as they are.
    pub fn mesh_wanted<R: Threads + Sync>(
        &mut self,
        rt: &R,
        alloc: Global,
        board: &mut Board,
    ) -> Result<(), AllocError>
        requires { IsSync R.row }
        ensures { KeepsFresh board.old board.new }
    {
        let mut workers = self.take_workers(rt, alloc)?;
        let meshed = mesh_at_once(rt, alloc, self.cases, &mut workers, board);
        drop(self.workers.replace(workers));
        meshed
    }

    /// Takes the workers, which are made if there are none. Out of memory is the only error.
    fn take_workers<R: Threads + Sync>(
        &mut self,
        rt: &R,
        alloc: Global,
    ) -> Result<Vec<Worker>, AllocError>
        requires { IsSync R.row }
    {
        match self.workers.take() {
            Some(workers) => Ok(workers),
            None => match self.threads {
                Some(threads) => workers_for(alloc, threads),
                None => workers_for(alloc, threads_worth_starting(rt)),
            },
        }
    }
}

impl Mesher for Bulk<'_> {
    fn feed(&mut self, alloc: Global, board: &mut Board) -> Result<(), AllocError> {
        Ok(())
    }

    fn settle<R: Threads + Sync>(
        &mut self,
        rt: &R,
        alloc: Global,
        board: &mut Board,
    ) -> Result<(), AllocError> {
        let mut workers = self.take_workers(rt, alloc)?;
        let settled = settle_at_once(rt, alloc, self.cases, &mut workers, board);
        drop(self.workers.replace(workers));
        settled
    }
}

/// Returns how many threads are worth starting, the calling one among them.
///
/// A processor is left free where there are more than two: the last thread to start mostly comes too late.
fn threads_worth_starting<R: Threads + Sync>(rt: &R) -> usize {
    let processors = current_num_threads(rt);
    if processors > 2 {
        processors - 1
    } else {
        processors
    }
}

/// Returns a worker for each thread, as far as there may be so many. Out of memory is the only error.
fn workers_for(alloc: Global, threads: usize) -> Result<Vec<Worker>, AllocError> {
    let mut workers = Vec::new(alloc);
    for _ in 0..threads.min(MOST_WORKERS) {
        workers.push(Worker::new(alloc))?;
    }
    Ok(workers)
}

/// Meshes all leaves of a board that aren't fresh, on as many threads as they are worth.
///
/// Its contract is that of `settle`.
fn settle_at_once<R: Threads + Sync>(
    rt: &R,
    alloc: Global,
    cases: &Cases,
    workers: &mut [Worker],
    board: &mut Board,
) -> Result<(), AllocError>
    ensures keeps { KeepsFresh board.old board.new }
    ensures ready { OnOk result (IsReady board.new) }
{
    board.recall();
    mesh_at_once(rt, alloc, cases, workers, board)?;
    match workers.first_mut() {
        Some(worker) => settle_on(alloc, cases, &mut worker.bench, board),
        None => settle(alloc, cases, board),
    }
}

/// Meshes wanted leaves of a board, on as many threads as they are worth, as many as the workers make before memory
/// runs out. Out of memory is the only error.
fn mesh_at_once<R: Threads + Sync>(
    rt: &R,
    alloc: Global,
    cases: &Cases,
    workers: &mut [Worker],
    board: &mut Board,
) -> Result<(), AllocError>
    ensures { KeepsFresh board.old board.new }
{
    let round = Round::of(alloc, board)?;
    let count = workers.len().min(round.len() / SHARE + 1);
    mesh_by(rt, alloc, cases, &mut workers[..count], &round, board);
    Ok(())
}

/// Meshes leaves of a round of a board, as many as the workers make before memory runs out.
fn mesh_by<R: Threads + Sync>(
    rt: &R,
    alloc: Global,
    cases: &Cases,
    workers: &mut [Worker],
    round: &Round,
    board: &mut Board,
)
    requires { IsRoundOf board.old round.now }
    ensures { KeepsFresh board.old board.new }
{
    share_out(rt, alloc, cases, round, workers);
    for k in 0..workers.len() {
        round.keep_haul(board, &mut workers[k].haul);
    }
}

/// Has each worker make blocks of a round's leaves, each in a thread of its own. The calling thread is one of them, and
/// the only one where there is one worker.
fn share_out<R: Threads + Sync>(
    rt: &R,
    alloc: Global,
    cases: &Cases,
    round: &Round,
    workers: &mut [Worker],
)
    ensures { All (λ worker. IsHaulOf round.now worker.haul) workers.new }
{
    let threads = workers.len().max(1);
    thread::for_each_mut(
        rt,
        workers,
        threads,
        &|_, worker: &mut Worker|
            ensures { IsHaulOf round.entry.now worker.new.haul }
        { worker.work(alloc, cases, round) },
    );
}
