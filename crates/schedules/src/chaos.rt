//! A mesher that misbehaves.
//!
//! Each feeding makes the block of one leaf at most and keeps it among the last ones, and then does one of four things,
//! by the next number of a generator: nothing, so that results come late or never; it delivers the newest block; it
//! delivers the oldest one twice, which may be of a leaf that changed since, or is none any more; or it asks anew for
//! all that is out. Blocks stay kept when they are delivered.

ghost use Rattle.std.specs.Prelude.{◌≤◌, length};
ghost use Rattle.mesh_board.specs.Keeping.{KeepsFresh};
ghost use Rattle.schedules.specs.declared.chaos.TheConstants.{MOST_KEPT};

use block_mesh::{Bench, Done};
use cells::Cases;
use drills::Generator;
use mesh_jobs::{Board, Mesher, settle};
use std::alloc::{AllocError, Global};
use std::collections::VecDeque;
use std::sync::Arc;
use std::thread::Threads;

/// How many blocks it keeps at most.
const MOST_KEPT: usize = 32;

/// How many things a feeding may do.
const CHOICES: u32 = 4;

/// A mesher that misbehaves as far as its contract lets it, on the calling thread. What it does follows from a number
/// and from the board.
#[derive(Drop)]
pub struct Chaos<'a> {
    cases: &'a Cases,
    generator: Generator,
    bench: Bench,
    /// The last blocks that it made, the oldest first.
    kept: VecDeque<Done>,
    ghost few: { length kept.items ≤ MOST_KEPT },
}

impl<'a> Chaos<'a> {
    /// Returns the mesher that uses these cases and made no block, whose choices follow from a number.
    pub fn new(alloc: Global, cases: &'a Cases, first: u32) -> Chaos<'a> {
        Chaos {
            cases,
            generator: Generator { state: first },
            bench: Bench::new(),
            kept: VecDeque::new(alloc),
        }
    }

    /// Takes the brick of the first wanted leaf, if a leaf is wanted, and keeps the block of it. Out of memory is the
    /// only error, and then the leaf may stay out.
    fn make(&mut self, alloc: Global, board: &mut Board) -> Result<(), AllocError>
        ensures { KeepsFresh board.old board.new }
    {
        let Some(brick) = board.take(alloc)? else {
            return Ok(());
        };
        match self.bench.make(alloc, self.cases, brick) {
            Ok(done) => self.keep(done),
            Err(_) => Err(AllocError),
        }
    }

    /// Keeps a block, in place of the oldest one where there are `MOST_KEPT`. Out of memory is the only error.
    fn keep(&mut self, done: Done) -> Result<(), AllocError> {
        if self.kept.len() == MOST_KEPT {
            let _ = self.kept.pop_front();
        }
        self.kept.push_back(done)?;
        Ok(())
    }

    /// Delivers the newest block, if there is one. Out of memory is the only error.
    fn deliver_newest(&self, board: &mut Board) -> Result<(), AllocError>
        ensures { KeepsFresh board.old board.new }
    {
        match self.kept.back() {
            Some(done) => deliver(board, done),
            None => Ok(()),
        }
    }

    /// Delivers the oldest block twice, if there is one. Out of memory is the only error.
    fn deliver_oldest_twice(&self, board: &mut Board) -> Result<(), AllocError>
        ensures { KeepsFresh board.old board.new }
    {
        match self.kept.front() {
            Some(done) => deliver_twice(board, done),
            None => Ok(()),
        }
    }

    /// Delivers all blocks, the oldest first. Out of memory is the only error.
    fn deliver_all(&self, board: &mut Board) -> Result<(), AllocError>
        ensures { KeepsFresh board.old board.new }
    {
        for done in self.kept.iter() {
            deliver(board, done)?;
        }
        Ok(())
    }
}

impl Mesher for Chaos<'_> {
    fn feed(&mut self, alloc: Global, board: &mut Board) -> Result<(), AllocError> {
        self.make(alloc, board)?;
        match self.generator.pick(CHOICES) {
            0 => Ok(()),
            1 => self.deliver_newest(board),
            2 => self.deliver_oldest_twice(board),
            _ => {
                board.recall();
                Ok(())
            }
        }
    }

    fn settle<R: Threads + Sync>(
        &mut self,
        rt: &R,
        alloc: Global,
        board: &mut Board,
    ) -> Result<(), AllocError> {
        self.deliver_all(board)?;
        settle(alloc, self.cases, board)
    }
}

/// Delivers a block that stays kept. Out of memory is the only error, and leaves the board as it was.
fn deliver(board: &mut Board, done: &Done) -> Result<(), AllocError>
    ensures { KeepsFresh board.old board.new }
{
    let _ = board.deliver(done.brick(), Arc::try_clone(done.block())?);
    Ok(())
}

/// Delivers a block twice. Out of memory is the only error.
fn deliver_twice(board: &mut Board, done: &Done) -> Result<(), AllocError>
    ensures { KeepsFresh board.old board.new }
{
    deliver(board, done)?;
    deliver(board, done)
}
