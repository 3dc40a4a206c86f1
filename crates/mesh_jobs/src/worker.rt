//! What one thread makes of a round, and on what.

ghost use Rattle.mesh_jobs.specs.Round.{IsHaulOf};

use crate::round::{Haul, Round};
use block_mesh::Bench;
use cells::Cases;
use std::alloc::Global;

/// The workbench of one thread, and the blocks that it made in the last round, until the board keeps them.
#[derive(Drop)]
pub(crate) struct Worker {
    pub(crate) bench: Bench,
    pub(crate) haul: Haul,
}

impl Worker {
    /// Returns a worker that made nothing.
    pub(crate) fn new(alloc: Global) -> Worker {
        Worker {
            bench: Bench::new(),
            haul: Haul::new(alloc),
        }
    }

    /// Makes its share of a round's blocks.
    pub(crate) fn work(&mut self, alloc: Global, cases: &Cases, round: &Round)
        ensures { IsHaulOf round.now self.new.haul }
    {
        round.work(alloc, cases, &mut self.bench, &mut self.haul);
    }
}
