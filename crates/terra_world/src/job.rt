//! Jobs: bricks to mesh, in any thread and without the world that they come from.

ghost use Rattle.std.specs.Prelude.{◌≡◌, IfErr, IfOk};

use block_mesh::{Brick, Done};
use cells::Cases;
use std::alloc::Global;
use std::marker::Model;
use std::sync::Arc;

/// A brick to mesh, with the tables of sign cases that this takes, which it shares with its world.
///
/// Contracts see the brick.
#[derive(Drop)]
pub struct Job {
    cases: Arc<Cases>,
    brick: Brick,
}

impl Model for Job {
    ghost use Rattle.terrain.specs.Blocks.{Brick};

    ghost Value = { Brick };

    ghost view = { λ job. job.brick };
}

impl Job {
    /// Returns the job to mesh a brick.
    pub(crate) fn of(cases: Arc<Cases>, brick: Brick) -> Job
        ensures { result ≡ brick }
    {
        Job { cases, brick }
    }

    /// Returns the brick with its block, and where memory runs out the job, which can be made again.
    pub fn make(self, alloc: Global) -> Result<Done, Job>
        ensures made { IfOk result (λ done. done.brick ≡ self) }
        ensures returned { IfErr result (λ job. job ≡ self) }
    {
        let Job { cases, brick } = self;
        match Done::make(alloc, &cases, brick) {
            Ok(done) => Ok(done),
            Err(brick) => Err(Job { cases, brick }),
        }
    }
}
