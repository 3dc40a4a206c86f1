//! What a worker does.

ghost use Rattle.std.specs.Prelude.{◌≡◌, ◌≤◌, List};
ghost use Rattle.standing_workers.specs.declared.job.Job.{Job as JobOf};
ghost use Rattle.standing_workers.specs.declared.outcome.Outcome.{Outcome as OutcomeOf};
ghost use Rattle.standing_workers.specs.Jobs.{Answers, lost_weight, made_weight};
ghost use Rattle.standing_workers.specs.Seats.{IsWorkersEnd, IsSeatOf};

use crate::job::Job;
use crate::lanes::Lanes;
use crate::outcome::Outcome;
use crate::seat::Seat;
use crate::worker_end::WorkerEnd;
use block_mesh::{Bench, Brick};
use cells::Cases;
use gates::MeshGate;
use std::alloc::Global;
use std::sync::Wait;

/// Pops jobs, each of which it tells the gate, meshes the brick of each, and pushes one outcome for each, until it pops
/// a Stop. Returns the seat with the counts of this call.
///
/// Where there is no job, it tries for a short spell and then blocks until one is pushed. Where memory runs out, a job
/// is lost, and the worker goes on.
pub fn work<R: Wait, G: MeshGate>(
    rt: &R,
    alloc: Global,
    cases: &Cases,
    lanes: &Lanes,
    seat: Seat,
    gate: &G,
) -> WorkerEnd
    requires { IsSeatOf lanes.now seat }
    ensures seat { IsSeatOf lanes.now result.seat }
    ensures work { (jobs : List JobOf) × (outcomes : List OutcomeOf)
        × IsWorkersEnd seat result jobs outcomes }
{
    let Seat {
        mut jobs,
        mut results,
    } = seat;
    let mut bench = Bench::new();
    let mut made = 0;
    let mut lost = 0;
    for popped in 0..u64::MAX {
        match lanes.jobs.wait(rt, &mut jobs) {
            Job::Stop => {
                return WorkerEnd {
                    seat: Seat { jobs, results },
                    popped,
                    made,
                    lost,
                };
            }
            Job::Mesh { ticket, brick } => {
                gate.pass(ticket);
                let outcome = mesh(&mut bench, alloc, cases, ticket, brick);
                made += made_count(&outcome);
                lost += lost_count(&outcome);
                lanes.results.push(rt, &mut results, outcome);
            }
        }
    }
    // No worker lives to do so many jobs.
    for _ in rt.forever() {}
    unreachable!()
}

/// Returns the outcome of a job: the brick with its block, or where memory runs out the brick's node.
fn mesh(bench: &mut Bench, alloc: Global, cases: &Cases, ticket: u64, brick: Brick) -> Outcome
    ensures { Answers ticket brick result }
{
    match bench.make(alloc, cases, brick) {
        Ok(done) => Outcome::Made { ticket, done },
        Err(brick) => {
            let node = brick.node();
            Outcome::Lost { ticket, node }
        }
    }
}

/// Returns 1 for a mesh that was made, and 0 for a lost one.
fn made_count(outcome: &Outcome) -> u64
    ensures count { result ≡ made_weight outcome.now }
    ensures one { result ≤ 1 }
{
    match outcome {
        Outcome::Made { .. } => 1,
        Outcome::Lost { .. } => 0,
    }
}

/// Returns 1 for a lost mesh, and 0 for one that was made.
fn lost_count(outcome: &Outcome) -> u64
    ensures count { result ≡ lost_weight outcome.now }
    ensures one { result ≤ 1 }
{
    match outcome {
        Outcome::Made { .. } => 0,
        Outcome::Lost { .. } => 1,
    }
}
