//! The two queues between an engine and its workers.

ghost use Rattle.std.specs.Prelude.{◌≡◌, ◌<◌, ◌≤◌, All, IfOk, vec_len};
ghost use Rattle.shared_queues.specs.Accounts.{with_less};
ghost use Rattle.shared_queues.specs.Queues.{IsAccountOf, entries};
ghost use Rattle.standing_workers.specs.Desks.{IsDeskOf, IsNewDesk};
ghost use Rattle.standing_workers.specs.Seats.{IsNewSeat, IsSeatOf};

use crate::desk::{Desk, MAX_OUTSTANDING};
use crate::job::Job;
use crate::outcome::Outcome;
use crate::seat::Seat;
use shared_queues::{Account, SharedQueue};
use std::alloc::{AllocError, Global};

/// How many seats there are at most.
pub const MAX_SEATS: u8 = 16;

/// How many jobs are in their queue at most: as many as may be outstanding, and a Stop for each seat.
const JOB_PLACES: usize = MAX_OUTSTANDING as usize + MAX_SEATS as usize;

/// How many outcomes are in their queue at most: as many as may be outstanding.
const OUTCOME_PLACES: usize = MAX_OUTSTANDING as usize;

/// The queue of jobs, and that of their outcomes.
#[derive(Drop)]
pub struct Lanes {
    pub(crate) jobs: SharedQueue<Job>,
    pub(crate) results: SharedQueue<Outcome>,
}

impl Lanes {
    /// Returns two empty queues, the engine's desk at them, and a seat for each worker. Out of memory is the only
    /// error.
    pub fn new(alloc: Global, workers: u8) -> Result<(Lanes, Desk, Vec<Seat>), AllocError>
        requires { workers ≤ MAX_SEATS }
        ensures desk { IfOk result (λ made. IsDeskOf made.0 made.1) }
        ensures new_desk { IfOk result (λ made. IsNewDesk made.1 workers) }
        ensures seats { IfOk result (λ made. All (IsSeatOf made.0) made.2.items) }
        ensures new_seats { IfOk result (λ made. All IsNewSeat made.2.items) }
        ensures count { IfOk result (λ made. vec_len made.2 ≡ workers) }
    {
        let (jobs, mut job_account) = SharedQueue::new(alloc, JOB_PLACES)?;
        let (results, mut result_account) = SharedQueue::new(alloc, OUTCOME_PLACES)?;
        let lanes = Lanes { jobs, results };
        let mut seats = Vec::new(alloc);
        for number in 0..workers {
            let seat = lanes.seat(&mut job_account, &mut result_account);
            seats.push(seat)?;
        }
        let desk = Desk {
            jobs: job_account,
            results: result_account,
            seats: workers,
            issued: 0,
            collected: 0,
        };
        Ok((lanes, desk, seats))
    }

    /// Returns a new seat. Each account gives one of its shares to it.
    fn seat(&self, jobs: &mut Account<Job>, results: &mut Account<Outcome>) -> Seat
        requires jobs { IsAccountOf self.now.jobs jobs.old }
        requires results { IsAccountOf self.now.results results.old }
        requires job_shares { 1 < (entries jobs.old).shares }
        requires result_shares { 1 < (entries results.old).shares }
        ensures jobs { IsAccountOf self.now.jobs jobs.new }
        ensures results { IsAccountOf self.now.results results.new }
        ensures job_entries { entries jobs.new ≡ with_less (entries jobs.old) }
        ensures result_entries { entries results.new ≡ with_less (entries results.old) }
        ensures seat { IsSeatOf self.now result }
        ensures new_seat { IsNewSeat result }
    {
        Seat {
            jobs: self.jobs.open(jobs),
            results: self.results.open(results),
        }
    }
}
