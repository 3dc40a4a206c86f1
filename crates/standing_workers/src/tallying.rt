//! The tally, from the desk and all seats.
//!
//! The desk gets the accounts of all seats, and so all shares of both queues. Then the rule of each queue says what is
//! left in it. No rule speaks of both: what connects them is what each seat keeps, that its outcomes answer its jobs.

ghost use Rattle.std.specs.Prelude.{◌≡◌, All, List, vec_len};
ghost use Rattle.shared_queues.specs.Queues.{IsAccountOf, entries};
ghost use Rattle.standing_workers.specs.declared.job.Job.{Job as JobOf};
ghost use Rattle.standing_workers.specs.declared.outcome.Outcome.{Outcome as OutcomeOf};
ghost use Rattle.standing_workers.specs.Seats.{IsSeatOf};
ghost use Rattle.standing_workers.specs.Tallies.{GetsAccounts, IsTally};

use crate::desk::Desk;
use crate::job::Job;
use crate::lanes::Lanes;
use crate::outcome::Outcome;
use crate::seat::Seat;
use crate::tally::Tally;
use crate::worker_end::WorkerEnd;
use shared_queues::Account;

impl Desk {
    ghost use Rattle.standing_workers.specs.Desks.{IsDeskOf};

    /// Returns the tally of all work, from the ends of all workers.
    pub fn tally(self, ends: Vec<WorkerEnd>, lanes: Lanes) -> Tally
        requires desk { IsDeskOf lanes self }
        requires seats { All (λ end. IsSeatOf lanes end.seat) ends.items }
        requires all { vec_len ends ≡ self.seats }
        ensures { (jobs : List JobOf) × (outcomes : List OutcomeOf)
            × IsTally self ends.items result jobs outcomes }
    {
        let Desk {
            mut jobs,
            mut results,
            seats: _,
            issued,
            collected,
        } = self;
        close_all(&lanes, &mut jobs, &mut results, ends);
        lanes.jobs.balance(&mut jobs);
        lanes.results.balance(&mut results);
        Tally {
            issued,
            collected,
            left: issued - collected,
        }
    }
}

/// Closes the accounts of all seats, whose shares two accounts get, and what they show.
fn close_all(
    lanes: &Lanes,
    jobs: &mut Account<Job>,
    results: &mut Account<Outcome>,
    ends: Vec<WorkerEnd>,
)
    requires jobs { IsAccountOf lanes.now.jobs jobs.old }
    requires results { IsAccountOf lanes.now.results results.old }
    requires seats { All (λ end. IsSeatOf lanes.now end.seat) ends.items }
    ensures jobs { IsAccountOf lanes.now.jobs jobs.new }
    ensures results { IsAccountOf lanes.now.results results.new }
    ensures accounts { GetsAccounts (entries jobs.old) (entries jobs.new)
        (entries results.old) (entries results.new) ends.items }
{
    let mut left = ends;
    while let Some(end) = left.pop() {
        let WorkerEnd { seat, .. } = end;
        let Seat {
            jobs: popped,
            results: pushed,
        } = seat;
        lanes.jobs.close(jobs, popped);
        lanes.results.close(results, pushed);
    }
}
