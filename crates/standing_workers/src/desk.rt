//! The engine's desk at the queues of its workers.

ghost use Rattle.std.specs.Prelude.{◌≡◌, ◌↔◌, ◌<◌, ◌+◌, ◌-◌, min, [], ◌∷◌, ◌++◌, IfNone, IsTrue, replicate};
ghost use Rattle.standing_workers.specs.declared.job.Job.TheVariants.{Mesh, Stop};

use crate::job::Job;
use crate::lanes::Lanes;
use crate::outcome::Outcome;
use block_mesh::Brick;
use shared_queues::Account;
use std::sync::Wait;

/// How many tickets are outstanding at most, as many as there are places for outcomes.
pub const MAX_OUTSTANDING: u64 = 64;

/// How many tickets a desk issues at most, and how many jobs and outcomes it counts.
pub const MAX_TICKETS: u64 = 1 << 61;

/// The engine's place at the two queues: it pushes jobs and pops outcomes, and jobs too, to do them itself.
#[derive(Drop)]
pub struct Desk {
    pub(crate) jobs: Account<Job>,
    pub(crate) results: Account<Outcome>,
    /// How many seats were made with it.
    pub(crate) seats: u8,
    /// How many jobs to mesh it pushed. The next ticket is this number.
    pub(crate) issued: u64,
    /// How many jobs to mesh and outcomes it popped.
    pub(crate) collected: u64,
}

impl Desk {
    ghost use Rattle.standing_workers.specs.Desks.{IsDeskOf, collected_by_desk, outstanding, popped_by_desk, pushed_by_desk};

    /// Returns how many tickets are outstanding: jobs that it pushed, less jobs and outcomes that it popped.
    pub(crate) fn outstanding(&self, lanes: &Lanes) -> u64
        requires { IsDeskOf lanes.now self.now }
        ensures { result ≡ outstanding self.now }
    {
        self.issued.saturating_sub(self.collected)
    }

    /// Returns how many more jobs it may push now: up to `MAX_OUTSTANDING` may be outstanding, and up
    /// to `MAX_TICKETS` are pushed ever.
    pub(crate) fn room(&self, lanes: &Lanes) -> u64
        requires { IsDeskOf lanes.now self.now }
        ensures { result ≡ min (MAX_OUTSTANDING - outstanding self.now)
            (MAX_TICKETS - self.now.issued) }
    {
        let places = MAX_OUTSTANDING - self.outstanding(lanes);
        places.min(MAX_TICKETS - self.issued)
    }

    /// Returns whether it counts on. Where it doesn't, its owner does all work itself.
    pub(crate) fn can_count(&self) -> bool
        ensures { IsTrue result ↔ ((self.now.issued < MAX_TICKETS)
            × (self.now.collected < MAX_TICKETS)) }
    {
        self.issued < MAX_TICKETS && self.collected < MAX_TICKETS
    }

    /// Pushes a job to mesh a brick, with the next ticket.
    pub(crate) fn hand_out<R: Wait>(&mut self, rt: &R, lanes: &Lanes, brick: Brick)
        requires desk { IsDeskOf lanes.now self.old }
        requires few { outstanding self.old < MAX_OUTSTANDING }
        requires counted { self.old.issued < MAX_TICKETS }
        ensures desk { IsDeskOf lanes.now self.new }
        ensures seats { self.new.seats ≡ self.old.seats }
        ensures issued { self.new.issued ≡ self.old.issued + 1 }
        ensures pushed { pushed_by_desk self.new
            ≡ pushed_by_desk self.old ++ Mesh self.old.issued brick ∷ [] }
        ensures popped { popped_by_desk self.new ≡ popped_by_desk self.old }
        ensures collected { collected_by_desk self.new ≡ collected_by_desk self.old }
    {
        let ticket = self.issued;
        let job = Job::Mesh { ticket, brick };
        lanes.jobs.push(rt, &mut self.jobs, job);
        self.issued += 1;
    }

    /// Returns the outcome that is first in its queue, which is popped, if there is one.
    pub(crate) fn collect<R: Wait>(&mut self, rt: &R, lanes: &Lanes) -> Option<Outcome>
        requires desk { IsDeskOf lanes.now self.old }
        requires counted { self.old.collected < MAX_TICKETS }
        ensures desk { IsDeskOf lanes.now self.new }
        ensures seats { self.new.seats ≡ self.old.seats }
        ensures pushed { pushed_by_desk self.new ≡ pushed_by_desk self.old }
    {
        let outcome = lanes.results.pop(rt, &mut self.results)?;
        self.collected += 1;
        Some(outcome)
    }

    /// Returns the outcome that is first in its queue, which is popped. Where there is none, it waits for one.
    pub(crate) fn wait<R: Wait>(&mut self, rt: &R, lanes: &Lanes) -> Outcome
        requires desk { IsDeskOf lanes.now self.old }
        requires counted { self.old.collected < MAX_TICKETS }
        ensures desk { IsDeskOf lanes.now self.new }
        ensures seats { self.new.seats ≡ self.old.seats }
        ensures pushed { pushed_by_desk self.new ≡ pushed_by_desk self.old }
    {
        let outcome = lanes.results.wait(rt, &mut self.results);
        self.collected += 1;
        outcome
    }

    /// Returns the brick of the job that is first in its queue, which is popped, if there is one. A Stop goes back to
    /// the end.
    pub(crate) fn take_back<R: Wait>(&mut self, rt: &R, lanes: &Lanes) -> Option<Brick>
        requires desk { IsDeskOf lanes.now self.old }
        requires counted { self.old.collected < MAX_TICKETS }
        ensures desk { IsDeskOf lanes.now self.new }
        ensures seats { self.new.seats ≡ self.old.seats }
        ensures none { IfNone result (self.new.collected ≡ self.old.collected) }
    {
        match lanes.jobs.pop(rt, &mut self.jobs)? {
            Job::Mesh { ticket: _, brick } => {
                self.collected += 1;
                Some(brick)
            }
            Job::Stop => {
                lanes.jobs.push(rt, &mut self.jobs, Job::Stop);
                None
            }
        }
    }

    /// Pushes one Stop for each seat.
    pub(crate) fn close<R: Wait>(&mut self, rt: &R, lanes: &Lanes)
        requires { IsDeskOf lanes.now self.old }
        ensures desk { IsDeskOf lanes.now self.new }
        ensures seats { self.new.seats ≡ self.old.seats }
        ensures pushed { pushed_by_desk self.new
            ≡ pushed_by_desk self.old ++ replicate self.old.seats Stop }
        ensures popped { popped_by_desk self.new ≡ popped_by_desk self.old }
        ensures collected { collected_by_desk self.new ≡ collected_by_desk self.old }
    {
        let seats = self.seats;
        for pushed in 0..seats {
            lanes.jobs.push(rt, &mut self.jobs, Job::Stop);
        }
    }
}
