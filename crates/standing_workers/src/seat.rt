//! Seats of workers.

use crate::job::Job;
use crate::outcome::Outcome;
use shared_queues::Account;

/// A worker's place at two queues: it pops jobs from one, and pushes their outcomes to the other.
#[derive(Drop)]
pub struct Seat {
    pub(crate) jobs: Account<Job>,
    pub(crate) results: Account<Outcome>,
}
