//! Standing workers: threads that mesh bricks while a world is edited, by two queues, with accounts of their work.
#![tactic(auto)]

mod beside;
mod crew;
mod desk;
mod feeding;
mod job;
mod lanes;
mod outcome;
mod seat;
mod standing;
mod tally;
mod tallying;
mod worker_end;
mod working;

pub use beside::work_beside;
pub use crew::{Crew, CrewMesher};
pub use desk::{Desk, MAX_OUTSTANDING, MAX_TICKETS};
pub use gates::{MeshGate, NoGate};
pub use job::Job;
pub use lanes::{Lanes, MAX_SEATS};
pub use outcome::Outcome;
pub use seat::Seat;
pub use standing::Standing;
pub use tally::Tally;
pub use worker_end::WorkerEnd;
pub use working::work;
