//! Watchers: viewers in threads of their own, beside the work that publishes frames, that audit each frame that they
//! enter.
#![tactic(auto)]

mod beside;
mod look;
mod watching;

pub use audits::Counts;
pub use beside::{look_for_all, watch_beside};
pub use watching::{Report, Watched, look_on, watch};
