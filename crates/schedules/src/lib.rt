//! Schedules of events and meshing: lists of events that are played over any mesher, and a mesher that misbehaves.
//!
//! What a mesher does between events is what threads beside the engine may bring about. `Chaos` draws it from a number,
//! so that one schedule after another can be tried, and tried again.
#![tactic(auto)]

mod chaos;
mod fault;
mod playing;

pub use chaos::Chaos;
pub use fault::PlayFault;
pub use playing::play;
