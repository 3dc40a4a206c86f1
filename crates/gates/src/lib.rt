//! Gates, by which somebody else learns of the steps of other threads.
#![tactic(auto)]

mod gate;

pub use gate::{MeshGate, NoGate};
