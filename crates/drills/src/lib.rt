//! Drills: long scripts that a generator makes from a number, the same at each run.
//!
//! A drill is for measuring and for comparing runs: after a ground it has edits and cameras at places that the
//! generator picks, and stats now and then. All of it is the project's own rule but for the generator's constants.
#![tactic(auto)]

mod drill;
mod generator;

pub use drill::{DRILL_REACH, MAX_DRILL_DEPTH, MAX_EDITS, drill_script};
pub use generator::Generator;
