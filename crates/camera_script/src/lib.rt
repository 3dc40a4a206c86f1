//! The lines of a script: what the head and every later line say, or the first fault of a line.
//!
//! A line is one JSON object, as `serde_json` reads it. `docs/formats.md` has the forms of the lines, and the one
//! order in which faults are looked for.
#![tactic(auto)]

mod commands;
mod cutter;
mod fault;
mod form;
mod json_line;
mod laws;
mod members;
mod reading;
mod values;

pub use commands::Command;
pub use cutter::{Cut, LineCutter};
pub use fault::LineFault;
pub use json_line::{LINE_LIMIT, is_blank, is_too_long};
pub use laws::{
    heads_know_no_commands, lawful_commands_are_read, pieces_are_cut_as_one, readings_are_lawful,
};
pub use reading::{command, head};
