//! Numbers and coordinates as text, in decimal digits: put into a line that has room for them, or appended to a text.
//!
//! A coordinate is written exactly: a unit of a position, 1/256 of a cell, is 0.00390625.
#![tactic(auto)]

mod digit_tables;
mod line;
mod numbers;
mod push;

pub use line::put;
pub use numbers::{COORDINATE_ROOM, NUMBER_ROOM, put_coordinate, put_spaced};
pub use push::push_number;
