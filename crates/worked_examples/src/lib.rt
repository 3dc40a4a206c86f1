//! Worked examples: tests that cross the crates of terra, and nothing else.
//!
//! Each runs a script from memory into memory. The expected bytes were worked out by hand from the rules of meshes and
//! of texts, or by an independent slow program from the same rules, never by this one.
#![tactic(auto)]

#[cfg(test)]
mod broken;
#[cfg(test)]
mod cases;
#[cfg(test)]
mod command_line;
#[cfg(test)]
mod drilled;
#[cfg(test)]
mod edits;
#[cfg(test)]
mod faults;
#[cfg(test)]
mod gated;
#[cfg(test)]
mod levels;
#[cfg(test)]
mod limits;
#[cfg(test)]
mod lines;
#[cfg(test)]
mod made;
#[cfg(test)]
mod mirrored;
#[cfg(test)]
mod outcome;
#[cfg(test)]
mod picks;
#[cfg(test)]
mod scripts;
#[cfg(test)]
mod shots;
#[cfg(test)]
mod stats;
#[cfg(test)]
mod statuses;
#[cfg(test)]
mod undos;
#[cfg(test)]
mod watching;
#[cfg(test)]
mod wires;
