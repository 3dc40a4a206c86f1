//! Tests of the field and the levels, below the meshes: versions of the field, brushes, sets and tables of nodes, level
//! maps and worlds, each by its public calls.
//!
//! The expected values are worked out by hand from the rules, or come from programs that share no code with this one.
#![tactic(auto)]

#[cfg(test)]
mod asserts;
#[cfg(test)]
mod fields;
#[cfg(test)]
mod forty;
#[cfg(test)]
mod levels;
#[cfg(test)]
mod samples;
#[cfg(test)]
mod sets;
#[cfg(test)]
mod sixty;
#[cfg(test)]
mod tables;
#[cfg(test)]
mod undos;
#[cfg(test)]
mod versions;
#[cfg(test)]
mod worlds;
