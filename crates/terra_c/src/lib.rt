//! The engine for programs in C and whatever calls C: each function of `embed/terra.h`, over `terra_world`.
//!
//! A handle holds a game's world, a job, a block that a job made, or a snapshot. A call takes what a handle holds out
//! of it, works, and puts it back; so a handle that holds nothing, or something else, is an answer and never a fault.
//! No pointer into the library's memory goes out: whatever a game wants it has copied into room of its own.
#![tactic(auto)]

mod apart;
mod blocks;
mod copying;
mod frames;
mod handle;
mod held;
mod holding;
mod jobs;
mod shapes;
mod status;
mod surface;
mod worlds;
