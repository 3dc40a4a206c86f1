//! `mirror`: it reads a wire to its end and writes the text of the replica that was fed with it.
//!
//! How that ends is a table (`specs/Mirrored.antt`) over what comes of the bytes that were read. The bytes are read in
//! large pieces, each of which is given to the replica before the next one is read.
#![tactic(auto)]

mod mirroring;
mod reading;
mod refusal;

pub use mirroring::mirror;
pub use reading::WIRE_LIMIT;
pub use refusal::MirrorRefusal;
