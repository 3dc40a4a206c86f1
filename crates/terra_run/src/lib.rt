//! `run`, the engine's top call: it reads a script and writes Wavefront OBJ, or its wire.
//!
//! What is promised of the bytes that a run takes and appends holds of a source and a sink that tell their bytes, as
//! those in memory do. Of others, as the adapters over real streams, the counts of faults are promised alone.
#![tactic(auto)]

mod shell;
mod top;

pub use camera_script::LineFault;
pub use mirrors::WIRE_LIMIT;
pub use patch_wire::WireFault;
pub use script_play::{INPUT_LIMIT, Status, offer_note};
pub use shell::{HELP, VERSION, end_with, program, program_over};
pub use top::run;
