//! What each request of a run does: a script is carried out, as meshes or as its wire, a wire is mirrored, a drill is
//! carried out, or several editors edit one world.
//!
//! Each of the four calls tells how it ended, in terms of a table of statuses. `terra_run` makes one table of them.
#![tactic(auto)]

mod closing;
mod drilling;
mod editing;
mod form;
mod mirroring;
mod output;
mod play;
mod player;
mod sharing;

pub use drilling::carry_out_drill;
pub use editing::carry_out_editing;
pub use form::Form;
pub use mirroring::carry_out_mirror;
pub use play::carry_out_script;
