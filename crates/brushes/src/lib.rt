//! The brushes that edit the field: which ones a world takes, where they work, and what they make of its samples.
//!
//! Three of them shape the ground: a box, a ball and a plane have a value at each point, in sixteenths of a cell, which
//! fills or carves. The fourth one smooths. All of it is the project's own rule.
#![tactic(auto)]

mod ball;
mod editing;
mod fill_carve;
mod limits;
mod shape;
mod smoothing;

pub use editing::{apply, apply_kept, apply_kept_in, region};
pub use limits::lawful;
pub use terrain::{Brush, Mode};
