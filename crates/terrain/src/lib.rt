//! The plain data that the layers of terra share, and every definition over it.
//!
//! `src/` declares the data. `specs/` says what a world, its samples, levels, cells, blocks and positions are: that
//! is what a reader of the project's contracts has to believe. `docs/definitions.md` has it in words.
#![tactic(auto)]

mod brush;
mod cells;
mod curve;
mod event;
mod lists;

pub use brush::{Brush, MARGIN, MAX_SAMPLE, Mode, SUBCELLS};
pub use cells::{
    LEAF_TRIANGLES, REGULAR_CASES, REGULAR_TRIANGLES, TRANSITION_CASES, TRANSITION_TRIANGLES,
};
pub use curve::Curve;
pub use event::{Event, MAX_EVENTS, MAX_VIEWS};
pub use lists::BlockView;
