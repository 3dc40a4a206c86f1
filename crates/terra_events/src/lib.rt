//! A world and what happens to it: its events, which are edits by brushes, moves of viewpoints and undos, and the
//! leaves that each of them touches.
//!
//! A world has its journal, which is the list of its events, and what comes of it: the field and the level map. An edit
//! changes the field in its region, an undo in the region of the edit that it undoes, and a camera or an away the level
//! map; the rest is shared with the world before. Only the touched leaves need a new mesh. An undo is one event more,
//! so the journal never gets shorter. All of it is the project's own rule.
#![tactic(auto)]

mod edited;
mod fault;
mod kept_edits;
mod lawful;
mod met;
mod world;

pub use fault::ApplyFault;
pub use kept_edits::MAX_KEPT_PAGES;
pub use lawful::is_lawful;
pub use terrain::{Brush, Event, MAX_EVENTS, MAX_VIEWS};
pub use world::{Touched, World};
