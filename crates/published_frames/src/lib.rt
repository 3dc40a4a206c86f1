//! Published frames: one publisher shows a frame after another, and viewers, in threads of their own, enter the one
//! that is shown.
#![tactic(auto)]

mod door;
mod entering;
mod fault;
mod journal;
mod known;
mod learnt;
mod news;
mod opening;
mod outside;
mod past;
mod publisher;
mod rule;
mod shown;
mod sound_frame;
mod spares;
mod viewer;

pub use door::{Door, PlainDoor, TestDoor};
pub use fault::BeginFault;
pub use journal::begins_with;
pub use news::Told;
pub use opening::begin;
pub use past::Past;
pub use publisher::Publisher;
pub use viewer::{Entered, NoPlace, Viewer};
