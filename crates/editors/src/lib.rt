//! Editors: several threads that send events to one engine, by a mail.
//!
//! Each editor sends its events through one queue of `PLACES` places, and the clerk takes them out, on the engine's
//! thread. What is known across threads is one rule: the notes of each editor, in the order in which it sent them, are
//! those that the clerk took and then those in the queue. Between editors there is no order, and nobody promises that
//! the queue is fair to them.
//!
//! `write_beside` does all of it at one call: each list goes out by an editor in a thread of its own, and a `Reader` on
//! the calling thread reads the events as they come.
#![tactic(auto)]

mod beside;
mod clerk;
mod closing;
mod editor;
mod letters;
mod mail;
mod note;
mod opening;
mod rule;
mod sending;
mod sheet;
mod shown;
mod taking;

pub use beside::{Reader, write_beside};
pub use clerk::Clerk;
pub use closing::close;
pub use editor::{Editor, Ended};
pub use letters::Letters;
pub use mail::{MAX_EDITORS, Mail, PLACES};
pub use note::Note;
pub use sending::{end, post, post_all, send, try_end};
pub use taking::{take, wait};
