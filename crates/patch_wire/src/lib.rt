//! Patches of frames as records of bytes: a head, and behind it patches, each of which leads from one frame to a later
//! one.
//!
//! `put_head` and `put_patch` write what the grammar says (`specs/Grammar.antt` of `replicas`), and a `Replica` that is
//! fed with the patches of a chain shows the chain's last frame (`specs/Chain.antt`), also as the text of a shot.
#![tactic(auto)]

mod batch;
mod chain;
mod events;
mod fields;
mod putting;
mod taking;
mod text;

pub use chain::wires_lead_to_last_frames;
pub use putting::{put_head, put_patch};
pub use replicas::{
    Replica, WireFault, no_spelling_begins_another, replicas_show_what_comes_of_their_bytes,
};
pub use taking::can_be_put;
pub use text::{texts_of_replicas_are_shots, write_replica};
