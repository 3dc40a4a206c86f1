//! Replicas: what shows the world of a wire, which is fed with the wire's bytes in any pieces.
//!
//! A wire is a head, and behind it patches, each of which leads from one frame to a later one. The grammar of its bytes
//! is a definition by itself (`specs/Grammar.antt`), and so is what comes of bytes (`specs/Following.antt`): which
//! patches took effect, and the first field that the grammar refuses. A `Replica` needs no mesher and no frame.
#![tactic(auto)]

mod block;
mod draft;
mod fault;
mod feeding;
mod held;
mod judging;
mod laws;
mod numbers;
mod put;
mod reader;
mod replica;
mod shows;
mod stage;
mod worlds;

pub use fault::WireFault;
pub use judging::PATCH_TAG;
pub use laws::no_spelling_begins_another;
pub use replica::Replica;
pub use shows::replicas_show_what_comes_of_their_bytes;
pub use worlds::{is_key, is_lawful, is_position};
