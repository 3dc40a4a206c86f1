//! The lines of a script as they come, what carries them out, and how that ends.
//!
//! `Input` hands out a line at a time. `play_lines` reads what a line says, and has an executor carry it out before any
//! more is read. There are two: an `Engine`, which writes meshes, lines of stats and picks of the frames that it
//! publishes, and a sender, inside `send_lines`, which writes the patches from one to the next, as a wire. A `Status`
//! tells how a run ended, and has a line for the notes.
#![tactic(auto)]

mod engine;
mod executor;
mod input;
mod note;
mod playing;
mod refusal;
mod sender;
mod shots;
mod status;

pub use engine::{COMMAND_LIMIT, Engine};
pub use executor::Executor;
pub use input::Input;
pub use note::offer_note;
pub use playing::{play_by_engine, play_lines};
pub use refusal::{INPUT_LIMIT, ReadRefusal};
pub use sender::send_lines;
pub use status::{Status, refused_status};
