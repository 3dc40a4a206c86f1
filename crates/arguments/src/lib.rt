//! The arguments behind the program's name: what they ask for, and the options of that.
//!
//! A form of the program is a case of `Request`, and of the relation `AskFor` on arguments. An option of a run is a
//! field of `Options`, with the relation that gives it in `specs/Options.antt`.
#![tactic(auto)]

mod drill;
mod editing;
mod lent;
mod number;
mod options;
mod request;

pub use drill::Drill;
pub use editing::{Editing, MAX_EDITORS, MAX_EDITS_EACH};
pub use lent::lent_texts;
pub use options::{DEFAULT_LOOKS, MAX_LOOKS, MAX_WATCHERS, MAX_WORKERS, Options};
pub use request::{Request, is_only, request_in};
