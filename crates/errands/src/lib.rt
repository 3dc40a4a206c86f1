//! Errands: one thread asks another one to do something, again and again, and gets what answers it.
#![tactic(auto)]

mod ends;
mod errand;
mod exchange;
mod message;
mod rule;
mod side;

pub use ends::{Asker, Doer};
pub use errand::Errand;
pub use exchange::Exchange;
pub use message::Message;
pub use rule::Turns;
pub use side::Side;
