//! A pool: threads that stand ready for a whole run, and help to mesh what a board wants at each settling.
#![tactic(auto)]

mod helping;
mod opening;
mod pool;
mod post;
mod rounds;

pub use helping::help_beside;
pub use opening::{close_posts, helpers_for, open_posts};
pub use pool::Pool;
pub use post::{Post, Seat};
