//! Why an event isn't sent.

use terrain::Event;
use thiserror::Error;

/// Why an event isn't sent. It is given back.
#[derive(Clone, Copy, Debug, PartialEq, Eq, Error)]
pub enum Unsent {
    /// The event isn't lawful in the scene's world.
    #[error("the event isn't lawful in this world")]
    NotLawful(Event),
    /// The mail had no place for it.
    #[error("the mail is full")]
    Full(Event),
}
