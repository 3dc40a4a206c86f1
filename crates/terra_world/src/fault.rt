//! Why a world doesn't do what it is asked for.

use std::alloc::AllocError;
use thiserror::Error;

/// Why a world doesn't take an event.
#[derive(Clone, Copy, Debug, PartialEq, Eq, Error)]
pub enum Refused {
    /// The event isn't lawful in the world.
    #[error("the event isn't lawful in this world")]
    NotLawful,
    /// The journal has `MAX_EVENTS` events.
    #[error("the journal is full")]
    Full,
    /// The event is an undo, and no edit is in force.
    #[error("there is nothing to undo")]
    NothingToUndo,
    /// Memory ran out.
    #[error("out of memory")]
    NoMemory,
}

/// Why the frame of a world isn't brought up to date.
#[derive(Clone, Copy, Debug, PartialEq, Eq, Error)]
pub enum NotUpdated {
    /// A leaf is still wanted, or out.
    #[error("a leaf isn't meshed yet")]
    NotReady,
    /// Memory ran out.
    #[error("out of memory")]
    NoMemory,
}

impl From<AllocError> for NotUpdated {
    ghost use Rattle.std.specs.Prelude.{◌≡◌};
    ghost use Rattle.terra_world.specs.declared.fault.NotUpdated.TheVariants.{NoMemory};

    ghost from_gives = { λ _ not_updated. not_updated ≡ NoMemory };

    fn from(_error: AllocError) -> NotUpdated {
        NotUpdated::NoMemory
    }
}
