//! Why a scene doesn't take an event.

use std::alloc::AllocError;
use thiserror::Error;

/// Why a scene doesn't take an event.
#[derive(Clone, Copy, Debug, PartialEq, Eq, Error)]
pub enum Refused {
    /// The event isn't lawful in the scene's world.
    #[error("the event isn't lawful in this world")]
    NotLawful,
    /// The journal has `MAX_EVENTS` events.
    #[error("the journal is full")]
    Full,
    /// The event is an undo, and no edit is in force.
    #[error("there is nothing to undo")]
    NothingToUndo,
    /// Memory ran out.
    #[error("out of memory")]
    NoMemory,
}

impl From<AllocError> for Refused {
    ghost use Rattle.std.specs.Prelude.{◌≡◌};
    ghost use Rattle.scenes.specs.declared.refused.Refused.TheVariants.{NoMemory};

    ghost from_gives = { λ _ refused. refused ≡ NoMemory };

    fn from(_error: AllocError) -> Refused {
        Refused::NoMemory
    }
}
