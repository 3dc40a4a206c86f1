//! Why an event isn't applied.

use std::alloc::AllocError;
use thiserror::Error;

/// Why an event isn't applied.
#[derive(Clone, Copy, Debug, PartialEq, Eq, Error)]
pub enum ApplyFault {
    /// Memory ran out for what the event makes new.
    #[error("out of memory")]
    NoMemory = 1,
    /// The journal has `MAX_EVENTS` events.
    #[error("the journal is full")]
    Full = 2,
    /// The event is an undo, and no edit is in force.
    #[error("nothing to undo")]
    NothingToUndo = 3,
}

impl From<AllocError> for ApplyFault {
    ghost use Rattle.std.specs.Prelude.{◌≡◌};
    ghost use Rattle.terra_events.specs.declared.fault.ApplyFault.TheVariants.{NoMemory};

    ghost from_gives = { λ _ fault. fault ≡ NoMemory };

    fn from(_error: AllocError) -> ApplyFault {
        ApplyFault::NoMemory
    }
}
