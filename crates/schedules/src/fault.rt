//! Why a list of events isn't played to its end.

use std::alloc::AllocError;
use thiserror::Error;

/// Why a list of events isn't played to its end.
#[derive(Clone, Copy, Debug, PartialEq, Eq, Error)]
pub enum PlayFault {
    /// Memory ran out.
    #[error("out of memory")]
    NoMemory,
    /// The journal had `MAX_EVENTS` events before the event of this number, from 0: so many of the list were accepted.
    #[error("the journal is full after {accepted} of the events")]
    Full { accepted: u32 },
    /// The event of this number, from 0, is an undo, and no edit is in force before it: so many of the list were
    /// accepted.
    #[error("there is nothing to undo after {accepted} of the events")]
    NothingToUndo { accepted: u32 },
}

impl From<AllocError> for PlayFault {
    ghost use Rattle.std.specs.Prelude.{◌≡◌};
    ghost use Rattle.schedules.specs.declared.fault.PlayFault.TheVariants.{NoMemory};

    ghost from_gives = { λ _ fault. fault ≡ NoMemory };

    fn from(_error: AllocError) -> PlayFault {
        PlayFault::NoMemory
    }
}
