//! Why a publication didn't begin.

use std::alloc::AllocError;
use thiserror::Error;

/// Why `begin` didn't return a publisher.
#[derive(Clone, Copy, Debug, PartialEq, Eq, Error)]
pub enum BeginFault {
    /// Memory ran out.
    #[error("out of memory")]
    NoMemory = 1,
    /// The door refused a viewer.
    #[error("no place for a viewer")]
    NoPlace = 2,
}

impl From<AllocError> for BeginFault {
    ghost use Rattle.std.specs.Prelude.{◌≡◌};
    ghost use Rattle.published_frames.specs.declared.fault.BeginFault.TheVariants.{NoMemory};

    ghost from_gives = { λ _ fault. fault ≡ NoMemory };

    fn from(_error: AllocError) -> BeginFault {
        BeginFault::NoMemory
    }
}
