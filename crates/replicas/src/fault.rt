//! Why bytes are refused.

ghost use Rattle.std.specs.Prelude.{◌≡◌};

use std::alloc::{AllocError, AllocFailed};
use std::error::Error;
use std::fmt;

/// Why a replica refuses the bytes that it is fed.
#[derive(Clone, Copy, Debug, PartialEq, Eq)]
pub enum WireFault {
    /// Memory ran out.
    NoMemory,
    /// The head has another text, or a depth or a reach that no world may have.
    BadHead,
    /// A patch or an event begins with a byte that is no tag of one.
    BadTag,
    /// The base of a patch isn't the number of the replica's events.
    BadBase,
    /// A patch has more events than a journal has room for, or more nodes or blocks than the world has nodes.
    BadCount,
    /// An event isn't lawful.
    BadEvent,
    /// A node isn't in the world, or isn't after the one before it, or loses a block that it doesn't have.
    BadNode,
    /// A key or a position isn't in the world.
    BadVertex,
    /// A triangle has a place that isn't one of the block's keys.
    BadTriangle,
}

impl WireFault {
    ghost use Rattle.replicas.specs.FaultCodes.{code};

    /// Returns the number of the fault, from 1.
    pub fn code(self) -> u8
        ensures { result ≡ code self }
    {
        match self {
            WireFault::NoMemory => 1,
            WireFault::BadHead => 2,
            WireFault::BadTag => 3,
            WireFault::BadBase => 4,
            WireFault::BadCount => 5,
            WireFault::BadEvent => 6,
            WireFault::BadNode => 7,
            WireFault::BadVertex => 8,
            WireFault::BadTriangle => 9,
        }
    }
}

impl fmt::Display for WireFault {
    fn fmt<W: fmt::Write>(&self, f: &mut fmt::Formatter<W>) -> fmt::Result {
        let code = self.code();
        write!(f, "wire fault {code}")
    }
}

impl Error for WireFault {}

impl From<AllocError> for WireFault {
    ghost use Rattle.replicas.specs.declared.fault.WireFault.TheVariants.{NoMemory};

    ghost from_gives = { λ _ fault. fault ≡ NoMemory };

    fn from(_: AllocError) -> WireFault {
        WireFault::NoMemory
    }
}

impl<T: Drop> From<AllocFailed<T>> for WireFault {
    ghost use Rattle.replicas.specs.declared.fault.WireFault.TheVariants.{NoMemory};

    ghost from_gives = { λ _ fault. fault ≡ NoMemory };

    fn from(_: AllocFailed<T>) -> WireFault {
        WireFault::NoMemory
    }
}
