//! Why a text isn't written whole.

ghost use Rattle.std.specs.Prelude.{◌≡◌};

use std::alloc::AllocError;
use std::error::Error;
use std::fmt;
use terra_io::Failed;

/// Why a text isn't written whole.
#[derive(Clone, Copy, Debug, PartialEq, Eq)]
pub enum OutFault {
    /// Memory ran out.
    NoMemory,
    /// A write failed.
    WriteFault,
}

impl fmt::Display for OutFault {
    fn fmt<W: fmt::Write>(&self, f: &mut fmt::Formatter<W>) -> fmt::Result {
        f.write_str(match self {
            OutFault::NoMemory => "no memory",
            OutFault::WriteFault => "write fault",
        })
    }
}

impl Error for OutFault {}

impl From<AllocError> for OutFault {
    ghost use Rattle.mesh_out.specs.declared.fault.OutFault.TheVariants.{NoMemory};

    ghost from_gives = { λ _ fault. fault ≡ NoMemory };

    fn from(_: AllocError) -> OutFault {
        OutFault::NoMemory
    }
}

impl From<Failed> for OutFault {
    ghost use Rattle.mesh_out.specs.declared.fault.OutFault.TheVariants.{WriteFault};

    ghost from_gives = { λ _ fault. fault ≡ WriteFault };

    fn from(_: Failed) -> OutFault {
        OutFault::WriteFault
    }
}
