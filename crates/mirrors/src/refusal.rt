//! Why a wire isn't read to its end, or its text not written.

ghost use Rattle.std.specs.Prelude.{◌≡◌};
ghost use Rattle.mirrors.specs.Refusals.{refusal_of, writing_refusal};

use mesh_out::OutFault;
use patch_wire::WireFault;
use std::alloc::AllocError;
use std::error::Error;
use std::fmt;
use terra_io::Failed;

/// Why a wire isn't read to its end, or its text not written whole.
#[derive(Clone, Copy, Debug, PartialEq, Eq)]
pub enum MirrorRefusal {
    /// Memory ran out.
    NoMemory,
    /// A read failed.
    ReadFault,
    /// A write failed.
    WriteFault,
    /// `WIRE_LIMIT` bytes were read, and the end wasn't seen.
    InputLimit,
    /// A field is refused with this fault, and with it so many bytes were taken.
    BadWire { at: u64, fault: WireFault },
    /// The bytes end within the head or within a patch.
    CutWire,
}

impl MirrorRefusal {
    /// Returns the refusal of a field with which so many bytes were taken, unless memory ran out.
    pub(crate) fn of(at: u64, fault: WireFault) -> MirrorRefusal
        ensures { result ≡ refusal_of at fault }
    {
        match fault {
            WireFault::NoMemory => MirrorRefusal::NoMemory,
            fault => MirrorRefusal::BadWire { at, fault },
        }
    }
}

impl fmt::Display for MirrorRefusal {
    fn fmt<W: fmt::Write>(&self, f: &mut fmt::Formatter<W>) -> fmt::Result {
        match self {
            MirrorRefusal::NoMemory => f.write_str("no memory"),
            MirrorRefusal::ReadFault => f.write_str("read fault"),
            MirrorRefusal::WriteFault => f.write_str("write fault"),
            MirrorRefusal::InputLimit => f.write_str("input limit"),
            MirrorRefusal::BadWire { at, fault } => write!(f, "byte {at}: {fault}"),
            MirrorRefusal::CutWire => f.write_str("wire cut"),
        }
    }
}

impl Error for MirrorRefusal {}

impl From<AllocError> for MirrorRefusal {
    ghost use Rattle.mirrors.specs.declared.refusal.MirrorRefusal.TheVariants.{NoMemory};

    ghost from_gives = { λ _ refusal. refusal ≡ NoMemory };

    fn from(_: AllocError) -> MirrorRefusal {
        MirrorRefusal::NoMemory
    }
}

impl From<Failed> for MirrorRefusal {
    ghost use Rattle.mirrors.specs.declared.refusal.MirrorRefusal.TheVariants.{ReadFault};

    ghost from_gives = { λ _ refusal. refusal ≡ ReadFault };

    fn from(_: Failed) -> MirrorRefusal {
        MirrorRefusal::ReadFault
    }
}

impl From<OutFault> for MirrorRefusal {
    ghost from_gives = { λ fault refusal. refusal ≡ writing_refusal fault };

    fn from(fault: OutFault) -> MirrorRefusal {
        match fault {
            OutFault::NoMemory => MirrorRefusal::NoMemory,
            OutFault::WriteFault => MirrorRefusal::WriteFault,
        }
    }
}
