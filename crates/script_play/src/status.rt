//! How a run may end.

ghost use Rattle.std.specs.Prelude.{◌≡◌};
ghost use Rattle.std.specs.Process.{exit_status};
ghost use Rattle.script_play.specs.Statuses.{refusal_status};
ghost use Rattle.script_play.specs.Note.{code_of};
ghost use Rattle.script_play.specs.Statuses.{refused_status, status_from};
ghost use Rattle.script_play.specs.Statuses.{reading_status, writing_status};

use crate::refusal::ReadRefusal;
use camera_script::LineFault;
use mesh_out::OutFault;
use mirrors::MirrorRefusal;
use patch_wire::WireFault;
use std::alloc::AllocError;
use std::io::Eprint;
use std::process::{ExitCode, Termination};

/// How a run ended.
#[derive(Clone, Copy, Debug, PartialEq, Eq)]
pub enum Status {
    /// The input was read to its end, and all commands were carried out.
    Done,
    /// Memory ran out.
    NoMemory,
    /// The arguments ask for nothing that is carried out.
    BadWords,
    /// The line with this number, from 1, is the first that is refused.
    BadScript { line: u32, fault: LineFault },
    /// A read failed.
    ReadFault,
    /// A write failed.
    WriteFault,
    /// At the line with this number, from 1, the journal is full.
    JournalFull { line: u32 },
    /// The input is longer than a run reads.
    InputLimit,
    /// At the line with this number, from 1, there is no edit in force to undo.
    NothingToUndo { line: u32 },
    /// A field of a wire is refused with this fault, and with it so many bytes were taken.
    BadWire { at: u64, fault: WireFault },
    /// A wire ends within its head or within a patch.
    CutWire,
}

impl Status {
    /// Returns the status of a script that was carried out to its end, or not.
    pub fn of(played: Result<(), Status>) -> Status
        ensures { result ≡ status_from played }
    {
        match played {
            Ok(()) => Status::Done,
            Err(status) => status,
        }
    }

    /// Returns the exit status with which the program ends: 0 for `Done`, 1 to 7 in the order of the variants up to
    /// `InputLimit`, and 9 to 11 for those behind it.
    pub fn code(&self) -> u8
        ensures { result ≡ code_of self.now }
    {
        match self {
            Status::Done => 0,
            Status::NoMemory => 1,
            Status::BadWords => 2,
            Status::BadScript { .. } => 3,
            Status::ReadFault => 4,
            Status::WriteFault => 5,
            Status::JournalFull { .. } => 6,
            Status::InputLimit => 7,
            Status::NothingToUndo { .. } => 9,
            Status::BadWire { .. } => 10,
            Status::CutWire => 11,
        }
    }
}

/// The status of a run for which no further line came.
impl From<ReadRefusal> for Status {
    ghost from_gives = { λ refusal status. status ≡ reading_status refusal };

    fn from(refusal: ReadRefusal) -> Status {
        match refusal {
            ReadRefusal::ReadFault => Status::ReadFault,
            ReadRefusal::InputLimit => Status::InputLimit,
            ReadRefusal::TooLong { line } => Status::BadScript {
                line,
                fault: LineFault::TooLong,
            },
        }
    }
}

/// The status of a run whose output wasn't written whole.
impl From<OutFault> for Status {
    ghost from_gives = { λ fault status. status ≡ writing_status fault };

    fn from(fault: OutFault) -> Status {
        match fault {
            OutFault::NoMemory => Status::NoMemory,
            OutFault::WriteFault => Status::WriteFault,
        }
    }
}

/// The status of a mirror whose wire wasn't read to its end, or its text not written whole.
impl From<MirrorRefusal> for Status {
    ghost from_gives = { λ refusal status. status ≡ refusal_status refusal };

    fn from(refusal: MirrorRefusal) -> Status {
        match refusal {
            MirrorRefusal::NoMemory => Status::NoMemory,
            MirrorRefusal::ReadFault => Status::ReadFault,
            MirrorRefusal::WriteFault => Status::WriteFault,
            MirrorRefusal::InputLimit => Status::InputLimit,
            MirrorRefusal::BadWire { at, fault } => Status::BadWire { at, fault },
            MirrorRefusal::CutWire => Status::CutWire,
        }
    }
}

/// The status of a run whose memory ran out.
impl From<AllocError> for Status {
    ghost use Rattle.script_play.specs.declared.status.Status.TheVariants.{NoMemory};

    ghost from_gives = { λ _ status. status ≡ NoMemory };

    fn from(_: AllocError) -> Status {
        Status::NoMemory
    }
}

/// The program ends with the status's code.
impl Termination for Status {
    fn report<R: Eprint>(self, _rt: &R) -> ExitCode
        ensures { exit_status result ≡ code_of self }
    {
        ExitCode::from(self.code())
    }
}

/// Returns the status of a line that is refused, unless memory ran out.
pub fn refused_status(line: u32, fault: LineFault) -> Status
    ensures { result ≡ refused_status line fault }
{
    match fault {
        LineFault::NoMemory => Status::NoMemory,
        fault => Status::BadScript { line, fault },
    }
}
