//! Why a script isn't read to its end.

ghost use Rattle.std.specs.Prelude.{◌≡◌};

use std::error::Error;
use std::fmt;
use terra_io::Failed;

/// A run reads fewer bytes than this, or no end.
pub const INPUT_LIMIT: usize = 1 << 26;

/// How many bytes are asked of the source at once.
pub const PIECE: usize = 4096;

/// Why no further line comes.
#[derive(Clone, Copy, Debug, PartialEq, Eq)]
pub enum ReadRefusal {
    /// A read failed.
    ReadFault,
    /// `INPUT_LIMIT` bytes were read, and the end wasn't seen.
    InputLimit,
    /// The line with this number, from 1, is too long.
    TooLong { line: u32 },
}

impl fmt::Display for ReadRefusal {
    fn fmt<W: fmt::Write>(&self, f: &mut fmt::Formatter<W>) -> fmt::Result {
        f.write_str(match self {
            ReadRefusal::ReadFault => "read fault",
            ReadRefusal::InputLimit => "input limit",
            ReadRefusal::TooLong { .. } => "line too long",
        })
    }
}

impl Error for ReadRefusal {}

impl From<Failed> for ReadRefusal {
    ghost use Rattle.script_play.specs.declared.refusal.ReadRefusal.TheVariants.{ReadFault};

    ghost from_gives = { λ _ refusal. refusal ≡ ReadFault };

    fn from(_: Failed) -> ReadRefusal {
        ReadRefusal::ReadFault
    }
}
