//! The faults of a line.

ghost use Rattle.std.specs.Prelude.{◌≡◌, Some};
ghost use Rattle.camera_script.specs.FaultWords.{words_of};

use std::error::Error;
use std::fmt;

/// Why a line of a script is refused.
///
/// The faults are looked for in one order, and the first that holds is returned: `TooLong`, `NotJson`, `NotObject`,
/// `UnknownCommand`, `MissingMember`, `UnknownMember`, `BadValue`.
#[derive(Clone, Copy, Debug, PartialEq, Eq)]
pub enum LineFault {
    /// Memory ran out; it is never a line's own fault.
    NoMemory = 1,
    /// The line has more than `LINE_LIMIT` bytes.
    TooLong = 2,
    /// `serde_json` refuses the bytes, or they aren't UTF-8.
    NotJson = 3,
    /// The value isn't an object.
    NotObject = 4,
    /// A member is none of those that the line's form has.
    UnknownMember = 5,
    /// A member that the line's form has is absent, `do` itself among them.
    MissingMember = 6,
    /// A value isn't of its kind or is out of its range, or `lo` exceeds `hi` on some axis.
    BadValue = 7,
    /// The member `do` is none of the known texts; never for a head.
    UnknownCommand = 8,
}

impl LineFault {
    /// Returns the fault in words, as `Display` writes it.
    pub fn words(self) -> &'static str
        ensures { result.now ≡ words_of self }
    {
        match self {
            LineFault::NoMemory => "no memory",
            LineFault::TooLong => "line too long",
            LineFault::NotJson => "not json",
            LineFault::NotObject => "not an object",
            LineFault::UnknownMember => "unknown member",
            LineFault::MissingMember => "missing member",
            LineFault::BadValue => "bad value",
            LineFault::UnknownCommand => "unknown command",
        }
    }
}

impl fmt::Display for LineFault {
    ghost output = { λ fault. Some (words_of fault) };

    fn fmt<W: fmt::Write>(&self, f: &mut fmt::Formatter<W>) -> fmt::Result {
        f.write_str(self.words())
    }
}

impl Error for LineFault {}
