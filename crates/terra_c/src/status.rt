//! What a call answers.

/// The call did what it was asked for.
pub(crate) const DONE: u8 = 0;

/// Memory ran out; all is as it was, but that leaves may have been meshed.
pub(crate) const NO_MEMORY: u8 = 1;

/// The depth or the reach is beyond its range.
pub(crate) const BAD_SETTINGS: u8 = 2;

/// The event isn't lawful in the world, or the numbers name no brush.
pub(crate) const NOT_LAWFUL: u8 = 3;

/// The world takes no more events.
pub(crate) const FULL: u8 = 4;

/// The handle doesn't hold what the call is for.
pub(crate) const NOT_HELD: u8 = 5;

/// A leaf isn't meshed yet.
pub(crate) const NOT_READY: u8 = 6;

/// The node isn't a leaf of the frame.
pub(crate) const NOT_A_LEAF: u8 = 7;

/// The room given is less than what there is to copy; nothing was copied.
pub(crate) const NO_ROOM: u8 = 8;

/// No leaf is wanted.
pub(crate) const NOTHING: u8 = 9;

/// The block was made for a field that is another one by now, and was dropped.
pub(crate) const STALE: u8 = 10;

/// The block has more vertices than 16 bits can number.
pub(crate) const TOO_LARGE: u8 = 11;

/// No edit is in force to undo.
pub(crate) const NOTHING_TO_UNDO: u8 = 12;

/// No triangle lies over or under the place.
pub(crate) const NO_SURFACE: u8 = 13;
