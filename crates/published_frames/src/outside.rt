//! Viewers outside of all frames.
//!
//! A reader of `left_right` knows the frame that it entered last, and keeps the one before in mind. A viewer that was
//! refused has seen the latter. `Outside::enter` picks the outcome of the entry by that.

ghost use Rattle.std.specs.Prelude.{◌≡◌, MatchResult};
ghost use Rattle.left_right.specs.Sides.{view as known};

use crate::rule::{Entering, EnteringAgain, FrameReader, FrameReading};

/// The reader of a viewer that is outside of all frames.
#[derive(Drop)]
pub(crate) enum Outside {
    /// The viewer has left the frame that its reader entered last.
    Left(FrameReader),
    /// The viewer was refused the frame that its reader entered last, and has seen the one before.
    Refused(FrameReader),
}

impl Outside {
    ghost use Rattle.published_frames.specs.Seen.{IsLetIn, seen_of, series_of};

    /// Enters the frame that is published now. The error is that the publisher was closed.
    pub(crate) fn enter(self) -> Result<FrameReading, Outside>
        ensures { MatchResult result (λ reading.
            IsLetIn (series_of self) (seen_of self) reading.part.value.frame.value
            (known reading.place))
            (λ outside. (series_of outside ≡ series_of self)
            × (seen_of outside ≡ seen_of self)) }
    {
        match self {
            Outside::Left(reader) => match reader.enter_as::<Entering>() {
                Ok(reading) => Ok(reading),
                Err(reader) => Err(Outside::Left(reader)),
            },
            Outside::Refused(reader) => match reader.enter_as::<EnteringAgain>() {
                Ok(reading) => Ok(reading),
                Err(reader) => Err(Outside::Refused(reader)),
            },
        }
    }
}
