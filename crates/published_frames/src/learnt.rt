//! What a viewer has learnt since it last left a frame.
//!
//! A viewer has to enter a frame that goes on from all of which it has learnt. Of frames of one publication the latest
//! says what all of them say, so one is kept; only frames of two publications may both have to be kept, and then no
//! frame goes on from both. So a viewer keeps two frames at most, however much it learns, and learning takes no memory.

use crate::sound_frame::SoundFrame;
use snapshots::Frame;

/// The learnt frames that still say something: one from which another learnt frame goes on doesn't.
#[derive(Drop)]
pub(crate) enum Learnt {
    /// Nothing was learnt.
    Nothing,
    /// One frame that goes on from all others.
    Newest(SoundFrame),
    /// Two frames of which neither goes on from the other, as those of two publications. No frame goes on from both.
    Apart(SoundFrame, SoundFrame),
}

impl Learnt {
    ghost use Rattle.std.specs.Prelude.{◌∷◌, ◌↔◌, [], IsTrue};
    ghost use Rattle.published_frames.specs.Seen.{AreUnrelated, pasts_of};
    ghost use Rattle.published_frames.specs.Pasts.{GoesOnFromAll, IsAsMuch, past_of};
    ghost use Rattle.snapshots.specs.Frame.{IsSound};

    /// Returns what was learnt with one frame more.
    pub(crate) fn and(self, frame: SoundFrame) -> Learnt
        requires { AreUnrelated self }
        ensures unrelated { AreUnrelated result }
        ensures as_much { IsAsMuch (pasts_of result) (past_of frame ∷ pasts_of self) }
    {
        match self {
            Learnt::Nothing => Learnt::Newest(frame),
            Learnt::Newest(newest) => Learnt::later_of(frame, newest),
            Learnt::Apart(one, other) => Learnt::Apart(one, other),
        }
    }

    /// Returns what two frames say together.
    fn later_of(one: SoundFrame, other: SoundFrame) -> Learnt
        ensures unrelated { AreUnrelated result }
        ensures as_much { IsAsMuch (pasts_of result) (past_of one ∷ past_of other ∷ []) }
    {
        if other.is_before(one.frame()) {
            Learnt::Newest(one)
        } else if one.is_before(other.frame()) {
            Learnt::Newest(other)
        } else {
            Learnt::Apart(one, other)
        }
    }

    /// Returns whether a frame goes on from all that was learnt.
    pub(crate) fn is_before(&self, frame: &Frame) -> bool
        requires unrelated { AreUnrelated self.now }
        requires sound { IsSound frame.now }
        ensures { IsTrue result ↔ GoesOnFromAll frame.now (pasts_of self.now) }
    {
        match self {
            Learnt::Nothing => true,
            Learnt::Newest(newest) => newest.is_before(frame),
            Learnt::Apart(_, _) => false,
        }
    }
}
