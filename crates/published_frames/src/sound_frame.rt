//! Pointers to frames that are known to be sound.

ghost use Rattle.std.specs.Prelude.{◌≡◌, ◌↔◌, IfOk, IsTrue};
ghost use Rattle.std.specs.Arc.{arc_value};
ghost use Rattle.published_frames.specs.Pasts.{Continues, past_of};
ghost use Rattle.snapshots.specs.Frame.{IsSound};

use crate::journal::begins_with;
use snapshots::Frame;
use std::alloc::AllocError;
use std::marker::Model;
use std::sync::Arc;

/// A pointer to a sound frame, which keeps it.
///
/// Contracts see the frame.
#[derive(Drop)]
pub(crate) struct SoundFrame {
    frame: Arc<Frame>,
}

impl Model for SoundFrame {
    ghost use Rattle.snapshots.specs.Frame.{FrameState, IsSound};

    ghost Value = { FrameState };

    ghost view = { λ sound. sound.frame.value };

    ghost invariant = { λ sound. IsSound sound.frame.value };
}

impl SoundFrame {
    /// Keeps a frame.
    pub(crate) fn of(frame: Arc<Frame>) -> SoundFrame
        requires { IsSound (arc_value frame) }
        ensures { result ≡ arc_value frame }
    {
        SoundFrame { frame }
    }

    /// Lends the frame.
    pub(crate) fn frame(&self) -> &Frame
        ensures value { result.now ≡ self.now }
        ensures sound { IsSound result.now }
    {
        &self.frame
    }

    /// Returns a pointer to the frame, which keeps it. Out of memory is the only error.
    pub(crate) fn share(&self) -> Result<Arc<Frame>, AllocError>
        ensures value { IfOk result (λ frame. arc_value frame ≡ self.now) }
        ensures sound { IfOk result (λ frame. IsSound (arc_value frame)) }
    {
        Arc::try_clone(&self.frame)
    }

    /// Returns whether another frame goes on from this one.
    pub(crate) fn is_before(&self, frame: &Frame) -> bool
        requires { IsSound frame.now }
        ensures { IsTrue result ↔ Continues frame.now (past_of self.now) }
    {
        frame.settings() == self.frame.settings()
            && begins_with(frame.events(), self.frame.events())
    }
}
