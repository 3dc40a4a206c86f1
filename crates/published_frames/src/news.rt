//! News of publications, for viewers to learn and for renderers to draw from.

ghost use Rattle.std.specs.Prelude.{◌≡◌, length};
ghost use Rattle.std.specs.Arc.{arc_value};
ghost use Rattle.snapshots.specs.Frame.{IsSound};

use crate::sound_frame::SoundFrame;
use lattice::Node;
use snapshots::Frame;
use std::marker::Model;
use std::sync::Arc;

/// The news of a publication: the frame that was published, which it keeps, and what changed since the publication
/// before. A viewer learns it, perhaps in another thread.
///
/// Who draws frames looks at `gone` and `put` alone: all other leaves have the blocks that they had. Contracts see the
/// frame and the two lists.
#[derive(Drop)]
pub struct Told {
    frame: SoundFrame,
    put: Vec<Node>,
    gone: Vec<Node>,
}

impl Model for Told {
    ghost use Rattle.published_frames.specs.News.{News};

    ghost Value = { News };

    ghost view = { λ told. record {
      frame = told.frame;
      changes = record { put = told.put.items; gone = told.gone.items };
    } };
}

impl Told {
    ghost use Rattle.snapshots.specs.Frame.{FrameState};

    /// Returns the news of a frame, with the leaves whose blocks were put and those that are gone.
    pub(crate) fn of(frame: Arc<Frame>, put: Vec<Node>, gone: Vec<Node>) -> Told
        requires { IsSound (arc_value frame) }
        ensures { result ≡ record {
          frame = arc_value frame;
          changes = record { put = put.items; gone = gone.items };
        } }
    {
        Told {
            frame: SoundFrame::of(frame),
            put,
            gone,
        }
    }

    /// Returns how many events the published journal has.
    pub fn events(&self) -> u32
        ensures { result ≡ length self.now.frame.events }
    {
        self.frame.frame().events().len() as u32
    }

    /// Lends the leaves of the published frame that an event touched since the publication before, in the order of
    /// nodes. Their blocks may be other ones than before, and all other leaves have the blocks that they had.
    pub fn put(&self) -> &[Node]
        ensures { result.now ≡ self.now.changes.put }
    {
        &self.put
    }

    /// Lends the leaves of the frame before that are leaves no more, in the order of nodes.
    pub fn gone(&self) -> &[Node]
        ensures { result.now ≡ self.now.changes.gone }
    {
        &self.gone
    }

    /// Lends the frame.
    pub(crate) fn frame(&self) -> &SoundFrame
        ensures { result.now ≡ self.now.frame }
    {
        &self.frame
    }

    /// Returns the frame.
    pub(crate) fn into_frame(self) -> SoundFrame
        ensures { result ≡ self.frame }
    {
        self.frame
    }
}
