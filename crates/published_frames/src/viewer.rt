//! Viewers, and the frames that they enter.
//!
//! What a viewer has seen is kept by its reader, under the rule of publication, and what it has learnt beside it. So
//! `Viewer::enter_now` compares the frame that the reader enters with what was learnt, and lets the reader leave again
//! where the frame doesn't go on from that.

ghost use Rattle.std.specs.Prelude.{◌≡◌, ◌≤◌, ◌∷◌, ◌↔◌, [], IfOk, IfSome, IsSome, MatchResult, length, take};
ghost use Rattle.std.specs.Arc.{arc_value};
ghost use Rattle.left_right.specs.Sides.{view as known};
ghost use Rattle.published_frames.specs.Pasts.{IsAsMuch, past_of};
ghost use Rattle.published_frames.specs.States.{IsEntry, viewer_after};
ghost use Rattle.snapshots.specs.Frame.{IsSound, mesh_after};
ghost use Rattle.snapshots.specs.Seamless.{HasNoCrack};
ghost use Rattle.block_mesh.specs.Mesh.{IsMesh, ShowsMesh};
ghost use Rattle.terrain.specs.MeshLists.{lists_of};
ghost use Rattle.terrain.specs.Levels.{IsLeaf, levels};
ghost use Rattle.terrain.specs.declared.event.TheConstants.{MAX_EVENTS};

use crate::learnt::Learnt;
use crate::news::Told;
use crate::outside::Outside;
use crate::rule::{FrameReader, FrameReading};
use block_mesh::BlockView;
use lattice::Node;
use snapshots::{Frame, sound_frames_have_no_crack};
use std::alloc::AllocError;
use std::fmt;
use std::marker::Model;
use std::sync::Arc;
use terrain::Event;
use thiserror::Error;

/// Whoever enters published frames, one after another, perhaps in a thread of its own.
///
/// Contracts see the series whose frames it enters, which stays, and what it has seen and learnt, as the settings and
/// journals of frames. That begins with the frame that was published when it was made, and begins anew with each frame
/// that it leaves.
pub struct Viewer {
    outside: Outside,
    learnt: Learnt,
}

impl Model for Viewer {
    ghost use Rattle.std.specs.Prelude.{◌++◌};
    ghost use Rattle.published_frames.specs.Seen.{AreUnrelated, pasts_of, seen_of, series_of};
    ghost use Rattle.published_frames.specs.States.{ViewerState};

    ghost Value = { ViewerState };

    ghost view = { λ viewer. record {
      series = series_of viewer.outside;
      seen = pasts_of viewer.learnt ++ seen_of viewer.outside;
    } };

    ghost invariant = { λ viewer. AreUnrelated viewer.learnt };
}

// Written out, since a derived drop is proved anew in each crate that drops a viewer.
impl Drop for Viewer {
    fn drop(self) {
        let Self {
            outside: _outside,
            learnt: _learnt,
        } = self;
    }
}

/// A viewer with the frame that it has entered, which stays as it is until the viewer leaves it. To drop it is to leave
/// the frame, and to end the viewer.
///
/// Contracts see the frame, and the series that it is of.
pub struct Entered {
    reading: FrameReading,
}

impl Model for Entered {
    ghost use Rattle.std.specs.Prelude.{◌≡◌, ◌∷◌, [], take};
    ghost use Rattle.left_right.specs.Sides.{view as known};
    ghost use Rattle.published_frames.specs.Pasts.{past_of};
    ghost use Rattle.published_frames.specs.States.{EnteredState};
    ghost use Rattle.snapshots.specs.Frame.{IsSound};

    ghost Value = { EnteredState };

    ghost view = { λ entered. record {
      series = (known entered.reading.place).series;
      frame = entered.reading.part.value.frame.value;
    } };

    ghost invariant = { λ entered. let frame = entered.reading.part.value.frame.value in
        IsSound frame × (take 1 (known entered.reading.place).seen ≡ past_of frame ∷ []) };
}

impl Drop for Entered {
    fn drop(self) {
        let Self { reading } = self;
        drop(reading.leave());
    }
}

/// A door let no viewer in. The viewer is as it was.
#[derive(Drop, Error)]
#[error("no place for a viewer")]
pub struct NoPlace {
    /// The viewer that was not let in.
    pub viewer: Viewer,
}

// The frames that the viewer keeps aren't printed.
impl fmt::Debug for NoPlace {
    fn fmt<W: fmt::Write>(&self, f: &mut fmt::Formatter<W>) -> fmt::Result {
        f.write_str("NoPlace")
    }
}

impl Viewer {
    /// Returns the viewer that has seen the frame which its reader knows, of the series that its reader knows.
    pub(crate) fn of_reader(reader: FrameReader) -> Viewer
        ensures { result ≡ record {
          series = (known reader.place).series;
          seen = take 1 (known reader.place).seen;
        } }
    {
        Viewer {
            outside: Outside::Left(reader),
            learnt: Learnt::Nothing,
        }
    }

    /// Returns the viewer, which has learnt the news of a publication: each frame that it enters from then on goes on
    /// from the published one too. Its series stays. So a viewer that learns the news of another series is let in only
    /// where the frame of its own that is published then happens to go on from that one.
    ///
    /// It takes no memory. The viewer keeps the frame until it enters one, or learns of one that goes on from it.
    pub fn learn(self, news: Told) -> Viewer
        ensures series { result.series ≡ self.series }
        ensures seen { IsAsMuch result.seen (past_of news.frame ∷ self.seen) }
    {
        let Viewer { outside, learnt } = self;
        Viewer {
            outside,
            learnt: learnt.and(news.into_frame()),
        }
    }

    /// Enters the frame that is published now. The viewer comes back where it isn't let in, or where that frame doesn't
    /// go on from all that it has learnt, as may be where it learnt the news of another publisher.
    pub(crate) fn enter_now(self) -> Result<Entered, Viewer>
        ensures { MatchResult result (IsEntry self) (λ viewer. viewer ≡ self) }
    {
        let Viewer { outside, learnt } = self;
        match outside.enter() {
            Ok(reading) if learnt.is_before(&reading.get().frame) => {
                drop(learnt);
                Ok(Entered { reading })
            }
            Ok(reading) => Err(Viewer {
                outside: Outside::Refused(reading.leave()),
                learnt,
            }),
            Err(outside) => Err(Viewer { outside, learnt }),
        }
    }
}

impl Entered {
    /// Lends the frame.
    pub fn frame(&self) -> &Frame
        ensures value { result.now ≡ self.now.frame }
        ensures sound { IsSound result.now }
        ensures seamless { HasNoCrack result.now }
    {
        sound_frames_have_no_crack();
        &self.reading.get().frame
    }

    /// Lends the journal of the frame.
    pub fn events(&self) -> &[Event]
        ensures value { result.now ≡ self.now.frame.events }
        ensures few { length result.now ≤ MAX_EVENTS }
    {
        self.frame().events()
    }

    /// Lends the lists of a leaf's mesh; a node that isn't a leaf of the frame has none.
    pub fn block(&self, node: Node) -> Option<BlockView<'_>>
        ensures leaf { let frame = self.now.frame in IsSome result
            ↔ IsLeaf frame.settings.depth (levels frame.settings frame.events) node }
        ensures mesh { let frame = self.now.frame in IfSome result (λ view.
            ShowsMesh (lists_of view) (mesh_after frame.settings frame.events node)) }
        ensures lists { IfSome result (λ view. IsMesh (lists_of view)) }
    {
        self.frame().block(node)
    }

    /// Returns a pointer to the frame, which keeps it when the viewer has left it. Out of memory is the only error.
    pub fn share(&self) -> Result<Arc<Frame>, AllocError>
        ensures value { IfOk result (λ frame. arc_value frame ≡ self.now.frame) }
        ensures sound { IfOk result (λ frame. IsSound (arc_value frame)) }
    {
        Arc::try_clone(&self.reading.get().frame)
    }

    /// Leaves the frame, and returns the viewer, which has seen it.
    pub fn leave(self) -> Viewer
        ensures { result ≡ viewer_after self }
    {
        let Entered { reading } = self;
        Viewer {
            outside: Outside::Left(reading.leave()),
            learnt: Learnt::Nothing,
        }
    }
}
