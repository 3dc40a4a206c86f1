//! The publisher.

ghost use Rattle.std.specs.Prelude.{◌≡◌, ◌+◌, ◌<◌, ◌≤◌, ◌++◌, ◌∷◌, [], IfOk, IfSome, MatchOption, MatchResult, OnErr, OnOk, length, map};
ghost use Rattle.std.specs.Arc.{arc_value};
ghost use Rattle.left_right.specs.Sides.{view as known};
ghost use Rattle.published_frames.specs.News.{leaf_of};
ghost use Rattle.published_frames.specs.Pasts.{Continues, past_of};
ghost use Rattle.published_frames.specs.Rule.{known_first, known_next};
ghost use Rattle.published_frames.specs.States.{viewer_of, with_viewer};
ghost use Rattle.published_frames.specs.Spares.{LeadUpTo};
ghost use Rattle.event_laws.specs.Changes.{change};
ghost use Rattle.snapshots.specs.Absorbed.{absorbed};
ghost use Rattle.snapshots.specs.Frame.{IsSound, StandsFor};
ghost use Rattle.snapshots.specs.Patch.{Fits};
ghost use Rattle.snapshots.specs.Seamless.{HasNoCrack};
ghost use Rattle.terrain.specs.declared.event.TheConstants.{MAX_EVENTS};

use crate::news::Told;
use crate::rule::{FrameWriter, Opening, Passing, Publishing};
use crate::shown::Shown;
use crate::sound_frame::SoundFrame;
use crate::spares::Spares;
use crate::viewer::Viewer;
use block_mesh::Block;
use core::mem::{replace, replace_with};
use lattice::Node;
use snapshots::{Frame, Patch, sound_frames_have_no_crack};
use std::alloc::{AllocError, Global};
use std::marker::Model;
use std::snapshot::Snapshot;
use std::sync::{Arc, Wait};

/// The one that publishes frames. Contracts see the series of its frames, which stays, the frame that is published, and
/// how many viewers it has given. End it by `close`.
pub struct Publisher {
    writer: FrameWriter,
    frame: Arc<Frame>,
    spares: Spares,
    /// What was shown first, for contracts.
    first: Snapshot<Shown>,
    /// How many viewers it has given.
    viewers: u64,
}

impl Model for Publisher {
    ghost use Rattle.std.specs.Prelude.{◌≡◌, ◌∷◌, [], Some};
    ghost use Rattle.left_right.specs.Sides.{view as known};
    ghost use Rattle.published_frames.specs.Pasts.{past_of};
    ghost use Rattle.published_frames.specs.States.{PublisherState};
    ghost use Rattle.published_frames.specs.Spares.{LeadUpTo};
    ghost use Rattle.snapshots.specs.Frame.{IsSound};

    ghost Value = { PublisherState };

    ghost view = { λ publisher. record {
      series = Some publisher.first.value;
      frame = publisher.frame.value;
      viewers = publisher.viewers;
    } };

    ghost invariant = { λ publisher. IsSound publisher.frame.value
        × (publisher.writer.desk.shown.value.frame.value ≡ publisher.frame.value)
        × (known publisher.writer.desk.place ≡ record {
          series = Some publisher.first.value;
          seen = past_of publisher.frame.value ∷ [];
        })
        × LeadUpTo publisher.spares publisher.frame.value };
}

impl Publisher {
    /// Shows a frame, the first of a series, with places for so many viewers, and gives none yet. Out of memory is the
    /// only error.
    pub(crate) fn open<R: Wait>(
        rt: &R,
        alloc: Global,
        frame: Frame,
        places: u8,
    ) -> Result<Publisher, AllocError>
        requires { (IsSound frame) × (0 < places) }
        ensures { IfOk result (λ publisher. (publisher.frame ≡ frame)
            × (publisher.viewers ≡ 0)) }
    {
        let frame = Arc::new(alloc, frame)?;
        let next = Arc::try_clone(&frame)?;
        let first = Shown {
            frame: Arc::try_clone(&frame)?,
        };
        let second = Shown {
            frame: Arc::try_clone(&frame)?,
        };
        let writer = FrameWriter::new(alloc, first, second, usize::from(places))?;
        let (writer, outcome) = show_first(rt, writer, next);
        if outcome.is_err() {
            drop(writer.take(rt));
            return Err(AllocError);
        }
        let first = Snapshot::of(writer.published());
        Ok(Publisher {
            writer,
            frame,
            spares: Spares::none(),
            first,
            viewers: 0,
        })
    }

    /// Publishes the frame to which a patch leads, and returns the news of it, for viewers to learn: its leaves that
    /// the patch puts, and those of the frame before that are gone. Out of memory is the only error, and leaves the
    /// published frame.
    ///
    /// The frame that is published then has no crack, also after an error: among the triangles of its own blocks each
    /// directed edge off the border of the world occurs as often as its reverse, and each key has one position.
    ///
    /// It waits for viewers that are still in the frame before the published one.
    pub fn publish<R: Wait>(
        &mut self,
        rt: &R,
        alloc: Global,
        patch: Patch,
    ) -> Result<Told, AllocError>
        requires fits { Fits patch self.old.frame }
        requires room { length self.old.frame.events + length patch.events.items ≤ MAX_EVENTS }
        ensures same { self.new ≡ record self.old { frame = self.new.frame } }
        ensures sound { IsSound self.new.frame }
        ensures stands { OnOk result (StandsFor self.new.frame self.old.frame.settings
            (self.old.frame.events ++ patch.events.items)) }
        ensures seamless { HasNoCrack self.new.frame }
        ensures news { IfOk result (λ news. news.frame ≡ self.new.frame) }
        ensures changes { IfOk result (λ news. news.changes
            ≡ change self.old.frame.settings self.old.frame.events patch.events.items) }
        ensures unchanged { OnErr result (self.new ≡ self.old) }
    {
        sound_frames_have_no_crack();
        let Ok(news) = next_news(alloc, &mut self.spares, &self.frame, &patch) else {
            drop(patch);
            return Err(AllocError);
        };
        let Ok(shown) = show_next(rt, &mut self.writer, &mut self.frame, news.frame()) else {
            drop((patch, news));
            return Err(AllocError);
        };
        self.spares.take_in(shown, patch);
        Ok(news)
    }

    /// Lends the published frame.
    pub fn shown(&self) -> &Frame
        ensures value { result.now ≡ self.now.frame }
        ensures sound { IsSound result.now }
        ensures seamless { HasNoCrack result.now }
    {
        sound_frames_have_no_crack();
        &self.frame
    }

    /// Makes a viewer of its own that has seen the published frame, if there is a place for it.
    pub(crate) fn seat(&mut self) -> Option<Viewer>
        ensures given { MatchOption result (self.new ≡ self.old)
            (λ _. self.new ≡ with_viewer self.old) }
        ensures own { IfSome result (λ viewer. viewer ≡ viewer_of self.old) }
    {
        let mut reader = self.writer.factory().reader().ok()?;
        reader.learn::<Passing>(self.writer.tell::<Passing>());
        self.viewers = self.viewers.saturating_add(1);
        Some(Viewer::of_reader(reader))
    }

    /// Ends the publisher. Viewers that enter later are refused.
    ///
    /// It waits for viewers that are still in a frame.
    pub fn close<R: Wait>(self, rt: &R) {
        let Publisher {
            writer,
            frame,
            spares,
            first: _,
            viewers: _,
        } = self;
        drop((frame, spares));
        drop(writer.take(rt));
    }
}

/// Returns the leaves of these blocks. Out of memory is the only error.
fn nodes_of(alloc: Global, blocks: &[Arc<Block>]) -> Result<Vec<Node>, AllocError>
    ensures { IfOk result (λ nodes. nodes.items
        ≡ map (λ done. leaf_of (arc_value done)) blocks.now) }
{
    blocks.iter().map(|done| done.node()).collect(alloc)
}

/// Returns the news of the frame to which a patch leads from the shown one, which goes on from that. Out of memory is
/// the only error.
fn next_news(
    alloc: Global,
    spares: &mut Spares,
    shown: &Frame,
    patch: &Patch,
) -> Result<Told, AllocError>
    requires spares { LeadUpTo spares.old shown.now }
    requires sound { IsSound shown.now }
    requires fits { Fits patch.now shown.now }
    requires room { length shown.now.events + length patch.now.events.items ≤ MAX_EVENTS }
    ensures spares { LeadUpTo spares.new shown.now }
    ensures absorbed { IfOk result (λ news. news.frame ≡ absorbed shown.now patch.now) }
    ensures sound { IfOk result (λ news. IsSound news.frame) }
    ensures goes_on { IfOk result (λ news. Continues news.frame (past_of shown.now)) }
    ensures stands { IfOk result (λ news. StandsFor news.frame shown.now.settings
        (shown.now.events ++ patch.now.events.items)) }
    ensures changes { IfOk result (λ news. news.changes
        ≡ change shown.now.settings shown.now.events patch.now.events.items) }
{
    let put = nodes_of(alloc, &patch.put)?;
    let gone = patch.gone.to_vec(alloc)?;
    let next = Arc::new(alloc, spares.next(alloc, shown, patch)?)?;
    Ok(Told::of(next, put, gone))
}

/// Makes the next frame the published one and the publisher's own, and returns what was the latter. Out of memory is
/// the only error, and leaves both.
fn show_next<R: Wait>(
    rt: &R,
    writer: &mut FrameWriter,
    frame: &mut Arc<Frame>,
    next: &SoundFrame,
) -> Result<Arc<Frame>, AllocError>
    requires { Continues next.now (past_of (arc_value writer.old.desk.shown.value.frame)) }
    ensures own { MatchResult result
        (λ before. (arc_value before ≡ arc_value frame.old) × (arc_value frame.new ≡ next.now))
        (λ _. arc_value frame.new ≡ arc_value frame.old) }
    ensures published { let shown = writer.new.desk.shown.value in MatchResult result
        (λ _. (arc_value shown.frame ≡ next.now)
        × (known writer.new.desk.place ≡ known_next (known writer.old.desk.place) shown))
        (λ _. (shown ≡ writer.old.desk.shown.value)
        × (known writer.new.desk.place ≡ known writer.old.desk.place)) }
{
    let own = next.share()?;
    let next = next.share()?;
    replace_with(writer, next, |writer, next| show(rt, writer, next))?;
    Ok(replace(frame, own))
}

/// Makes a frame the published one. Out of memory is the only error, and leaves the one that is published.
fn show<R: Wait>(
    rt: &R,
    mut writer: FrameWriter,
    next: Arc<Frame>,
) -> (FrameWriter, Result<(), AllocError>)
    requires sound { IsSound (arc_value next) }
    requires goes_on { Continues (arc_value next)
        (past_of (arc_value writer.desk.shown.value.frame)) }
    ensures { let shown = result.0.desk.shown.value in MatchResult result.1
        (λ _. (arc_value shown.frame ≡ arc_value next)
        × (known result.0.desk.place ≡ known_next (known writer.desk.place) shown))
        (λ _. (shown ≡ writer.desk.shown.value)
        × (known result.0.desk.place ≡ known writer.desk.place)) }
{
    let Ok(()) = writer.append(next) else {
        return (writer, Err(AllocError));
    };
    writer.publish_as::<Publishing, R>(rt)
}

/// Makes a frame the first published one of a series, which has its name from then on. Out of memory is the only error.
fn show_first<R: Wait>(
    rt: &R,
    mut writer: FrameWriter,
    next: Arc<Frame>,
) -> (FrameWriter, Result<(), AllocError>)
    requires sound { IsSound (arc_value next) }
    requires goes_on { Continues (arc_value next)
        (past_of (arc_value writer.desk.shown.value.frame)) }
    ensures { let shown = result.0.desk.shown.value in OnOk result.1
        ((arc_value shown.frame ≡ arc_value next)
        × (known result.0.desk.place ≡ known_first (known writer.desk.place) shown)) }
{
    let Ok(()) = writer.append(next) else {
        return (writer, Err(AllocError));
    };
    writer.publish_as::<Opening, R>(rt)
}
