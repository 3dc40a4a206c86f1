//! Spare frames: those that were shown before, which take turns with the one that is shown.
//!
//! Nobody needs the frame of two publications ago any more, unless a viewer keeps it. So the next publication makes no
//! frame: that one absorbs the patches that it lacks, and is shown again. A publication then costs by its patch and the
//! two before. Where somebody still has the oldest frame, the shown one is copied.

ghost use Rattle.std.specs.Prelude.{◌≡◌, IfOk};
ghost use Rattle.std.specs.Arc.{arc_value};
ghost use Rattle.snapshots.specs.Absorbed.{LeadsTo, StaysSound, absorbed};
ghost use Rattle.snapshots.specs.Frame.{FrameState};

use core::mem::replace;
use snapshots::{Frame, Patch};
use std::alloc::{AllocError, Global};
use std::sync::Arc;

/// A frame that was shown, and the patch that led from it to the next one.
#[derive(Drop)]
pub(crate) struct Spare {
    frame: Arc<Frame>,
    patch: Patch,
}

impl Spare {
    ghost use Rattle.published_frames.specs.Spares.{after_patch};

    /// Returns a frame like the shown one: this one, which absorbs its own patch and that of the last one, or a copy
    /// where somebody still has this one. Out of memory is the only error.
    fn brought_up(self, alloc: Global, shown: &Frame, last: &Patch) -> Result<Frame, AllocError>
        requires { absorbed (after_patch self) last.now ≡ shown.now }
        ensures { IfOk result (λ frame. frame ≡ shown.now) }
    {
        let Spare { frame, patch } = self;
        let brought_up = match Arc::try_unwrap(frame) {
            Ok(frame) => after_both(alloc, frame, &patch, last),
            Err(frame) => {
                drop(frame);
                shown.try_clone(alloc)
            }
        };
        drop(patch);
        brought_up
    }
}

/// The two frames that were shown before the present one, as far as they are there: the last one, to which readers may
/// still come, and the oldest one, which is the next to be shown.
#[derive(Drop)]
pub(crate) struct Spares {
    last: Option<Spare>,
    oldest: Option<Spare>,
}

impl Spares {
    ghost use Rattle.published_frames.specs.Spares.{LeadUpTo};

    /// Returns no spare frames.
    pub(crate) fn none() -> Spares
        ensures { (shown : FrameState) → LeadUpTo result shown }
    {
        Spares {
            last: None,
            oldest: None,
        }
    }

    /// Returns the frame to which a patch leads from the shown one. Out of memory is the only error.
    pub(crate) fn next(
        &mut self,
        alloc: Global,
        shown: &Frame,
        patch: &Patch,
    ) -> Result<Frame, AllocError>
        requires { LeadUpTo self.old shown.now }
        ensures spares { LeadUpTo self.new shown.now }
        ensures absorbed { IfOk result (λ next. next ≡ absorbed shown.now patch.now) }
        ensures leads { IfOk result (LeadsTo shown.now patch.now) }
        ensures sound { IfOk result (StaysSound shown.now patch.now) }
    {
        let frame = self.brought_up(alloc, shown)?;
        after_one(alloc, frame, patch)
    }

    /// Returns a frame like the shown one: the oldest one, which absorbs what it lacks, or a copy where there is none
    /// or somebody still has it. Out of memory is the only error. The oldest one isn't there any more then.
    fn brought_up(&mut self, alloc: Global, shown: &Frame) -> Result<Frame, AllocError>
        requires { LeadUpTo self.old shown.now }
        ensures spares { LeadUpTo self.new shown.now }
        ensures same { IfOk result (λ frame. frame ≡ shown.now) }
    {
        let Some(last) = &self.last else {
            return shown.try_clone(alloc);
        };
        let Some(oldest) = self.oldest.take() else {
            return shown.try_clone(alloc);
        };
        oldest.brought_up(alloc, shown, &last.patch)
    }

    /// Takes in the frame that was shown until now, with the patch that led from it to the present one.
    pub(crate) fn take_in(&mut self, frame: Arc<Frame>, patch: Patch)
        requires { LeadUpTo self.old (arc_value frame) }
        ensures { LeadUpTo self.new (absorbed (arc_value frame) patch) }
    {
        let last = self.last.replace(Spare { frame, patch });
        drop(replace(&mut self.oldest, last));
    }
}

/// Returns a frame that has absorbed a patch. Out of memory is the only error.
fn after_one(alloc: Global, mut frame: Frame, patch: &Patch) -> Result<Frame, AllocError>
    ensures absorbed { IfOk result (λ after. after ≡ absorbed frame patch.now) }
    ensures leads { IfOk result (LeadsTo frame patch.now) }
    ensures sound { IfOk result (StaysSound frame patch.now) }
{
    match frame.absorb(alloc, patch) {
        Ok(()) => Ok(frame),
        Err(error) => {
            drop(frame);
            Err(error)
        }
    }
}

/// Returns a frame that has absorbed one patch and then another. Out of memory is the only error.
fn after_both(
    alloc: Global,
    frame: Frame,
    first: &Patch,
    second: &Patch,
) -> Result<Frame, AllocError>
    ensures { IfOk result (λ after. after ≡ absorbed (absorbed frame first.now) second.now) }
{
    let frame = after_one(alloc, frame, first)?;
    after_one(alloc, frame, second)
}
