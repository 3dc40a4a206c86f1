//! The value that is published: a pointer to a frame.

ghost use Rattle.std.specs.Prelude.{◌≡◌, IsOk, MatchResult};

use left_right::Absorb;
use snapshots::Frame;
use std::alloc::AllocError;
use std::sync::Arc;

/// The pointer to the frame that is published. An operation is a pointer to the next frame, and takes the place of what
/// was there: of several that are pending the last one is shown.
#[derive(Drop)]
pub struct Shown {
    pub frame: Arc<Frame>,
}

impl Absorb<Arc<Frame>> for Shown {
    type State = Frame;

    ghost state = { λ shown. shown.frame.value };

    ghost applied = { λ _ next. next.value };

    fn absorb_first(&mut self, operation: &Arc<Frame>, _other: &Shown) -> Result<(), AllocError> {
        self.frame = Arc::try_clone(operation)?;
        Ok(())
    }

    fn absorb_second(&mut self, operation: Arc<Frame>, _other: &Shown) -> Result<(), Arc<Frame>> {
        self.frame = operation;
        Ok(())
    }
}
