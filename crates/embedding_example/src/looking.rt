//! A viewer that enters one frame after another.

use anyhow::{Context, Result};
use scenes::{Audit, PlainDoor, Told, Viewer};
use std::alloc::Global;

/// Who looks at the frames of a scene, by a viewer.
#[derive(Drop)]
pub(crate) struct Looker {
    /// It is elsewhere while it is in a frame.
    viewer: Option<Viewer>,
}

impl Looker {
    /// Returns who looks by the last of some viewers, which isn't among them any more.
    pub(crate) fn last_of(viewers: &mut Vec<Viewer>) -> Looker {
        Looker {
            viewer: viewers.pop(),
        }
    }

    /// Takes in the news of a publication.
    pub(crate) fn learn(&mut self, news: Told) {
        match self.viewer.take() {
            Some(viewer) => self.keep(viewer.learn(news)),
            None => drop(news),
        }
    }

    /// Enters the frame that is shown, leaves it again, and returns its audit.
    pub(crate) fn look(&mut self, alloc: Global) -> Result<Audit> {
        let viewer = self.viewer.take().context("the viewer is gone")?;
        let entered = viewer.enter(&mut PlainDoor::new())?;
        let audit = Audit::of(alloc, entered.frame());
        self.keep(entered.leave());
        Ok(audit?)
    }

    /// Keeps the viewer for the next time.
    fn keep(&mut self, viewer: Viewer) {
        drop(self.viewer.replace(viewer));
    }
}
