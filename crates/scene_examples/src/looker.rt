//! A viewer that looks again and again, and may learn news in between.

ghost use Rattle.std.specs.Prelude.{IfSome};
ghost use Rattle.fault_counts.specs.Counts.{HasRisen};

use crate::asserts::{expect_made, expect_some};
use crate::stage::SMALL;
use lattice::Node;
use published_frames::{Entered, NoPlace, PlainDoor, Told, Viewer};
use std::process::Abort;

/// A viewer and a door of its own.
#[derive(Drop)]
pub struct Looker {
    /// It is elsewhere while it is in a frame.
    viewer: Option<Viewer>,
    door: PlainDoor,
}

impl Looker {
    /// Returns the last of these viewers, which isn't among them any more, with a new door.
    pub fn last_of(viewers: &mut Vec<Viewer>) -> Looker {
        Looker {
            viewer: viewers.pop(),
            door: PlainDoor::new(),
        }
    }

    /// Takes the viewer out of its place, where it has to be.
    fn take(&mut self, rt: &impl Abort) -> Viewer {
        expect_some(rt, self.viewer.take(), "no viewer")
    }

    /// Has the viewer learn news.
    pub fn learn(&mut self, rt: &impl Abort, news: Told) {
        self.viewer = Some(self.take(rt).learn(news));
    }

    /// Enters the frame that is shown, for which the viewer has to be let in.
    pub fn enter(&mut self, rt: &impl Abort) -> Entered {
        expect_made(rt, self.take(rt).enter(&mut self.door))
    }

    /// Leaves a frame.
    pub fn leave(&mut self, entered: Entered) {
        self.viewer = Some(entered.leave());
    }

    /// Returns how many events the frame has that is shown, and whether the root of the small world is a leaf there.
    pub fn look(&mut self, rt: &impl Abort) -> (usize, bool) {
        let entered = self.enter(rt);
        let count = entered.events().len();
        let is_whole = entered.block(Node::root(SMALL.depth)).is_some();
        self.leave(entered);
        (count, is_whole)
    }

    /// Returns whether the viewer isn't let in.
    pub fn is_refused(&mut self, rt: &impl Abort) -> bool {
        let viewer = self.take(rt);
        self.viewer = refused(viewer, &mut self.door);
        self.viewer.is_some()
    }
}

/// Returns the viewer that isn't let in, for which the door's count rose.
fn refused(viewer: Viewer, door: &mut PlainDoor) -> Option<Viewer>
    ensures { IfSome result (λ _. HasRisen door.old.refusals door.new.refusals) }
{
    match viewer.enter(door) {
        Ok(_) => None,
        Err(NoPlace { viewer }) => Some(viewer),
    }
}
