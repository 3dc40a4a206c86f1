//! How a viewer enters by a door.
//!
//! To enter takes five calls, each for a reason of its own. `Viewer::enter` is what callers call; it adds that the
//! frame has no crack. `Door::open` may refuse, and counts that. `Viewer::enter_now` compares the frame with what the
//! viewer has learnt. `Outside::enter` knows which frame the viewer has seen last. And `enter_as` of `left_right`
//! enters, under one of the two outcomes of `rule`.

ghost use Rattle.std.specs.Prelude.{◌≡◌, IfOk, MatchResult};
ghost use Rattle.published_frames.specs.States.{IsEntry};
ghost use Rattle.snapshots.specs.Seamless.{HasNoCrack};
ghost use Rattle.fault_counts.specs.Counts.{HasRisen, next_count};

use crate::door::Door;
use crate::viewer::{Entered, NoPlace, Viewer};

impl Viewer {
    /// Enters the frame that is published now, which is of the series of this viewer and goes on from all that it has
    /// seen and learnt. The door counts one entry more. The error hands the viewer back as it was, and comes only where
    /// the door's count of refusals rose.
    ///
    /// It takes no memory and waits for nobody. After the viewer has learnt something, its time grows with the number
    /// of events that the news had. The frame has no crack: among the triangles of its own blocks each directed edge
    /// off the border of the world occurs as often as its reverse, and each key has one position.
    pub fn enter<D: Door>(self, door: &mut D) -> Result<Entered, NoPlace>
        ensures entered { MatchResult result (IsEntry self)
            (λ refused. refused.viewer ≡ self) }
        ensures seamless { IfOk result (λ entered. HasNoCrack entered.frame) }
        ensures counted { MatchResult result (λ _. D.refusals door.new ≡ D.refusals door.old)
            (λ _. HasRisen (D.refusals door.old) (D.refusals door.new)) }
        ensures entries { MatchResult result
            (λ _. D.entries door.new ≡ next_count (D.entries door.old))
            (λ _. D.entries door.new ≡ D.entries door.old) }
    {
        match door.open(self) {
            Ok(entered) => {
                let _frame = entered.frame();
                Ok(entered)
            }
            Err(refused) => Err(refused),
        }
    }
}
