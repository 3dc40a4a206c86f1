//! The laws of what a list of events touches.

ghost use Rattle.event_laws.specs.Laws.{BricksStay, LeavesStay, NoneTouchNone, TouchedAddUp};

use crate::touched::untouched_leaves_keep_their_bricks;

/// The law of which nodes a list of events touches: no events touch none, and one event more touches those of the
/// others and its own.
pub fn touched_nodes_add_up()
    ensures none { NoneTouchNone }
    ensures more { TouchedAddUp }
{}

/// The law that a leaf after some events which none of them touches was a leaf before them, and has the brick that it
/// had.
pub fn leaves_keep_their_bricks_until_touched()
    ensures leaf { LeavesStay }
    ensures brick { BricksStay }
{
    untouched_leaves_keep_their_bricks();
}
