//! The law of chains.

ghost use Rattle.patch_wire.specs.Chain.{ReplicasShowLastFrames, WiresReachLastFrames};

use cell_laws::triangles_are_few;
use event_laws::{leaves_keep_their_bricks_until_touched, levels_follow_the_viewpoints};
use replicas::replicas_show_what_comes_of_their_bytes;

/// The law that the wire of a chain of patches, from the opening frame of a world on, leads to the last frame: all of
/// it is taken, and what is shown then is the frame's journal and at each node the frame's block. So a replica that was
/// fed with it, in any pieces, shows that frame, but where memory ran out.
///
/// Each undo in the journal needs an edit in force before it.
pub fn wires_lead_to_last_frames()
    ensures wires { WiresReachLastFrames }
    ensures replicas { ReplicasShowLastFrames }
{
    triangles_are_few();
    leaves_keep_their_bricks_until_touched();
    levels_follow_the_viewpoints();
    replicas_show_what_comes_of_their_bytes();
}
