//! The normals of the keys of a leaf's mesh.

ghost use Rattle.snapshots.specs.Frame.{IsSound};

use frame_surface::{Normal, keys_of_leaves_are_in_their_world, normal};
use lattice::Node;
use snapshots::Frame;

/// Returns the normal of a key of a leaf's mesh, by its place among them; none where there is no such key.
pub(crate) fn normal_at(frame: &Frame, leaf: Node, place: usize) -> Option<Normal>
    requires { IsSound frame.now }
{
    keys_of_leaves_are_in_their_world();
    let block = frame.block(leaf)?;
    let key = *block.keys.get(place)?;
    Some(normal(frame, key))
}
