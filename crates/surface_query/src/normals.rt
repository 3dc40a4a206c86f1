//! The normals of keys by the field of a frame, beside a brick.

ghost use Rattle.std.specs.Prelude.{◌≡◌, IfSome};
ghost use Rattle.lattice.specs.Key.{IsKey};
ghost use Rattle.snapshots.specs.Frame.{IsSound};
ghost use Rattle.surface_normals.specs.Inner.{HasLeafSamples};
ghost use Rattle.surface_normals.specs.Normals.{normal_of};
ghost use Rattle.terrain.specs.History.{sample};

use bricks::BrickView;
use lattice::Key;
use snapshots::Frame;
use surface_normals::Normal;

/// Returns the normal of a key of the frame's world, as `normal` does: by the samples of a brick of the frame, if there
/// is one and the key lies in its leaf.
#[inline(always)]
pub(crate) fn normal_beside(frame: &Frame, brick: Option<&BrickView<'_>>, key: Key) -> Normal
    requires sound { IsSound frame.now }
    requires key { IsKey frame.now.settings.depth key }
    requires brick { IfSome brick (λ lists. HasLeafSamples frame.now.settings.depth
        (sample frame.now.settings frame.now.events) lists.now) }
    ensures { result ≡ normal_of frame.now.settings.depth
        (sample frame.now.settings frame.now.events) key }
{
    surface_normals::normal_beside(frame.version(), brick, key)
}
