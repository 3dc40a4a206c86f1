//! The normals of keys by the field of a frame.

ghost use Rattle.std.specs.Prelude.{◌≡◌};
ghost use Rattle.lattice.specs.Key.{IsKey};
ghost use Rattle.snapshots.specs.Frame.{IsSound};
ghost use Rattle.surface_normals.specs.Normals.{normal_of};
ghost use Rattle.terrain.specs.History.{sample};

use lattice::Key;
use snapshots::Frame;
use surface_normals::Normal;

/// Returns the normal of a key of the frame's world, by the frame's field: the slopes of the field at the key's ends,
/// weighed as the key's vertex lies between them. So the key has this one normal in whichever blocks it is. It is meant
/// to lead to where samples rise, so to the empty side, and may be 0; its length says nothing.
pub fn normal(frame: &Frame, key: Key) -> Normal
    requires sound { IsSound frame.now }
    requires key { IsKey frame.now.settings.depth key }
    ensures { result ≡ normal_of frame.now.settings.depth
        (sample frame.now.settings frame.now.events) key }
{
    surface_normals::normal(frame.version(), key)
}
