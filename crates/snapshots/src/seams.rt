//! The laws that no mesh of a history has a crack, and that no sound frame has one.

ghost use Rattle.std.specs.Prelude.{◌≡◌, List};
ghost use Rattle.lattice.specs.declared.settings.Settings.{Settings};
ghost use Rattle.snapshots.specs.Frame.{FrameState, IsSound};
ghost use Rattle.snapshots.specs.Meshes.{meshes_of};
ghost use Rattle.snapshots.specs.Seamless.{HasNoCrack, IsSeamless};
ghost use Rattle.terrain.specs.Blocks.{scratch};
ghost use Rattle.terrain.specs.declared.event.Event.{Event};

use cell_laws::keys_are_told_apart;
use octree::maps_of_viewpoints_are_balanced;
use seam_laws::no_crack;

/// The law that the mesh from scratch of every history is seamless: each directed edge off the border of the world
/// occurs as often as its reverse, and each key has one position, whichever blocks it is in.
pub fn histories_are_seamless()
    ensures { (rules : Settings) (history : List Event) → IsSeamless rules history }
{
    maps_of_viewpoints_are_balanced();
    no_crack();
}

/// The law that the meshes in a sound frame's own slots are those from scratch of its journal, and that they have no
/// crack between them.
pub fn sound_frames_have_no_crack()
    ensures meshes { (frame : FrameState) → IsSound frame
        → meshes_of frame ≡ scratch frame.settings frame.events }
    ensures seamless { (frame : FrameState) → IsSound frame → HasNoCrack frame }
{
    histories_are_seamless();
    keys_are_told_apart();
}
