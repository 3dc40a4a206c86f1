//! The laws of where the triangles of a leaf lie.

ghost use Rattle.std.specs.Prelude.{ℕ, All, List};
ghost use Rattle.lattice.specs.declared.node.Node.{Node};
ghost use Rattle.lattice.specs.declared.settings.Settings.{Settings};
ghost use Rattle.lattice.specs.Key.{IsKey};
ghost use Rattle.snapshots.specs.Frame.{mesh_after};
ghost use Rattle.frame_surface.specs.Columns.{StandsOverNodes};
ghost use Rattle.frame_surface.specs.Surface.{LiesIn, surface_after};
ghost use Rattle.terrain.specs.Levels.{IsLeaf, levels};
ghost use Rattle.terrain.specs.declared.event.Event.{Event};

use block_mesh::fine_points_stay;
use octree::maps_of_viewpoints_are_balanced;

/// The law that the triangles of a leaf lie in the leaf's closed cube, whatever the history.
pub fn triangles_lie_in_their_leaf()
    ensures { (rules : Settings) (history : List Event) (n : Node) (i : ℕ)
        → All (LiesIn n) (surface_after rules history n i) }
{
    maps_of_viewpoints_are_balanced();
    fine_points_stay();
}

/// The law that a triangle covers heights only over places over which its leaf lies.
pub fn surfaces_stand_over_their_nodes()
    ensures { (rules : Settings) (history : List Event)
        → StandsOverNodes rules.depth (surface_after rules history) }
{
    triangles_lie_in_their_leaf();
}

/// The law that the keys of a leaf's mesh are keys of the world, so that each has a normal.
pub fn keys_of_leaves_are_in_their_world()
    ensures { (rules : Settings) (history : List Event) (n : Node)
        → IsLeaf rules.depth (levels rules history) n
        → All (IsKey rules.depth) (mesh_after rules history n).keys }
{
    maps_of_viewpoints_are_balanced();
}
