//! What the meshes of leaves leave open.

ghost use Rattle.terrain.specs.Blocks.{Brick};
ghost use Rattle.block_mesh.specs.Mesh.{IsMeshOf};
ghost use Rattle.terrain.specs.MeshLists.{MeshLists};
ghost use Rattle.block_mesh.specs.Nets.{LeavesCurves};

use cell_laws::{keys_are_told_apart, nets_by_weights_are_nets_of_pairs, nets_of_cells};

/// The mesh of a brick leaves open just the curves of the faces of its leaf's cells: for any two keys, the directed
/// edges of its triangles from the one to the other less those back are the sum of the same difference over these
/// curves.
pub fn meshes_leave_curves()
    ensures { (b : Brick) (lists : MeshLists) → IsMeshOf b lists → LeavesCurves b lists }
{
    nets_of_cells();
    keys_are_told_apart();
    nets_by_weights_are_nets_of_pairs();
}
