//! Meshes of leaves.

ghost use Rattle.std.specs.Prelude.{◌≡◌};

use lattice::{Key, Pos};
use std::alloc::Global;
use std::marker::Model;
use terrain::BlockView;

/// The mesh of a leaf.
#[derive(Debug, Drop)]
pub(crate) struct Mesh {
    /// In the order of first use, each once.
    pub(crate) keys: Vec<Key>,
    /// Where the vertex of each key lies.
    pub(crate) positions: Vec<Pos>,
    /// The indices of their keys, counter-clockwise as seen from the empty side.
    pub(crate) triangles: Vec<[u32; 3]>,
}

impl Model for Mesh {
    ghost use Rattle.block_mesh.specs.Mesh.{IsMesh};
    ghost use Rattle.terrain.specs.MeshLists.{MeshLists};

    ghost Value = { MeshLists };

    ghost view = { λ mesh. record {
      keys = mesh.keys.items;
      positions = mesh.positions.items;
      triangles = mesh.triangles.items;
    } };

    ghost invariant = { λ mesh. IsMesh (record {
      keys = mesh.keys.items;
      positions = mesh.positions.items;
      triangles = mesh.triangles.items;
    }) };
}

impl Mesh {
    ghost use Rattle.block_mesh.specs.Mesh.{IsMesh};
    ghost use Rattle.terrain.specs.MeshLists.{lists_of, no_lists};

    /// Returns the mesh without triangles. It takes no memory.
    pub(crate) fn empty(alloc: Global) -> Mesh
        ensures { result ≡ no_lists }
    {
        Mesh {
            keys: Vec::new(alloc),
            positions: Vec::new(alloc),
            triangles: Vec::new(alloc),
        }
    }

    /// Lends the lists.
    pub(crate) fn view(&self) -> BlockView<'_>
        ensures lists { lists_of result ≡ self.now }
        ensures mesh { IsMesh self.now }
    {
        BlockView {
            keys: &self.keys,
            positions: &self.positions,
            triangles: &self.triangles,
        }
    }
}
