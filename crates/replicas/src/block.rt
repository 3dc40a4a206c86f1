//! The blocks of a replica.

ghost use Rattle.std.specs.Prelude.{◌≡◌, ◌<◌, ◌^◌, length};
ghost use Rattle.terrain.specs.MeshLists.{MeshLists, lists_of, no_lists};

use lattice::{Key, Pos};
use std::alloc::Global;
use std::marker::Model;
use terrain::BlockView;

/// A block of a replica: the lists of a mesh, whose keys have a count of four bytes.
#[derive(Drop)]
pub(crate) struct Block {
    pub(crate) keys: Vec<Key>,
    pub(crate) positions: Vec<Pos>,
    pub(crate) triangles: Vec<[u32; 3]>,
}

impl Model for Block {
    ghost use Rattle.std.specs.Prelude.{◌<◌, ◌^◌, length};
    ghost use Rattle.terrain.specs.MeshLists.{MeshLists};

    ghost Value = { MeshLists };

    ghost view = { λ block. record {
      keys = block.keys.items;
      positions = block.positions.items;
      triangles = block.triangles.items;
    } };

    ghost invariant = { λ block. length block.keys.items < 2 ^ 32 };
}

impl Block {
    /// Returns the block without triangles. It takes no memory.
    pub(crate) fn empty(alloc: Global) -> Block
        ensures { result ≡ no_lists }
    {
        Block {
            keys: Vec::new(alloc),
            positions: Vec::new(alloc),
            triangles: Vec::new(alloc),
        }
    }

    /// Lends the lists.
    pub(crate) fn view(&self) -> BlockView<'_>
        ensures lists { lists_of result ≡ self.now }
        ensures few { length result.keys.now < 2 ^ 32 }
    {
        BlockView {
            keys: &self.keys,
            positions: &self.positions,
            triangles: &self.triangles,
        }
    }
}
