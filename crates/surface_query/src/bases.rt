//! How much was written before.

ghost use Rattle.std.specs.Prelude.{◌≡◌, ◌+◌, ◌≤◌};
ghost use Rattle.surface_query.specs.NormalText.{raised};

use mesh_out::MAX_MESH_BASE;

/// How many vertices, and how many normals, were written so far. The numbers of those that come go on behind them.
#[derive(Clone, Copy, Debug, PartialEq, Eq)]
pub struct Bases {
    pub vertices: u64,
    pub normals: u64,
}

impl Bases {
    /// Returns them with so many more vertices, each of which has its normal.
    pub(crate) fn raised(self, count: u64) -> Bases
        requires vertices { self.vertices + count ≤ MAX_MESH_BASE }
        requires normals { self.normals + count ≤ MAX_MESH_BASE }
        ensures { result ≡ raised self count }
    {
        Bases {
            vertices: self.vertices + count,
            normals: self.normals + count,
        }
    }
}
