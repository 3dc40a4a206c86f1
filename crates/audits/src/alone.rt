//! Audits of triangles alone, which may have cracks.

ghost use Rattle.std.specs.Prelude.{◌≡◌, ◌*◌, ◌<◌, ◌^◌, IfOk, length};
ghost use Rattle.lattice.specs.Settings.{IsDepth};
ghost use Rattle.terrain.specs.Curves.{all_edges};
ghost use Rattle.audits.specs.Audit.{edge_audit};

use crate::audit::Audit;
use crate::tally::Tally;
use lattice::{Key, Settings};
use std::alloc::{AllocError, Global};

impl Audit {
    /// Returns the audit of some triangles in a world with these settings, each given by its three keys. Out of memory
    /// is the only error.
    ///
    /// They may have cracks, which the meshes of a frame never have: of one triangle off the border each edge is one.
    pub fn of_triangles(
        alloc: Global,
        settings: &Settings,
        triangles: &[[Key; 3]],
    ) -> Result<Audit, AllocError>
        requires depth { IsDepth settings.now.depth }
        requires few { 3 * length triangles.now < 2 ^ 63 }
        ensures { IfOk result (λ audit. audit ≡ edge_audit settings.now.depth
            (length triangles.now) (all_edges triangles.now)) }
    {
        let mut tally = Tally::new(alloc, triangles.len() as u64)?;
        for [a, b, c] in triangles {
            tally.add_triangle(*a, *b, *c)?;
        }
        let open = tally.open_pairs(settings);
        Ok(Audit {
            edges: 3 * triangles.len() as u64,
            cracks: open.inside,
            border: open.on_border,
        })
    }
}
