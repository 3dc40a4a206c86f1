//! Audits of frames: whether the meshes of leaves meet without cracks.

ghost use Rattle.std.specs.Prelude.{◌≡◌, IfOk};
ghost use Rattle.audits.specs.Audit.{audit_of, border_pairs};
ghost use Rattle.audits.specs.Tally.{HasRoomFor, IsTallyOf};
ghost use Rattle.snapshots.specs.Frame.{IsSound};
ghost use Rattle.snapshots.specs.Seamless.{HasNoCrack};
ghost use Rattle.terrain.specs.Blocks.{frame_edges, scratch};

use crate::tally::Tally;
use cell_laws::triangles_are_few;
use snapshots::{Frame, histories_are_seamless, sound_frames_have_no_crack};
use std::alloc::{AllocError, Global};

/// Which pairs of keys the triangles of a frame leave open: those between which more of their edges go one way than the
/// other.
#[derive(Clone, Copy, Debug, PartialEq, Eq)]
pub struct Audit {
    /// How many directed edges all triangles have: three each.
    pub edges: u64,
    /// How many open pairs don't lie on the border of the world.
    pub cracks: u64,
    /// How many open pairs lie on the border of the world: both their keys' edges in one of its planes.
    pub border: u64,
}

impl Audit {
    /// Returns the audit of a frame, which has no crack. Out of memory is the only error.
    pub fn of(alloc: Global, frame: &Frame) -> Result<Audit, AllocError>
        requires { IsSound frame.now }
        ensures counts { IfOk result (λ audit. audit
            ≡ audit_of frame.now.settings.depth (scratch frame.now.settings frame.now.events)) }
        ensures cracks { IfOk result (λ audit. audit.cracks ≡ 0) }
        ensures border { IfOk result (λ audit.
            audit.border ≡ border_pairs frame.now.settings frame.now.events) }
        ensures seamless { HasNoCrack frame.now }
    {
        triangles_are_few();
        histories_are_seamless();
        sound_frames_have_no_crack();
        let triangles = frame.stats().triangles;
        let tally = tally_of(alloc, frame, triangles)?;
        let open = tally.open_pairs(frame.settings());
        Ok(Audit {
            edges: 3 * triangles,
            cracks: open.inside,
            border: open.on_border,
        })
    }
}

/// Returns how often the edges of a frame's triangles are used, pair by pair. Out of memory is the only error.
///
/// `triangles` is about how many there are: room is taken for so many.
fn tally_of(alloc: Global, frame: &Frame, triangles: u64) -> Result<Tally, AllocError>
    requires { IsSound frame.now }
    ensures room { IfOk result (λ tally. HasRoomFor tally 0) }
    ensures counts { IfOk result (λ tally.
        IsTallyOf tally (frame_edges (scratch frame.now.settings frame.now.events))) }
{
    triangles_are_few();
    let leaves = frame.levels().leaves(alloc)?;
    let mut tally = Tally::new(alloc, triangles)?;
    for leaf in &leaves {
        if let Some(block) = frame.block(*leaf) {
            tally.add_triangles(block.keys, block.triangles)?;
        }
    }
    Ok(tally)
}
