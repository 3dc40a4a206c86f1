//! Shots of frames.
//!
//! The text of a shot is made leaf by leaf in a buffer, which is written and emptied where it has `PIECE` bytes. So a
//! shot takes little memory, however large it is. It also means that a first part of a shot may be written when memory
//! runs out, as when a write fails: the clauses `stopped` say which.
//!
//! The vertices of a shot are numbered on behind all that were written before (`base`). The counts fit 64 bits by
//! coarse bounds, so many keys for each of so many leaves, since exact ones would need longer proofs for the same end.

ghost use Rattle.std.specs.Prelude.{◌≡◌, ◌+◌, ◌<◌, ◌≤◌, ◌^◌, ◌++◌, IfErr, IfOk, OnErr, OnOk, length};
ghost use Rattle.terrain.specs.MeshLists.{lists_of};
ghost use Rattle.mesh_out.specs.Text.{lists_text, meshes_text, shot_of};
ghost use Rattle.mesh_out.specs.Writing.{StopsWriting, Writes};
ghost use Rattle.snapshots.specs.Frame.{IsSound};
ghost use Rattle.snapshots.specs.Stats.{vertex_count};
ghost use Rattle.terra_io.specs.Stream.{Appends, AppendsPrefix, HasFailed, IsFaultless};
ghost use Rattle.terrain.specs.Blocks.{scratch};

use crate::fault::OutFault;
use crate::obj::{MAX_MESH_BASE, push_mesh, push_shot_head};
use audits::MAX_LEAVES;
use block_mesh::{BlockView, MAX_KEYS};
use lattice::Node;
use snapshots::{Frame, sound_frames_have_no_crack};
use std::alloc::{AllocError, Global};
use terra_io::{Failed, Sink, put_all};

/// A shot is written behind at most so many vertices: with its own there are at most `MAX_MESH_BASE`.
pub const MAX_BASE: u64 = 1 << 62;

/// A text that has so many bytes is written before more is added.
const PIECE: usize = 1 << 18;

/// No shot has more vertices.
pub const MAX_VERTICES: u64 = MAX_LEAVES * MAX_KEYS as u64;

/// Writes the shot of a frame with this number, as Wavefront OBJ, and returns how many vertices there are with its own.
///
/// Its triangles and positions are those of the frame's own blocks. `base` counts the vertices that were written before
/// it, at most `MAX_BASE`. The error is out of memory, or that a write failed; the sink has a first part of the text
/// then.
pub fn write_shot<K: Sink>(
    alloc: Global,
    sink: &mut K,
    number: u32,
    base: u64,
    frame: &Frame,
) -> Result<u64, OutFault>
    requires sound { IsSound frame.now }
    requires base { base ≤ MAX_BASE }
    ensures text { OnOk result (Appends (K.state sink.old) (K.state sink.new)
        (shot_of number base frame.now)) }
    ensures faultless { OnOk result (IsFaultless (K.state sink.old) (K.state sink.new)) }
    ensures vertices { IfOk result (λ after.
        after ≡ base + vertex_count (scratch frame.now.settings frame.now.events)) }
    ensures few { IfOk result (λ after. after ≤ base + MAX_VERTICES) }
    ensures stopped { IfErr result (λ fault.
        StopsWriting fault (K.state sink.old) (K.state sink.new) (shot_of number base frame.now)) }
{
    sound_frames_have_no_crack();
    let mut text = Vec::new(alloc);
    push_shot_head(&mut text, number, frame.events().len() as u64)?;
    let after = write_meshes(sink, &mut text, alloc, base, frame)?;
    put_all(sink, &text)?;
    Ok(after)
}

/// Writes the text so far and the meshes of all leaves behind it, up to a last part, which is the text then, and
/// returns how many vertices there are with theirs. The error is out of memory, or that a write failed.
fn write_meshes<K: Sink>(
    sink: &mut K,
    text: &mut Vec<u8>,
    alloc: Global,
    base: u64,
    frame: &Frame,
) -> Result<u64, OutFault>
    requires sound { IsSound frame.now }
    requires base { base ≤ MAX_BASE }
    ensures text { OnOk result (Writes (K.state sink.old) (K.state sink.new)
        (text.old.items ++ meshes_text base (scratch frame.now.settings frame.now.events))
        text.new.items) }
    ensures vertices { IfOk result (λ after.
        after ≡ base + vertex_count (scratch frame.now.settings frame.now.events)) }
    ensures few { IfOk result (λ after. after ≤ base + MAX_VERTICES) }
    ensures stopped { IfErr result (λ fault.
        StopsWriting fault (K.state sink.old) (K.state sink.new) (text.old.items
        ++ meshes_text base (scratch frame.now.settings frame.now.events))) }
{
    let leaves = frame.levels().leaves(alloc)?;
    let mut vertices = base;
    for leaf in &leaves {
        if let Some(block) = frame.block(*leaf) {
            write_mesh(sink, text, vertices, *leaf, block)?;
            vertices += block.keys.len() as u64;
        }
    }
    Ok(vertices)
}

/// Writes the text so far and the mesh of a leaf behind it, up to a last part, which is the text then: its group, its
/// vertices and its triangles, or nothing where it has no triangle.
///
/// `base` counts the vertices that were written before it. The error is out of memory, or that a write failed.
pub fn write_mesh<K: Sink>(
    sink: &mut K,
    text: &mut Vec<u8>,
    base: u64,
    leaf: Node,
    block: BlockView<'_>,
) -> Result<(), OutFault>
    requires base_fits { base ≤ MAX_MESH_BASE }
    requires keys_fit { length block.keys.now < 2 ^ 32 }
    ensures text { OnOk result (Writes (K.state sink.old) (K.state sink.new)
        (text.old.items ++ lists_text base leaf (lists_of block.entry)) text.new.items) }
    ensures stopped { IfErr result (λ fault. StopsWriting fault (K.state sink.old)
        (K.state sink.new) (text.old.items ++ lists_text base leaf (lists_of block.entry))) }
{
    push_mesh(text, base, leaf, block)?;
    write_piece(sink, text)?;
    Ok(())
}

/// Writes the text so far where it is long: what wasn't written is the text then.
///
/// The error is that a write failed; the sink has a first part of the text then.
pub fn write_piece<K: Sink>(sink: &mut K, text: &mut Vec<u8>) -> Result<(), Failed>
    ensures text { OnOk result (Writes (K.state sink.old) (K.state sink.new) text.old.items
        text.new.items) }
    ensures prefix { OnErr result (AppendsPrefix (K.state sink.old) (K.state sink.new)
        text.old.items) }
    ensures failed { OnErr result (HasFailed (K.state sink.old) (K.state sink.new)) }
{
    if text.len() < PIECE {
        return Ok(());
    }
    put_all(sink, text)?;
    text.clear();
    Ok(())
}
