//! Shots with normals.
//!
//! The text is made leaf by leaf in a buffer, which is written and emptied where it is long, as that of a shot without
//! normals is (`mesh_out`). So a first part of a shot may be written when memory runs out, as when a write fails: the
//! clauses `stopped` say which.

ghost use Rattle.std.specs.Prelude.{◌≡◌, ◌+◌, ◌≤◌, ◌++◌, All, IfErr, IfOk, OnOk};
ghost use Rattle.block_mesh.specs.Mesh.{ShowsMesh};
ghost use Rattle.lattice.specs.Key.{IsKey};
ghost use Rattle.mesh_out.specs.Writing.{StopsWriting, Writes};
ghost use Rattle.snapshots.specs.Frame.{IsSound};
ghost use Rattle.snapshots.specs.Stats.{vertex_count};
ghost use Rattle.surface_normals.specs.Normals.{normal_of};
ghost use Rattle.surface_query.specs.NormalText.{mesh_with_normals, meshes_with_normals, raised, shot_with_normals_of};
ghost use Rattle.surface_query.specs.Numbers.{AreCounts};
ghost use Rattle.terra_io.specs.Stream.{Appends, IsFaultless};
ghost use Rattle.terrain.specs.Blocks.{Mesh, scratch};
ghost use Rattle.terrain.specs.History.{sample};
ghost use Rattle.terrain.specs.Levels.{IsLeaf, levels};

use crate::bases::Bases;
use crate::lines::push_mesh;
use block_mesh::Block;
use frame_surface::keys_of_leaves_are_in_their_world;
use mesh_out::{MAX_BASE, MAX_VERTICES, OutFault, push_shot_head, write_piece};
use snapshots::{Frame, sound_frames_have_no_crack};
use std::alloc::Global;
use terra_io::{Sink, put_all};

/// Why a shot with normals isn't written whole.
pub type NormalFault = OutFault;

/// Writes the shot of a frame with this number and with the normals of its vertices, as Wavefront OBJ, and returns how
/// many vertices and normals there are with its own.
///
/// It is the text of the shot without normals (`mesh_out::write_shot`), but behind a leaf's vertices are their normals
/// in the same order, and a triangle names a vertex and a normal at each corner. `bases` counts the vertices and the
/// normals that were written before it, each at most `MAX_BASE`. The error is out of memory, or that a write failed;
/// the sink has a first part of the text then.
pub fn write_shot_normals<K: Sink>(
    alloc: Global,
    sink: &mut K,
    number: u32,
    bases: Bases,
    frame: &Frame,
) -> Result<Bases, NormalFault>
    requires sound { IsSound frame.now }
    requires vertices { bases.vertices ≤ MAX_BASE }
    requires normals { bases.normals ≤ MAX_BASE }
    ensures text { OnOk result (Appends (K.state sink.old) (K.state sink.new)
        (shot_with_normals_of number bases frame.now)) }
    ensures faultless { OnOk result (IsFaultless (K.state sink.old) (K.state sink.new)) }
    ensures bases { IfOk result (λ after. after
        ≡ raised bases (vertex_count (scratch frame.now.settings frame.now.events))) }
    ensures few { IfOk result (λ after. after.vertices ≤ bases.vertices + MAX_VERTICES) }
    ensures few_normals { IfOk result (λ after. after.normals ≤ bases.normals + MAX_VERTICES) }
    ensures stopped { IfErr result (λ fault. StopsWriting fault (K.state sink.old)
        (K.state sink.new) (shot_with_normals_of number bases frame.now)) }
{
    sound_frames_have_no_crack();
    let mut text = Vec::new(alloc);
    push_shot_head(&mut text, number, frame.events().len() as u64)?;
    let count = write_meshes(sink, &mut text, alloc, bases, frame)?;
    put_all(sink, &text)?;
    Ok(bases.raised(count))
}

/// Writes the text so far and the meshes of all leaves behind it, up to a last part, which is the text then, and
/// returns how many vertices they have. The error is out of memory, or that a write failed.
fn write_meshes<K: Sink>(
    sink: &mut K,
    text: &mut Vec<u8>,
    alloc: Global,
    bases: Bases,
    frame: &Frame,
) -> Result<u64, OutFault>
    requires sound { IsSound frame.now }
    requires vertices { bases.vertices ≤ MAX_BASE }
    requires normals { bases.normals ≤ MAX_BASE }
    ensures text { OnOk result (Writes (K.state sink.old) (K.state sink.new)
        (text.old.items ++ meshes_with_normals (normal_of frame.now.settings.depth
        (sample frame.now.settings frame.now.events)) bases
        (scratch frame.now.settings frame.now.events)) text.new.items) }
    ensures count { IfOk result (λ count.
        count ≡ vertex_count (scratch frame.now.settings frame.now.events)) }
    ensures few { IfOk result (λ count. count ≤ MAX_VERTICES) }
    ensures stopped { IfErr result (λ fault.
        StopsWriting fault (K.state sink.old) (K.state sink.new) (text.old.items
        ++ meshes_with_normals (normal_of frame.now.settings.depth
        (sample frame.now.settings frame.now.events)) bases
        (scratch frame.now.settings frame.now.events))) }
{
    keys_of_leaves_are_in_their_world();
    let leaves = frame.levels().leaves(alloc)?;
    let mut count = 0;
    for leaf in &leaves {
        if let Some(done) = frame.done(*leaf) {
            write_mesh(sink, text, alloc, bases.raised(count), frame, done)?;
            count += done.view().keys.len() as u64;
        }
    }
    Ok(count)
}

/// Writes the text so far and the mesh of a leaf behind it, up to a last part, which is the text then.
///
/// `bases` counts the vertices and normals that were written before it. The error is out of memory, or that a write
/// failed.
fn write_mesh<K: Sink>(
    sink: &mut K,
    text: &mut Vec<u8>,
    alloc: Global,
    bases: Bases,
    frame: &Frame,
    done: &Block,
) -> Result<(), OutFault>
    requires bases { AreCounts bases }
    requires sound { IsSound frame.now }
    requires leaf { IsLeaf frame.now.settings.depth
        (levels frame.now.settings frame.now.events) done.now.brick.node }
    requires keys { All (IsKey frame.now.settings.depth) done.now.mesh.keys }
    ensures text { OnOk result ((m : Mesh) → m.leaf ≡ done.now.brick.node
        → ShowsMesh done.now.mesh m
        → Writes (K.state sink.old) (K.state sink.new) (text.old.items
        ++ mesh_with_normals (normal_of frame.now.settings.depth
        (sample frame.now.settings frame.now.events)) bases m) text.new.items) }
    ensures stopped { IfErr result (λ fault. (m : Mesh) → m.leaf ≡ done.now.brick.node
        → ShowsMesh done.now.mesh m → StopsWriting fault (K.state sink.old)
        (K.state sink.new) (text.old.items ++ mesh_with_normals
        (normal_of frame.now.settings.depth (sample frame.now.settings frame.now.events))
        bases m)) }
{
    push_mesh(text, alloc, bases, frame, done)?;
    write_piece(sink, text)?;
    Ok(())
}
