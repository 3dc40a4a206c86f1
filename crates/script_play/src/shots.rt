//! Shots, with the normals of their vertices or without.

ghost use Rattle.std.specs.Prelude.{◌≡◌, IfErr, IfOk, OnOk};
ghost use Rattle.mesh_out.specs.Writing.{StopsWriting};
ghost use Rattle.snapshots.specs.Frame.{IsSound};
ghost use Rattle.terra_io.specs.Stream.{Appends, IsFaultless};
ghost use Rattle.script_play.specs.Output.{bases_after, shot_after};
ghost use Rattle.terrain.specs.Blocks.{scratch};

use mesh_out::{MAX_BASE, OutFault, write_shot};
use snapshots::{Frame, sound_frames_have_no_crack};
use std::alloc::Global;
use surface_query::{Bases, write_shot_normals};
use terra_io::Sink;

/// Writes the shot of a frame with this number, with the normals of its vertices or without, and returns how many
/// vertices and normals there are with its own. `bases` counts those that were written before it.
///
/// The error is out of memory, or that a write failed; the sink has a first part of the text then. Where more than
/// `MAX_BASE` vertices or normals were written before, it is out of memory too: no run gets there.
pub fn write_frame<K: Sink>(
    alloc: Global,
    sink: &mut K,
    number: u32,
    bases: Bases,
    normals: bool,
    frame: &Frame,
) -> Result<Bases, OutFault>
    requires sound { IsSound frame.now }
    ensures text { OnOk result (Appends (K.state sink.old) (K.state sink.new)
        (shot_after frame.now.settings frame.now.events number bases normals)) }
    ensures faultless { OnOk result (IsFaultless (K.state sink.old) (K.state sink.new)) }
    ensures bases { IfOk result (λ after. after
        ≡ bases_after bases normals (scratch frame.now.settings frame.now.events)) }
    ensures stopped { IfErr result (λ fault. StopsWriting fault (K.state sink.old)
        (K.state sink.new)
        (shot_after frame.now.settings frame.now.events number bases normals)) }
{
    if bases.vertices > MAX_BASE || bases.normals > MAX_BASE {
        return Err(OutFault::NoMemory);
    }
    sound_frames_have_no_crack();
    if normals {
        write_shot_normals(alloc, sink, number, bases, frame)
    } else {
        let vertices = write_shot(alloc, sink, number, bases.vertices, frame)?;
        Ok(Bases { vertices, ..bases })
    }
}
