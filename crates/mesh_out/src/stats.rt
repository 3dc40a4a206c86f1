//! Lines of stats.

ghost use Rattle.std.specs.Prelude.{◌≡◌, ◌++◌, IfErr, OnOk};
ghost use Rattle.mesh_out.specs.Text.{stats_text};
ghost use Rattle.mesh_out.specs.Writing.{StopsWriting};
ghost use Rattle.snapshots.specs.Frame.{IsSound};
ghost use Rattle.snapshots.specs.Meshes.{meshes_of};
ghost use Rattle.snapshots.specs.Stats.{stats_of};
ghost use Rattle.terra_io.specs.Stream.{Appends, IsFaultless};

use crate::fault::OutFault;
use digits::push_number;
use snapshots::{Frame, Stats, sound_frames_have_no_crack};
use std::alloc::{AllocError, Global};
use terra_io::{Sink, put_all};

/// Writes the line of stats of a frame: of the meshes that it has in its slots.
///
/// The error is out of memory, or that a write failed; the sink has a first part of the line then.
pub fn write_stats<K: Sink>(alloc: Global, sink: &mut K, frame: &Frame) -> Result<(), OutFault>
    requires { IsSound frame.now }
    ensures text { OnOk result (Appends (K.state sink.old) (K.state sink.new)
        (stats_text (stats_of (meshes_of frame.now)))) }
    ensures faultless { OnOk result (IsFaultless (K.state sink.old) (K.state sink.new)) }
    ensures stopped { IfErr result (λ fault. StopsWriting fault (K.state sink.old)
        (K.state sink.new) (stats_text (stats_of (meshes_of frame.now)))) }
{
    sound_frames_have_no_crack();
    write_stats_line(alloc, sink, frame.stats())
}

/// Writes the line of these stats.
///
/// The error is out of memory, or that a write failed; the sink has a first part of the line then.
pub fn write_stats_line<K: Sink>(alloc: Global, sink: &mut K, stats: Stats) -> Result<(), OutFault>
    ensures text { OnOk result
        (Appends (K.state sink.old) (K.state sink.new) (stats_text stats)) }
    ensures faultless { OnOk result (IsFaultless (K.state sink.old) (K.state sink.new)) }
    ensures stopped { IfErr result (λ fault.
        StopsWriting fault (K.state sink.old) (K.state sink.new) (stats_text stats)) }
{
    let mut text = Vec::new(alloc);
    push_stats(&mut text, stats)?;
    put_all(sink, &text)?;
    Ok(())
}

/// Appends the line of stats. Out of memory is the only error.
pub fn push_stats(out: &mut Vec<u8>, stats: Stats) -> Result<(), AllocError>
    ensures { OnOk result (out.new.items ≡ out.old.items ++ stats_text stats) }
{
    out.extend_from_slice(b"# stats leaves ")?;
    push_number(out, stats.leaves)?;
    out.extend_from_slice(b" triangles ")?;
    push_number(out, stats.triangles)?;
    out.extend_from_slice(b" keys ")?;
    push_number(out, stats.keys)?;
    out.extend_from_slice(b"\n")
}
