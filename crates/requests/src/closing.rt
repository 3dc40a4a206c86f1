//! What is done behind the output of a script: the line of its watchers.

ghost use Rattle.std.specs.Prelude.{◌≡◌, All, IfErr, IfOk, OnOk, vec_len};
ghost use Rattle.mesh_out.specs.Writing.{StopsWriting};
ghost use Rattle.snapshots.specs.Frame.{IsSound};
ghost use Rattle.terra_io.specs.Stream.{Appends, IsFaultless};
ghost use Rattle.requests.specs.Texts.{watch_line};
ghost use Rattle.watchers.specs.Looks.{IsReport};
ghost use Rattle.arguments.specs.Options.{IsAllowed};

use arguments::Options;
use gates::MeshGate;
use mesh_out::{OutFault, write_watch};
use snapshots::Frame;
use std::alloc::{AllocError, Global};
use terra_io::Sink;
use watchers::{Report, look_for_all};

/// Makes the looks that the watchers left, at the frame that is shown, of which the gate is told, and writes the line
/// that tells what all looks counted; it does nothing in a run without watchers.
///
/// The error is out of memory, which may be the watchers' own, or that a write failed; the sink has a first part of the
/// line then.
pub fn write_watch_line<K: Sink, G: MeshGate>(
    alloc: Global,
    options: Options,
    told: Result<Vec<Report>, AllocError>,
    shown: &Frame,
    sink: &mut K,
    gate: &G,
) -> Result<(), OutFault>
    requires allowed { IsAllowed options }
    requires watchers { IfOk told (λ told. vec_len told ≡ options.watchers) }
    requires watched { IfOk told (λ told. All (IsReport options.looks) told.items) }
    requires sound { IsSound shown.now }
    ensures text { OnOk result
        (Appends (K.state sink.old) (K.state sink.new) (watch_line options)) }
    ensures faultless { OnOk result (IsFaultless (K.state sink.old) (K.state sink.new)) }
    ensures stopped { IfErr result (λ fault. StopsWriting fault (K.state sink.old)
        (K.state sink.new) (watch_line options)) }
{
    if options.watchers == 0 {
        return Ok(());
    }
    let counts = look_for_all(alloc, &told?, options.looks, shown, gate)?;
    write_watch(alloc, sink, counts)
}
