//! A mirror, from the bytes of a wire to the text of its replica.

ghost use Rattle.mirrors.specs.Mirrored.{IsMirrored, IsMirroredAtLimit, Mirrored};

use crate::reading::read_wire;
use crate::refusal::MirrorRefusal;
use patch_wire::write_replica;
use std::alloc::Global;
use terra_io::{Sink, Source};

/// Reads a wire to its end, and writes the text of what it leads to, as Wavefront OBJ.
///
/// Nothing is written before the end of the wire, nor where a field is refused or the end is within a patch. At most
/// `WIRE_LIMIT` bytes are read.
pub fn mirror<S: Source, K: Sink>(
    alloc: Global,
    source: &mut S,
    sink: &mut K,
) -> Result<(), MirrorRefusal>
    ensures table { Mirrored (S.state source.old) (S.state source.new) (K.state sink.old)
        (K.state sink.new) result }

    // The other way round: unless memory runs out or a call fails, each refusal comes exactly where
    // the table has it.
    ensures exact { IsMirrored (S.state source.old) (S.state source.new) (K.state sink.old)
        (K.state sink.new) result }
    ensures limit { IsMirroredAtLimit (S.state source.old) (S.state source.new)
        (K.state sink.old) (K.state sink.new) result }
{
    let replica = read_wire(alloc, source)?;
    if !replica.at_rest() {
        return Err(MirrorRefusal::CutWire);
    }
    write_replica(alloc, sink, &replica)?;
    Ok(())
}
