//! Wires that are read to their end, and written as text.

ghost use Rattle.requests.specs.Mirroring.{HasMirrored};

use mirrors::mirror;
use script_play::Status;
use std::alloc::Global;
use terra_io::{Sink, Source};

/// Reads the wire that the source has, writes the text of what it leads to, and returns how that ended.
pub fn carry_out_mirror<S: Source, K: Sink>(alloc: Global, source: &mut S, sink: &mut K) -> Status
    ensures { HasMirrored (S.state source.old) (S.state source.new) (K.state sink.old)
        (K.state sink.new) result }
{
    match mirror(alloc, source, sink) {
        Ok(()) => Status::Done,
        Err(refusal) => Status::from(refusal),
    }
}
