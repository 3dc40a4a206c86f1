//! Coordinates as exact decimal fractions.

ghost use Rattle.std.specs.Prelude.{OnErr, OnOk};
ghost use Rattle.digits.specs.Digits.{coordinate_text};
ghost use Rattle.terra_io.specs.Stream.{Appends, AppendsPrefix, HasFailed, IsFaultless};

use crate::{Failed, Sink, put_all};
use digits::{COORDINATE_ROOM, put_coordinate};

/// Writes a coordinate in units of 1/256 cell, as an exact decimal fraction: 1/256 is 0.00390625. It takes no memory.
///
/// The first write that fails is the error, and ends the writing: the sink holds a first part of the text then.
pub fn put_units<K: Sink>(sink: &mut K, units: u32) -> Result<(), Failed>
    ensures appended { OnOk result
        (Appends (K.state sink.old) (K.state sink.new) (coordinate_text units)) }
    ensures faultless { OnOk result (IsFaultless (K.state sink.old) (K.state sink.new)) }
    ensures prefix { OnErr result
        (AppendsPrefix (K.state sink.old) (K.state sink.new) (coordinate_text units)) }
    ensures failed { OnErr result (HasFailed (K.state sink.old) (K.state sink.new)) }
{
    let mut line = [0; COORDINATE_ROOM];
    let end = put_coordinate(&mut line, 0, units);
    // The blank in front isn't part of the text.
    put_all(sink, &line[1..end])
}
