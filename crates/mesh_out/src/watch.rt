//! The line that tells what all watchers counted.

ghost use Rattle.std.specs.Prelude.{◌≡◌, ◌++◌, IfErr, OnOk, decimal};
ghost use Rattle.mesh_out.specs.Writing.{StopsWriting};
ghost use Rattle.terra_io.specs.Stream.{Appends, IsFaultless};
ghost use Rattle.mesh_out.specs.Text.{watch_text};

use crate::fault::OutFault;
use audits::Counts;
use digits::push_number;
use std::alloc::{AllocError, Global};
use terra_io::{Sink, put_all};

/// Writes the line that tells what looks counted.
///
/// The error is out of memory, or that a write failed; the sink has a first part of the line then.
pub fn write_watch<K: Sink>(alloc: Global, sink: &mut K, counts: Counts) -> Result<(), OutFault>
    ensures text { OnOk result (Appends (K.state sink.old) (K.state sink.new) (watch_text counts)) }
    ensures faultless { OnOk result (IsFaultless (K.state sink.old) (K.state sink.new)) }
    ensures stopped { IfErr result (λ fault. StopsWriting fault (K.state sink.old)
        (K.state sink.new) (watch_text counts)) }
{
    let mut text = Vec::new(alloc);
    push_watch(&mut text, counts)?;
    put_all(sink, &text)?;
    Ok(())
}

/// Appends the line. Out of memory is the only error.
fn push_watch(out: &mut Vec<u8>, counts: Counts) -> Result<(), AllocError>
    ensures { OnOk result (out.new.items ≡ out.old.items ++ watch_text counts) }
{
    push_named(out, b"# watch looks ", u64::from(counts.looks))?;
    push_named(out, b" cracks ", counts.cracks)?;
    push_named(out, b" backward ", u64::from(counts.backward))?;
    out.extend_from_slice(b"\n")
}

/// Appends a name and a number behind it. Out of memory is the only error.
fn push_named(out: &mut Vec<u8>, name: &[u8], n: u64) -> Result<(), AllocError>
    ensures { OnOk result (out.new.items ≡ out.old.items ++ (name.now ++ decimal n)) }
{
    out.extend_from_slice(name)?;
    push_number(out, n)
}
