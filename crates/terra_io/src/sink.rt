//! What bytes are written to, and the writing of them all.

ghost use Rattle.std.specs.Prelude.{◌<◌, length, take, IfOk, OnOk, OnErr};
ghost use Rattle.std.specs.Io.{WritesAtMost};
ghost use Rattle.terra_io.specs.Stream.{Stream, Appends, AppendsPrefix, IsFaultless, HasFailed, Fails};

use crate::Failed;

/// What bytes are written to.
pub trait Sink {
    // The bytes that were written, where the sink tells them, and how often a write has failed.
    ghost state: { Self → Stream };

    /// Writes the first of these bytes, and returns how many: at least one, unless there are none.
    ///
    /// An error is counted as a fault, and nothing else is.
    fn write(&mut self, bytes: &[u8]) -> Result<usize, Failed>
        ensures within { WritesAtMost result bytes.now }
        ensures some { IfOk result (λ count. 0 < length bytes.now → 0 < count) }
        ensures appended { IfOk result (λ count.
            Appends (state self.old) (state self.new) (take count bytes.now)) }
        ensures faultless { OnOk result (IsFaultless (state self.old) (state self.new)) }

        // A write that fails writes nothing.
        ensures failed { OnErr result (Fails (state self.old) (state self.new)) };
}

/// Writes all of these bytes, in as many writes as the sink needs. It takes no memory.
///
/// The first write that fails is the error, and ends the writing: the sink holds a first part of the bytes then.
#[tactic(auto, using(crate::proofs::StreamLemmas::has_put_more))]
pub fn put_all<K: Sink>(sink: &mut K, bytes: &[u8]) -> Result<(), Failed>
    ensures appended { OnOk result (Appends (K.state sink.old) (K.state sink.new) bytes.now) }
    ensures faultless { OnOk result (IsFaultless (K.state sink.old) (K.state sink.new)) }
    ensures prefix { OnErr result (AppendsPrefix (K.state sink.old) (K.state sink.new) bytes.now) }
    ensures failed { OnErr result (HasFailed (K.state sink.old) (K.state sink.new)) }
{
    let mut rest = bytes;
    while !rest.is_empty() {
        let count = sink.write(rest)?;
        rest = &rest[count..];
    }
    Ok(())
}
