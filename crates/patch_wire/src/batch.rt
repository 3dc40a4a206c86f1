//! Bytes on their way to a sink, of which many are written at once.

ghost use Rattle.std.specs.Prelude.{◌≡◌, ◌≤◌, [], ◌++◌, length, OnErr, OnOk};
ghost use Rattle.mesh_out.specs.Writing.{Writes};
ghost use Rattle.patch_wire.specs.declared.batch.TheConstants.{FIELD};
ghost use Rattle.patch_wire.specs.Putting.{CutsOff};
ghost use Rattle.terra_io.specs.Stream.{Appends, IsFaultless};

use arrayvec::ArrayVec;
use std::marker::Model;
use terra_io::{Failed, Sink, put_all};

/// How many bytes are held at most, and so how many are mostly written at once.
const ROOM: usize = 1 << 14;

/// No field has more bytes.
pub(crate) const FIELD: usize = 20;

/// Bytes on their way to a sink: they are written where no more of them fit. It takes no memory.
#[derive(Drop)]
pub(crate) struct Batch {
    held: ArrayVec<u8, ROOM>,
}

impl Model for Batch {
    ghost use Rattle.std.specs.Prelude.{ℕ, List};

    ghost Value = { List ℕ };

    ghost view = { λ batch. batch.held.items };
}

impl Batch {
    /// Returns the batch that holds nothing.
    pub(crate) fn new() -> Batch
        ensures { result ≡ [] }
    {
        Batch {
            held: ArrayVec::new(),
        }
    }

    /// Puts a field behind what is held, which is written before that where the field doesn't fit behind it.
    #[inline(always)]
    pub(crate) fn put<K: Sink>(&mut self, sink: &mut K, field: &[u8]) -> Result<(), Failed>
        requires { length field.now ≤ FIELD }
        ensures held { OnOk result (Writes (K.state sink.old) (K.state sink.new)
            (self.old ++ field.now) self.new) }
        ensures stopped { OnErr result (CutsOff (K.state sink.old) (K.state sink.new)
            (self.old ++ field.now)) }
    {
        if self.held.remaining_capacity() < field.len() {
            self.write(sink)?;
        }
        let _fits = self.held.try_extend_from_slice(field);
        Ok(())
    }

    /// Writes what is held, which is nothing then.
    pub(crate) fn write<K: Sink>(&mut self, sink: &mut K) -> Result<(), Failed>
        ensures written { OnOk result (Appends (K.state sink.old) (K.state sink.new) self.old) }
        ensures faultless { OnOk result (IsFaultless (K.state sink.old) (K.state sink.new)) }
        ensures empty { OnOk result (self.new ≡ []) }
        ensures stopped { OnErr result (CutsOff (K.state sink.old) (K.state sink.new) self.old) }
    {
        put_all(sink, &self.held)?;
        self.held.clear();
        Ok(())
    }
}
