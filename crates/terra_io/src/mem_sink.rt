//! A sink in memory.

ghost use Rattle.std.specs.Prelude.{◌≡◌, ◌<◌, ◌≤◌, ◌↔◌, [], length, take, IfOk, IsErr, OnErr};
ghost use Rattle.fault_counts.specs.Calls.{no_calls, after_success, after_fault};
ghost use Rattle.terra_io.specs.Memory.{SinkState, sink_stream, taken_count, after_taking, IsRefused};
ghost use Rattle.terra_io.specs.Stream.{Fails};

use crate::room::Room;
use crate::{Failed, Sink};
use fault_counts::Calls;
use std::alloc::{AllocError, Global};
use std::marker::Model;

/// A sink in memory that was reserved for it, of which calls with given numbers fail.
#[derive(Debug, Drop)]
pub struct MemSink {
    held: Room,
    calls: Calls,
}

impl Model for MemSink {
    ghost Value = { SinkState };

    ghost view = { λ sink. record { held = sink.held; calls = sink.calls } };
}

impl MemSink {
    /// Returns an empty sink with `room` bytes reserved, or an error where memory runs out.
    ///
    /// A write that doesn't fit fails, and so do the calls whose numbers, from 1, are in `fails`. No other call fails.
    pub fn new(alloc: Global, room: usize, fails: Vec<u32>) -> Result<MemSink, AllocError>
        ensures held { IfOk result (λ sink.
            sink.held ≡ record { bytes = []; room = room; piece = usize.MAX }) }
        ensures calls { IfOk result (λ sink. sink.calls ≡ no_calls fails.items) }
    {
        Ok(MemSink {
            held: Room::new(alloc, room)?,
            calls: Calls::new(fails),
        })
    }

    /// Returns the same sink, which takes at most `piece` bytes in a call.
    pub fn with_piece(self, piece: usize) -> MemSink
        requires { 1 ≤ piece }
        ensures held { result.held ≡ record self.held { piece = piece } }
        ensures calls { result.calls ≡ self.calls }
    {
        MemSink {
            held: self.held.with_piece(piece),
            calls: self.calls,
        }
    }

    /// Returns the bytes that were written.
    pub fn bytes(&self) -> &[u8]
        ensures { result.now ≡ self.now.held.bytes }
    {
        self.held.bytes()
    }
}

impl Sink for MemSink {
    ghost state = { sink_stream };

    // Which calls fail, what the others take, and what is held then.
    fn write(&mut self, bytes: &[u8]) -> Result<usize, Failed>
        ensures fails { IsErr result ↔ IsRefused self.old (length bytes.now) }
        ensures count { IfOk result (λ count.
            count ≡ taken_count self.old.held (length bytes.now)) }
        ensures some { IfOk result (λ count. 0 < length bytes.now → 0 < count) }
        ensures after { IfOk result (λ count.
            self.new ≡ record {
              held = after_taking self.old.held (take count bytes.now);
              calls = after_success self.old.calls;
            }) }
        ensures failed { OnErr result (Fails (sink_stream self.old) (sink_stream self.new)) }
        ensures after_failed { OnErr result
            (self.new ≡ record self.old { calls = after_fault self.old.calls }) }
    {
        if self.calls.is_to_fail() {
            self.calls.count_fault();
            return Err(Failed);
        }
        let Some(count) = self.held.take(bytes) else {
            self.calls.count_fault();
            return Err(Failed);
        };
        self.calls.count_success();
        Ok(count)
    }
}
