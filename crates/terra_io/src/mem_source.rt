//! Sources over bytes in memory.

ghost use Rattle.std.specs.Prelude.{◌≡◌, ◌<◌, ◌≤◌, ◌↔◌, length, take, Some, IfOk, IsOk, IsErr, OnErr};
ghost use Rattle.std.specs.Io.{ReadsAtMost};
ghost use Rattle.std.specs.Io.KnownBytes.{IsAtEnd};
ghost use Rattle.fault_counts.specs.Calls.{no_calls, IsToFail, after_success, after_fault};
ghost use Rattle.terra_io.specs.Memory.{Pieces as PiecesValue, SourceState, source_stream, plain_stream, given_count, after_giving};
ghost use Rattle.terra_io.specs.Stream.{Fails};

use crate::pieces::Pieces;
use crate::{Failed, Source};
use fault_counts::Calls;
use std::marker::Model;

/// A source over bytes in memory, of which calls with given numbers fail.
#[derive(Debug, Drop)]
pub struct MemSource {
    pieces: Pieces,
    calls: Calls,
}

impl Model for MemSource {
    ghost Value = { SourceState };

    ghost view = { λ source. record { pieces = source.pieces; calls = source.calls } };
}

impl MemSource {
    /// Returns a source of these bytes that gives at most `piece` of them in a call. The calls whose numbers, from 1,
    /// are in `fails` fail and give nothing.
    pub fn new(bytes: Vec<u8>, piece: usize, fails: Vec<u32>) -> MemSource
        requires { 1 ≤ piece }
        ensures pieces { result.pieces ≡ record { left = bytes.items; piece = piece } }
        ensures calls { result.calls ≡ no_calls fails.items }
    {
        MemSource {
            pieces: Pieces::new(bytes, piece),
            calls: Calls::new(fails),
        }
    }
}

impl Source for MemSource {
    ghost state = { source_stream };

    // Which calls fail, what the others give, and what is left then.
    fn read(&mut self, buf: &mut [u8]) -> Result<usize, Failed>
        ensures within { ReadsAtMost result buf.new }
        ensures fails { IsErr result ↔ IsToFail self.old.calls }
        ensures count { IfOk result (λ count.
            count ≡ given_count self.old.pieces (length buf.old)) }
        ensures given { IfOk result (λ count.
            take count buf.new ≡ take count self.old.pieces.left) }
        ensures end { IfOk result (λ count.
            count ≡ 0 → 0 < length buf.new → IsAtEnd (source_stream self.new).bytes) }
        ensures after { IfOk result (λ count.
            self.new ≡ record {
              pieces = after_giving self.old.pieces count;
              calls = after_success self.old.calls;
            }) }
        ensures failed { OnErr result (Fails (source_stream self.old) (source_stream self.new)) }
        ensures after_failed { OnErr result
            (self.new ≡ record self.old { calls = after_fault self.old.calls }) }
    {
        if self.calls.is_to_fail() {
            self.calls.count_fault();
            return Err(Failed);
        }
        self.calls.count_success();
        Ok(self.pieces.give(buf))
    }
}

/// A source over bytes in memory that never fails: its count of faults is 0.
#[derive(Debug, Drop)]
pub struct PlainSource {
    pieces: Pieces,
}

impl Model for PlainSource {
    ghost Value = { PiecesValue };

    ghost view = { λ source. source.pieces };
}

impl PlainSource {
    /// Returns a source of these bytes that gives at most `piece` of them in a call.
    pub fn new(bytes: Vec<u8>, piece: usize) -> PlainSource
        requires { 1 ≤ piece }
        ensures { result ≡ record { left = bytes.items; piece = piece } }
    {
        PlainSource {
            pieces: Pieces::new(bytes, piece),
        }
    }
}

impl Source for PlainSource {
    ghost state = { plain_stream };

    // No call fails; what each gives, and what is left then.
    fn read(&mut self, buf: &mut [u8]) -> Result<usize, Failed>
        ensures within { ReadsAtMost result buf.new }
        ensures never_fails { IsOk result }
        ensures count { IfOk result (λ count. count ≡ given_count self.old (length buf.old)) }
        ensures given { IfOk result (λ count. take count buf.new ≡ take count self.old.left) }
        ensures end { IfOk result (λ count.
            count ≡ 0 → 0 < length buf.new → IsAtEnd (plain_stream self.new).bytes) }
        ensures after { IfOk result (λ count. self.new ≡ after_giving self.old count) }
    {
        Ok(self.pieces.give(buf))
    }
}
