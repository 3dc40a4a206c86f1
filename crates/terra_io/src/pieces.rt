//! Bytes in memory that are given in pieces.

ghost use Rattle.std.specs.Prelude.{◌≡◌, ◌≤◌, length, take};
ghost use Rattle.terra_io.specs.Memory.{Pieces as PiecesValue, given_count, after_giving};

use std::marker::Model;

/// Bytes in memory that are given in pieces.
#[derive(Debug, Drop)]
pub(crate) struct Pieces {
    bytes: Vec<u8>,
    at: usize,
    piece: usize,
}

impl Model for Pieces {
    ghost use Rattle.std.specs.Prelude.{◌≤◌, drop, vec_len};
    ghost use Rattle.terra_io.specs.Memory.{Pieces as PiecesValue};

    ghost Value = { PiecesValue };

    ghost view = { λ pieces. record {
      left = drop pieces.at pieces.bytes.items;
      piece = pieces.piece;
    } };

    ghost invariant = { λ pieces. (pieces.at ≤ vec_len pieces.bytes) × (1 ≤ pieces.piece) };
}

impl Pieces {
    /// Returns all of these bytes, at most `piece` of them in a call.
    pub(crate) fn new(bytes: Vec<u8>, piece: usize) -> Pieces
        requires { 1 ≤ piece }
        ensures { result ≡ record { left = bytes.items; piece = piece } }
    {
        Pieces {
            bytes,
            at: 0,
            piece,
        }
    }

    /// Gives the next piece into the front of `buf`, and returns how many bytes it has.
    pub(crate) fn give(&mut self, buf: &mut [u8]) -> usize
        ensures count { result ≡ given_count self.old (length buf.old) }
        ensures given { take result buf.new ≡ take result self.old.left }
        ensures rest { self.new ≡ after_giving self.old result }
        ensures piece { 1 ≤ self.new.piece }
    {
        let rest = &self.bytes[self.at..];
        let count = buf.len().min(self.piece).min(rest.len());
        buf[..count].copy_from_slice(&rest[..count]);
        self.at += count;
        count
    }
}
