//! Bytes in memory that was reserved for them.

ghost use Rattle.std.specs.Prelude.{◌≡◌, ◌≤◌, ◌↔◌, [], length, take, IsNone, IfNone, IfSome, IfOk};
ghost use Rattle.terra_io.specs.Memory.{Room as RoomValue, taken_count, IsOverfull, after_taking};

use std::alloc::{AllocError, Global};
use std::marker::Model;

/// Bytes in memory that was reserved for them.
#[derive(Debug, Drop)]
pub(crate) struct Room {
    bytes: Vec<u8>,
    room: usize,
    piece: usize,
}

impl Model for Room {
    ghost use Rattle.std.specs.Prelude.{◌≤◌, vec_len, vec_capacity};
    ghost use Rattle.terra_io.specs.Memory.{Room as RoomValue, FitsReserved};

    ghost Value = { RoomValue };

    ghost view = { λ held. record {
      bytes = held.bytes.items;
      room = held.room;
      piece = held.piece;
    } };

    ghost invariant = { λ held.
        FitsReserved (vec_len held.bytes) held.room (vec_capacity held.bytes) held.piece };
}

impl Room {
    /// Returns an empty room of this many bytes, or an error where memory runs out.
    pub(crate) fn new(alloc: Global, room: usize) -> Result<Room, AllocError>
        ensures { IfOk result (λ held.
            held ≡ record { bytes = []; room = room; piece = usize.MAX }) }
    {
        Ok(Room {
            bytes: Vec::with_capacity(alloc, room)?,
            room,
            piece: usize::MAX,
        })
    }

    /// Returns the same bytes, of which a call takes at most `piece`.
    pub(crate) fn with_piece(self, piece: usize) -> Room
        requires { 1 ≤ piece }
        ensures { result ≡ record self { piece = piece } }
    {
        Room { piece, ..self }
    }

    /// Returns the bytes that are held.
    pub(crate) fn bytes(&self) -> &[u8]
        ensures { result.now ≡ self.now.bytes }
    {
        &self.bytes
    }

    /// Takes the first piece of these bytes, and returns how many it has; `None` where there is no room for it.
    pub(crate) fn take(&mut self, bytes: &[u8]) -> Option<usize>
        ensures overfull { IsNone result ↔ IsOverfull self.old (length bytes.now) }
        ensures kept { IfNone result (self.new ≡ self.old) }
        ensures count { IfSome result (λ count. count ≡ taken_count self.old (length bytes.now)) }
        ensures taken { IfSome result (λ count.
            self.new ≡ after_taking self.old (take count bytes.now)) }
        ensures piece { 1 ≤ self.new.piece }
    {
        let count = bytes.len().min(self.piece);
        if self.room - self.bytes.len() < count {
            return None;
        }
        // The room is reserved, so this takes no memory.
        self.bytes.extend_from_slice(&bytes[..count]).ok()?;
        Some(count)
    }
}
