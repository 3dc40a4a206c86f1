//! The bytes of a wire, read to their end.

ghost use Rattle.std.specs.Prelude.{◌≡◌, ◌+◌, ◌<◌, ◌≤◌, ◌^◌, None, ℕ, Result, length, take, IfOk, OnErr, OnOk};
ghost use Rattle.std.specs.Io.KnownBytes.{IsAtEnd};
ghost use Rattle.mirrors.specs.Reading.{FeedsPiece, ReadsWire};
ghost use Rattle.terra_io.specs.Stream.{Fails, IsFaultless, Yields};

use crate::refusal::MirrorRefusal;
use patch_wire::Replica;
use std::alloc::Global;
use terra_io::{Failed, Source};

/// A mirror reads fewer bytes than this, or no end.
pub const WIRE_LIMIT: usize = 1 << 30;

/// How many bytes are asked of the source at once.
const PIECE: usize = 1 << 16;

/// Reads a wire to its end, and returns the replica that was fed with it.
pub(crate) fn read_wire<S: Source>(alloc: Global, source: &mut S) -> Result<Replica, MirrorRefusal>
    ensures { ReadsWire (S.state source.old) (S.state source.new) result }
{
    let mut replica = Replica::new(alloc);
    let mut piece = vec![in alloc; 0; PIECE]?;
    let mut count = 0;
    while count < WIRE_LIMIT {
        let room = PIECE.min(WIRE_LIMIT - count);
        let more = read_piece(source, &mut piece, room)?;
        if more == 0 {
            return Ok(replica);
        }
        feed_piece(alloc, &mut replica, &piece[..more])?;
        count += more;
    }
    Err(MirrorRefusal::InputLimit)
}

/// Reads the next bytes into the front of a piece, at most as many as there is room for, and returns how many; 0 is the
/// end of the input.
fn read_piece<S: Source>(source: &mut S, piece: &mut [u8], room: usize) -> Result<usize, Failed>
    requires some { 0 < room }
    requires inside { room ≤ length piece.old }
    ensures within { IfOk result (λ count. count ≤ room) }
    ensures taken { IfOk result (λ count.
        Yields (S.state source.old) (S.state source.new) (take count piece.new)) }
    ensures faultless { OnOk result (IsFaultless (S.state source.old) (S.state source.new)) }
    ensures end { IfOk result (λ count. count ≡ 0 → IsAtEnd (S.state source.new).bytes) }
    ensures failed { OnErr result (Fails (S.state source.old) (S.state source.new)) }
{
    source.read(&mut piece[..room])
}

/// Feeds a replica with a piece. The error refuses a field, or is out of memory.
fn feed_piece(alloc: Global, replica: &mut Replica, piece: &[u8]) -> Result<(), MirrorRefusal>
    requires small { length piece.now < 2 ^ 32 }
    requires room { replica.old.taken + length piece.now ≤ 2 ^ 63 }
    ensures { FeedsPiece replica.old piece.now replica.new result }
{
    match replica.feed(alloc, piece) {
        Ok(_) => Ok(()),
        Err(fault) => Err(MirrorRefusal::of(replica.taken(), fault)),
    }
}
