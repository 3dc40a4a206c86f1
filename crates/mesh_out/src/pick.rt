//! The line of a pick.

ghost use Rattle.std.specs.Prelude.{◌≡◌, ◌+◌, ◌≤◌, IfErr, OnOk, length};
ghost use Rattle.mesh_out.specs.Text.{height_text, pick_text};
ghost use Rattle.mesh_out.specs.Writing.{StopsWriting};
ghost use Rattle.digits.specs.Lines.{Puts};
ghost use Rattle.terra_io.specs.Stream.{Appends, IsFaultless};

use crate::fault::OutFault;
use digits::{COORDINATE_ROOM, NUMBER_ROOM, put, put_coordinate, put_spaced};
use terra_io::{Sink, put_all};

/// The room for the line: its name, two numbers, a coordinate and a line feed.
const PICK_ROOM: usize = 6 + NUMBER_ROOM + NUMBER_ROOM + COORDINATE_ROOM + 1;

/// Writes the line of a pick: the place, and the height over it if there is any, all in units of 1/256 cell. It takes
/// no memory.
///
/// The error is that a write failed; the sink has a first part of the line then.
pub fn write_pick<K: Sink>(
    sink: &mut K,
    x: u32,
    y: u32,
    height: Option<u32>,
) -> Result<(), OutFault>
    ensures text { OnOk result
        (Appends (K.state sink.old) (K.state sink.new) (pick_text x y height)) }
    ensures faultless { OnOk result (IsFaultless (K.state sink.old) (K.state sink.new)) }
    ensures stopped { IfErr result (λ fault. StopsWriting fault (K.state sink.old)
        (K.state sink.new) (pick_text x y height)) }
    ensures fault { IfErr result (λ fault. fault ≡ OutFault.WriteFault) }
{
    let mut line = [0; PICK_ROOM];
    let end = put_pick(&mut line, x, y, height);
    put_all(sink, &line[..end])?;
    Ok(())
}

/// Writes the line of a pick into one that has room for it, and returns the place behind it.
fn put_pick(line: &mut [u8], x: u32, y: u32, height: Option<u32>) -> usize
    requires { PICK_ROOM ≤ length line.old }
    ensures { Puts line.old line.new 0 result (pick_text x y height) }
{
    let first = put(line, 0, b"# pick");
    let second = put_spaced(line, first, u64::from(x));
    let third = put_spaced(line, second, u64::from(y));
    let last = put_height(line, third, height);
    put(line, last, b"\n")
}

/// Writes a blank and a height, or that there is none, into a line from a place on, and returns the place behind it.
fn put_height(line: &mut [u8], at: usize, height: Option<u32>) -> usize
    requires { at + COORDINATE_ROOM ≤ length line.old }
    ensures line { Puts line.old line.new at result (height_text height) }
    ensures near { result ≤ at + COORDINATE_ROOM }
{
    match height {
        Some(height) => put_coordinate(line, at, height),
        None => put(line, at, b" none"),
    }
}
