//! What the bytes of a field say.

ghost use Rattle.std.specs.Prelude.{◌≡◌, ◌+◌, ◌<◌, ◌≤◌, length};
ghost use Rattle.replicas.specs.Reading.{axis_read, event_read, event_size, four_at, mode_read, node_read, point_read, two_at, vertex_read};

use lattice::{Axis, Key, Node, Point, Pos};
use terrain::{Brush, Event, Mode};

/// Returns the number in two bytes from a place on.
#[inline(always)]
pub(crate) fn two_at(bytes: &[u8], i: usize) -> u32
    requires { i + 2 ≤ length bytes.now }
    ensures value { result ≡ two_at i bytes.now }
    ensures small { result < 0x1_0000 }
{
    u32::from(bytes[i]) + u32::from(bytes[i + 1]) * 0x100
}

/// Returns the number in four bytes from a place on.
#[inline(always)]
pub(crate) fn four_at(bytes: &[u8], i: usize) -> u32
    requires { i + 4 ≤ length bytes.now }
    ensures { result ≡ four_at i bytes.now }
{
    two_at(bytes, i) + two_at(bytes, i + 2) * 0x1_0000
}

/// Returns the point from a place on.
#[inline(always)]
pub(crate) fn point_read(bytes: &[u8], i: usize) -> Point
    requires { i + 6 ≤ length bytes.now }
    ensures { result ≡ point_read i bytes.now }
{
    Point {
        z: two_at(bytes, i + 4),
        y: two_at(bytes, i + 2),
        x: two_at(bytes, i),
    }
}

/// Returns the node that seven bytes say.
pub(crate) fn node_read(bytes: &[u8]) -> Node
    requires { length bytes.now ≡ 7 }
    ensures { result ≡ node_read bytes.now }
{
    Node {
        level: bytes[0],
        k: two_at(bytes, 5),
        j: two_at(bytes, 3),
        i: two_at(bytes, 1),
    }
}

/// Returns how many bytes the fields of an event of this tag have.
pub(crate) fn event_size(tag: u8) -> usize
    ensures { result ≡ event_size tag }
{
    match tag {
        0 => 13,
        1 => 9,
        2 => 3,
        3 => 12,
        4 => 7,
        5 => 1,
        _ => 0,
    }
}

/// Returns the event of a tag that these fields say, or `None` where the byte of its mode is none.
pub(crate) fn event_read(tag: u8, bytes: &[u8]) -> Option<Event>
    requires { length bytes.now ≡ event_size tag }
    ensures { result ≡ event_read tag bytes.now }
{
    match tag {
        0 => Some(Event::Edit(Brush::Cuboid {
            mode: mode_read(bytes[0])?,
            lo: point_read(bytes, 1),
            hi: point_read(bytes, 7),
        })),
        1 => Some(Event::Edit(Brush::Ball {
            mode: mode_read(bytes[0])?,
            at: point_read(bytes, 1),
            r: two_at(bytes, 7),
        })),
        2 => Some(Event::Edit(Brush::Ground {
            mode: mode_read(bytes[0])?,
            h: two_at(bytes, 1),
        })),
        3 => Some(Event::Edit(Brush::Smooth {
            lo: point_read(bytes, 0),
            hi: point_read(bytes, 6),
        })),
        4 => Some(Event::Camera {
            view: bytes[0],
            at: point_read(bytes, 1),
        }),
        5 => Some(Event::Away { view: bytes[0] }),
        _ => Some(Event::Undo),
    }
}

/// Returns the mode that a byte says, if it says one.
fn mode_read(byte: u8) -> Option<Mode>
    ensures { result ≡ mode_read byte }
{
    match byte {
        0 => Some(Mode::Fill),
        1 => Some(Mode::Carve),
        _ => None,
    }
}

/// Returns the axis that a byte says, if it says one.
fn axis_read(byte: u8) -> Option<Axis>
    ensures { result ≡ axis_read byte }
{
    match byte {
        0 => Some(Axis::X),
        1 => Some(Axis::Y),
        2 => Some(Axis::Z),
        _ => None,
    }
}

/// Returns the key and the position that 20 bytes say, or `None` where the byte of the axis is none.
#[inline(always)]
pub(crate) fn vertex_read(bytes: &[u8]) -> Option<(Key, Pos)>
    requires { length bytes.now ≡ 20 }
    ensures { result ≡ vertex_read bytes.now }
{
    let axis = axis_read(bytes[1])?;
    let key = Key {
        level: bytes[0],
        at: point_read(bytes, 2),
        axis,
    };
    let at = Pos {
        x: four_at(bytes, 8),
        y: four_at(bytes, 12),
        z: four_at(bytes, 16),
    };
    Some((key, at))
}
