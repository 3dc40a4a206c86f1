//! The texts of the numbers of a mesh's vertices, which are kept for the triangles that have them.
//!
//! A vertex is a corner of some six triangles, and to copy the text of its number takes less time than to write its
//! digits again.

ghost use Rattle.std.specs.Prelude.{◌+◌, ◌<◌, ◌≤◌, ◌^◌, IfOk, length, take};
ghost use Rattle.mesh_out.specs.Numerals.{AreNumerals, IsNumeral, vertex_number};
ghost use Rattle.digits.specs.Lines.{Puts};

use crate::obj::MAX_MESH_BASE;
use digits::{put, put_spaced};
use std::alloc::{AllocError, Global};

/// The room for the text of a number. It is more than a number needs, since so many bytes are copied in fewer steps.
pub(crate) const NUMERAL_ROOM: usize = 24;

/// The text of the number of a vertex, behind a blank: its first `len` bytes.
#[derive(Clone, Copy, Debug)]
pub(crate) struct Numeral {
    pub bytes: [u8; NUMERAL_ROOM],
    pub len: usize,
}

/// Returns the texts of the numbers of so many vertices, behind `base` others. Out of memory is the only error.
pub(crate) fn numerals_of(
    alloc: Global,
    base: u64,
    count: usize,
) -> Result<Vec<Numeral>, AllocError>
    requires base_fits { base ≤ MAX_MESH_BASE }
    requires few { count < 2 ^ 32 }
    ensures { IfOk result (λ numerals. AreNumerals base numerals.items) }
{
    let mut numerals = Vec::with_capacity(alloc, count)?;
    let mut numeral = numeral_at(base, 0);
    for place in 0..count as u32 {
        numerals.push(numeral)?;
        go_on(&mut numeral, base, place);
    }
    Ok(numerals)
}

/// Makes the text of the number of the vertex at a place that of the next. Where the number doesn't end in 9, this
/// takes a change of its last digit alone.
#[inline(always)]
fn go_on(numeral: &mut Numeral, base: u64, place: u32)
    requires base_fits { base ≤ MAX_MESH_BASE }
    requires place { place + 1 < 2 ^ 32 }
    requires numeral { IsNumeral base place numeral.old }
    ensures { IsNumeral base (place + 1) numeral.new }
{
    let len = numeral.len;
    let last = numeral.bytes[len - 1];
    if last < b'9' {
        numeral.bytes[len - 1] = last + 1;
    } else {
        *numeral = numeral_at(base, place + 1);
    }
}

/// Returns the text of the number of a vertex by its place in the mesh, from 0.
#[inline(always)]
fn numeral_at(base: u64, place: u32) -> Numeral
    requires { base ≤ MAX_MESH_BASE }
    ensures { IsNumeral base place result }
{
    let mut bytes = [0; NUMERAL_ROOM];
    let len = put_spaced(&mut bytes, 0, base + u64::from(place) + 1);
    Numeral { bytes, len }
}

/// Writes the number of a vertex, by its place in the mesh, and a blank in front into a line from a place on, and
/// returns the place behind them. Where the text of the number is kept, it is copied.
#[inline(always)]
pub(crate) fn put_number(
    line: &mut [u8],
    at: usize,
    base: u64,
    numerals: &[Numeral],
    place: u32,
) -> usize
    requires base_fits { base ≤ MAX_MESH_BASE }
    requires numerals { AreNumerals base numerals.now }
    requires room { at + NUMERAL_ROOM ≤ length line.old }
    ensures line { Puts line.old line.new at result (vertex_number base place) }
    ensures near { result ≤ at + NUMERAL_ROOM }
{
    let index = place as usize;
    if index < numerals.len() {
        put_numeral(line, at, numerals[index])
    } else {
        put_spaced(line, at, base + u64::from(place) + 1)
    }
}

/// Writes a kept text into a line from a place on, and returns the place behind it. The room of the text is copied
/// whole: so many bytes at once take less time than just those of the text.
#[inline(always)]
fn put_numeral(line: &mut [u8], at: usize, numeral: Numeral) -> usize
    requires len { numeral.len ≤ NUMERAL_ROOM }
    requires room { at + NUMERAL_ROOM ≤ length line.old }
    ensures line { Puts line.old line.new at result (take numeral.len numeral.bytes) }
    ensures near { result ≤ at + NUMERAL_ROOM }
{
    let _behind = put(line, at, &numeral.bytes);
    at + numeral.len
}
