//! Numbers in decimal digits, put into a line that has room for them.
//!
//! They are made for the numbers of a mesh, which are many and mostly short: digits are put two at a time, and the
//! fraction of a coordinate is looked up (`digit_tables`).

ghost use Rattle.std.specs.Prelude.{◌≡◌, ◌+◌, ◌*◌, ◌/◌, ◌<◌, ◌≤◌, ◌^◌, ◌++◌, [], ◌∷◌, codes, decimal, length};
ghost use Rattle.digits.specs.Digits.{UNIT_DIGITS, coordinate_text, digit_of, eight_digits, four_digits};
ghost use Rattle.digits.specs.Lines.{Puts};

use crate::digit_tables::{FRACTION_ROOM, FRACTIONS, PAIRS, SMALL_COUNT, SMALLS};
use crate::line::put;
use itoa::Buffer;
use lattice::UNITS;

/// A blank and the digits of a number, at most 20, have at most so many bytes.
pub const NUMBER_ROOM: usize = 21;

/// A blank and a coordinate have at most so many bytes.
pub const COORDINATE_ROOM: usize = NUMBER_ROOM + FRACTION_ROOM;

/// Writes a blank and a coordinate in units of 1/256 cell, as an exact decimal fraction, into a line from a place on:
/// 1/256 is 0.00390625. It returns the place behind it.
#[inline(always)]
pub fn put_coordinate(line: &mut [u8], at: usize, units: u32) -> usize
    requires { at + COORDINATE_ROOM ≤ length line.old }
    ensures line { Puts line.old line.new at result (codes " " ++ coordinate_text units) }
    ensures near { result ≤ at + COORDINATE_ROOM }
{
    let point = put_cells(line, at, units / UNITS);
    put_fraction(line, point, units % UNITS)
}

/// Writes a blank and a number of cells, which is mostly small, and returns the place behind them.
#[inline(always)]
fn put_cells(line: &mut [u8], at: usize, n: u32) -> usize
    requires { at + NUMBER_ROOM ≤ length line.old }
    ensures line { Puts line.old line.new at result (codes " " ++ decimal n) }
    ensures near { result ≤ at + NUMBER_ROOM }
{
    if n < SMALL_COUNT {
        put_small(line, at, n)
    } else {
        put_spaced(line, at, u64::from(n))
    }
}

/// Writes a blank and a number whose digits are looked up. Four bytes are copied, however long the number is.
#[inline(always)]
fn put_small(line: &mut [u8], at: usize, n: u32) -> usize
    requires number { n < SMALL_COUNT }
    requires room { at + 4 ≤ length line.old }
    ensures line { Puts line.old line.new at result (codes " " ++ decimal n) }
    ensures near { result ≤ at + 4 }
{
    let _behind = put(line, at, &SMALLS[n as usize]);
    at + small_len(n)
}

/// Returns how many bytes a blank and a small number have.
#[inline(always)]
fn small_len(n: u32) -> usize
    requires { n < SMALL_COUNT }
    ensures text { result ≡ length (codes " " ++ decimal n) }
    ensures few { result ≤ 4 }
{
    if n < 10 {
        2
    } else if n < 100 {
        3
    } else {
        4
    }
}

/// Writes the point and the eight digits of so many units.
#[inline(always)]
fn put_fraction(line: &mut [u8], at: usize, units: u32) -> usize
    requires units { units < UNITS }
    requires room { at + FRACTION_ROOM ≤ length line.old }
    ensures line { Puts line.old line.new at result
        (codes "." ++ eight_digits (units * UNIT_DIGITS)) }
    ensures near { result ≡ at + FRACTION_ROOM }
{
    put(line, at, &FRACTIONS[units as usize])
}

/// Writes a blank and a number into a line from a place on, and returns the place behind them.
///
/// It is made for the numbers of a mesh, which are many and short.
#[inline(always)]
pub fn put_spaced(line: &mut [u8], at: usize, n: u64) -> usize
    requires { at + NUMBER_ROOM ≤ length line.old }
    ensures line { Puts line.old line.new at result (codes " " ++ decimal n) }
    ensures near { result ≤ at + NUMBER_ROOM }
{
    if n >= 100_000_000 {
        return put_long(line, at, n);
    }
    let n = n as u32;
    if n < 10_000 {
        return put_short(line, at, n);
    }
    let first = put_short(line, at, n / 10_000);
    put_four(line, first, n % 10_000)
}

/// Writes a blank and a number of any length.
#[inline(never)]
fn put_long(line: &mut [u8], at: usize, n: u64) -> usize
    requires { at + NUMBER_ROOM ≤ length line.old }
    ensures line { Puts line.old line.new at result (codes " " ++ decimal n) }
    ensures near { result ≤ at + NUMBER_ROOM }
{
    let mut buffer = Buffer::new();
    let first = put(line, at, b" ");
    put(line, first, buffer.format(n).as_bytes())
}

/// Writes a blank and a number of at most four digits.
#[inline(always)]
fn put_short(line: &mut [u8], at: usize, n: u32) -> usize
    requires number { n < 10 ^ 4 }
    requires room { at + 5 ≤ length line.old }
    ensures line { Puts line.old line.new at result (codes " " ++ decimal n) }
    ensures near { result ≤ at + 5 }
{
    if n < 10 {
        put(line, at, &[b' ', digit(n)])
    } else if n < 100 {
        let both = pair(n);
        put(line, at, &[b' ', both[0], both[1]])
    } else if n < 1000 {
        let last = pair(n % 100);
        put(line, at, &[b' ', digit(n / 100), last[0], last[1]])
    } else {
        let (first, last) = (pair(n / 100), pair(n % 100));
        put(line, at, &[b' ', first[0], first[1], last[0], last[1]])
    }
}

/// Writes a number below 10,000 in four digits.
#[inline(always)]
fn put_four(line: &mut [u8], at: usize, n: u32) -> usize
    requires number { n < 10 ^ 4 }
    requires room { at + 4 ≤ length line.old }
    ensures { Puts line.old line.new at result (four_digits n) }
{
    let (first, last) = (pair(n / 100), pair(n % 100));
    put(line, at, &[first[0], first[1], last[0], last[1]])
}

/// Returns the two digits of a number below 100.
fn pair(n: u32) -> [u8; 2]
    requires { n < 100 }
    ensures { result ≡ digit_of (n / 10) ∷ digit_of n ∷ [] }
{
    PAIRS[n as usize]
}

/// Returns the digit of a number below 10.
fn digit(n: u32) -> u8
    requires { n < 10 }
    ensures { result ≡ digit_of n }
{
    b'0' + n as u8
}
