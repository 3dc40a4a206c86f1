//! Numbers that a line has behind other bytes than a blank.

ghost use Rattle.std.specs.Prelude.{◌+◌, ◌∷◌, ◌<◌, ◌≤◌, ◌^◌, ◌++◌, codes, decimal, length, unsigned_abs};
ghost use Rattle.std.specs.Fmt.{signed_decimal};
ghost use Rattle.digits.specs.Lines.{Puts};

use digits::{NUMBER_ROOM, put_spaced};

/// Two bytes and the digits of a number have at most so many bytes.
pub(crate) const LED_ROOM: usize = 1 + NUMBER_ROOM;

/// Writes two bytes and a number into a line from a place on, and returns the place behind them.
#[inline(always)]
pub(crate) fn put_led(line: &mut [u8], at: usize, first: u8, second: u8, n: u64) -> usize
    requires { at + LED_ROOM ≤ length line.old }
    ensures line { Puts line.old line.new at result (first ∷ second ∷ decimal n) }
    ensures near { result ≤ at + LED_ROOM }
{
    let end = put_spaced(line, at + 1, n);
    line[at] = first;
    line[at + 1] = second;
    end
}

/// Writes a blank and a number, which may be below 0, into a line from a place on, and returns the place behind them.
#[inline(always)]
pub(crate) fn put_signed(line: &mut [u8], at: usize, n: i32) -> usize
    requires { at + LED_ROOM ≤ length line.old }
    ensures line { Puts line.old line.new at result (codes " " ++ signed_decimal n) }
    ensures near { result ≤ at + LED_ROOM }
{
    let size = u64::from(n.unsigned_abs());
    if n < 0 {
        put_led(line, at, b' ', b'-', size)
    } else {
        put_spaced(line, at, size)
    }
}
