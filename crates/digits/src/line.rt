//! Lines of text, which are written into room that is there.

ghost use Rattle.std.specs.Prelude.{◌+◌, ◌≤◌, length};
ghost use Rattle.digits.specs.Lines.{Puts};

/// Writes bytes into a line from a place on, and returns the place behind them.
#[inline(always)]
pub fn put(line: &mut [u8], at: usize, bytes: &[u8]) -> usize
    requires { at + length bytes.now ≤ length line.old }
    ensures { Puts line.old line.new at result bytes.now }
{
    let end = at + bytes.len();
    line[at..end].copy_from_slice(bytes);
    end
}
