//! Lines of a mesh, which are gathered in a fixed room and appended together where it is full.
//!
//! A mesh has thousands of lines, and to append each by itself takes longer than to write its digits.

ghost use Rattle.std.specs.Prelude.{◌≡◌, ◌+◌, ◌≤◌, ◌++◌, IfOk, length, take};

use std::alloc::AllocError;

/// The room for a line: no line of a vertex or of a triangle is longer.
pub(crate) const LINE_ROOM: usize = 96;

/// The room for the lines that are appended at once.
pub(crate) const LINES_ROOM: usize = 1024;

/// Appends the lines so far where one more might not have room behind them, and returns how many bytes of them are
/// left then. Out of memory is the only error.
#[inline(always)]
pub(crate) fn room_for_line(
    out: &mut Vec<u8>,
    lines: &[u8],
    end: usize,
) -> Result<usize, AllocError>
    requires end { end ≤ length lines.now }
    requires room { LINE_ROOM ≤ length lines.now }
    ensures text { IfOk result (λ left.
        out.new.items ++ take left lines.now ≡ out.old.items ++ take end lines.now) }
    ensures room { IfOk result (λ left. left + LINE_ROOM ≤ length lines.now) }
{
    if end <= lines.len() - LINE_ROOM {
        return Ok(end);
    }
    out.extend_from_slice(&lines[..end])?;
    Ok(0)
}
