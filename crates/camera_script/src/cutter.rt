//! Lines, cut from pieces of a script.
//!
//! A `LineCutter` is given the bytes of a script in any pieces, and tells where a line is whole, or too long. It holds
//! one line in a fixed room of a longest one, so that it can't run out of memory and to make one can't fail. Where the
//! room is full the line is too long, whatever follows: then no more bytes are taken, and a line without an end can't
//! take time or memory. That lines come out alike however the bytes are cut into pieces is the law
//! `pieces_are_cut_as_one`.

ghost use Rattle.std.specs.Prelude.{◌≡◌, ◌≢◌, ℕ, ◌-◌, ◌<◌, ◌≤◌, min, [], ◌++◌, true, false, length, slice_index, take};
ghost use Rattle.camera_script.specs.Lines.{is_long, line_feed, without_return};

use crate::json_line::{LINE_LIMIT, is_too_long};
use arrayvec::ArrayVec;
use memchr::memchr;
use std::marker::Model;

/// How many bytes of a line are held at most: with so many it is too long, whatever follows.
const ROOM: usize = LINE_LIMIT + 2;

/// What became of a line when more bytes came.
#[derive(Clone, Copy, Debug, PartialEq, Eq)]
pub enum Cut {
    /// The line goes on.
    More,
    /// The line is whole.
    Line,
    /// The line is too long.
    Long,
}

/// Cuts the lines of a script from the pieces in which its bytes come.
///
/// It holds one line at a time, in a fixed room, and takes no memory.
#[derive(Debug, Drop)]
pub struct LineCutter {
    line: ArrayVec<u8, ROOM>,
    /// Whether the line is whole, and the next byte begins another.
    is_whole: bool,
}

impl Model for LineCutter {
    ghost use Rattle.camera_script.specs.Lines.{Held};

    ghost Value = { Held };

    ghost view = { λ cutter. record { line = cutter.line.items; is_whole = cutter.is_whole } };
}

impl LineCutter {
    ghost use Rattle.camera_script.specs.Lines.{Cuts, Finishes, unfinished};

    /// Returns the cutter before any byte.
    pub fn new() -> LineCutter
        ensures line { result.line ≡ [] }
        ensures is_whole { result.is_whole ≡ false }
    {
        LineCutter {
            line: ArrayVec::new(),
            is_whole: false,
        }
    }

    /// Takes the bytes of a piece up to the first line feed and with it, or all of them, and returns how many it took.
    ///
    /// `Line` is returned exactly where a line feed was taken and the line isn't too long, and `Long` exactly where the
    /// line is known to be too long. Then nothing more is taken, and `Long` is returned again.
    pub fn eat(&mut self, piece: &[u8]) -> (usize, Cut)
        ensures taken { result.0 ≤ length piece.now }
        ensures cut { Cuts self.old piece.now result.0 self.new result.1 }
        ensures again { is_long (unfinished self.old) ≡ true → result ≡ (0, Cut.Long) }
        ensures stays { result.1 ≡ Cut.Long → is_long (unfinished self.new) ≡ true }
    {
        self.begin();
        if self.is_long() {
            return (0, Cut::Long);
        }
        let end = line_length(piece);
        let count = self.hold(&piece[..end]);
        if self.is_long() {
            (count, Cut::Long)
        } else if count == piece.len() {
            (count, Cut::More)
        } else {
            self.is_whole = true;
            (count + 1, Cut::Line)
        }
    }

    /// Ends the input: `Line` where bytes of a line stand that isn't whole, and `More` where none do.
    pub fn finish(&mut self) -> Cut
        ensures finished { Finishes self.old self.new result }
        ensures empty { result ≡ Cut.More → unfinished self.new ≡ [] }
        ensures stays { result ≡ Cut.Long → is_long (unfinished self.new) ≡ true }
    {
        self.begin();
        if self.is_long() {
            Cut::Long
        } else if self.line.is_empty() {
            Cut::More
        } else {
            self.is_whole = true;
            Cut::Line
        }
    }

    /// Returns the line, without its line feed and one carriage return.
    pub fn line(&self) -> &[u8]
        requires { self.now.is_whole ≡ true }
        ensures { result.now ≡ without_return self.now.line }
    {
        without_return(&self.line)
    }

    /// Returns whether the line is too long, as it is or however it goes on.
    fn is_long(&self) -> bool
        ensures { result ≡ is_long self.now.line }
    {
        is_too_long(without_return(&self.line))
    }

    /// Puts bytes behind the line for which there is room, and returns how many.
    fn hold(&mut self, bytes: &[u8]) -> usize
        ensures count { result ≡ min (length bytes.now) (ROOM - length self.old.line) }
        ensures held { self.new
            ≡ record self.old { line = self.old.line ++ take result bytes.now } }
    {
        let count = bytes.len().min(ROOM - self.line.len());
        let _fits = self.line.try_extend_from_slice(&bytes[..count]);
        count
    }

    /// Begins another line behind one that is whole.
    fn begin(&mut self)
        ensures { self.new ≡ record { line = unfinished self.old; is_whole = false } }
    {
        if self.is_whole {
            self.line.clear();
            self.is_whole = false;
        }
    }
}

/// Returns the line without the carriage return at its end, if there is one.
fn without_return(line: &[u8]) -> &[u8]
    ensures { result.now ≡ without_return line.now }
{
    let end = line.len();
    if end > 0 && line[end - 1] == b'\r' {
        &line[..end - 1]
    } else {
        line
    }
}

/// Returns how many bytes there are before the first line feed.
fn line_length(bytes: &[u8]) -> usize
    ensures within { result ≤ length bytes.now }
    ensures before { (k : ℕ) → k < result → slice_index bytes.now k ≢ line_feed }
    ensures end { result < length bytes.now → slice_index bytes.now result ≡ line_feed }
{
    memchr(b'\n', bytes).unwrap_or(bytes.len())
}
