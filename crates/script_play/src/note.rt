//! The one line of a status.

ghost use Rattle.std.specs.Prelude.{◌≡◌, ◌≤◌, length};
ghost use Rattle.terra_io.specs.Stream.{IsOffered};
ghost use Rattle.script_play.specs.Note.{line_note, note_of, wire_note};

use crate::status::Status;
use arrayvec::ArrayString;
use itoa::Buffer;
use terra_io::{Sink, put_all};

/// No reason, and no note without one, is longer.
const TEXT_ROOM: usize = 20;

/// No note is longer: that on a wire has 26 bytes and two numbers, of at most 20 digits and of 3. In that on a line at
/// most 24 bytes are before a reason, and one is behind it.
const NOTE_ROOM: usize = 49;

/// Offers the line of a status to the notes; `Done` has none. A fault of the notes changes nothing else.
pub fn offer_note<E: Sink>(status: &Status, notes: &mut E)
    ensures { IsOffered (E.state notes.old) (E.state notes.new) (note_of status.now) }
{
    let _ = put_all(notes, note(status).as_bytes());
}

/// Returns the line, with its end, that is offered to the notes; it is empty for `Done`. It takes no memory.
fn note(status: &Status) -> ArrayString<NOTE_ROOM>
    ensures { result.bytes ≡ note_of status.now }
{
    match *status {
        Status::Done => ArrayString::new(),
        Status::NoMemory => plain_note("terra: no memory\n"),
        Status::BadWords => plain_note("terra: bad words\n"),
        Status::BadScript { line, fault } => line_note(line, fault.words()),
        Status::ReadFault => plain_note("terra: read fault\n"),
        Status::WriteFault => plain_note("terra: write fault\n"),
        Status::JournalFull { line } => line_note(line, "journal full"),
        Status::InputLimit => plain_note("terra: input limit\n"),
        Status::NothingToUndo { line } => line_note(line, "nothing to undo"),
        Status::BadWire { at, fault } => wire_note(at, fault.code()),
        Status::CutWire => plain_note("terra: wire cut\n"),
    }
}

fn plain_note(text: &str) -> ArrayString<NOTE_ROOM>
    requires { length text.now ≤ TEXT_ROOM }
    ensures { result.bytes ≡ text.now }
{
    let mut note = ArrayString::new();
    note.push_str(text);
    note
}

/// Returns a note on a refused line: its number, and why it is refused.
fn line_note(line: u32, why: &str) -> ArrayString<NOTE_ROOM>
    requires { length why.now ≤ TEXT_ROOM }
    ensures { result.bytes ≡ line_note line why.now }
{
    let mut number = Buffer::new();
    let mut note = ArrayString::new();
    note.push_str("terra: line ");
    note.push_str(number.format(line));
    note.push_str(": ");
    note.push_str(why);
    note.push_str("\n");
    note
}

/// Returns a note on a wire of which a field is refused: how many bytes were taken, and the number of the fault.
fn wire_note(at: u64, fault: u8) -> ArrayString<NOTE_ROOM>
    ensures { result.bytes ≡ wire_note at fault }
{
    let mut place = Buffer::new();
    let mut number = Buffer::new();
    let mut note = ArrayString::new();
    note.push_str("terra: byte ");
    note.push_str(place.format(at));
    note.push_str(": wire fault ");
    note.push_str(number.format(fault));
    note.push_str("\n");
    note
}
