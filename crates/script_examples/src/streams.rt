//! Sources and sinks of bytes, in memory and over readers and writers that fail.
//!
//! How each counts its faults is said by the clauses of their calls.

use crate::asserts::{expect, expect_made};
use std::alloc::Global;
use std::io::{self, ErrorKind, Read, Write};
use std::process::Abort;
use terra_io::{
    Failed, MemSink, MemSource, PlainSource, ReaderSource, Sink, Source, WriterSink, put_all,
    put_units,
};

const TEXT: &[u8] = b"terrain";

/// The greatest piece of a source, the calls that fail, the room in the buffer; what four calls return, and give.
struct SourceCase {
    piece: usize,
    fails: &'static [u32],
    room: usize,
    answers: [Result<usize, Failed>; 4],
    given: &'static [u8],
}

static SOURCE_CASES: [SourceCase; 5] = [
    SourceCase {
        piece: 3,
        fails: &[],
        room: 16,
        answers: [Ok(3), Ok(3), Ok(1), Ok(0)],
        given: b"terrain",
    },
    SourceCase {
        piece: 16,
        fails: &[],
        room: 4,
        answers: [Ok(4), Ok(3), Ok(0), Ok(0)],
        given: b"terrain",
    },
    SourceCase {
        piece: 16,
        fails: &[],
        room: 0,
        answers: [Ok(0), Ok(0), Ok(0), Ok(0)],
        given: b"",
    },
    SourceCase {
        piece: 3,
        fails: &[2],
        room: 16,
        answers: [Ok(3), Err(Failed), Ok(3), Ok(1)],
        given: b"terrain",
    },
    SourceCase {
        piece: 1,
        fails: &[3, 1],
        room: 2,
        answers: [Err(Failed), Ok(1), Err(Failed), Ok(1)],
        given: b"te",
    },
];

/// A reader whose first call fails, of which four bytes are asked for at a time.
static FAILING_READER: SourceCase = SourceCase {
    piece: 4,
    fails: &[1],
    room: 4,
    answers: [Err(Failed), Ok(4), Ok(3), Ok(0)],
    given: b"terrain",
};

/// Reads once, and returns what the call does; its bytes are added to those of the calls before.
fn read_once<S: Source>(
    rt: &impl Abort,
    source: &mut S,
    room: usize,
    given: &mut Vec<u8>,
) -> Result<usize, Failed> {
    let mut buf = [0; 16];
    assert!(rt; room <= 16);
    let found = source.read(&mut buf[..room]);
    if let Ok(count) = found {
        expect_made(rt, given.extend_from_slice(&buf[..count]));
    }
    found
}

/// Asserts what four calls return, and adds the bytes that they give to those that are given.
fn expect_answers<S: Source>(
    rt: &impl Abort,
    case: &SourceCase,
    source: &mut S,
    given: &mut Vec<u8>,
) {
    for answer in &case.answers {
        let found = read_once(rt, source, case.room, given);
        expect(rt, case.piece, found, *answer);
    }
}

/// Asserts what four calls return, and the bytes that they give.
fn expect_reads<S: Source>(rt: &impl Abort, alloc: Global, case: &SourceCase, source: &mut S) {
    let mut given = Vec::new(alloc);
    expect_answers(rt, case, source, &mut given);
    expect(rt, case.piece, given.as_slice(), case.given);
    drop(given);
}

/// Asserts the same of a source in memory.
fn expect_mem_source(rt: &impl Abort, alloc: Global, case: &SourceCase) {
    let fails = expect_made(rt, case.fails.to_vec(alloc));
    let text = expect_made(rt, TEXT.to_vec(alloc));
    assert!(rt; case.piece >= 1);
    let mut source = MemSource::new(text, case.piece, fails);
    expect_reads(rt, alloc, case, &mut source);
    drop(source);
}

/// Asserts the same of a source in memory none of whose calls fail.
fn expect_plain_source(rt: &impl Abort, alloc: Global, case: &SourceCase) {
    let text = expect_made(rt, TEXT.to_vec(alloc));
    assert!(rt; case.piece >= 1);
    let mut source = PlainSource::new(text, case.piece);
    expect_reads(rt, alloc, case, &mut source);
    drop(source);
}

#[test]
fn gives_pieces_and_fails_by_number(rt: HostRuntime) {
    for case in &SOURCE_CASES {
        expect_mem_source(&rt, rt.alloc(), case);
        if case.fails.is_empty() {
            expect_plain_source(&rt, rt.alloc(), case);
        }
    }
}

/// A reader in memory whose first call fails.
#[derive(Drop)]
struct FailingReader {
    left: &'static [u8],
    has_failed: bool,
}

impl Read for FailingReader {
    fn read(&mut self, buf: &mut [u8]) -> io::Result<usize> {
        if !self.has_failed {
            self.has_failed = true;
            return Err(ErrorKind::Other.into());
        }
        self.left.read(buf)
    }
}

#[test]
fn reads_on_after_an_error_of_the_reader(rt: HostRuntime) {
    let mut source = ReaderSource::new(FailingReader {
        left: TEXT,
        has_failed: false,
    });
    expect_reads(&rt, rt.alloc(), &FAILING_READER, &mut source);
    drop(source);
}

/// The room of a sink, its greatest piece and the calls that fail; what `put_all` of a text of seven bytes returns, and
/// what is held then.
struct SinkCase {
    room: usize,
    piece: usize,
    fails: &'static [u32],
    answer: Result<(), Failed>,
    held: &'static [u8],
}

static SINK_CASES: [SinkCase; 6] = [
    SinkCase {
        room: 7,
        piece: 7,
        fails: &[],
        answer: Ok(()),
        held: b"terrain",
    },
    SinkCase {
        room: 7,
        piece: 3,
        fails: &[4],
        answer: Ok(()),
        held: b"terrain",
    },
    SinkCase {
        room: 7,
        piece: 3,
        fails: &[2],
        answer: Err(Failed),
        held: b"ter",
    },
    SinkCase {
        room: 6,
        piece: 3,
        fails: &[],
        answer: Err(Failed),
        held: b"terrai",
    },
    SinkCase {
        room: 6,
        piece: 7,
        fails: &[],
        answer: Err(Failed),
        held: b"",
    },
    SinkCase {
        room: 0,
        piece: 1,
        fails: &[],
        answer: Err(Failed),
        held: b"",
    },
];

/// Returns a sink in memory with so much room, in which these calls fail.
fn sink_of(rt: &impl Abort, alloc: Global, room: usize, fails: &[u32]) -> MemSink {
    let fails = expect_made(rt, fails.to_vec(alloc));
    expect_made(rt, MemSink::new(alloc, room, fails))
}

/// Asserts what a `put_all` of the text returns, and what is held then.
fn expect_sink_case(rt: &impl Abort, alloc: Global, case: &SinkCase) {
    let (room, piece) = (case.room, case.piece);
    assert!(rt; piece >= 1);
    let mut sink = sink_of(rt, alloc, room, case.fails).with_piece(piece);
    expect(rt, (room, piece), put_all(&mut sink, TEXT), case.answer);
    expect(rt, (room, piece), sink.bytes(), case.held);
    drop(sink);
}

#[test]
fn takes_pieces_and_fails_by_number(rt: HostRuntime) {
    for case in &SINK_CASES {
        expect_sink_case(&rt, rt.alloc(), case);
    }
}

#[test]
fn takes_all_again_after_a_fault(rt: HostRuntime) {
    let mut sink = sink_of(&rt, rt.alloc(), 16, &[1]);
    expect(&rt, "the first", sink.write(b"terra"), Err(Failed));
    expect(&rt, "the second", sink.write(b"terra"), Ok(5));
    expect(&rt, "both", sink.bytes(), b"terra".as_slice());
    drop(sink);
}

/// A writer in memory that takes at most so many bytes in a call, and counts its flushes.
#[derive(Drop)]
struct CountingWriter {
    held: Vec<u8>,
    flushes: u32,
    piece: usize,
    /// Whether its next write and its next flush fail.
    fails: (bool, bool),
}

impl Write for CountingWriter {
    fn write(&mut self, buf: &[u8]) -> io::Result<usize> {
        if self.fails.0 {
            self.fails.0 = false;
            return Err(ErrorKind::Other.into());
        }
        let count = buf.len().min(self.piece);
        self.held.extend_from_slice(&buf[..count])?;
        Ok(count)
    }

    fn flush(&mut self) -> io::Result<()> {
        self.flushes = self.flushes.saturating_add(1);
        if self.fails.1 {
            self.fails.1 = false;
            return Err(ErrorKind::Other.into());
        }
        Ok(())
    }
}

/// How many bytes a writer takes in a call, and whether its first write and its first flush fail; what each `put_all`
/// returns, what is held after them, and how many flushes there were.
struct WriterCase {
    piece: usize,
    fails: (bool, bool),
    answers: &'static [Result<(), Failed>],
    held: &'static [u8],
    flushes: u32,
}

/// A failed write leaves nothing, a failed flush what was written before it, and each write is flushed.
static WRITER_CASES: [WriterCase; 3] = [
    WriterCase {
        piece: 16,
        fails: (true, false),
        answers: &[Err(Failed), Ok(())],
        held: b"terrain",
        flushes: 1,
    },
    WriterCase {
        piece: 16,
        fails: (false, true),
        answers: &[Err(Failed), Ok(())],
        held: b"terrainterrain",
        flushes: 2,
    },
    WriterCase {
        piece: 3,
        fails: (false, false),
        answers: &[Ok(())],
        held: b"terrain",
        flushes: 3,
    },
];

/// Asserts what each `put_all` of the text returns.
fn expect_puts<K: Sink>(rt: &impl Abort, sink: &mut K, answers: &[Result<(), Failed>]) {
    for (place, answer) in answers.iter().enumerate() {
        expect(rt, place, put_all(sink, TEXT), *answer);
    }
}

/// Asserts what a writer holds once each `put_all` of the text returned what it should, and how often it was flushed.
fn expect_writer_case(rt: &impl Abort, alloc: Global, case: &WriterCase) {
    let mut writer = CountingWriter {
        held: Vec::new(alloc),
        flushes: 0,
        piece: case.piece,
        fails: case.fails,
    };
    expect_puts(rt, &mut WriterSink::new(&mut writer), case.answers);
    expect(rt, case.fails, writer.held.as_slice(), case.held);
    expect(rt, case.fails, writer.flushes, case.flushes);
    drop(writer);
}

#[test]
fn passes_bytes_on_to_the_writer_and_flushes(rt: HostRuntime) {
    for case in &WRITER_CASES {
        expect_writer_case(&rt, rt.alloc(), case);
    }
}

#[test]
fn fills_a_writer_that_has_too_little_room(rt: HostRuntime) {
    let mut room = [0; 4];
    let mut sink = WriterSink::new(&mut room[..]);
    expect_puts(&rt, &mut sink, &[Err(Failed)]);
    expect(&rt, "the room", room, *b"terr");
}

/// How many units a coordinate has, and its text.
static COORDINATES: [(u32, &[u8]); 6] = [
    (0, b"0.00000000"),
    (1, b"0.00390625"),
    (255, b"0.99609375"),
    (2112, b"8.25000000"),
    (2176, b"8.50000000"),
    (65536, b"256.00000000"),
];

/// Asserts the text of a coordinate.
fn expect_coordinate(rt: &impl Abort, alloc: Global, units: u32, text: &[u8]) {
    let mut sink = sink_of(rt, alloc, 16, &[]).with_piece(5);
    expect(rt, units, put_units(&mut sink, units), Ok(()));
    expect(rt, units, sink.bytes(), text);
    drop(sink);
}

#[test]
fn writes_coordinates_as_exact_fractions(rt: HostRuntime) {
    for (units, text) in &COORDINATES {
        expect_coordinate(&rt, rt.alloc(), *units, text);
    }
}
