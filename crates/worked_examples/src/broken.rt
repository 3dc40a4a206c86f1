//! Each read and each write that fails in turn, from sources and into sinks that take pieces of several sizes.
//!
//! What is written at a read that fails is the output of the whole lines before it, and at a write that fails a first
//! part of the output.

use crate::cases::{Case, RUN};
use crate::levels::{HILLS_LENGTH, HILLS_LINES, expect_hills};
use crate::made::Bytes;
use crate::outcome::{Ended, TestRuntime, expect_bytes, expect_status};
use crate::scripts::{HEAD, MIDDLE, MIDDLE_SHOT, SHOT};
use std::process::Abort;
use terra_io::Source;
use terra_run::Status;

/// How many bytes a source gives in a read, and a sink takes in a write.
static PIECES: [usize; 4] = [1, 7, 33, 4096];

/// No script here takes so many reads or writes.
const MOST_CALLS: u32 = 1000;

/// Large pieces.
static LARGE_PIECES: [usize; 2] = [4096, 1 << 21];

/// Which calls fail in turn.
#[derive(Clone, Copy)]
enum Calls {
    Reads,
    Writes,
}

/// A script, and how much of its output stands when some of its lines were carried out.
#[derive(Clone, Copy)]
struct Example {
    lines: &'static [&'static str],
    /// How many lines, and how many bytes of output then: for each line that writes.
    parts: &'static [(usize, usize)],
}

const POINT_LINES: [&str; 3] = [HEAD, MIDDLE, SHOT];

static POINT: Example = Example {
    lines: &POINT_LINES,
    parts: &[(3, MIDDLE_SHOT.len())],
};

/// A shot after five events, a line of stats after seven and a shot after nine.
static HILLS_IN_PARTS: Example = Example {
    lines: &HILLS_LINES,
    parts: &[(7, 735_652), (10, 735_697), (13, HILLS_LENGTH)],
};

/// The same hills, without a fault.
static HILLS: Case = Case {
    input: Bytes::Lines(&HILLS_LINES),
    ..RUN
};

impl Example {
    /// Returns how many bytes of output stand when so many bytes of input were read.
    fn output_after(&self, read: usize) -> usize {
        let mut output = 0;
        for (lines, written) in self.parts {
            if self.bytes_of(*lines) <= read {
                output = *written;
            }
        }
        output
    }

    /// Returns how many bytes so many lines have, each with its line feed.
    fn bytes_of(&self, lines: usize) -> usize {
        let mut bytes: usize = 0;
        for line in self.lines.iter().take(lines) {
            bytes = bytes.saturating_add(line.len()).saturating_add(1);
        }
        bytes
    }

    /// Returns the output, of this whole one, that stands when so many bytes of input were read.
    fn part_after<'a>(&self, read: usize, whole: &'a [u8]) -> &'a [u8] {
        whole.get(..self.output_after(read)).unwrap_or(whole)
    }

    /// Returns a run of the script of which the call of this number fails, if there is one.
    fn case(&self, calls: Calls, piece: usize, number: u32) -> Case {
        let case = Case {
            input: Bytes::Lines(self.lines),
            ..RUN
        };
        match calls {
            Calls::Reads => Case {
                given: piece,
                failed_read: Some(number),
                ..case
            },
            Calls::Writes => Case {
                taken: piece,
                failed_write: Some(number),
                ..case
            },
        }
    }

    /// Asserts what comes of a call that fails behind so many ones, and returns whether no call was left to fail.
    fn is_whole(
        &self,
        rt: &impl TestRuntime,
        calls: Calls,
        piece: usize,
        before: u32,
        whole: &[u8],
    ) -> bool {
        let ended = self.case(calls, piece, before.saturating_add(1)).run(rt);
        let moved = piece.saturating_mul(before as usize);
        self.expect_ended(rt, calls, moved, whole, &ended);
        let is_whole = ended.status == Status::Done;
        drop(ended);
        is_whole
    }

    /// Asserts what comes of a run whose calls moved so many bytes before one that fails, if one does.
    fn expect_ended(
        &self,
        rt: &impl Abort,
        calls: Calls,
        moved: usize,
        whole: &[u8],
        ended: &Ended,
    ) {
        if ended.status == Status::Done {
            expect_no_fault(rt, self.is_behind_all(calls, moved, whole), ended, whole);
            return;
        }
        match calls {
            Calls::Reads => expect_read_fault(rt, ended, self.part_after(moved, whole)),
            Calls::Writes => expect_write_fault(rt, ended, whole),
        }
    }

    /// Returns whether so many bytes are all: of the output, or of the input, where the last read found its end.
    fn is_behind_all(&self, calls: Calls, moved: usize, whole: &[u8]) -> bool {
        match calls {
            Calls::Reads => moved > self.bytes_of(self.lines.len()),
            Calls::Writes => moved >= whole.len(),
        }
    }

    /// Asserts what comes of each call that fails, where a call moves so many bytes.
    fn expect_each(&self, rt: &impl TestRuntime, calls: Calls, piece: usize, whole: &[u8]) {
        let mut is_whole = false;
        for before in 0..MOST_CALLS {
            is_whole = self.is_whole(rt, calls, piece, before, whole);
            if is_whole {
                break;
            }
        }
        assert!(rt; is_whole, "a call fails");
    }

    /// Asserts what comes of each call that fails, for pieces of several sizes.
    fn expect_all(&self, rt: &impl TestRuntime, calls: Calls, pieces: &[usize], whole: &[u8]) {
        for piece in pieces {
            self.expect_each(rt, calls, *piece, whole);
        }
    }
}

/// Asserts that a script was carried out whole where no call fails any more, since all calls were made before.
fn expect_no_fault(rt: &impl Abort, is_behind_all: bool, ended: &Ended, whole: &[u8]) {
    assert!(rt; is_behind_all);
    expect_bytes(rt, "no call fails", &ended.sinks.output, whole);
}

/// Asserts what comes of a read that fails.
fn expect_read_fault(rt: &impl Abort, ended: &Ended, output: &[u8]) {
    expect_status(rt, "a read", ended.status, Status::ReadFault);
    expect_bytes(rt, "a read", &ended.sinks.output, output);
    expect_bytes(rt, "its note", &ended.sinks.notes, b"terra: read fault\n");
}

/// Asserts what comes of a write that fails.
fn expect_write_fault(rt: &impl Abort, ended: &Ended, whole: &[u8]) {
    expect_status(rt, "a write", ended.status, Status::WriteFault);
    expect_bytes(rt, "its note", &ended.sinks.notes, b"terra: write fault\n");
    assert!(rt; whole.starts_with(ended.sinks.output.bytes()));
}

/// Makes the run of the hills, which is written without a fault, and returns how it ended.
fn hills(rt: &impl TestRuntime) -> Ended {
    let ended = HILLS.run(rt);
    expect_hills(rt, ended.sinks.output.bytes());
    ended
}

#[test]
fn writes_the_output_of_whole_lines_where_a_read_fails(rt: HostRuntime) {
    POINT.expect_all(&rt, Calls::Reads, &PIECES, MIDDLE_SHOT.as_bytes());
    let hills = hills(&rt);
    let whole = hills.sinks.output.bytes();
    HILLS_IN_PARTS.expect_all(&rt, Calls::Reads, &PIECES, whole);
    drop(hills);
}

/// The hills are written in large pieces: smaller ones would be tens of thousands.
#[test]
fn writes_a_first_part_where_a_write_fails(rt: HostRuntime) {
    POINT.expect_all(&rt, Calls::Writes, &PIECES, MIDDLE_SHOT.as_bytes());
    let hills = hills(&rt);
    let whole = hills.sinks.output.bytes();
    HILLS_IN_PARTS.expect_all(&rt, Calls::Writes, &LARGE_PIECES, whole);
    drop(hills);
}

/// A run that isn't made, and whose first read would fail.
static ANOTHER_NAME: Case = Case {
    arguments: &["fly"],
    input: Bytes::Lines(&POINT_LINES),
    failed_read: Some(1),
    ..RUN
};

#[test]
fn reads_nothing_where_the_arguments_are_wrong(rt: HostRuntime) {
    let mut source = ANOTHER_NAME.source(&rt, rt.alloc());
    let ended = ANOTHER_NAME.run_over(&rt, &mut source);
    expect_status(&rt, "another name", ended.status, Status::BadWords);
    // The first read is still to come.
    assert!(rt; source.read(&mut [0; 16]).is_err());
    drop((source, ended));
}
