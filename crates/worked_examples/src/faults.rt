//! Reads and writes that fail.

use crate::cases::{Case, RUN, expect_cases};
use crate::made::Bytes;
use crate::outcome::{TestRuntime, expect_bytes, expect_status};
use crate::scripts::{HEAD, MIDDLE, MIDDLE_SHOT, SHOT, STATS};
use std::process::Abort;
use terra_io::{MemSource, Source};
use terra_run::Status;

/// How a run ends whose read fails before it writes.
const FAULT: Case = Case {
    status: Status::ReadFault,
    note: "terra: read fault\n",
    ..RUN
};

/// The source would give more, but a run asks for 4,096 bytes at once: it reads 8,192 bytes in two reads and a byte
/// more in three, and another read finds the end.
static AT_ONCE: [Case; 4] = [
    Case {
        name: "two pieces, and the last read fails",
        input: Bytes::Filled {
            lines: &[HEAD],
            length: 8192,
        },
        given: 16_384,
        failed_read: Some(3),
        ..FAULT
    },
    Case {
        name: "two pieces, and no read fails",
        input: Bytes::Filled {
            lines: &[HEAD],
            length: 8192,
        },
        given: 16_384,
        failed_read: Some(4),
        ..RUN
    },
    Case {
        name: "a byte more, and the last read fails",
        input: Bytes::Filled {
            lines: &[HEAD],
            length: 8193,
        },
        given: 16_384,
        failed_read: Some(4),
        ..FAULT
    },
    Case {
        name: "a byte more, and no read fails",
        input: Bytes::Filled {
            lines: &[HEAD],
            length: 8193,
        },
        given: 16_384,
        failed_read: Some(5),
        ..RUN
    },
];

/// Reads that fail: what the whole lines before it write is written.
static FAILED_READS: [Case; 3] = [
    Case {
        name: "the first read",
        input: Bytes::Lines(&[HEAD, MIDDLE, SHOT]),
        given: 16,
        failed_read: Some(1),
        ..FAULT
    },
    Case {
        name: "a later read",
        input: Bytes::Lines(&[HEAD, MIDDLE, SHOT]),
        given: 16,
        failed_read: Some(3),
        ..FAULT
    },
    Case {
        name: "the read at the end of the input",
        input: Bytes::Lines(&[HEAD, MIDDLE, SHOT]),
        given: 4096,
        failed_read: Some(2),
        output: Bytes::Text(MIDDLE_SHOT),
        ..FAULT
    },
];

/// Each text is written at once: a shot and a line of stats are two writes, and no third.
static WRITES: [Case; 2] = [
    Case {
        name: "the second of two writes fails",
        input: Bytes::Lines(&[HEAD, MIDDLE, SHOT, STATS]),
        failed_write: Some(2),
        status: Status::WriteFault,
        output: Bytes::Text(MIDDLE_SHOT),
        note: "terra: write fault\n",
        ..RUN
    },
    Case {
        name: "a third write would fail",
        input: Bytes::Lines(&[HEAD, MIDDLE, SHOT, STATS]),
        failed_write: Some(3),
        output: Bytes::Texts(&[MIDDLE_SHOT, "# stats leaves 1 triangles 8 keys 6\n"]),
        ..RUN
    },
];

/// A shot into a sink that takes few bytes in a write, and fails at the third one.
static SHORT_WRITES: Case = Case {
    name: "the third write",
    input: Bytes::Lines(&[HEAD, MIDDLE, SHOT]),
    taken: 16,
    failed_write: Some(3),
    ..RUN
};

fn ends_at_a_write_that_fails(rt: &impl TestRuntime) {
    let ended = SHORT_WRITES.run(rt);
    let case = SHORT_WRITES.name;
    expect_status(rt, case, ended.status, Status::WriteFault);
    expect_bytes(rt, case, &ended.sinks.notes, b"terra: write fault\n");
    expect_first_part(rt, ended.sinks.output.bytes());
    drop(ended);
}

/// Asserts that what was written is a first part of the shot, of what two writes take.
fn expect_first_part(rt: &impl Abort, written: &[u8]) {
    assert!(rt; written.len() <= 32 && MIDDLE_SHOT.as_bytes().starts_with(written));
}

/// A script whose first write fails. Its source gives what is before the second shot in its first read.
static TWO_SHOTS: Case = Case {
    name: "the first write",
    input: Bytes::Lines(&[HEAD, MIDDLE, SHOT, SHOT]),
    given: HEAD.len() + MIDDLE.len() + SHOT.len() + 3,
    failed_write: Some(1),
    ..RUN
};

fn writes_a_shot_before_it_reads_on(rt: &impl TestRuntime) {
    let mut source = TWO_SHOTS.source(rt, rt.alloc());
    let ended = TWO_SHOTS.run_over(rt, &mut source);
    expect_status(rt, TWO_SHOTS.name, ended.status, Status::WriteFault);
    expect_rest(rt, &mut source);
    drop((source, ended));
}

/// Asserts that the source still has the line behind the first shot.
fn expect_rest(rt: &impl Abort, source: &mut MemSource) {
    let mut rest = [0; 16];
    let _ = source.read(&mut rest);
    assert!(rt; rest.starts_with(SHOT.as_bytes()));
}

#[test]
fn ends_where_a_read_or_a_write_fails(rt: HostRuntime) {
    expect_cases(&rt, &AT_ONCE);
    expect_cases(&rt, &FAILED_READS);
    expect_cases(&rt, &WRITES);
    ends_at_a_write_that_fails(&rt);
    writes_a_shot_before_it_reads_on(&rt);
}
