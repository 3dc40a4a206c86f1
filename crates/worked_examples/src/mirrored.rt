//! Mirrors: wires that are read to their end, and written as text.

use crate::cases::{Case, RUN, expect_cases};
use crate::made::Bytes;
use crate::outcome::{TestRuntime, expect_made};
use crate::scripts::{HEAD, MIDDLE, MIDDLE_SHOT, SHOT};
use crate::wires::{WHOLE_WIRE, Wire};
use terra_io::MemSource;
use terra_run::{Status, WireFault};

/// A mirror of the whole wire.
const MIRROR: Case = Case {
    name: "the whole wire",
    arguments: &["mirror"],
    input: Bytes::Wire(WHOLE_WIRE),
    output: Bytes::Text(MIDDLE_SHOT),
    ..RUN
};

/// A mirror of a wire that ends within its head or within a patch.
const CUT: Case = Case {
    status: Status::CutWire,
    output: Bytes::Text(""),
    note: "terra: wire cut\n",
    ..MIRROR
};

/// A mirror of a wire whose patch has another tag.
const ANOTHER_TAG: Case = Case {
    name: "another tag",
    input: Bytes::Wire(Wire {
        tag: 0x51,
        ..WHOLE_WIRE
    }),
    status: Status::BadWire {
        at: 11,
        fault: WireFault::BadTag,
    },
    output: Bytes::Text(""),
    note: "terra: byte 11: wire fault 3\n",
    ..MIRROR
};

/// A mirror of a wire whose patch comes twice.
const TWICE: Case = Case {
    name: "the patch twice",
    input: Bytes::Wire(Wire {
        patches: 2,
        length: 534,
        ..WHOLE_WIRE
    }),
    status: Status::BadWire {
        at: 277,
        fault: WireFault::BadBase,
    },
    output: Bytes::Text(""),
    note: "terra: byte 277: wire fault 4\n",
    ..MIRROR
};

/// Wires that come in one piece.
static AT_ONCE: [Case; 6] = [
    Case {
        name: "the whole wire",
        given: 272,
        ..MIRROR
    },
    Case {
        name: "a wire without its last byte",
        input: Bytes::Wire(Wire {
            length: 271,
            ..WHOLE_WIRE
        }),
        given: 272,
        ..CUT
    },
    Case {
        name: "no byte",
        input: Bytes::Wire(Wire {
            length: 0,
            ..WHOLE_WIRE
        }),
        given: 272,
        ..CUT
    },
    Case {
        name: "a head without its last byte",
        input: Bytes::Wire(Wire {
            length: 9,
            ..WHOLE_WIRE
        }),
        given: 272,
        ..CUT
    },
    Case {
        name: "another tag",
        given: 272,
        ..ANOTHER_TAG
    },
    Case {
        name: "the patch twice",
        given: 272,
        ..TWICE
    },
];

/// The same byte by byte.
static BY_BYTES: [Case; 6] = [
    Case {
        name: "the whole wire by bytes",
        given: 1,
        ..MIRROR
    },
    Case {
        name: "a wire without its last byte by bytes",
        input: Bytes::Wire(Wire {
            length: 271,
            ..WHOLE_WIRE
        }),
        given: 1,
        ..CUT
    },
    Case {
        name: "no byte by bytes",
        input: Bytes::Wire(Wire {
            length: 0,
            ..WHOLE_WIRE
        }),
        given: 1,
        ..CUT
    },
    Case {
        name: "a head without its last byte by bytes",
        input: Bytes::Wire(Wire {
            length: 9,
            ..WHOLE_WIRE
        }),
        given: 1,
        ..CUT
    },
    Case {
        name: "another tag by bytes",
        given: 1,
        ..ANOTHER_TAG
    },
    Case {
        name: "the patch twice by bytes",
        given: 1,
        ..TWICE
    },
];

/// A read and a write that fail.
static FAULTS: [Case; 2] = [
    Case {
        name: "the first read",
        failed_read: Some(1),
        status: Status::ReadFault,
        output: Bytes::Text(""),
        note: "terra: read fault\n",
        ..MIRROR
    },
    Case {
        name: "the first write",
        failed_write: Some(1),
        status: Status::WriteFault,
        output: Bytes::Text(""),
        note: "terra: write fault\n",
        ..MIRROR
    },
];

/// A run that writes a wire.
static SENT: Case = Case {
    arguments: &["wire"],
    input: Bytes::Lines(&[HEAD, MIDDLE, SHOT]),
    ..RUN
};

/// Returns what a run writes as a wire.
fn sent(rt: &impl TestRuntime) -> Vec<u8> {
    let ended = SENT.run(rt);
    let wire = expect_made(rt, ended.sinks.output.bytes().to_vec(rt.alloc()));
    drop(ended);
    wire
}

static WRITTEN: Case = Case {
    name: "a wire that was written",
    ..MIRROR
};

/// What one run writes as a wire, another one reads.
fn mirrors_what_is_written(rt: &impl TestRuntime) {
    let mut source = MemSource::new(sent(rt), 4096, Vec::new(rt.alloc()));
    WRITTEN.expect_over(rt, &mut source);
    drop(source);
}

#[test]
fn mirrors_wires(rt: HostRuntime) {
    expect_cases(&rt, &AT_ONCE);
    expect_cases(&rt, &BY_BYTES);
    expect_cases(&rt, &FAULTS);
    mirrors_what_is_written(&rt);
}
