//! The longest input, the fullest journal, and a long script.

use crate::cases::{Case, RUN, expect_cases};
use crate::made::{Bytes, Repeat};
use crate::scripts::{EMPTY_SHOT, HEAD, SHOT, STATS};
use terra_run::Status;

/// A run reads fewer bytes.
const LIMIT: usize = 67_108_864;

/// An event that writes nothing.
const CAMERA: &str = r#"{"do":"camera","at":[0,0,0]}"#;

/// An event that is refused where no edit is in force, unless the journal is full.
const UNDO: &str = r#"{"do":"undo"}"#;

/// As many cameras as a journal has room for.
const CAMERAS: Repeat = Repeat {
    count: 65_535,
    lines: &[CAMERA],
};

/// What is before them.
const HEADS: Repeat = Repeat {
    count: 1,
    lines: &[HEAD],
};

/// So many lines of stats, behind as many events as a journal has room for, and a shot make 70,036 commands.
const LINES: usize = 4500;

/// A head and a shot, and behind them empty lines up to so many bytes in all; and that many commands.
static AT_LIMITS: [Case; 3] = [
    Case {
        name: "a byte less",
        input: Bytes::Filled {
            lines: &[HEAD, SHOT],
            length: LIMIT - 1,
        },
        output: Bytes::Text(EMPTY_SHOT),
        ..RUN
    },
    Case {
        name: "the limit",
        input: Bytes::Filled {
            lines: &[HEAD, SHOT],
            length: LIMIT,
        },
        status: Status::InputLimit,
        output: Bytes::Text(EMPTY_SHOT),
        note: "terra: input limit\n",
        ..RUN
    },
    Case {
        name: "a full journal, and lines of stats",
        input: Bytes::Repeated(&[
            HEADS,
            CAMERAS,
            Repeat {
                count: LINES,
                lines: &[STATS],
            },
            Repeat {
                count: 1,
                lines: &[SHOT],
            },
        ]),
        output: Bytes::Repeated(&[
            Repeat {
                count: LINES,
                lines: &["# stats leaves 1 triangles 0 keys 0"],
            },
            Repeat {
                count: 1,
                lines: &["o shot_1", "# events 65535"],
            },
        ]),
        ..RUN
    },
];

/// As many cameras as a journal has room for, and then a line with one event more.
const FULL: Case = Case {
    status: Status::JournalFull { line: 65_537 },
    note: "terra: line 65537: journal full\n",
    ..RUN
};

static ONE_MORE: [Case; 2] = [
    Case {
        name: "one camera more",
        input: Bytes::Repeated(&[
            HEADS,
            CAMERAS,
            Repeat {
                count: 1,
                lines: &[CAMERA, SHOT],
            },
        ]),
        ..FULL
    },
    Case {
        name: "an undo",
        input: Bytes::Repeated(&[
            HEADS,
            CAMERAS,
            Repeat {
                count: 1,
                lines: &[UNDO, SHOT],
            },
        ]),
        ..FULL
    },
];

#[test]
fn ends_at_the_limits(rt: HostRuntime) {
    expect_cases(&rt, &AT_LIMITS);
}

/// It is a test of its own, since it is quick where the others aren't.
#[test]
fn tells_a_full_journal(rt: HostRuntime) {
    expect_cases(&rt, &ONE_MORE);
}
