//! The arguments behind the program's name.

use crate::cases::{Case, RUN, expect_cases};
use crate::made::Bytes;
use crate::outcome::{Call, TestRuntime};
use crate::scripts::{EMPTY_SHOT, HEAD, SHOT};
use std::process::Abort;
use terra_run::{HELP, Status, VERSION};

/// A script with one shot, which a run carries out.
const ONE_SHOT: Case = Case {
    name: "a shot",
    input: Bytes::Lines(&[HEAD, SHOT]),
    output: Bytes::Text(EMPTY_SHOT),
    ..RUN
};

/// Arguments that ask for nothing.
const BAD_WORDS: Case = Case {
    status: Status::BadWords,
    output: Bytes::Text(""),
    note: "terra: bad words\n",
    ..ONE_SHOT
};

/// The program, over the same script.
const PROGRAM: Case = Case {
    call: Call::Program,
    ..ONE_SHOT
};

/// Arguments at which nothing is read.
static NO_RUNS: [Case; 16] = [
    Case {
        name: "none",
        arguments: &[],
        ..BAD_WORDS
    },
    Case {
        name: "another name",
        arguments: &["fly"],
        ..BAD_WORDS
    },
    Case {
        name: "the name in capitals",
        arguments: &["RUN"],
        ..BAD_WORDS
    },
    Case {
        name: "the name twice",
        arguments: &["run", "run"],
        ..BAD_WORDS
    },
    Case {
        name: "an option without its value",
        arguments: &["run", "--watch"],
        ..BAD_WORDS
    },
    Case {
        name: "an option that isn't there",
        arguments: &["run", "--threads", "4"],
        ..BAD_WORDS
    },
    Case {
        name: "a value in the same argument",
        arguments: &["run", "--watch=4"],
        ..BAD_WORDS
    },
    Case {
        name: "a leading zero",
        arguments: &["run", "--watch", "01"],
        ..BAD_WORDS
    },
    Case {
        name: "too many watchers",
        arguments: &["run", "--watch", "9"],
        ..BAD_WORDS
    },
    Case {
        name: "too many workers",
        arguments: &["run", "--workers", "17"],
        ..BAD_WORDS
    },
    Case {
        name: "no looks",
        arguments: &["run", "--looks", "0"],
        ..BAD_WORDS
    },
    Case {
        name: "an option twice",
        arguments: &["run", "--watch", "1", "--watch", "1"],
        ..BAD_WORDS
    },
    // The program shows a text.
    Case {
        name: "help",
        arguments: &["--help"],
        output: Bytes::Text(HELP),
        ..PROGRAM
    },
    Case {
        name: "help that isn't written",
        arguments: &["--help"],
        failed_write: Some(1),
        status: Status::WriteFault,
        output: Bytes::Text(""),
        note: "terra: write fault\n",
        ..PROGRAM
    },
    Case {
        name: "the version",
        arguments: &["--version"],
        output: Bytes::Text(VERSION),
        ..PROGRAM
    },
    Case {
        name: "a version that isn't written",
        arguments: &["--version"],
        failed_write: Some(1),
        status: Status::WriteFault,
        output: Bytes::Text(""),
        note: "terra: write fault\n",
        ..PROGRAM
    },
];

/// Arguments of which the program makes no run.
const REFUSED: Case = Case {
    call: Call::Program,
    ..BAD_WORDS
};

/// What the program does by its arguments. A drill without an edit has the stats of a ground of half the height of a
/// world of one block; the first edit of the drill of seed 0 is a box in a corner of the world. One editor makes a
/// ground too, and then the same edit.
static PROGRAMS: [Case; 14] = [
    Case {
        name: "a run",
        arguments: &["run"],
        ..PROGRAM
    },
    Case {
        name: "a run with looks",
        arguments: &["run", "--looks", "7"],
        ..PROGRAM
    },
    Case {
        name: "help and the version",
        arguments: &["--help", "--version"],
        ..REFUSED
    },
    Case {
        name: "help with a capital",
        arguments: &["--Help"],
        ..REFUSED
    },
    Case {
        name: "a drill without an edit",
        arguments: &["drill", "0", "0", "0"],
        output: Bytes::Text("# stats leaves 1 triangles 512 keys 289\n"),
        ..PROGRAM
    },
    Case {
        name: "a drill with an edit",
        arguments: &["drill", "0", "1", "0"],
        output: Bytes::Text("# stats leaves 1 triangles 566 keys 319\n"),
        ..PROGRAM
    },
    Case {
        name: "a drill without a depth",
        arguments: &["drill", "0", "0"],
        ..REFUSED
    },
    Case {
        name: "a drill that is too deep",
        arguments: &["drill", "0", "0", "5"],
        ..REFUSED
    },
    Case {
        name: "a drill with too many edits",
        arguments: &["drill", "0", "10001", "0"],
        ..REFUSED
    },
    Case {
        name: "a drill whose seed has a leading zero",
        arguments: &["drill", "00", "0", "0"],
        ..REFUSED
    },
    Case {
        name: "an editor without an edit",
        arguments: &["edit", "0", "1", "0", "0"],
        output: Bytes::Lines(&["# from 0", "# stats leaves 1 triangles 512 keys 289"]),
        ..PROGRAM
    },
    Case {
        name: "an editor with an edit",
        arguments: &["edit", "0", "1", "1", "0"],
        output: Bytes::Lines(&[
            "# from 0",
            "# from 0",
            "# stats leaves 1 triangles 566 keys 319",
        ]),
        ..PROGRAM
    },
    Case {
        name: "too many editors",
        arguments: &["edit", "0", "9", "0", "0"],
        ..REFUSED
    },
    Case {
        name: "an editor with too many edits",
        arguments: &["edit", "0", "1", "8001", "0"],
        ..REFUSED
    },
];

/// Makes the run of a case, asserts what comes of it, and that nothing was read: the source has its script whole.
fn expect_unread(rt: &impl TestRuntime, case: &Case) {
    let mut source = case.source(rt, rt.alloc());
    case.expect_over(rt, &mut source);
    let rest = Case {
        name: case.name,
        ..ONE_SHOT
    };
    rest.expect_over(rt, &mut source);
    drop(source);
}

/// Does so with each case.
fn expect_all_unread(rt: &impl TestRuntime, cases: &[Case]) {
    for case in cases {
        expect_unread(rt, case);
    }
}

/// Asserts how the texts begin and end that the program shows.
fn expect_texts(rt: &impl Abort) {
    assert!(rt;
        HELP.starts_with("terra: a voxel terrain engine\n\nUsage: terra run [--workers N] ")
    );
    assert!(rt; VERSION.starts_with("terra ") && VERSION.ends_with("\n"));
}

#[test]
fn follows_its_arguments(rt: HostRuntime) {
    expect_texts(&rt);
    expect_all_unread(&rt, &NO_RUNS);
    expect_cases(&rt, &PROGRAMS);
}
