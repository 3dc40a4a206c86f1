//! Lines as JSON, lines that are refused, and inputs that come in pieces.

use crate::cases::{Case, RUN, expect_cases};
use crate::made::Bytes;
use crate::scripts::{EMPTY_SHOT, HEAD, MIDDLE, MIDDLE_SHOT, SHOT};
use terra_run::{LineFault, Status};

/// Inputs that have no head, which come in pieces of 7 bytes.
static NO_HEADS: [Case; 2] = [
    Case {
        name: "no byte",
        input: Bytes::Text(""),
        given: 7,
        status: Status::BadScript {
            line: 1,
            fault: LineFault::MissingMember,
        },
        note: "terra: line 1: missing member\n",
        ..RUN
    },
    Case {
        name: "blank lines alone",
        input: Bytes::Text("\n\n \n"),
        given: 7,
        status: Status::BadScript {
            line: 4,
            fault: LineFault::MissingMember,
        },
        note: "terra: line 4: missing member\n",
        ..RUN
    },
];

/// First lines that are refused.
static WRONG_HEADS: [Case; 6] = [
    Case {
        name: "a shot for a head",
        input: Bytes::Lines(&[SHOT, SHOT]),
        status: Status::BadScript {
            line: 1,
            fault: LineFault::MissingMember,
        },
        note: "terra: line 1: missing member\n",
        ..RUN
    },
    Case {
        name: "another command for a head",
        input: Bytes::Lines(&[r#"{"do":"fly"}"#, SHOT]),
        status: Status::BadScript {
            line: 1,
            fault: LineFault::MissingMember,
        },
        note: "terra: line 1: missing member\n",
        ..RUN
    },
    Case {
        name: "a list for a head",
        input: Bytes::Lines(&["[1]", SHOT]),
        status: Status::BadScript {
            line: 1,
            fault: LineFault::NotObject,
        },
        note: "terra: line 1: not an object\n",
        ..RUN
    },
    Case {
        name: "a head with a member more",
        input: Bytes::Lines(&[r#"{"terra":1,"depth":0,"reach":0,"x":1}"#, SHOT]),
        status: Status::BadScript {
            line: 1,
            fault: LineFault::UnknownMember,
        },
        note: "terra: line 1: unknown member\n",
        ..RUN
    },
    Case {
        name: "a reach of 9",
        input: Bytes::Lines(&[r#"{"terra":1,"depth":0,"reach":9}"#, SHOT]),
        status: Status::BadScript {
            line: 1,
            fault: LineFault::BadValue,
        },
        note: "terra: line 1: bad value\n",
        ..RUN
    },
    Case {
        name: "a depth of 7",
        input: Bytes::Lines(&[r#"{"terra":1,"depth":7,"reach":0}"#, SHOT]),
        status: Status::BadScript {
            line: 1,
            fault: LineFault::BadValue,
        },
        note: "terra: line 1: bad value\n",
        ..RUN
    },
];

/// A script whose third line is refused: what is before it is carried out, and nothing behind it.
const AFTER_A_SHOT: Case = Case {
    output: Bytes::Text(EMPTY_SHOT),
    ..RUN
};

/// Other lines that are refused: the third ones behind a shot, and a second one.
static WRONG_COMMANDS: [Case; 12] = [
    Case {
        name: "an object without its end",
        input: Bytes::Lines(&[HEAD, SHOT, r#"{"do":"shot""#, SHOT]),
        status: Status::BadScript {
            line: 3,
            fault: LineFault::NotJson,
        },
        note: "terra: line 3: not json\n",
        ..AFTER_A_SHOT
    },
    Case {
        name: "a list",
        input: Bytes::Lines(&[HEAD, SHOT, "[1]", SHOT]),
        status: Status::BadScript {
            line: 3,
            fault: LineFault::NotObject,
        },
        note: "terra: line 3: not an object\n",
        ..AFTER_A_SHOT
    },
    Case {
        name: "an unknown command",
        input: Bytes::Lines(&[HEAD, SHOT, r#"{"do":"fly"}"#, SHOT]),
        status: Status::BadScript {
            line: 3,
            fault: LineFault::UnknownCommand,
        },
        note: "terra: line 3: unknown command\n",
        ..AFTER_A_SHOT
    },
    Case {
        name: "no member",
        input: Bytes::Lines(&[HEAD, SHOT, "{}", SHOT]),
        status: Status::BadScript {
            line: 3,
            fault: LineFault::MissingMember,
        },
        note: "terra: line 3: missing member\n",
        ..AFTER_A_SHOT
    },
    Case {
        name: "a number for a command",
        input: Bytes::Lines(&[HEAD, SHOT, r#"{"do":5}"#, SHOT]),
        status: Status::BadScript {
            line: 3,
            fault: LineFault::UnknownCommand,
        },
        note: "terra: line 3: unknown command\n",
        ..AFTER_A_SHOT
    },
    Case {
        name: "a box without hi, and with x",
        input: Bytes::Lines(&[
            HEAD,
            SHOT,
            r#"{"do":"box","mode":"fill","lo":[0,0,0],"x":1}"#,
            SHOT,
        ]),
        status: Status::BadScript {
            line: 3,
            fault: LineFault::MissingMember,
        },
        note: "terra: line 3: missing member\n",
        ..AFTER_A_SHOT
    },
    Case {
        name: "a shot with x",
        input: Bytes::Lines(&[HEAD, SHOT, r#"{"do":"shot","x":1}"#, SHOT]),
        status: Status::BadScript {
            line: 3,
            fault: LineFault::UnknownMember,
        },
        note: "terra: line 3: unknown member\n",
        ..AFTER_A_SHOT
    },
    Case {
        name: "a ball of radius 0",
        input: Bytes::Lines(&[
            HEAD,
            SHOT,
            r#"{"do":"ball","mode":"fill","at":[8,8,8],"r":0}"#,
            SHOT,
        ]),
        status: Status::BadScript {
            line: 3,
            fault: LineFault::BadValue,
        },
        note: "terra: line 3: bad value\n",
        ..AFTER_A_SHOT
    },
    Case {
        name: "a camera outside the world",
        input: Bytes::Lines(&[HEAD, SHOT, r#"{"do":"camera","at":[17,0,0]}"#, SHOT]),
        status: Status::BadScript {
            line: 3,
            fault: LineFault::BadValue,
        },
        note: "terra: line 3: bad value\n",
        ..AFTER_A_SHOT
    },
    Case {
        name: "a view of 8",
        input: Bytes::Lines(&[HEAD, SHOT, r#"{"do":"away","view":8}"#, SHOT]),
        status: Status::BadScript {
            line: 3,
            fault: LineFault::BadValue,
        },
        note: "terra: line 3: bad value\n",
        ..AFTER_A_SHOT
    },
    Case {
        name: "an away without a view",
        input: Bytes::Lines(&[HEAD, SHOT, r#"{"do":"away"}"#, SHOT]),
        status: Status::BadScript {
            line: 3,
            fault: LineFault::MissingMember,
        },
        note: "terra: line 3: missing member\n",
        ..AFTER_A_SHOT
    },
    Case {
        name: "a second line that isn't JSON",
        input: Bytes::Lines(&[HEAD, "shot", SHOT]),
        status: Status::BadScript {
            line: 2,
            fault: LineFault::NotJson,
        },
        note: "terra: line 2: not json\n",
        ..RUN
    },
];

/// Other ways to ask for a shot: spaces, blank lines, carriage returns, no line feed.
static WAYS: [Case; 4] = [
    Case {
        name: "no line feed at the end",
        input: Bytes::Text("{\"terra\":1,\"depth\":0,\"reach\":0}\n{\"do\":\"shot\"}"),
        output: Bytes::Text(EMPTY_SHOT),
        ..RUN
    },
    Case {
        name: "carriage returns",
        input: Bytes::Text("{\"terra\":1,\"depth\":0,\"reach\":0}\r\n{\"do\":\"shot\"}\r\n"),
        output: Bytes::Text(EMPTY_SHOT),
        ..RUN
    },
    Case {
        name: "blank lines",
        input: Bytes::Text(
            "\n\t\n{\"terra\":1,\"depth\":0,\"reach\":0}\n \r\n\n{\"do\":\"shot\"}\n\n",
        ),
        output: Bytes::Text(EMPTY_SHOT),
        ..RUN
    },
    Case {
        name: "spaces, another order and an escape",
        input: Bytes::Text(
            "{ \"reach\":0, \"depth\":0, \"terra\":1 }\n {\"do\" : \"sh\\u006ft\"}\n",
        ),
        output: Bytes::Text(EMPTY_SHOT),
        ..RUN
    },
];

/// A second line that is too long.
const TOO_LONG: Case = Case {
    status: Status::BadScript {
        line: 2,
        fault: LineFault::TooLong,
    },
    note: "terra: line 2: line too long\n",
    ..RUN
};

/// Lines with spaces behind them, up to the limit or above it. What ends a line isn't counted.
static LENGTHS: [Case; 8] = [
    Case {
        name: "as long as can be",
        input: Bytes::Padded {
            text: SHOT,
            length: 4096,
            end: "",
        },
        output: Bytes::Text(EMPTY_SHOT),
        ..RUN
    },
    Case {
        name: "a byte longer",
        input: Bytes::Padded {
            text: SHOT,
            length: 4097,
            end: "",
        },
        ..TOO_LONG
    },
    Case {
        name: "a line that doesn't end",
        input: Bytes::Padded {
            text: "x",
            length: 4098,
            end: "",
        },
        ..TOO_LONG
    },
    Case {
        name: "a blank line",
        input: Bytes::Padded {
            text: "",
            length: 4097,
            end: "",
        },
        ..TOO_LONG
    },
    Case {
        name: "as long as can be, with an end",
        input: Bytes::Padded {
            text: SHOT,
            length: 4096,
            end: "\r\n",
        },
        output: Bytes::Text(EMPTY_SHOT),
        ..RUN
    },
    Case {
        name: "as long as can be, with half an end",
        input: Bytes::Padded {
            text: SHOT,
            length: 4096,
            end: "\r",
        },
        output: Bytes::Text(EMPTY_SHOT),
        ..RUN
    },
    Case {
        name: "a byte longer with an end",
        input: Bytes::Padded {
            text: SHOT,
            length: 4097,
            end: "\r\n",
        },
        ..TOO_LONG
    },
    Case {
        name: "a blank line with an end",
        input: Bytes::Padded {
            text: "",
            length: 4097,
            end: "\r\n",
        },
        ..TOO_LONG
    },
];

/// Pieces of several sizes. The last line needs no line feed.
static PIECES: [Case; 3] = [
    Case {
        name: "of 1 byte",
        input: Bytes::Unended(&[HEAD, MIDDLE, SHOT]),
        given: 1,
        output: Bytes::Text(MIDDLE_SHOT),
        ..RUN
    },
    Case {
        name: "of 7 bytes",
        input: Bytes::Unended(&[HEAD, MIDDLE, SHOT]),
        given: 7,
        output: Bytes::Text(MIDDLE_SHOT),
        ..RUN
    },
    Case {
        name: "of 4096 bytes",
        input: Bytes::Unended(&[HEAD, MIDDLE, SHOT]),
        given: 4096,
        output: Bytes::Text(MIDDLE_SHOT),
        ..RUN
    },
];

#[test]
fn reads_lines_or_refuses_them(rt: HostRuntime) {
    expect_cases(&rt, &NO_HEADS);
    expect_cases(&rt, &WRONG_HEADS);
    expect_cases(&rt, &WRONG_COMMANDS);
    expect_cases(&rt, &WAYS);
    expect_cases(&rt, &LENGTHS);
    expect_cases(&rt, &PIECES);
}
