//! Lines with what they say, or their first fault.

use crate::asserts::{expect, expect_made};
use camera_script::{
    Command, Cut, LINE_LIMIT, LineCutter, LineFault, command, head, is_blank, is_too_long,
};
use lattice::{Point, Settings};
use std::alloc::{AllocGlobal, Global};
use std::process::Abort;
use terrain::{Brush, Event, Mode};

/// A world of side 16.
const SMALL: Settings = Settings { depth: 0, reach: 0 };

/// The largest world.
const LARGE: Settings = Settings { depth: 6, reach: 8 };

const SHOT: &str = r#"{"do":"shot"}"#;

/// What it asks for.
const PLAIN: Command = Command::Shot { normals: false };

/// Outputs, each with its command. A place is in units of 1/256 cell.
static OUTPUTS: [(&str, Command); 10] = [
    (SHOT, PLAIN),
    (" {\"do\" : \"shot\"}\t", PLAIN),
    ("{\"do\":\"shot\"}\r", PLAIN),
    // A name and a text may be spelled with escapes.
    (r#"{"\u0064o":"sh\u006ft"}"#, PLAIN),
    // Of two members of one name the last one counts.
    (r#"{"do":"fly","do":"shot"}"#, PLAIN),
    (r#"{"do":"stats"}"#, Command::Stats),
    (
        r#"{"do":"shot","normals":true}"#,
        Command::Shot { normals: true },
    ),
    (r#"{"normals":true,"do":"shot","normals":false}"#, PLAIN),
    (
        r#"{"do":"pick","at":[0,4096]}"#,
        Command::Pick { x: 0, y: 4096 },
    ),
    (
        r#"{"at":[4096,17],"do":"pick"}"#,
        Command::Pick { x: 4096, y: 17 },
    ),
];

/// A line whose object has no end.
const UNENDED: &str = r#"{"do":"shot""#;

const NOT_JSON: [&str; 10] = [
    "",
    " \t",
    UNENDED,
    r#"{"do":"shot"} x"#,
    r#"{"do":"shot"}{}"#,
    r#"{"do":"shot",}"#,
    "{'do':'shot'}",
    r#"{"do":"\ud800"}"#,
    r#"{"do":"ground","mode":"fill","h":01}"#,
    r#"{"do":"ground","mode":"fill","h":1e999}"#,
];

/// Bytes that aren't UTF-8, and a byte order mark.
static NOT_TEXT: [&[u8]; 3] = [
    b"{\"do\":\"sh\xffot\"}",
    b"{\"do\":\"shot\",\"\xc0\xaf\":1}",
    b"\xef\xbb\xbf{\"do\":\"shot\"}",
];

const NOT_OBJECT: [&str; 5] = ["[1]", "5", "\"shot\"", "null", r#"[{"do":"shot"}]"#];

const UNKNOWN_COMMAND: [&str; 11] = [
    r#"{"do":"fly"}"#,
    r#"{"do":5}"#,
    r#"{"do":null}"#,
    r#"{"do":"Shot"}"#,
    r#"{"do":"shot "}"#,
    r#"{"do":""}"#,
    r#"{"do":["shot"]}"#,
    r#"{"do":"fly","x":1}"#,
    r#"{"do":"shot","do":"fly"}"#,
    r#"{"do":"Stats"}"#,
    r#"{"do":"redo"}"#,
];

const MISSING_MEMBER: [&str; 12] = [
    "{}",
    r#"{"x":1}"#,
    r#"{"DO":"shot"}"#,
    r#"{"terra":1,"depth":0,"reach":0}"#,
    // A member is missing, and another one isn't known.
    r#"{"do":"box","mode":"fill","lo":[0,0,0],"x":1}"#,
    r#"{"do":"camera"}"#,
    r#"{"do":"camera","view":1}"#,
    r#"{"do":"away"}"#,
    r#"{"do":"ball","mode":"fill","at":[8,8,8]}"#,
    r#"{"do":"ground","h":1}"#,
    r#"{"do":"smooth","lo":[0,0,0]}"#,
    r#"{"do":"pick"}"#,
];

const UNKNOWN_MEMBER: [&str; 10] = [
    r#"{"do":"shot","x":1}"#,
    r#"{"do":"shot","at":[0,0,0]}"#,
    r#"{"do":"shot","view":0}"#,
    r#"{"do":"stats","normals":true}"#,
    r#"{"do":"pick","at":[0,0],"normals":false}"#,
    r#"{"do":"undo","count":2}"#,
    r#"{"do":"away","view":0,"at":[0,0,0]}"#,
    // A member isn't known, and values are bad.
    r#"{"do":"camera","at":[99,0,0],"x":1}"#,
    r#"{"do":"ball","mode":"dig","at":[1],"r":0,"":1}"#,
    r#"{"do":"smooth","mode":"fill","lo":[0,0,0],"hi":[1,1,1]}"#,
];

const BAD_VALUE: [&str; 47] = [
    r#"{"do":"ball","mode":"fill","at":[8,8,8],"r":0}"#,
    r#"{"do":"ball","mode":"fill","at":[8,8,8],"r":17}"#,
    // Points out of the world, and values that are no points.
    r#"{"do":"camera","at":[17,0,0]}"#,
    r#"{"do":"camera","at":[0,17,0]}"#,
    r#"{"do":"camera","at":[0,0,17]}"#,
    r#"{"do":"camera","at":[0,0]}"#,
    r#"{"do":"camera","at":[0,0,0,0]}"#,
    r#"{"do":"camera","at":[]}"#,
    r#"{"do":"camera","at":8}"#,
    r#"{"do":"camera","at":{"x":0,"y":0,"z":0}}"#,
    r#"{"do":"camera","at":[0,[0],0]}"#,
    r#"{"do":"camera","at":"0,0,0"}"#,
    // Viewpoints that a world hasn't.
    r#"{"do":"camera","view":8,"at":[0,0,0]}"#,
    r#"{"do":"camera","view":null,"at":[0,0,0]}"#,
    r#"{"do":"camera","view":256,"at":[0,0,0]}"#,
    r#"{"do":"away","view":8}"#,
    r#"{"do":"away","view":-1}"#,
    r#"{"do":"away","view":"0"}"#,
    // Normals that are no truth values.
    r#"{"do":"shot","normals":1}"#,
    r#"{"do":"shot","normals":null}"#,
    r#"{"do":"shot","normals":"true"}"#,
    // Places out of the world, and values that are no places.
    r#"{"do":"pick","at":[4097,0]}"#,
    r#"{"do":"pick","at":[0,4097]}"#,
    r#"{"do":"pick","at":[0,-1]}"#,
    r#"{"do":"pick","at":[0.5,0]}"#,
    r#"{"do":"pick","at":[0]}"#,
    r#"{"do":"pick","at":[0,0,0]}"#,
    r#"{"do":"pick","at":[[0],0]}"#,
    r#"{"do":"pick","at":0}"#,
    // Boxes with `lo` above `hi` on one axis, or with a corner out of the world.
    r#"{"do":"box","mode":"fill","lo":[5,4,4],"hi":[4,4,4]}"#,
    r#"{"do":"box","mode":"fill","lo":[4,5,4],"hi":[4,4,4]}"#,
    r#"{"do":"box","mode":"fill","lo":[4,4,5],"hi":[4,4,4]}"#,
    r#"{"do":"smooth","lo":[4,4,5],"hi":[4,4,4]}"#,
    r#"{"do":"smooth","lo":[0,0,0],"hi":[4,4,17]}"#,
    // Modes that aren't known.
    r#"{"do":"ground","mode":"Fill","h":1}"#,
    r#"{"do":"ground","mode":1,"h":1}"#,
    r#"{"do":"ground","mode":null,"h":1}"#,
    // Numbers that aren't whole, or out of range.
    r#"{"do":"ground","mode":"fill","h":1.0}"#,
    r#"{"do":"ground","mode":"fill","h":1e1}"#,
    r#"{"do":"ground","mode":"fill","h":-0}"#,
    r#"{"do":"ground","mode":"fill","h":-1}"#,
    r#"{"do":"ground","mode":"fill","h":17}"#,
    r#"{"do":"ground","mode":"fill","h":4294967297}"#,
    r#"{"do":"ground","mode":"fill","h":18446744073709551616}"#,
    r#"{"do":"ground","mode":"fill","h":"1"}"#,
    r#"{"do":"ground","mode":"fill","h":true}"#,
    r#"{"do":"ground","mode":"fill","h":[1]}"#,
];

/// Lines, each list with the fault that its lines have.
static WRONG_LINES: [(&[&str], LineFault); 6] = [
    (&NOT_JSON, LineFault::NotJson),
    (&NOT_OBJECT, LineFault::NotObject),
    (&UNKNOWN_COMMAND, LineFault::UnknownCommand),
    (&MISSING_MEMBER, LineFault::MissingMember),
    (&UNKNOWN_MEMBER, LineFault::UnknownMember),
    (&BAD_VALUE, LineFault::BadValue),
];

/// Heads, each with its fault.
static WRONG_HEADS: [(&str, LineFault); 22] = [
    ("", LineFault::NotJson),
    (r#"{"terra":1,"depth":0,"reach":0}}"#, LineFault::NotJson),
    ("[]", LineFault::NotObject),
    ("1", LineFault::NotObject),
    ("{}", LineFault::MissingMember),
    (r#"{"do":"fly"}"#, LineFault::MissingMember),
    (SHOT, LineFault::MissingMember),
    (r#"{"terra":1,"depth":0}"#, LineFault::MissingMember),
    (r#"{"terra":9,"x":0}"#, LineFault::MissingMember),
    (
        r#"{"terra":1,"depth":0,"reach":0,"do":"fly"}"#,
        LineFault::UnknownMember,
    ),
    (
        r#"{"terra":9,"depth":0,"reach":0,"x":0}"#,
        LineFault::UnknownMember,
    ),
    (r#"{"terra":0,"depth":0,"reach":0}"#, LineFault::BadValue),
    (r#"{"terra":2,"depth":0,"reach":0}"#, LineFault::BadValue),
    (r#"{"terra":1.0,"depth":0,"reach":0}"#, LineFault::BadValue),
    (r#"{"terra":"1","depth":0,"reach":0}"#, LineFault::BadValue),
    (r#"{"terra":true,"depth":0,"reach":0}"#, LineFault::BadValue),
    (r#"{"terra":1,"depth":7,"reach":0}"#, LineFault::BadValue),
    (r#"{"terra":1,"depth":-0,"reach":0}"#, LineFault::BadValue),
    (r#"{"terra":1,"depth":256,"reach":0}"#, LineFault::BadValue),
    (r#"{"terra":1,"depth":0,"reach":9}"#, LineFault::BadValue),
    (r#"{"terra":1,"depth":0,"reach":256}"#, LineFault::BadValue),
    (r#"{"terra":1,"depth":0,"reach":null}"#, LineFault::BadValue),
];

/// Heads, each with the settings that it has.
static HEADS: [(&str, Settings); 3] = [
    (r#"{"terra":1,"depth":0,"reach":0}"#, SMALL),
    (r#" {"reach":8, "depth":6, "terra":1}"#, LARGE),
    (r#"{"t\u0065rra":1,"depth":9,"depth":0,"reach":0}"#, SMALL),
];

/// Lines, and whether each is blank.
static BLANKS: [(&str, bool); 5] = [
    ("", true),
    (" \t\r \r", true),
    ("\n", false),
    (" x", false),
    ("\u{a0}", false),
];

const LOW: Point = Point { x: 1, y: 2, z: 3 };

const HIGH: Point = Point { x: 4, y: 5, z: 6 };

/// Edits of a world of side 16, each with its command.
static EDITS: [(&str, Command); 5] = [
    (
        r#"{"do":"box","mode":"fill","lo":[1,2,3],"hi":[4,5,6]}"#,
        Command::Event(Event::Edit(Brush::Cuboid {
            mode: Mode::Fill,
            lo: LOW,
            hi: HIGH,
        })),
    ),
    (
        r#"{"hi":[4,5,6],"lo":[1,2,3],"mode":"carve","do":"box"}"#,
        Command::Event(Event::Edit(Brush::Cuboid {
            mode: Mode::Carve,
            lo: LOW,
            hi: HIGH,
        })),
    ),
    (
        r#"{"do":"smooth","lo":[1,2,3],"hi":[1,2,3]}"#,
        Command::Event(Event::Edit(Brush::Smooth { lo: LOW, hi: LOW })),
    ),
    (
        r#"{"do":"ball","mode":"carve","at":[4,5,6],"r":16}"#,
        Command::Event(Event::Edit(Brush::Ball {
            mode: Mode::Carve,
            at: HIGH,
            r: 16,
        })),
    ),
    (
        r#"{"do":"ground","mode":"carve","h":99,"h":16}"#,
        Command::Event(Event::Edit(Brush::Ground {
            mode: Mode::Carve,
            h: 16,
        })),
    ),
];

/// Moves of viewpoints and an undo, each with its command. A camera that names none puts the first one somewhere.
static EVENTS: [(&str, Command); 6] = [
    (
        r#"{"do":"camera","at":[1,2,3]}"#,
        Command::Event(Event::Camera { view: 0, at: LOW }),
    ),
    (
        r#"{"do":"camera","view":0,"at":[1,2,3]}"#,
        Command::Event(Event::Camera { view: 0, at: LOW }),
    ),
    (
        r#"{"at":[4,5,6],"view":7,"do":"camera"}"#,
        Command::Event(Event::Camera { view: 7, at: HIGH }),
    ),
    (
        r#"{"do":"away","view":0}"#,
        Command::Event(Event::Away { view: 0 }),
    ),
    (
        r#"{"do":"away","view":7}"#,
        Command::Event(Event::Away { view: 7 }),
    ),
    (r#"{"do":"undo"}"#, Command::Event(Event::Undo)),
];

/// Asserts what a line says in a world of side 16. A failed assertion names the case.
fn expect_command(
    rt: &(impl Abort + AllocGlobal),
    case: &str,
    line: &[u8],
    answer: Result<Command, LineFault>,
) {
    expect(rt, case, command(rt.alloc(), line, &SMALL), answer);
}

/// Asserts what a line says as a head. A failed assertion names the case.
fn expect_head(
    rt: &(impl Abort + AllocGlobal),
    case: &str,
    line: &[u8],
    answer: Result<Settings, LineFault>,
) {
    expect(rt, case, head(rt.alloc(), line), answer);
}

/// Asserts what each line is refused for.
fn expect_fault(rt: &(impl Abort + AllocGlobal), lines: &[&str], fault: LineFault) {
    for line in lines {
        expect_command(rt, line, line.as_bytes(), Err(fault));
    }
}

/// Returns the line with spaces behind it, up to this many bytes.
fn padded(rt: &impl Abort, alloc: Global, line: &str, len: usize) -> Vec<u8> {
    let mut padded = expect_made(rt, line.as_bytes().to_vec(alloc));
    expect_made(rt, padded.resize(len, b' '));
    padded
}

#[test]
fn finds_the_first_fault(rt: HostRuntime) {
    for (lines, fault) in &WRONG_LINES {
        expect_fault(&rt, lines, *fault);
    }
    for line in &NOT_TEXT {
        expect_command(&rt, "not text", line, Err(LineFault::NotJson));
    }
    for (line, fault) in &WRONG_HEADS {
        expect_head(&rt, line, line.as_bytes(), Err(*fault));
    }
}

/// Asserts what a line says once it has so many bytes, and whether that is too long.
fn expect_padded(
    rt: &(impl Abort + AllocGlobal),
    line: &str,
    len: usize,
    is_long: bool,
    answer: Result<Command, LineFault>,
) {
    let padded = padded(rt, rt.alloc(), line, len);
    expect(rt, len, is_too_long(&padded), is_long);
    expect_command(rt, line, &padded, answer);
    drop(padded);
}

/// Asserts that a head of so many bytes is refused for it.
fn expect_long_head(rt: &(impl Abort + AllocGlobal), len: usize) {
    let blank = padded(rt, rt.alloc(), "", len);
    expect_head(rt, "too long", &blank, Err(LineFault::TooLong));
    drop(blank);
}

#[test]
fn goes_by_the_length_of_lines(rt: HostRuntime) {
    expect_padded(&rt, SHOT, 4096, false, Ok(PLAIN));
    expect_padded(&rt, UNENDED, 4096, false, Err(LineFault::NotJson));
    for len in [4097, 4098, 10_000] {
        expect_padded(&rt, SHOT, len, true, Err(LineFault::TooLong));
        expect_long_head(&rt, len);
    }
}

/// Asserts what each line says in a world of side 16.
fn expect_commands(rt: &(impl Abort + AllocGlobal), lines: &[(&str, Command)]) {
    for (line, said) in lines {
        expect_command(rt, line, line.as_bytes(), Ok(*said));
    }
}

#[test]
fn reads_commands(rt: HostRuntime) {
    expect_commands(&rt, &OUTPUTS);
    expect_commands(&rt, &EVENTS);
    expect_commands(&rt, &EDITS);
}

#[test]
fn reads_heads_and_blanks(rt: HostRuntime) {
    for (line, settings) in &HEADS {
        expect_head(&rt, line, line.as_bytes(), Ok(*settings));
    }
    for (line, blank) in &BLANKS {
        expect(&rt, *line, is_blank(line.as_bytes()), *blank);
    }
}

/// The greatest ball of the largest world.
const GREATEST: Brush = Brush::Ball {
    mode: Mode::Carve,
    at: LOW,
    r: 256,
};

#[test]
fn reads_the_greatest_ball(rt: HostRuntime) {
    let line = br#"{"do":"ball","mode":"carve","at":[1,2,3],"r":256}"#;
    let found = command(rt.alloc(), line, &LARGE);
    expect(
        &rt,
        GREATEST,
        found,
        Ok(Command::Event(Event::Edit(GREATEST))),
    );
}

/// Pieces of a script, each with how many of its bytes a cutter eats, and what it finds.
static PIECES: [(&[u8], (usize, Cut)); 4] = [
    (b"ab", (2, Cut::More)),
    (b"c\r\n\n", (3, Cut::Line)),
    (b"\nd", (1, Cut::Line)),
    (b"d", (1, Cut::More)),
];

/// How many bytes a line has before its last one, that one, and what a cutter finds at its end.
static WHOLE_LINES: [(usize, u8, Cut); 3] = [
    (LINE_LIMIT, b'\r', Cut::Line),
    (LINE_LIMIT, b'a', Cut::Long),
    (LINE_LIMIT + 1, b'\r', Cut::Long),
];

/// Returns what a cutter finds at the end of these many bytes and this one.
fn cut_whole(count: usize, last: u8) -> Cut {
    let mut cutter = LineCutter::new();
    for _ in 0..count {
        cutter.eat(b"a");
    }
    cutter.eat(&[last]);
    cutter.finish()
}

#[test]
fn cuts_lines_from_pieces(rt: HostRuntime) {
    let mut cutter = LineCutter::new();
    for (piece, cut) in &PIECES {
        expect(&rt, *piece, cutter.eat(piece), *cut);
    }
    expect(&rt, "the last line", cutter.finish(), Cut::Line);
    expect(&rt, "no line", cutter.finish(), Cut::More);
    for (count, last, cut) in &WHOLE_LINES {
        expect(&rt, (*count, *last), cut_whole(*count, *last), *cut);
    }
}
