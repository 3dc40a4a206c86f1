//! Meshes of boxes, and shots after one another.

use crate::cases::{Case, RUN, expect_cases};
use crate::made::Bytes;
use crate::scripts::{EMPTY_SHOT, HEAD, MIDDLE, MIDDLE_SHOT, SHOT};

/// Fills the one point in the low corner of the world.
const CORNER: &str = r#"{"do":"box","mode":"fill","lo":[0,0,0],"hi":[0,0,0]}"#;

const CORNER_SHOT: &str = "\
o shot_1
# events 1
g b0_0_0_0
v 0.50000000 0.00000000 0.00000000
v 0.00000000 0.50000000 0.00000000
v 0.00000000 0.00000000 0.50000000
f 1 2 3
";

/// Fills the world, which leaves no surface in it.
const WHOLE_WORLD: &str = r#"{"do":"box","mode":"fill","lo":[0,0,0],"hi":[16,16,16]}"#;

const NO_SURFACE: &str = "\
o shot_1
# events 1
";

/// The single point in the middle, shot twice: vertices are numbered over the whole output.
const TWO_SHOTS: &str = "\
o shot_1
# events 1
g b0_0_0_0
v 8.00000000 8.00000000 7.50000000
v 8.00000000 7.50000000 8.00000000
v 7.50000000 8.00000000 8.00000000
v 8.50000000 8.00000000 8.00000000
v 8.00000000 8.50000000 8.00000000
v 8.00000000 8.00000000 8.50000000
f 1 2 3
f 1 4 2
f 1 3 5
f 1 5 4
f 2 6 3
f 2 4 6
f 3 6 5
f 4 5 6
o shot_2
# events 1
g b0_0_0_0
v 8.00000000 8.00000000 7.50000000
v 8.00000000 7.50000000 8.00000000
v 7.50000000 8.00000000 8.00000000
v 8.50000000 8.00000000 8.00000000
v 8.00000000 8.50000000 8.00000000
v 8.00000000 8.00000000 8.50000000
f 7 8 9
f 7 10 8
f 7 9 11
f 7 11 10
f 8 12 9
f 8 10 12
f 9 12 11
f 10 11 12
";

static CASES: [Case; 7] = [
    Case {
        name: "the head alone",
        input: Bytes::Lines(&[HEAD]),
        ..RUN
    },
    Case {
        name: "no shot",
        input: Bytes::Lines(&[HEAD, MIDDLE]),
        ..RUN
    },
    Case {
        name: "an empty shot",
        input: Bytes::Lines(&[HEAD, SHOT]),
        output: Bytes::Text(EMPTY_SHOT),
        ..RUN
    },
    Case {
        name: "the middle",
        input: Bytes::Lines(&[HEAD, MIDDLE, SHOT]),
        output: Bytes::Text(MIDDLE_SHOT),
        ..RUN
    },
    Case {
        name: "the corner",
        input: Bytes::Lines(&[HEAD, CORNER, SHOT]),
        output: Bytes::Text(CORNER_SHOT),
        ..RUN
    },
    Case {
        name: "the whole world",
        input: Bytes::Lines(&[HEAD, WHOLE_WORLD, SHOT]),
        output: Bytes::Text(NO_SURFACE),
        ..RUN
    },
    Case {
        name: "two shots",
        input: Bytes::Lines(&[HEAD, MIDDLE, SHOT, SHOT]),
        output: Bytes::Text(TWO_SHOTS),
        ..RUN
    },
];

#[test]
fn writes_shots(rt: HostRuntime) {
    expect_cases(&rt, &CASES);
}
