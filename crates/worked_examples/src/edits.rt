//! Meshes of all brushes.

use crate::cases::{Case, RUN, expect_cases};
use crate::made::Bytes;
use crate::scripts::{HEAD, SHOT};

/// Two balls that touch, and a box between them.
const BALLS: [&str; 5] = [
    HEAD,
    r#"{"do":"ball","mode":"fill","at":[8,8,8],"r":1}"#,
    r#"{"do":"ball","mode":"fill","at":[9,9,8],"r":1}"#,
    r#"{"do":"box","mode":"fill","lo":[8,9,8],"hi":[8,9,8]}"#,
    SHOT,
];

const BALLS_SHOT: &str = "\
o shot_1
# events 3
g b0_0_0_0
v 8.00000000 8.00000000 7.00000000
v 8.00000000 7.00000000 8.00000000
v 7.00000000 8.00000000 8.00000000
v 9.00000000 8.00000000 8.00000000
v 7.42578125 9.00000000 8.00000000
v 8.00000000 9.00000000 7.42578125
v 9.00000000 9.00000000 7.00000000
v 9.00000000 8.00000000 8.00000000
v 10.00000000 9.00000000 8.00000000
v 8.00000000 9.57031250 8.00000000
v 9.00000000 10.00000000 8.00000000
v 8.00000000 8.00000000 9.00000000
v 8.00000000 9.00000000 8.57031250
v 9.00000000 9.00000000 9.00000000
f 1 2 3
f 1 4 2
f 1 3 5
f 1 5 6
f 1 6 7
f 1 7 8
f 1 8 4
f 7 9 8
f 6 5 10
f 6 10 11
f 6 11 7
f 7 11 9
f 2 12 3
f 2 4 12
f 3 12 13
f 3 13 5
f 4 8 14
f 4 14 13
f 4 13 12
f 8 9 14
f 5 13 10
f 10 13 14
f 10 14 11
f 9 11 14
";

/// A full world, carved to two points above each other.
const CARVED: [&str; 6] = [
    HEAD,
    r#"{"do":"ground","mode":"fill","h":16}"#,
    r#"{"do":"box","mode":"carve","lo":[1,0,0],"hi":[16,16,16]}"#,
    r#"{"do":"box","mode":"carve","lo":[0,1,0],"hi":[0,16,16]}"#,
    r#"{"do":"box","mode":"carve","lo":[0,0,2],"hi":[0,0,16]}"#,
    SHOT,
];

const CARVED_SHOT: &str = "\
o shot_1
# events 4
g b0_0_0_0
v 0.50000000 0.00000000 0.00000000
v 0.00000000 0.50000000 0.00000000
v 0.00000000 0.50000000 1.00000000
v 0.50000000 0.00000000 1.00000000
v 0.00000000 0.00000000 1.50000000
f 1 2 3
f 1 3 4
f 4 3 5
";

/// A box in the low corner that is smoothed, and a camera, which counts as an event.
const SMOOTHED: [&str; 5] = [
    HEAD,
    r#"{"do":"box","mode":"fill","lo":[0,0,0],"hi":[1,1,1]}"#,
    r#"{"do":"smooth","lo":[0,0,0],"hi":[2,2,2]}"#,
    r#"{"do":"camera","at":[0,0,16]}"#,
    SHOT,
];

const SMOOTHED_SHOT: &str = "\
o shot_1
# events 3
g b0_0_0_0
v 1.42578125 0.00000000 0.00000000
v 1.33203125 1.00000000 0.00000000
v 1.19921875 1.00000000 1.00000000
v 1.33203125 0.00000000 1.00000000
v 0.00000000 1.42578125 0.00000000
v 0.00000000 1.33203125 1.00000000
v 1.00000000 1.19921875 1.00000000
v 1.00000000 1.33203125 0.00000000
v 0.00000000 0.00000000 1.42578125
v 1.00000000 0.00000000 1.33203125
v 1.00000000 1.00000000 1.19921875
v 0.00000000 1.00000000 1.33203125
f 1 2 3
f 1 3 4
f 5 6 7
f 5 7 8
f 2 8 7
f 2 7 3
f 9 10 11
f 9 11 12
f 4 3 11
f 4 11 10
f 6 12 11
f 6 11 7
f 3 7 11
";

/// Edits behind a head, each with the shot of the world then. The last line needs no line feed.
static CASES: [Case; 3] = [
    Case {
        name: "balls",
        input: Bytes::Unended(&BALLS),
        output: Bytes::Text(BALLS_SHOT),
        ..RUN
    },
    Case {
        name: "a ground that is carved",
        input: Bytes::Unended(&CARVED),
        output: Bytes::Text(CARVED_SHOT),
        ..RUN
    },
    Case {
        name: "a box that is smoothed",
        input: Bytes::Unended(&SMOOTHED),
        output: Bytes::Text(SMOOTHED_SHOT),
        ..RUN
    },
];

#[test]
fn writes_the_mesh_of_all_brushes(rt: HostRuntime) {
    expect_cases(&rt, &CASES);
}
