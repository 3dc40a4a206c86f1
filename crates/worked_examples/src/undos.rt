//! Edits that are undone.

use crate::cases::{Case, RUN, expect_cases};
use crate::made::Bytes;
use crate::scripts::{HEAD, MIDDLE, NO_MESH, SHOT, STATS};
use terra_run::Status;

/// Fills a point beside the one in the middle, across an edge of a cell.
const BESIDE: &str = r#"{"do":"box","mode":"fill","lo":[9,9,8],"hi":[9,9,8]}"#;

const CAMERA: &str = r#"{"do":"camera","at":[8,8,8]}"#;

const AWAY: &str = r#"{"do":"away","view":0}"#;

const UNDO: &str = r#"{"do":"undo"}"#;

/// A carve of air, which changes no sample.
const NOTHING: &str = r#"{"do":"box","mode":"carve","lo":[8,8,8],"hi":[8,8,8]}"#;

/// The shot of the middle alone, behind three events.
const UNDONE_SHOT: &str = "\
o shot_1
# events 3
g b0_0_0_0
v 8.00000000 8.00000000 7.50000000
v 8.00000000 7.50000000 8.00000000
v 7.50000000 8.00000000 8.00000000
v 8.50000000 8.00000000 8.00000000
v 8.00000000 8.50000000 8.00000000
v 8.00000000 8.00000000 8.50000000
f 1 2 3
f 1 4 2
f 1 3 5
f 1 5 4
f 2 6 3
f 2 4 6
f 3 6 5
f 4 5 6
";

/// Two points, then one, then none.
const LESS_AND_LESS: &str = "\
# stats leaves 1 triangles 16 keys 12
# stats leaves 1 triangles 8 keys 6
# stats leaves 1 triangles 0 keys 0
";

const ONE_POINT: &str = "# stats leaves 1 triangles 8 keys 6\n";

static CASES: [Case; 7] = [
    Case {
        name: "one of two",
        input: Bytes::Lines(&[HEAD, MIDDLE, BESIDE, UNDO, SHOT]),
        output: Bytes::Text(UNDONE_SHOT),
        ..RUN
    },
    // Viewpoints aren't undone, and no undo is.
    Case {
        name: "both, across a camera, an away and an undo",
        input: Bytes::Lines(&[
            HEAD, MIDDLE, BESIDE, STATS, CAMERA, UNDO, STATS, AWAY, UNDO, STATS,
        ]),
        output: Bytes::Text(LESS_AND_LESS),
        ..RUN
    },
    // What was undone is out of force for good: the next undo takes the edit before it.
    Case {
        name: "an edit between",
        input: Bytes::Lines(&[HEAD, MIDDLE, UNDO, MIDDLE, BESIDE, UNDO, STATS]),
        output: Bytes::Text(ONE_POINT),
        ..RUN
    },
    // An edit that changes no sample is in force as any other.
    Case {
        name: "no change",
        input: Bytes::Lines(&[HEAD, NOTHING, MIDDLE, UNDO, UNDO, STATS]),
        output: Bytes::Text(NO_MESH),
        ..RUN
    },
    Case {
        name: "an undo of a camera",
        input: Bytes::Lines(&[HEAD, CAMERA, UNDO, SHOT]),
        status: Status::NothingToUndo { line: 3 },
        note: "terra: line 3: nothing to undo\n",
        ..RUN
    },
    Case {
        name: "a second undo of one edit",
        input: Bytes::Lines(&[HEAD, MIDDLE, UNDO, STATS, UNDO]),
        status: Status::NothingToUndo { line: 5 },
        output: Bytes::Text(NO_MESH),
        note: "terra: line 5: nothing to undo\n",
        ..RUN
    },
    Case {
        name: "a third undo of two edits",
        input: Bytes::Lines(&[HEAD, MIDDLE, BESIDE, UNDO, UNDO, UNDO, "[1]"]),
        status: Status::NothingToUndo { line: 6 },
        note: "terra: line 6: nothing to undo\n",
        ..RUN
    },
];

#[test]
fn undoes_the_last_edit_in_force(rt: HostRuntime) {
    expect_cases(&rt, &CASES);
}
