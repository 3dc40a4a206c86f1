//! Lines of stats: how many leaves, triangles and keys a world has.

use crate::cases::{Case, RUN, expect_cases};
use crate::made::Bytes;
use crate::scripts::{HEAD, MIDDLE, NO_MESH, STATS};

static CASES: [Case; 13] = [
    // The octahedron round the point, and before it a world without a mesh.
    Case {
        name: "a point in the middle, and before it",
        input: Bytes::Lines(&[HEAD, STATS, MIDDLE, STATS]),
        output: Bytes::Lines(&[
            "# stats leaves 1 triangles 0 keys 0",
            "# stats leaves 1 triangles 8 keys 6",
        ]),
        ..RUN
    },
    // The carve makes the point's sample 8.
    Case {
        name: "a point that is filled and carved",
        input: Bytes::Lines(&[
            HEAD,
            MIDDLE,
            r#"{"do":"box","mode":"carve","lo":[8,8,8],"hi":[8,8,8]}"#,
            STATS,
        ]),
        output: Bytes::Text(NO_MESH),
        ..RUN
    },
    // The cell between the boxes has two loops on its ambiguous square, not one band.
    Case {
        name: "two boxes that touch at an edge",
        input: Bytes::Lines(&[
            r#"{"terra":1,"depth":0,"reach":0}"#,
            r#"{"do":"box","mode":"fill","lo":[8,8,8],"hi":[8,8,8]}"#,
            r#"{"do":"box","mode":"fill","lo":[9,9,8],"hi":[9,9,8]}"#,
            r#"{"do":"stats"}"#,
        ]),
        output: Bytes::Text("# stats leaves 1 triangles 16 keys 12\n"),
        ..RUN
    },
    // The sample is 0, and so both ends of an edge are one place. Its triangle has no area and is kept.
    Case {
        name: "a triangle without area",
        input: Bytes::Lines(&[
            r#"{"terra":1,"depth":0,"reach":0}"#,
            r#"{"do":"ball","mode":"fill","at":[8,8,8],"r":1}"#,
            r#"{"do":"ball","mode":"fill","at":[9,9,8],"r":1}"#,
            r#"{"do":"box","mode":"fill","lo":[8,9,8],"hi":[8,9,8]}"#,
            r#"{"do":"stats"}"#,
        ]),
        output: Bytes::Text("# stats leaves 1 triangles 24 keys 14\n"),
        ..RUN
    },
    // The point's sample is (-16 + 48) / 8 rounded down, which isn't negative.
    Case {
        name: "a point that is smoothed away",
        input: Bytes::Lines(&[
            r#"{"terra":1,"depth":0,"reach":0}"#,
            r#"{"do":"box","mode":"fill","lo":[8,8,8],"hi":[8,8,8]}"#,
            r#"{"do":"smooth","lo":[8,8,8],"hi":[8,8,8]}"#,
            r#"{"do":"stats"}"#,
        ]),
        output: Bytes::Text(NO_MESH),
        ..RUN
    },
    // 8 leaves of level 0 and 7 of level 1.
    Case {
        name: "a camera in the corner",
        input: Bytes::Lines(&[
            r#"{"terra":1,"depth":2,"reach":1}"#,
            r#"{"do":"camera","at":[0,0,0]}"#,
            r#"{"do":"stats"}"#,
        ]),
        output: Bytes::Text("# stats leaves 15 triangles 0 keys 0\n"),
        ..RUN
    },
    // 32, 28 and 4 leaves of levels 0 to 2. Balance over faces alone would give 57 in all.
    Case {
        name: "balance across edges",
        input: Bytes::Lines(&[
            r#"{"terra":1,"depth":3,"reach":1}"#,
            r#"{"do":"camera","at":[32,32,16]}"#,
            r#"{"do":"stats"}"#,
        ]),
        output: Bytes::Text("# stats leaves 64 triangles 0 keys 0\n"),
        ..RUN
    },
    // 16, 14 and 6 leaves of levels 0 to 2. A node as far away as its side is split for balance alone.
    Case {
        name: "a node that only balance splits",
        input: Bytes::Lines(&[
            r#"{"terra":1,"depth":3,"reach":1}"#,
            r#"{"do":"camera","at":[32,16,16]}"#,
            r#"{"do":"stats"}"#,
        ]),
        output: Bytes::Text("# stats leaves 36 triangles 0 keys 0\n"),
        ..RUN
    },
    // Two viewpoints in opposite corners, then the other one alone, and then none.
    Case {
        name: "two viewpoints that go away",
        input: Bytes::Lines(&[
            r#"{"terra":1,"depth":2,"reach":1}"#,
            r#"{"do":"camera","at":[0,0,0]}"#,
            r#"{"do":"camera","view":1,"at":[64,64,64]}"#,
            r#"{"do":"stats"}"#,
            r#"{"do":"away","view":0}"#,
            r#"{"do":"stats"}"#,
            r#"{"do":"away","view":1}"#,
            r#"{"do":"stats"}"#,
        ]),
        output: Bytes::Lines(&[
            "# stats leaves 22 triangles 0 keys 0",
            "# stats leaves 15 triangles 0 keys 0",
            "# stats leaves 1 triangles 0 keys 0",
        ]),
        ..RUN
    },
    // Each eighth of the world has a chain of three nodes that are split, down to its corner: 8 * (1 + 7 * 3) leaves.
    Case {
        name: "eight viewpoints in eight corners",
        input: Bytes::Lines(&[
            r#"{"terra":1,"depth":4,"reach":1}"#,
            r#"{"do":"camera","at":[0,0,0]}"#,
            r#"{"do":"camera","view":1,"at":[256,0,0]}"#,
            r#"{"do":"camera","view":2,"at":[0,256,0]}"#,
            r#"{"do":"camera","view":3,"at":[256,256,0]}"#,
            r#"{"do":"camera","view":4,"at":[0,0,256]}"#,
            r#"{"do":"camera","view":5,"at":[256,0,256]}"#,
            r#"{"do":"camera","view":6,"at":[0,256,256]}"#,
            r#"{"do":"camera","view":7,"at":[256,256,256]}"#,
            r#"{"do":"stats"}"#,
        ]),
        output: Bytes::Text("# stats leaves 176 triangles 0 keys 0\n"),
        ..RUN
    },
    // Seven leaves of each level from 5 to 1, and eight of level 0.
    Case {
        name: "a camera in the corner of the largest world",
        input: Bytes::Lines(&[
            r#"{"terra":1,"depth":6,"reach":1}"#,
            r#"{"do":"camera","at":[0,0,0]}"#,
            r#"{"do":"stats"}"#,
        ]),
        output: Bytes::Text("# stats leaves 43 triangles 0 keys 0\n"),
        ..RUN
    },
    // 16 * 16 squares of one leaf, whose cells have the side 64.
    Case {
        name: "a ground in the largest world",
        input: Bytes::Lines(&[
            r#"{"terra":1,"depth":6,"reach":0}"#,
            r#"{"do":"ground","mode":"fill","h":64}"#,
            r#"{"do":"stats"}"#,
        ]),
        output: Bytes::Text("# stats leaves 1 triangles 512 keys 289\n"),
        ..RUN
    },
    // The second viewpoint goes from corner to corner and back beside the first, and away; what isn't there goes away
    // without a trace but the event.
    Case {
        name: "a viewpoint that is moved ten times and goes away",
        input: Bytes::Lines(&[
            r#"{"terra":1,"depth":2,"reach":1}"#,
            r#"{"do":"camera","at":[0,0,0]}"#,
            r#"{"do":"camera","view":5,"at":[64,64,64]}"#,
            r#"{"do":"camera","view":5,"at":[64,0,0]}"#,
            r#"{"do":"camera","view":5,"at":[0,64,0]}"#,
            r#"{"do":"camera","view":5,"at":[0,0,0]}"#,
            r#"{"do":"stats"}"#,
            r#"{"do":"camera","view":5,"at":[0,0,64]}"#,
            r#"{"do":"camera","view":5,"at":[64,64,0]}"#,
            r#"{"do":"camera","view":5,"at":[64,0,64]}"#,
            r#"{"do":"camera","view":5,"at":[0,64,64]}"#,
            r#"{"do":"camera","view":5,"at":[1,2,3]}"#,
            r#"{"do":"camera","view":5,"at":[64,64,64]}"#,
            r#"{"do":"stats"}"#,
            r#"{"do":"away","view":3}"#,
            r#"{"do":"stats"}"#,
            r#"{"do":"away","view":5}"#,
            r#"{"do":"shot"}"#,
            r#"{"do":"stats"}"#,
        ]),
        output: Bytes::Lines(&[
            "# stats leaves 15 triangles 0 keys 0",
            "# stats leaves 22 triangles 0 keys 0",
            "# stats leaves 22 triangles 0 keys 0",
            "o shot_1",
            "# events 13",
            "# stats leaves 15 triangles 0 keys 0",
        ]),
        ..RUN
    },
];

#[test]
fn tells_how_much_a_world_has(rt: HostRuntime) {
    expect_cases(&rt, &CASES);
}
