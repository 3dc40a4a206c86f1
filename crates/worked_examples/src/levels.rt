//! Meshes of worlds of several leaves, of one or more levels.

use crate::cases::{Case, RUN, expect_cases};
use crate::made::Bytes;
use crate::outcome::{TestRuntime, expect_status};
use crate::scripts::{SHOT, STATS};
use std::process::Abort;
use terra_run::Status;

/// A world in which leaves of level 0 and 1 meet at x = 32.
const TWO_LEVELS: &str = r#"{"terra":1,"depth":2,"reach":1}"#;

const CAMERA_IN_THE_CORNER: &str = r#"{"do":"camera","at":[0,0,0]}"#;

/// Fills the one point that is the middle of an edge of the coarser leaf's cells.
const MIDDLE_OF_A_COARSE_EDGE: &str = r#"{"do":"box","mode":"fill","lo":[32,9,8],"hi":[32,9,8]}"#;

/// Both leaves have the four keys that they share at the same places, each under numbers of its own.
const MIDDLE_OF_A_COARSE_EDGE_SHOT: &str = "\
o shot_1
# events 2
g b0_1_0_0
v 32.00000000 9.00000000 7.50000000
v 32.00000000 8.50000000 8.00000000
v 31.50000000 9.00000000 8.00000000
v 32.00000000 9.50000000 8.00000000
v 32.00000000 9.00000000 8.50000000
f 1 2 3
f 1 3 4
f 2 5 3
f 3 5 4
g b1_1_0_0
v 32.00000000 9.00000000 7.50000000
v 32.00000000 9.50000000 8.00000000
v 32.00000000 8.50000000 8.00000000
v 32.00000000 9.00000000 8.50000000
f 6 7 8
f 8 7 9
";

/// A ground across two levels, and then all of it as it is far from the second camera.
const GROUND: [&str; 6] = [
    TWO_LEVELS,
    CAMERA_IN_THE_CORNER,
    r#"{"do":"ground","mode":"fill","h":8}"#,
    STATS,
    r#"{"do":"camera","at":[64,64,64]}"#,
    STATS,
];

/// The meshes of the transition cells between the levels go with the second camera.
const GROUND_STATS: &str = "\
# stats leaves 15 triangles 3680 keys 2089
# stats leaves 15 triangles 2048 keys 1156
";

/// A large world, with leaves of all levels; the second camera is far from the crater.
const LARGE_WORLD: [&str; 7] = [
    r#"{"terra":1,"depth":4,"reach":1}"#,
    CAMERA_IN_THE_CORNER,
    r#"{"do":"ground","mode":"fill","h":20}"#,
    r#"{"do":"ball","mode":"carve","at":[20,24,20],"r":12}"#,
    STATS,
    r#"{"do":"camera","at":[256,256,20]}"#,
    STATS,
];

const LARGE_WORLD_STATS: &str = "\
# stats leaves 29 triangles 8624 keys 4926
# stats leaves 50 triangles 6964 keys 3965
";

static CASES: [Case; 3] = [
    Case {
        name: "the middle of a coarse edge",
        input: Bytes::Lines(&[
            TWO_LEVELS,
            CAMERA_IN_THE_CORNER,
            MIDDLE_OF_A_COARSE_EDGE,
            SHOT,
        ]),
        output: Bytes::Text(MIDDLE_OF_A_COARSE_EDGE_SHOT),
        ..RUN
    },
    Case {
        name: "a ground",
        input: Bytes::Lines(&GROUND),
        output: Bytes::Text(GROUND_STATS),
        ..RUN
    },
    Case {
        name: "a large world",
        input: Bytes::Lines(&LARGE_WORLD),
        output: Bytes::Text(LARGE_WORLD_STATS),
        ..RUN
    },
];

/// A run whose output is long, and what is known of that.
#[derive(Clone, Copy)]
struct Digested {
    name: &'static str,
    arguments: &'static [&'static str],
    lines: &'static [&'static str],
    begin: &'static str,
    length: usize,
    digest: u64,
}

/// Hills with a cave, shot after 5 events, and smoothed and shot from elsewhere after 9.
pub const HILLS_LINES: [&str; 13] = [
    r#"{"terra":1,"depth":3,"reach":2}"#,
    r#"{"do":"camera","at":[64,64,48]}"#,
    r#"{"do":"ground","mode":"fill","h":40}"#,
    r#"{"do":"ball","mode":"fill","at":[70,60,44],"r":12}"#,
    r#"{"do":"ball","mode":"carve","at":[52,66,40],"r":9}"#,
    r#"{"do":"ball","mode":"carve","at":[58,66,34],"r":7}"#,
    SHOT,
    r#"{"do":"smooth","lo":[44,50,28],"hi":[84,78,60]}"#,
    r#"{"do":"camera","at":[20,64,48]}"#,
    STATS,
    r#"{"do":"camera","at":[20,20,48]}"#,
    r#"{"do":"camera","at":[110,20,48]}"#,
    SHOT,
];

/// They write so many bytes.
pub const HILLS_LENGTH: usize = 1_421_768;

const HILLS: Digested = Digested {
    name: "hills with a cave",
    arguments: &["run"],
    lines: &HILLS_LINES,
    begin: "",
    length: HILLS_LENGTH,
    digest: 0x4178_2915_39aa_1871,
};

static DIGESTED: [Digested; 6] = [
    // Shot as one leaf without a camera, and as leaves of two levels with one.
    Digested {
        name: "a crater",
        arguments: &["run"],
        lines: &[
            TWO_LEVELS,
            r#"{"do":"ground","mode":"fill","h":20}"#,
            r#"{"do":"ball","mode":"carve","at":[32,32,22],"r":9}"#,
            SHOT,
            r#"{"do":"camera","at":[4,4,24]}"#,
            SHOT,
        ],
        begin: "",
        length: 173_388,
        digest: 0x31ff_e7ea_d70a_89c7,
    },
    // In a world of depth 3. The last of two cameras counts.
    Digested {
        name: "a ball",
        arguments: &["run"],
        lines: &[
            r#"{"terra":1,"depth":3,"reach":1}"#,
            r#"{"do":"ball","mode":"fill","at":[64,60,62],"r":20}"#,
            r#"{"do":"camera","at":[64,64,64]}"#,
            r#"{"do":"camera","at":[70,40,64]}"#,
            SHOT,
        ],
        begin: "",
        length: 402_883,
        digest: 0xb615_3be6_8d14_217d,
    },
    HILLS,
    // The output is the same with workers.
    Digested {
        name: "a worker",
        arguments: &["run", "--workers", "1"],
        ..HILLS
    },
    Digested {
        name: "16 workers",
        arguments: &["run", "--workers", "16"],
        ..HILLS
    },
    // A ground in a world of side 1,024 that nobody looks at: one leaf, with cells of side 64. The first vertex lies
    // between the samples -8 and 127 over 64 cells.
    Digested {
        name: "the largest world",
        arguments: &["run"],
        lines: &[
            r#"{"terra":1,"depth":6,"reach":0}"#,
            r#"{"do":"ground","mode":"fill","h":64}"#,
            SHOT,
        ],
        begin: "o shot_1\n# events 1\ng b6_0_0_0\nv 0.00000000 0.00000000 67.78906250\n",
        length: 18_143,
        digest: 0xf9bd_7454_7fee_c536,
    },
];

/// Returns the digest of some bytes: FNV-1a of 64 bits.
fn digest(bytes: &[u8]) -> u64 {
    let mut digest: u64 = 0xcbf2_9ce4_8422_2325;
    for byte in bytes {
        digest = (digest ^ u64::from(*byte)).wrapping_mul(0x0100_0000_01b3);
    }
    digest
}

/// Asserts what is known of what was written. A failed assertion names the run.
fn expect_written(rt: &impl Abort, written: &[u8], wanted: &Digested) {
    assert_eq!(rt;
        (written.len(), digest(written)),
        (wanted.length, wanted.digest),
        "{}",
        wanted.name
    );
    assert!(rt;
        written.starts_with(wanted.begin.as_bytes()),
        "{}",
        wanted.name
    );
}

/// Asserts that what was written is the shots of the hills.
pub fn expect_hills(rt: &impl Abort, written: &[u8]) {
    expect_written(rt, written, &HILLS);
}

/// Makes a run, and asserts what is known of its output.
fn expect_digested(rt: &impl TestRuntime, wanted: &Digested) {
    let case = Case {
        arguments: wanted.arguments,
        input: Bytes::Lines(wanted.lines),
        ..RUN
    };
    let ended = case.run(rt);
    expect_status(rt, wanted.name, ended.status, Status::Done);
    expect_written(rt, ended.sinks.output.bytes(), wanted);
    drop(ended);
}

#[test]
fn writes_worlds_of_several_leaves(rt: HostRuntime) {
    expect_cases(&rt, &CASES);
    for wanted in &DIGESTED {
        expect_digested(&rt, wanted);
    }
}
