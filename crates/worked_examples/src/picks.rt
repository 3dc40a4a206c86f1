//! Picks, and shots with normals.

use crate::cases::{Case, RUN, expect_cases};
use crate::made::Bytes;
use crate::scripts::{HEAD, MIDDLE, SHOT};

const SHOT_WITH_NORMALS: &str = r#"{"do":"shot","normals":true}"#;

/// The single point in the middle, shot without normals and then with them: the vertices go on behind those of the
/// first shot, and the normals begin with 1.
const TWO_SHOTS: &str = "\
o shot_1
# events 1
g b0_0_0_0
v 8.00000000 8.00000000 7.50000000
v 8.00000000 7.50000000 8.00000000
v 7.50000000 8.00000000 8.00000000
v 8.50000000 8.00000000 8.00000000
v 8.00000000 8.50000000 8.00000000
v 8.00000000 8.00000000 8.50000000
f 1 2 3
f 1 4 2
f 1 3 5
f 1 5 4
f 2 6 3
f 2 4 6
f 3 6 5
f 4 5 6
o shot_2
# events 1
g b0_0_0_0
v 8.00000000 8.00000000 7.50000000
v 8.00000000 7.50000000 8.00000000
v 7.50000000 8.00000000 8.00000000
v 8.50000000 8.00000000 8.00000000
v 8.00000000 8.50000000 8.00000000
v 8.00000000 8.00000000 8.50000000
vn 0 0 -256
vn 0 -256 0
vn -256 0 0
vn 256 0 0
vn 0 256 0
vn 0 0 256
f 7//1 8//2 9//3
f 7//1 10//4 8//2
f 7//1 9//3 11//5
f 7//1 11//5 10//4
f 8//2 12//6 9//3
f 8//2 10//4 12//6
f 9//3 12//6 11//5
f 10//4 11//5 12//6
";

/// A shot with normals, and picks of the single point's surface.
static CASES: [Case; 4] = [
    Case {
        name: "with normals",
        input: Bytes::Lines(&[HEAD, MIDDLE, SHOT, SHOT_WITH_NORMALS]),
        output: Bytes::Text(TWO_SHOTS),
        ..RUN
    },
    Case {
        name: "over the top",
        input: Bytes::Lines(&[HEAD, MIDDLE, r#"{"do":"pick","at":[2048,2048]}"#]),
        output: Bytes::Text("# pick 2048 2048 8.50000000\n"),
        ..RUN
    },
    Case {
        name: "over one side",
        input: Bytes::Lines(&[HEAD, MIDDLE, r#"{"do":"pick","at":[2112,2048]}"#]),
        output: Bytes::Text("# pick 2112 2048 8.25000000\n"),
        ..RUN
    },
    Case {
        name: "beside the surface",
        input: Bytes::Lines(&[HEAD, MIDDLE, r#"{"do":"pick","at":[0,0]}"#]),
        output: Bytes::Text("# pick 0 0 none\n"),
        ..RUN
    },
];

#[test]
fn writes_normals_and_picks(rt: HostRuntime) {
    expect_cases(&rt, &CASES);
}
