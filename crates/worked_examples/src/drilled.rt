//! What a drill writes.

use crate::cases::{Case, RUN, expect_cases};
use crate::made::Bytes;
use crate::outcome::Call;
use crate::scripts::{HEAD, SHOT};

/// A line of stats after every eighth of 400 edits, and one at the end, from a program that was written apart from this
/// one.
const DRILL_7_400_3: &str = "\
# stats leaves 120 triangles 14742 keys 8340
# stats leaves 190 triangles 9228 keys 5206
# stats leaves 120 triangles 15228 keys 8636
# stats leaves 148 triangles 10334 keys 5828
# stats leaves 190 triangles 25072 keys 14214
# stats leaves 190 triangles 19210 keys 10861
# stats leaves 148 triangles 19682 keys 11129
# stats leaves 78 triangles 9574 keys 5427
# stats leaves 78 triangles 9602 keys 5443
# stats leaves 78 triangles 10151 keys 5770
# stats leaves 190 triangles 21716 keys 12243
# stats leaves 190 triangles 23616 keys 13358
# stats leaves 253 triangles 29544 keys 16687
# stats leaves 190 triangles 25055 keys 14169
# stats leaves 99 triangles 15132 keys 8603
# stats leaves 120 triangles 13654 keys 7686
# stats leaves 253 triangles 31182 keys 17577
# stats leaves 190 triangles 29108 keys 16430
# stats leaves 148 triangles 23884 keys 13508
# stats leaves 190 triangles 18826 keys 10552
# stats leaves 148 triangles 28170 keys 15838
# stats leaves 190 triangles 29096 keys 16365
# stats leaves 148 triangles 33086 keys 18565
# stats leaves 120 triangles 25730 keys 14460
# stats leaves 78 triangles 7426 keys 4178
# stats leaves 253 triangles 39132 keys 22012
# stats leaves 190 triangles 34718 keys 19536
# stats leaves 190 triangles 36382 keys 20534
# stats leaves 148 triangles 27584 keys 15499
# stats leaves 148 triangles 35514 keys 19955
# stats leaves 253 triangles 41754 keys 23566
# stats leaves 190 triangles 24610 keys 13874
# stats leaves 253 triangles 46942 keys 26534
# stats leaves 120 triangles 30112 keys 16954
# stats leaves 64 triangles 17654 keys 10029
# stats leaves 190 triangles 27828 keys 15651
# stats leaves 148 triangles 36024 keys 20222
# stats leaves 148 triangles 37540 keys 21086
# stats leaves 148 triangles 40224 keys 22614
# stats leaves 148 triangles 36569 keys 20528
# stats leaves 148 triangles 36681 keys 20584
# stats leaves 148 triangles 36705 keys 20602
# stats leaves 148 triangles 35390 keys 19944
# stats leaves 148 triangles 38478 keys 21702
# stats leaves 148 triangles 31122 keys 17490
# stats leaves 190 triangles 46622 keys 26276
# stats leaves 190 triangles 46946 keys 26447
# stats leaves 190 triangles 40652 keys 22794
# stats leaves 190 triangles 42957 keys 24148
# stats leaves 190 triangles 41230 keys 23118
# stats leaves 190 triangles 41230 keys 23118
";

const DRILL: Case = Case {
    name: "a drill",
    call: Call::Program,
    arguments: &["drill", "7", "400", "3"],
    input: Bytes::Lines(&[HEAD, SHOT]),
    output: Bytes::Text(DRILL_7_400_3),
    ..RUN
};

static TWICE: [Case; 2] = [DRILL, DRILL];

#[test]
fn writes_the_same_lines_at_each_run(rt: HostRuntime) {
    expect_cases(&rt, &TWICE);
}
