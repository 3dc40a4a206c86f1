//! Runs with watchers: their line is the last one, and no other byte changes.

use crate::cases::{Case, RUN, expect_cases};
use crate::made::Bytes;
use crate::scripts::{EMPTY_SHOT, HEAD, MIDDLE, MIDDLE_SHOT, SHOT, STATS};
use terra_run::{LineFault, Status};

/// The ground of the third case, across leaves of two levels.
const GROUND_STATS: &str = "# stats leaves 15 triangles 3680 keys 2089\n";

static CASES: [Case; 9] = [
    Case {
        name: "two watchers",
        arguments: &["run", "--watch", "2", "--looks", "20"],
        input: Bytes::Lines(&[HEAD, MIDDLE, SHOT]),
        output: Bytes::Texts(&[MIDDLE_SHOT, "# watch looks 40 cracks 0 backward 0\n"]),
        ..RUN
    },
    Case {
        name: "a watcher",
        arguments: &["run", "--looks", "5", "--watch", "1"],
        input: Bytes::Lines(&[HEAD, MIDDLE, SHOT]),
        output: Bytes::Texts(&[MIDDLE_SHOT, "# watch looks 5 cracks 0 backward 0\n"]),
        ..RUN
    },
    Case {
        name: "a ground across leaves of two levels",
        arguments: &["run", "--watch", "2", "--looks", "20"],
        input: Bytes::Lines(&[
            r#"{"terra":1,"depth":2,"reach":1}"#,
            r#"{"do":"camera","at":[0,0,0]}"#,
            r#"{"do":"ground","mode":"fill","h":8}"#,
            STATS,
        ]),
        output: Bytes::Texts(&[GROUND_STATS, "# watch looks 40 cracks 0 backward 0\n"]),
        ..RUN
    },
    // Each watcher looks 20 times where the arguments don't say.
    Case {
        name: "eight watchers",
        arguments: &["run", "--watch", "8"],
        input: Bytes::Lines(&[HEAD, SHOT]),
        output: Bytes::Texts(&[EMPTY_SHOT, "# watch looks 160 cracks 0 backward 0\n"]),
        ..RUN
    },
    Case {
        name: "a thousand looks",
        arguments: &["run", "--watch", "1", "--looks", "1000"],
        input: Bytes::Lines(&[HEAD]),
        output: Bytes::Text("# watch looks 1000 cracks 0 backward 0\n"),
        ..RUN
    },
    // Without watchers there is no line.
    Case {
        name: "no watcher",
        arguments: &["run", "--watch", "0", "--looks", "5"],
        input: Bytes::Lines(&[HEAD, SHOT]),
        output: Bytes::Text(EMPTY_SHOT),
        ..RUN
    },
    // Nor where the script isn't carried out to its end.
    Case {
        name: "a line that is refused",
        arguments: &["run", "--watch", "2"],
        input: Bytes::Lines(&[HEAD, MIDDLE, SHOT, "fly"]),
        status: Status::BadScript {
            line: 4,
            fault: LineFault::NotJson,
        },
        output: Bytes::Text(MIDDLE_SHOT),
        note: "terra: line 4: not json\n",
        ..RUN
    },
    Case {
        name: "a shot whose write fails",
        arguments: &["run", "--watch", "2"],
        input: Bytes::Lines(&[HEAD, MIDDLE, SHOT]),
        failed_write: Some(1),
        status: Status::WriteFault,
        note: "terra: write fault\n",
        ..RUN
    },
    // The line is the only write.
    Case {
        name: "a line whose write fails",
        arguments: &["run", "--watch", "2"],
        input: Bytes::Lines(&[HEAD, MIDDLE]),
        failed_write: Some(1),
        status: Status::WriteFault,
        note: "terra: write fault\n",
        ..RUN
    },
];

#[test]
fn writes_the_line_of_its_watchers(rt: HostRuntime) {
    expect_cases(&rt, &CASES);
}
