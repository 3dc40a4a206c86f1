//! Which arguments ask for a run.

use crate::asserts::expect;
use arguments::{Options, Request, request_in};

/// Arguments of the program, and the options that they give.
struct Row {
    arguments: &'static [&'static str],
    asked: Option<Options>,
}

static ROWS: [Row; 19] = [
    Row {
        arguments: &["run"],
        asked: Some(Options {
            workers: 0,
            watchers: 0,
            looks: 20,
        }),
    },
    Row {
        arguments: &["run", "--watch", "8", "--looks", "1000"],
        asked: Some(Options {
            workers: 0,
            watchers: 8,
            looks: 1000,
        }),
    },
    Row {
        arguments: &["run", "--looks", "5", "--watch", "1"],
        asked: Some(Options {
            workers: 0,
            watchers: 1,
            looks: 5,
        }),
    },
    Row {
        arguments: &["run", "--watch", "1", "--workers", "16"],
        asked: Some(Options {
            workers: 16,
            watchers: 1,
            looks: 20,
        }),
    },
    Row {
        arguments: &["run", "--workers", "0", "--looks", "5"],
        asked: Some(Options {
            workers: 0,
            watchers: 0,
            looks: 5,
        }),
    },
    Row {
        arguments: &[],
        asked: None,
    },
    Row {
        arguments: &["fly"],
        asked: None,
    },
    Row {
        arguments: &["--watch", "1"],
        asked: None,
    },
    Row {
        arguments: &["run", "--watch"],
        asked: None,
    },
    Row {
        arguments: &["run", "--watch=4"],
        asked: None,
    },
    Row {
        arguments: &["run", "--watch", "9"],
        asked: None,
    },
    Row {
        arguments: &["run", "--watch", "01"],
        asked: None,
    },
    Row {
        arguments: &["run", "--watch", "+1"],
        asked: None,
    },
    Row {
        arguments: &["run", "--workers", "17"],
        asked: None,
    },
    Row {
        arguments: &["run", "--workers", "1", "--workers", "1"],
        asked: None,
    },
    Row {
        arguments: &["run", "--looks", "0"],
        asked: None,
    },
    Row {
        arguments: &["run", "--looks", "1001"],
        asked: None,
    },
    Row {
        arguments: &["run", "--watch", "1", "--watch", "1"],
        asked: None,
    },
    Row {
        arguments: &["run", "--watch", "1", "--looks", "2", "3"],
        asked: None,
    },
];

/// Returns the options of the run that arguments ask for.
fn options_in(arguments: &[&str]) -> Option<Options> {
    match request_in(arguments) {
        Some(Request::Run(options)) => Some(options),
        _ => None,
    }
}

#[test]
fn reads_the_options_of_a_run(rt: HostRuntime) {
    for row in &ROWS {
        expect(&rt, row.arguments, options_in(row.arguments), row.asked);
    }
}
