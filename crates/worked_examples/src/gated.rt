//! Runs whose gate holds threads up, or counts what they are told to do: workers and watchers work beside the lines,
//! and workers get just what changed.

use crate::levels::HILLS_LINES;
use crate::made::{Bytes, Repeat};
use crate::outcome::{TestRuntime, expect_bytes, expect_status, sink};
use crate::scripts::{HEAD, MIDDLE, SHOT, STATS};
use gates::MeshGate;
use std::process::Abort;
use std::sync::atomic::{AtomicU32, Ordering};
use std::thread::yield_now;
use terra_io::{Failed, MemSink, PlainSource, Sink};
use terra_run::{Status, run};

/// For so many turns a worker is held up at most, of a run that is tried again.
const WORKER_TURNS: u32 = 1_000_000;

/// For so many turns an editor is held up at most.
const EDITOR_TURNS: u32 = 10_000_000;

/// For so many turns a watcher or the sink is held up at most.
const LOOK_TURNS: u32 = 1_000_000_000;

/// Takes turns until a counter has this number, and returns whether it does before so many turns are taken.
fn waits_for(counter: &AtomicU32, number: u32, turns: u32) -> bool {
    for _ in 0..turns {
        if counter.load(Ordering::SeqCst) >= number {
            return true;
        }
        yield_now();
    }
    false
}

/// Runs what the input has by these arguments, at a gate and into a sink, and returns how that ended.
fn run_at<G: MeshGate, K: Sink>(
    rt: &impl TestRuntime,
    arguments: &[&str],
    input: &Bytes,
    output: &mut K,
    gate: &G,
) -> Status {
    let mut notes = sink(rt, rt.alloc(), None);
    let mut source = PlainSource::new(input.make(rt, rt.alloc()), 4096);
    let status = run(
        rt,
        rt.alloc(),
        arguments,
        &mut source,
        output,
        &mut notes,
        gate,
    );
    drop((notes, source));
    status
}

/// Runs what the input has by these arguments, at a gate, asserts that this ends well, and returns what is written.
fn output_at<G: MeshGate>(
    rt: &impl TestRuntime,
    case: &str,
    arguments: &[&str],
    input: &Bytes,
    gate: &G,
) -> MemSink {
    let mut output = sink(rt, rt.alloc(), None);
    let status = run_at(rt, arguments, input, &mut output, gate);
    expect_status(rt, case, status, Status::Done);
    output
}

/// Asserts a count.
fn expect_count(rt: &impl Abort, case: &str, found: &AtomicU32, wanted: u32) {
    assert_eq!(rt; found.load(Ordering::SeqCst), wanted, "{case}");
}

/// A gate that holds the first job up until another one is begun, and counts all.
#[derive(Drop)]
struct Jobs {
    /// For so many turns it holds it up at most.
    turns: u32,
    begun: AtomicU32,
    /// How often a limit was met.
    late: AtomicU32,
}

impl Jobs {
    fn new(turns: u32) -> Jobs {
        Jobs {
            turns,
            begun: AtomicU32::new(0),
            late: AtomicU32::new(0),
        }
    }
}

impl MeshGate for Jobs {
    fn pass(&self, ticket: u64) {
        let earlier = self.begun.fetch_add(1, Ordering::SeqCst);
        if self.turns > 0 && earlier == 0 && !waits_for(&self.begun, 2, self.turns) {
            self.late.fetch_add(1, Ordering::SeqCst);
        }
    }

    fn look(&self, watcher: u8, events: u32) {}
}

/// Runs a script by two workers, and returns whether a second job was begun while the first one was held up.
fn works_beside(rt: &impl TestRuntime) -> bool {
    let jobs = Jobs::new(WORKER_TURNS);
    let arguments = ["run", "--workers", "2"];
    let input = Bytes::Lines(&HILLS_LINES);
    drop(output_at(rt, "two workers", &arguments, &input, &jobs));
    let is_beside = jobs.late.load(Ordering::SeqCst) == 0 && jobs.begun.load(Ordering::SeqCst) >= 2;
    drop(jobs);
    is_beside
}

/// A serial run never begins the second job while the first is held up, and one without workers begins none. Where the
/// engine has meshed all leaves itself before the second worker wakes, that gets no job, so the run is tried again.
#[test]
fn two_workers_work_at_the_same_time(rt: HostRuntime) {
    let mut beside = false;
    for _ in 0..40 {
        beside = beside || works_beside(&rt);
    }
    assert!(rt; beside);
}

/// The grounds of two editors, in both orders.
static TWO_EDITORS: [&str; 2] = [
    "# from 0\n# from 1\n# stats leaves 1 triangles 512 keys 289\n",
    "# from 1\n# from 0\n# stats leaves 1 triangles 512 keys 289\n",
];

/// Asserts that the grounds of two editors were written, in one order or the other.
fn expect_grounds(rt: &impl Abort, written: &[u8]) {
    let [first, second] = TWO_EDITORS;
    assert!(rt; written == first.as_bytes() || written == second.as_bytes());
}

/// Asserts that the second of two lists was sent while the first one was held up.
fn expect_lists_beside(rt: &impl TestRuntime, lists: &Jobs) {
    let arguments = ["edit", "0", "2", "1", "0"];
    drop(output_at(rt, "two editors", &arguments, &Bytes::Text(""), lists));
    expect_count(rt, "late lists", &lists.late, 0);
    expect_count(rt, "lists", &lists.begun, 2);
}

/// Asserts that two editors without an edit write a ground each.
fn expect_two_grounds(rt: &impl TestRuntime, lists: &Jobs) {
    let arguments = ["edit", "0", "2", "0", "0"];
    let grounds = output_at(rt, "two grounds", &arguments, &Bytes::Text(""), lists);
    expect_grounds(rt, grounds.bytes());
    drop(grounds);
}

/// Editors that send one after another never begin the second list while the first is held up.
#[test]
fn two_editors_edit_at_the_same_time(rt: HostRuntime) {
    let lists = Jobs::new(EDITOR_TURNS);
    expect_lists_beside(&rt, &lists);
    expect_two_grounds(&rt, &lists);
    drop(lists);
}

/// The camera touches 15 leaves, and each fill the eight finest ones.
const MOST_JOBS: u32 = 15 + 10 * 8;

/// A script with 211 lines of stats, of which the first is before ten fills.
static STATS_OF_FILLS: Bytes = Bytes::Repeated(&[
    Repeat {
        count: 1,
        lines: &[
            r#"{"terra":1,"depth":2,"reach":1}"#,
            r#"{"do":"camera","at":[0,0,0]}"#,
            STATS,
        ],
    },
    Repeat {
        count: 10,
        lines: &[MIDDLE, STATS],
    },
    Repeat {
        count: 200,
        lines: &[STATS],
    },
]);

static LINES_OF_STATS: Bytes = Bytes::Repeated(&[
    Repeat {
        count: 1,
        lines: &["# stats leaves 15 triangles 0 keys 0"],
    },
    Repeat {
        count: 210,
        lines: &["# stats leaves 15 triangles 8 keys 6"],
    },
]);

/// Asserts that these bytes are the lines of stats.
fn expect_stats(rt: &impl TestRuntime, output: &MemSink) {
    let lines = LINES_OF_STATS.make(rt, rt.alloc());
    expect_bytes(rt, "a worker", output, &lines);
    drop(lines);
}

/// A run that hands out all leaves at each of its 211 lines of stats makes 3,165 jobs.
#[test]
fn workers_get_only_what_changed(rt: HostRuntime) {
    let jobs = Jobs::new(0);
    let arguments = ["run", "--workers", "1"];
    let output = output_at(&rt, "a worker", &arguments, &STATS_OF_FILLS, &jobs);
    expect_stats(&rt, &output);
    assert!(rt; jobs.begun.load(Ordering::SeqCst) <= MOST_JOBS);
    drop((output, jobs));
}

/// What one watcher tells the gate.
#[derive(Drop)]
struct Looks {
    made: AtomicU32,
    /// The events of its last look.
    events: AtomicU32,
}

impl Looks {
    fn new() -> Looks {
        Looks {
            made: AtomicU32::new(0),
            events: AtomicU32::new(0),
        }
    }
}

/// A gate that holds the first look of each of two watchers up until the sink has taken something.
#[derive(Drop)]
struct Watch {
    first: Looks,
    second: Looks,
    /// How many writes the sink has taken.
    written: AtomicU32,
    /// How often a limit was met, or something was told that may not be.
    wrong: AtomicU32,
}

impl Watch {
    fn new() -> Watch {
        Watch {
            first: Looks::new(),
            second: Looks::new(),
            written: AtomicU32::new(0),
            wrong: AtomicU32::new(0),
        }
    }

    /// Counts what is wrong, if it is.
    fn expect(&self, is_right: bool) {
        if !is_right {
            self.wrong.fetch_add(1, Ordering::SeqCst);
        }
    }
}

impl MeshGate for Watch {
    fn pass(&self, ticket: u64) {}

    fn look(&self, watcher: u8, events: u32) {
        self.expect(watcher < 2);
        let looks = if watcher == 0 {
            &self.first
        } else {
            &self.second
        };
        self.expect(looks.events.swap(events, Ordering::SeqCst) <= events);
        if looks.made.fetch_add(1, Ordering::SeqCst) == 0 {
            self.expect(waits_for(&self.written, 1, LOOK_TURNS));
        }
    }
}

/// A sink that holds its first write up until each of two watchers has looked.
#[derive(Drop)]
struct HeldSink<'a, K> {
    sink: K,
    watch: &'a Watch,
}

impl<K: Sink> Sink for HeldSink<'_, K> {
    ghost state = { λ held. K.state held.sink };

    fn write(&mut self, bytes: &[u8]) -> Result<usize, Failed> {
        if self.watch.written.load(Ordering::SeqCst) == 0 {
            let first = waits_for(&self.watch.first.made, 1, LOOK_TURNS);
            let second = waits_for(&self.watch.second.made, 1, LOOK_TURNS);
            self.watch.expect(first && second);
        }
        let count = self.sink.write(bytes)?;
        self.watch.written.fetch_add(1, Ordering::SeqCst);
        Ok(count)
    }
}

/// Asserts that a watcher looked 20 times, and saw the one event at last.
fn expect_looks(rt: &impl Abort, case: &str, looks: &Looks) {
    expect_count(rt, case, &looks.made, 20);
    expect_count(rt, case, &looks.events, 1);
}

/// Asserts what two watchers tell of a run whose output is held up until both have looked.
fn expect_watched(rt: &impl TestRuntime, watch: &Watch) {
    let mut output = HeldSink {
        sink: sink(rt, rt.alloc(), None),
        watch,
    };
    let arguments = ["run", "--watch", "2", "--looks", "20"];
    let input = Bytes::Lines(&[HEAD, MIDDLE, SHOT]);
    let status = run_at(rt, &arguments, &input, &mut output, watch);
    drop(output);
    expect_status(rt, "two watchers", status, Status::Done);
    expect_count(rt, "what is wrong", &watch.wrong, 0);
}

/// A run without watchers tells of no look, and one whose looks are made by the engine meets a limit.
#[test]
fn watchers_look_while_the_output_is_written(rt: HostRuntime) {
    let watch = Watch::new();
    expect_watched(&rt, &watch);
    expect_looks(&rt, "the first", &watch.first);
    expect_looks(&rt, "the second", &watch.second);
    drop(watch);
}
