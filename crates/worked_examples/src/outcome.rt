//! Runs from memory into memory, and what comes of them.

use gates::NoGate;
use std::alloc::{AllocGlobal, Global};
use std::fmt::Debug;
use std::process::Abort;
use std::sync::Wait;
use std::thread::Threads;
use terra_io::{MemSink, Source};
use terra_run::{Status, program, run};

/// More bytes than any output of these examples has.
const ROOM: usize = 1 << 21;

/// The runtime of a test: it asserts, allocates, starts threads and waits for them.
pub trait TestRuntime: Abort + AllocGlobal + Threads + Wait + Sync {}

impl<R: Abort + AllocGlobal + Threads + Wait + Sync> TestRuntime for R {}

/// What a run writes to.
#[derive(Drop)]
pub struct Sinks {
    pub output: MemSink,
    pub notes: MemSink,
}

/// A run that ended: its status, and the sinks with what it wrote.
#[derive(Drop)]
pub struct Ended {
    pub status: Status,
    pub sinks: Sinks,
}

/// Which call makes a run.
#[derive(Clone, Copy)]
pub enum Call {
    Run,
    Program,
}

impl Call {
    /// Runs what the source has, by these arguments, into these sinks, and returns how that ended.
    pub fn make<S: Source>(
        self,
        rt: &impl TestRuntime,
        arguments: &[&str],
        source: &mut S,
        sinks: &mut Sinks,
    ) -> Status {
        match self {
            Call::Run => make_run(rt, arguments, source, sinks),
            Call::Program => make_program(rt, arguments, source, sinks),
        }
    }
}

fn make_run<S: Source>(
    rt: &impl TestRuntime,
    arguments: &[&str],
    source: &mut S,
    sinks: &mut Sinks,
) -> Status {
    let Sinks { output, notes } = sinks;
    run(rt, rt.alloc(), arguments, source, output, notes, &NoGate)
}

fn make_program<S: Source>(
    rt: &impl TestRuntime,
    arguments: &[&str],
    source: &mut S,
    sinks: &mut Sinks,
) -> Status {
    let Sinks { output, notes } = sinks;
    program(rt, rt.alloc(), arguments, source, output, notes, &NoGate)
}

/// Returns what a call made. A failed assertion names the error, which is mostly that memory ran out.
///
/// A `?` is a way out of a function, at which all is dropped that the function owns, and each is proved; a call of this
/// is none.
pub fn expect_made<T, E: Debug>(rt: &impl Abort, made: Result<T, E>) -> T {
    made.expect(rt, "nothing was made")
}

/// Returns the numbers of the calls that fail: the one of this number, from 1, if one does.
pub fn calls(rt: &impl Abort, alloc: Global, fails: Option<u32>) -> Vec<u32> {
    match fails {
        Some(number) => expect_made(rt, [number].to_vec(alloc)),
        None => Vec::new(alloc),
    }
}

/// Returns a sink in memory of which the call of this number, from 1, fails, if one does.
pub fn sink(rt: &impl Abort, alloc: Global, fails: Option<u32>) -> MemSink {
    let fails = calls(rt, alloc, fails);
    expect_made(rt, MemSink::new(alloc, ROOM, fails))
}

/// Asserts how a run ended. A failed assertion names the case.
pub fn expect_status(rt: &impl Abort, case: &str, found: Status, wanted: Status) {
    assert_eq!(rt; found, wanted, "{case}");
}

/// Asserts what a sink has. A failed assertion names the case.
pub fn expect_bytes(rt: &impl Abort, case: &str, found: &MemSink, wanted: &[u8]) {
    assert_eq!(rt; found.bytes(), wanted, "{case}");
}
