//! Cases: runs from memory into memory, each with all that comes of it.
//!
//! A module of examples has a table of them, of which most differ from `RUN` in little, and a test that drives it.

use crate::made::Bytes;
use crate::outcome::{Call, Ended, Sinks, TestRuntime, calls, expect_bytes, expect_status, sink};
use std::alloc::Global;
use std::process::Abort;
use terra_io::MemSource;
use terra_run::Status;

/// A run from memory into memory, and what comes of it.
#[derive(Clone, Copy)]
pub struct Case {
    /// What a failed assertion tells.
    pub name: &'static str,
    pub call: Call,
    pub arguments: &'static [&'static str],
    pub input: Bytes,
    /// How many bytes the source gives in a read at most.
    pub given: usize,
    /// How many bytes the output takes in a write at most.
    pub taken: usize,
    /// The number, from 1, of the read that fails, if one does.
    pub failed_read: Option<u32>,
    /// The number, from 1, of the write of the output that fails, if one does.
    pub failed_write: Option<u32>,
    /// The number, from 1, of the write of the notes that fails, if one does.
    pub failed_note: Option<u32>,
    pub status: Status,
    pub output: Bytes,
    pub note: &'static str,
}

/// An empty input by a run that ends well, where no call fails.
pub const RUN: Case = Case {
    name: "a run",
    call: Call::Run,
    arguments: &["run"],
    input: Bytes::Text(""),
    given: usize::MAX,
    taken: usize::MAX,
    failed_read: None,
    failed_write: None,
    failed_note: None,
    status: Status::Done,
    output: Bytes::Text(""),
    note: "",
};

impl Case {
    /// Returns a source that has the input.
    pub fn source(&self, rt: &impl Abort, alloc: Global) -> MemSource {
        let fails = calls(rt, alloc, self.failed_read);
        let bytes = self.input.make(rt, alloc);
        MemSource::new(bytes, self.given.max(1), fails)
    }

    fn sinks(&self, rt: &impl Abort, alloc: Global) -> Sinks {
        let notes = sink(rt, alloc, self.failed_note);
        let output = sink(rt, alloc, self.failed_write).with_piece(self.taken.max(1));
        Sinks { output, notes }
    }

    /// Makes the run over a source, and returns how it ended.
    pub fn run_over(&self, rt: &impl TestRuntime, source: &mut MemSource) -> Ended {
        let mut sinks = self.sinks(rt, rt.alloc());
        let status = self.call.make(rt, self.arguments, source, &mut sinks);
        Ended { status, sinks }
    }

    /// Makes the run, and returns how it ended.
    pub fn run(&self, rt: &impl TestRuntime) -> Ended {
        let mut source = self.source(rt, rt.alloc());
        let ended = self.run_over(rt, &mut source);
        drop(source);
        ended
    }

    /// Makes the run over a source, and asserts what comes of it.
    pub fn expect_over(&self, rt: &impl TestRuntime, source: &mut MemSource) {
        let ended = self.run_over(rt, source);
        self.expect_ended(rt, &ended);
        drop(ended);
    }

    /// Asserts how the run ended, and what it wrote.
    fn expect_ended(&self, rt: &impl TestRuntime, ended: &Ended) {
        expect_status(rt, self.name, ended.status, self.status);
        let output = self.output.make(rt, rt.alloc());
        expect_bytes(rt, self.name, &ended.sinks.output, &output);
        drop(output);
        expect_bytes(rt, self.name, &ended.sinks.notes, self.note.as_bytes());
    }

    /// Makes the run, and asserts what comes of it.
    fn expect(&self, rt: &impl TestRuntime) {
        let mut source = self.source(rt, rt.alloc());
        self.expect_over(rt, &mut source);
        drop(source);
    }
}

/// Makes the run of each case, and asserts what comes of it. A failed assertion names the case.
pub fn expect_cases(rt: &impl TestRuntime, cases: &[Case]) {
    for case in cases {
        case.expect(rt);
    }
}
