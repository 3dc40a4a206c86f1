//! Statuses: their codes and their notes.

use crate::cases::{Case, RUN, expect_cases};
use crate::outcome::{expect_bytes, sink};
use std::alloc::AllocGlobal;
use std::cell::Cell;
use std::fmt::Display;
use std::io::{self, Eprint};
use std::process::{Abort, ExitCode, Termination};
use terra_run::{LineFault, Status, WireFault, offer_note};

const NO_HEAD: Status = Status::BadScript {
    line: 1,
    fault: LineFault::MissingMember,
};

const NO_COMMAND: Status = Status::BadScript {
    line: 20,
    fault: LineFault::UnknownCommand,
};

/// Each status, with its code and its note.
static STATUSES: [(Status, u8, &str); 12] = [
    (Status::Done, 0, ""),
    (Status::NoMemory, 1, "terra: no memory\n"),
    (Status::BadWords, 2, "terra: bad words\n"),
    (NO_HEAD, 3, "terra: line 1: missing member\n"),
    (NO_COMMAND, 3, "terra: line 20: unknown command\n"),
    (Status::ReadFault, 4, "terra: read fault\n"),
    (Status::WriteFault, 5, "terra: write fault\n"),
    (
        Status::JournalFull { line: 65537 },
        6,
        "terra: line 65537: journal full\n",
    ),
    (Status::InputLimit, 7, "terra: input limit\n"),
    (
        Status::NothingToUndo {
            line: 4_294_967_295,
        },
        9,
        "terra: line 4294967295: nothing to undo\n",
    ),
    (
        Status::BadWire {
            at: 18_446_744_073_709_551_615,
            fault: WireFault::BadTriangle,
        },
        10,
        "terra: byte 18446744073709551615: wire fault 9\n",
    ),
    (Status::CutWire, 11, "terra: wire cut\n"),
];

/// A standard error that counts how often something is printed.
#[derive(Drop)]
struct Prints(Cell<u32>);

impl Eprint for Prints {
    fn eprint<D: Display + Drop>(&self, _value: D) -> io::Result<()> {
        self.0.set(self.0.get().saturating_add(1));
        Ok(())
    }

    fn eprintln<D: Display + Drop>(&self, value: D) -> io::Result<()> {
        self.eprint(value)
    }
}

/// Each status offers its one note, and the program's end prints nothing more.
fn has_a_code_and_a_note_for_each_status(rt: &(impl Abort + AllocGlobal)) {
    let prints = Prints(Cell::new(0));
    for (status, code, note) in &STATUSES {
        expect_note(rt, status, note);
        expect_code(rt, *status, *code, &prints);
    }
    assert_eq!(rt; prints.0.get(), 0, "prints");
    drop(prints);
}

/// Asserts the note that a status offers.
fn expect_note(rt: &(impl Abort + AllocGlobal), status: &Status, note: &str) {
    let mut notes = sink(rt, rt.alloc(), None);
    offer_note(status, &mut notes);
    expect_bytes(rt, note, &notes, note.as_bytes());
    drop(notes);
}

/// Asserts the code of a status, by itself and at the program's end.
fn expect_code(rt: &impl Abort, status: Status, code: u8, prints: &Prints) {
    let exit = status.report(prints);
    assert!(rt;
        status.code() == code && exit == ExitCode::from(code),
        "{status:?}"
    );
}

/// Runs over no input whose note fails: they end as others do.
static FAILED_NOTES: [Case; 2] = [
    Case {
        name: "no head",
        given: 1,
        failed_note: Some(1),
        status: NO_HEAD,
        ..RUN
    },
    Case {
        name: "another name",
        arguments: &["fly"],
        given: 1,
        failed_note: Some(1),
        status: Status::BadWords,
        ..RUN
    },
];

#[test]
fn has_a_status_for_each_end(rt: HostRuntime) {
    has_a_code_and_a_note_for_each_status(&rt);
    expect_cases(&rt, &FAILED_NOTES);
}
