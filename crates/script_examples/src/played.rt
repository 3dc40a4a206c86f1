//! What is sent, taken and left.

use crate::asserts::expect;
use crate::office::{Office, event};
use editors::{Letters, Note, PLACES};
use std::alloc::Global;
use std::process::Abort;
use std::sync::Wait;

/// What an office does: the editor with this number sends the event of a number, or the clerk takes a note.
#[derive(Clone, Copy, Debug)]
enum Act {
    Send(u8, u32),
    Take,
}

/// Sends as many events as there are places, and then one more. Asserts how many were sent, whether the last one came
/// back, and the note that is taken then.
fn fill<R: Wait + Abort>(rt: &R, office: &mut Office) {
    let mut sent: usize = 0;
    for number in 0..PLACES {
        let (is_sent, _) = office.send(rt, 0, number as u32);
        sent = sent.saturating_add(usize::from(is_sent));
    }
    expect(rt, "sent", sent, 64);
    let (_, is_back) = office.send(rt, 0, 1000);
    expect(rt, "given back", is_back, true);
    let first = Note::Sent {
        editor: 0,
        event: event(0),
    };
    expect(rt, "taken", office.take(rt), Some(first));
}

#[test]
fn gives_the_event_back_that_has_no_place(rt: HostRuntime) {
    let mut office = Office::open(&rt, rt.alloc(), 1);
    fill(&rt, &mut office);
    drop(office);
}

/// What is done in an office with three editors, how many events were taken of each of them then, and the letters.
type Play = (&'static [Act], [usize; 3], Letters);

static PLAYS: [Play; 4] = [
    (&[], [0, 0, 0], Letters { taken: 0, left: 0 }),
    (&[Act::Take], [0, 0, 0], Letters { taken: 0, left: 0 }),
    (
        &[Act::Send(0, 1), Act::Send(2, 2), Act::Send(0, 3)],
        [0, 0, 0],
        Letters { taken: 0, left: 3 },
    ),
    (
        &[
            Act::Send(2, 1),
            Act::Send(1, 2),
            Act::Take,
            Act::Send(1, 3),
            Act::Send(2, 4),
            Act::Take,
            Act::Take,
        ],
        [0, 2, 1],
        Letters { taken: 3, left: 1 },
    ),
];

/// Does what is asked in an office.
fn act_all<R: Wait>(rt: &R, office: &mut Office, acts: &[Act]) {
    for act in acts {
        match *act {
            Act::Send(editor, number) => {
                office.send(rt, usize::from(editor), number);
            }
            Act::Take => {
                office.take(rt);
            }
        }
    }
}

/// Asserts what comes of what is done in a new office, which is closed then.
fn expect_play<R: Wait + Abort>(rt: &R, alloc: Global, play: &Play) {
    let (acts, owned, letters) = play;
    let mut office = Office::open(rt, alloc, 3);
    act_all(rt, &mut office, acts);
    let found = [office.owned_by(0), office.owned_by(1), office.owned_by(2)];
    expect(rt, "owners", found, *owned);
    expect(rt, "letters", office.close(rt, alloc), *letters);
}

#[test]
fn counts_what_was_taken_and_left(rt: HostRuntime) {
    for play in &PLAYS {
        expect_play(&rt, rt.alloc(), play);
    }
}
