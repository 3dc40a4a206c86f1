//! As many events as a journal may have.

ghost use Rattle.std.specs.Prelude.{◌≡◌, ◌<◌, All, IfOk, length, ⊤};
ghost use Rattle.terrain.specs.History.{IsLawfulEvent};

use crate::asserts::{expect, expect_made};
use crate::office::{Office, SMALLEST, event, seen};
use editors::{Letters, Note, Reader, write_beside};
use gates::NoGate;
use std::alloc::{AllocError, Global};
use std::process::Abort;
use std::sync::Wait;
use std::thread::Threads;
use terrain::{Event, MAX_EVENTS};

/// Has two editors send so many events in turns, each of which is taken before the next one is sent. Returns how many
/// were taken as they were sent.
fn send_in_turns<R: Wait>(rt: &R, office: &mut Office, count: u32) -> u32 {
    let mut same: u32 = 0;
    for number in 0..count {
        let editor = number % 2;
        office.send(rt, editor as usize, number);
        let expected = Note::Sent {
            editor: editor as u8,
            event: event(number),
        };
        if office.take(rt) == Some(expected) {
            same = same.saturating_add(1);
        }
    }
    same
}

/// Has an editor send so many events, and returns for how many there was a place.
fn send_all<R: Wait>(rt: &R, office: &mut Office, count: u32) -> u32 {
    let mut sent: u32 = 0;
    for number in 0..count {
        let (is_sent, _) = office.send(rt, 0, number);
        sent = sent.saturating_add(u32::from(is_sent));
    }
    sent
}

/// Has as many events sent as a journal may have, and some more. Asserts how many were taken as they were sent, how
/// many are each editor's, and for how many more there was a place.
fn fill<R: Wait + Abort>(rt: &R, office: &mut Office) {
    let same = send_in_turns(rt, office, MAX_EVENTS as u32);
    expect(rt, "taken as sent", same, 65_535);
    let owned = [office.owned_by(0), office.owned_by(1)];
    expect(rt, "owners", owned, [32_768, 32_767]);
    // The end notes of both editors have the other two places.
    expect(rt, "sent behind them", send_all(rt, office, 62), 62);
}

#[test]
fn takes_as_many_events_as_a_journal_may_have(rt: HostRuntime) {
    let mut office = Office::open(&rt, rt.alloc(), 2);
    fill(&rt, &mut office);
    let all = Letters {
        taken: 65_535,
        left: 62,
    };
    expect(&rt, "letters", office.close(&rt, rt.alloc()), all);
}

/// How many events each of two editors sends: in all as many as a journal may have.
const COUNTS: [u32; 2] = [32_768, 32_767];

/// Who counts the events of two editors, which see with a viewpoint each, that come in their order.
#[derive(Clone, Copy, Debug)]
struct Counter {
    next: [u32; 2],
}

impl Reader for Counter {
    ghost depth = { λ _. 0 };

    ghost has_read = { λ _ _ _. ⊤ };

    fn read(&mut self, event: Event) {
        for view in 0..2u8 {
            let next = &mut self.next[usize::from(view)];
            if event == seen(view, *next) {
                *next = next.saturating_add(1);
            }
        }
    }
}

/// Returns so many events of an editor, which see with this viewpoint. Out of memory is the only error.
fn list(alloc: Global, view: u8, count: u32) -> Result<Vec<Event>, AllocError>
    requires { view < 8 }
    ensures { IfOk result (λ list. All (IsLawfulEvent 0) list.items) }
{
    let mut list = Vec::with_capacity(alloc, count as usize)?;
    for number in 0..count {
        list.push(seen(view, number))?;
    }
    Ok(list)
}

/// Has two editors write these lists in threads of their own, and asserts how many events come of each in their order,
/// and how many owners there are.
fn write<R: Threads + Wait + Sync + Abort>(rt: &R, alloc: Global, lists: &[Vec<Event>])
    requires two { length lists.now ≡ 2 }
    requires lawful { All (λ list. All (IsLawfulEvent 0) list.items) lists.now }
{
    let reader = Counter { next: [0, 0] };
    let (owners, reader) = write_beside(rt, alloc, SMALLEST, lists, &NoGate, reader);
    let owners = expect_made(rt, owners);
    expect(rt, "read in order", reader.next, COUNTS);
    expect(rt, "owners", owners.len(), 65_535);
    drop(owners);
}

#[test]
fn writes_as_many_events_as_a_journal_may_have(rt: HostRuntime) {
    let lists = [
        expect_made(&rt, list(rt.alloc(), 0, COUNTS[0])),
        expect_made(&rt, list(rt.alloc(), 1, COUNTS[1])),
    ];
    write(&rt, rt.alloc(), &lists);
    drop(lists);
}
