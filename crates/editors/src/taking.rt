//! What the clerk does: it takes notes.

ghost use Rattle.std.specs.Prelude.{◌≡◌, ◌≤◌, ◌++◌, [], ◌∷◌, IfSome, IsNone, MatchOption, length};
ghost use Rattle.terrain.specs.declared.event.TheConstants.{MAX_EVENTS};
ghost use Rattle.editors.specs.Mail.{IsClerkOf, IsNoteFor, WasEmpty, taken_by};
ghost use Rattle.editors.specs.Notes.{owners_in};

use crate::clerk::Clerk;
use crate::mail::Mail;
use crate::note::Note;
use crate::rule::Taking;
use crossbeam_utils::Backoff;
use std::sync::Wait;

/// How often one who waits for a note tries again before it blocks. That takes about as long as it takes to be woken: a
/// fraction of a millisecond.
const SPELL: u32 = 256;

/// Returns the note at the front of the queue, which the clerk takes. There is none only where the queue was empty at
/// one moment of the call, and then the clerk is as it was. The note's event is lawful in the mail's worlds. It takes
/// no memory.
pub fn take<R: Wait>(rt: &R, mail: &Mail, clerk: &mut Clerk) -> Option<Note>
    requires clerk { IsClerkOf mail.now clerk.old }
    requires few { length (owners_in (taken_by clerk.old)) ≤ MAX_EVENTS }
    ensures clerk { IsClerkOf mail.now clerk.new }
    ensures editors { clerk.new.editors ≡ clerk.old.editors }
    ensures taken { MatchOption result (taken_by clerk.new ≡ taken_by clerk.old)
        (λ note. taken_by clerk.new ≡ taken_by clerk.old ++ note ∷ []) }
    ensures note { IfSome result (IsNoteFor mail.now clerk.old.editors) }
    ensures empty { IsNone result → WasEmpty clerk.old }
{
    let note = mail.queue.pop_as::<Taking, R>(rt, &mut clerk.pass)?;
    mail.places.notify_one();
    clerk.keep(note);
    Some(note)
}

/// Returns the note at the front of the queue, which the clerk takes. Where there is none, it waits for one: for ever,
/// if all editors have ended. It takes no memory.
pub fn wait<R: Wait>(rt: &R, mail: &Mail, clerk: &mut Clerk) -> Note
    requires clerk { IsClerkOf mail.now clerk.old }
    requires few { length (owners_in (taken_by clerk.old)) ≤ MAX_EVENTS }
    ensures clerk { IsClerkOf mail.now clerk.new }
    ensures editors { clerk.new.editors ≡ clerk.old.editors }
    ensures taken { taken_by clerk.new ≡ taken_by clerk.old ++ result ∷ [] }
    ensures note { IsNoteFor mail.now clerk.old.editors result }
{
    let spell = Backoff::new();
    for _ in 0..SPELL {
        if let Some(note) = take(rt, mail, clerk) {
            return note;
        }
        spell.snooze();
    }
    wait_blocked(rt, mail, clerk)
}

/// Does what `wait` does, and blocks wherever there is no note.
fn wait_blocked<R: Wait>(rt: &R, mail: &Mail, clerk: &mut Clerk) -> Note
    requires clerk { IsClerkOf mail.now clerk.old }
    requires few { length (owners_in (taken_by clerk.old)) ≤ MAX_EVENTS }
    ensures clerk { IsClerkOf mail.now clerk.new }
    ensures editors { clerk.new.editors ≡ clerk.old.editors }
    ensures taken { taken_by clerk.new ≡ taken_by clerk.old ++ result ∷ [] }
    ensures note { IsNoteFor mail.now clerk.old.editors result }
{
    for _ in rt.forever() {
        if let Some(note) = take_or_block(rt, mail, clerk) {
            return note;
        }
    }
    unreachable!()
}

/// Returns the note at the front of the queue, which the clerk takes, if there is one, and else blocks until a note is
/// sent.
///
/// The contract is that of `take`, but for why there was none.
fn take_or_block<R: Wait>(rt: &R, mail: &Mail, clerk: &mut Clerk) -> Option<Note>
    requires clerk { IsClerkOf mail.now clerk.old }
    requires few { length (owners_in (taken_by clerk.old)) ≤ MAX_EVENTS }
    ensures clerk { IsClerkOf mail.now clerk.new }
    ensures editors { clerk.new.editors ≡ clerk.old.editors }
    ensures taken { MatchOption result (taken_by clerk.new ≡ taken_by clerk.old)
        (λ note. taken_by clerk.new ≡ taken_by clerk.old ++ note ∷ []) }
    ensures note { IfSome result (IsNoteFor mail.now clerk.old.editors) }
{
    let announced = mail.arrivals.prepare_wait();
    match take(rt, mail, clerk) {
        Some(note) => {
            drop(announced);
            Some(note)
        }
        None => {
            announced.wait(rt);
            None
        }
    }
}
