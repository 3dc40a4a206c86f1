//! What an editor does: it sends events, and then its end note.
//!
//! Where the queue is full, one who waits for a place tries again for a short spell, and then it blocks. It announces
//! the wait before it tries for the last time, and the clerk looks for waiters after it took a note. So either a place
//! is found, or the waiter is, and wakes. Nothing of that is proved.

ghost use Rattle.std.specs.Prelude.{◌≡◌, ◌++◌, [], ◌∷◌, false, All, IfErr, IfOk, OnErr, OnOk, if◌then◌else◌};
ghost use Rattle.crossbeam_queue.specs.Fifo.{Held};
ghost use Rattle.crossbeam_queue.specs.Passes.{IsPassOf, ruled_capacity, view};
ghost use Rattle.terrain.specs.History.{IsLawfulEvent};
ghost use Rattle.editors.specs.Mail.{IsEditorOf, IsEndedOf, WasFull, sent_by, sent_in_all_by};
ghost use Rattle.editors.specs.Rule.{EndsWith};
ghost use Rattle.editors.specs.Sending.{MaySend};
ghost use Rattle.editors.specs.Shown.{with_note};

use crate::editor::{Editor, Ended};
use crate::mail::Mail;
use crate::note::Note;
use crate::rule::Sending;
use crate::shown::Shown;
use crossbeam_queue::Pass;
use crossbeam_utils::Backoff;
use std::sync::Wait;
use std::thread;
use terrain::Event;

/// How often one who waits for a place tries again before it blocks. That takes about as long as it takes to be woken:
/// a fraction of a millisecond.
const SPELL: u32 = 256;

/// Sends an event. The error gives the event back, unchanged, and nothing is sent; it comes only where the queue was
/// full at one moment of the call. It takes no memory.
pub fn send<R: Wait>(rt: &R, mail: &Mail, editor: &mut Editor, event: Event) -> Result<(), Event>
    requires editor { IsEditorOf mail.now editor.old }
    requires lawful { IsLawfulEvent mail.now.settings.depth event }
    ensures editor { IsEditorOf mail.now editor.new }
    ensures number { editor.new.number ≡ editor.old.number }
    ensures sent { OnOk result (sent_by editor.new ≡ sent_by editor.old ++ event ∷ []) }
    ensures back { IfErr result (λ back. back ≡ event) }
    ensures unsent { OnErr result (sent_by editor.new ≡ sent_by editor.old) }
    ensures full { OnErr result (WasFull editor.old) }
{
    let note = Note::Sent {
        editor: editor.number,
        event,
    };
    if push(rt, mail, &mut editor.pass, note) {
        Ok(())
    } else {
        Err(event)
    }
}

/// Sends an event. Where the queue is full, it waits for a place. It takes no memory.
pub fn post<R: Wait>(rt: &R, mail: &Mail, editor: &mut Editor, event: Event)
    requires editor { IsEditorOf mail.now editor.old }
    requires lawful { IsLawfulEvent mail.now.settings.depth event }
    ensures editor { IsEditorOf mail.now editor.new }
    ensures number { editor.new.number ≡ editor.old.number }
    ensures sent { sent_by editor.new ≡ sent_by editor.old ++ event ∷ [] }
{
    let note = Note::Sent {
        editor: editor.number,
        event,
    };
    put(rt, mail, &mut editor.pass, note);
}

/// Sends some events, one after another. Where the queue is full, it waits for a place. It takes no memory.
pub fn post_all<R: Wait>(rt: &R, mail: &Mail, editor: &mut Editor, events: &[Event])
    requires editor { IsEditorOf mail.now editor.old }
    requires lawful { All (IsLawfulEvent mail.now.settings.depth) events.now }
    ensures editor { IsEditorOf mail.now editor.new }
    ensures number { editor.new.number ≡ editor.old.number }
    ensures sent { sent_by editor.new ≡ sent_by editor.old ++ events.now }
{
    for event in events {
        post(rt, mail, editor, *event);
    }
}

/// Sends the end note of an editor, which sends nothing more. Where the queue is full, it waits for a place. It takes
/// no memory.
pub fn end<R: Wait>(rt: &R, mail: &Mail, editor: Editor) -> Ended
    requires { IsEditorOf mail.now editor }
    ensures ended { IsEndedOf mail.now result }
    ensures number { result.number ≡ editor.number }
    ensures events { sent_in_all_by result ≡ sent_by editor }
{
    let Editor { mut pass, number } = editor;
    put(rt, mail, &mut pass, Note::Ended { editor: number });
    Ended { pass, number }
}

/// Sends the end note of an editor, which sends nothing more. The error gives the editor back, which has sent no more;
/// it comes only where the queue was full at one moment of the call. It takes no memory.
pub fn try_end<R: Wait>(rt: &R, mail: &Mail, editor: Editor) -> Result<Ended, Editor>
    requires { IsEditorOf mail.now editor }
    ensures ended { IfOk result (λ ended. IsEndedOf mail.now ended
        × (ended.number ≡ editor.number) × (sent_in_all_by ended ≡ sent_by editor)) }
    ensures back { IfErr result (λ back. IsEditorOf mail.now back
        × (back.number ≡ editor.number) × (sent_by back ≡ sent_by editor)) }
    ensures full { OnErr result (WasFull editor) }
{
    let Editor { mut pass, number } = editor;
    if push(rt, mail, &mut pass, Note::Ended { editor: number }) {
        Ok(Ended { pass, number })
    } else {
        Err(Editor { pass, number })
    }
}

/// Pushes a note at the back of the queue, and returns whether there was a place for it.
fn push<R: Wait>(rt: &R, mail: &Mail, pass: &mut Pass<Note, Shown>, note: Note) -> bool
    requires pass { IsPassOf mail.now.queue pass.old }
    requires may { MaySend (view pass.old) note }
    ensures pass { IsPassOf mail.now.queue pass.new }
    ensures shown { view pass.new
        ≡ (if result then with_note (view pass.old) note else view pass.old) }
    ensures full { result ≡ false
        → Held (ruled_capacity mail.now.queue) (EndsWith (view pass.old)) }
{
    match mail.queue.push_as::<Sending, R>(rt, pass, note) {
        Ok(()) => {
            mail.arrivals.notify_one();
            true
        }
        Err(_) => false,
    }
}

/// Pushes a note at the back of the queue. Where the queue is full, it waits for a place.
fn put<R: Wait>(rt: &R, mail: &Mail, pass: &mut Pass<Note, Shown>, note: Note)
    requires pass { IsPassOf mail.now.queue pass.old }
    requires may { MaySend (view pass.old) note }
    ensures pass { IsPassOf mail.now.queue pass.new }
    ensures shown { view pass.new ≡ with_note (view pass.old) note }
{
    let spell = Backoff::new();
    for _ in 0..SPELL {
        if push(rt, mail, pass, note) {
            return;
        }
        spell.snooze();
    }
    put_blocked(rt, mail, pass, note);
}

/// Does what `put` does, and blocks wherever there is no place.
fn put_blocked<R: Wait>(rt: &R, mail: &Mail, pass: &mut Pass<Note, Shown>, note: Note)
    requires pass { IsPassOf mail.now.queue pass.old }
    requires may { MaySend (view pass.old) note }
    ensures pass { IsPassOf mail.now.queue pass.new }
    ensures shown { view pass.new ≡ with_note (view pass.old) note }
{
    for _ in rt.forever() {
        if push_or_block(rt, mail, pass, note) {
            return;
        }
    }
    unreachable!()
}

/// Pushes a note at the back of the queue, and returns whether there was a place for it. Where there was none, it
/// blocks until a note is taken.
///
/// The contract is that of `push`, but for why there was none.
fn push_or_block<R: Wait>(rt: &R, mail: &Mail, pass: &mut Pass<Note, Shown>, note: Note) -> bool
    requires pass { IsPassOf mail.now.queue pass.old }
    requires may { MaySend (view pass.old) note }
    ensures pass { IsPassOf mail.now.queue pass.new }
    ensures shown { view pass.new
        ≡ (if result then with_note (view pass.old) note else view pass.old) }
{
    let announced = mail.places.prepare_wait();
    let is_sent = push(rt, mail, pass, note);
    if is_sent {
        drop(announced);
    } else {
        announced.wait(rt);
    }
    is_sent
}
