//! Editors in threads of their own, beside their clerk.
//!
//! `write_beside` opens a mail, and has each editor send a list in a thread of its own, while the calling thread takes
//! their notes and has a reader read the events. An editor whose thread can't be started sends its list on the calling
//! thread, which takes notes wherever the queue is full (`Desk::send_all`). Each thread is joined once all editors have
//! ended. The mail is closed then, and tells that each list came whole and in order.

ghost use Rattle.std.specs.Prelude.{◌≡◌, ℕ, ◌<◌, ◌≤◌, [], ◌∷◌, ◌++◌, true, All, IfErr, IfOk, List, OnErr, length, map, vec_capacity, vec_len};
ghost use Rattle.std.specs.Thread.{IsSync};
ghost use Rattle.lattice.specs.Settings.{IsSettings};
ghost use Rattle.terrain.specs.History.{IsLawfulEvent};
ghost use Rattle.terrain.specs.declared.event.Event.{Event as EventOf};
ghost use Rattle.editors.specs.Beside.{AreOwners, AreToSend, HasReadAll, HaveSentLists, IsDesk, IsSent, journal_of, list_of};
ghost use Rattle.editors.specs.Mail.{IsEditorOf, IsEndedOf, sent_by, sent_in_all_by, taken_by};
ghost use Rattle.editors.specs.Notes.{has_end};

use crate::clerk::Clerk;
use crate::closing::close_for_owners;
use crate::editor::{Editor, Ended};
use crate::mail::{MAX_EDITORS, Mail};
use crate::note::Note;
use crate::sending::{end, post_all, send, try_end};
use crate::taking::wait;
use gates::MeshGate;
use lattice::Settings;
use std::alloc::{AllocError, Global};
use std::sync::Wait;
use std::sync::atomic::{AtomicU64, Ordering};
use std::thread;
use std::thread::{Promise, PromisedHandle, Scope, Threads};
use terrain::{Event, MAX_EVENTS};

/// Who reads the events that a clerk takes.
pub trait Reader {
    // The depth of the worlds whose events it reads.
    ghost depth: { Self → ℕ };

    // Since it was another one, it has read these events, in their order.
    ghost has_read: { Self → List EventOf → Self → Type 0 };

    /// Reads one event more, which is lawful in its worlds.
    fn read(&mut self, event: Event)
        requires { IsLawfulEvent (depth self.old) event }
        ensures depth { depth self.new ≡ depth self.old }
        ensures read { (first : Self) → (events : List EventOf) → has_read first events self.old
            → has_read first (events ++ event ∷ []) self.new };
}

/// What came of an editor that was given a list to send.
#[derive(Drop)]
pub(crate) enum Sent {
    /// It sent the list, and ended.
    Whole(Ended),
    /// Its thread couldn't be started, and it is as it was.
    Back(Editor),
}

/// An editor with this number either sends these events and ends, or comes back having sent nothing.
#[derive(Drop)]
struct Promised<'a> {
    mail: &'a Mail,
    number: u8,
    events: &'a [Event],
}

impl<'a> Promise<Sent> for Promised<'a> {
    ghost kept_by = { λ p sent. IsSent p.mail.now p.number p.events.now sent };
}

/// Sends these events in the thread of an editor, and then the end note. The gate is told before the first of them.
///
/// The editor whose thread couldn't be started comes back instead.
fn send_list<R: Wait, G: MeshGate>(
    rt: &R,
    mail: &Mail,
    editor: Editor,
    events: &[Event],
    gate: &G,
    refused: &AtomicU64,
) -> Sent
    requires editor { IsEditorOf mail.now editor }
    requires new { sent_by editor ≡ [] }
    requires lawful { All (IsLawfulEvent mail.now.settings.depth) events.now }
    ensures { IsSent mail.now editor.number events.now result }
{
    let number = u64::from(editor.number());
    if refused.load(Ordering::SeqCst) == number {
        return Sent::Back(editor);
    }
    gate.pass(number);
    let mut editor = editor;
    post_all(rt, mail, &mut editor, events);
    Sent::Whole(end(rt, mail, editor))
}

/// A clerk, and who reads the events that it takes.
#[derive(Drop)]
struct Desk<T> {
    clerk: Clerk,
    reader: T,
}

impl<T: Reader + Drop> Desk<T> {
    /// Takes a note, and reads its event. Where there is none, it waits for one.
    fn read_next<R: Wait>(&mut self, rt: &R, mail: &Mail)
        requires { IsDesk T.depth mail.now self.old.clerk self.old.reader }
        ensures desk { IsDesk T.depth mail.now self.new.clerk self.new.reader }
        ensures editors { self.new.clerk.editors ≡ self.old.clerk.editors }
        ensures read { (first : T) → HasReadAll T.has_read first self.old.clerk self.old.reader
            → HasReadAll T.has_read first self.new.clerk self.new.reader }
    {
        if self.clerk.owners().len() > MAX_EVENTS {
            // No lists have so many events.
            for _ in rt.forever() {}
            unreachable!()
        }
        match wait(rt, mail, &mut self.clerk) {
            Note::Sent { editor: _, event } => self.reader.read(event),
            Note::Ended { editor: _ } => {}
        }
    }

    /// Takes notes until each editor has ended.
    fn read_all<R: Wait>(&mut self, rt: &R, mail: &Mail)
        requires { IsDesk T.depth mail.now self.old.clerk self.old.reader }
        ensures desk { IsDesk T.depth mail.now self.new.clerk self.new.reader }
        ensures editors { self.new.clerk.editors ≡ self.old.clerk.editors }
        ensures read { (first : T) → HasReadAll T.has_read first self.old.clerk self.old.reader
            → HasReadAll T.has_read first self.new.clerk self.new.reader }
        ensures ended { (editor : ℕ) → editor < self.old.clerk.editors
            → has_end editor (taken_by self.new.clerk) ≡ true }
    {
        for _ in rt.forever() {
            if self.clerk.all_ended() {
                return;
            }
            self.read_next(rt, mail);
        }
        unreachable!()
    }

    /// Sends these events on this thread, and then the end note, and takes notes wherever the queue is full.
    fn send_all<R: Wait>(&mut self, rt: &R, mail: &Mail, editor: Editor, events: &[Event]) -> Ended
        requires desk { IsDesk T.depth mail.now self.old.clerk self.old.reader }
        requires editor { IsEditorOf mail.now editor }
        requires lawful { All (IsLawfulEvent mail.now.settings.depth) events.now }
        ensures desk { IsDesk T.depth mail.now self.new.clerk self.new.reader }
        ensures editors { self.new.clerk.editors ≡ self.old.clerk.editors }
        ensures read { (first : T) → HasReadAll T.has_read first self.old.clerk self.old.reader
            → HasReadAll T.has_read first self.new.clerk self.new.reader }
        ensures ended { IsEndedOf mail.now result }
        ensures number { result.number ≡ editor.number }
        ensures whole { sent_in_all_by result ≡ sent_by editor ++ events.now }
    {
        let mut editor = editor;
        for event in events {
            self.send_next(rt, mail, &mut editor, *event);
        }
        self.end(rt, mail, editor)
    }

    /// Sends an event, and takes notes while the queue is full.
    fn send_next<R: Wait>(&mut self, rt: &R, mail: &Mail, editor: &mut Editor, event: Event)
        requires desk { IsDesk T.depth mail.now self.old.clerk self.old.reader }
        requires editor { IsEditorOf mail.now editor.old }
        requires lawful { IsLawfulEvent mail.now.settings.depth event }
        ensures desk { IsDesk T.depth mail.now self.new.clerk self.new.reader }
        ensures editors { self.new.clerk.editors ≡ self.old.clerk.editors }
        ensures read { (first : T) → HasReadAll T.has_read first self.old.clerk self.old.reader
            → HasReadAll T.has_read first self.new.clerk self.new.reader }
        ensures editor { IsEditorOf mail.now editor.new }
        ensures number { editor.new.number ≡ editor.old.number }
        ensures sent { sent_by editor.new ≡ sent_by editor.old ++ event ∷ [] }
    {
        for _ in rt.forever() {
            match send(rt, mail, editor, event) {
                Ok(()) => return,
                Err(_) => self.read_next(rt, mail),
            }
        }
        unreachable!()
    }

    /// Sends an end note, and takes notes while the queue is full.
    fn end<R: Wait>(&mut self, rt: &R, mail: &Mail, editor: Editor) -> Ended
        requires desk { IsDesk T.depth mail.now self.old.clerk self.old.reader }
        requires editor { IsEditorOf mail.now editor }
        ensures desk { IsDesk T.depth mail.now self.new.clerk self.new.reader }
        ensures editors { self.new.clerk.editors ≡ self.old.clerk.editors }
        ensures read { (first : T) → HasReadAll T.has_read first self.old.clerk self.old.reader
            → HasReadAll T.has_read first self.new.clerk self.new.reader }
        ensures ended { IsEndedOf mail.now result }
        ensures number { result.number ≡ editor.number }
        ensures whole { sent_in_all_by result ≡ sent_by editor }
    {
        let mut left = editor;
        for _ in rt.forever() {
            match try_end(rt, mail, left) {
                Ok(ended) => return ended,
                Err(back) => left = back,
            }
            self.read_next(rt, mail);
        }
        unreachable!()
    }

    /// Has an editor send these events in a thread of its own. One whose thread can't be started sends them here, and
    /// is returned as ended.
    fn start<'s, E: 's, R: Threads + Wait + Sync, G: MeshGate>(
        &mut self,
        scope: &'s Scope<'s, E>,
        rt: &'s R,
        mail: &'s Mail,
        editor: Editor,
        events: &'s [Event],
        gate: &'s G,
        refused: &'s AtomicU64,
    ) -> Result<PromisedHandle<Sent, Promised<'s>>, Ended>
        requires desk { IsDesk T.depth mail.now self.old.clerk self.old.reader }
        requires editor { IsEditorOf mail.now editor }
        requires new { sent_by editor ≡ [] }
        requires lawful { All (IsLawfulEvent mail.now.settings.depth) events.now }
        ensures desk { IsDesk T.depth mail.now self.new.clerk self.new.reader }
        ensures editors { self.new.clerk.editors ≡ self.old.clerk.editors }
        ensures read { (first : T) → HasReadAll T.has_read first self.old.clerk self.old.reader
            → HasReadAll T.has_read first self.new.clerk self.new.reader }
        ensures started { IfOk result (λ thread. thread.promise
            ≡ record { mail = mail.entry; number = editor.number; events = events.entry }) }
        ensures ended { IfErr result (λ ended. IsEndedOf mail.now ended
            × (ended.number ≡ editor.number) × (sent_in_all_by ended ≡ events.now)) }
    {
        let number = editor.number();
        let promise = Promised {
            mail,
            number,
            events,
        };
        let started = scope.spawn_with(
            promise,
            move || -> Sent
                requires { IsEditorOf mail.now editor × (sent_by editor ≡ [])
                    × All (IsLawfulEvent mail.now.settings.depth) events.now }
                ensures { IsSent mail.entry.now editor.number events.entry.now result }
            { send_list(rt, mail, editor, events, gate, refused) },
        );
        match started {
            Ok(thread) => Ok(thread),
            Err(refusal) => {
                refused.store(u64::from(number), Ordering::SeqCst);
                Err(self.finish(rt, mail, (refusal.value)(), number, events))
            }
        }
    }

    /// Returns an editor as ended that sent these events in its thread; one that came back sends them here.
    fn finish<R: Wait>(
        &mut self,
        rt: &R,
        mail: &Mail,
        sent: Sent,
        number: u8,
        events: &[Event],
    ) -> Ended
        requires desk { IsDesk T.depth mail.now self.old.clerk self.old.reader }
        requires sent { IsSent mail.now number events.now sent }
        requires lawful { All (IsLawfulEvent mail.now.settings.depth) events.now }
        ensures desk { IsDesk T.depth mail.now self.new.clerk self.new.reader }
        ensures editors { self.new.clerk.editors ≡ self.old.clerk.editors }
        ensures read { (first : T) → HasReadAll T.has_read first self.old.clerk self.old.reader
            → HasReadAll T.has_read first self.new.clerk self.new.reader }
        ensures ended { IsEndedOf mail.now result }
        ensures number { result.number ≡ number }
        ensures whole { sent_in_all_by result ≡ events.now }
    {
        match sent {
            Sent::Whole(ended) => ended,
            Sent::Back(editor) => self.send_all(rt, mail, editor, events),
        }
    }
}

/// Has each of these editors send its list in a thread of its own, and takes notes until all have ended. Those that
/// have ended are put into a vector that has room for them.
fn write_all<'s, E: 's, R: Threads + Wait + Sync, G: MeshGate, T: Reader + Drop>(
    scope: &'s Scope<'s, E>,
    rt: &'s R,
    mail: &'s Mail,
    lists: &'s [Vec<Event>],
    gate: &'s G,
    refused: &'s AtomicU64,
    editors: &mut Vec<Editor>,
    desk: &mut Desk<T>,
    ended: &mut Vec<Ended>,
)
    requires desk { IsDesk T.depth mail.now desk.old.clerk desk.old.reader }
    requires editors { AreToSend mail.now (map (λ list. list.items) lists.now) editors.old.items }
    requires none { ended.old.items ≡ [] }
    requires room { vec_len editors.old ≤ vec_capacity ended.old }
    ensures desk { IsDesk T.depth mail.now desk.new.clerk desk.new.reader }
    ensures same { desk.new.clerk.editors ≡ desk.old.clerk.editors }
    ensures read { (first : T) → HasReadAll T.has_read first desk.old.clerk desk.old.reader
        → HasReadAll T.has_read first desk.new.clerk desk.new.reader }
    ensures ended { HaveSentLists mail.now (map (λ list. list.items) lists.now)
        (vec_len editors.old) ended.new.items }
    ensures count { vec_len ended.new ≡ vec_len editors.old }
    ensures room { vec_capacity ended.old ≤ vec_capacity ended.new }
{
    let Some(editor) = editors.pop() else {
        desk.read_all(rt, mail);
        return;
    };
    let number = editor.number();
    let events = lists[usize::from(number)].as_slice();
    let started = desk.start(scope, rt, mail, editor, events, gate, refused);
    write_all(scope, rt, mail, lists, gate, refused, editors, desk, ended);
    let one = match started {
        Ok(thread) => desk.finish(rt, mail, thread.join(rt), number, events),
        Err(ended) => ended,
    };
    if ended.push(one).is_err() {
        unreachable!();
    }
}

/// Has each of these editors send its list in a thread of its own, and takes notes until all have ended. Returns the
/// desk, and the editors as ended in a vector that has room for them.
fn write_in_threads<R: Threads + Wait + Sync, G: MeshGate, T: Reader + Drop>(
    rt: &R,
    mail: &Mail,
    lists: &[Vec<Event>],
    gate: &G,
    editors: Vec<Editor>,
    desk: Desk<T>,
    room: Vec<Ended>,
) -> (Desk<T>, Vec<Ended>)
    requires desk { IsDesk T.depth mail.now desk.clerk desk.reader }
    requires editors { AreToSend mail.now (map (λ list. list.items) lists.now) editors.items }
    requires none { room.items ≡ [] }
    requires room { vec_len editors ≤ vec_capacity room }
    ensures desk { IsDesk T.depth mail.now result.0.clerk result.0.reader }
    ensures editors { result.0.clerk.editors ≡ desk.clerk.editors }
    ensures read { (first : T) → HasReadAll T.has_read first desk.clerk desk.reader
        → HasReadAll T.has_read first result.0.clerk result.0.reader }
    ensures all { (editor : ℕ) → editor < desk.clerk.editors
        → has_end editor (taken_by result.0.clerk) ≡ true }
    ensures ended { HaveSentLists mail.now (map (λ list. list.items) lists.now)
        (vec_len editors) result.1.items }
{
    let refused = AtomicU64::new(u64::MAX);
    let refused = &refused;
    thread::scope(
        thread::scope_env(),
        rt,
        move |scope| -> (Desk<T>, Vec<Ended>)
            requires { IsDesk T.depth mail.now desk.clerk desk.reader
                × AreToSend mail.now (map (λ list. list.items) lists.now) editors.items
                × (room.items ≡ []) × (vec_len editors ≤ vec_capacity room) }
            ensures desk { IsDesk T.depth mail.entry.now result.0.clerk result.0.reader }
            ensures editors { result.0.clerk.editors ≡ desk.clerk.editors }
            ensures read { (first : T)
                → HasReadAll T.has_read first desk.clerk desk.reader
                → HasReadAll T.has_read first result.0.clerk result.0.reader }
            ensures all { (editor : ℕ) → editor < desk.clerk.editors
                → has_end editor (taken_by result.0.clerk) ≡ true }
            ensures ended { HaveSentLists mail.entry.now
                (map (λ list. list.items) lists.entry.now) (vec_len editors)
                result.1.items }
        {
            let mut editors = editors;
            let mut desk = desk;
            let mut ended = room;
            write_all(
                scope,
                rt,
                mail,
                lists,
                gate,
                refused,
                &mut editors,
                &mut desk,
                &mut ended,
            );
            desk.read_all(rt, mail);
            (desk, ended)
        },
    )
}

/// Has each of these lists sent by an editor of its own, in a thread of its own, while the calling thread takes their
/// notes and the reader reads each event. Returns who sent the events that were read, in order, and the reader. Each
/// list was sent and read whole and in order; between lists there is no order.
///
/// The gate is told before each list, by its number. A list whose thread can't be started is sent on the calling
/// thread. The lists have at most `MAX_EVENTS` events in all. Out of memory is the only error; nothing is read then.
pub fn write_beside<R: Threads + Wait + Sync, G: MeshGate, T: Reader + Drop>(
    rt: &R,
    alloc: Global,
    settings: Settings,
    lists: &[Vec<Event>],
    gate: &G,
    reader: T,
) -> (Result<Vec<u8>, AllocError>, T)
    requires settings { IsSettings settings }
    requires some { 0 < length lists.now }
    requires few { length lists.now ≤ MAX_EDITORS }
    requires lawful { All (λ list. All (IsLawfulEvent settings.depth) list.items) lists.now }
    requires depth { T.depth reader ≡ settings.depth }
    requires nothing { T.has_read reader [] reader }
    ensures owners { IfOk result.0 (λ owners.
        AreOwners (list_of (map (λ list. list.items) lists.now)) owners.items) }
    ensures read { IfOk result.0 (λ owners. T.has_read reader
        (journal_of (list_of (map (λ list. list.items) lists.now)) owners.items) result.1) }
    ensures unread { OnErr result.0 (result.1 ≡ reader) }
{
    let Ok((mail, clerk, editors)) = Mail::new(alloc, settings, lists.len() as u8) else {
        return (Err(AllocError), reader);
    };
    let Ok(room) = Vec::with_capacity(alloc, lists.len()) else {
        return (Err(AllocError), reader);
    };
    let desk = Desk { clerk, reader };
    let (desk, ended) = write_in_threads(rt, &mail, lists, gate, editors, desk, room);
    let Desk { clerk, reader } = desk;
    let (_, owners) = close_for_owners(rt, mail, clerk, ended);
    (Ok(owners), reader)
}
