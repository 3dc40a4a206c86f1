//! What became of all notes.
//!
//! All editors are handed in to the clerk, who takes what is left. Then the rule of the queue says of each editor that
//! its notes, in order, are those that were taken and then those that were left.

ghost use Rattle.std.specs.Prelude.{◌≡◌, ℕ, ◌<◌, ◌≤◌, [], ◌∷◌, ◌++◌, All, Any, List, length};
ghost use Rattle.crossbeam_queue.specs.Passes.{IsPassOf, view};
ghost use Rattle.editors.specs.declared.note.Note.{Note as NoteOf};
ghost use Rattle.editors.specs.Letters.{AreLetters, IsEmptied, sheets_of, with_sheets};
ghost use Rattle.editors.specs.Mail.{IsClerkOf, IsClerksPass, IsEndedOf, taken_by};
ghost use Rattle.editors.specs.Notes.{events_in, owners_in};

use crate::clerk::Clerk;
use crate::editor::Ended;
use crate::letters::Letters;
use crate::mail::Mail;
use crate::note::Note;
use crate::rule::{HandingIn, Taking};
use crate::shown::Shown;
use crossbeam_queue::Pass;
use std::sync::Wait;

/// Closes a mail all of whose editors have ended, and returns how many events the clerk took, and how many were left in
/// the queue. It takes no memory.
pub fn close<R: Wait>(rt: &R, mail: Mail, clerk: Clerk, ended: Vec<Ended>) -> Letters
    requires clerk { IsClerkOf mail clerk }
    requires ended { All (IsEndedOf mail) ended.items }
    requires each { (editor : ℕ) → editor < clerk.editors
        → Any (λ one. one.number ≡ editor) ended.items }
    ensures { (left : List NoteOf) × AreLetters clerk ended.items result left }
{
    close_for_owners(rt, mail, clerk, ended).0
}

/// Closes a mail as `close` does, and returns besides who sent the events that were taken, in order.
pub(crate) fn close_for_owners<R: Wait>(
    rt: &R,
    mail: Mail,
    clerk: Clerk,
    ended: Vec<Ended>,
) -> (Letters, Vec<u8>)
    requires clerk { IsClerkOf mail clerk }
    requires ended { All (IsEndedOf mail) ended.items }
    requires each { (editor : ℕ) → editor < clerk.editors
        → Any (λ one. one.number ≡ editor) ended.items }
    ensures letters { (left : List NoteOf) × AreLetters clerk ended.items result.0 left }
    ensures owners { result.1.items ≡ owners_in (taken_by clerk) }
{
    let Clerk {
        mut pass,
        editors: _,
        owners,
        ended: _,
    } = clerk;
    hand_in_all(&mail, &mut pass, ended);
    let left = count_left(rt, &mail, &mut pass);
    let letters = Letters {
        taken: owners.len() as u64,
        left,
    };
    (letters, owners)
}

/// Hands in all these editors to the clerk.
fn hand_in_all(mail: &Mail, pass: &mut Pass<Note, Shown>, ended: Vec<Ended>)
    requires pass { IsClerksPass mail.now (view pass.old).made pass.old }
    requires ended { All (IsEndedOf mail.now) ended.items }
    ensures pass { IsPassOf mail.now.queue pass.new }
    ensures shown { view pass.new
        ≡ with_sheets (view pass.old) (sheets_of ended.items ++ (view pass.old).sheets) }
{
    let mut left = ended;
    while let Some(editor) = left.pop() {
        let Ended {
            pass: theirs,
            number: _,
        } = editor;
        mail.queue.absorb::<HandingIn>(pass, theirs);
    }
}

/// Takes all notes that are left, and returns how many events are in them.
fn count_left<R: Wait>(rt: &R, mail: &Mail, pass: &mut Pass<Note, Shown>) -> u64
    requires { IsClerksPass mail.now (view pass.old).made pass.old }
    ensures { (left : List NoteOf) × IsEmptied (view pass.old) left result }
{
    let mut left = 0;
    for taken in 0..u64::MAX {
        let Some(note) = mail.queue.pop_as::<Taking, R>(rt, pass) else {
            return left;
        };
        left += event_count(&note);
    }
    // No clerk lives to take so many notes.
    for _ in rt.forever() {}
    unreachable!()
}

/// Returns how many events are in a note: one, or none in an end note.
fn event_count(note: &Note) -> u64
    ensures value { result ≡ length (events_in (note.now ∷ [])) }
    ensures few { result ≤ 1 }
{
    match note {
        Note::Sent { .. } => 1,
        Note::Ended { .. } => 0,
    }
}
