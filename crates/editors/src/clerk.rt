//! Clerks, which take notes.

ghost use Rattle.std.specs.Prelude.{◌≡◌, ◌↔◌, ◌<◌, ◌≤◌, List, [], ◌∷◌, ◌++◌, IfOk, IsTrue, length, vec_capacity, vec_len};
ghost use Rattle.editors.specs.declared.note.Note.{Note as NoteOf};
ghost use Rattle.editors.specs.Mail.{HaveAllEnded, KeepsOf, taken_by};
ghost use Rattle.editors.specs.Notes.{author, owners_in};

use crate::mail::MAX_EDITORS;
use crate::note::Note;
use crate::shown::Shown;
use crossbeam_queue::Pass;
use std::alloc::{AllocError, Global};
use terrain::MAX_EVENTS;

/// Who takes the notes of all editors of a mail.
///
/// Contracts see the notes that it took, and how many editors its mail has.
#[derive(Drop)]
pub struct Clerk {
    pub(crate) pass: Pass<Note, Shown>,
    pub(crate) editors: u8,
    /// Who sent the events that it took, in order.
    pub(crate) owners: Vec<u8>,
    /// Whether it took the end note of the editor with this number.
    pub(crate) ended: [bool; MAX_EDITORS as usize],
}

impl Clerk {
    /// Returns a clerk of so many editors by its pass, with room for the owners of as many events as a journal may
    /// have, and of one more: whether a note is an event is seen once it is taken. Out of memory is the only error.
    pub(crate) fn new(
        alloc: Global,
        pass: Pass<Note, Shown>,
        editors: u8,
    ) -> Result<Clerk, AllocError>
        ensures pass { IfOk result (λ clerk. clerk.pass ≡ pass) }
        ensures editors { IfOk result (λ clerk. clerk.editors ≡ editors) }
        ensures keeps { IfOk result (λ clerk. KeepsOf clerk []) }
    {
        let owners = Vec::with_capacity(alloc, MAX_EVENTS + 1)?;
        Ok(Clerk {
            pass,
            editors,
            owners,
            ended: [false; MAX_EDITORS as usize],
        })
    }

    /// Keeps of a note who sent it, or that its editor has ended.
    pub(crate) fn keep(&mut self, note: Note)
        requires room { vec_len self.old.owners < vec_capacity self.old.owners }
        requires by { author note < MAX_EDITORS }
        requires places { length self.old.ended ≡ MAX_EDITORS }
        ensures pass { self.new.pass ≡ self.old.pass }
        ensures editors { self.new.editors ≡ self.old.editors }
        ensures keeps { (notes : List NoteOf) → KeepsOf self.old notes
            → KeepsOf self.new (notes ++ note ∷ []) }
    {
        match note {
            Note::Sent { editor, event: _ } => {
                if self.owners.push(editor).is_err() {
                    unreachable!();
                }
            }
            Note::Ended { editor } => self.ended[usize::from(editor)] = true,
        }
    }

    /// Returns who sent the events that were taken, in order: the number of an editor for each of them.
    pub fn owners(&self) -> &[u8]
        ensures value { result.now ≡ self.now.owners.items }
        ensures of_events { (notes : List NoteOf) → KeepsOf self.now notes
            → result.now ≡ owners_in notes }
    {
        &self.owners
    }

    /// Returns whether it took the end note of each editor.
    pub fn all_ended(&self) -> bool
        requires few { self.now.editors ≤ MAX_EDITORS }
        requires keeps { KeepsOf self.now (taken_by self.now) }
        ensures { IsTrue result ↔ HaveAllEnded self.now }
    {
        for editor in 0..self.editors {
            if !self.ended[usize::from(editor)] {
                return false;
            }
        }
        true
    }
}
