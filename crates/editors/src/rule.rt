//! The rule of a mail's queue, and the steps on it.
//!
//! `crossbeam_queue` keeps a rule that its caller chooses, over what a queue holds and what each pass shows, and asks
//! for a proof that each step keeps it. The types below name the steps.

ghost use Rattle.std.specs.Prelude.{◌≡◌, ◌<◌};
ghost use Rattle.editors.specs.Notes.{IsLawfulNote, author};
ghost use Rattle.editors.specs.Rule.{DeliversInOrder, EndsWith, Gathers};
ghost use Rattle.editors.specs.Shown.{deeper, editor_of, first_shown, nothing_shown, with_made, with_note, with_sheet, with_taken};

use crate::note::Note;
use crate::shown::Shown;
use crossbeam_queue::protocol::{Join, Lesson, Outcome, Protocol, Split};

/// The notes of each editor, in order, are those that the clerk took and then those in the queue.
pub struct Delivery;

impl Protocol<Note, Shown> for Delivery {
    ghost holds = { DeliversInOrder };

    ghost first = { first_shown };
}

/// Before the first editor is made, the worlds whose events are sent get deeper by one.
pub(crate) struct Deepening;

impl Split<Shown> for Deepening {
    ghost left = { deeper };

    ghost right = { λ _. nothing_shown };
}

/// The clerk makes one more editor.
pub(crate) struct Making;

impl Split<Shown> for Making {
    ghost left = { with_made };

    ghost right = { editor_of };
}

/// An editor that has ended is handed in to the clerk.
pub(crate) struct HandingIn;

impl Join<Shown> for HandingIn {
    ghost both = { with_sheet };

    ghost spent = { nothing_shown };
}

/// An editor sends a note. Where the queue is full, the editor's last notes are in it.
pub(crate) struct Sending;

impl Outcome<Note, Shown> for Sending {
    ghost then = { λ old note new. new ≡ with_note old note };
}

impl Lesson<Note, Shown> for Sending {
    ghost fact = { EndsWith };
}

/// The clerk takes a note, which is an editor's and lawful. Where the queue is empty, it has all notes of the editors
/// that were handed in.
pub(crate) struct Taking;

impl Outcome<Note, Shown> for Taking {
    ghost then = { λ old note new. (new ≡ with_taken old note)
        × IsLawfulNote old.depth note × (author note < old.made) };
}

impl Lesson<Note, Shown> for Taking {
    ghost fact = { Gathers };
}
