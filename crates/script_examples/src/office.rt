//! A mail with its clerk and its editors, on one thread.

ghost use Rattle.std.specs.Prelude.{◌≡◌, ℕ, ◌<◌, ◌≤◌, All, Any, IfOk, vec_len};
ghost use Rattle.terrain.specs.History.{IsLawfulEvent};
ghost use Rattle.editors.specs.Mail.{AreNumbered, IsClerkOf, IsEditorOf, IsEndedOf};

use crate::asserts::expect_made;
use editors::{Clerk, Editor, Ended, Letters, Mail, Note, close, end, send, take};
use lattice::{Point, Settings};
use std::alloc::{AllocError, Global};
use std::process::Abort;
use std::sync::Wait;
use terrain::{Event, MAX_EVENTS};

/// The smallest world.
pub(crate) const SMALLEST: Settings = Settings { depth: 0, reach: 0 };

/// How many coordinates there are on an axis of the smallest world.
const ACROSS: u32 = 17;

/// A mail for the smallest world, with its clerk and its editors.
#[derive(Drop)]
pub(crate) struct Office {
    mail: Mail,
    clerk: Clerk,
    editors: Vec<Editor>,
    ghost depth: { mail.settings.depth ≡ 0 },
    ghost clerk_of: { IsClerkOf mail clerk },
    ghost editors_of: { All (IsEditorOf mail) editors.items },
    ghost numbers: { AreNumbered editors.items },
    ghost all: { vec_len editors ≡ clerk.editors },
}

/// Returns an event of the smallest world, one for each number below 4913.
pub(crate) fn event(number: u32) -> Event
    ensures { IsLawfulEvent 0 result }
{
    seen(0, number)
}

/// Returns the event that puts a viewpoint at a point of the smallest world, one for each number below 4913.
pub(crate) fn seen(view: u8, number: u32) -> Event
    requires { view < 8 }
    ensures { IsLawfulEvent 0 result }
{
    let at = Point {
        z: number / ACROSS / ACROSS % ACROSS,
        y: number / ACROSS % ACROSS,
        x: number % ACROSS,
    };
    Event::Camera { view, at }
}

impl Office {
    /// Returns an office with so many editors.
    pub(crate) fn open(rt: &impl Abort, alloc: Global, editors: u8) -> Office
        requires some { 0 < editors }
        requires few { editors ≤ 8 }
    {
        let (mail, clerk, editors) = expect_made(rt, Mail::new(alloc, SMALLEST, editors));
        Office {
            mail,
            clerk,
            editors,
        }
    }

    /// Has an editor send the event of a number, and returns whether there was a place for it, and whether it came back
    /// where there was none.
    pub(crate) fn send<R: Wait>(&mut self, rt: &R, editor: usize, number: u32) -> (bool, bool) {
        let asked = event(number);
        let Some(editor) = self.editors.get_mut(editor) else {
            return (false, false);
        };
        match send(rt, &self.mail, editor, asked) {
            Ok(()) => (true, false),
            Err(back) => (false, back == asked),
        }
    }

    /// Takes a note, if there is one.
    pub(crate) fn take<R: Wait>(&mut self, rt: &R) -> Option<Note> {
        if self.clerk.owners().len() >= MAX_EVENTS {
            return None;
        }
        take(rt, &self.mail, &mut self.clerk)
    }

    /// Returns how many events were taken of an editor.
    pub(crate) fn owned_by(&self, editor: u8) -> usize {
        let mut count: usize = 0;
        for owner in self.clerk.owners() {
            if *owner == editor {
                count = count.saturating_add(1);
            }
        }
        count
    }

    /// Ends all editors, and closes the mail.
    pub(crate) fn close<R: Wait + Abort>(self, rt: &R, alloc: Global) -> Letters {
        let Office {
            mail,
            clerk,
            editors,
        } = self;
        let ended = expect_made(rt, end_all(rt, alloc, &mail, editors));
        close(rt, mail, clerk, ended)
    }
}

/// Ends editors, and returns them as ended. Out of memory is the only error.
fn end_all<R: Wait>(
    rt: &R,
    alloc: Global,
    mail: &Mail,
    editors: Vec<Editor>,
) -> Result<Vec<Ended>, AllocError>
    requires editors { All (IsEditorOf mail.now) editors.items }
    requires numbers { AreNumbered editors.items }
    ensures ended { IfOk result (λ ended. All (IsEndedOf mail.now) ended.items) }
    ensures each { IfOk result (λ ended. (number : ℕ) → number < vec_len editors
        → Any (λ one. one.number ≡ number) ended.items) }
{
    let mut left = editors;
    let mut ended = Vec::new(alloc);
    while let Some(editor) = left.pop() {
        ended.push(end(rt, mail, editor))?;
    }
    Ok(ended)
}
