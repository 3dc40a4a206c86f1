//! Editors in threads of their own, while the calling thread takes their notes.

ghost use Rattle.std.specs.Prelude.{◌≡◌, ℕ, ◌<◌, ◌≤◌, All, Any, IfOk, vec_len};
ghost use Rattle.terrain.specs.History.{IsLawfulEvent};
ghost use Rattle.editors.specs.Mail.{AreNumbered, IsClerkOf, IsEditorOf, IsEndedOf};

use crate::asserts::{expect, expect_made};
use crate::office::{SMALLEST, event};
use editors::{Clerk, Editor, Ended, Letters, MAX_EDITORS, Mail, Note, close, end, post, wait};
use std::alloc::{AllocError, Global};
use std::process::Abort;
use std::sync::Wait;
use std::thread::{Threads, join, map_vec};
use terrain::MAX_EVENTS;

/// How many events each editor sends: many more than there are places.
const EACH: u32 = 1000;

/// Sends the events of the numbers below `EACH`, and then the end note.
fn write<R: Wait>(rt: &R, mail: &Mail, editor: Editor) -> Ended
    requires editor { IsEditorOf mail.now editor }
    requires depth { mail.now.settings.depth ≡ 0 }
    ensures ended { IsEndedOf mail.now result }
    ensures number { result.number ≡ editor.number }
{
    let mut editor = editor;
    for number in 0..EACH {
        post(rt, mail, &mut editor, event(number));
    }
    end(rt, mail, editor)
}

/// Has each editor write in a thread of its own.
fn write_all<R: Threads + Wait + Sync>(
    rt: &R,
    mail: &Mail,
    editors: Vec<Editor>,
) -> Result<Vec<Ended>, AllocError>
    requires editors { All (IsEditorOf mail.now) editors.items }
    requires numbers { AreNumbered editors.items }
    requires depth { mail.now.settings.depth ≡ 0 }
    ensures ended { IfOk result (λ ended. All (IsEndedOf mail.now) ended.items) }
    ensures each { IfOk result (λ ended. (number : ℕ) → number < vec_len editors
        → Any (λ one. one.number ≡ number) ended.items) }
{
    let ended = map_vec(
        rt,
        editors,
        &|editor: Editor| -> Ended
            requires { IsEditorOf mail.now editor × (mail.now.settings.depth ≡ 0) }
            ensures { IsEndedOf mail.entry.now result × (result.number ≡ editor.number) }
        { write(rt, mail, editor) },
    )?;
    Ok(ended)
}

/// Takes notes until all editors have ended, and returns the clerk, and whether the events of each editor came in their
/// order.
fn read_all<R: Wait>(rt: &R, mail: &Mail, clerk: Clerk) -> (Clerk, bool)
    requires { IsClerkOf mail.now clerk }
    ensures clerk { IsClerkOf mail.now result.0 }
    ensures editors { result.0.editors ≡ clerk.editors }
{
    let mut clerk = clerk;
    let mut next = [0; MAX_EDITORS as usize];
    let mut are_in_order = true;
    for _ in rt.forever() {
        if clerk.all_ended() || clerk.owners().len() >= MAX_EVENTS {
            return (clerk, are_in_order);
        }
        let note = wait(rt, mail, &mut clerk);
        are_in_order = are_in_order && is_next(&mut next, &note);
    }
    unreachable!()
}

/// Returns whether a note has the event that its editor sends next, and counts it.
fn is_next(next: &mut [u32; MAX_EDITORS as usize], note: &Note) -> bool {
    match note {
        Note::Ended { .. } => true,
        Note::Sent {
            editor,
            event: sent,
        } => match next.get_mut(usize::from(*editor)) {
            None => false,
            Some(number) => {
                let expected = event(*number);
                *number = number.saturating_add(1);
                *sent == expected
            }
        },
    }
}

/// Has so many editors write, each in a thread of its own, while the clerk reads all, and returns the letters, how many
/// events the clerk has owners of, and whether the events of each editor came in their order.
fn play<R: Threads + Wait + Sync + Abort>(
    rt: &R,
    alloc: Global,
    editors: u8,
) -> (Letters, usize, bool)
    requires some { 0 < editors }
    requires few { editors ≤ 8 }
{
    let (mail, clerk, editors) = expect_made(rt, Mail::new(alloc, SMALLEST, editors));
    let (ended, (clerk, are_in_order)) = join(
        rt,
        || -> Result<Vec<Ended>, AllocError>
            requires { All (IsEditorOf mail) editors.items × AreNumbered editors.items
                × (mail.settings.depth ≡ 0) }
            ensures { IfOk result (λ ended. All (IsEndedOf mail) ended.items
                × ((number : ℕ) → number < vec_len editors
                → Any (λ one. one.number ≡ number) ended.items)) }
        { write_all(rt, &mail, editors) },
        || -> (Clerk, bool)
            requires { IsClerkOf mail clerk }
            ensures { IsClerkOf mail result.0 × (result.0.editors ≡ clerk.editors) }
        { read_all(rt, &mail, clerk) },
    );
    let owners = clerk.owners().len();
    let letters = close(rt, mail, clerk, expect_made(rt, ended));
    (letters, owners, are_in_order)
}

#[test]
fn keeps_the_order_of_each_of_three_editors(rt: HostRuntime) {
    let (letters, owners, are_in_order) = play(&rt, rt.alloc(), 3);
    expect(&rt, "taken", letters.taken, 3000);
    expect(&rt, "left", letters.left, 0);
    expect(&rt, "owners", owners, 3000);
    expect(&rt, "in order", are_in_order, true);
}
