//! Editors of a scene: threads that send it events.
//!
//! The editors of a scene share one mail, and its clerk takes their notes, one after another. Whoever has the clerk
//! applies the events to the scene, in the order in which they were taken; `owners` tells afterwards who sent which.

ghost use Rattle.std.specs.Prelude.{◌≡◌, ◌↔◌, ◌<◌, ◌≤◌, ◌⊎◌, ◌++◌, [], ◌∷◌, All, IfErr, IfOk, IfSome, IsErrOf, IsNone, IsTrue, MatchOption, OnErr, OnOk, vec_len};
ghost use Rattle.std.specs.Arc.{arc_value};
ghost use Rattle.lattice.specs.Settings.{IsSettings};
ghost use Rattle.terrain.specs.History.{IsLawfulEvent};
ghost use Rattle.editors.specs.declared.mail.TheConstants.{MAX_EDITORS};
ghost use Rattle.editors.specs.Mail.{AreNumbered, HaveAllEnded, IsEditorOf, IsNoteFor, WasEmpty, WasFull, sent_by, taken_by};
ghost use Rattle.editors.specs.Notes.{owners_in};
ghost use Rattle.scenes.specs.Editing.{HasTakenMost, HasNoMore, SendsThrough, editors_of, unsent_event};

use crate::holders::{SceneClerk, SceneEditor};
use crate::unsent::Unsent;
use editors::{Editor, Mail, Note, end, post, send, take, wait};
use lattice::Settings;
use std::alloc::{AllocError, Global};
use std::sync::{Arc, Wait};
use terra_events::is_lawful;
use terrain::{Event, MAX_EVENTS};

/// Returns the clerk of a new mail for a world of these settings, which has taken nothing, and so many editors. They
/// are numbered from 0, and have sent nothing. Out of memory is the only error.
pub fn open_mail(
    alloc: Global,
    settings: Settings,
    editors: u8,
) -> Result<(SceneClerk, Vec<SceneEditor>), AllocError>
    requires settings { IsSettings settings }
    requires some { 0 < editors }
    requires few { editors ≤ MAX_EDITORS }
    ensures settings { IfOk result (λ opened. (arc_value opened.0.mail).settings ≡ settings) }
    ensures none { IfOk result (λ opened. taken_by opened.0.clerk ≡ []) }
    ensures count { IfOk result (λ opened. opened.0.clerk.editors ≡ editors) }
    ensures all { IfOk result (λ opened. vec_len opened.1 ≡ editors) }
    ensures numbers { IfOk result (λ opened. AreNumbered (editors_of opened.1.items)) }
    ensures new { IfOk result (λ opened.
        All (λ editor. sent_by editor ≡ []) (editors_of opened.1.items)) }
    ensures mail { IfOk result (λ opened.
        All (SendsThrough (arc_value opened.0.mail)) opened.1.items) }
{
    let (mail, clerk, list) = Mail::new(alloc, settings, editors)?;
    let mail = Arc::new(alloc, mail)?;
    let editors = seat_all(alloc, &mail, list)?;
    Ok((SceneClerk { mail, clerk }, editors))
}

/// Returns editors with their mail, in the same order. Out of memory is the only error.
fn seat_all(
    alloc: Global,
    mail: &Arc<Mail>,
    editors: Vec<Editor>,
) -> Result<Vec<SceneEditor>, AllocError>
    requires { All (IsEditorOf (arc_value mail.now)) editors.items }
    ensures same { IfOk result (λ seated. editors_of seated.items ≡ editors.items) }
    ensures mail { IfOk result (λ seated.
        All (SendsThrough (arc_value mail.now)) seated.items) }
    ensures all { IfOk result (λ seated. vec_len seated ≡ vec_len editors) }
{
    let mut seated = Vec::with_capacity(alloc, editors.len())?;
    for editor in editors {
        seated.push(seat(mail, editor)?)?;
    }
    Ok(seated)
}

/// Returns an editor with its mail. Out of memory is the only error.
fn seat(mail: &Arc<Mail>, editor: Editor) -> Result<SceneEditor, AllocError>
    requires { IsEditorOf (arc_value mail.now) editor }
    ensures same { IfOk result (λ one. one.editor ≡ editor) }
    ensures mail { IfOk result (SendsThrough (arc_value mail.now)) }
{
    let mail = Arc::try_clone(mail)?;
    Ok(SceneEditor { mail, editor })
}

impl SceneEditor {
    /// Returns the editor's number.
    pub fn number(&self) -> u8
        ensures { result ≡ self.now.editor.number }
    {
        self.editor.number()
    }

    /// Sends an event to the scene. The error gives it back: it is `NotLawful` exactly where the event isn't lawful in
    /// the world, and else `Full`, which comes only where the mail was full at one moment of the call.
    pub fn send<R: Wait>(&mut self, rt: &R, event: Event) -> Result<(), Unsent>
        ensures mail { arc_value self.new.mail ≡ arc_value self.old.mail }
        ensures number { self.new.editor.number ≡ self.old.editor.number }
        ensures sent { OnOk result
            (sent_by self.new.editor ≡ sent_by self.old.editor ++ event ∷ []) }
        ensures unlawful { IsErrOf result (Unsent.NotLawful event)
            ↔ (¬ IsLawfulEvent (arc_value self.old.mail).settings.depth event) }
        ensures back { IfErr result (λ unsent. unsent_event unsent ≡ event) }
        ensures full { IsErrOf result (Unsent.Full event) → WasFull self.old.editor }
        ensures unsent { OnErr result (sent_by self.new.editor ≡ sent_by self.old.editor) }
    {
        if !is_lawful(&event, self.mail.settings()) {
            return Err(Unsent::NotLawful(event));
        }
        match send(rt, &self.mail, &mut self.editor, event) {
            Ok(()) => Ok(()),
            Err(back) => Err(Unsent::Full(back)),
        }
    }

    /// Sends an event to the scene, and waits for a place where the mail is full. The error gives the event back: it
    /// isn't lawful in the world.
    pub fn post<R: Wait>(&mut self, rt: &R, event: Event) -> Result<(), Event>
        ensures mail { arc_value self.new.mail ≡ arc_value self.old.mail }
        ensures number { self.new.editor.number ≡ self.old.editor.number }
        ensures sent { OnOk result
            (sent_by self.new.editor ≡ sent_by self.old.editor ++ event ∷ []) }
        ensures unlawful { IsErrOf result event
            ↔ (¬ IsLawfulEvent (arc_value self.old.mail).settings.depth event) }
        ensures back { IfErr result (λ back. back ≡ event) }
        ensures unsent { OnErr result (sent_by self.new.editor ≡ sent_by self.old.editor) }
    {
        if !is_lawful(&event, self.mail.settings()) {
            return Err(event);
        }
        post(rt, &self.mail, &mut self.editor, event);
        Ok(())
    }

    /// Ends the editor, which sends nothing more. It waits for a place where the mail is full.
    pub fn end<R: Wait>(self, rt: &R) {
        let SceneEditor { mail, editor } = self;
        end(rt, &mail, editor);
    }
}

impl SceneClerk {
    /// Returns the next note of the mail. There is none only where the mail was empty at one moment of the call, or as
    /// many events were taken as a journal may have.
    pub fn take<R: Wait>(&mut self, rt: &R) -> Option<Note>
        ensures mail { arc_value self.new.mail ≡ arc_value self.old.mail }
        ensures editors { self.new.clerk.editors ≡ self.old.clerk.editors }
        ensures taken { MatchOption result (taken_by self.new.clerk ≡ taken_by self.old.clerk)
            (λ note. taken_by self.new.clerk ≡ taken_by self.old.clerk ++ note ∷ []) }
        ensures note { IfSome result
            (IsNoteFor (arc_value self.old.mail) self.old.clerk.editors) }
        ensures none { IsNone result
            → HasTakenMost self.old.clerk ⊎ WasEmpty self.old.clerk }
    {
        if self.clerk.owners().len() >= MAX_EVENTS {
            return None;
        }
        take(rt, &self.mail, &mut self.clerk)
    }

    /// Returns the next note of the mail, and waits for one where there is none. It returns none exactly where all
    /// editors have ended, or as many events were taken as a journal may have.
    pub fn wait<R: Wait>(&mut self, rt: &R) -> Option<Note>
        ensures mail { arc_value self.new.mail ≡ arc_value self.old.mail }
        ensures editors { self.new.clerk.editors ≡ self.old.clerk.editors }
        ensures taken { MatchOption result (taken_by self.new.clerk ≡ taken_by self.old.clerk)
            (λ note. taken_by self.new.clerk ≡ taken_by self.old.clerk ++ note ∷ []) }
        ensures note { IfSome result
            (IsNoteFor (arc_value self.old.mail) self.old.clerk.editors) }
        ensures none { IsNone result ↔ HasNoMore self.old.clerk }
    {
        if self.clerk.all_ended() || self.clerk.owners().len() >= MAX_EVENTS {
            return None;
        }
        Some(wait(rt, &self.mail, &mut self.clerk))
    }

    /// Returns who sent the events that were taken, in order: the number of an editor for each of them.
    pub fn owners(&self) -> &[u8]
        ensures { result.now ≡ owners_in (taken_by self.now.clerk) }
    {
        self.clerk.owners()
    }

    /// Returns whether it took the end note of each editor.
    pub fn all_ended(&self) -> bool
        ensures { IsTrue result ↔ HaveAllEnded self.now.clerk }
    {
        self.clerk.all_ended()
    }
}
