//! How a mail is opened: its clerk and its editors are made.

ghost use Rattle.std.specs.Prelude.{◌≡◌, ◌+◌, ◌<◌, ◌≤◌, [], All, IfOk, OnOk, vec_len};
ghost use Rattle.crossbeam_queue.specs.Passes.{IsPassOf, ruled_capacity, view};
ghost use Rattle.lattice.specs.Settings.{IsSettings};
ghost use Rattle.editors.specs.declared.mail.TheConstants.{MAX_EDITORS, PLACES};
ghost use Rattle.editors.specs.Mail.{AreNumbered, IsClerkOf, IsClerksPass, IsEditorOf, sent_by, taken_by};
ghost use Rattle.editors.specs.Shown.{first_of, first_shown};

use crate::clerk::Clerk;
use crate::editor::Editor;
use crate::mail::{Mail, PLACES};
use crate::note::Note;
use crate::rule::{Deepening, Delivery, Making};
use crate::shown::Shown;
use crossbeam_queue::{Pass, RuledArrayQueue};
use crossbeam_utils::sync::EventCount;
use lattice::Settings;
use std::alloc::{AllocError, Global};

impl Mail {
    /// Returns a mail for worlds of these settings, its clerk, and its editors, which are numbered from 0 and have sent
    /// nothing. The clerk has room for all that it keeps from here on. Out of memory is the only error.
    pub fn new(
        alloc: Global,
        settings: Settings,
        editors: u8,
    ) -> Result<(Mail, Clerk, Vec<Editor>), AllocError>
        requires settings { IsSettings settings }
        requires some { 0 < editors }
        requires few { editors ≤ MAX_EDITORS }
        ensures settings { IfOk result (λ made. made.0.settings ≡ settings) }
        ensures clerk { IfOk result (λ made. IsClerkOf made.0 made.1) }
        ensures none { IfOk result (λ made. taken_by made.1 ≡ []) }
        ensures count { IfOk result (λ made. made.1.editors ≡ editors) }
        ensures editors { IfOk result (λ made. All (IsEditorOf made.0) made.2.items) }
        ensures numbers { IfOk result (λ made. AreNumbered made.2.items) }
        ensures new { IfOk result (λ made. All (λ editor. sent_by editor ≡ []) made.2.items) }
        ensures all { IfOk result (λ made. vec_len made.2 ≡ editors) }
    {
        let (queue, mut pass) = RuledArrayQueue::ruled(alloc, PLACES)?;
        let mail = Mail {
            settings,
            queue,
            places: EventCount::new(),
            arrivals: EventCount::new(),
        };
        mail.deepen(&mut pass);
        let list = mail.make_all(alloc, &mut pass, editors)?;
        let clerk = Clerk::new(alloc, pass, editors)?;
        Ok((mail, clerk, list))
    }

    /// Has the clerk's pass show the depth of the mail's worlds.
    fn deepen(&self, pass: &mut Pass<Note, Shown>)
        requires pass { IsPassOf self.now.queue pass.old }
        requires first { view pass.old ≡ first_shown }
        ensures pass { IsPassOf self.now.queue pass.new }
        ensures shown { view pass.new ≡ first_of self.now.settings.depth }
    {
        for depth in 0..self.settings.depth {
            let _ = self.queue.another::<Deepening>(pass);
        }
    }

    /// Returns so many editors, which are numbered from 0. Out of memory is the only error.
    fn make_all(
        &self,
        alloc: Global,
        pass: &mut Pass<Note, Shown>,
        editors: u8,
    ) -> Result<Vec<Editor>, AllocError>
        requires pass { IsClerksPass self.now 0 pass.old }
        requires none_in { (view pass.old).sheets ≡ [] }
        requires places { ruled_capacity self.now.queue ≡ PLACES }
        ensures pass { OnOk result (IsClerksPass self.now editors pass.new) }
        ensures none_in { OnOk result ((view pass.new).sheets ≡ []) }
        ensures taken { OnOk result ((view pass.new).taken ≡ (view pass.old).taken) }
        ensures editors { IfOk result (λ list. All (IsEditorOf self.now) list.items) }
        ensures numbers { IfOk result (λ list. AreNumbered list.items) }
        ensures new { IfOk result (λ list. All (λ editor. sent_by editor ≡ []) list.items) }
        ensures all { IfOk result (λ list. vec_len list ≡ editors) }
    {
        let mut list = Vec::with_capacity(alloc, usize::from(editors))?;
        for number in 0..editors {
            list.push(self.make(pass, number))?;
        }
        Ok(list)
    }

    /// Returns one more editor, which has this number.
    fn make(&self, pass: &mut Pass<Note, Shown>, number: u8) -> Editor
        requires pass { IsClerksPass self.now number pass.old }
        requires none_in { (view pass.old).sheets ≡ [] }
        requires places { ruled_capacity self.now.queue ≡ PLACES }
        ensures pass { IsClerksPass self.now (number + 1) pass.new }
        ensures none_in { (view pass.new).sheets ≡ [] }
        ensures taken { (view pass.new).taken ≡ (view pass.old).taken }
        ensures editor { IsEditorOf self.now result }
        ensures number { result.number ≡ number }
        ensures none { sent_by result ≡ [] }
    {
        Editor {
            pass: self.queue.another::<Making>(pass),
            number,
        }
    }
}
