//! The editors of a scene and their clerk, each with the mail.

ghost use Rattle.std.specs.Arc.{arc_value};
ghost use Rattle.editors.specs.Mail.{IsClerkOf, IsEditorOf};

use editors::{Clerk, Editor, Mail};
use std::sync::Arc;

/// Who sends events to a scene. It may go to any thread, and sends until it ends; one that is dropped never ends.
///
/// Contracts see the mail, and the editor with the events that it sent.
#[derive(Drop)]
pub struct SceneEditor {
    pub(crate) mail: Arc<Mail>,
    pub(crate) editor: Editor,
    ghost editor_of: { IsEditorOf (arc_value mail) editor },
}

/// Who takes what the editors of a scene send.
///
/// Contracts see the mail, and the clerk with the notes that it took.
#[derive(Drop)]
pub struct SceneClerk {
    pub(crate) mail: Arc<Mail>,
    pub(crate) clerk: Clerk,
    ghost clerk_of: { IsClerkOf (arc_value mail) clerk },
}
