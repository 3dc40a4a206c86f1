//! The arguments that ask for several editors.

ghost use Rattle.std.specs.Prelude.{◌≡◌, ◌≤◌, ◌↔◌, IfSome, Some};
ghost use Rattle.drills.specs.Drill.{IsDrillDepth};
ghost use Rattle.arguments.specs.Editing.{AreEditingArguments, IsEditing};
ghost use Rattle.arguments.specs.Request.{texts};
ghost use Rattle.arguments.specs.declared.editing.Editing.{Editing as EditingOf};

use crate::number::{number, number_in};
use drills::MAX_DRILL_DEPTH;

/// How many editors there may be.
pub const MAX_EDITORS: u8 = 8;

/// How many edits each editor may make.
pub const MAX_EDITS_EACH: u32 = 8000;

/// The arguments of several editors.
#[derive(Clone, Copy, Debug, PartialEq, Eq)]
pub struct Editing {
    /// What the generator of the first editor begins with; that of each further editor begins with one more.
    pub first: u32,
    /// How many editors there are, from 1 to `MAX_EDITORS`.
    pub editors: u8,
    /// How many edits each of them makes, at most `MAX_EDITS_EACH`.
    pub edits: u32,
    /// The depth of the world, at most `MAX_DRILL_DEPTH`.
    pub depth: u8,
}

/// Returns what the arguments ask of editors: `edit`, and then the first seed, the number of editors, the number of
/// edits of each and the depth as plain decimal numbers in their ranges. Other arguments ask nothing of editors.
pub(crate) fn editing_in(arguments: &[&str]) -> Option<Editing>
    ensures { (editing : EditingOf) → IsEditing (texts arguments.now) editing
        ↔ (result ≡ Some editing) }
{
    let [form, first, editors, edits, depth] = arguments else {
        return None;
    };
    if *form != "edit" {
        return None;
    }
    editing_of(
        number(first, u32::MAX),
        number_in(editors, 1, u32::from(MAX_EDITORS)),
        number(edits, MAX_EDITS_EACH),
        number(depth, u32::from(MAX_DRILL_DEPTH)),
    )
}

/// Returns what is asked of editors by these numbers, if all are there.
fn editing_of(
    first: Option<u32>,
    editors: Option<u32>,
    edits: Option<u32>,
    depth: Option<u32>,
) -> Option<Editing>
    requires editors { IfSome editors (λ editors. editors ≤ MAX_EDITORS) }
    requires depth { IfSome depth IsDrillDepth }
    ensures { (editing : EditingOf) → AreEditingArguments first editors edits depth editing
        ↔ (result ≡ Some editing) }
{
    match (first, editors, edits, depth) {
        (Some(first), Some(editors), Some(edits), Some(depth)) => Some(Editing {
            first,
            editors: editors as u8,
            edits,
            depth: depth as u8,
        }),
        _ => None,
    }
}
