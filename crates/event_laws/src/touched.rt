//! The laws of the leaves that an event touches, and of those that it doesn't.

ghost use Rattle.std.specs.Prelude.{◌≡◌, ℕ, []};
ghost use Rattle.terrain.specs.Levels.{LevelMap};
ghost use Rattle.event_laws.specs.ChangedLeaves.{changed_leaves};
ghost use Rattle.event_laws.specs.Laws.{EditsTouchWhatTheyMeet, OthersTouchWhatTheyChange, UndosTouchWhatTheUndoneMeets, UntouchedKeepBricks, UntouchedWereLeaves};

use field_laws::{
    brushes_keep_samples_off_their_region, fields_follow_the_edits_in_force,
    histories_grow_by_events, samples_stay_in_range,
};

/// The law that an edit touches the leaves whose closed cubes meet its region, an undo those that the region of the
/// last edit in force meets, and an event that edits nothing those that are new or have another rim.
pub fn touched_leaves_are_met_or_changed()
    ensures edit { EditsTouchWhatTheyMeet }
    ensures undo { UndosTouchWhatTheUndoneMeets }
    ensures other { OthersTouchWhatTheyChange }
    ensures none { (depth : ℕ) (m : LevelMap) → changed_leaves depth m m ≡ [] }
{}

/// The law that a leaf which an event doesn't touch was a leaf before it, and has the brick that it had.
pub fn untouched_leaves_keep_their_bricks()
    ensures leaf { UntouchedWereLeaves }
    ensures brick { UntouchedKeepBricks }
{
    brushes_keep_samples_off_their_region();
    fields_follow_the_edits_in_force();
    histories_grow_by_events();
    samples_stay_in_range();
}
