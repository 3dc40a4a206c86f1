//! Events: what happens to a world.

use crate::brush::Brush;
use lattice::Point;

/// The most events that a journal may have.
pub const MAX_EVENTS: usize = 65_535;

/// How many viewpoints a world may have. They have the numbers below it.
pub const MAX_VIEWS: usize = 8;

/// What a script may do to a world: edit its samples, put a viewpoint at a point or take one away, or undo an edit.
#[derive(Clone, Copy, Debug, PartialEq, Eq)]
pub enum Event {
    Edit(Brush),
    Camera { view: u8, at: Point },
    Away { view: u8 },
    /// Takes the last edit in force out of force.
    Undo,
}
