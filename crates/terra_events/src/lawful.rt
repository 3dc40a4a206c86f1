//! Which events a world takes.

ghost use Rattle.std.specs.Prelude.{◌↔◌, IsTrue};
ghost use Rattle.lattice.specs.Settings.{IsSettings};
ghost use Rattle.terrain.specs.History.{IsLawfulEvent};

use brushes::lawful;
use lattice::Settings;
use terrain::{Event, MAX_VIEWS};

/// Returns whether a world takes an event: a brush that is lawful in it, a viewpoint that it may have, with a camera in
/// the world, or an undo.
pub fn is_lawful(event: &Event, settings: &Settings) -> bool
    requires { IsSettings settings.now }
    ensures { IsTrue result ↔ IsLawfulEvent settings.now.depth event.now }
{
    match event {
        Event::Edit(brush) => lawful(brush, settings),
        Event::Camera { view, at } => usize::from(*view) < MAX_VIEWS && at.is_in_world(settings),
        Event::Away { view } => usize::from(*view) < MAX_VIEWS,
        Event::Undo => true,
    }
}
