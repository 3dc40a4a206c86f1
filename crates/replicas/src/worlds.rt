//! What of a wire is in a world.

ghost use Rattle.std.specs.Prelude.{◌≡◌, ◌↔◌, IsTrue};
ghost use Rattle.lattice.specs.Key.{IsKey};
ghost use Rattle.lattice.specs.Settings.{IsSettings};
ghost use Rattle.terrain.specs.History.{IsLawfulEvent};
ghost use Rattle.replicas.specs.Fits.{FitsPoint};
ghost use Rattle.replicas.specs.Worlds.{IsPosition};
ghost use Rattle.replicas.specs.Reading.{is_key, is_lawful, is_position};

use lattice::{Key, Pos, Settings, UNITS};
use terrain::{Event, MAX_VIEWS};

/// Returns whether an event is lawful in a world.
pub fn is_lawful(event: &Event, settings: &Settings) -> bool
    requires { IsSettings settings.now }
    ensures test { result ≡ is_lawful settings.now.depth event.now }
    ensures fact { IsTrue result ↔ IsLawfulEvent settings.now.depth event.now }
{
    match event {
        Event::Edit(brush) => brushes::lawful(brush, settings),
        Event::Camera { view, at } => usize::from(*view) < MAX_VIEWS && at.is_in_world(settings),
        Event::Away { view } => usize::from(*view) < MAX_VIEWS,
        Event::Undo => true,
    }
}

/// Returns whether a key is one of a world.
#[inline(always)]
pub fn is_key(key: &Key, settings: &Settings) -> bool
    requires settings { IsSettings settings.now }
    requires small { FitsPoint key.now.at }
    ensures test { result ≡ is_key settings.now.depth key.now }
    ensures fact { IsTrue result ↔ IsKey settings.now.depth key.now }
{
    if key.level > settings.depth {
        return false;
    }
    let side = 1_u32 << key.level;
    key.at.z % side == 0
        && key.at.y % side == 0
        && key.at.x % side == 0
        && key.far_end().is_in_world(settings)
}

/// Returns whether a position is in a world.
#[inline(always)]
pub fn is_position(at: &Pos, settings: &Settings) -> bool
    requires { IsSettings settings.now }
    ensures test { result ≡ is_position settings.now.depth at.now }
    ensures fact { IsTrue result ↔ IsPosition settings.now.depth at.now }
{
    let most = UNITS * settings.world_side();
    at.x <= most && at.y <= most && at.z <= most
}
