//! The level map of viewpoints, made from that of the viewpoints before them.

ghost use Rattle.std.specs.Prelude.{◌≡◌, ◌≢◌, IfOk, MatchOption};
ghost use Rattle.lattice.specs.Settings.{IsSettings};
ghost use Rattle.octree.specs.Choice.{IsMapOf};
ghost use Rattle.octree.specs.Viewpoints.{AreInWorld, points_in};

use crate::choosing::choose;
use crate::laws::viewpoints_that_want_the_same_split_the_same;
use crate::levels::Levels;
use crate::viewpoints::Viewpoints;
use crate::wanted::want_same;
use lattice::Settings;
use std::alloc::{AllocError, Global};

/// Returns the level map for viewpoints, or none where it is the one for the viewpoints before. Out of memory is the
/// only error.
///
/// Where each of them wants the same nodes split at each level as before, no node is looked at, and no memory is taken.
pub fn follow(
    alloc: Global,
    settings: &Settings,
    levels: &Levels,
    before: &Viewpoints,
    after: &Viewpoints,
) -> Result<Option<Levels>, AllocError>
    requires settings { IsSettings settings.now }
    requires before { AreInWorld settings.now.depth before.now }
    requires after { AreInWorld settings.now.depth after.now }
    requires levels { IsMapOf settings.now (points_in before.now) levels.now }
    ensures { IfOk result (λ found.
        MatchOption found (IsMapOf settings.now (points_in after.now) levels.now)
        (λ next. IsMapOf settings.now (points_in after.now) next × (next ≢ levels.now))) }
{
    viewpoints_that_want_the_same_split_the_same();
    if want_same(settings, before, after) {
        return Ok(None);
    }
    let cameras = after.points(alloc)?;
    let next = choose(alloc, settings, &cameras)?;
    if next == *levels {
        return Ok(None);
    }
    Ok(Some(next))
}
