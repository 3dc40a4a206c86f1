//! The arguments that ask for a drill.

ghost use Rattle.std.specs.Prelude.{◌≡◌, ◌↔◌, IfSome, Some};
ghost use Rattle.drills.specs.Drill.{IsDrillDepth};
ghost use Rattle.arguments.specs.Drill.{AreDrillArguments, IsDrill};
ghost use Rattle.arguments.specs.Request.{texts};
ghost use Rattle.arguments.specs.declared.drill.Drill.{Drill as DrillOf};

use crate::number::number;
use drills::{MAX_DRILL_DEPTH, MAX_EDITS};

/// The arguments of a drill.
#[derive(Clone, Copy, Debug, PartialEq, Eq)]
pub struct Drill {
    /// What the generator begins with.
    pub seed: u32,
    /// At most `MAX_EDITS`.
    pub edits: u32,
    /// The depth of the world, at most `MAX_DRILL_DEPTH`.
    pub depth: u8,
}

/// Returns the drill that the arguments ask for: `drill`, and then its seed, its number of edits and its depth as plain
/// decimal numbers in their ranges. Other arguments ask for none.
pub(crate) fn drill_in(arguments: &[&str]) -> Option<Drill>
    ensures { (drill : DrillOf) → IsDrill (texts arguments.now) drill ↔ (result ≡ Some drill) }
{
    let [form, seed, edits, depth] = arguments else {
        return None;
    };
    if *form != "drill" {
        return None;
    }
    drill_of(
        number(seed, u32::MAX),
        number(edits, MAX_EDITS),
        number(depth, u32::from(MAX_DRILL_DEPTH)),
    )
}

/// Returns the drill with these arguments, if all are there.
fn drill_of(seed: Option<u32>, edits: Option<u32>, depth: Option<u32>) -> Option<Drill>
    requires { IfSome depth IsDrillDepth }
    ensures { (drill : DrillOf) → AreDrillArguments seed edits depth drill ↔ (result ≡ Some drill) }
{
    match (seed, edits, depth) {
        (Some(seed), Some(edits), Some(depth)) => Some(Drill {
            seed,
            edits,
            depth: depth as u8,
        }),
        _ => None,
    }
}
