//! The script of a drill.

ghost use Rattle.std.specs.Prelude.{◌≡◌, ◌≤◌, ◌+◌, ◌*◌, ◌++◌, [], All, IfOk, OnOk, length};
ghost use Rattle.camera_script.specs.Commands.{IsAllowedCommand};
ghost use Rattle.drills.specs.Drill.{IsDrillDepth, drill, stats_after};

use crate::generator::Generator;
use camera_script::Command;
use lattice::Settings;
use std::alloc::{AllocError, Global};
use terrain::{Brush, Event, Mode};

/// The greatest number of edits of a drill.
pub const MAX_EDITS: u32 = 10_000;

/// The greatest depth of the world of a drill. Deeper worlds have no drills.
pub const MAX_DRILL_DEPTH: u8 = 4;

/// The reach of the world of a drill.
pub const DRILL_REACH: u8 = 2;

/// After so many edits a drill has a line of stats.
pub const STATS_STEP: u32 = 8;

/// Returns the script of a drill in a world of this depth: a ground of half the world's height, edits and cameras that
/// the generator picks from a seed, a line of stats after every eighth of them, and one at the end. Out of memory is
/// the only error.
pub fn drill_script(
    alloc: Global,
    seed: u32,
    edits: u32,
    depth: u8,
) -> Result<Vec<Command>, AllocError>
    requires edits { edits ≤ MAX_EDITS }
    requires depth { IsDrillDepth depth }
    ensures script { IfOk result (λ commands. commands.items ≡ drill seed edits depth) }
    ensures lawful { IfOk result (λ commands. All (IsAllowedCommand depth) commands.items) }
    ensures few { IfOk result (λ commands. length commands.items ≤ 2 * edits + 2) }
{
    let settings = Settings {
        depth,
        reach: DRILL_REACH,
    };
    let mut generator = Generator { state: seed };
    let mut commands = Vec::new(alloc);
    let ground = Brush::Ground {
        mode: Mode::Fill,
        h: settings.world_side() / 2,
    };
    commands.push(Command::Event(Event::Edit(ground)))?;
    for done in 0..edits {
        commands.push(Command::Event(generator.event(&settings)))?;
        push_stats_after(&mut commands, done + 1)?;
    }
    commands.push(Command::Stats)?;
    Ok(commands)
}

/// Appends a line of stats where one comes after so many edits. Out of memory is the only error.
fn push_stats_after(commands: &mut Vec<Command>, done: u32) -> Result<(), AllocError>
    ensures stats { OnOk result
        (commands.new.items ≡ commands.old.items ++ stats_after done []) }
    ensures few { OnOk result (length commands.new.items ≤ length commands.old.items + 1) }
{
    if done % STATS_STEP == 0 {
        commands.push(Command::Stats)?;
    }
    Ok(())
}
