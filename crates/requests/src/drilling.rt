//! Drills: scripts that follow from the arguments alone.

ghost use Rattle.std.specs.Prelude.{◌≤◌};
ghost use Rattle.drills.specs.Drill.{IsDrillDepth};
ghost use Rattle.drills.specs.declared.drill.TheConstants.{MAX_EDITS};
ghost use Rattle.requests.specs.Drilled.{IsDrilled};

use crate::output::write_output;
use arguments::Drill;
use drills::{DRILL_REACH, drill_script};
use lattice::Settings;
use script_play::Status;
use std::alloc::Global;
use std::sync::Wait;
use std::thread::Threads;
use terra_io::Sink;

/// Carries out a drill, and returns how that ended: `Done`, `NoMemory`, or `WriteFault` where a write failed.
pub fn carry_out_drill<K: Sink, R: Threads + Wait + Sync>(
    rt: &R,
    alloc: Global,
    drill: Drill,
    sink: &mut K,
) -> Status
    requires edits { drill.edits ≤ MAX_EDITS }
    requires depth { IsDrillDepth drill.depth }
    ensures { IsDrilled drill (K.state sink.old) (K.state sink.new) result }
{
    let settings = Settings {
        depth: drill.depth,
        reach: DRILL_REACH,
    };
    let Ok(commands) = drill_script(alloc, drill.seed, drill.edits, drill.depth) else {
        return Status::NoMemory;
    };
    match write_output(rt, alloc, &settings, &commands, sink) {
        Ok(()) => Status::Done,
        Err(fault) => Status::from(fault),
    }
}
