//! What carries out the commands of a script.

ghost use Rattle.std.specs.Prelude.{◌≡◌, ◌+◌, ◌≤◌, [], ◌∷◌, ◌++◌, false, IfErr, List, OnOk, length};
ghost use Rattle.std.specs.Thread.{IsSync};
ghost use Rattle.camera_script.specs.Commands.{IsAllowedCommand};
ghost use Rattle.camera_script.specs.declared.commands.Command.{Command as CommandValue};
ghost use Rattle.mesh_out.specs.Writing.{StopsWriting, Writes};
ghost use Rattle.script_play.specs.Executor.{ExecutorState};
ghost use Rattle.script_play.specs.Script.{events_by, is_bare};
ghost use Rattle.script_play.specs.declared.engine.TheConstants.{COMMAND_LIMIT};
ghost use Rattle.terrain.specs.declared.event.TheConstants.{MAX_EVENTS};

use camera_script::Command;
use mesh_out::OutFault;
use std::alloc::Global;
use std::sync::Wait;
use std::thread::Threads;
use terra_events::World;
use terra_io::Sink;

/// What carries out the commands of a script one after another, and writes what they ask for.
pub trait Executor {
    // Its world, what is left to write for more commands, and the number of the next shot.
    ghost state: { Self → ExecutorState };

    /// Lends the world, after all events.
    fn world(&self) -> &World
        ensures { result.now ≡ (state self.now).world };

    /// Carries out a command. Where no further command is there yet (`is_last`), an event has the mesher go on.
    ///
    /// The error is out of memory, or that a write failed; the sink has a first part of what the command writes then.
    fn execute<K: Sink, R: Threads + Wait + Sync>(
        &mut self,
        rt: &R,
        alloc: Global,
        command: &Command,
        is_last: bool,
        sink: &mut K,
    ) -> Result<(), OutFault>
        requires sync { IsSync R.row }
        requires lawful { IsAllowedCommand (state self.old).world.settings.depth command.now }
        requires room { length (state self.old).world.events + length (events_by command.now)
            ≤ MAX_EVENTS }
        requires edit { is_bare (state self.old).world.events command.now ≡ false }
        requires shots { (state self.old).shot ≤ COMMAND_LIMIT }
        ensures carried { OnOk result ((rest : List CommandValue)
            → Writes (K.state sink.old) (K.state sink.new)
            ((state self.old).left (command.now ∷ rest)) ((state self.new).left rest)) }
        ensures ends { OnOk result ((state self.new).left [] ≡ []) }
        ensures settings { (state self.new).world.settings ≡ (state self.old).world.settings }
        ensures events { OnOk result ((state self.new).world.events
            ≡ (state self.old).world.events ++ events_by command.now) }
        ensures shots { OnOk result ((state self.new).shot ≤ (state self.old).shot + 1) }
        ensures stopped { IfErr result (λ fault. (rest : List CommandValue)
            → StopsWriting fault (K.state sink.old) (K.state sink.new)
            ((state self.old).left (command.now ∷ rest))) };
}
