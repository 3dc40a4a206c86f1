//! The lines of a script behind its head, carried out one after another.
//!
//! A line with an event for which the journal has no room, or with an undo where no edit is in force, is refused as it
//! is read: what carries out the others meets neither.

ghost use Rattle.std.specs.Prelude.{◌≡◌, ◌<◌, true};
ghost use Rattle.lattice.specs.Settings.{IsSettings};
ghost use Rattle.std.specs.Io.KnownBytes.{IsAtEnd};
ghost use Rattle.script_play.specs.Input.{CountsFit};
ghost use Rattle.script_play.specs.Engine.{IsFreshEngine};
ghost use Rattle.script_play.specs.Executor.{IsFreshExecutor, text_by};
ghost use Rattle.script_play.specs.Play.{PlaysLines, output_alone};
ghost use Rattle.script_play.specs.Statuses.{status_from};
ghost use Rattle.script_play.specs.Script as spec;

use crate::engine::Engine;
use crate::executor::Executor;
use crate::input::Input;
use crate::status::{Status, refused_status};
use camera_script::{Command, command};
use lattice::Settings;
use mesh_jobs::Mesher;
use std::alloc::Global;
use std::sync::Wait;
use std::thread::Threads;
use terra_events::{MAX_EVENTS, World};
use terra_io::{Sink, Source};

/// Carries out the commands that are left of an input, by an engine before any event.
pub fn play_by_engine<S: Source, K: Sink, R: Threads + Wait + Sync, M: Mesher + Drop>(
    rt: &R,
    alloc: Global,
    settings: &Settings,
    engine: &mut Engine<M>,
    input: &mut Input,
    source: &mut S,
    sink: &mut K,
) -> Result<(), Status>
    requires allowed { IsSettings settings.now }
    requires fresh { IsFreshEngine settings.now engine.old }
    requires counts { CountsFit input.old }
    requires number { 0 < input.old.number }
    requires end { input.old.is_ended ≡ true → IsAtEnd (S.state source.old).bytes }
    ensures { PlaysLines settings.now input.old output_alone (S.state source.old)
        (S.state source.new) (K.state sink.old) (K.state sink.new) (status_from result) }
{
    play_lines(rt, alloc, settings, engine, input, source, sink)
}

/// Carries out the commands that are left of an input, by what carried out none yet.
pub fn play_lines<S: Source, K: Sink, R: Threads + Wait + Sync, X: Executor>(
    rt: &R,
    alloc: Global,
    settings: &Settings,
    executor: &mut X,
    input: &mut Input,
    source: &mut S,
    sink: &mut K,
) -> Result<(), Status>
    requires allowed { IsSettings settings.now }
    requires fresh { IsFreshExecutor settings.now (X.state executor.old) }
    requires counts { CountsFit input.old }
    requires number { 0 < input.old.number }
    requires end { input.old.is_ended ≡ true → IsAtEnd (S.state source.old).bytes }
    ensures { PlaysLines settings.now input.old (text_by (X.state executor.old).left)
        (S.state source.old) (S.state source.new) (K.state sink.old) (K.state sink.new)
        (status_from result) }
{
    while input.advance(source)? {
        let command = match command(alloc, input.line(), settings) {
            Ok(command) => command,
            Err(fault) => return Err(refused_status(input.number(), fault)),
        };
        if !has_room(executor.world(), &command) {
            return Err(Status::JournalFull {
                line: input.number(),
            });
        }
        if is_bare(executor.world(), &command) {
            return Err(Status::NothingToUndo {
                line: input.number(),
            });
        }
        executor.execute(rt, alloc, &command, input.is_spent(), sink)?;
    }
    Ok(())
}

/// Returns whether a world's journal has room for a command's event, if it is one.
fn has_room(world: &World, command: &Command) -> bool
    ensures { result ≡ spec.has_room world.now.events command.now }
{
    let count = world.events().len();
    match command {
        Command::Event(_) => count < MAX_EVENTS,
        Command::Shot { .. } | Command::Stats | Command::Pick { .. } => true,
    }
}

/// Returns whether a command is an undo where no edit of a world is in force.
fn is_bare(world: &World, command: &Command) -> bool
    ensures { result ≡ spec.is_bare world.now.events command.now }
{
    match command {
        Command::Event(event) => world.undoes_nothing(event),
        Command::Shot { .. } | Command::Stats | Command::Pick { .. } => false,
    }
}
