//! The output of a script: what its commands write.

ghost use Rattle.std.specs.Prelude.{◌<◌, ◌≤◌, [], All, OnOk, IfErr, length};
ghost use Rattle.camera_script.specs.Commands.{IsAllowedCommand};
ghost use Rattle.lattice.specs.Settings.{IsSettings};
ghost use Rattle.terra_io.specs.Stream.{Appends, IsFaultless};
ghost use Rattle.mesh_out.specs.Writing.{StopsWriting};
ghost use Rattle.terrain.specs.declared.event.TheConstants.{MAX_EVENTS};
ghost use Rattle.script_play.specs.Engine.{IsFreshEngine};
ghost use Rattle.script_play.specs.Output.{output};
ghost use Rattle.script_play.specs.Script.{NoneIsBare, events_of};

use camera_script::Command;
use cells::Cases;
use lattice::Settings;
use mesh_jobs::Mesher;
use mesh_out::OutFault;
use mesh_pool::{Pool, Post, close_posts, help_beside, helpers_for, open_posts};
use script_play::{COMMAND_LIMIT, Engine};
use std::alloc::Global;
use std::mem::replace;
use std::sync::Wait;
use std::thread::Threads;
use terra_io::Sink;

/// Carries out the commands of a script, one after another, and writes their output.
///
/// It is an error where memory runs out and where a write fails; a first part of the output is written then.
pub fn write_output<K: Sink, R: Threads + Wait + Sync>(
    rt: &R,
    alloc: Global,
    settings: &Settings,
    commands: &[Command],
    sink: &mut K,
) -> Result<(), OutFault>
    requires allowed { IsSettings settings.now }
    requires lawful { All (IsAllowedCommand settings.now.depth) commands.now }
    requires few { length commands.now < COMMAND_LIMIT }
    requires room { length (events_of commands.now) ≤ MAX_EVENTS }
    requires edits { NoneIsBare [] commands.now }
    ensures whole { OnOk result
        (Appends (K.state sink.old) (K.state sink.new) (output settings.now commands.now)) }
    ensures faultless { OnOk result (IsFaultless (K.state sink.old) (K.state sink.new)) }
    ensures stopped { IfErr result (λ fault.
        StopsWriting fault (K.state sink.old) (K.state sink.new)
        (output settings.now commands.now)) }
{
    let made = Cases::new(alloc)?;
    let cases = &made;
    let (posts, seats) = open_posts(alloc, helpers_for(rt, settings.depth))?;
    let mut place = posts;
    let mut work = || -> Result<(), OutFault>
        requires allowed { IsSettings settings.now }
        requires lawful { All (IsAllowedCommand settings.now.depth) commands.now }
        requires few { length commands.now < COMMAND_LIMIT }
        requires room { length (events_of commands.now) ≤ MAX_EVENTS }
        requires edits { NoneIsBare [] commands.now }
        ensures whole { OnOk result (Appends (K.state sink.entry.now) (K.state sink.exit.now)
            (output settings.entry.now commands.entry.now)) }
        ensures faultless { OnOk result
            (IsFaultless (K.state sink.entry.now) (K.state sink.exit.now)) }
        ensures stopped { IfErr result (λ fault.
            StopsWriting fault (K.state sink.entry.now) (K.state sink.exit.now)
            (output settings.entry.now commands.entry.now)) }
    {
        let posts = replace(&mut place, Vec::new(alloc));
        write_and_close(rt, alloc, cases, settings, commands, posts, sink)
    };
    help_beside(rt, alloc, cases, seats, &mut work)
}

/// Does the same with the helpers of these posts, and tells these to stop, however the commands end.
fn write_and_close<K: Sink, R: Threads + Wait + Sync>(
    rt: &R,
    alloc: Global,
    cases: &Cases,
    settings: &Settings,
    commands: &[Command],
    posts: Vec<Post>,
    sink: &mut K,
) -> Result<(), OutFault>
    requires allowed { IsSettings settings.now }
    requires lawful { All (IsAllowedCommand settings.now.depth) commands.now }
    requires few { length commands.now < COMMAND_LIMIT }
    requires room { length (events_of commands.now) ≤ MAX_EVENTS }
    requires edits { NoneIsBare [] commands.now }
    ensures whole { OnOk result
        (Appends (K.state sink.old) (K.state sink.new) (output settings.now commands.now)) }
    ensures faultless { OnOk result (IsFaultless (K.state sink.old) (K.state sink.new)) }
    ensures stopped { IfErr result (λ fault.
        StopsWriting fault (K.state sink.old) (K.state sink.new)
        (output settings.now commands.now)) }
{
    let mut posts = posts;
    let written = write_by_pool(rt, alloc, cases, settings, commands, &mut posts, sink);
    close_posts(rt, posts);
    written
}

/// Does the same with the helpers of these posts.
fn write_by_pool<K: Sink, R: Threads + Wait + Sync>(
    rt: &R,
    alloc: Global,
    cases: &Cases,
    settings: &Settings,
    commands: &[Command],
    posts: &mut Vec<Post>,
    sink: &mut K,
) -> Result<(), OutFault>
    requires allowed { IsSettings settings.now }
    requires lawful { All (IsAllowedCommand settings.now.depth) commands.now }
    requires few { length commands.now < COMMAND_LIMIT }
    requires room { length (events_of commands.now) ≤ MAX_EVENTS }
    requires edits { NoneIsBare [] commands.now }
    ensures whole { OnOk result
        (Appends (K.state sink.old) (K.state sink.new) (output settings.now commands.now)) }
    ensures faultless { OnOk result (IsFaultless (K.state sink.old) (K.state sink.new)) }
    ensures stopped { IfErr result (λ fault.
        StopsWriting fault (K.state sink.old) (K.state sink.new)
        (output settings.now commands.now)) }
{
    let mesher = Pool::new(rt, cases, posts);
    let (mut engine, _) = Engine::new(rt, alloc, cases, settings, mesher, 0)?;
    let written = write_commands(rt, alloc, settings, commands, &mut engine, sink);
    engine.close(rt);
    written
}

/// Carries out commands by an engine before any event, one after another, and writes their output.
///
/// It is an error where memory runs out and where a write fails; a first part of the output is written then.
fn write_commands<M: Mesher + Drop, K: Sink, R: Threads + Wait + Sync>(
    rt: &R,
    alloc: Global,
    settings: &Settings,
    commands: &[Command],
    engine: &mut Engine<M>,
    sink: &mut K,
) -> Result<(), OutFault>
    requires fresh { IsFreshEngine settings.now engine.old }
    requires lawful { All (IsAllowedCommand settings.now.depth) commands.now }
    requires few { length commands.now < COMMAND_LIMIT }
    requires room { length (events_of commands.now) ≤ MAX_EVENTS }
    requires edits { NoneIsBare [] commands.now }
    ensures whole { OnOk result
        (Appends (K.state sink.old) (K.state sink.new) (output settings.now commands.now)) }
    ensures faultless { OnOk result (IsFaultless (K.state sink.old) (K.state sink.new)) }
    ensures stopped { IfErr result (λ fault.
        StopsWriting fault (K.state sink.old) (K.state sink.new)
        (output settings.now commands.now)) }
{
    for command in commands {
        engine.carry_out(rt, alloc, command, false, sink)?;
    }
    Ok(())
}
