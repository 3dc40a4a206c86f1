//! The engine: a scene, and how much of it was written.
//!
//! `carry_out` carries out one command. An event goes to the scene. Leaves are handed to workers only where the next
//! line has yet to be read: of lines that come at once, many change the same leaves again. A shot, a line of stats or a
//! pick first publishes the frame of all events so far, and then writes of that frame; where no event came since the
//! last one, nothing is published or meshed. The engine counts shots, vertices and normals itself, since vertices and
//! normals are numbered on from shot to shot.
//!
//! What is left to write for commands (`left_to_write`) is a function of an engine and them. Each command writes its
//! part of that, so a run's text follows command by command, also where it stops halfway.

ghost use Rattle.std.specs.Prelude.{◌≡◌, ◌+◌, ◌*◌, ◌≤◌, ◌<◌, [], ◌∷◌, ◌++◌, false, All, List, OnOk, OnErr, IfOk, IfErr, length, vec_len};
ghost use Rattle.camera_script.specs.declared.commands.Command.{Command as CommandValue};
ghost use Rattle.terrain.specs.Blocks.{scratch};
ghost use Rattle.camera_script.specs.Commands.{IsAllowedCommand};
ghost use Rattle.lattice.specs.Settings.{IsSettings, world_side};
ghost use Rattle.lattice.specs.declared.point.TheConstants.{UNITS};
ghost use Rattle.mesh_out.specs.Text.{stats_text};
ghost use Rattle.mesh_out.specs.Writing.{StopsWriting, Writes};
ghost use Rattle.snapshots.specs.Frame.{IsSound};
ghost use Rattle.snapshots.specs.Meshes.{meshes_of};
ghost use Rattle.snapshots.specs.Seamless.{HasNoCrack};
ghost use Rattle.snapshots.specs.Stats.{stats_of};
ghost use Rattle.terrain.specs.declared.event.TheConstants.{MAX_EVENTS};
ghost use Rattle.terra_io.specs.Stream.{Appends, IsFaultless};
ghost use Rattle.script_play.specs.Output.{bases_after, no_bases, pick_after, shot_after};
ghost use Rattle.script_play.specs.Script.{events_by, is_bare};

use crate::executor::Executor;
use crate::shots::write_frame;
use camera_script::Command;
use cells::Cases;
use frame_surface::height_over;
use lattice::Settings;
use mesh_jobs::Mesher;
use mesh_out::{OutFault, write_pick, write_stats};
use published_frames::{PlainDoor, Viewer};
use scenes::Scene;
use snapshots::{Frame, sound_frames_have_no_crack};
use std::alloc::{AllocError, Global};
use std::marker::Model;
use std::sync::Wait;
use std::thread::Threads;
use surface_query::Bases;
use terra_events::World;
use terra_io::Sink;

/// An engine carries out fewer commands than this, so that its count of shots fits its type.
pub const COMMAND_LIMIT: u32 = 1 << 29;

/// A scene after some events, and how much of it was written. End it by `close`.
pub struct Engine<M> {
    scene: Scene<M>,
    /// The number of the next shot, from 1.
    shot: u32,
    /// How many vertices and how many normals were written so far.
    bases: Bases,
}

impl<M> Model for Engine<M> {
    ghost use Rattle.script_play.specs.Engine.{EngineState};

    ghost Value = { EngineState };

    ghost view = { λ engine. record {
      board = engine.scene.board;
      series = engine.scene.series;
      shown = engine.scene.shown;
      viewers = engine.scene.viewers;
      shot = engine.shot;
      bases = engine.bases;
    } };
}

impl<M: Mesher + Drop> Engine<M> {
    ghost use Rattle.script_play.specs.Engine.{FitsAfter, Keeps, left_to_write};

    /// Returns the engine of a world before any event, whose frames this mesher makes, and as many viewers of its own
    /// frames as are asked for; it has given no other. Out of memory is the only error; a viewer that has no place
    /// counts as that.
    pub fn new<R: Wait>(
        rt: &R,
        alloc: Global,
        cases: &Cases,
        settings: &Settings,
        mesher: M,
        viewers: u8,
    ) -> Result<(Engine<M>, Vec<Viewer>), AllocError>
        requires allowed { IsSettings settings.now }
        ensures settings { IfOk result (λ begun. begun.0.board.world.settings ≡ settings.now) }
        ensures events { IfOk result (λ begun. begun.0.board.world.events ≡ []) }
        ensures room { IfOk result (λ begun. FitsAfter begun.0 0) }
        ensures shot { IfOk result (λ begun. begun.0.shot ≡ 1) }
        ensures bases { IfOk result (λ begun. begun.0.bases ≡ no_bases) }
        ensures viewers { IfOk result (λ begun. vec_len begun.1 ≡ viewers) }
        ensures own { IfOk result (λ begun.
            All (λ viewer. viewer.series ≡ begun.0.series) begun.1.items) }
        ensures given { IfOk result (λ begun. begun.0.viewers ≡ viewers) }
    {
        let mut door = PlainDoor::new();
        let opened = Scene::open(rt, alloc, &mut door, cases, *settings, mesher, viewers);
        let Ok((scene, viewers)) = opened else {
            return Err(AllocError);
        };
        let engine = Engine {
            scene,
            shot: 1,
            bases: Bases {
                vertices: 0,
                normals: 0,
            },
        };
        Ok((engine, viewers))
    }

    /// Lends the frame that was published last.
    pub fn shown(&self) -> &Frame
        ensures value { result.now ≡ self.now.shown }
        ensures sound { IsSound result.now }
        ensures seamless { HasNoCrack result.now }
    {
        self.scene.shown()
    }

    /// Writes the mesh of the world as it is, with the normals of its vertices or without: that of the frame which is
    /// shown then, which has no crack.
    ///
    /// The error is out of memory, or that a write failed; the sink has a first part of the text then.
    fn shoot<K: Sink, R: Threads + Wait + Sync>(
        &mut self,
        rt: &R,
        alloc: Global,
        normals: bool,
        sink: &mut K,
    ) -> Result<(), OutFault>
        requires shots { self.old.shot ≤ COMMAND_LIMIT }
        ensures text { let world = self.old.board.world in OnOk result
            (Appends (K.state sink.old) (K.state sink.new)
            (shot_after world.settings world.events self.old.shot self.old.bases normals)) }
        ensures own { OnOk result (Appends (K.state sink.old) (K.state sink.new)
            (shot_after self.new.shown.settings self.new.shown.events self.old.shot
            self.old.bases normals)) }
        ensures seamless { HasNoCrack self.new.shown }
        ensures faultless { OnOk result (IsFaultless (K.state sink.old) (K.state sink.new)) }
        ensures world { self.new.board.world ≡ self.old.board.world }
        ensures shot { OnOk result (self.new.shot ≡ self.old.shot + 1) }
        ensures bases { let world = self.old.board.world in OnOk result (self.new.bases
            ≡ bases_after self.old.bases normals (scratch world.settings world.events)) }
        ensures stopped { let world = self.old.board.world in IfErr result (λ fault.
            StopsWriting fault (K.state sink.old) (K.state sink.new)
            (shot_after world.settings world.events self.old.shot self.old.bases normals)) }
        ensures kept { OnErr result (Keeps self.old self.new) }
    {
        sound_frames_have_no_crack();
        self.scene.publish(rt, alloc)?;
        let frame = self.scene.shown();
        let bases = write_frame(alloc, sink, self.shot, self.bases, normals, frame)?;
        self.shot += 1;
        self.bases = bases;
        Ok(())
    }

    /// Writes the line of stats of the world as it is: that of the frame which is shown then, which has no crack.
    ///
    /// The error is out of memory, or that a write failed; the sink has a first part of the line then.
    fn tell<K: Sink, R: Threads + Wait + Sync>(
        &mut self,
        rt: &R,
        alloc: Global,
        sink: &mut K,
    ) -> Result<(), OutFault>
        ensures text { let world = self.old.board.world in OnOk result
            (Appends (K.state sink.old) (K.state sink.new)
            (stats_text (stats_of (scratch world.settings world.events)))) }
        ensures own { OnOk result (Appends (K.state sink.old) (K.state sink.new)
            (stats_text (stats_of (meshes_of self.new.shown)))) }
        ensures seamless { HasNoCrack self.new.shown }
        ensures faultless { OnOk result (IsFaultless (K.state sink.old) (K.state sink.new)) }
        ensures stopped { let world = self.old.board.world in IfErr result (λ fault.
            StopsWriting fault (K.state sink.old) (K.state sink.new)
            (stats_text (stats_of (scratch world.settings world.events)))) }
        ensures kept { Keeps self.old self.new }
    {
        sound_frames_have_no_crack();
        self.scene.publish(rt, alloc)?;
        write_stats(alloc, sink, self.scene.shown())
    }

    /// Writes the line of the pick over a place, in units of 1/256 fine cell, into the mesh of the world as it is: that
    /// of the frame which is shown then, which has no crack.
    ///
    /// The error is out of memory, or that a write failed; the sink has a first part of the line then.
    fn pick<K: Sink, R: Threads + Wait + Sync>(
        &mut self,
        rt: &R,
        alloc: Global,
        x: u32,
        y: u32,
        sink: &mut K,
    ) -> Result<(), OutFault>
        requires x { x ≤ UNITS * world_side self.old.board.world.settings.depth }
        requires y { y ≤ UNITS * world_side self.old.board.world.settings.depth }
        ensures text { let world = self.old.board.world in OnOk result
            (Appends (K.state sink.old) (K.state sink.new)
            (pick_after world.settings world.events x y)) }
        ensures seamless { HasNoCrack self.new.shown }
        ensures faultless { OnOk result (IsFaultless (K.state sink.old) (K.state sink.new)) }
        ensures stopped { let world = self.old.board.world in IfErr result (λ fault.
            StopsWriting fault (K.state sink.old) (K.state sink.new)
            (pick_after world.settings world.events x y)) }
        ensures kept { Keeps self.old self.new }
    {
        sound_frames_have_no_crack();
        self.scene.publish(rt, alloc)?;
        let height = height_over(self.scene.shown(), x, y);
        write_pick(sink, x, y, height)
    }

    /// Carries out a command. The frame that is shown then, whose text it writes if it writes any, has no crack. Where
    /// no further command is there yet, an event has the mesher go on.
    ///
    /// The error is out of memory, or that a write failed; the sink has a first part of what the command writes then.
    pub fn carry_out<K: Sink, R: Threads + Wait + Sync>(
        &mut self,
        rt: &R,
        alloc: Global,
        command: &Command,
        is_last: bool,
        sink: &mut K,
    ) -> Result<(), OutFault>
        requires lawful { IsAllowedCommand self.old.board.world.settings.depth command.now }
        requires room { length self.old.board.world.events + length (events_by command.now)
            ≤ MAX_EVENTS }
        requires edit { is_bare self.old.board.world.events command.now ≡ false }
        requires shots { self.old.shot ≤ COMMAND_LIMIT }
        ensures carried { OnOk result ((rest : List CommandValue)
            → Writes (K.state sink.old) (K.state sink.new)
            (left_to_write self.old (command.now ∷ rest)) (left_to_write self.new rest)) }
        ensures settings { self.new.board.world.settings ≡ self.old.board.world.settings }
        ensures events { OnOk result (self.new.board.world.events
            ≡ self.old.board.world.events ++ events_by command.now) }
        ensures shots { OnOk result (self.new.shot ≤ self.old.shot + 1) }
        ensures stopped { IfErr result (λ fault. (rest : List CommandValue)
            → StopsWriting fault (K.state sink.old) (K.state sink.new)
            (left_to_write self.old (command.now ∷ rest))) }
        ensures seamless { HasNoCrack self.new.shown }
        ensures kept { OnErr result (Keeps self.old self.new) }
    {
        // An event leaves the frame that is shown.
        let _shown = self.scene.shown();
        match command {
            Command::Shot { normals } => self.shoot(rt, alloc, *normals, sink),
            Command::Stats => self.tell(rt, alloc, sink),
            Command::Pick { x, y } => self.pick(rt, alloc, *x, *y, sink),
            Command::Event(event) => {
                self.scene.apply_lawful(alloc, *event)?;
                if is_last {
                    self.scene.feed(alloc);
                }
                Ok(())
            }
        }
    }

    /// Ends the scene.
    pub fn close<R: Wait>(self, rt: &R) {
        let Self {
            scene,
            shot: _,
            bases: _,
        } = self;
        scene.close(rt);
    }
}

impl<M: Mesher + Drop> Executor for Engine<M> {
    ghost use Rattle.script_play.specs.Engine.{executor_of};

    ghost state = { executor_of };

    fn world(&self) -> &World {
        self.scene.world()
    }

    fn execute<K: Sink, R: Threads + Wait + Sync>(
        &mut self,
        rt: &R,
        alloc: Global,
        command: &Command,
        is_last: bool,
        sink: &mut K,
    ) -> Result<(), OutFault> {
        self.carry_out(rt, alloc, command, is_last, sink)
    }
}
