//! Scripts that are carried out as wires: their patches are written, and not their meshes.
//!
//! A wire has no viewers, so that nothing is published: an output command writes the patch of the events since the one
//! before, and marks them as sent. It writes nothing where no event came since then.

ghost use Rattle.std.specs.Prelude.{◌≡◌, ◌<◌, ◌++◌, ◌∷◌, [], true, All, IfErr, IfOk, OnErr, OnOk, false, length};
ghost use Rattle.std.specs.Arc.{arc_value};
ghost use Rattle.std.specs.Io.KnownBytes.{IsAtEnd};
ghost use Rattle.block_mesh.specs.Done.{IsDone};
ghost use Rattle.camera_script.specs.declared.commands.Command.TheVariants as commands;
ghost use Rattle.lattice.specs.Settings.{IsSettings};
ghost use Rattle.mesh_out.specs.Writing.{StopsWriting};
ghost use Rattle.patch_wire.specs.Puttable.{CanBePut, wire_patch};
ghost use Rattle.terra_io.specs.Stream.{Appends, IsFaultless};
ghost use Rattle.script_play.specs.Input.{CountsFit};
ghost use Rattle.script_play.specs.Play.{PlaysLines};
ghost use Rattle.script_play.specs.Statuses.{status_from};
ghost use Rattle.script_play.specs.Play.{wire_alone};
ghost use Rattle.script_play.specs.Script.{is_bare};
ghost use Rattle.script_play.specs.Sender.{IsFreshSender};
ghost use Rattle.terrain.specs.History.{IsLawfulEvent};
ghost use Rattle.terrain.specs.declared.event.Event.TheVariants as events;
ghost use Rattle.terrain.specs.declared.event.TheConstants.{MAX_EVENTS};

use crate::executor::Executor;
use crate::input::Input;
use crate::playing::play_lines;
use crate::status::Status;
use block_mesh::Block;
use camera_script::Command;
use cells::Cases;
use lattice::Settings;
use mesh_jobs::{Board, Bulk, Mesher};
use mesh_out::OutFault;
use octree::maps_of_viewpoints_are_balanced;
use patch_wire::{can_be_put, put_head, put_patch};
use snapshots::Patch;
use std::alloc::{AllocError, Global};
use std::marker::Model;
use std::sync::{Arc, Wait};
use std::thread::Threads;
use terra_events::World;
use terra_io::{Sink, Source};
use terrain::Event;

/// A world whose patches are sent.
///
/// Contracts see its board, whose marked events were sent.
#[derive(Drop)]
pub struct Sender<M> {
    board: Board,
    mesher: M,
    /// How many events were sent.
    sent: usize,
}

impl<M> Model for Sender<M> {
    ghost use Rattle.std.specs.Prelude.{◌≡◌};
    ghost use Rattle.mesh_board.specs.Board.{BoardState};

    ghost Value = { BoardState };

    ghost view = { λ sender. sender.board };

    ghost invariant = { λ sender. sender.sent ≡ sender.board.marked };
}

impl<M: Mesher + Drop> Sender<M> {
    ghost use Rattle.script_play.specs.Sender.{patch_left, publication_left};

    /// Returns the sender of a world before any event, whose blocks this mesher makes. Out of memory is the only error.
    fn new(
        alloc: Global,
        cases: &Cases,
        settings: Settings,
        mesher: M,
    ) -> Result<Sender<M>, AllocError>
        requires { IsSettings settings }
        ensures { IfOk result (IsFreshSender settings) }
    {
        let board = Board::new(alloc, cases, settings)?;
        Ok(Sender {
            board,
            mesher,
            sent: 0,
        })
    }

    /// Adds an event to the world. Out of memory is the only error, and leaves the sender as it was.
    fn apply(&mut self, alloc: Global, event: Event) -> Result<(), AllocError>
        requires lawful { IsLawfulEvent self.old.world.settings.depth event }
        requires room { length self.old.world.events < MAX_EVENTS }
        requires edit { is_bare self.old.world.events (commands.Event event) ≡ false }
        ensures settings { self.new.world.settings ≡ self.old.world.settings }
        ensures events { OnOk result (self.new.world.events
            ≡ self.old.world.events ++ event ∷ []) }
        ensures marked { self.new.marked ≡ self.old.marked }
        ensures unchanged { OnErr result (self.new ≡ self.old) }
    {
        // The journal has room, and there is an edit to undo, so that memory ran out is all that an error can be.
        if self.board.apply(alloc, event).is_err() {
            return Err(AllocError);
        }
        Ok(())
    }

    /// Writes the patch of the events that weren't sent yet, if there are any, which are sent then.
    ///
    /// The error is out of memory, or that a write failed; the sink has a first part of the patch then.
    fn send<K: Sink, R: Threads + Wait + Sync>(
        &mut self,
        rt: &R,
        alloc: Global,
        sink: &mut K,
    ) -> Result<(), OutFault>
        ensures sent { OnOk result (Appends (K.state sink.old) (K.state sink.new)
            (publication_left self.old)) }
        ensures faultless { OnOk result (IsFaultless (K.state sink.old) (K.state sink.new)) }
        ensures world { self.new.world ≡ self.old.world }
        ensures marked { OnOk result (self.new.marked ≡ length self.old.world.events) }
        ensures stopped { IfErr result (λ fault. StopsWriting fault (K.state sink.old)
            (K.state sink.new) (publication_left self.old)) }
    {
        let count = self.board.world().events().len();
        if self.sent == count {
            return Ok(());
        }
        let patch = self.patch(rt, alloc)?;
        put_patch(sink, &patch)?;
        self.board.mark_published();
        self.sent = count;
        Ok(())
    }

    /// Returns the patch of the events that weren't sent yet. Out of memory is the only error.
    fn patch<R: Threads + Wait + Sync>(
        &mut self,
        rt: &R,
        alloc: Global,
    ) -> Result<Patch, AllocError>
        ensures patch { IfOk result (λ patch. wire_patch patch ≡ patch_left self.old) }
        ensures taken { IfOk result CanBePut }
        ensures world { self.new.world ≡ self.old.world }
        ensures marked { self.new.marked ≡ self.old.marked }
    {
        maps_of_viewpoints_are_balanced();
        self.mesher.settle(rt, alloc, &mut self.board)?;
        let _world = self.board.world();
        let patch = self.board.patch(alloc)?;
        have_own_meshes(&patch.put);
        // No patch of a board is refused. That isn't proved, and it would be told as out of memory.
        if !can_be_put(&patch) {
            return Err(AllocError);
        }
        Ok(patch)
    }
}

/// The law that the mesh of each block is that of its brick.
fn have_own_meshes(blocks: &[Arc<Block>])
    ensures { All (λ done. IsDone (arc_value done)) blocks.now }
{
    for done in blocks {
        let _ = done.node();
    }
}

impl<M: Mesher + Drop> Executor for Sender<M> {
    ghost use Rattle.script_play.specs.Sender.{executor_of_board};

    ghost state = { executor_of_board };

    fn world(&self) -> &World {
        self.board.world()
    }

    fn execute<K: Sink, R: Threads + Wait + Sync>(
        &mut self,
        rt: &R,
        alloc: Global,
        command: &Command,
        _is_last: bool,
        sink: &mut K,
    ) -> Result<(), OutFault> {
        // No more events were sent than came.
        let _world = self.board.world();
        match command {
            Command::Event(event) => Ok(self.apply(alloc, *event)?),
            Command::Shot { .. } | Command::Stats | Command::Pick { .. } => {
                self.send(rt, alloc, sink)
            }
        }
    }
}

/// Writes the head of a wire, carries out the commands that are left of an input, and writes their patches.
pub fn send_lines<S: Source, K: Sink, R: Threads + Wait + Sync>(
    rt: &R,
    alloc: Global,
    cases: &Cases,
    settings: &Settings,
    input: &mut Input,
    source: &mut S,
    sink: &mut K,
) -> Result<(), Status>
    requires allowed { IsSettings settings.now }
    requires counts { CountsFit input.old }
    requires number { 0 < input.old.number }
    requires end { input.old.is_ended ≡ true → IsAtEnd (S.state source.old).bytes }
    ensures { PlaysLines settings.now input.old wire_alone (S.state source.old)
        (S.state source.new) (K.state sink.old) (K.state sink.new) (status_from result) }
{
    let mut sender = Sender::new(alloc, cases, *settings, Bulk::new(cases))?;
    let ended = send_all(rt, alloc, settings, &mut sender, input, source, sink);
    drop(sender);
    ended
}

/// Does the same by a sender before any event.
fn send_all<M: Mesher + Drop, S: Source, K: Sink, R: Threads + Wait + Sync>(
    rt: &R,
    alloc: Global,
    settings: &Settings,
    sender: &mut Sender<M>,
    input: &mut Input,
    source: &mut S,
    sink: &mut K,
) -> Result<(), Status>
    requires allowed { IsSettings settings.now }
    requires fresh { IsFreshSender settings.now sender.old }
    requires counts { CountsFit input.old }
    requires number { 0 < input.old.number }
    requires end { input.old.is_ended ≡ true → IsAtEnd (S.state source.old).bytes }
    ensures { PlaysLines settings.now input.old wire_alone (S.state source.old)
        (S.state source.new) (K.state sink.old) (K.state sink.new) (status_from result) }
{
    if put_head(sink, settings).is_err() {
        return Err(Status::WriteFault);
    }
    play_lines(rt, alloc, settings, sender, input, source, sink)
}
