//! Worlds that a game's thread owns.

ghost use Rattle.std.specs.Prelude.{◌≡◌, ◌≢◌, ◌↔◌, ◌++◌, [], ◌∷◌, IfOk, IsErrOf, IsTrue, MatchOption, OnErr, OnOk, length, map};
ghost use Rattle.std.specs.Arc.{arc_value};
ghost use Rattle.lattice.specs.declared.node.Node.{Node as NodeOf};
ghost use Rattle.lattice.specs.Settings.{IsSettings};
ghost use Rattle.terrain.specs.History.{HasNothingToUndo, IsLawfulEvent};
ghost use Rattle.terrain.specs.declared.event.TheConstants.{MAX_EVENTS};
ghost use Rattle.event_laws.specs.Changes.{change};
ghost use Rattle.block_mesh.specs.Done.{DoneState};
ghost use Rattle.snapshots.specs.Blocks.{block_node};
ghost use Rattle.snapshots.specs.Seamless.{HasNoCrack};
ghost use Rattle.mesh_board.specs.Board.{Delivers, IsBoard, IsReady, Takes, events_since, marked_events, state_after, state_of};
ghost use Rattle.mesh_board.specs.LeafStates.{fresh, recalled, wanted};
ghost use Rattle.terra_world.specs.Game.{no_change};

use crate::fault::{NotUpdated, Refused};
use crate::job::Job;
use crate::snapshot::Snapshot;
use block_mesh::{Bench, Block, Done};
use cells::Cases;
use lattice::{Node, Settings};
use mesh_jobs::{Board, Verdict, settle_on};
use snapshots::sound_frames_have_no_crack;
use std::alloc::{AllocError, Global};
use std::marker::Model;
use std::sync::Arc;
use terra_events::{World, is_lawful};
use terrain::{Event, MAX_EVENTS};

/// A world that is edited, with the frame that is drawn of it, which has the events up to the last update.
///
/// Contracts see the board, which has the world and how each leaf of it is, the frame, and what the last update
/// changed.
#[derive(Drop)]
pub struct GameWorld {
    cases: Arc<Cases>,
    /// It keeps its memory from one settling to the next.
    bench: Bench,
    board: Board,
    /// It has the events of the board's marked journal.
    frame: Snapshot,
    /// The leaves that the last update put, in the order of nodes.
    put: Vec<Node>,
    /// The leaves that went by the last update, in the order of nodes.
    gone: Vec<Node>,
}

impl Model for GameWorld {
    ghost use Rattle.terra_world.specs.Game.{GameState, IsMarkedFrame};

    ghost Value = { GameState };

    ghost view = { λ game. record {
      board = game.board;
      frame = game.frame;
      changes = record { put = game.put.items; gone = game.gone.items };
    } };

    ghost invariant = { λ game. IsMarkedFrame game.board game.frame };
}

impl GameWorld {
    ghost use Rattle.terra_events.specs.World.{IsWorldOf};

    /// Returns the world before any event, and its frame, which has one block without triangles. Out of memory is the
    /// only error.
    ///
    /// The room for all events and leaves is taken here.
    pub fn open(alloc: Global, settings: Settings) -> Result<GameWorld, AllocError>
        requires { IsSettings settings }
        ensures stands { IfOk result (λ game. IsWorldOf game.board.world settings []) }
        ensures frame { IfOk result (λ game. game.frame.events ≡ []) }
        ensures ready { IfOk result (λ game. IsReady game.board) }
        ensures changes { IfOk result (λ game. game.changes ≡ no_change) }
    {
        let cases = shared_cases(alloc)?;
        let frame = Snapshot::opening(alloc, &cases, settings)?;
        let board = Board::new(alloc, &cases, settings)?;
        Ok(GameWorld {
            cases,
            bench: Bench::new(),
            board,
            frame,
            put: Vec::new(alloc),
            gone: Vec::new(alloc),
        })
    }

    /// Adds an event to the world: each leaf that it touches is wanted from then on. The error is `NotLawful` exactly
    /// where the event isn't lawful in the world, `Full` exactly where it is and the journal has `MAX_EVENTS` events,
    /// `NothingToUndo` exactly where it has fewer and the event is an undo with no edit in force, and else out of
    /// memory; each leaves the world as it was.
    pub fn apply(&mut self, alloc: Global, event: Event) -> Result<(), Refused>
        ensures only { self.new ≡ record self.old { board = self.new.board } }
        ensures settings { self.new.board.world.settings ≡ self.old.board.world.settings }
        ensures events { OnOk result
            (self.new.board.world.events ≡ self.old.board.world.events ++ event ∷ []) }
        ensures states { OnOk result ((n : NodeOf) →
            state_of self.new.board n ≡ state_after self.old.board event n) }
        ensures marked { self.new.board.marked ≡ self.old.board.marked }
        ensures unlawful { IsErrOf result Refused.NotLawful
            ↔ (¬ IsLawfulEvent self.old.board.world.settings.depth event) }
        ensures full { IsErrOf result Refused.Full
            ↔ (IsLawfulEvent self.old.board.world.settings.depth event
            × (length self.old.board.world.events ≡ MAX_EVENTS)) }
        ensures nothing { IsErrOf result Refused.NothingToUndo
            ↔ HasNothingToUndo self.old.board.world.events event }
        ensures unchanged { OnErr result (self.new ≡ self.old) }
    {
        let world = self.board.world();
        if !is_lawful(&event, world.settings()) {
            return Err(Refused::NotLawful);
        }
        if world.events().len() == MAX_EVENTS {
            return Err(Refused::Full);
        }
        if world.undoes_nothing(&event) {
            return Err(Refused::NothingToUndo);
        }
        // The journal has room, and there is an edit to undo, so that memory ran out is all that an error can be.
        if self.board.apply(alloc, event).is_err() {
            return Err(Refused::NoMemory);
        }
        Ok(())
    }

    /// Meshes all leaves that aren't fresh on the calling thread, those that are out too. Every leaf is fresh after a
    /// success; out of memory is the only error. Leaves that are fresh stay so, as do the world and the frame.
    pub fn settle(&mut self, alloc: Global) -> Result<(), AllocError>
        ensures only { self.new ≡ record self.old { board = self.new.board } }
        ensures world { self.new.board.world ≡ self.old.board.world }
        ensures marked { self.new.board.marked ≡ self.old.board.marked }
        ensures fresh { (n : NodeOf) (done : DoneState)
            → state_of self.old.board n ≡ fresh done → state_of self.new.board n ≡ fresh done }
        ensures ready { OnOk result (IsReady self.new.board) }
    {
        settle_on(alloc, &self.cases, &mut self.bench, &mut self.board)
    }

    /// Returns whether every leaf is fresh, so that the frame can be brought up to date.
    pub fn is_ready(&self) -> bool
        ensures { IsTrue result ↔ IsReady self.now.board }
    {
        self.board.ready()
    }

    /// Brings the frame up to date: it has all events then, and no crack. The changes are what the events since the
    /// last update change. The error is `NotReady` exactly where a leaf isn't fresh, and else out of memory; each
    /// leaves the world as it was.
    pub fn update(&mut self, alloc: Global) -> Result<(), NotUpdated>
        ensures frame { OnOk result (self.new.frame.events ≡ self.old.board.world.events) }
        ensures settings { self.new.frame.settings ≡ self.old.board.world.settings }
        ensures seamless { HasNoCrack self.new.frame }
        ensures changes { let board = self.old.board in OnOk result (self.new.changes
            ≡ change board.world.settings (marked_events board) (events_since board)) }
        ensures board { OnOk result (self.new.board
            ≡ record self.old.board { marked = length self.old.board.world.events }) }
        ensures not_ready { IsErrOf result NotUpdated.NotReady ↔ (¬ IsReady self.old.board) }
        ensures unchanged { OnErr result (self.new ≡ self.old) }
    {
        sound_frames_have_no_crack();
        if !self.board.ready() {
            return Err(NotUpdated::NotReady);
        }
        let patch = self.board.patch(alloc)?;
        let put = nodes_of(alloc, &patch.put)?;
        let gone = patch.gone.to_vec(alloc)?;
        self.frame.go_on(alloc, patch)?;
        self.board.mark_published();
        self.put = put;
        self.gone = gone;
        Ok(())
    }

    /// Returns whether no leaf is wanted.
    pub fn wants_nothing(&self) -> bool
        ensures { IsTrue result ↔ ((n : NodeOf) → state_of self.now.board n ≢ wanted) }
    {
        self.board.wants_nothing()
    }

    /// Takes the brick of the first wanted leaf, in the order of nodes, as a job; the leaf is out from then on. There
    /// is none where no leaf is wanted. Out of memory is the only error, and leaves the world as it was.
    pub fn take(&mut self, alloc: Global) -> Result<Option<Job>, AllocError>
        ensures only { self.new ≡ record self.old { board = self.new.board } }
        ensures taken { IfOk result (λ taken. MatchOption taken
            (((n : NodeOf) → state_of self.old.board n ≢ wanted) × (self.new ≡ self.old))
            (Takes self.old.board self.new.board)) }
        ensures world { self.new.board.world ≡ self.old.board.world }
        ensures marked { self.new.board.marked ≡ self.old.board.marked }
        ensures unchanged { OnErr result (self.new ≡ self.old) }
    {
        let cases = Arc::try_clone(&self.cases)?;
        match self.board.take(alloc)? {
            Some(brick) => Ok(Some(Job::of(cases, brick))),
            None => Ok(None),
        }
    }

    /// Keeps the block of a brick where the brick is the present one of a leaf, which is fresh from then on; else
    /// nothing changes. It may come late or never, and from a job of another world.
    pub fn deliver(&mut self, done: Done) -> Verdict
        ensures only { self.new ≡ record self.old { board = self.new.board } }
        ensures verdict { Delivers self.old.board self.new.board done result }
        ensures world { self.new.board.world ≡ self.old.board.world }
        ensures marked { self.new.board.marked ≡ self.old.board.marked }
    {
        let (brick, block) = done.into_parts();
        self.board.deliver(&brick, block)
    }

    /// Makes each leaf that is out one that is wanted, so that jobs which never come back are asked for anew.
    pub fn recall(&mut self)
        ensures only { self.new ≡ record self.old { board = self.new.board } }
        ensures world { self.new.board.world ≡ self.old.board.world }
        ensures marked { self.new.board.marked ≡ self.old.board.marked }
        ensures states { (n : NodeOf)
            → state_of self.new.board n ≡ recalled (state_of self.old.board n) }
    {
        self.board.recall();
    }

    /// Lends the leaves that the last update put, in the order of nodes. Their blocks may be other ones than before,
    /// and all other leaves have the blocks that they had.
    pub fn put(&self) -> &[Node]
        ensures { result.now ≡ self.now.changes.put }
    {
        &self.put
    }

    /// Lends the leaves that went by the last update, in the order of nodes.
    pub fn gone(&self) -> &[Node]
        ensures { result.now ≡ self.now.changes.gone }
    {
        &self.gone
    }

    /// Lends the frame, which has the events up to the last update; `Snapshot::try_clone` makes another holder of it.
    pub fn frame(&self) -> &Snapshot
        ensures value { result.now ≡ self.now.frame }
        ensures settings { result.now.settings ≡ self.now.board.world.settings }
        ensures events { result.now.events ≡ marked_events self.now.board }
    {
        &self.frame
    }

    /// Lends the world, after all events.
    pub fn world(&self) -> &World
        ensures value { result.now ≡ self.now.board.world }
        ensures board { IsBoard self.now.board }
    {
        self.board.world()
    }
}

/// Returns the tables of sign cases, for the world and its jobs to share. Out of memory is the only error.
fn shared_cases(alloc: Global) -> Result<Arc<Cases>, AllocError> {
    let cases = Cases::new(alloc)?;
    Ok(Arc::new(alloc, cases)?)
}

/// Returns the nodes of these blocks. Out of memory is the only error.
fn nodes_of(alloc: Global, blocks: &[Arc<Block>]) -> Result<Vec<Node>, AllocError>
    ensures { IfOk result (λ nodes. nodes.items
        ≡ map (λ done. block_node (arc_value done)) blocks.now) }
{
    blocks.iter().map(|done| done.node()).collect(alloc)
}
