//! Scenes: a world that is edited, and the frames of it that viewers enter.

ghost use Rattle.std.specs.Prelude.{◌≡◌, ◌<◌, ◌↔◌, ◌++◌, [], ◌∷◌, false, All, IfOk, IfSome, IsErrOf, IsSome, MatchOption, OnErr, OnOk, length, vec_len};
ghost use Rattle.lattice.specs.Settings.{IsSettings};
ghost use Rattle.terrain.specs.History.{HasNothingToUndo, IsLawfulEvent, in_force, undoes_nothing};
ghost use Rattle.terrain.specs.Levels.{IsLeaf, levels};
ghost use Rattle.terra_events.specs.World.{IsWorldOf};
ghost use Rattle.fault_counts.specs.Counts.{HasRisen, next_count};
ghost use Rattle.block_mesh.specs.Mesh.{IsMesh, ShowsMesh};
ghost use Rattle.terrain.specs.MeshLists.{lists_of};
ghost use Rattle.snapshots.specs.Frame.{IsSound, mesh_after};
ghost use Rattle.snapshots.specs.Seamless.{HasNoCrack};
ghost use Rattle.published_frames.specs.States.{viewer_of};
ghost use Rattle.scenes.specs.Scene.{publisher_of};
ghost use Rattle.event_laws.specs.Changes.{change};
ghost use Rattle.mesh_board.specs.Board.{IsBoard, events_since, marked_events};

use crate::publishing::catch_up;
use crate::refused::Refused;
use block_mesh::BlockView;
use cells::Cases;
use lattice::{Node, Settings};
use mesh_jobs::{Board, Mesher};
use published_frames::{BeginFault, Door, Publisher, Told, Viewer, begin};
use snapshots::Frame;
use std::alloc::{AllocError, Global};
use std::marker::Model;
use std::sync::Wait;
use std::thread::Threads;
use terra_events::{Event, MAX_EVENTS, World, is_lawful};

/// A world that is edited, and the frames of it that viewers enter, in threads of their own or not. End it by `close`.
///
/// Contracts see the board, which has the world, the series of its frames, which stays, the frame that is shown (that
/// of the events up to the last publication), and how many viewers it has given.
pub struct Scene<M> {
    board: Board,
    /// It shows the frame of the board's marked journal.
    publisher: Publisher,
    mesher: M,
}

impl<M> Model for Scene<M> {
    ghost use Rattle.scenes.specs.Publishing.{ShowsMarked};
    ghost use Rattle.scenes.specs.Scene.{SceneState, scene_of};

    ghost Value = { SceneState };

    ghost view = { λ scene. scene_of scene.board scene.publisher };

    ghost invariant = { λ scene. ShowsMarked scene.board scene.publisher.frame };
}

impl<M: Mesher + Drop> Scene<M> {
    /// Returns the scene of a world before any event, whose frames this mesher makes, and exactly as many viewers as
    /// are asked for, which are its own and have seen the opening frame; it has given no other. The error is `NoPlace`
    /// only where the door refused a viewer, and else out of memory.
    pub fn open<D: Door, R: Wait>(
        rt: &R,
        alloc: Global,
        door: &mut D,
        cases: &Cases,
        settings: Settings,
        mesher: M,
        viewers: u8,
    ) -> Result<(Scene<M>, Vec<Viewer>), BeginFault>
        requires { IsSettings settings }
        ensures stands { IfOk result (λ opened. IsWorldOf opened.0.board.world settings []) }
        ensures shown { IfOk result (λ opened. opened.0.shown.events ≡ []) }
        ensures seamless { IfOk result (λ opened. HasNoCrack opened.0.shown) }
        ensures viewers { IfOk result (λ opened. vec_len opened.1 ≡ viewers) }
        ensures own { IfOk result (λ opened.
            All (λ viewer. viewer ≡ viewer_of (publisher_of opened.0)) opened.1.items) }
        ensures given { IfOk result (λ opened. opened.0.viewers ≡ viewers) }
        ensures refused { IsErrOf result BeginFault.NoPlace → (0 < viewers)
            × HasRisen (D.refusals door.old) (D.refusals door.new) }
        ensures let_in { ¬ IsErrOf result BeginFault.NoPlace
            → D.refusals door.new ≡ D.refusals door.old }
    {
        let board = Board::new(alloc, cases, settings)?;
        let (publisher, viewers) = begin(rt, alloc, door, cases, settings, viewers)?;
        let scene = Scene {
            board,
            publisher,
            mesher,
        };
        Ok((scene, viewers))
    }

    /// Adds an event to the world, and lets the mesher go on. The error is `NotLawful` exactly where the event isn't
    /// lawful in the world, `Full` exactly where it is and the journal has `MAX_EVENTS` events, `NothingToUndo` exactly
    /// where it has fewer and the event is an undo with no edit in force, and else out of memory; each leaves the scene
    /// as it was.
    pub fn apply(&mut self, alloc: Global, event: Event) -> Result<(), Refused>
        ensures settings { self.new.board.world.settings ≡ self.old.board.world.settings }
        ensures events { OnOk result
            (self.new.board.world.events ≡ self.old.board.world.events ++ event ∷ []) }
        ensures marked { self.new.board.marked ≡ self.old.board.marked }
        ensures shown { publisher_of self.new ≡ publisher_of self.old }
        ensures unlawful { IsErrOf result Refused.NotLawful
            ↔ (¬ IsLawfulEvent self.old.board.world.settings.depth event) }
        ensures full { IsErrOf result Refused.Full
            ↔ (IsLawfulEvent self.old.board.world.settings.depth event
            × (length self.old.board.world.events ≡ MAX_EVENTS)) }
        ensures nothing { IsErrOf result Refused.NothingToUndo
            ↔ HasNothingToUndo self.old.board.world.events event }
        ensures unchanged { OnErr result (self.new ≡ self.old) }
    {
        let world = self.board.world();
        if !is_lawful(&event, world.settings()) {
            return Err(Refused::NotLawful);
        }
        if world.events().len() == MAX_EVENTS {
            return Err(Refused::Full);
        }
        if world.undoes_nothing(&event) {
            return Err(Refused::NothingToUndo);
        }
        self.apply_lawful(alloc, event)?;
        self.feed(alloc);
        Ok(())
    }

    /// Adds an event that is known to be lawful to a journal that has room for it, and an undo only where an edit is in
    /// force, as `apply` does without the tests, and leaves the mesher alone: see `feed`. Out of memory is the only
    /// error, and leaves the scene as it was.
    pub fn apply_lawful(&mut self, alloc: Global, event: Event) -> Result<(), AllocError>
        requires lawful { IsLawfulEvent self.old.board.world.settings.depth event }
        requires room { length self.old.board.world.events < MAX_EVENTS }
        requires edit { undoes_nothing event (in_force self.old.board.world.events) ≡ false }
        ensures settings { self.new.board.world.settings ≡ self.old.board.world.settings }
        ensures events { OnOk result
            (self.new.board.world.events ≡ self.old.board.world.events ++ event ∷ []) }
        ensures marked { self.new.board.marked ≡ self.old.board.marked }
        ensures shown { publisher_of self.new ≡ publisher_of self.old }
        ensures unchanged { OnErr result (self.new ≡ self.old) }
    {
        // The journal has room, and there is an edit to undo, so that memory ran out is all that an error can be.
        if self.board.apply(alloc, event).is_err() {
            return Err(AllocError);
        }
        Ok(())
    }

    /// Lets the mesher go on: one with workers hands them the leaves that are to be meshed. All but which leaves are
    /// meshed stays.
    ///
    /// After `apply` that is done. After several calls of `apply_lawful` it is best done once, where the caller is
    /// about to wait for the next event: a leaf that changes again before a publication is meshed for nothing. What
    /// the mesher doesn't get to is done at the next publication.
    pub fn feed(&mut self, alloc: Global)
        ensures { self.new ≡ record self.old {
          board = record self.old.board { leaves = self.new.board.leaves };
        } }
    {
        let _ = self.mesher.feed(alloc, &mut self.board);
    }

    /// Shows viewers the frame of all events, and returns the news of it, for viewers to learn and for renderers to
    /// draw from: which leaves were put and which are gone since the last publication. It does nothing, and returns
    /// none, where no event came since then. Out of memory is the only error, and leaves the world and what is shown.
    /// The frame that is shown then has no crack.
    ///
    /// It waits for viewers that are still in the frame before the one that is shown.
    pub fn publish<R: Threads + Wait + Sync>(
        &mut self,
        rt: &R,
        alloc: Global,
    ) -> Result<Option<Told>, AllocError>
        ensures shown { OnOk result (self.new.shown.events ≡ self.old.board.world.events) }
        ensures settings { self.new.shown.settings ≡ self.old.board.world.settings }
        ensures seamless { HasNoCrack self.new.shown }
        ensures news { IfOk result (λ news. MatchOption news (self.new ≡ self.old)
            (λ news. news.frame ≡ self.new.shown)) }
        ensures changes { let board = self.old.board in IfOk result (λ news. IfSome news (λ news.
            news.changes
            ≡ change board.world.settings (marked_events board) (events_since board))) }
        ensures marked { OnOk result (self.new.board.marked
            ≡ length self.old.board.world.events) }
        ensures world { self.new.board.world ≡ self.old.board.world }
        ensures viewers { (self.new.series ≡ self.old.series)
            × (self.new.viewers ≡ self.old.viewers) }
        ensures unchanged { OnErr result (self.new ≡ record self.old {
          board = record self.old.board { leaves = self.new.board.leaves };
        }) }
    {
        if self.publisher.shown().events().len() == self.board.world().events().len() {
            return Ok(None);
        }
        let news = catch_up(
            rt,
            alloc,
            &mut self.board,
            &mut self.publisher,
            &mut self.mesher,
        )?;
        Ok(Some(news))
    }

    /// Returns one more viewer of this scene, which has seen the shown frame. It returns none only where the door's
    /// count of refusals rose.
    pub fn seat<D: Door>(&mut self, door: &mut D) -> Option<Viewer>
        ensures scene { MatchOption result (self.new ≡ self.old)
            (λ _. self.new ≡ record self.old { viewers = next_count self.old.viewers }) }
        ensures viewer { IfSome result (λ viewer. viewer ≡ viewer_of (publisher_of self.old)) }
        ensures counted { MatchOption result
            (HasRisen (D.refusals door.old) (D.refusals door.new))
            (λ _. D.refusals door.new ≡ D.refusals door.old) }
    {
        door.seat(&mut self.publisher)
    }

    /// Lends the frame that is shown: that of the events up to the last publication. It has no crack.
    pub fn shown(&self) -> &Frame
        ensures value { result.now ≡ self.now.shown }
        ensures sound { IsSound result.now }
        ensures seamless { HasNoCrack result.now }
        ensures settings { result.now.settings ≡ self.now.board.world.settings }
        ensures events { result.now.events ≡ marked_events self.now.board }
    {
        self.publisher.shown()
    }

    /// Lends the lists of a leaf's mesh in the shown frame; a node that isn't a leaf of it has none.
    pub fn block(&self, node: Node) -> Option<BlockView<'_>>
        ensures leaf { let shown = self.now.shown in IsSome result
            ↔ IsLeaf shown.settings.depth (levels shown.settings shown.events) node }
        ensures mesh { let shown = self.now.shown in IfSome result (λ view.
            ShowsMesh (lists_of view) (mesh_after shown.settings shown.events node)) }
        ensures lists { IfSome result (λ view. IsMesh (lists_of view)) }
    {
        self.publisher.shown().block(node)
    }

    /// Lends the world, after all events.
    pub fn world(&self) -> &World
        ensures value { result.now ≡ self.now.board.world }
        ensures board { IsBoard self.now.board }
    {
        self.board.world()
    }

    /// Ends the scene. Viewers that enter later are refused.
    ///
    /// It waits for viewers that are still in a frame.
    pub fn close<R: Wait>(self, rt: &R) {
        let Scene {
            board: _,
            publisher,
            mesher: _,
        } = self;
        publisher.close(rt);
    }
}
