//! Snapshots: frames that many hold, each in whatever thread.

ghost use Rattle.std.specs.Prelude.{◌≡◌, ◌+◌, ◌*◌, ◌≤◌, ◌↔◌, [], ◌++◌, IfNone, IfOk, IfSome, IsSome, OnErr, OnOk, length};
ghost use Rattle.audits.specs.Audit.{audit_of};
ghost use Rattle.lattice.specs.Key.{IsKey};
ghost use Rattle.lattice.specs.Node.{low_corner};
ghost use Rattle.lattice.specs.Settings.{IsSettings, world_side};
ghost use Rattle.lattice.specs.declared.point.TheConstants.{UNITS};
ghost use Rattle.terrain.specs.Blocks.{scratch};
ghost use Rattle.terrain.specs.History.{sample};
ghost use Rattle.terrain.specs.Levels.{IsLeaf, leaves, levels};
ghost use Rattle.terrain.specs.declared.event.TheConstants.{MAX_EVENTS};
ghost use Rattle.block_mesh.specs.Mesh.{IsMesh, ShowsMesh};
ghost use Rattle.terrain.specs.MeshLists.{lists_of};
ghost use Rattle.snapshots.specs.Frame.{IsSound, StandsFor, mesh_after};
ghost use Rattle.snapshots.specs.Patch.{Fits};
ghost use Rattle.snapshots.specs.Seamless.{HasNoCrack};
ghost use Rattle.snapshots.specs.Stats.{stats_of};
ghost use Rattle.surface_normals.specs.Normals.{normal_of};
ghost use Rattle.frame_surface.specs.Best.{IsBare, IsEarliest, IsHighest, IsReached};
ghost use Rattle.frame_surface.specs.Scan.{IsSmallHit};
ghost use Rattle.frame_surface.specs.Surface.{surface_after};

use audits::Audit;
use block_mesh::BlockView;
use cells::Cases;
use frame_surface::{Hit, Normal, normal, pick};
use lattice::{Key, Node, Point, Settings, nodes_of_worlds};
use snapshots::{Frame, Patch, Stats, sound_frames_have_no_crack};
use std::alloc::{AllocError, Global};
use std::marker::Model;
use std::sync::Arc;

/// A frame, which stays as it is for whoever holds it while its world goes on.
///
/// Contracts see the frame, which is sound.
#[derive(Drop)]
pub struct Snapshot {
    frame: Arc<Frame>,
}

impl Model for Snapshot {
    ghost use Rattle.snapshots.specs.Frame.{FrameState, IsSound};

    ghost Value = { FrameState };

    ghost view = { λ snapshot. snapshot.frame.value };

    ghost invariant = { λ snapshot. IsSound snapshot.frame.value };
}

impl Snapshot {
    /// Returns the snapshot of the empty journal, whose one leaf is the root. Out of memory is the only error.
    pub(crate) fn opening(
        alloc: Global,
        cases: &Cases,
        settings: Settings,
    ) -> Result<Snapshot, AllocError>
        requires { IsSettings settings }
        ensures sound { IfOk result IsSound }
        ensures settings { IfOk result (λ snapshot. snapshot.settings ≡ settings) }
        ensures events { IfOk result (λ snapshot. snapshot.events ≡ []) }
    {
        let frame = Frame::opening(alloc, cases, settings)?;
        Ok(Snapshot {
            frame: Arc::new(alloc, frame)?,
        })
    }

    /// Returns another holder of the same frame. The error is that no more can be counted.
    pub fn try_clone(&self) -> Result<Snapshot, AllocError>
        ensures { IfOk result (λ other. other ≡ self.now) }
    {
        Ok(Snapshot {
            frame: Arc::try_clone(&self.frame)?,
        })
    }

    /// Makes this the snapshot of a longer journal, by a patch that fits it. Out of memory is the only error, and
    /// leaves it as it was.
    ///
    /// Where nobody else holds the frame it absorbs the patch; else a copy does, which shares its blocks.
    pub(crate) fn go_on(&mut self, alloc: Global, patch: Patch) -> Result<(), AllocError>
        requires fits { Fits patch self.old }
        requires room { length self.old.events + length patch.events.items ≤ MAX_EVENTS }
        ensures sound { IsSound self.new }
        ensures settings { self.new.settings ≡ self.old.settings }
        ensures events { OnOk result
            (self.new.events ≡ self.old.events ++ patch.events.items) }
        ensures unchanged { OnErr result (self.new ≡ self.old) }
    {
        if let Some(own) = Arc::get_mut(&mut self.frame) {
            return absorb(alloc, own, &patch);
        }
        let mut frame = self.frame.try_clone(alloc)?;
        absorb(alloc, &mut frame, &patch)?;
        self.frame = Arc::new(alloc, frame)?;
        Ok(())
    }

    /// Returns the settings of the frame's world.
    pub fn settings(&self) -> Settings
        ensures value { result ≡ self.now.settings }
        ensures allowed { IsSettings result }
    {
        *self.frame.settings()
    }

    /// Returns how many events the frame's journal has.
    pub fn events(&self) -> usize
        ensures value { result ≡ length self.now.events }
        ensures few { result ≤ MAX_EVENTS }
    {
        self.frame.events().len()
    }

    /// Lends the lists of a leaf's mesh; a node that isn't a leaf of the frame has none. The mesh is the one from
    /// scratch of the frame's journal.
    pub fn block(&self, node: Node) -> Option<BlockView<'_>>
        ensures leaf { IsSome result
            ↔ IsLeaf self.now.settings.depth (levels self.now.settings self.now.events) node }
        ensures mesh { IfSome result (λ view.
            ShowsMesh (lists_of view) (mesh_after self.now.settings self.now.events node)) }
        ensures lists { IfSome result (λ view. IsMesh (lists_of view)) }
    {
        self.frame.block(node)
    }

    /// Returns the low corner of a leaf's cube, in fine cells. The leaf's cells have the side `2^level`.
    pub fn corner(&self, leaf: Node) -> Point
        requires { IsLeaf self.now.settings.depth (levels self.now.settings self.now.events) leaf }
        ensures { result ≡ low_corner leaf }
    {
        nodes_of_worlds();
        let _settings = self.settings();
        leaf.low_corner()
    }

    /// Returns the leaves, in the order of nodes. Out of memory is the only error.
    pub fn leaves(&self, alloc: Global) -> Result<Vec<Node>, AllocError>
        ensures { IfOk result (λ list. list.items
            ≡ leaves self.now.settings.depth (levels self.now.settings self.now.events)) }
    {
        self.frame.levels().leaves(alloc)
    }

    /// Returns how many leaves, triangles and keys there are.
    pub fn stats(&self) -> Stats
        ensures { result ≡ stats_of (scratch self.now.settings self.now.events) }
    {
        self.frame.stats()
    }

    /// Returns the audit of the frame, which has no crack. Out of memory is the only error.
    pub fn audit(&self, alloc: Global) -> Result<Audit, AllocError>
        ensures counts { IfOk result (λ audit. audit
            ≡ audit_of self.now.settings.depth (scratch self.now.settings self.now.events)) }
        ensures cracks { IfOk result (λ audit. audit.cracks ≡ 0) }
        ensures seamless { HasNoCrack self.now }
    {
        sound_frames_have_no_crack();
        Audit::of(alloc, &self.frame)
    }

    /// Returns the normal of a key of the frame's world, by the frame's field. The key has this one normal in
    /// whichever blocks it is. It is meant to lead to where samples rise, so to the empty side, and may be 0; its
    /// length says nothing.
    pub fn normal(&self, key: Key) -> Normal
        requires { IsKey self.now.settings.depth key }
        ensures { result ≡ normal_of self.now.settings.depth
            (sample self.now.settings self.now.events) key }
    {
        normal(&self.frame, key)
    }

    /// Returns the highest point of the frame's surface over the place (x, y), in units of 1/256 fine cell, and the
    /// first triangle that has it; `None` where no triangle covers any height there.
    pub fn pick(&self, x: u32, y: u32) -> Option<Hit>
        requires x { x ≤ UNITS * world_side self.now.settings.depth }
        requires y { y ≤ UNITS * world_side self.now.settings.depth }
        ensures reached { IfSome result
            (IsReached (surface_after self.now.settings self.now.events) x y) }
        ensures highest { IfSome result
            (IsHighest (surface_after self.now.settings self.now.events) x y) }
        ensures first { IfSome result
            (IsEarliest (surface_after self.now.settings self.now.events) x y) }
        ensures none { IfNone result
            (IsBare (surface_after self.now.settings self.now.events) x y) }
        ensures small { IfSome result IsSmallHit }
    {
        pick(&self.frame, x, y)
    }
}

/// Has a frame absorb a patch that fits it. Out of memory is the only error, and leaves the frame as it was.
fn absorb(alloc: Global, frame: &mut Frame, patch: &Patch) -> Result<(), AllocError>
    requires sound { IsSound frame.old }
    requires fits { Fits patch.now frame.old }
    requires room { length frame.old.events + length patch.now.events.items ≤ MAX_EVENTS }
    ensures sound { IsSound frame.new }
    ensures settings { frame.new.settings ≡ frame.old.settings }
    ensures events { OnOk result
        (frame.new.events ≡ frame.old.events ++ patch.now.events.items) }
    ensures unchanged { OnErr result (frame.new ≡ frame.old) }
{
    frame.absorb(alloc, patch)
}
