//! Frames.

ghost use Rattle.std.specs.Prelude.{◌≡◌, ◌≤◌, ◌↔◌, [], IfOk, IfSome, IsSome, OnErr, OnOk, length, map};
ghost use Rattle.std.specs.Arc.{arc_value};
ghost use Rattle.field_pages.specs.Pages.{HoldsField};
ghost use Rattle.lattice.specs.declared.node.Node.{Node as NodeOf};
ghost use Rattle.lattice.specs.Settings.{IsSettings};
ghost use Rattle.octree.specs.SplitBits.{split_at};
ghost use Rattle.node_tables.specs.NodeSlots.{item_at};
ghost use Rattle.terrain.specs.declared.event.TheConstants.{MAX_EVENTS};
ghost use Rattle.event_laws.specs.Changes.{brick_after};
ghost use Rattle.snapshots.specs.Seamless.{HasNoCrack};
ghost use Rattle.snapshots.specs.Stats.{stats_of};
ghost use Rattle.terrain.specs.Blocks.{scratch};
ghost use Rattle.terrain.specs.History.{sample};
ghost use Rattle.terrain.specs.Levels.{IsBalanced, IsLeaf, levels};

use crate::absorbing::{are_in_world, go_on, lost_leaves, nodes_of, others, shared};
use crate::block_table::BlockTable;
use crate::patch::Patch;
use crate::seams::sound_frames_have_no_crack;
use crate::stats::Stats;
use block_mesh::{Bench, Block, BlockView, Brick, gather};
use cells::Cases;
use event_laws::{
    bricks_read_their_leaf, leaves_keep_their_bricks_until_touched, levels_follow_the_viewpoints,
};
use field_pages::Version;
use lattice::{Node, Settings};
use level_laws::leaves_are_listed;
use octree::{Levels, choose};
use std::alloc::{AllocError, Global};
use std::marker::Model;
use std::sync::Arc;
use terrain::{Event, MAX_EVENTS};

/// A world as readers see it: its settings, its journal, the field and the level map after the journal's events, and
/// the block of each leaf.
///
/// Contracts see these. A frame is sound where it stands for its journal; the type doesn't keep that, but that only
/// leaves have blocks.
#[derive(Debug)]
pub struct Frame {
    settings: Settings,
    events: Vec<Event>,
    version: Arc<Version>,
    levels: Arc<Levels>,
    blocks: BlockTable,
}

impl Model for Frame {
    ghost use Rattle.snapshots.specs.Absorbed.{IsTidy};
    ghost use Rattle.snapshots.specs.Frame.{FrameState};

    ghost Value = { FrameState };

    ghost view = { λ frame. record {
      settings = frame.settings;
      events = frame.events.items;
      version = frame.version.value;
      levels = frame.levels.value;
      blocks = frame.blocks;
    } };

    ghost invariant = { λ frame. IsTidy (record {
      settings = frame.settings;
      events = frame.events.items;
      version = frame.version.value;
      levels = frame.levels.value;
      blocks = frame.blocks;
    }) };
}

// Written out, since a derived drop is proved anew in each crate that drops a frame.
impl Drop for Frame {
    fn drop(self) {
        let Self {
            settings: _,
            events: _events,
            version: _version,
            levels: _levels,
            blocks: _blocks,
        } = self;
    }
}

impl Frame {
    ghost use Rattle.block_mesh.specs.Mesh.{IsMesh, ShowsMesh};
    ghost use Rattle.terrain.specs.MeshLists.{lists_of};
    ghost use Rattle.snapshots.specs.Absorbed.{LeadsTo, StaysSound, absorbed, held_after, suits};
    ghost use Rattle.snapshots.specs.Blocks.{HasOwnMeshes, cleared, put_over};
    ghost use Rattle.snapshots.specs.Frame.{IsBlockAfter, IsSound, StandsFor, mesh_after};

    /// Returns the frame of the empty journal, whose one leaf is the root. Out of memory is the only error.
    ///
    /// The room for `MAX_EVENTS` events is taken here.
    pub fn opening(alloc: Global, cases: &Cases, settings: Settings) -> Result<Frame, AllocError>
        requires { IsSettings settings }
        ensures sound { IfOk result IsSound }
        ensures stands { IfOk result (λ frame. StandsFor frame settings []) }
        ensures seamless { IfOk result HasNoCrack }
    {
        sound_frames_have_no_crack();
        bricks_read_their_leaf();
        levels_follow_the_viewpoints();
        let version = Arc::new(alloc, Version::new(alloc, settings.depth)?)?;
        let levels = Arc::new(alloc, choose(alloc, &settings, &[])?)?;
        let events = Vec::with_capacity(alloc, MAX_EVENTS)?;
        let root = Node::root(settings.depth);
        let done = Bench::new().leaf_block(alloc, cases, &version, &levels, root)?;
        let mut blocks = BlockTable::new(alloc, settings.depth)?;
        blocks.set(root, done);
        Ok(Frame {
            settings,
            events,
            version,
            levels,
            blocks,
        })
    }

    /// Returns a copy, which shares all blocks and has the room for a whole journal. Out of memory is the only error.
    pub fn try_clone(&self, alloc: Global) -> Result<Frame, AllocError>
        ensures { IfOk result (λ copy. copy ≡ self.now) }
    {
        let mut events = Vec::with_capacity(alloc, MAX_EVENTS)?;
        events.extend_from_slice(&self.events)?;
        let version = Arc::try_clone(&self.version)?;
        let levels = Arc::try_clone(&self.levels)?;
        let leaves = self.levels.leaves(alloc)?;
        let blocks = self.blocks.try_clone(alloc, &leaves)?;
        Ok(Frame {
            settings: self.settings,
            events,
            version,
            levels,
            blocks,
        })
    }

    /// Absorbs a patch, if it suits the frame: the journal is then the first events, as many as the patch's base, and
    /// behind them the patch's; field and level map are the patch's, and so are the blocks of leaves that the patch
    /// has. Out of memory is the only error, and leaves the frame as it was.
    ///
    /// A sound frame that absorbs a patch which fits it is the sound frame of the longer journal.
    pub fn absorb(&mut self, alloc: Global, patch: &Patch) -> Result<(), AllocError>
        ensures absorbed { OnOk result (self.new ≡ absorbed self.old patch.now) }
        ensures leads { OnOk result (LeadsTo self.old patch.now self.new) }
        ensures sound { OnOk result (StaysSound self.old patch.now self.new) }
        ensures meshes { OnOk result (HasOwnMeshes self.new.blocks) }
        ensures unchanged { OnErr result (self.new ≡ self.old) }
    {
        leaves_keep_their_bricks_until_touched();
        let _depth = self.blocks.depth();
        if !self.is_suited(patch) {
            return Ok(());
        }
        let version = Arc::try_clone(&patch.version)?;
        let levels = Arc::try_clone(&patch.levels)?;
        let put = shared(alloc, &patch.put)?;
        let emptied = self.emptied(alloc, patch)?;
        go_on(&mut self.events, patch.base as usize, &patch.events)?;
        self.version = version;
        self.levels = levels;
        self.blocks.put_all(put);
        self.blocks.clear_all(&emptied);
        Ok(())
    }

    /// Returns whether a patch suits the frame.
    fn is_suited(&self, patch: &Patch) -> bool
        ensures { result ≡ suits patch.now self.now }
    {
        let base = patch.base as usize;
        let depth = self.blocks.depth();
        base <= self.events.len()
            && base + patch.events.len() <= MAX_EVENTS
            && are_in_world(&patch.put, depth)
    }

    /// Returns the nodes without a block after a patch, of those that may have one: the frame's leaves and the nodes of
    /// the patch's blocks. Out of memory is the only error.
    fn emptied(&self, alloc: Global, patch: &Patch) -> Result<Vec<Node>, AllocError>
        ensures { IfOk result (λ nodes. (n : NodeOf) → cleared nodes.items n
            (put_over (map arc_value patch.now.put.items) n (item_at self.now.blocks n))
            ≡ held_after self.now patch.now n) }
    {
        let put = nodes_of(alloc, &patch.put)?;
        let stray = others(alloc, &put, &patch.levels)?;
        let mut nodes = lost_leaves(alloc, &self.levels, &patch.levels)?;
        nodes.extend_from_slice(&stray)?;
        Ok(nodes)
    }

    /// Returns the settings.
    pub fn settings(&self) -> &Settings
        requires { IsSound self.now }
        ensures value { result.now ≡ self.now.settings }
        ensures allowed { IsSettings result.now }
    {
        &self.settings
    }

    /// Returns the journal: the events so far, the first of them first.
    pub fn events(&self) -> &[Event]
        requires { IsSound self.now }
        ensures value { result.now ≡ self.now.events }
        ensures few { length result.now ≤ MAX_EVENTS }
    {
        &self.events
    }

    /// Returns the field after the events.
    pub fn version(&self) -> &Version
        requires { IsSound self.now }
        ensures value { result.now ≡ self.now.version }
        ensures depth { result.now.depth ≡ self.now.settings.depth }
        ensures samples { HoldsField result.now (sample self.now.settings self.now.events) }
    {
        &self.version
    }

    /// Returns the level map after the events.
    pub fn levels(&self) -> &Levels
        requires { IsSound self.now }
        ensures value { result.now ≡ self.now.levels }
        ensures depth { result.now.depth ≡ self.now.settings.depth }
        ensures split { (n : NodeOf) → split_at result.now n
            ≡ levels self.now.settings self.now.events n }
        ensures balanced { IsBalanced self.now.settings.depth (split_at result.now) }
    {
        &self.levels
    }

    /// Returns how many leaves, triangles and keys the meshes of leaves have, which are counted as blocks come and go.
    pub fn stats(&self) -> Stats
        requires { IsSound self.now }
        ensures { result ≡ stats_of (scratch self.now.settings self.now.events) }
    {
        self.blocks.stats()
    }

    /// Returns the brick of a leaf, gathered from the field and the level map after the events. Out of memory is the
    /// only error.
    pub fn brick(&self, alloc: Global, leaf: Node) -> Result<Brick, AllocError>
        requires sound { IsSound self.now }
        requires leaf { IsLeaf self.now.settings.depth
            (levels self.now.settings self.now.events) leaf }
        ensures { IfOk result (λ gathered.
            gathered ≡ brick_after self.now.settings self.now.events leaf) }
    {
        bricks_read_their_leaf();
        gather(alloc, self.version(), self.levels(), leaf)
    }

    /// Lends the block of a leaf, the mesh of its brick; a node that isn't a leaf has none.
    pub fn done(&self, node: Node) -> Option<&Block>
        requires { IsSound self.now }
        ensures leaf { IsSome result
            ↔ IsLeaf self.now.settings.depth (levels self.now.settings self.now.events) node }
        ensures block { IfSome result (λ done.
            IsBlockAfter self.now.settings self.now.events node done.now) }
    {
        leaves_are_listed();
        Some(self.blocks.get(node)?.as_ref())
    }

    /// Lends the lists of a leaf's mesh; a node that isn't a leaf has none.
    pub fn block(&self, node: Node) -> Option<BlockView<'_>>
        requires { IsSound self.now }
        ensures leaf { IsSome result
            ↔ IsLeaf self.now.settings.depth (levels self.now.settings self.now.events) node }
        ensures mesh { IfSome result (λ view.
            ShowsMesh (lists_of view) (mesh_after self.now.settings self.now.events node)) }
        ensures lists { IfSome result (λ view. IsMesh (lists_of view)) }
    {
        Some(self.done(node)?.view())
    }
}
