//! Boards: a world, and how each of its leaves is.
//!
//! An event goes to the world, and the leaves that it touches are wanted. Whoever meshes takes a brick, which is out
//! from then on, and delivers it with its mesh, in whatever order and as often as it likes: what is delivered is kept
//! where its brick is the present one of a leaf, and only there. So a block that was made for an older field does no
//! harm, and one that was made twice or too late may still be kept. Where nothing is wanted or out, the board has a
//! patch, which leads from the frame of the last mark to that of the present journal.
//!
//! All room for events, leaves and blocks is taken when a board is made. Two sets of nodes go with the table of leaves:
//! the leaves at the mark, and what was touched since. So a patch is read from them by two operations on sets, and not
//! by going through the events again. An event makes what it touches wanted, and forgets the leaves that it makes none;
//! no other leaf is looked at.

ghost use Rattle.std.specs.Prelude.{◌≡◌, ◌≢◌, ◌↔◌, ◌+◌, ◌≤◌, ◌++◌, ◌||◌, ℕ, [], ◌∷◌, All, IfOk, IsErrOf, IsTrue, MatchOption, OnErr, OnOk, length, map, if◌then◌else◌};
ghost use Rattle.std.specs.Arc.{arc_value};
ghost use Rattle.lattice.specs.declared.node.Node.{Node as NodeOf};
ghost use Rattle.lattice.specs.Node.{IsNode, root, is_among};
ghost use Rattle.lattice.specs.Settings.{IsSettings};
ghost use Rattle.terrain.specs.History.{HasNothingToUndo, IsLawfulEvent};
ghost use Rattle.node_tables.specs.NodeBits.{has};
ghost use Rattle.terrain.specs.declared.event.TheConstants.{MAX_EVENTS};
ghost use Rattle.event_laws.specs.Changes.{brick_after};
ghost use Rattle.mesh_board.specs.LeafStates.{fresh, IsFresh, no_leaf, recalled, state_at, wanted};

use crate::leaf_table::LeafTable;
use crate::patching::blocks_of;
use crate::verdict::Verdict;
use block_mesh::{Bench, Block, Brick, equal_bricks_have_equal_meshes, gather};
use cells::Cases;
use event_laws::{
    bricks_read_their_leaf, levels_follow_the_viewpoints, touched_nodes_add_up,
    untouched_leaves_keep_their_bricks,
};
use lattice::{Node, Settings};
use node_tables::NodeSet;
use octree::maps_of_viewpoints_are_balanced;
use snapshots::Patch;
use std::alloc::{AllocError, Global};
use std::marker::Model;
use std::sync::Arc;
use terra_events::{ApplyFault, Event, World};

/// The engine's board: its world, and of each leaf whether it is wanted, out, or fresh with its present brick and the
/// mesh of it.
///
/// It also keeps which events were published, and what changed since. Contracts see the world, the leaves and the
/// number of the published events; all else follows from these.
#[derive(Debug)]
pub struct Board {
    world: World,
    leaves: LeafTable,
    /// How many events the journal had at the last mark.
    marked: usize,
    /// The leaves at the last mark.
    marked_leaves: NodeSet,
    /// The nodes that an event touched since.
    touched: NodeSet,
}

impl Model for Board {
    ghost use Rattle.mesh_board.specs.Board.{BoardState};

    ghost Value = { BoardState };

    ghost use Rattle.mesh_board.specs.Parts.{AreParts, board_of};

    ghost view = { board_of };

    ghost invariant = { AreParts };
}

// Written out, since a derived drop is proved anew in each crate that drops a board.
impl Drop for Board {
    fn drop(self) {
        let Self {
            world: _world,
            leaves: _leaves,
            marked: _,
            marked_leaves: _marked_leaves,
            touched: _touched,
        } = self;
    }
}

impl Board {
    ghost use Rattle.terra_events.specs.World.{IsWorldOf, KeepsTheOther};
    ghost use Rattle.event_laws.specs.Changes.{change};
    ghost use Rattle.mesh_board.specs.Board.{ChangesOnly, Delivers, IsBoard, IsBrickOf, IsPresentBrick, IsReady, Takes, events_since, is_gone, is_leaf_of, is_put, marked_events, present_brick, state_after, state_of};
    ghost use Rattle.snapshots.specs.Patch.{changes_of};
    ghost use Rattle.mesh_board.specs.Keeping.{KeepsFresh};
    ghost use Rattle.mesh_board.specs.Leads.{Leads};

    /// Returns the board of the empty journal, which is marked: its one leaf, the root, is fresh. Out of memory is the
    /// only error.
    ///
    /// The room for all events and leaves is taken here.
    pub fn new(alloc: Global, cases: &Cases, settings: Settings) -> Result<Board, AllocError>
        requires { IsSettings settings }
        ensures stands { IfOk result (λ board. IsWorldOf board.world settings []) }
        ensures marked { IfOk result (λ board. board.marked ≡ 0) }
        ensures root { IfOk result (λ board. IsFresh (state_of board (root settings.depth))) }
        ensures ready { IfOk result IsReady }
    {
        levels_follow_the_viewpoints();
        touched_nodes_add_up();
        let root = Node::root(settings.depth);
        let mut marked_leaves = NodeSet::new(alloc, settings.depth)?;
        marked_leaves.insert(root);
        let touched = NodeSet::new(alloc, settings.depth)?;
        let mut leaves = LeafTable::new(alloc, settings.depth)?;
        let world = World::new(alloc, settings)?;
        let done = root_block(alloc, cases, &world)?;
        leaves.keep(done);
        Ok(Board {
            world,
            leaves,
            marked: 0,
            marked_leaves,
            touched,
        })
    }

    /// Applies an event to the world, and makes the leaves that it touches wanted, whether they were out or fresh. The
    /// error is `Full` exactly where the journal is full, `NothingToUndo` exactly where it isn't and the event is an
    /// undo with no edit in force, and else out of memory.
    ///
    /// It looks at the leaves alone that the event touches, and at those that it makes none.
    pub fn apply(&mut self, alloc: Global, event: Event) -> Result<(), ApplyFault>
        requires { IsLawfulEvent self.old.world.settings.depth event }
        ensures settings { self.new.world.settings ≡ self.old.world.settings }
        ensures stands { OnOk result (IsWorldOf self.new.world self.old.world.settings
            (self.old.world.events ++ event ∷ [])) }
        ensures other { OnOk result (KeepsTheOther event self.old.world self.new.world) }
        ensures states { OnOk result ((n : NodeOf) →
            state_of self.new n ≡ state_after self.old event n) }
        ensures marked { self.new.marked ≡ self.old.marked }
        ensures marked_events { marked_events self.new ≡ marked_events self.old }

        // A full journal is reported whatever the event is; each error leaves the board as it was.
        ensures full { IsErrOf result ApplyFault.Full
            ↔ (length self.old.world.events ≡ MAX_EVENTS) }
        ensures nothing { IsErrOf result ApplyFault.NothingToUndo
            ↔ HasNothingToUndo self.old.world.events event }
        ensures unchanged { OnErr result (self.new ≡ self.old) }
    {
        maps_of_viewpoints_are_balanced();
        touched_nodes_add_up();
        untouched_leaves_keep_their_bricks();
        let touched = self.world.apply(alloc, event)?;
        want_all(&mut self.leaves, &mut self.touched, &touched.leaves);
        forget_all(&mut self.leaves, &touched.lost);
        Ok(())
    }

    /// Returns the present brick of the first wanted leaf in the order of nodes, which is out from then on, if a leaf
    /// is wanted. Out of memory is the only error, and leaves the board as it was.
    pub fn take(&mut self, alloc: Global) -> Result<Option<Brick>, AllocError>
        ensures taken { IfOk result (λ taken. MatchOption taken
            (((n : NodeOf) → state_of self.old n ≢ wanted) × (self.new ≡ self.old))
            (Takes self.old self.new)) }
        ensures world { self.new.world ≡ self.old.world }
        ensures marked { self.new.marked ≡ self.old.marked }
        ensures keeps { KeepsFresh self.old self.new }
        ensures unchanged { OnErr result (self.new ≡ self.old) }
    {
        let Some(leaf) = self.leaves.first_wanted() else {
            return Ok(None);
        };
        let brick = self.brick(alloc, leaf)?;
        self.leaves.send_out(leaf);
        Ok(Some(brick))
    }

    /// Returns the present brick of a leaf. Out of memory is the only error.
    pub(crate) fn brick(&self, alloc: Global, leaf: Node) -> Result<Brick, AllocError>
        requires { IsTrue (is_leaf_of self.now leaf) }
        ensures { IfOk result (IsBrickOf self.now leaf) }
    {
        bricks_read_their_leaf();
        gather(alloc, self.world.version(), self.world.levels(), leaf)
    }

    /// Returns the block of the first wanted leaf in the order of nodes, made of its present brick on a workbench, if a
    /// leaf is wanted. The leaf is out from then on. Out of memory is the only error, and leaves the board as it was.
    pub fn take_block(
        &mut self,
        alloc: Global,
        cases: &Cases,
        bench: &mut Bench,
    ) -> Result<Option<Arc<Block>>, AllocError>
        ensures taken { IfOk result (λ taken. MatchOption taken
            (((n : NodeOf) → state_of self.old n ≢ wanted) × (self.new ≡ self.old))
            (λ block. Takes self.old self.new (arc_value block).brick)) }
        ensures unchanged { OnErr result (self.new ≡ self.old) }
    {
        let Some(first) = self.leaves.first_wanted() else {
            return Ok(None);
        };
        let block = self.leaf_block(alloc, cases, bench, first)?;
        self.leaves.send_out(first);
        Ok(Some(block))
    }

    /// Returns the block of a leaf, made of its present brick on a workbench. Out of memory is the only error.
    fn leaf_block(
        &self,
        alloc: Global,
        cases: &Cases,
        bench: &mut Bench,
        leaf: Node,
    ) -> Result<Arc<Block>, AllocError>
        requires { IsTrue (is_leaf_of self.now leaf) }
        ensures { IfOk result (λ block. IsBrickOf self.now leaf (arc_value block).brick) }
    {
        bricks_read_their_leaf();
        let (version, levels) = (self.world.version(), self.world.levels());
        bench.leaf_block(alloc, cases, version, levels, leaf)
    }

    /// Keeps the block of a brick where the brick is the present one of a leaf, which is fresh from then on. What was
    /// fresh stays so, with the block that it had.
    ///
    /// A result may come late, twice, or never.
    pub fn deliver(&mut self, brick: &Brick, done: Arc<Block>) -> Verdict
        requires { (arc_value done).brick ≡ brick.now }
        ensures verdict { Delivers self.old self.new (arc_value done) result }
        ensures world { self.new.world ≡ self.old.world }
        ensures marked { self.new.marked ≡ self.old.marked }
        ensures keeps { KeepsFresh self.old self.new }
    {
        equal_bricks_have_equal_meshes();
        let _ = self.world();
        let _ = done.node();
        self.judge(brick, done)
    }

    /// Keeps the block of a brick where the brick is the present one of a leaf, which is fresh with it from then on.
    fn judge(&mut self, brick: &Brick, done: Arc<Block>) -> Verdict
        requires { (arc_value done).brick ≡ brick.now }
        ensures verdict { Delivers self.old self.new (arc_value done) result }
        ensures world { self.new.world ≡ self.old.world }
        ensures marked { self.new.marked ≡ self.old.marked }
    {
        bricks_read_their_leaf();
        if !brick.matches(self.world.version(), self.world.levels()) {
            return Verdict::Stale;
        }
        self.leaves.keep(done);
        Verdict::Kept
    }

    /// Keeps the present brick of a leaf with its mesh: the leaf is fresh from then on.
    ///
    /// It doesn't look at the samples again, so it is for a caller that holds the board since it took the brick.
    pub fn keep_present(&mut self, done: Arc<Block>)
        requires { IsPresentBrick self.old (arc_value done).brick }
        ensures { let block = arc_value done in
            ChangesOnly self.old self.new block.brick.node (fresh block) }
    {
        self.leaves.keep(done);
    }

    /// Returns the wanted leaves, in the order of nodes. Out of memory is the only error.
    pub fn wanted_leaves(&self, alloc: Global) -> Result<Vec<Node>, AllocError>
        ensures wanted { IfOk result (λ nodes.
            All (λ n. state_of self.now n ≡ wanted) nodes.items) }
        ensures leaves { IfOk result (λ nodes.
            All (λ n. IsTrue (is_leaf_of self.now n)) nodes.items) }
    {
        self.leaves.wanted().iter().collect(alloc)
    }

    /// Makes each leaf that is out one that is wanted.
    pub fn recall(&mut self)
        ensures world { self.new.world ≡ self.old.world }
        ensures marked { self.new.marked ≡ self.old.marked }
        ensures states { (n : NodeOf) → state_of self.new n ≡ recalled (state_of self.old n) }
        ensures keeps { KeepsFresh self.old self.new }
    {
        self.leaves.recall();
    }

    /// Returns whether no leaf is wanted.
    pub fn wants_nothing(&self) -> bool
        ensures { IsTrue result ↔ ((n : NodeOf) → state_of self.now n ≢ wanted) }
    {
        self.leaves.first_wanted().is_none()
    }

    /// Returns whether every leaf is fresh.
    pub fn ready(&self) -> bool
        ensures { IsTrue result ↔ IsReady self.now }
    {
        self.leaves.is_settled()
    }

    /// Returns the patch that leads from a frame of the marked journal to one of the present journal: what events came,
    /// the field and the level map then, the blocks of the leaves that one of these events touched, and which of the
    /// frame's leaves are leaves no more. Out of memory is the only error.
    ///
    /// What it puts and names as gone is what the events since the mark change, and each block has its leaf's present
    /// brick. A journal has room for the marked events and the patch's.
    pub fn patch(&self, alloc: Global) -> Result<Patch, AllocError>
        requires { IsReady self.now }
        ensures base { IfOk result (λ patch. patch.base ≡ self.now.marked) }
        ensures events { IfOk result (λ patch. patch.events.items ≡ events_since self.now) }
        ensures room { IfOk result (λ patch.
            patch.base + length patch.events.items ≤ MAX_EVENTS) }
        ensures changes { IfOk result (λ patch. changes_of patch
            ≡ change self.now.world.settings (marked_events self.now) (events_since self.now)) }
        ensures bricks { IfOk result (λ patch. map (λ done. done.value.brick) patch.put.items
            ≡ map (present_brick self.now) (changes_of patch).put) }
        ensures version { IfOk result (λ patch. patch.version.value ≡ self.now.world.version) }
        ensures levels { IfOk result (λ patch. patch.levels.value ≡ self.now.world.levels) }
        ensures leads { IfOk result (Leads self.now) }
    {
        let since = &self.world.events()[self.marked..];
        let mut nodes = NodeSet::new(alloc, self.world.settings().depth)?;
        self.list_touched(&mut nodes);
        let put = blocks_of(alloc, &self.leaves, &nodes)?;
        self.list_lost(&mut nodes);
        Ok(Patch {
            base: self.marked as u32,
            events: since.to_vec(alloc)?,
            version: Arc::try_clone(self.world.version())?,
            levels: Arc::try_clone(self.world.levels())?,
            put,
            gone: nodes.iter().collect(alloc)?,
        })
    }

    /// Makes the members of a set the leaves that an event touched since the mark.
    #[tactic(auto, using(crate::proofs::PatchLemmas::put_are))]
    fn list_touched(&self, nodes: &mut NodeSet)
        requires { nodes.old.depth ≡ self.now.world.settings.depth }
        ensures depth { nodes.new.depth ≡ self.now.world.settings.depth }
        ensures each { (n : NodeOf) → has nodes.new n ≡ is_put self.now n }
    {
        nodes.copy_from(&self.touched);
        nodes.keep_all(self.leaves.leaves());
    }

    /// Makes the members of a set the leaves at the mark that are leaves no more.
    #[tactic(auto, using(crate::proofs::PatchLemmas::gone_are))]
    fn list_lost(&self, nodes: &mut NodeSet)
        requires { nodes.old.depth ≡ self.now.world.settings.depth }
        ensures depth { nodes.new.depth ≡ self.now.world.settings.depth }
        ensures each { (n : NodeOf) → has nodes.new n ≡ is_gone self.now n }
    {
        nodes.copy_from(&self.marked_leaves);
        nodes.remove_all(self.leaves.leaves());
    }

    /// Marks the present journal as the published one.
    pub fn mark_published(&mut self)
        ensures { self.new ≡ record self.old { marked = length self.old.world.events } }
    {
        touched_nodes_add_up();
        self.marked = self.world.events().len();
        self.marked_leaves.copy_from(self.leaves.leaves());
        self.touched.clear();
    }

    /// Lends the world.
    pub fn world(&self) -> &World
        ensures value { result.now ≡ self.now.world }
        ensures board { IsBoard self.now }
    {
        &self.world
    }
}

/// Returns the block of the one leaf of a world without events, made of its present brick. Out of memory is the only
/// error.
fn root_block(alloc: Global, cases: &Cases, world: &World) -> Result<Arc<Block>, AllocError>
    requires { world.now.events ≡ [] }
    ensures { let settings = world.now.settings in IfOk result (λ block.
        (arc_value block).brick ≡ brick_after settings [] (root settings.depth)) }
{
    bricks_read_their_leaf();
    levels_follow_the_viewpoints();
    let root = Node::root(world.settings().depth);
    Bench::new().leaf_block(alloc, cases, world.version(), world.levels(), root)
}

/// Makes leaves wanted, and adds them to a set.
fn want_all(leaves: &mut LeafTable, touched: &mut NodeSet, nodes: &[Node])
    requires depth { leaves.old.depth ≡ touched.old.depth }
    requires nodes { All (IsNode touched.old.depth) nodes.now }
    ensures depth { leaves.new.depth ≡ leaves.old.depth }
    ensures touched_depth { touched.new.depth ≡ touched.old.depth }
    ensures states { (n : NodeOf) → state_at leaves.new n
        ≡ (if is_among nodes.now n then wanted else state_at leaves.old n) }
    ensures touched { (n : NodeOf) → has touched.new n
        ≡ (has touched.old n || is_among nodes.now n) }
{
    for leaf in nodes {
        leaves.want(*leaf);
        touched.insert(*leaf);
    }
}

/// Makes nodes no leaves.
fn forget_all(leaves: &mut LeafTable, nodes: &[Node])
    requires { All (IsNode leaves.old.depth) nodes.now }
    ensures depth { leaves.new.depth ≡ leaves.old.depth }
    ensures states { (n : NodeOf) → state_at leaves.new n
        ≡ (if is_among nodes.now n then no_leaf else state_at leaves.old n) }
{
    for leaf in nodes {
        leaves.forget(*leaf);
    }
}
