//! Rounds: what several threads make blocks of at once.
//!
//! A round keeps the field and the level map of its board, so whoever has it needs no board. The threads share the
//! number of the next leaf, since few leaves have a surface and cost much, and these lie together. Nothing is proved of
//! that number: a thread may make any of the leaves or none.

ghost use Rattle.std.specs.Prelude.{◌≡◌, [], All, IfOk};
ghost use Rattle.std.specs.Arc.{arc_value};
ghost use Rattle.octree.specs.SplitBits.{split_at};
ghost use Rattle.terrain.specs.Levels.{IsBalanced, IsLeaf};
ghost use Rattle.mesh_board.specs.Keeping.{KeepsFresh};
ghost use Rattle.mesh_jobs.specs.Round.{IsHaulOf, IsMadeOf, IsRoundLeaf, IsRoundOf};

use block_mesh::{Bench, Block, equal_bricks_have_equal_meshes};
use cells::Cases;
use event_laws::bricks_read_their_leaf;
use field_pages::Version;
use lattice::Node;
use mesh_board::Board;
use octree::Levels;
use std::alloc::{AllocError, Global};
use std::marker::Model;
use std::sync::Arc;
use std::sync::atomic::{AtomicUsize, Ordering};

/// What several threads make blocks of: a field, a level map, and leaves of it.
///
/// Contracts see all but the number of the next leaf.
pub struct Round {
    version: Arc<Version>,
    levels: Arc<Levels>,
    leaves: Vec<Node>,
    next: AtomicUsize,
}

impl Model for Round {
    ghost use Rattle.mesh_jobs.specs.Round.{IsRound, RoundState};

    ghost Value = { RoundState };

    ghost view = { λ round. record {
      version = round.version.value;
      levels = round.levels.value;
      leaves = round.leaves.items;
    } };

    ghost invariant = { λ round. IsRound (record {
      version = round.version.value;
      levels = round.levels.value;
      leaves = round.leaves.items;
    }) };
}

// Written out, since a derived drop is proved anew in each crate that drops a round.
impl Drop for Round {
    fn drop(self) {
        let Self {
            version: _version,
            levels: _levels,
            leaves: _leaves,
            next: _next,
        } = self;
    }
}

/// The blocks that one thread made in a round.
pub struct Haul {
    pub(crate) made: Vec<Arc<Block>>,
}

// Written out for the same reason.
impl Drop for Haul {
    fn drop(self) {
        let Self { made: _made } = self;
    }
}

impl Haul {
    /// Returns a haul without blocks.
    pub fn new(alloc: Global) -> Haul
        ensures { result.made.items ≡ [] }
    {
        Haul {
            made: Vec::new(alloc),
        }
    }
}

impl Round {
    /// Returns the round of a board's wanted leaves, with the field and the level map that they are to be made of. Out
    /// of memory is the only error.
    pub fn of(alloc: Global, board: &Board) -> Result<Round, AllocError>
        ensures { IfOk result (IsRoundOf board.now) }
    {
        let leaves = board.wanted_leaves(alloc)?;
        let version = Arc::try_clone(board.world().version())?;
        let levels = Arc::try_clone(board.world().levels())?;
        Ok(Round::new(version, levels, leaves))
    }

    /// Returns the round of these leaves.
    fn new(version: Arc<Version>, levels: Arc<Levels>, leaves: Vec<Node>) -> Round
        requires depth { version.value.depth ≡ levels.value.depth }
        requires balanced { IsBalanced levels.value.depth (split_at levels.value) }
        requires leaves { All (IsLeaf levels.value.depth (split_at levels.value)) leaves.items }
        ensures version { result.version ≡ version.value }
        ensures levels { result.levels ≡ levels.value }
    {
        Round {
            version,
            levels,
            leaves,
            next: AtomicUsize::new(0),
        }
    }

    /// Returns how many leaves it has.
    pub fn len(&self) -> usize {
        self.leaves.len()
    }

    /// Makes the blocks of those leaves that no other thread takes, until none is left or memory runs out. The haul has
    /// them then, and nothing else.
    pub fn work(&self, alloc: Global, cases: &Cases, bench: &mut Bench, haul: &mut Haul)
        ensures { IsHaulOf self.now haul.new }
    {
        haul.made.clear();
        for _ in 0..self.leaves.len() {
            let Some(leaf) = self.leaves.get(self.next.fetch_add(1, Ordering::SeqCst)) else {
                return;
            };
            let Ok(done) = self.make(alloc, cases, bench, *leaf) else {
                return;
            };
            let Ok(()) = haul.made.push(done) else {
                return;
            };
        }
    }

    /// Returns the block of a leaf. Out of memory is the only error.
    fn make(
        &self,
        alloc: Global,
        cases: &Cases,
        bench: &mut Bench,
        leaf: Node,
    ) -> Result<Arc<Block>, AllocError>
        requires { IsRoundLeaf self.now leaf }
        ensures { IfOk result (λ done. IsMadeOf self.now (arc_value done)) }
    {
        bench.leaf_block(alloc, cases, &self.version, &self.levels, leaf)
    }

    /// Keeps the blocks of a haul on the round's board, where their leaves are fresh from then on. What was fresh stays
    /// so, with the block that it had, and the haul is empty then.
    ///
    /// It doesn't look at the samples again: the haul is of a round of the field and the level map that the board has.
    pub fn keep_haul(&self, board: &mut Board, haul: &mut Haul)
        requires round { IsRoundOf board.old self.now }
        requires haul { IsHaulOf self.now haul.old }
        ensures keeps { KeepsFresh board.old board.new }
        ensures none { haul.new.made.items ≡ [] }
    {
        while let Some(done) = haul.made.pop() {
            self.keep_made(board, done);
        }
    }

    /// Keeps a block that was made in the round on the round's board.
    fn keep_made(&self, board: &mut Board, done: Arc<Block>)
        requires round { IsRoundOf board.old self.now }
        requires made { IsMadeOf self.now (arc_value done) }
        ensures { KeepsFresh board.old board.new }
    {
        bricks_read_their_leaf();
        equal_bricks_have_equal_meshes();
        let world = board.world();
        let _ = world.version();
        let _ = world.levels();
        let _ = done.node();
        board.keep_present(done);
    }
}
