//! What meshes the leaves of a board.

ghost use Rattle.std.specs.Prelude.{◌≡◌, OnOk};
ghost use Rattle.std.specs.Thread.{IsSync};
ghost use Rattle.lattice.specs.declared.node.Node.{Node as NodeOf};
ghost use Rattle.block_mesh.specs.Done.{DoneState};
ghost use Rattle.mesh_board.specs.Board.{IsReady, state_of};
ghost use Rattle.mesh_board.specs.LeafStates.{fresh};

use mesh_board::Board;
use std::alloc::{AllocError, Global};
use std::thread::Threads;

/// What meshes the leaves of a board. Whatever comes of a call, leaves that are fresh stay fresh, and the world and the
/// mark stay as they are. Out of memory is the only error.
pub trait Mesher {
    /// Goes on with meshing, as far as the mesher does so between events.
    fn feed(&mut self, alloc: Global, board: &mut Board) -> Result<(), AllocError>
        ensures world { board.new.world ≡ board.old.world }
        ensures marked { board.new.marked ≡ board.old.marked }
        ensures fresh { (n : NodeOf) (done : DoneState)
            → state_of board.old n ≡ fresh done → state_of board.new n ≡ fresh done };

    /// Meshes all leaves that aren't fresh, for which it may start threads. Every leaf is fresh after a success.
    fn settle<R: Threads + Sync>(
        &mut self,
        rt: &R,
        alloc: Global,
        board: &mut Board,
    ) -> Result<(), AllocError>
        requires { IsSync R.row }
        ensures world { board.new.world ≡ board.old.world }
        ensures marked { board.new.marked ≡ board.old.marked }
        ensures fresh { (n : NodeOf) (done : DoneState)
            → state_of board.old n ≡ fresh done → state_of board.new n ≡ fresh done }
        ensures ready { OnOk result (IsReady board.new) };
}
