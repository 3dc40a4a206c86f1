//! Meshing on the calling thread.
//!
//! It makes the block of one leaf after another and keeps it without a second look at the samples: nobody else has the
//! board meanwhile, so the block's brick is the present one still. `Board::deliver`, which compares bricks, is for
//! results from elsewhere.

ghost use Rattle.std.specs.Prelude.{◌≡◌, ◌≢◌, OnOk};
ghost use Rattle.lattice.specs.declared.node.Node.{Node as NodeOf};
ghost use Rattle.block_mesh.specs.Done.{DoneState};
ghost use Rattle.mesh_board.specs.Board.{IsReady, state_of};
ghost use Rattle.mesh_board.specs.LeafStates.{fresh, out};

use block_mesh::Bench;
use cells::Cases;
use mesh_board::Board;
use std::alloc::{AllocError, Global};

/// Meshes all leaves of a board that aren't fresh, one after another. Every leaf is fresh after a success; out of
/// memory is the only error. Leaves that are fresh stay fresh, and the world and the mark stay as they are.
pub fn settle(alloc: Global, cases: &Cases, board: &mut Board) -> Result<(), AllocError>
    ensures world { board.new.world ≡ board.old.world }
    ensures marked { board.new.marked ≡ board.old.marked }
    ensures fresh { (n : NodeOf) (done : DoneState)
        → state_of board.old n ≡ fresh done → state_of board.new n ≡ fresh done }
    ensures ready { OnOk result (IsReady board.new) }
{
    settle_on(alloc, cases, &mut Bench::new(), board)
}

/// Meshes all leaves of a board that aren't fresh, as `settle` does, on a workbench of the caller's, which keeps its
/// memory for the next time.
pub fn settle_on(
    alloc: Global,
    cases: &Cases,
    bench: &mut Bench,
    board: &mut Board,
) -> Result<(), AllocError>
    ensures world { board.new.world ≡ board.old.world }
    ensures marked { board.new.marked ≡ board.old.marked }
    ensures fresh { (n : NodeOf) (done : DoneState)
        → state_of board.old n ≡ fresh done → state_of board.new n ≡ fresh done }
    ensures ready { OnOk result (IsReady board.new) }
{
    board.recall();
    mesh_wanted(alloc, cases, bench, board)
}

/// Meshes all wanted leaves of a board on a workbench, one after another, where no leaf is out. What becomes of the
/// board is what `settle` says.
fn mesh_wanted(
    alloc: Global,
    cases: &Cases,
    bench: &mut Bench,
    board: &mut Board,
) -> Result<(), AllocError>
    requires { (n : NodeOf) → state_of board.old n ≢ out }
    ensures world { board.new.world ≡ board.old.world }
    ensures marked { board.new.marked ≡ board.old.marked }
    ensures fresh { (n : NodeOf) (done : DoneState)
        → state_of board.old n ≡ fresh done → state_of board.new n ≡ fresh done }
    ensures ready { OnOk result (IsReady board.new) }
{
    while let Some(block) = board.take_block(alloc, cases, bench)? {
        board.keep_present(block);
    }
    Ok(())
}
