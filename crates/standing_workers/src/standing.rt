//! The mesher that has standing workers.

ghost use Rattle.std.specs.Prelude.{◌≡◌, ◌≢◌, ◌⊎◌, ◌≤◌, ◌++◌, OnOk, replicate};
ghost use Rattle.std.specs.Thread.{IsSync};
ghost use Rattle.lattice.specs.declared.node.Node.{Node as NodeOf};
ghost use Rattle.block_mesh.specs.Done.{DoneState};
ghost use Rattle.mesh_board.specs.Board.{IsReady, state_of};
ghost use Rattle.mesh_board.specs.Keeping.{KeepsFresh};
ghost use Rattle.mesh_board.specs.LeafStates.{fresh, wanted};
ghost use Rattle.standing_workers.specs.declared.desk.TheConstants.{MAX_OUTSTANDING};
ghost use Rattle.standing_workers.specs.declared.job.Job.TheVariants.{Stop};

use crate::desk::Desk;
use crate::feeding::{feed_board, settle_board, share_out};
use crate::lanes::Lanes;
use block_mesh::Bench;
use cells::Cases;
use mesh_jobs::{Board, Mesher};
use std::alloc::{AllocError, Global};
use std::marker::Model;
use std::sync::Wait;
use std::thread::Threads;

/// A mesher that hands bricks out to workers between events, and does what they left when it settles.
///
/// Contracts see the desk and the queues.
#[derive(Drop)]
pub struct Standing<'a, R: Wait> {
    rt: &'a R,
    lanes: &'a Lanes,
    cases: &'a Cases,
    desk: Desk,
    bench: Bench,
}

impl<'a, R: Wait> Model for Standing<'a, R> {
    ghost use Rattle.standing_workers.specs.Desks.{IsDeskOf};
    ghost use Rattle.standing_workers.specs.Standing.{StandingState};

    ghost Value = { StandingState };

    ghost view = { λ standing. record { lanes = standing.lanes.now; desk = standing.desk } };

    ghost invariant = { λ standing. IsDeskOf standing.lanes.now standing.desk };
}

impl<'a, R: Wait> Standing<'a, R> {
    ghost use Rattle.standing_workers.specs.Desks.{IsDeskOf, IsOpen, collected_by_desk, popped_by_desk, pushed_by_desk};

    /// Returns the mesher that hands out jobs from this desk, which pushed no Stop yet.
    pub fn new(rt: &'a R, lanes: &'a Lanes, cases: &'a Cases, desk: Desk) -> Standing<'a, R>
        requires desk { IsDeskOf lanes.now desk }
        requires is_open { IsOpen desk }
        ensures desk { result.desk ≡ desk }
        ensures lanes { result.lanes ≡ lanes.now }
    {
        Standing {
            rt,
            lanes,
            cases,
            desk,
            bench: Bench::new(),
        }
    }

    /// Hands out a few of the wanted leaves to each seat, where somebody else meshes the others before this mesher
    /// settles. Leaves that are fresh stay fresh, and the world and the mark stay as they are. Out of memory is the
    /// only error.
    pub fn share_out(&mut self, alloc: Global, board: &mut Board) -> Result<(), AllocError>
        ensures board { KeepsFresh board.old board.new }
        ensures lanes { self.new.lanes ≡ self.old.lanes }
        ensures seats { self.new.desk.seats ≡ self.old.desk.seats }
    {
        share_out(self.rt, alloc, self.lanes, &mut self.desk, board)
    }

    /// Pushes one Stop for each seat, and returns the desk.
    pub fn close(self) -> Desk
        ensures desk { IsDeskOf self.entry.lanes result }
        ensures seats { result.seats ≡ self.entry.desk.seats }
        ensures pushed { pushed_by_desk result
            ≡ pushed_by_desk self.entry.desk ++ replicate self.entry.desk.seats Stop }
        ensures popped { popped_by_desk result ≡ popped_by_desk self.entry.desk }
        ensures collected { collected_by_desk result ≡ collected_by_desk self.entry.desk }
    {
        let Standing {
            rt,
            lanes,
            cases: _,
            mut desk,
            bench: _,
        } = self;
        desk.close(rt, lanes);
        desk
    }
}

impl<'a, R: Wait> Mesher for Standing<'a, R> {
    ghost use Rattle.standing_workers.specs.Desks.{outstanding};

    fn feed(&mut self, alloc: Global, board: &mut Board) -> Result<(), AllocError>
        ensures world { board.new.world ≡ board.old.world }
        ensures marked { board.new.marked ≡ board.old.marked }
        ensures fresh { (n : NodeOf) (done : DoneState)
            → state_of board.old n ≡ fresh done → state_of board.new n ≡ fresh done }
        ensures lanes { self.new.lanes ≡ self.old.lanes }
        ensures seats { self.new.desk.seats ≡ self.old.desk.seats }
        ensures few { outstanding self.new.desk ≤ MAX_OUTSTANDING }
        ensures handed { OnOk result (((n : NodeOf) → state_of board.new n ≢ wanted)
            ⊎ (outstanding self.new.desk ≡ MAX_OUTSTANDING)) }
    {
        feed_board(
            self.rt,
            alloc,
            self.cases,
            self.lanes,
            &mut self.desk,
            board,
        )
    }

    fn settle<T: Threads + Sync>(
        &mut self,
        rt: &T,
        alloc: Global,
        board: &mut Board,
    ) -> Result<(), AllocError>
        requires { IsSync T.row }
        ensures world { board.new.world ≡ board.old.world }
        ensures marked { board.new.marked ≡ board.old.marked }
        ensures fresh { (n : NodeOf) (done : DoneState)
            → state_of board.old n ≡ fresh done → state_of board.new n ≡ fresh done }
        ensures ready { OnOk result (IsReady board.new) }
        ensures lanes { self.new.lanes ≡ self.old.lanes }
        ensures seats { self.new.desk.seats ≡ self.old.desk.seats }
    {
        settle_board(
            self.rt,
            alloc,
            self.cases,
            &mut self.bench,
            self.lanes,
            &mut self.desk,
            board,
        )
    }
}
