//! The mesher of a crew: standing workers whose queues and number of seats its type names.
//!
//! A function that is given any mesher calls it, and promises of it what every mesher does; so nobody knows afterwards
//! at which queues it is. This one keeps that in its type, and so it can be closed for the tally of all work.

ghost use Rattle.std.specs.Prelude.{◌≡◌, ◌++◌, List, Some, replicate};
ghost use Rattle.mesh_board.specs.Keeping.{KeepsFresh};
ghost use Rattle.standing_workers.specs.declared.job.Job.{Job as JobOf};
ghost use Rattle.standing_workers.specs.declared.job.Job.TheVariants.{Stop};
ghost use Rattle.standing_workers.specs.declared.lanes.Lanes.{Lanes as LanesOf};
ghost use Rattle.standing_workers.specs.Desks.{IsDeskOf, IsOpen, pushed_by_desk};

use crate::desk::Desk;
use crate::lanes::Lanes;
use crate::standing::Standing;
use cells::Cases;
use mesh_jobs::{Board, Mesher};
use std::alloc::{AllocError, Global};
use std::marker::{Brand, Model, PhantomData};
use std::sync::Wait;
use std::thread::Threads;

/// At which queues a crew works, and how many seats it has. Each call of a program picks it.
pub trait Crew {
    ghost use Rattle.std.specs.Prelude.{Option, ℕ};
    ghost use Rattle.standing_workers.specs.declared.lanes.Lanes.{Lanes};

    ghost lanes: { Option Lanes };

    ghost seats: { ℕ };
}

impl Crew for Brand {
    ghost use Rattle.std.specs.Prelude.{None};

    ghost lanes = { None };

    ghost seats = { 0 };
}

/// A mesher with standing workers, whose type names their queues and the number of their seats.
///
/// Contracts see the desk and the queues.
#[derive(Drop)]
pub struct CrewMesher<'a, R: Wait, C: Crew> {
    standing: Standing<'a, R>,
    crew: PhantomData<C>,
}

impl<'a, R: Wait, C: Crew> Model for CrewMesher<'a, R, C> {
    ghost use Rattle.std.specs.Prelude.{◌≡◌, Some};
    ghost use Rattle.standing_workers.specs.Standing.{StandingState};

    ghost Value = { StandingState };

    ghost view = { λ mesher. mesher.standing };

    ghost invariant = { λ mesher. (C.lanes ≡ Some mesher.standing.lanes)
        × (C.seats ≡ mesher.standing.desk.seats) };
}

impl<'a, R: Wait, C: Crew> CrewMesher<'a, R, C> {
    /// Returns the mesher that hands out jobs from this desk of the crew, which pushed no Stop yet.
    pub fn new(rt: &'a R, lanes: &'a Lanes, cases: &'a Cases, desk: Desk) -> CrewMesher<'a, R, C>
        requires lanes { C.lanes ≡ Some lanes.now }
        requires seats { C.seats ≡ desk.seats }
        requires desk { IsDeskOf lanes.now desk }
        requires is_open { IsOpen desk }
        ensures desk { result.desk ≡ desk }
        ensures lanes { result.lanes ≡ lanes.now }
    {
        CrewMesher {
            standing: Standing::new(rt, lanes, cases, desk),
            crew: PhantomData,
        }
    }

    /// Hands out a few of the wanted leaves to each seat, where somebody else meshes the others before this mesher
    /// settles. Leaves that are fresh stay fresh, and the world and the mark stay as they are. Out of memory is the
    /// only error.
    pub fn share_out(&mut self, alloc: Global, board: &mut Board) -> Result<(), AllocError>
        ensures { KeepsFresh board.old board.new }
    {
        self.standing.share_out(alloc, board)
    }

    /// Pushes one Stop for each seat, and returns the desk of the crew.
    pub fn close(self) -> Desk
        ensures desk { (lanes : LanesOf) → C.lanes ≡ Some lanes → IsDeskOf lanes result }
        ensures seats { result.seats ≡ C.seats }
        ensures stops { (before : List JobOf)
            × (pushed_by_desk result ≡ before ++ replicate C.seats Stop) }
    {
        let CrewMesher { standing, crew: _ } = self;
        standing.close()
    }
}

impl<R: Wait, C: Crew> Mesher for CrewMesher<'_, R, C> {
    fn feed(&mut self, alloc: Global, board: &mut Board) -> Result<(), AllocError> {
        self.standing.feed(alloc, board)
    }

    fn settle<T: Threads + Sync>(
        &mut self,
        rt: &T,
        alloc: Global,
        board: &mut Board,
    ) -> Result<(), AllocError> {
        self.standing.settle(rt, alloc, board)
    }
}
