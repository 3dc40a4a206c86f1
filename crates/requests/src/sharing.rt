//! The mesher of a run with workers: a crew and a pool, which mesh the leaves of one board.

use mesh_jobs::{Board, Mesher};
use mesh_pool::Pool;
use standing_workers::{Crew, CrewMesher};
use std::alloc::{AllocError, Global};
use std::sync::Wait;
use std::thread::Threads;

/// A mesher that shares out what is wanted when it settles: a few leaves to a crew's workers, and the others to a pool.
///
/// The crew is lent, so that its owner can close it afterwards.
#[derive(Drop)]
pub struct Sharing<'m, 'a, 'p, R: Wait, C: Crew> {
    crew: &'m mut CrewMesher<'a, R, C>,
    pool: Pool<'p, R>,
}

impl<'m, 'a, 'p, R: Wait, C: Crew> Sharing<'m, 'a, 'p, R, C> {
    /// Returns the mesher that has this crew and this pool.
    pub fn new(crew: &'m mut CrewMesher<'a, R, C>, pool: Pool<'p, R>) -> Sharing<'m, 'a, 'p, R, C> {
        Sharing { crew, pool }
    }
}

impl<R: Wait, C: Crew> Mesher for Sharing<'_, '_, '_, R, C> {
    fn feed(&mut self, alloc: Global, board: &mut Board) -> Result<(), AllocError> {
        self.crew.feed(alloc, board)
    }

    fn settle<T: Threads + Sync>(
        &mut self,
        rt: &T,
        alloc: Global,
        board: &mut Board,
    ) -> Result<(), AllocError> {
        self.crew.share_out(alloc, board)?;
        self.pool.mesh_wanted(alloc, board)?;
        self.crew.settle(rt, alloc, board)
    }
}
