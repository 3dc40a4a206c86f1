//! The memory in which meshes are made, one after another.

ghost use Rattle.std.specs.Prelude.{◌≡◌, IfOk, List, [], length};

use crate::builder::Builder;
use crate::cell_steps::CellSteps;
use bricks::BrickView;
use cells::Cases;
use std::alloc::{AllocError, Global};
use std::marker::Model;

/// The memory in which meshes are made, one after another. It shows in no mesh.
pub(crate) struct Scratch {
    /// What is left of the last mesh, after one was made.
    builder: Option<Builder>,
    /// The triangles of regular cells, after a mesh was made.
    steps: Option<CellSteps>,
}

impl Model for Scratch {
    ghost use Rattle.std.specs.Prelude.{⊤};
    ghost use Rattle.block_mesh.specs.Builder.{IsKeptSpare};

    ghost Value = { ⊤ };

    ghost view = { λ _. tt };

    ghost invariant = { λ scratch. IsKeptSpare scratch.builder };
}

// Written out, since a derived drop is proved anew in each crate that drops a workbench.
impl Drop for Scratch {
    fn drop(self) {
        let Self {
            builder: _builder,
            steps: _steps,
        } = self;
    }
}

impl Scratch {
    ghost use Rattle.block_mesh.specs.Builder.{HoldsTriangles, Builds, IsSpare};

    /// Returns memory for meshes, and takes none yet.
    pub(crate) fn new() -> Scratch {
        Scratch {
            builder: None,
            steps: None,
        }
    }

    /// Returns a mesh without triangles for a brick's leaf, in the memory of the last one.
    pub(crate) fn begin(
        &mut self,
        alloc: Global,
        brick: &BrickView<'_>,
    ) -> Result<Builder, AllocError>
        ensures none { IfOk result (λ builder. length builder.edges ≡ 0) }
        ensures builds { IfOk result (λ builder. Builds brick.now builder) }
        ensures holds { IfOk result (λ builder. HoldsTriangles brick.now [] builder) }
    {
        match self.builder.take() {
            Some(mut builder) => {
                builder.restart(brick);
                Ok(builder)
            }
            None => Builder::new(alloc, brick),
        }
    }

    /// Returns the triangles of regular cells, which are made once. Out of memory is the only error.
    pub(crate) fn steps(&mut self, alloc: Global, cases: &Cases) -> Result<&CellSteps, AllocError> {
        let steps = self
            .steps
            .get_or_try_insert_with(|| CellSteps::new(alloc, cases))?;
        Ok(steps)
    }

    /// Keeps the memory of a mesh for the next one.
    pub(crate) fn keep(&mut self, builder: Builder)
        requires { IsSpare builder }
    {
        self.builder = Some(builder);
    }
}
