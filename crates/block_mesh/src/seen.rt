//! What proofs alone know of a value.
//!
//! It is `std`'s `Snapshot` anew, for the sake of `Send` and `Sync`: those of a struct with a field of this type are
//! found by its fields, and so are those of whatever has such a struct deep inside. A `Snapshot` hinders that.

ghost use Rattle.std.specs.Prelude.{◌≡◌};
ghost use Rattle.terrain.specs.Blocks.{brick};
ghost use Rattle.field_pages.specs.Pages.{sample_at};
ghost use Rattle.octree.specs.SplitBits.{split_at};
ghost use base.Fml.{ftrue};

use bricks::Brick;
use field_pages::Version;
use lattice::Node;
use octree::Levels;
use std::marker::{Model, PhantomData};

/// A value as it was, for contracts. It takes no memory and owns nothing.
pub struct Seen<T> {
    marker: PhantomData<T>,
    pub ghost value: { T },
}

impl<T> Model for Seen<T> {
    ghost also_owns = { λ _. ftrue };
}

impl<T> Seen<T> {
    /// Returns the value as it is now.
    pub fn of(x: &T) -> Seen<T>
        ensures { result.value ≡ x.now }
    {
        let _ = x;
        Seen {
            marker: PhantomData,
        }
    }
}

/// Returns the brick of a leaf as contracts see it. It isn't gathered.
pub(crate) fn seen_brick(version: &Version, levels: &Levels, leaf: &Node) -> Seen<Brick>
    ensures { result.value
        ≡ brick levels.now.depth (sample_at version.now) (split_at levels.now) leaf.now }
{
    Seen {
        marker: PhantomData,
    }
}

impl<T> Drop for Seen<T> {
    fn drop(self) {
        let Seen { marker: _ } = self;
    }
}
