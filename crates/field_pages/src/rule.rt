//! What an edit makes of samples.

ghost use Rattle.std.specs.Prelude.{◌≡◌, ◌+◌, ◌<◌, ◌≤◌, ◌%◌, ℕ, ℤ, pos, length, IfSome, IsTrue, slice_index_or};
ghost use Rattle.lattice.specs.declared.point.Axis.TheVariants.{X};
ghost use Rattle.lattice.specs.declared.point.Point.{Point as PointOf};
ghost use Rattle.terrain.specs.Samples.{IsSample};
ghost use Rattle.lattice.specs.Point.{moved};
ghost use Rattle.lattice.specs.Region.{IsWithin};
ghost use Rattle.field_pages.specs.Changes.{Makes};

use crate::page::SIDE;
use lattice::{Point, Region};
use terrain::MAX_SAMPLE;

/// What an edit makes of the samples in its region, a part of a page's row at a time.
pub trait Rule {
    // The points whose samples it can make.
    ghost takes: { Self → PointOf → Type 0 };

    // What it may make of the sample at a point.
    ghost gives: { Self → PointOf → ℤ → ℤ → Type 0 };

    /// Replaces the samples at `from` and on along x.
    fn apply(&self, from: Point, row: &mut [i8])
        requires in_page { from.x % SIDE + length row.old ≤ SIDE }
        requires points { (t : ℕ) → t < length row.old → takes self.now (moved X t from) }
        requires samples { (t : ℕ) → t < length row.old →
            IsSample (slice_index_or row.old t MAX_SAMPLE) }
        ensures { (t : ℕ) → t < length row.old →
            Makes (gives self.now) (moved X t from)
            (slice_index_or row.old t MAX_SAMPLE) (slice_index_or row.new t MAX_SAMPLE) };

    /// Returns whether it can tell at once that it leaves each sample in a region as it is.
    fn keeps(&self, region: Region) -> bool
        requires not_empty { IsWithin region region.lo }
        requires takes { (p : PointOf) → IsWithin region p → takes self.now p }
        ensures { IsTrue result → (p : PointOf) (s : ℤ) → IsWithin region p → IsSample s →
            gives self.now p s s };

    /// Returns what it makes of this sample, where it can tell at once that this is the same at each point of a region.
    fn outcome(&self, region: Region, sample: i8) -> Option<i8>
        requires not_empty { IsWithin region region.lo }
        requires takes { (p : PointOf) → IsWithin region p → takes self.now p }
        requires sample { IsSample sample }
        ensures { IfSome result (λ new. (p : PointOf) → IsWithin region p →
            Makes (gives self.now) p sample new) };
}

/// The rule that a point's sample is what a function gives for the point.
#[derive(Drop)]
pub(crate) struct ByPoint<'a, F> {
    pub(crate) f: &'a F,
}

impl<F: Fn(Point) -> i8> Rule for ByPoint<'_, F> {
    ghost takes = { λ rule p. F.pre rule.f.now p × ((s : ℤ) → F.post rule.f.now p s → IsSample s) };

    ghost gives = { λ rule p old new. F.post rule.f.now p new };

    fn apply(&self, from: Point, row: &mut [i8]) {
        for (x, sample) in row.iter_mut().enumerate() {
            *sample = (self.f)(Point {
                x: from.x + x as u32,
                ..from
            });
        }
    }

    fn keeps(&self, _region: Region) -> bool {
        false
    }

    fn outcome(&self, _region: Region, _sample: i8) -> Option<i8> {
        None
    }
}
