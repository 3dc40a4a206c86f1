//! Smoothing: the rule by which samples take part of their neighbours.

ghost use Rattle.std.specs.Prelude.{◌≡◌, ℕ, ◌+◌, ◌-◌, ◌*◌, ◌/◌, ◌<◌, ◌≤◌, ◌+ℤ◌, ◌*ℤ◌, min, pos, IsTrue, slice_index_or};
ghost use Rattle.std.specs.Int.{int_div_euclid};
ghost use Rattle.lattice.specs.declared.point.Point.{Point as PointOf};
ghost use Rattle.lattice.specs.Point.{IsInWorld};
ghost use Rattle.lattice.specs.Region.{IsWithin};
ghost use Rattle.lattice.specs.Settings.{IsDepth, world_side};
ghost use Rattle.terrain.specs.Brushes.{smoothed};
ghost use Rattle.terrain.specs.Samples.{IsSample};
ghost use Rattle.field_pages.specs.Pages.{sample_at};
ghost use Rattle.field_pages.specs.Places.{IsInSamePage};
ghost use Rattle.brushes.specs.Rows.{IsRowOf};
ghost use Rattle.brushes.specs.Around.{IsSmoothed};
ghost use Rattle.brushes.specs.Values.{IsPair};

use field_laws::samples_stay_in_range;
use field_pages::{Rule, SIDE, Version};
use lattice::{Point, Region};

/// The rule by which samples are smoothed. It reads the old version alone.
#[derive(Drop)]
pub(crate) struct Smoothing<'a> {
    pub(crate) version: &'a Version,
    /// The side of the world.
    pub(crate) side: u32,
}

impl Rule for Smoothing<'_> {
    ghost takes = { λ rule p. IsInWorld rule.version.now.depth p
        × (rule.side ≡ world_side rule.version.now.depth) × IsDepth rule.version.now.depth };

    ghost gives = { λ rule p old new.
        new ≡ smoothed rule.version.now.depth (sample_at rule.version.now) p };

    fn apply(&self, from: Point, row: &mut [i8]) {
        if row.is_empty() {
            return;
        }
        let around = Around::new(self.version, self.side, from);
        let smoothed = around.smoothed_row(self.version, self.side, from);
        let first = (from.x % SIDE) as usize;
        for (t, sample) in row.iter_mut().enumerate() {
            *sample = smoothed[first + t];
        }
    }

    fn keeps(&self, _region: Region) -> bool {
        false
    }

    fn outcome(&self, region: Region, _sample: i8) -> Option<i8> {
        if is_in_one_page(region) && has_one_sample_around(self.version, self.side, region.lo) {
            Some(self.version.sample(region.lo))
        } else {
            None
        }
    }
}

/// The row of a page in which a point lies, and those of its neighbours along y and z.
#[derive(Drop)]
struct Around<'a> {
    here: &'a [i8],
    y_low: &'a [i8],
    y_high: &'a [i8],
    z_low: &'a [i8],
    z_high: &'a [i8],
}

impl<'a> Around<'a> {
    ghost use Rattle.brushes.specs.Around.{AreRowsAround};

    /// Returns the rows round a point.
    fn new(version: &'a Version, side: u32, p: Point) -> Around<'a>
        requires side { side ≡ world_side version.now.depth }
        requires depth { IsDepth version.now.depth }
        requires p { IsInWorld version.now.depth p }
        ensures { AreRowsAround version.now p result }
    {
        let (y_low, y_high) = (p.y.saturating_sub(1), (p.y + 1).min(side));
        let (z_low, z_high) = (p.z.saturating_sub(1), (p.z + 1).min(side));
        Around {
            here: row_of(version, p),
            y_low: row_of(version, Point { y: y_low, ..p }),
            y_high: row_of(version, Point { y: y_high, ..p }),
            z_low: row_of(version, Point { z: z_low, ..p }),
            z_high: row_of(version, Point { z: z_high, ..p }),
        }
    }

    /// Returns the smoothed samples of the page's row in which a point lies. All lanes are made at once, whether the
    /// world has so many points there or not.
    fn smoothed_row(&self, version: &Version, side: u32, p: Point) -> [i8; SIDE as usize]
        requires side { side ≡ world_side version.now.depth }
        requires depth { IsDepth version.now.depth }
        requires p { IsInWorld version.now.depth p }
        requires rows { AreRowsAround version.now p self.now }
        ensures { (t : ℕ) → t < SIDE → SIDE * (p.x / SIDE) + t ≤ world_side version.now.depth
            → IsSmoothed version.now (record p { x = SIDE * (p.x / SIDE) + t })
            (slice_index_or result t (pos 0)) }
    {
        let x_low = row_before(version, self.here, p);
        let x_high = row_after(version, side, self.here, p);
        let mut smoothed = [0; SIDE as usize];
        for (t, sample) in smoothed.iter_mut().enumerate() {
            let along_x = (x_low[t], x_high[t]);
            let along_y = (self.y_low[t], self.y_high[t]);
            let along_z = (self.z_low[t], self.z_high[t]);
            *sample = eighth(self.here[t], along_x, along_y, along_z);
        }
        smoothed
    }
}

/// Returns whether a region lies in one page.
fn is_in_one_page(region: Region) -> bool
    ensures { IsTrue result → (p : PointOf) → IsWithin region p → IsInSamePage region.lo p }
{
    let Region { lo, hi } = region;
    lo.z / SIDE == hi.z / SIDE && lo.y / SIDE == hi.y / SIDE && lo.x / SIDE == hi.x / SIDE
}

/// Returns whether the page in which a point lies, and those next to it on each axis, have one sample alone. Then
/// smoothing changes none of the page's samples.
fn has_one_sample_around(version: &Version, side: u32, p: Point) -> bool
    requires side { side ≡ world_side version.now.depth }
    requires depth { IsDepth version.now.depth }
    requires p { IsInWorld version.now.depth p }
    ensures { IsTrue result → (q : PointOf) → IsInWorld version.now.depth q → IsInSamePage p q
        → sample_at version.now p ≡ smoothed version.now.depth (sample_at version.now) q }
{
    let sample = version.sample(p);
    let low = Point {
        z: p.z.saturating_sub(SIDE),
        y: p.y.saturating_sub(SIDE),
        x: p.x.saturating_sub(SIDE),
    };
    let high = Point {
        z: (p.z + SIDE).min(side),
        y: (p.y + SIDE).min(side),
        x: (p.x + SIDE).min(side),
    };
    version.has_alone(p, sample)
        && have_sample(
            version,
            Point { x: low.x, ..p },
            Point { x: high.x, ..p },
            sample,
        )
        && have_sample(
            version,
            Point { y: low.y, ..p },
            Point { y: high.y, ..p },
            sample,
        )
        && have_sample(
            version,
            Point { z: low.z, ..p },
            Point { z: high.z, ..p },
            sample,
        )
}

/// Returns whether the pages in which two points lie have this sample alone.
fn have_sample(version: &Version, p: Point, q: Point, sample: i8) -> bool
    requires first { IsInWorld version.now.depth p }
    requires second { IsInWorld version.now.depth q }
    ensures first { IsTrue result → (r : PointOf) → IsInSamePage p r
        → sample_at version.now r ≡ sample }
    ensures second { IsTrue result → (r : PointOf) → IsInSamePage q r
        → sample_at version.now r ≡ sample }
{
    version.has_alone(p, sample) && version.has_alone(q, sample)
}

/// Returns the row of a page in which a point lies.
fn row_of(version: &Version, p: Point) -> &[i8]
    requires { IsInWorld version.now.depth p }
    ensures { IsRowOf version.now p result.now }
{
    version.row(p.x / SIDE, p.y, p.z)
}

/// Returns the samples before those of the page's row in which a point lies, along x. That at the world's low end is
/// its own neighbour.
fn row_before(version: &Version, row: &[i8], p: Point) -> [i8; SIDE as usize]
    requires p { IsInWorld version.now.depth p }
    requires row { IsRowOf version.now p row.now }
    ensures samples { (t : ℕ) → t < SIDE → slice_index_or result t (pos 0)
        ≡ sample_at version.now (record p { x = SIDE * (p.x / SIDE) + t - 1 }) }
    ensures range { (t : ℕ) → t < SIDE → IsSample (slice_index_or result t (pos 0)) }
{
    let x = SIDE * (p.x / SIDE);
    let first = version.sample(Point {
        x: x.saturating_sub(1),
        ..p
    });
    let mut before = [first; SIDE as usize];
    for t in 1..SIDE as usize {
        before[t] = row[t - 1];
    }
    before
}

/// Returns the samples behind those of the page's row in which a point lies, along x. That at the world's high end is
/// its own neighbour.
fn row_after(version: &Version, side: u32, row: &[i8], p: Point) -> [i8; SIDE as usize]
    requires side { side ≡ world_side version.now.depth }
    requires depth { IsDepth version.now.depth }
    requires p { IsInWorld version.now.depth p }
    requires row { IsRowOf version.now p row.now }
    ensures samples { (t : ℕ) → t < SIDE → SIDE * (p.x / SIDE) + t ≤ world_side version.now.depth
        → slice_index_or result t (pos 0) ≡ sample_at version.now
        (record p { x = min (SIDE * (p.x / SIDE) + t + 1) (world_side version.now.depth) }) }
    ensures range { (t : ℕ) → t < SIDE → IsSample (slice_index_or result t (pos 0)) }
{
    let x = SIDE * (p.x / SIDE);
    let mut after = [0; SIDE as usize];
    for t in 1..SIDE as usize {
        after[t - 1] = row[t];
    }
    after[SIDE as usize - 1] = version.sample(Point {
        x: (x + SIDE).min(side),
        ..p
    });
    if x == side {
        after[0] = row[0];
    }
    after
}

/// Returns twice a sample and the samples at its neighbours on each axis, divided by 8 and rounded down.
fn eighth(sample: i8, x: (i8, i8), y: (i8, i8), z: (i8, i8)) -> i8
    requires sample { IsSample sample }
    requires x { IsSample x.0 × IsSample x.1 }
    requires y { IsSample y.0 × IsSample y.1 }
    requires z { IsSample z.0 × IsSample z.1 }
    ensures value { result ≡ int_div_euclid
        ((pos 2 *ℤ sample) +ℤ ((x.0 +ℤ x.1) +ℤ ((y.0 +ℤ y.1) +ℤ (z.0 +ℤ z.1)))) (pos 8) }
    ensures range { IsSample result }
{
    samples_stay_in_range();
    let sum = 2 * i16::from(sample) + (pair(x) + (pair(y) + pair(z)));
    sum.div_euclid(8) as i8
}

/// Returns the sum of two samples.
fn pair(samples: (i8, i8)) -> i16
    requires { IsSample samples.0 × IsSample samples.1 }
    ensures value { result ≡ samples.0 +ℤ samples.1 }
    ensures range { IsPair result }
{
    i16::from(samples.0) + i16::from(samples.1)
}
