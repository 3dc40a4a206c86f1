//! Pages that have one sample at each of their points of the world.

ghost use Rattle.std.specs.Prelude.{◌≡◌, ◌+◌, ◌*◌, ◌<◌, ◌≤◌, ◌%◌, ◌↔◌, ℕ, ℤ, length, IfOk, IsTrue, slice_index_or};
ghost use Rattle.lattice.specs.declared.point.Point.{Point as PointOf};
ghost use Rattle.lattice.specs.Region.{IsWithin};
ghost use Rattle.terrain.specs.Samples.{is_solid};
ghost use Rattle.field_pages.specs.Even.{IsExtent, IsWorldPlace, even_at, even_list, row_count};
ghost use Rattle.field_pages.specs.Places.{IsCorner, IsEven, IsInPage, IsInPages, IsPoint, IsSameOff, index_in_page};

use crate::even_rows::EvenRows;
use crate::page::{COUNT, MAX_ACROSS, PART, SIDE};
use lattice::{Point, Region};
use std::alloc::{AllocError, Global};
use terrain::MAX_SAMPLE;

/// How many rows a page has.
pub(crate) const ROWS: usize = (SIDE * SIDE) as usize;

/// How many points of a page are in the world, along each axis: `SIDE`, or 1 where its first points are the last ones
/// of the world. Its other points are past the world's end.
#[derive(Clone, Copy, Debug)]
pub(crate) struct Extent {
    pub(crate) z: u8,
    pub(crate) y: u8,
    pub(crate) x: u8,
}

impl Extent {
    /// The extent of a page that has no point past the world's end.
    pub(crate) const WHOLE: Extent = Extent {
        z: SIDE as u8,
        y: SIDE as u8,
        x: SIDE as u8,
    };

    /// Returns the extent of the page with this low corner, in a world that has so many pages in a row.
    pub(crate) fn of(corner: Point, across: u32) -> Extent
        requires corner { IsCorner corner }
        requires few { across ≤ MAX_ACROSS }
        requires within { IsInPages across corner }
        ensures extent { IsExtent result }
        ensures points { (p : PointOf) → IsInPage corner p →
            IsWorldPlace result (index_in_page p) ↔ IsPoint across p }
    {
        Extent {
            z: points_from(corner.z, across),
            y: points_from(corner.y, across),
            x: points_from(corner.x, across),
        }
    }

    /// Returns how many points of the world there are in the page's row of this number.
    pub(crate) fn row_count(&self, row: usize) -> usize
        requires { IsExtent self.now }
        ensures value { result ≡ row_count self.now row }
        ensures few { result ≤ SIDE }
    {
        let side = SIDE as usize;
        if row / side < self.z as usize && row % side < self.y as usize {
            self.x as usize
        } else {
            0
        }
    }

    /// Returns whether no point of the page is past the world's end.
    pub(crate) fn is_whole(&self) -> bool
        requires { IsExtent self.now }
        ensures { IsTrue result ↔ ((k : ℕ) → k < COUNT → IsWorldPlace self.now k) }
    {
        self.row_count(ROWS - 1) == SIDE as usize
    }
}

/// Returns how many points of the world there are from a multiple of `SIDE` on to the next one, along an axis.
fn points_from(low: u32, across: u32) -> u8
    requires low { low % SIDE ≡ 0 }
    requires few { across ≤ MAX_ACROSS }
    requires within { low < SIDE * across }
    ensures some { 1 ≤ result }
    ensures few { result ≤ SIDE }
    ensures points { (k : ℕ) → low ≤ k → k < low + SIDE →
        k % SIDE < result ↔ k + SIDE ≤ SIDE * across }
{
    if low + SIDE < SIDE * across {
        SIDE as u8
    } else {
        1
    }
}

/// The samples of a page that has one sample at each of its points of the world. Past the world's end it has
/// `MAX_SAMPLE`.
#[derive(Clone, Copy, Debug)]
pub(crate) struct EvenPage {
    pub(crate) sample: i8,
    pub(crate) extent: Extent,
}

impl EvenPage {
    /// Returns the sample at an index of the page.
    pub(crate) fn at(&self, index: usize) -> i8
        requires { IsExtent self.now.extent }
        ensures { result ≡ even_at self.now.extent self.now.sample index }
    {
        let side = SIDE as usize;
        if index % side < self.extent.row_count(index / side) {
            self.sample
        } else {
            MAX_SAMPLE
        }
    }

    /// Returns the samples of the page's row that begins at this index.
    pub(crate) fn row<'a>(&self, rows: &'a EvenRows, start: usize) -> &'a [i8]
        requires extent { IsExtent self.now.extent }
        requires start { start % SIDE ≡ 0 }
        ensures len { length result.now ≡ SIDE }
        ensures samples { (t : ℕ) → t < SIDE →
            slice_index_or result.now t MAX_SAMPLE
            ≡ even_at self.now.extent self.now.sample (start + t) }
    {
        rows.row(self.sample, self.extent.row_count(start / SIDE as usize))
    }

    /// Returns the samples of the page.
    pub(crate) fn to_vec(&self, alloc: Global) -> Result<Vec<i8>, AllocError>
        requires { IsExtent self.now.extent }
        ensures value { IfOk result (λ samples. samples.items ≡ even_list self.now) }
        ensures len { IfOk result (λ samples. length samples.items ≡ COUNT) }
    {
        if self.is_even() {
            return vec![in alloc; self.sample; COUNT];
        }
        let mut samples = vec![in alloc; MAX_SAMPLE; COUNT]?;
        for row in 0..ROWS {
            let start = SIDE as usize * row;
            fill_row(&mut samples, start, self.extent.row_count(row), self.sample);
        }
        Ok(samples)
    }

    /// Returns whether all rows of the page are the same as its first one.
    pub(crate) fn has_equal_rows(&self) -> bool
        requires { IsExtent self.now.extent }
        ensures { IsTrue result → (k : ℕ) → k < COUNT →
            even_at self.now.extent self.now.sample k
            ≡ even_at self.now.extent self.now.sample (k % SIDE) }
    {
        self.sample == MAX_SAMPLE || self.extent.row_count(ROWS - 1) == self.extent.x as usize
    }

    /// Returns whether the page has its one sample past the world's end too.
    pub(crate) fn is_even(&self) -> bool
        requires { IsExtent self.now.extent }
        ensures { IsTrue result ↔ IsEven (even_list self.now) }
    {
        self.sample == MAX_SAMPLE || self.extent.is_whole()
    }

    /// Returns whether all samples of the page are solid, or whether none is, as is asked. Those past the world's end
    /// count, and aren't solid.
    pub(crate) fn has_sign(&self, solid: bool) -> bool
        requires { IsExtent self.now.extent }
        ensures { IsTrue result ↔ ((k : ℕ) → k < COUNT →
            is_solid (even_at self.now.extent self.now.sample k) ≡ solid) }
    {
        if self.sample < 0 {
            solid && self.extent.is_whole()
        } else {
            !solid
        }
    }

    /// Returns whether the points of a box that lies in the page are points of the world, by the page's extent.
    pub(crate) fn has(&self, part: Region) -> bool
        requires { IsExtent self.now.extent }
        ensures { IsTrue result → (corner p : PointOf) → IsCorner corner
            → IsInPage corner part.hi → IsInPage corner p → IsWithin part p
            → IsWorldPlace self.now.extent (index_in_page p) }
    {
        let Extent { z, y, x } = self.extent;
        let hi = part.hi;
        hi.z % SIDE < u32::from(z) && hi.y % SIDE < u32::from(y) && hi.x % SIDE < u32::from(x)
    }

    /// Returns whether these are the samples of the page, which has those off the planes of its points from one number
    /// along z to another.
    pub(crate) fn is_all(&self, samples: &[i8], first: usize, end: usize) -> bool
        requires long { length samples.now ≡ COUNT }
        requires extent { IsExtent self.now.extent }
        requires planes { (first ≤ SIDE) × (end ≤ SIDE) }
        requires others { IsSameOff first end samples.now (even_list self.now) }
        ensures { IsTrue result ↔ (samples.now ≡ even_list self.now) }
    {
        if self.extent.is_whole() {
            return is_all_one(samples, self.sample);
        }
        let side = SIDE as usize;
        for row in side * first..side * end {
            if !self.is_row(samples, row) {
                return false;
            }
        }
        true
    }

    /// Returns whether a page has the samples that this one has in the row of this number.
    fn is_row(&self, samples: &[i8], row: usize) -> bool
        requires long { length samples.now ≡ COUNT }
        requires extent { IsExtent self.now.extent }
        requires row { row < ROWS }
        ensures { IsTrue result ↔ ((t : ℕ) → t < SIDE →
            slice_index_or samples.now (SIDE * row + t) MAX_SAMPLE
            ≡ even_at self.now.extent self.now.sample (SIDE * row + t)) }
    {
        let side = SIDE as usize;
        let (start, count) = (side * row, self.extent.row_count(row));
        is_even_part(samples, start, count, self.sample)
            && is_even_part(samples, start + count, side - count, MAX_SAMPLE)
    }
}

/// Makes so many samples of a page from a place on this one.
fn fill_row(samples: &mut [i8], start: usize, count: usize, sample: i8)
    requires { start + count ≤ length samples.old }
    ensures filled { (t : ℕ) (d : ℤ) → t < count →
        slice_index_or samples.new (start + t) d ≡ sample }
    ensures others { (k : ℕ) (d : ℤ) → (start ≤ k → k < start + count → ⊥)
        → slice_index_or samples.new k d ≡ slice_index_or samples.old k d }
{
    samples[start..start + count].fill(sample);
}

/// Returns whether a page has its first sample at each of its points of the world.
pub(crate) fn is_even_within(samples: &[i8], extent: Extent) -> bool
    requires page { length samples.now ≡ COUNT }
    requires extent { IsExtent extent }
    ensures { IsTrue result ↔ ((k : ℕ) → k < COUNT → IsWorldPlace extent k →
        slice_index_or samples.now k MAX_SAMPLE ≡ slice_index_or samples.now 0 MAX_SAMPLE) }
{
    let first = samples[0];
    if extent.is_whole() {
        return is_all_one(samples, first);
    }
    for row in 0..ROWS {
        if !is_even_part(samples, SIDE as usize * row, extent.row_count(row), first) {
            return false;
        }
    }
    true
}

/// Returns whether all samples of a page are this one.
fn is_all_one(samples: &[i8], sample: i8) -> bool
    requires { length samples.now ≡ COUNT }
    ensures { IsTrue result ↔ ((k : ℕ) → k < COUNT →
        slice_index_or samples.now k MAX_SAMPLE ≡ sample) }
{
    for layer in 0..SIDE as usize {
        if !is_even_part(samples, layer * PART, PART, sample) {
            return false;
        }
    }
    true
}

/// Returns whether so many samples of a page from a place on are all this one. It reads them all, so that many are read
/// at once.
fn is_even_part(samples: &[i8], start: usize, count: usize, sample: i8) -> bool
    requires { start + count ≤ length samples.now }
    ensures { IsTrue result ↔ ((k : ℕ) → k < count →
        slice_index_or samples.now (start + k) MAX_SAMPLE ≡ sample) }
{
    let mut is_even = true;
    for k in 0..count {
        is_even &= samples[start + k] == sample;
    }
    is_even
}
