//! One page of samples.

ghost use Rattle.std.specs.Prelude.{◌≡◌, ◌≢◌, ◌+◌, ◌*◌, ◌<◌, ◌≤◌, ◌%◌, ◌↔◌, ℕ, ℤ, pos, length, IfOk, IfSome, IsTrue, slice_index_or, unwrap_or};
ghost use Rattle.lattice.specs.declared.point.Axis.TheVariants.{X};
ghost use Rattle.lattice.specs.declared.point.Point.{Point as PointOf};
ghost use Rattle.terrain.specs.Samples.{IsSample, is_solid};
ghost use Rattle.lattice.specs.Point.{moved};
ghost use Rattle.field_pages.specs.Even.{ArePadded, IsExtent, IsWorldPlace, even_list};
ghost use Rattle.field_pages.specs.PageRows.{lent_samples};
ghost use Rattle.field_pages.specs.Places.{IsCorner, IsInPage, IsInPages, IsPoint, IsSameOff, MeetsPage, page_at, index_in_page};
ghost use Rattle.field_pages.specs.Changes.{Changes, Makes};
ghost use Rattle.lattice.specs.Region.{IsWithin};

use crate::even::{EvenPage, Extent, is_even_within};
use crate::even_rows::EvenRows;
use crate::page_rows::PageRows;
use crate::rule::Rule;
use crate::signs::{Signs, signs_of};
use lattice::{MAX_SIDE, Point, Region};
use std::alloc::{AllocError, Global};
use std::marker::Model;
use std::sync::Arc;
use terrain::MAX_SAMPLE;

/// How many points a page has along an axis.
pub const SIDE: u32 = 16;

/// How many samples a page has.
pub const COUNT: usize = (SIDE * SIDE * SIDE) as usize;

/// How many samples are compared before it is asked whether they differ.
pub(crate) const PART: usize = (SIDE * SIDE) as usize;

/// How many pages there are in a row of the largest world.
pub(crate) const MAX_ACROSS: u32 = MAX_SIDE / SIDE + 1;

/// The samples of a page, as it keeps them.
#[derive(Debug, Drop)]
enum Samples {
    /// One at each of its points of the world.
    Even(EvenPage),
    /// Each by itself, by z, then y, then x, with what their signs are. They are not all the same. The signs stand
    /// first, where they take no room: a page has 16 bytes.
    Full { signs: Signs, samples: Arc<Vec<i8>> },
}

/// The samples of a cube of points, which versions share. Where the points of the world have one sample, it alone is
/// kept.
#[derive(Debug, Drop)]
pub(crate) struct Page {
    samples: Samples,
}

impl Model for Page {
    ghost use Rattle.std.specs.Prelude.{ℤ, List};
    ghost use Rattle.field_pages.specs.PageSamples.{IsPage, page_list};

    ghost Value = { List ℤ };

    ghost view = { λ page. page_list page.samples };

    ghost invariant = { λ page. IsPage page.samples };
}

impl Page {
    /// Returns the greatest sample at every point.
    pub(crate) fn empty() -> Page
        ensures { (p : PointOf) → page_at result p ≡ MAX_SAMPLE }
    {
        Page::even(EvenPage {
            sample: MAX_SAMPLE,
            extent: Extent::WHOLE,
        })
    }

    /// Returns a page that has one sample at its points of the world.
    fn even(page: EvenPage) -> Page
        requires { IsExtent page.extent }
        ensures { result ≡ even_list page }
    {
        Page {
            samples: Samples::Even(page),
        }
    }

    /// Returns a page of samples, which past the world's end are `MAX_SAMPLE`. It keeps one alone where the points of
    /// the world have no other.
    fn of(alloc: Global, samples: Vec<i8>, extent: Extent) -> Result<Page, AllocError>
        requires long { length samples.items ≡ COUNT }
        requires extent { IsExtent extent }
        requires padding { ArePadded extent samples.items }
        ensures { IfOk result (λ page. page ≡ samples.items) }
    {
        if is_even_within(&samples, extent) {
            let sample = samples[0];
            return Ok(Page::even(EvenPage { sample, extent }));
        }
        let signs = signs_of(&samples);
        let samples = Arc::new(alloc, samples)?;
        Ok(Page {
            samples: Samples::Full { signs, samples },
        })
    }

    /// Returns a copy, which shares the samples. Out of memory is the only error.
    pub(crate) fn try_clone(&self) -> Result<Page, AllocError>
        ensures { IfOk result (λ copy. copy ≡ self.now) }
    {
        let samples = match &self.samples {
            Samples::Even(page) => Samples::Even(*page),
            Samples::Full { signs, samples } => Samples::Full {
                signs: *signs,
                samples: Arc::try_clone(samples)?,
            },
        };
        Ok(Page { samples })
    }

    /// Returns the sample at a point of the page.
    pub(crate) fn sample(&self, p: Point) -> i8
        ensures { result ≡ page_at self.now p }
    {
        match &self.samples {
            Samples::Even(page) => page.at(index_in_page(p)),
            Samples::Full { samples, .. } => samples[index_in_page(p)],
        }
    }

    /// Returns the sample at the page's low corner.
    pub(crate) fn first(&self) -> i8
        ensures { result ≡ slice_index_or self.now 0 MAX_SAMPLE }
    {
        self.sample(Point { z: 0, y: 0, x: 0 })
    }

    /// Returns whether all samples of the page are this one, those past the world's end too.
    pub(crate) fn has_alone(&self, sample: i8) -> bool
        ensures { IsTrue result ↔ ((k : ℕ) → k < COUNT →
            slice_index_or self.now k MAX_SAMPLE ≡ sample) }
    {
        match &self.samples {
            Samples::Even(page) => page.sample == sample && page.is_even(),
            Samples::Full { .. } => false,
        }
    }

    /// Returns whether all samples of the page are solid, or whether none is, as is asked. Those past the world's end
    /// count, and aren't solid.
    pub(crate) fn has_sign(&self, solid: bool) -> bool
        ensures { IsTrue result ↔ ((k : ℕ) → k < COUNT →
            is_solid (slice_index_or self.now k MAX_SAMPLE) ≡ solid) }
    {
        match &self.samples {
            Samples::Even(page) => page.has_sign(solid),
            Samples::Full { signs, .. } => signs.are_all(solid),
        }
    }

    /// Returns the page's row of samples at a y and a z.
    pub(crate) fn row<'a>(&'a self, rows: &'a EvenRows, y: u32, z: u32) -> &'a [i8]
        ensures len { length result.now ≡ SIDE }
        ensures samples { (p : PointOf) → p.y ≡ y → p.z ≡ z →
            slice_index_or result.now (p.x % SIDE) MAX_SAMPLE ≡ page_at self.now p }
    {
        let start = index_in_page(Point { z, y, x: 0 });
        match &self.samples {
            Samples::Even(page) => page.row(rows, start),
            Samples::Full { samples, .. } => &samples[start..start + SIDE as usize],
        }
    }

    /// Lends the rows of the page.
    pub(crate) fn rows<'a>(&'a self, rows: &'a EvenRows) -> PageRows<'a>
        ensures samples { lent_samples result ≡ self.now }
        ensures len { length (lent_samples result) ≡ COUNT }
    {
        match &self.samples {
            Samples::Even(page) => PageRows::even(*page, rows),
            Samples::Full { samples, .. } => PageRows::full(samples),
        }
    }

    /// Returns the samples of the page, by z, then y, then x.
    fn to_vec(&self, alloc: Global) -> Result<Vec<i8>, AllocError>
        ensures value { IfOk result (λ samples. samples.items ≡ self.now) }
        ensures len { IfOk result (λ samples. length samples.items ≡ COUNT) }
    {
        match &self.samples {
            Samples::Even(page) => page.to_vec(alloc),
            Samples::Full { samples, .. } => {
                let mut copy = Vec::with_capacity(alloc, COUNT)?;
                copy.extend_from_slice(samples)?;
                Ok(copy)
            }
        }
    }

    /// Returns whether these are the samples of the page, which has those off the planes of its points from one number
    /// along z to another.
    fn has(&self, samples: &[i8], first: usize, end: usize) -> bool
        requires long { length samples.now ≡ COUNT }
        requires planes { (first ≤ SIDE) × (end ≤ SIDE) }
        requires others { IsSameOff first end samples.now self.now }
        ensures { IsTrue result ↔ (samples.now ≡ self.now) }
    {
        match &self.samples {
            Samples::Even(page) => page.is_all(samples, first, end),
            Samples::Full { samples: own, .. } => are_same(samples, own, first, end),
        }
    }

    /// Returns whether two pages have the same samples, and each keeps them by itself: then one can be shared in the
    /// place of the other.
    pub(crate) fn is_same(&self, other: &Page) -> bool
        ensures { IsTrue result → self.now ≡ other.now }
    {
        match (&self.samples, &other.samples) {
            (
                Samples::Full { samples: own, .. },
                Samples::Full {
                    samples: others,
                    ..
                },
            ) => are_same(own, others, 0, SIDE as usize),
            _ => false,
        }
    }

    /// Returns whether the page keeps samples that no other page shares.
    pub(crate) fn is_own(&self) -> bool {
        match &self.samples {
            Samples::Even(_) => false,
            Samples::Full { samples, .. } => Arc::strong_count(samples) == 1,
        }
    }

    /// Returns the page with this low corner after an edit of a region that it meets, or None where the edit leaves
    /// each of its samples as it is. The world has so many pages in a row.
    pub(crate) fn revise<R: Rule>(
        &self,
        alloc: Global,
        across: u32,
        corner: Point,
        region: Region,
        rule: &R,
    ) -> Result<Option<Page>, AllocError>
        requires few { across ≤ MAX_ACROSS }
        requires corner { IsCorner corner }
        requires corner_end { IsInPages across corner }
        requires region_end { IsPoint across region.hi }
        requires meets { MeetsPage corner region }
        requires not_empty { IsWithin region region.lo }
        requires samples { (p : PointOf) → IsInPage corner p → IsSample (page_at self.now p) }
        requires padding { (p : PointOf) → IsInPage corner p → (IsPoint across p → ⊥) →
            page_at self.now p ≡ MAX_SAMPLE }
        requires takes { (p : PointOf) → IsWithin region p → R.takes rule.now p }
        ensures changes { IfOk result (λ page.
            Changes region (Makes (R.gives rule.now)) (IsInPage corner)
            (page_at self.now) (page_at (unwrap_or page self.now))) }
        ensures differs { IfOk result (λ page. IfSome page (λ new. new ≢ self.now)) }
    {
        let part = part_in_page(region, corner);
        if rule.keeps(part) {
            return Ok(None);
        }
        let extent = Extent::of(corner, across);
        match self.outcome(corner, part, rule) {
            Some(sample) if sample == self.first() => Ok(None),
            Some(sample) if is_whole_page(part, corner, extent) => {
                Ok(Some(Page::even(EvenPage { sample, extent })))
            }
            _ => self.rewrite(alloc, corner, extent, region, rule),
        }
    }

    /// Returns what a rule makes of each sample in a part of this page with this low corner, where it can tell at once.
    /// Each of these is the page's first sample then.
    fn outcome<R: Rule>(&self, corner: Point, part: Region, rule: &R) -> Option<i8>
        requires corner { IsCorner corner }
        requires not_empty { IsWithin part part.lo }
        requires in_page { (p : PointOf) → IsWithin part p → IsInPage corner p }
        requires samples { (p : PointOf) → IsInPage corner p → IsSample (page_at self.now p) }
        requires takes { (p : PointOf) → IsWithin part p → R.takes rule.now p }
        ensures even { IfSome result (λ new. (p : PointOf) → IsWithin part p →
            page_at self.now p ≡ slice_index_or self.now 0 MAX_SAMPLE) }
        ensures makes { IfSome result (λ new. (p : PointOf) → IsWithin part p →
            Makes (R.gives rule.now) p (page_at self.now p) new) }
    {
        if self.has_one_sample_in(part) {
            rule.outcome(part, self.first())
        } else {
            None
        }
    }

    /// Returns whether the page keeps one sample alone, and all points of a box in it are of the world: then they
    /// have its first sample.
    fn has_one_sample_in(&self, part: Region) -> bool
        ensures { IsTrue result → (corner p : PointOf) → IsCorner corner → IsInPage corner part.hi
            → IsInPage corner p → IsWithin part p
            → page_at self.now p ≡ slice_index_or self.now 0 MAX_SAMPLE }
    {
        match &self.samples {
            Samples::Even(page) => page.has(part),
            Samples::Full { .. } => false,
        }
    }

    /// Returns the page with this low corner after an edit of a region that it meets, or None where the edit leaves
    /// each of its samples as it is. It goes over the samples.
    fn rewrite<R: Rule>(
        &self,
        alloc: Global,
        corner: Point,
        extent: Extent,
        region: Region,
        rule: &R,
    ) -> Result<Option<Page>, AllocError>
        requires corner { IsCorner corner }
        requires corner_end { IsInPages MAX_ACROSS corner }
        requires region_end { IsInPages MAX_ACROSS region.hi }
        requires meets { MeetsPage corner region }
        requires not_empty { region.lo.x ≤ region.hi.x }
        requires extent { IsExtent extent }
        requires samples { (p : PointOf) → IsInPage corner p → IsSample (page_at self.now p) }
        requires padding { (p : PointOf) → IsInPage corner p →
            (IsWorldPlace extent (index_in_page p) → ⊥) →
            (page_at self.now p ≡ MAX_SAMPLE) × (IsWithin region p → ⊥) }
        requires takes { (p : PointOf) → IsWithin region p → R.takes rule.now p }
        ensures changes { IfOk result (λ page.
            Changes region (Makes (R.gives rule.now)) (IsInPage corner)
            (page_at self.now) (page_at (unwrap_or page self.now))) }
        ensures differs { IfOk result (λ page. IfSome page (λ new. new ≢ self.now)) }
    {
        let mut samples = self.to_vec(alloc)?;
        let Region { lo, hi } = region;
        let x = corner.x.max(lo.x);
        let count = (corner.x + SIDE).min(hi.x + 1) - x;
        let (low, high) = (corner.z.max(lo.z), (corner.z + SIDE).min(hi.z + 1));
        for z in low..high {
            for y in corner.y.max(lo.y)..(corner.y + SIDE).min(hi.y + 1) {
                revise_row(&mut samples, Point { z, y, x }, count, rule);
            }
        }
        if self.has(
            &samples,
            (low - corner.z) as usize,
            (high - corner.z) as usize,
        ) {
            return Ok(None);
        }
        Ok(Some(Page::of(alloc, samples, extent)?))
    }
}

/// Returns the part of a region that lies in the page with this low corner.
fn part_in_page(region: Region, corner: Point) -> Region
    requires corner_end { IsInPages MAX_ACROSS corner }
    requires meets { MeetsPage corner region }
    requires not_empty { IsWithin region region.lo }
    ensures not_empty { IsWithin result result.lo }
    ensures of_region { (p : PointOf) → IsWithin result p → IsWithin region p }
    ensures in_page { (p : PointOf) → IsWithin result p → IsInPage corner p }
    ensures all { (p : PointOf) → IsWithin region p → IsInPage corner p → IsWithin result p }
{
    let Region { lo, hi } = region;
    let last = SIDE - 1;
    Region {
        lo: Point {
            z: corner.z.max(lo.z),
            y: corner.y.max(lo.y),
            x: corner.x.max(lo.x),
        },
        hi: Point {
            z: (corner.z + last).min(hi.z),
            y: (corner.y + last).min(hi.y),
            x: (corner.x + last).min(hi.x),
        },
    }
}

/// Returns whether a region has every point of the world that the page with this low corner and extent has.
fn is_whole_page(region: Region, corner: Point, extent: Extent) -> bool
    requires corner { IsInPages MAX_ACROSS corner }
    requires at { IsCorner corner }
    requires extent { IsExtent extent }
    ensures { IsTrue result → (p : PointOf) → IsInPage corner p →
        IsWorldPlace extent (index_in_page p) → IsWithin region p }
{
    let end = Point {
        z: corner.z + u32::from(extent.z) - 1,
        y: corner.y + u32::from(extent.y) - 1,
        x: corner.x + u32::from(extent.x) - 1,
    };
    region.contains(corner) && region.contains(end)
}

/// Returns whether two pages have the same samples, where they have the same off the planes of points from one number
/// along z to another.
fn are_same(a: &[i8], b: &[i8], first: usize, end: usize) -> bool
    requires a { length a.now ≡ COUNT }
    requires b { length b.now ≡ COUNT }
    requires planes { (first ≤ SIDE) × (end ≤ SIDE) }
    requires others { IsSameOff first end a.now b.now }
    ensures { IsTrue result ↔ (a.now ≡ b.now) }
{
    for layer in first..end {
        if !is_same_part(a, b, layer * PART) {
            return false;
        }
    }
    true
}

/// Returns whether two pages have the same samples in a part. It reads them all, so that many are read at once.
fn is_same_part(a: &[i8], b: &[i8], start: usize) -> bool
    requires a { start + PART ≤ length a.now }
    requires b { start + PART ≤ length b.now }
    ensures { IsTrue result ↔ ((k : ℕ) → k < PART →
        slice_index_or a.now (start + k) MAX_SAMPLE
        ≡ slice_index_or b.now (start + k) MAX_SAMPLE) }
{
    let mut is_same = true;
    for k in 0..PART {
        is_same &= a[start + k] == b[start + k];
    }
    is_same
}

/// Applies a rule to so many samples of a page, at `from` and on along x.
fn revise_row<R: Rule>(samples: &mut [i8], from: Point, count: u32, rule: &R)
    requires page { length samples.old ≡ COUNT }
    requires in_page { from.x % SIDE + count ≤ SIDE }
    requires points { (t : ℕ) → t < count → R.takes rule.now (moved X t from) }
    requires samples { (t : ℕ) → t < count → IsSample (page_at samples.old (moved X t from)) }
    ensures changed { (t : ℕ) → t < count →
        Makes (R.gives rule.now) (moved X t from)
        (page_at samples.old (moved X t from)) (page_at samples.new (moved X t from)) }
    ensures kept { (k : ℕ) (d : ℤ)
        → (index_in_page from ≤ k → k < index_in_page from + count → ⊥)
        → slice_index_or samples.new k d ≡ slice_index_or samples.old k d }
{
    let start = index_in_page(from);
    rule.apply(from, &mut samples[start..start + count as usize]);
}

/// Returns the index of a point's sample among those of its page.
pub fn index_in_page(p: Point) -> usize
    ensures value { result ≡ index_in_page p }
    ensures within { result < COUNT }
{
    ((p.z % SIDE * SIDE + p.y % SIDE) * SIDE + p.x % SIDE) as usize
}
