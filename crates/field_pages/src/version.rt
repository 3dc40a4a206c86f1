//! A whole field, which never changes.

ghost use Rattle.std.specs.Prelude.{◌≡◌, ◌+◌, ◌*◌, ◌/◌, ◌<◌, ◌≤◌, ◌^◌, ◌↔◌, ℕ, ℤ, pos, All, length, IfOk, IsTrue, slice_index_or};
ghost use Rattle.lattice.specs.declared.point.Point.{Point as PointOf};
ghost use Rattle.lattice.specs.Region.{IsRegion, IsWithin};
ghost use Rattle.terrain.specs.Samples.{IsSample, is_solid, opening};
ghost use Rattle.lattice.specs.Settings.{IsDepth, world_side};
ghost use Rattle.lattice.specs.Point.{IsInWorld};
ghost use Rattle.field_pages.specs.Places.{IsInSamePage, page_at, page_corner, pages_across};
ghost use Rattle.field_pages.specs.PageRows.{lent_samples};
ghost use Rattle.field_pages.specs.Pages.{HoldsField, HoldsSamples, sample_at};
ghost use Rattle.field_pages.specs.Changes.{Changes};
ghost use Rattle.field_pages.specs.Kept.{AreChanged, restored};

use crate::even_rows::EvenRows;
use crate::kept::{Kept, KeptLayer};
use crate::layer::Layer;
use crate::page::{COUNT, MAX_ACROSS, SIDE};
use crate::page_rows::PageRows;
use crate::rule::{ByPoint, Rule};
use lattice::{Point, Region, points_of_regions, sizes_of_worlds};
use shared_lists::SharedList;
use std::alloc::{AllocError, Global};
use std::marker::Model;
use std::sync::Arc;
use terrain::MAX_SAMPLE;

/// A whole field of samples, which never changes.
///
/// It is kept as pages of 16 x 16 x 16 samples, `2^depth + 1` on each axis, which it shares with the
/// versions that were made from it. Each sample is from -127 to 127. Places of a page past the
/// world's end hold 127.
#[derive(Debug)]
pub struct Version {
    depth: u8,
    layers: SharedList<Layer>,
    /// The rows that are lent of pages that keep one sample alone.
    rows: Arc<EvenRows>,
}

impl Model for Version {
    ghost use Rattle.field_pages.specs.Pages.{Pages, IsVersion};

    ghost Value = { Pages };

    ghost view = { λ version. record { depth = version.depth; layers = version.layers } };

    ghost invariant = { λ v. IsVersion (record { depth = v.depth; layers = v.layers }) };
}

// Written out, since a derived drop is proved anew in each crate that drops a version.
impl Drop for Version {
    fn drop(self) {
        let Self {
            depth: _,
            layers: _layers,
            rows: _rows,
        } = self;
    }
}

impl Version {
    /// Returns the field of a world of this depth before any edit: `MAX_SAMPLE` everywhere. It is an error where memory
    /// runs out.
    pub fn new(alloc: Global, depth: u8) -> Result<Version, AllocError>
        requires { IsDepth depth }
        ensures depth { IfOk result (λ version. version.depth ≡ depth) }
        ensures samples { IfOk result (λ version. HoldsField version opening) }
    {
        let across = pages_across(depth);
        let layer = Layer::empty(alloc, across)?;
        let layers = SharedList::new(alloc, layer, across as usize)?;
        let rows = Arc::new(alloc, EvenRows::new(alloc)?)?;
        Ok(Version {
            depth,
            layers,
            rows,
        })
    }

    /// Returns the depth of the world.
    pub fn depth(&self) -> u8
        ensures value { result ≡ self.now.depth }
        ensures lawful { IsDepth result }
    {
        self.depth
    }

    /// Returns the sample at a point.
    pub fn sample(&self, p: Point) -> i8
        requires { IsInWorld self.now.depth p }
        ensures value { result ≡ sample_at self.now p }
        ensures range { IsSample result }
        ensures samples { HoldsSamples self.now }
    {
        let layer = self.layers.part((p.z / SIDE) as usize);
        layer.sample(pages_across(self.depth), p)
    }

    /// Returns the samples of a page's row: those at x from `SIDE * x_page` on. Past the world's end
    /// they are `MAX_SAMPLE`.
    pub fn row(&self, x_page: u32, y: u32, z: u32) -> &[i8]
        requires x_page { x_page ≤ 2 ^ self.now.depth }
        requires y { y ≤ world_side self.now.depth }
        requires z { z ≤ world_side self.now.depth }
        ensures len { length result.now ≡ SIDE }
        ensures samples { (t : ℕ) (d : ℤ) → t < SIDE →
            slice_index_or result.now t d
            ≡ sample_at self.now (record { z = z; y = y; x = SIDE * x_page + t }) }
        ensures padding { (t : ℕ) (d : ℤ) → t < SIDE →
            world_side self.now.depth < SIDE * x_page + t →
            slice_index_or result.now t d ≡ MAX_SAMPLE }
        ensures range { (t : ℕ) (d : ℤ) → t < SIDE → IsSample (slice_index_or result.now t d) }
    {
        let layer = self.layers.part((z / SIDE) as usize);
        let x = SIDE * x_page;
        layer.row(&self.rows, pages_across(self.depth), Point { z, y, x })
    }

    /// Lends the rows of the page in which a point lies; `index_in_page` says where among its samples a point's is.
    /// Past the world's end they are `MAX_SAMPLE`.
    pub fn page(&self, p: Point) -> PageRows<'_>
        requires { IsInWorld self.now.depth p }
        ensures len { length (lent_samples result) ≡ COUNT }
        ensures samples { (q : PointOf) → IsInSamePage p q →
            page_at (lent_samples result) q ≡ sample_at self.now q }
        ensures range { All IsSample (lent_samples result) }
    {
        let layer = self.layers.part((p.z / SIDE) as usize);
        layer.page(&self.rows, pages_across(self.depth), p)
    }

    /// Lends the samples at the low corners of pages: of those in the row along x in which a point lies. That of a page
    /// is at its place in the row.
    pub fn corners(&self, p: Point) -> &[i8]
        requires { IsInWorld self.now.depth p }
        ensures len { length result.now ≡ pages_across self.now.depth }
        ensures samples { (q : PointOf) → q.z / SIDE ≡ p.z / SIDE → q.y / SIDE ≡ p.y / SIDE →
            q.x / SIDE < pages_across self.now.depth →
            slice_index_or result.now (q.x / SIDE) MAX_SAMPLE
            ≡ sample_at self.now (page_corner q) }
        ensures range { (t : ℕ) (d : ℤ) → t < pages_across self.now.depth →
            IsSample (slice_index_or result.now t d) }
    {
        let layer = self.layers.part((p.z / SIDE) as usize);
        layer.corners(pages_across(self.depth), p)
    }

    /// Returns whether the page in which a point lies has this sample alone, at each of its points. Those past the
    /// world's end count: they have `MAX_SAMPLE`.
    pub fn has_alone(&self, p: Point, sample: i8) -> bool
        requires { IsInWorld self.now.depth p }
        ensures { IsTrue result
            ↔ ((q : PointOf) → IsInSamePage p q → sample_at self.now q ≡ sample) }
    {
        let layer = self.layers.part((p.z / SIDE) as usize);
        layer.has_alone(pages_across(self.depth), p, sample)
    }

    /// Returns whether each point of the page in which a point lies is solid, or whether none is, as is asked. Points
    /// past the world's end count, and aren't solid. It reads no sample.
    pub fn has_sign(&self, p: Point, solid: bool) -> bool
        requires { IsInWorld self.now.depth p }
        ensures { IsTrue result
            ↔ ((q : PointOf) → IsInSamePage p q → is_solid (sample_at self.now q) ≡ solid) }
    {
        let layer = self.layers.part((p.z / SIDE) as usize);
        layer.has_sign(pages_across(self.depth), p, solid)
    }

    /// Returns how many pages are in no other version, and at no other place: the memory that is freed with this one.
    pub fn own_pages(&self) -> usize
        ensures { result ≤ pages_across self.now.depth * pages_across self.now.depth
            * pages_across self.now.depth }
    {
        let mut count = 0;
        for place in 0..pages_across(self.depth) as usize {
            if self.layers.is_own(place) {
                count += self.layers.part(place).own_pages();
            }
        }
        count
    }

    /// Returns a new version, in which the samples of a box of points are those that `f` gives.
    ///
    /// It copies the pages in which samples change, and shares all others. Out of memory is the
    /// only error.
    pub fn edit<F: Fn(Point) -> i8>(
        &self,
        alloc: Global,
        region: Region,
        f: &F,
    ) -> Result<Version, AllocError>
        requires region { IsRegion self.now.depth region }
        requires callable { (p : PointOf) → IsWithin region p → F.pre f.now p }
        requires range { (p : PointOf) (s : ℤ) → IsWithin region p → F.post f.now p s →
            IsSample s }
        ensures depth { IfOk result (λ version. version.depth ≡ self.now.depth) }
        ensures edited { IfOk result (λ version.
            (p : PointOf) → IsWithin region p → F.post f.now p (sample_at version p)) }
        ensures kept { IfOk result (λ version.
            (p : PointOf) → IsInWorld self.now.depth p → (IsWithin region p → ⊥) →
            sample_at version p ≡ sample_at self.now p) }
    {
        self.revise(alloc, region, &ByPoint { f })
    }

    /// Does the same as `edit`, and keeps just the pages in which a sample changed, as they were. To `restore` them
    /// into the new version makes this one.
    pub fn edit_kept<F: Fn(Point) -> i8>(
        &self,
        alloc: Global,
        region: Region,
        f: &F,
    ) -> Result<(Version, Kept), AllocError>
        requires region { IsRegion self.now.depth region }
        requires callable { (p : PointOf) → IsWithin region p → F.pre f.now p }
        requires range { (p : PointOf) (s : ℤ) → IsWithin region p → F.post f.now p s →
            IsSample s }
        ensures depth { IfOk result (λ made. made.0.depth ≡ self.now.depth) }
        ensures edited { IfOk result (λ made.
            (p : PointOf) → IsWithin region p → F.post f.now p (sample_at made.0 p)) }
        ensures others { IfOk result (λ made.
            (p : PointOf) → IsInWorld self.now.depth p → (IsWithin region p → ⊥) →
            sample_at made.0 p ≡ sample_at self.now p) }
        ensures kept { IfOk result (λ made. AreChanged self.now made.0 made.1) }
    {
        self.revise_kept(alloc, region, &ByPoint { f })
    }

    /// Returns a new version, in which the pages that were kept are as they were then, and all others are this one's.
    ///
    /// It shares all pages. Out of memory is the only error.
    pub fn restore(&self, alloc: Global, kept: &Kept) -> Result<Version, AllocError>
        requires { kept.now.depth ≡ self.now.depth }
        ensures { IfOk result (λ version. version ≡ restored kept.now self.now) }
    {
        let rows = Arc::try_clone(&self.rows)?;
        let mut layers = self.layers.try_clone(alloc)?;
        let olds = kept.layers();
        for old in olds {
            let layer = layers.part(old.number()).restore(alloc, old.pages())?;
            layers.replace(alloc, old.number(), layer)?;
        }
        Ok(Version {
            depth: self.depth,
            layers,
            rows,
        })
    }

    /// Returns a new version, in which the samples of a box of points are those that a rule makes
    /// of the old ones, each of which is from -127 to 127.
    ///
    /// It copies the pages in which samples change, and shares all others. Out of memory is the
    /// only error.
    pub fn revise<R: Rule>(
        &self,
        alloc: Global,
        region: Region,
        rule: &R,
    ) -> Result<Version, AllocError>
        requires region { IsRegion self.now.depth region }
        requires takes { (p : PointOf) → IsWithin region p → R.takes rule.now p }
        ensures range { HoldsSamples self.now }
        ensures depth { IfOk result (λ version. version.depth ≡ self.now.depth) }
        ensures changes { IfOk result (λ version.
            Changes region (R.gives rule.now) (IsInWorld self.now.depth)
            (sample_at self.now) (sample_at version)) }
    {
        let (version, _kept) = self.revise_kept(alloc, region, rule)?;
        Ok(version)
    }

    /// Does the same as `revise`, and keeps just the pages in which a sample changed, as they were. To `restore` them
    /// into the new version makes this one.
    pub fn revise_kept<R: Rule>(
        &self,
        alloc: Global,
        region: Region,
        rule: &R,
    ) -> Result<(Version, Kept), AllocError>
        requires region { IsRegion self.now.depth region }
        requires takes { (p : PointOf) → IsWithin region p → R.takes rule.now p }
        ensures range { HoldsSamples self.now }
        ensures depth { IfOk result (λ made. made.0.depth ≡ self.now.depth) }
        ensures changes { IfOk result (λ made.
            Changes region (R.gives rule.now) (IsInWorld self.now.depth)
            (sample_at self.now) (sample_at made.0)) }
        ensures kept { IfOk result (λ made. AreChanged self.now made.0 made.1) }
    {
        points_of_regions();
        let across = pages_across(self.depth);
        let rows = Arc::try_clone(&self.rows)?;
        let mut layers = self.layers.try_clone(alloc)?;
        let mut olds = Vec::new(alloc);
        for number in region.lo.z / SIDE..region.hi.z / SIDE + 1 {
            let place = number as usize;
            let layer = self.layers.part(place);
            let mut pages = Vec::new(alloc);
            let z = number * SIDE;
            if let Some(layer) = layer.revise(alloc, across, z, region, rule, &mut pages)? {
                olds.push(KeptLayer::new(place, pages))?;
                layers.replace(alloc, place, layer)?;
            }
        }
        let kept = Kept::new(self.depth, olds);
        let version = Version {
            depth: self.depth,
            layers,
            rows,
        };
        Ok((version, kept))
    }
}

/// Returns how many pages there are in a row.
fn pages_across(depth: u8) -> u32
    requires { IsDepth depth }
    ensures value { result ≡ pages_across depth }
    ensures few { result ≤ MAX_ACROSS }
{
    sizes_of_worlds();
    (1 << depth) + 1
}
