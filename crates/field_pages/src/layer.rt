//! One layer of pages.

ghost use Rattle.std.specs.Prelude.{◌≡◌, ℕ, ◌+◌, ◌*◌, ◌<◌, ◌≤◌, ◌/◌, ◌%◌, ◌↔◌, ℤ, [], pos, All, length, IfOk, IsTrue, OnOk, replicate, slice_index_or, slice_set, unwrap_or};
ghost use Rattle.lattice.specs.declared.point.Point.{Point as PointOf};
ghost use Rattle.terrain.specs.Samples.{IsSample, is_solid};
ghost use Rattle.field_pages.specs.Places.{IsBox, IsInLayer, IsPoint, MeetsPage, layer_at, page_at, page_corner, page_number};
ghost use Rattle.field_pages.specs.PageRows.{lent_samples};
ghost use Rattle.field_pages.specs.Changes.{Changes, Makes};
ghost use Rattle.field_pages.specs.Kept.{AreChangedPages, layer_restored};
ghost use Rattle.lattice.specs.Region.{IsWithin};

use crate::even_rows::EvenRows;
use crate::kept::KeptPage;
use crate::page::{COUNT, MAX_ACROSS, Page, SIDE};
use crate::page_rows::PageRows;
use crate::rule::Rule;
use crate::shared_pages::SharedPages;
use lattice::{Point, Region};
use std::alloc::{AllocError, Global};
use std::marker::Model;
use terrain::MAX_SAMPLE;

/// The pages at one height, by y, then x. Layers share the samples of pages that are equal.
#[derive(Debug, Drop)]
pub(crate) struct Layer {
    pages: SharedPages,
    /// The sample at the low corner of each page.
    corners: Vec<i8>,
}

impl Model for Layer {
    ghost use Rattle.std.specs.Prelude.{◌≡◌, ℤ, List};
    ghost use Rattle.field_pages.specs.Places.{corner_samples};

    ghost Value = { List (List ℤ) };

    ghost view = { λ layer. layer.pages };

    ghost invariant = { λ layer. layer.corners.items ≡ corner_samples layer.pages };
}

impl Layer {
    /// Returns the greatest sample at every point, in so many pages along x and along y.
    pub(crate) fn empty(alloc: Global, across: u32) -> Result<Layer, AllocError>
        requires { across ≤ MAX_ACROSS }
        ensures len { IfOk result (λ layer. length layer ≡ across * across) }
        ensures samples { IfOk result (λ layer.
            (p : PointOf) → IsInLayer across p.z p → layer_at across layer p ≡ MAX_SAMPLE) }
    {
        let count = (across * across) as usize;
        let pages = SharedPages::empty(alloc, count)?;
        let corners = vec![in alloc; MAX_SAMPLE; count]?;
        Ok(Layer { pages, corners })
    }

    /// Returns the sample at a point of the layer, which has so many pages in a row.
    pub(crate) fn sample(&self, across: u32, p: Point) -> i8
        requires across { across ≤ MAX_ACROSS }
        requires pages { length self.now ≡ across * across }
        requires y { p.y < SIDE * across }
        requires x { p.x < SIDE * across }
        ensures { result ≡ layer_at across self.now p }
    {
        self.pages.page(page_number(across, p)).sample(p)
    }

    /// Lends the rows of the page in which a point lies.
    pub(crate) fn page<'a>(&'a self, rows: &'a EvenRows, across: u32, p: Point) -> PageRows<'a>
        requires across { across ≤ MAX_ACROSS }
        requires pages { length self.now ≡ across * across }
        requires y { p.y < SIDE * across }
        requires x { p.x < SIDE * across }
        ensures len { length (lent_samples result) ≡ COUNT }
        ensures samples { (q : PointOf) → q.y / SIDE ≡ p.y / SIDE → q.x / SIDE ≡ p.x / SIDE →
            page_at (lent_samples result) q ≡ layer_at across self.now q }
    {
        self.pages.page(page_number(across, p)).rows(rows)
    }

    /// Lends the samples at the low corners of the pages in whose row along x a point lies.
    pub(crate) fn corners(&self, across: u32, p: Point) -> &[i8]
        requires across { across ≤ MAX_ACROSS }
        requires pages { length self.now ≡ across * across }
        requires y { p.y < SIDE * across }
        ensures len { length result.now ≡ across }
        ensures samples { (q : PointOf) → q.y / SIDE ≡ p.y / SIDE → q.x / SIDE < across →
            slice_index_or result.now (q.x / SIDE) MAX_SAMPLE
            ≡ layer_at across self.now (page_corner q) }
    {
        let start = (p.y / SIDE * across) as usize;
        &self.corners[start..start + across as usize]
    }

    /// Returns whether all samples of the page in which a point lies are this one.
    pub(crate) fn has_alone(&self, across: u32, p: Point, sample: i8) -> bool
        requires across { across ≤ MAX_ACROSS }
        requires pages { length self.now ≡ across * across }
        requires y { p.y < SIDE * across }
        requires x { p.x < SIDE * across }
        ensures { IsTrue result ↔ ((k : ℕ) → k < COUNT →
            slice_index_or (slice_index_or self.now (page_number across p) []) k MAX_SAMPLE
            ≡ sample) }
    {
        self.pages.page(page_number(across, p)).has_alone(sample)
    }

    /// Returns whether all samples of the page in which a point lies are solid, or whether none is, as is asked.
    pub(crate) fn has_sign(&self, across: u32, p: Point, solid: bool) -> bool
        requires across { across ≤ MAX_ACROSS }
        requires pages { length self.now ≡ across * across }
        requires y { p.y < SIDE * across }
        requires x { p.x < SIDE * across }
        ensures { IsTrue result ↔ ((k : ℕ) → k < COUNT → is_solid
            (slice_index_or (slice_index_or self.now (page_number across p) []) k MAX_SAMPLE)
            ≡ solid) }
    {
        self.pages.page(page_number(across, p)).has_sign(solid)
    }

    /// Returns the samples of a page's row, which begins at this point.
    pub(crate) fn row<'a>(&'a self, rows: &'a EvenRows, across: u32, from: Point) -> &'a [i8]
        requires across { across ≤ MAX_ACROSS }
        requires pages { length self.now ≡ across * across }
        requires y { from.y < SIDE * across }
        requires x { from.x < SIDE * across }
        ensures len { length result.now ≡ SIDE }
        ensures samples { (p : PointOf) → p.z ≡ from.z → p.y ≡ from.y →
            p.x / SIDE ≡ from.x / SIDE →
            slice_index_or result.now (p.x % SIDE) MAX_SAMPLE ≡ layer_at across self.now p }
    {
        let page = self.pages.page(page_number(across, from));
        page.row(rows, from.y, from.z)
    }

    /// Returns the layer that begins at the height `z` after an edit of a region, or None where the edit leaves each of
    /// its pages as it is. The pages that it changes are kept.
    pub(crate) fn revise<R: Rule>(
        &self,
        alloc: Global,
        across: u32,
        z: u32,
        region: Region,
        rule: &R,
        kept: &mut Vec<KeptPage>,
    ) -> Result<Option<Layer>, AllocError>
        requires across { across ≤ MAX_ACROSS }
        requires pages { length self.now ≡ across * across }
        requires z { z % SIDE ≡ 0 }
        requires z_end { z < SIDE * across }
        requires region { IsBox across region }
        requires samples { (p : PointOf) → IsInLayer across z p →
            IsSample (layer_at across self.now p) }
        requires padding { (p : PointOf) → IsInLayer across z p → (IsPoint across p → ⊥) →
            layer_at across self.now p ≡ MAX_SAMPLE }
        requires takes { (p : PointOf) → IsWithin region p → R.takes rule.now p }
        requires empty { kept.old.items ≡ [] }
        ensures len { IfOk result (λ layer. length (unwrap_or layer self.now) ≡ across * across) }
        ensures changes { IfOk result (λ layer.
            Changes region (Makes (R.gives rule.now)) (IsInLayer across z)
            (layer_at across self.now) (layer_at across (unwrap_or layer self.now))) }
        ensures kept { IfOk result (λ layer.
            AreChangedPages self.now (unwrap_or layer self.now) kept.new.items) }
    {
        let mut revised: Option<Layer> = None;
        for number in page_number(across, region.lo)..page_number(across, region.hi) + 1 {
            let corner = page_corner(across, z, number);
            if !meets(region, corner) {
                continue;
            }
            let before = self.pages.page(number);
            if let Some(page) = before.revise(alloc, across, corner, region, rule)? {
                let mut layer = match revised {
                    Some(layer) => layer,
                    None => self.try_clone(alloc)?,
                };
                let old = before.try_clone()?;
                kept.push(KeptPage::new(number, old))?;
                layer.put(alloc, across as usize, number, page)?;
                revised = Some(layer);
            }
        }
        Ok(revised)
    }

    /// Puts a page in a place. It shares the samples of the page before along x or along y, where that has the same.
    fn put(
        &mut self,
        alloc: Global,
        across: usize,
        number: usize,
        page: Page,
    ) -> Result<(), AllocError>
        requires { number < length self.old }
        ensures { OnOk result (self.new ≡ slice_set self.old number page) }
    {
        let page = self.shared(across, number, page)?;
        self.put_page(alloc, number, page)
    }

    /// Puts a page in a place, with the sample at its low corner. Out of memory is the only error.
    fn put_page(&mut self, alloc: Global, number: usize, page: Page) -> Result<(), AllocError>
        requires { number < length self.old }
        ensures { OnOk result (self.new ≡ slice_set self.old number page) }
    {
        let corner = page.first();
        self.pages.put(alloc, number, page)?;
        self.corners[number] = corner;
        Ok(())
    }

    /// Returns this page, or a copy of the one before its place along x or along y, where that has the same samples.
    fn shared(&self, across: usize, number: usize, page: Page) -> Result<Page, AllocError>
        requires { number < length self.now }
        ensures { IfOk result (λ shared. shared ≡ page) }
    {
        for before in [1, across] {
            let other = self.pages.page(number.saturating_sub(before));
            if page.is_same(other) {
                return other.try_clone();
            }
        }
        Ok(page)
    }

    /// Returns the layer with old pages put back into their places.
    pub(crate) fn restore(&self, alloc: Global, pages: &[KeptPage]) -> Result<Layer, AllocError>
        requires { All (λ page. page.number < length self.now) pages.now }
        ensures { IfOk result (λ layer. layer ≡ layer_restored pages.now self.now) }
    {
        let mut layer = self.try_clone(alloc)?;
        for page in pages {
            layer.put_back(alloc, page)?;
        }
        Ok(layer)
    }

    /// Puts an old page back into its place. Out of memory is the only error.
    fn put_back(&mut self, alloc: Global, page: &KeptPage) -> Result<(), AllocError>
        requires { page.now.number < length self.old }
        ensures { OnOk result
            (self.new ≡ slice_set self.old page.now.number page.now.samples) }
    {
        let old = page.page().try_clone()?;
        self.put_page(alloc, page.number(), old)
    }

    /// Returns a copy, which shares all pages.
    fn try_clone(&self, alloc: Global) -> Result<Layer, AllocError>
        ensures { IfOk result (λ copy. copy ≡ self.now) }
    {
        let pages = self.pages.try_clone(alloc)?;
        let corners = self.corners.as_slice().to_vec(alloc)?;
        Ok(Layer { pages, corners })
    }

    /// Returns how many pages have samples that no other page shares, and no other layer.
    pub(crate) fn own_pages(&self) -> usize
        ensures { result ≤ length self.now }
    {
        let mut count = 0;
        for number in 0..self.pages.len() {
            if self.pages.is_own(number) {
                count += 1;
            }
        }
        count
    }
}

/// Returns the number of the page in which a point lies.
fn page_number(across: u32, p: Point) -> usize
    requires across { across ≤ MAX_ACROSS }
    requires y { p.y < SIDE * across }
    requires x { p.x < SIDE * across }
    ensures value { result ≡ page_number across p }
    ensures within { result < across * across }
{
    (p.y / SIDE * across + p.x / SIDE) as usize
}

/// Returns the low corner of the page of this number, in the layer that begins at the height `z`.
fn page_corner(across: u32, z: u32, number: usize) -> Point
    requires across { across ≤ MAX_ACROSS }
    requires number { number < across * across }
    ensures { result
        ≡ record { z = z; y = number / across * SIDE; x = number % across * SIDE } }
{
    let number = number as u32;
    Point {
        z,
        y: number / across * SIDE,
        x: number % across * SIDE,
    }
}

/// Returns whether the page with this low corner has points of a region.
fn meets(region: Region, corner: Point) -> bool
    requires { (corner.z < SIDE * MAX_ACROSS)
        × (corner.y < SIDE * MAX_ACROSS) × (corner.x < SIDE * MAX_ACROSS) }
    ensures { IsTrue result ↔ MeetsPage corner region }
{
    let Region { lo, hi } = region;
    corner.z <= hi.z
        && lo.z < corner.z + SIDE
        && corner.y <= hi.y
        && lo.y < corner.y + SIDE
        && corner.x <= hi.x
        && lo.x < corner.x + SIDE
}
