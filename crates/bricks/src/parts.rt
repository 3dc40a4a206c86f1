//! The samples of a leaf, one row of pages after another.
//!
//! A leaf's points are 2^level fine cells apart, so up to level 4 a page has 16, 8, 4, 2 or 1 of them along an axis,
//! and the leaf meets one page more than it has whole ones, for its far face. A leaf of level 4 has one point in each
//! page, and one of a higher level skips pages: both are filled by their points. Else, layer by layer and row by row of
//! pages, all pages of a row are looked up first, so that no page waits for the samples of the one before it. Then each
//! line of the leaf's points along x is copied from the rows of the pages that it crosses, a run from each. A page that
//! keeps one sample alone lends its rows too, from a table. Where each page of a row has one row, as such pages have,
//! all lines that cross them are the first one, which is put together once (`first_line`).
//!
//! The strides are told apart (`fill_parts`), and what is called from there is put in place of its call: so each copy
//! knows its sizes, and a run of 16, 8 or 4 samples is one load, one choice of lanes and one store. The lines of a face
//! that begin rows of pages are copied so too (`copy_rows` of `faces.rt`).

ghost use Rattle.std.specs.Prelude.{◌≡◌, IsTrue, ℕ, ◌+◌, ◌*◌, ◌/◌, ◌%◌, ◌^◌, ◌<◌, ◌≤◌, All, length, pos, slice_index_or};
ghost use Rattle.lattice.specs.declared.node.Node.{Node as NodeOf};
ghost use Rattle.lattice.specs.declared.node.TheConstants.{CELLS};
ghost use Rattle.lattice.specs.Node.{IsNode};
ghost use Rattle.lattice.specs.Settings.{IsDepth};
ghost use Rattle.terrain.specs.declared.brush.TheConstants.{MAX_SAMPLE};
ghost use Rattle.terrain.specs.Blocks.{leaf_samples};
ghost use Rattle.terrain.specs.Samples.{Field, IsSample};
ghost use Rattle.field_pages.specs.Pages.{sample_at};
ghost use Rattle.bricks.specs.declared.brick.TheConstants.{LEAF_SAMPLES};
ghost use Rattle.field_pages.specs.PageRows.{IsStepped, lent_samples};
ghost use Rattle.bricks.specs.Parts.{ArePages, AreLines, AreStepped, FillsLines, HaveLine, HaveParts, HavePlane};
ghost use Rattle.bricks.specs.Parts.{IsLineOf, IsPageBorder, KeepsOthers, page_samples, page_steps};
ghost use Rattle.bricks.specs.declared.points.TheConstants.{LINE};

use crate::brick::{LEAF_SAMPLES, POINTS};
use crate::points::{LINE, fill_points, put_line};
use field_pages::{COUNT, PageRows, SIDE, Version};
use lattice::{CELLS, Node, Point, nodes_of_worlds, point_after};
use std::simd::prelude::*;

/// The greatest level of a leaf that has a point in each page of its cube: its points are a page's side apart.
pub(crate) const MAX_PAGE_LEVEL: u8 = 4;

/// No leaf of a lesser level meets more pages along an axis: each page but the last has two of its points at least.
const MAX_ROW: usize = SIDE as usize / 2 + 1;

/// The pages of a row that a leaf meets, from the lowest x on. Behind them is that of the leaf's low corner.
type Row<'a> = [PageRows<'a>; MAX_ROW];

/// How the lines of a leaf's points are read from the pages of a row.
#[derive(Clone, Copy)]
enum Lines<'a> {
    /// The row of each page is looked up as the page has it.
    Chosen,
    /// All rows are lent by steps, without a choice at each.
    Stepped,
    /// Each page has one row, and so all lines are this one.
    Same(&'a [i8; LINE]),
}

/// Fills a list with the samples of a leaf.
pub(crate) fn fill_leaf(version: &Version, leaf: Node, samples: &mut [i8])
    requires depth { IsDepth version.now.depth }
    requires leaf { IsNode version.now.depth leaf }
    requires count { length samples.old ≡ LEAF_SAMPLES }
    ensures { samples.new ≡ leaf_samples (sample_at version.now) leaf }
{
    if leaf.level >= MAX_PAGE_LEVEL {
        fill_points(version, leaf, samples);
    } else {
        fill_pages(version, leaf, samples);
    }
}

/// Fills a list with the samples of a leaf whose points lie closer than a page's side.
fn fill_pages(version: &Version, leaf: Node, samples: &mut [i8])
    requires depth { IsDepth version.now.depth }
    requires leaf { IsNode version.now.depth leaf }
    requires level { leaf.level < MAX_PAGE_LEVEL }
    requires count { length samples.old ≡ LEAF_SAMPLES }
    ensures { samples.new ≡ leaf_samples (sample_at version.now) leaf }
{
    let side = part_side(leaf.level);
    let mut z = 0;
    while z < POINTS {
        fill_layer(version, leaf, side, z, samples);
        z += side;
    }
}

/// Fills the samples of a leaf that lie in one layer of pages, the first of them at a z.
fn fill_layer(version: &Version, leaf: Node, side: u32, z: u32, samples: &mut [i8])
    requires depth { IsDepth version.now.depth }
    requires leaf { IsNode version.now.depth leaf }
    requires side { 2 ^ leaf.level * side ≡ SIDE }
    requires two { 2 ≤ side }
    requires count { length samples.old ≡ LEAF_SAMPLES }
    requires z { IsPageBorder leaf.level z }
    ensures { FillsLines (sample_at version.now) leaf z 0 side POINTS samples.old samples.new }
{
    let mut y = 0;
    while y < POINTS {
        fill_row(version, leaf, side, z, y, samples);
        y += side;
    }
}

/// Fills the samples of a leaf that lie in one row of pages, the first of them at a z and a y. It looks up all pages of
/// the row before it reads samples, so that no page waits for the samples of the page before.
fn fill_row(version: &Version, leaf: Node, side: u32, z: u32, y: u32, samples: &mut [i8])
    requires depth { IsDepth version.now.depth }
    requires leaf { IsNode version.now.depth leaf }
    requires side { 2 ^ leaf.level * side ≡ SIDE }
    requires two { 2 ≤ side }
    requires count { length samples.old ≡ LEAF_SAMPLES }
    requires z { IsPageBorder leaf.level z }
    requires y { IsPageBorder leaf.level y }
    ensures { FillsLines (sample_at version.now) leaf z y side side samples.old samples.new }
{
    nodes_of_worlds();
    let low = leaf.low_corner();
    let stride = 1 << leaf.level;
    let own = version.page(low);
    let mut pages: Row<'_> = [own; MAX_ROW];
    let (mut by_steps, mut have_one_row) = (true, true);
    for number in 0..stride + 1 {
        let x = side * number;
        let page = version.page(point_after(low, leaf.level, Point { z, y, x }));
        pages[number as usize] = page;
        by_steps &= page.is_stepped();
        have_one_row &= page.has_one_row();
    }
    if have_one_row {
        let line = first_line(&pages, stride, side);
        return fill_parts(&pages, Lines::Same(&line), stride, side, z, y, samples);
    }
    let lines = if by_steps {
        Lines::Stepped
    } else {
        Lines::Chosen
    };
    fill_parts(&pages, lines, stride, side, z, y, samples);
}

/// Returns the line of a leaf's points along x that has the first row of each page of a row.
fn first_line(pages: &Row<'_>, stride: u32, side: u32) -> [i8; LINE]
    requires stride { stride * side ≡ SIDE }
    requires two { 2 ≤ side }
    requires pages { ArePages stride (page_samples pages.now) }
    ensures { IsLineOf stride side (page_samples pages.now) 0 result 0 }
{
    let mut line = [0; LINE];
    copy_line(pages, false, stride, side, 0, 0, &mut line);
    line
}

/// Returns how many points of a leaf of this level a page has along an axis.
fn part_side(level: u8) -> u32
    requires { level < MAX_PAGE_LEVEL }
    ensures value { 2 ^ level * result ≡ SIDE }
    ensures two { 2 ≤ result }
{
    SIDE >> level
}

/// Fills the samples of a leaf that lie in a row of pages, from a z and a y on. The levels are told apart, so that the
/// sizes are known where samples are copied, and so is how the lines are read.
fn fill_parts(
    pages: &Row<'_>,
    lines: Lines<'_>,
    stride: u32,
    side: u32,
    z: u32,
    y: u32,
    samples: &mut [i8],
)
    requires stride { stride * side ≡ SIDE }
    requires two { 2 ≤ side }
    requires pages { ArePages stride (page_samples pages.now) }
    requires lines { AreLines lines stride side pages.now }
    requires count { length samples.old ≡ LEAF_SAMPLES }
    requires z { z < POINTS }
    requires y { y < POINTS }
    ensures { (s : Field) (n : NodeOf) → 2 ^ n.level ≡ stride
        → HaveParts s n z y side (page_samples pages.now)
        → FillsLines s n z y side side samples.old samples.new }
{
    match (lines, stride, side) {
        (Lines::Same(line), stride, side) => {
            fill_planes(pages, Lines::Same(line), stride, side, z, y, samples);
        }
        (Lines::Stepped, 1, 16) => fill_planes(pages, Lines::Stepped, 1, 16, z, y, samples),
        (Lines::Stepped, 2, 8) => fill_planes(pages, Lines::Stepped, 2, 8, z, y, samples),
        (Lines::Stepped, 4, 4) => fill_planes(pages, Lines::Stepped, 4, 4, z, y, samples),
        (Lines::Stepped, 8, 2) => fill_planes(pages, Lines::Stepped, 8, 2, z, y, samples),
        (_, stride, side) => fill_planes(pages, Lines::Chosen, stride, side, z, y, samples),
    }
}

/// Fills the samples of a leaf that lie in a row of pages, plane by plane.
#[inline(always)]
fn fill_planes(
    pages: &Row<'_>,
    lines: Lines<'_>,
    stride: u32,
    side: u32,
    z: u32,
    y: u32,
    samples: &mut [i8],
)
    requires stride { stride * side ≡ SIDE }
    requires two { 2 ≤ side }
    requires pages { ArePages stride (page_samples pages.now) }
    requires lines { AreLines lines stride side pages.now }
    requires count { length samples.old ≡ LEAF_SAMPLES }
    requires z { z < POINTS }
    requires y { y < POINTS }
    ensures { (s : Field) (n : NodeOf) → 2 ^ n.level ≡ stride
        → HaveParts s n z y side (page_samples pages.now)
        → FillsLines s n z y side side samples.old samples.new }
{
    for plane in 0..side.min(POINTS - z) {
        let from = (SIDE * SIDE * stride * plane) as usize;
        fill_plane(pages, lines, stride, side, z + plane, y, from, samples);
    }
}

/// Fills the samples of a leaf that lie in one plane of a row of pages, from a place of each page on.
#[inline(always)]
fn fill_plane(
    pages: &Row<'_>,
    lines: Lines<'_>,
    stride: u32,
    side: u32,
    z: u32,
    y: u32,
    from: usize,
    samples: &mut [i8],
)
    requires stride { stride * side ≡ SIDE }
    requires two { 2 ≤ side }
    requires pages { ArePages stride (page_samples pages.now) }
    requires lines { AreLines lines stride side pages.now }
    requires count { length samples.old ≡ LEAF_SAMPLES }
    requires z { z < POINTS }
    requires y { y < POINTS }
    requires from { from + SIDE * SIDE ≤ COUNT }
    requires rows { from % SIDE ≡ 0 }
    ensures { (s : Field) (n : NodeOf)
        → HavePlane s n stride z y side (page_samples pages.now) from
        → FillsLines s n z y 1 side samples.old samples.new }
{
    for line in 0..side.min(POINTS - y) {
        let at = from + (SIDE * stride * line) as usize;
        fill_line(pages, lines, stride, side, z, y + line, at, samples);
    }
}

/// Fills one line of a leaf's samples along x, from a place of each page of a row on.
#[inline(always)]
fn fill_line(
    pages: &Row<'_>,
    lines: Lines<'_>,
    stride: u32,
    side: u32,
    z: u32,
    y: u32,
    from: usize,
    samples: &mut [i8],
)
    requires stride { stride * side ≡ SIDE }
    requires two { 2 ≤ side }
    requires pages { ArePages stride (page_samples pages.now) }
    requires lines { AreLines lines stride side pages.now }
    requires count { length samples.old ≡ LEAF_SAMPLES }
    requires z { z < POINTS }
    requires y { y < POINTS }
    requires from { from + SIDE ≤ COUNT }
    requires rows { from % SIDE ≡ 0 }
    ensures { (s : Field) (n : NodeOf)
        → HaveLine s n stride z y side (page_samples pages.now) from
        → FillsLines s n z y 1 1 samples.old samples.new }
{
    match lines {
        Lines::Chosen => read_line(pages, false, stride, side, z, y, from, samples),
        Lines::Stepped => read_line(pages, true, stride, side, z, y, from, samples),
        Lines::Same(line) => put_line(line, z, y, samples),
    }
}

/// Fills one line of a leaf's samples along x by the rows from a place of each page of a row on, which are lent by
/// steps where all rows of the pages are.
#[inline(always)]
fn read_line(
    pages: &Row<'_>,
    by_steps: bool,
    stride: u32,
    side: u32,
    z: u32,
    y: u32,
    from: usize,
    samples: &mut [i8],
)
    requires stride { stride * side ≡ SIDE }
    requires two { 2 ≤ side }
    requires pages { ArePages stride (page_samples pages.now) }
    requires steps { IsTrue by_steps → AreStepped stride (page_steps pages.now) }
    requires count { length samples.old ≡ LEAF_SAMPLES }
    requires z { z < POINTS }
    requires y { y < POINTS }
    requires from { from + SIDE ≤ COUNT }
    requires rows { from % SIDE ≡ 0 }
    ensures { (s : Field) (n : NodeOf)
        → HaveLine s n stride z y side (page_samples pages.now) from
        → FillsLines s n z y 1 1 samples.old samples.new }
{
    let to = ((z * POINTS + y) * POINTS) as usize;
    copy_line(pages, by_steps, stride, side, from, to, samples);
}

/// Copies one line of a leaf's points along x to a place of a list and on: a run of each page of a row, out of its row
/// from a place on, and the first sample there of the last page.
#[inline(always)]
fn copy_line(
    pages: &Row<'_>,
    by_steps: bool,
    stride: u32,
    side: u32,
    from: usize,
    to: usize,
    samples: &mut [i8],
)
    requires stride { stride * side ≡ SIDE }
    requires two { 2 ≤ side }
    requires pages { ArePages stride (page_samples pages.now) }
    requires steps { IsTrue by_steps → AreStepped stride (page_steps pages.now) }
    requires from { from + SIDE ≤ COUNT }
    requires rows { from % SIDE ≡ 0 }
    requires to { to + LINE ≤ length samples.old }
    ensures line { IsLineOf stride side (page_samples pages.now) from samples.new to }
    ensures others { KeepsOthers to LINE samples.old samples.new }
{
    let pages = &pages[..];
    for number in 0..stride {
        let row = row_of(&pages[number as usize], by_steps, from);
        let at = to + (side * number) as usize;
        copy_run(row, stride as usize, side as usize, at, samples);
    }
    let last = row_of(&pages[stride as usize], by_steps, from);
    copy_run(last, 1, 1, to + CELLS as usize, samples);
}

/// Returns the samples of a page's row, which is lent by steps where all rows of its pages are.
#[inline(always)]
fn row_of<'a>(page: &PageRows<'a>, by_steps: bool, from: usize) -> &'a [i8]
    requires steps { IsTrue by_steps → IsStepped page.now }
    requires from { from % SIDE ≡ 0 }
    requires within { from < COUNT }
    ensures len { length result.now ≡ SIDE }
    ensures samples { (t : ℕ) → t < SIDE → slice_index_or result.now t MAX_SAMPLE
        ≡ slice_index_or (lent_samples page.now) (from + t) MAX_SAMPLE }
{
    if by_steps {
        page.stepped_row(from)
    } else {
        page.row(from)
    }
}

/// Copies so many samples of a page's row, `stride` apart from the first on, to a place and on.
#[inline(always)]
pub(crate) fn copy_run(row: &[i8], stride: usize, count: usize, to: usize, samples: &mut [i8])
    requires row { length row.now ≡ SIDE }
    requires range { All IsSample row.now }
    requires fits { stride * count ≤ SIDE }
    requires to { to + count ≤ length samples.old }
    requires some { 1 ≤ stride }
    ensures run { (k : ℕ) → k < count → slice_index_or samples.new (to + k) (pos 0)
        ≡ slice_index_or row.now (stride * k) (pos 0) }
    ensures others { KeepsOthers to count samples.old samples.new }
{
    match (stride, count) {
        (_, 1) => samples[to] = row[0],
        (1, 16) => copy_row(row, to, samples),
        (2, 8) => copy_half_row(row, to, samples),
        (4, 4) => copy_quarter_row(row, to, samples),
        (stride, count) => copy_steps(row, stride, &mut samples[to..to + count]),
    }
}

/// Fills a list with the samples of a run that are `step` apart, from its first one on.
#[inline(always)]
pub(crate) fn copy_steps(run: &[i8], step: usize, samples: &mut [i8])
    requires { (k : ℕ) → k < length samples.old → step * k < length run.now }
    ensures len { length samples.new ≡ length samples.old }
    ensures each { (k : ℕ) → k < length samples.old → slice_index_or samples.new k (pos 0)
        ≡ slice_index_or run.now (step * k) (pos 0) }
{
    for place in 0..samples.len() {
        samples[place] = run[step * place];
    }
}

/// Copies the samples of a page's row.
#[inline(always)]
fn copy_row(row: &[i8], to: usize, samples: &mut [i8])
    requires row { length row.now ≡ SIDE }
    requires range { All IsSample row.now }
    requires to { to + SIDE ≤ length samples.old }
    ensures run { (k : ℕ) → k < SIDE → slice_index_or samples.new (to + k) (pos 0)
        ≡ slice_index_or row.now k (pos 0) }
    ensures others { KeepsOthers to SIDE samples.old samples.new }
{
    i8x16::from_slice(row).copy_to_slice(&mut samples[to..]);
}

/// Copies each second sample of a page's row, from the first on.
#[inline(always)]
fn copy_half_row(row: &[i8], to: usize, samples: &mut [i8])
    requires row { length row.now ≡ SIDE }
    requires range { All IsSample row.now }
    requires to { to + SIDE / 2 ≤ length samples.old }
    ensures run { (k : ℕ) → k < SIDE / 2 → slice_index_or samples.new (to + k) (pos 0)
        ≡ slice_index_or row.now (2 * k) (pos 0) }
    ensures others { KeepsOthers to (SIDE / 2) samples.old samples.new }
{
    let half = i8x16::from_slice(row).swizzle([0, 2, 4, 6, 8, 10, 12, 14]);
    half.copy_to_slice(&mut samples[to..]);
}

/// Copies each fourth sample of a page's row, from the first on.
#[inline(always)]
fn copy_quarter_row(row: &[i8], to: usize, samples: &mut [i8])
    requires row { length row.now ≡ SIDE }
    requires range { All IsSample row.now }
    requires to { to + SIDE / 4 ≤ length samples.old }
    ensures run { (k : ℕ) → k < SIDE / 4 → slice_index_or samples.new (to + k) (pos 0)
        ≡ slice_index_or row.now (4 * k) (pos 0) }
    ensures others { KeepsOthers to (SIDE / 4) samples.old samples.new }
{
    let quarter = i8x16::from_slice(row).swizzle([0, 4, 8, 12]);
    quarter.copy_to_slice(&mut samples[to..]);
}
