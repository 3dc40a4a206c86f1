//! Rows of samples: so many points, so far apart along an axis.

ghost use Rattle.std.specs.Prelude.{◌≡◌, ℕ, ◌+◌, ◌-◌, ◌*◌, ◌%◌, ◌<◌, ◌≤◌, ◌↔◌, All, IsTrue, length, slice_index_or, pos};
ghost use Rattle.terrain.specs.Samples.{IsSample};
ghost use Rattle.field_pages.specs.PageRows.{IsStepped, lent_samples};
ghost use Rattle.field_pages.specs.Pages.{sample_at};
ghost use Rattle.bricks.specs.Line.{step_along};

use crate::parts::copy_steps;
use field_pages::{COUNT, PageRows, SIDE, Version, index_in_page};
use lattice::{Axis, Point};

/// Points in a row: `count` of them from `from` on, `stride` fine cells apart along an axis.
#[derive(Clone, Copy, Debug)]
pub struct Line {
    pub from: Point,
    pub axis: Axis,
    pub stride: u32,
    pub count: u32,
}

impl Line {
    ghost use Rattle.bricks.specs.Line.{IsLine, line_samples};

    /// Returns whether these are the samples at the points of the line.
    pub fn has_samples(&self, version: &Version, samples: &[i8]) -> bool
        requires line { IsLine version.now.depth self.now }
        requires count { length samples.now ≡ self.now.count }
        ensures { IsTrue result ↔ (samples.now ≡ line_samples (sample_at version.now) self.now) }
    {
        if self.axis == Axis::X {
            return self.has_runs(version, samples);
        }
        for place in 0..self.count {
            let point = self.from.moved(self.axis, self.stride * place);
            if version.sample(point) != samples[place as usize] {
                return false;
            }
        }
        true
    }

    /// Returns whether these are the samples at the points of a line along x.
    fn has_runs(&self, version: &Version, samples: &[i8]) -> bool
        requires axis { self.now.axis ≡ Axis.X }
        requires line { IsLine version.now.depth self.now }
        requires count { length samples.now ≡ self.now.count }
        ensures { IsTrue result ↔ (samples.now ≡ line_samples (sample_at version.now) self.now) }
    {
        let mut place = 0;
        while place < self.count {
            let x = self.from.x + self.stride * place;
            let row = version.row(x / SIDE, self.from.y, self.from.z);
            let run = run_length(x % SIDE, self.stride).min(self.count - place);
            let ours = &samples[place as usize..(place + run) as usize];
            if !is_run(ours, row, x % SIDE, self.stride) {
                return false;
            }
            place += run;
        }
        true
    }
}

/// Returns how many points of a page's row there are from a place on, `stride` apart.
pub(crate) fn run_length(from: u32, stride: u32) -> u32
    requires from { from < SIDE }
    requires stride { 1 ≤ stride }
    ensures some { 1 ≤ result }
    ensures within { from + stride * (result - 1) < SIDE }
    ensures all { SIDE ≤ from + stride * result }
    ensures few { result ≤ SIDE }
{
    (SIDE - 1 - from) / stride + 1
}

/// Returns how much further the place in a page is of the next point on an axis.
pub(crate) fn step_along(axis: Axis) -> usize
    ensures value { result ≡ step_along axis }
    ensures small { result ≤ SIDE * SIDE }
{
    match axis {
        Axis::X => 1,
        Axis::Y => SIDE as usize,
        Axis::Z => (SIDE * SIDE) as usize,
    }
}

/// Fills a list with samples of a page from a place on, `step` apart. Those less than a row apart are in one row.
#[inline(always)]
pub(crate) fn fill_run(page: &PageRows<'_>, from: usize, step: usize, taken: &mut [i8])
    requires some { 1 ≤ step }
    requires from { from < COUNT }
    requires within { (k : ℕ) → k < length taken.old → from + step * k < COUNT }
    requires row { step < SIDE → (k : ℕ) → k < length taken.old → from % SIDE + step * k < SIDE }
    requires range { All IsSample (lent_samples page.now) }
    ensures len { length taken.new ≡ length taken.old }
    ensures each { (k : ℕ) → k < length taken.old → slice_index_or taken.new k (pos 0)
        ≡ slice_index_or (lent_samples page.now) (from + step * k) (pos 0) }
{
    let first = from % SIDE as usize;
    if step >= SIDE as usize {
        if page.is_stepped() && step % SIDE as usize == 0 {
            return take_from_rows(page, from - first, first, step, taken);
        }
        return take_each(page, from, step, taken);
    }
    fill_from_row(page.row(from - first), first, step, taken);
}

/// Fills a list with samples of a page's row from a place on, `step` apart.
#[inline(always)]
fn fill_from_row(row: &[i8], first: usize, step: usize, taken: &mut [i8])
    requires some { 1 ≤ step }
    requires first { first < SIDE }
    requires row { length row.now ≡ SIDE }
    requires within { (k : ℕ) → k < length taken.old → first + step * k < SIDE }
    requires range { All IsSample row.now }
    ensures len { length taken.new ≡ length taken.old }
    ensures each { (k : ℕ) → k < length taken.old → slice_index_or taken.new k (pos 0)
        ≡ slice_index_or row.now (first + step * k) (pos 0) }
{
    copy_steps(&row[first..], step, taken);
}

/// Fills a list with a sample of a page's row that begins at a place and of each next one, whole rows apart: that at a
/// place in the row.
#[inline(always)]
fn take_from_rows(page: &PageRows<'_>, from: usize, first: usize, step: usize, taken: &mut [i8])
    requires stepped { IsStepped page.now }
    requires from { from % SIDE ≡ 0 }
    requires first { first < SIDE }
    requires rows { step % SIDE ≡ 0 }
    requires within { (k : ℕ) → k < length taken.old → from + step * k < COUNT }
    ensures len { length taken.new ≡ length taken.old }
    ensures each { (k : ℕ) → k < length taken.old → slice_index_or taken.new k (pos 0)
        ≡ slice_index_or (lent_samples page.now) (from + step * k + first) (pos 0) }
{
    for place in 0..taken.len() {
        taken[place] = page.stepped_row(from + step * place)[first];
    }
}

/// Fills a list with samples of a page from a place on, `step` apart, and looks up the row of each.
fn take_each(page: &PageRows<'_>, from: usize, step: usize, taken: &mut [i8])
    requires { (k : ℕ) → k < length taken.old → from + step * k < COUNT }
    ensures len { length taken.new ≡ length taken.old }
    ensures each { (k : ℕ) → k < length taken.old → slice_index_or taken.new k (pos 0)
        ≡ slice_index_or (lent_samples page.now) (from + step * k) (pos 0) }
{
    for place in 0..taken.len() {
        taken[place] = page.sample(from + step * place);
    }
}

/// Returns whether these are the samples of a page's row from a place on, `stride` apart.
fn is_run(ours: &[i8], row: &[i8], from: u32, stride: u32) -> bool
    requires row { length row.now ≡ SIDE }
    requires some { 1 ≤ length ours.now }
    requires within { from + stride * (length ours.now - 1) < SIDE }
    ensures { IsTrue result ↔ ((place : ℕ) → place < length ours.now
        → slice_index_or ours.now place (pos 0)
        ≡ slice_index_or row.now (from + stride * place) (pos 0)) }
{
    for (place, sample) in ours.iter().enumerate() {
        if *sample != row[from as usize + stride as usize * place] {
            return false;
        }
    }
    true
}
