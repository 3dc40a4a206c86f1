//! The samples of a page, lent row by row.

ghost use Rattle.std.specs.Prelude.{◌≡◌, ◌+◌, ◌<◌, ◌%◌, ◌↔◌, ℕ, IsTrue, length, slice_index_or};
ghost use Rattle.field_pages.specs.Even.{IsExtent, even_list};
ghost use Rattle.field_pages.specs.Lent.{IsRowStep, extent_lent, list_lent, samples_lent, step_lent, stepped};
ghost use Rattle.field_pages.specs.declared.page.TheConstants.{COUNT};

use crate::even::EvenPage;
use crate::even_rows::EvenRows;
use crate::page::{COUNT, SIDE};
use terrain::MAX_SAMPLE;

/// Where the rows of a page are.
#[derive(Clone, Copy, Debug)]
pub(crate) enum Lent<'a> {
    /// In the table of rows, for a page that keeps one sample alone and has rows that differ.
    Even(EvenPage, &'a EvenRows),
    /// Among these samples: a row begins at its place in the page times this step. The step is 1 for a page's own
    /// samples, and 0 where these are one row, which all rows of the page are.
    Stepped(&'a [i8], usize),
}

/// The samples of a page, of which rows are lent without copying.
///
/// Contracts see all samples, by z, then y, then x, as `lent_samples`.
#[derive(Clone, Copy, Debug)]
pub struct PageRows<'a> {
    lent: Lent<'a>,
    ghost extent: { IsExtent (extent_lent lent) },
    ghost steps: { IsRowStep (list_lent lent) (step_lent lent) },
    ghost long: { length (samples_lent lent) ≡ COUNT },
}

impl<'a> PageRows<'a> {
    ghost use Rattle.field_pages.specs.PageRows.{HasOneRow, IsStepped, lent_samples};

    /// Lends the rows of a page that keeps one sample alone.
    pub(crate) fn even(page: EvenPage, rows: &'a EvenRows) -> PageRows<'a>
        requires { IsExtent page.extent }
        ensures { lent_samples result ≡ even_list page }
    {
        if page.has_equal_rows() {
            return PageRows {
                lent: Lent::Stepped(page.row(rows, 0), 0),
            };
        }
        PageRows {
            lent: Lent::Even(page, rows),
        }
    }

    /// Lends the rows of a page that has these samples.
    pub(crate) fn full(samples: &'a [i8]) -> PageRows<'a>
        requires { length samples.now ≡ COUNT }
        ensures { lent_samples result ≡ samples.now }
    {
        PageRows {
            lent: Lent::Stepped(samples, 1),
        }
    }

    /// Returns whether `stepped_row` lends the rows, without a choice at each of them. Only pages past which the world
    /// ends have others.
    pub fn is_stepped(&self) -> bool
        ensures { IsTrue result ↔ IsStepped self.now }
    {
        matches!(self.lent, Lent::Stepped(_, _))
    }

    /// Returns whether one row is lent for all rows of the page, which is then what each of them is. A page that keeps
    /// one sample alone is lent so where the world doesn't end in it along y or z.
    pub fn has_one_row(&self) -> bool
        ensures value { IsTrue result ↔ HasOneRow self.now }
        ensures rows { IsTrue result → (k : ℕ) → k < COUNT
            → slice_index_or (lent_samples self.now) k MAX_SAMPLE
            ≡ slice_index_or (lent_samples self.now) (k % SIDE) MAX_SAMPLE }
    {
        match self.lent {
            Lent::Even(_, _) => false,
            Lent::Stepped(_, step) => step == 0,
        }
    }

    /// Returns what `row` does.
    #[inline(always)]
    pub fn stepped_row(&self, start: usize) -> &'a [i8]
        requires stepped { IsStepped self.now }
        requires start { start % SIDE ≡ 0 }
        requires within { start < COUNT }
        ensures len { length result.now ≡ SIDE }
        ensures samples { (t : ℕ) → t < SIDE → slice_index_or result.now t MAX_SAMPLE
            ≡ slice_index_or (lent_samples self.now) (start + t) MAX_SAMPLE }
    {
        match self.lent {
            Lent::Even(_, _) => unreachable!(),
            Lent::Stepped(samples, step) => stepped_row(samples, step, start),
        }
    }

    /// Returns the samples of the row that begins at this index: `SIDE` of them, along x.
    #[inline(always)]
    pub fn row(&self, start: usize) -> &'a [i8]
        requires start { start % SIDE ≡ 0 }
        requires within { start < COUNT }
        ensures len { length result.now ≡ SIDE }
        ensures samples { (t : ℕ) → t < SIDE → slice_index_or result.now t MAX_SAMPLE
            ≡ slice_index_or (lent_samples self.now) (start + t) MAX_SAMPLE }
    {
        match self.lent {
            Lent::Even(page, rows) => page.row(rows, start),
            Lent::Stepped(samples, step) => stepped_row(samples, step, start),
        }
    }

    /// Returns the sample at this index.
    pub fn sample(&self, index: usize) -> i8
        requires { index < COUNT }
        ensures { result ≡ slice_index_or (lent_samples self.now) index MAX_SAMPLE }
    {
        match self.lent {
            Lent::Even(page, _) => page.at(index),
            Lent::Stepped(samples, step) => {
                let place = index % SIDE as usize;
                stepped_row(samples, step, index - place)[place]
            }
        }
    }
}

/// Returns the samples of a row of a page each of whose rows begins at so many times its place among these samples.
#[inline(always)]
fn stepped_row(samples: &[i8], step: usize, start: usize) -> &[i8]
    requires steps { IsRowStep samples.now step }
    requires start { start % SIDE ≡ 0 }
    requires within { start < COUNT }
    ensures len { length result.now ≡ SIDE }
    ensures samples { (t : ℕ) → t < SIDE → slice_index_or result.now t MAX_SAMPLE
        ≡ slice_index_or (stepped samples.now step) (start + t) MAX_SAMPLE }
{
    let from = step * start;
    &samples[from..from + SIDE as usize]
}
