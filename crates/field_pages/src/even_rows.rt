//! The rows of pages that have one sample at each of their points of the world.

ghost use Rattle.std.specs.Prelude.{◌≡◌, ◌+◌, ◌*◌, ◌<◌, ◌≤◌, ℕ, length, if◌then◌else◌, nat_lt, slice_index_or};
ghost use Rattle.field_pages.specs.EvenRows.{table_at};

use crate::page::SIDE;
use std::alloc::{AllocError, Global};
use std::marker::Model;
use terrain::MAX_SAMPLE;

/// How many samples the table has for each value: a row of the value, and behind it one of `MAX_SAMPLE`.
const SPAN: usize = 2 * SIDE as usize;

/// How many values a sample could have.
const VALUES: usize = 256;

/// A row for each value that a sample could have, which may go over into `MAX_SAMPLE` at each place.
///
/// A version lends its rows where a page keeps one sample alone: such a page has no samples to lend.
#[derive(Debug, Drop)]
pub(crate) struct EvenRows {
    samples: Vec<i8>,
}

impl Model for EvenRows {
    ghost use Rattle.std.specs.Prelude.{ℤ, List};
    ghost use Rattle.field_pages.specs.EvenRows.{AreEvenRows};

    ghost Value = { List ℤ };

    ghost view = { λ rows. rows.samples.items };

    ghost invariant = { λ rows. AreEvenRows rows.samples.items };
}

impl EvenRows {
    /// Returns the rows of all values. Out of memory is the only error.
    pub(crate) fn new(alloc: Global) -> Result<EvenRows, AllocError> {
        let mut samples = Vec::with_capacity(alloc, VALUES * SPAN)?;
        for place in 0..VALUES * SPAN {
            samples.push(sample_at(place))?;
        }
        Ok(EvenRows { samples })
    }

    /// Returns a row with so many times this sample, and `MAX_SAMPLE` behind them.
    pub(crate) fn row(&self, sample: i8, count: usize) -> &[i8]
        requires { count ≤ SIDE }
        ensures len { length result.now ≡ SIDE }
        ensures samples { (t : ℕ) → t < SIDE →
            slice_index_or result.now t MAX_SAMPLE ≡ if nat_lt t count then sample else MAX_SAMPLE }
    {
        let value = (i32::from(sample) + 128) as usize;
        let start = value * SPAN + (SIDE as usize - count);
        &self.samples[start..start + SIDE as usize]
    }
}

/// Returns the sample at a place of the table.
fn sample_at(place: usize) -> i8
    requires { place < VALUES * SPAN }
    ensures { result ≡ table_at place }
{
    if place % SPAN < SIDE as usize {
        ((place / SPAN) as i32 - 128) as i8
    } else {
        MAX_SAMPLE
    }
}
