//! Filling and carving: the rule by which a shape makes samples.

ghost use Rattle.std.specs.Prelude.{◌≡◌, ◌<◌, ℕ, ℤ, IfOk, length, neg_ℤ, slice_index_or};
ghost use Rattle.std.specs.Int.{int_max, int_min};
ghost use Rattle.lattice.specs.declared.point.Point.{Point as PointOf};
ghost use Rattle.lattice.specs.declared.settings.TheConstants.{MAX_DEPTH};
ghost use Rattle.lattice.specs.Point.{IsInWorld};
ghost use Rattle.terrain.specs.Brushes.{shaped};
ghost use Rattle.terrain.specs.Samples.{IsSample, clamped_sample};

use crate::shape::Shape;
use field_pages::{Rule, SIDE};
use lattice::{MAX_DEPTH, Point, Region};
use terrain::{MAX_SAMPLE, Mode};

/// The rule by which a shape fills or carves.
#[derive(Drop)]
pub(crate) struct FillCarve<'a, S> {
    pub(crate) mode: Mode,
    pub(crate) shape: &'a S,
}

impl<S: Shape> Rule for FillCarve<'_, S> {
    ghost takes = { λ rule p. S.fits rule.shape.now × IsInWorld MAX_DEPTH p };

    ghost gives = { λ rule p old new. new ≡ shaped rule.mode (S.value_at rule.shape.now p) old };

    fn apply(&self, from: Point, row: &mut [i8]) {
        if row.is_empty() {
            return;
        }
        let last = from.x + (row.len() as u32 - 1);
        let region = Region {
            lo: from,
            hi: Point { x: last, ..from },
        };
        if self.keeps(region) {
            return;
        }
        if self.shape.is_inside(region) {
            return make_all(row, end_of(self.mode));
        }
        let mut buffer = [0; SIDE as usize];
        let values = &mut buffer[..row.len()];
        self.shape.values(from, values);
        match self.mode {
            Mode::Fill => fill_row(row, values),
            Mode::Carve => carve_row(row, values),
        }
    }

    fn keeps(&self, region: Region) -> bool {
        self.shape.is_outside(region)
    }

    fn outcome(&self, region: Region, sample: i8) -> Option<i8> {
        let end = end_of(self.mode);
        if sample == end || self.shape.is_inside(region) {
            Some(end)
        } else {
            None
        }
    }
}

/// Returns the sample that a mode makes of each one deep inside a shape, where the clamped value is the least. The mode
/// leaves that sample as it is everywhere.
fn end_of(mode: Mode) -> i8
    ensures range { IsSample result }
    ensures inside { (g s : ℤ) → clamped_sample g ≡ neg_ℤ MAX_SAMPLE → IsSample s →
        result ≡ shaped mode g s }
    ensures stays { (g : ℤ) → result ≡ shaped mode g result }
{
    match mode {
        Mode::Fill => -MAX_SAMPLE,
        Mode::Carve => MAX_SAMPLE,
    }
}

/// Makes all samples of a row this one. A whole row of a page is told apart, so that it takes one store.
fn make_all(row: &mut [i8], sample: i8)
    ensures { (t : ℕ) → t < length row.old → slice_index_or row.new t MAX_SAMPLE ≡ sample }
{
    let whole = SIDE as usize;
    if row.len() == whole {
        row[..whole].fill(sample);
    } else {
        row.fill(sample);
    }
}

/// Takes the lesser of each sample and its value. A whole row of a page is told apart, so that its length is known
/// where `fill` is put in place of its call.
fn fill_row(row: &mut [i8], values: &[i8])
    requires { length values.now ≡ length row.old }
    ensures { (t : ℕ) → t < length row.old →
        slice_index_or row.new t MAX_SAMPLE
        ≡ int_min (slice_index_or row.old t MAX_SAMPLE) (slice_index_or values.now t MAX_SAMPLE) }
{
    let whole = SIDE as usize;
    if row.len() == whole {
        fill(&mut row[..whole], &values[..whole]);
    } else {
        fill(row, values);
    }
}

/// Takes the lesser of each sample and its value.
fn fill(row: &mut [i8], values: &[i8])
    requires { length values.now ≡ length row.old }
    ensures { (t : ℕ) → t < length row.old →
        slice_index_or row.new t MAX_SAMPLE
        ≡ int_min (slice_index_or row.old t MAX_SAMPLE) (slice_index_or values.now t MAX_SAMPLE) }
{
    for (t, sample) in row.iter_mut().enumerate() {
        *sample = (*sample).min(values[t]);
    }
}

/// Takes the greater of each sample and its value with the sign turned, as `fill_row` takes the lesser.
fn carve_row(row: &mut [i8], values: &[i8])
    requires len { length values.now ≡ length row.old }
    requires range { (t : ℕ) → t < length values.now →
        IsSample (slice_index_or values.now t MAX_SAMPLE) }
    ensures { (t : ℕ) → t < length row.old →
        slice_index_or row.new t MAX_SAMPLE
        ≡ int_max (slice_index_or row.old t MAX_SAMPLE)
        (neg_ℤ (slice_index_or values.now t MAX_SAMPLE)) }
{
    let whole = SIDE as usize;
    if row.len() == whole {
        carve(&mut row[..whole], &values[..whole]);
    } else {
        carve(row, values);
    }
}

/// Takes the greater of each sample and its value with the sign turned.
fn carve(row: &mut [i8], values: &[i8])
    requires len { length values.now ≡ length row.old }
    requires range { (t : ℕ) → t < length values.now →
        IsSample (slice_index_or values.now t MAX_SAMPLE) }
    ensures { (t : ℕ) → t < length row.old →
        slice_index_or row.new t MAX_SAMPLE
        ≡ int_max (slice_index_or row.old t MAX_SAMPLE)
        (neg_ℤ (slice_index_or values.now t MAX_SAMPLE)) }
{
    for (t, sample) in row.iter_mut().enumerate() {
        *sample = (*sample).max(-values[t]);
    }
}
