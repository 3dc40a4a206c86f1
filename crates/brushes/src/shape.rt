//! The shapes by which brushes fill and carve: what each is worth at a point.

ghost use Rattle.std.specs.Prelude.{refl, ◌≡◌, ◌+◌, ◌/◌, ◌<◌, ◌≤◌, ◌*ℤ◌, ◌-ℤ◌, ◌≤ℤ◌, ℕ, ℤ, length, neg_ℤ, pos, IsTrue, slice_index_or};
ghost use Rattle.std.specs.Int.{int_max};
ghost use Rattle.lattice.specs.declared.point.Axis.TheVariants.{X};
ghost use Rattle.lattice.specs.declared.point.Point.{Point as PointOf};
ghost use Rattle.lattice.specs.declared.settings.TheConstants.{MAX_DEPTH};
ghost use Rattle.lattice.specs.Point.{IsInWorld, moved};
ghost use Rattle.lattice.specs.Region.{IsRegion, IsWithin};
ghost use Rattle.lattice.specs.Settings.{world_side};
ghost use Rattle.terrain.specs.declared.brush.Brush.{Brush as BrushOf};
ghost use Rattle.terrain.specs.declared.brush.Brush.TheVariants.{Cuboid, Ground};
ghost use Rattle.terrain.specs.declared.brush.Mode.{Mode as ModeOf};
ghost use Rattle.terrain.specs.Brushes.{IsLawful, after_brush, cuboid_value, ground_value, shaped};
ghost use Rattle.terrain.specs.Samples.{Field, IsSample, clamped_sample};
ghost use Rattle.brushes.specs.Values.{IsInReach};

use field_pages::SIDE;
use lattice::{MAX_DEPTH, MAX_SIDE, Point, Region};
use terrain::{MAX_SAMPLE, SUBCELLS};

/// The greatest coordinate for which a row's values are made, even if no point of the world has it.
pub(crate) const FAR: u32 = MAX_SIDE + SIDE;

/// How many cells from a shape's surface on the clamped values are the same.
const MANY: i16 = 9;

/// How many cells inside a shape its value is the least sample or less.
const DEEP: u32 = 8;

/// A shape, which has a value at each point: in units of 1/16 cell, below 0 inside.
pub(crate) trait Shape {
    // The brush that fills or carves by the shape.
    ghost brush: { Self → ModeOf → BrushOf };

    // The shape's value at a point.
    ghost value_at: { Self → PointOf → ℤ };

    // The shape fits into the largest world.
    ghost fits: { Self → Type 0 };

    /// Writes the values at `from` and on along x, each clamped to the range of samples.
    fn values(&self, from: Point, values: &mut [i8])
        requires fits { fits self.now }
        requires from { IsInWorld MAX_DEPTH from }
        requires end { from.x + length values.old ≤ MAX_SIDE + 1 }
        requires row { length values.old ≤ SIDE }
        ensures { (t : ℕ) → t < length values.old →
            slice_index_or values.new t MAX_SAMPLE
            ≡ clamped_sample (value_at self.now (moved X t from)) };

    /// Returns whether it can tell at once that the clamped value at each point of a region is the least.
    fn is_inside(&self, region: Region) -> bool
        requires fits { fits self.now }
        requires low { IsInWorld MAX_DEPTH region.lo }
        requires high { IsInWorld MAX_DEPTH region.hi }
        ensures { IsTrue result → (p : PointOf) → IsWithin region p →
            clamped_sample (value_at self.now p) ≡ neg_ℤ MAX_SAMPLE };

    /// Returns whether it can tell at once that the clamped value at each point of a region is the greatest.
    fn is_outside(&self, region: Region) -> bool
        requires fits { fits self.now }
        requires low { IsInWorld MAX_DEPTH region.lo }
        requires high { IsInWorld MAX_DEPTH region.hi }
        ensures { IsTrue result → (p : PointOf) → IsWithin region p →
            clamped_sample (value_at self.now p) ≡ MAX_SAMPLE };

    // The brush shapes each sample by the value at its point.
    ghost shapes: { (s : Self) (mode : ModeOf) (depth : ℕ) (field : Field) (p : PointOf) →
        after_brush depth (brush s mode) field p ≡ shaped mode (value_at s p) (field p) };

    // A shape whose brush the largest world takes fits into it.
    ghost of_lawful: { (s : Self) (mode : ModeOf) → IsLawful MAX_DEPTH (brush s mode) → fits s };
}

/// A box of points.
#[derive(Clone, Copy)]
pub(crate) struct CuboidShape {
    pub(crate) lo: Point,
    pub(crate) hi: Point,
}

impl Shape for CuboidShape {
    ghost brush = { λ shape mode. Cuboid mode shape.lo shape.hi };

    ghost value_at = { λ shape p. cuboid_value shape.lo shape.hi p };

    ghost fits = { λ shape. IsRegion MAX_DEPTH (record { lo = shape.lo; hi = shape.hi }) };

    ghost shapes = { λ shape mode depth field p. refl };

    ghost of_lawful = { λ shape mode lawful. lawful };

    fn values(&self, from: Point, values: &mut [i8]) {
        let (lo, hi) = (self.lo, self.hi);
        let across = greater(beyond(lo.y, hi.y, from.y), beyond(lo.z, hi.z, from.z));
        copy_row(&row_values(lo.x, hi.x, from.x, across), values);
    }

    fn is_inside(&self, region: Region) -> bool {
        let (lo, hi) = (self.lo, self.hi);
        is_deep(lo.z, hi.z, region.lo.z, region.hi.z)
            && is_deep(lo.y, hi.y, region.lo.y, region.hi.y)
            && is_deep(lo.x, hi.x, region.lo.x, region.hi.x)
    }

    fn is_outside(&self, _region: Region) -> bool {
        false
    }
}

/// All that lies at or below a height.
#[derive(Clone, Copy)]
pub(crate) struct GroundShape {
    pub(crate) h: u32,
}

impl Shape for GroundShape {
    ghost brush = { λ shape mode. Ground mode shape.h };

    ghost value_at = { λ shape p. ground_value shape.h p };

    ghost fits = { λ shape. shape.h ≤ world_side MAX_DEPTH };

    ghost shapes = { λ shape mode depth field p. refl };

    ghost of_lawful = { λ shape mode lawful. lawful };

    fn values(&self, from: Point, values: &mut [i8]) {
        let here = clamped_value(above(self.h, from.z));
        for value in values.iter_mut() {
            *value = here;
        }
    }

    fn is_inside(&self, region: Region) -> bool {
        region.hi.z + DEEP <= self.h
    }

    fn is_outside(&self, _region: Region) -> bool {
        false
    }
}

/// Returns whether the coordinates from `from` to `to` are all so deep inside the range from `low` to `high` that the
/// value there is the least.
fn is_deep(low: u32, high: u32, from: u32, to: u32) -> bool
    requires low { low ≤ MAX_SIDE }
    requires to { to ≤ MAX_SIDE }
    ensures { IsTrue result → (c : ℕ) → from ≤ c → c ≤ to →
        (low + DEEP ≤ c) × (c + DEEP ≤ high) }
{
    low + DEEP <= from && to + DEEP <= high
}

/// Returns the nearest number to a value that is a sample.
pub(crate) fn clamped_sample(value: i32) -> i8
    ensures value { result ≡ clamped_sample value }
    ensures range { IsSample result }
{
    let greatest = i32::from(MAX_SAMPLE);
    value.clamp(-greatest, greatest) as i8
}

/// Returns the clamped values of a row of points from this x on, which are so many cells outside a box along y and z.
/// Along x the box is from `low` to `high`. All are made at once, whether the row has so many points or not.
fn row_values(low: u32, high: u32, x: u32, across: i16) -> [i8; SIDE as usize]
    requires low { low ≤ MAX_SIDE }
    requires high { high ≤ MAX_SIDE }
    requires x { x ≤ MAX_SIDE }
    requires across { IsInReach across }
    ensures { (t : ℕ) → t < SIDE → slice_index_or result t MAX_SAMPLE
        ≡ clamped_sample ((pos SUBCELLS *ℤ int_max
        (int_max (pos low -ℤ pos (x + t)) (pos (x + t) -ℤ pos high)) across)
        -ℤ pos (SUBCELLS / 2)) }
{
    let mut values = [0; SIDE as usize];
    for (t, value) in values.iter_mut().enumerate() {
        *value = clamped_value(greater(beyond(low, high, x + t as u32), across));
    }
    values
}

/// Copies the first values of a row. A whole row of a page is told apart, so that it takes one load and one store.
fn copy_row(row: &[i8; SIDE as usize], values: &mut [i8])
    requires { length values.old ≤ SIDE }
    ensures { (t : ℕ) → t < length values.old →
        slice_index_or values.new t MAX_SAMPLE ≡ slice_index_or row.now t MAX_SAMPLE }
{
    let whole = SIDE as usize;
    if values.len() == whole {
        copy(row, &mut values[..whole]);
    } else {
        copy(row, values);
    }
}

/// Copies the first values of a row.
fn copy(row: &[i8; SIDE as usize], values: &mut [i8])
    requires { length values.old ≤ SIDE }
    ensures { (t : ℕ) → t < length values.old →
        slice_index_or values.new t MAX_SAMPLE ≡ slice_index_or row.now t MAX_SAMPLE }
{
    for (t, value) in values.iter_mut().enumerate() {
        *value = row[t];
    }
}

/// Returns the clamped value of a point that is so many cells outside a shape.
fn clamped_value(outside: i16) -> i8
    requires { IsInReach outside }
    ensures value { result
        ≡ clamped_sample ((pos SUBCELLS *ℤ outside) -ℤ pos (SUBCELLS / 2)) }
    ensures range { IsSample result }
{
    let few = outside.clamp(-MANY, MANY);
    let greatest = i16::from(MAX_SAMPLE);
    (SUBCELLS as i16 * few - SUBCELLS as i16 / 2).clamp(-greatest, greatest) as i8
}

/// Returns how far a coordinate is outside the range from `low` to `high`, negative inside.
fn beyond(low: u32, high: u32, c: u32) -> i16
    requires low { low ≤ MAX_SIDE }
    requires high { high ≤ MAX_SIDE }
    requires inside { c ≤ FAR }
    ensures value { result ≡ int_max (pos low -ℤ pos c) (pos c -ℤ pos high) }
    ensures near { IsInReach result }
{
    let c = c as i16;
    (low as i16 - c).max(c - high as i16)
}

/// Returns how far a coordinate is above a height, negative below.
fn above(h: u32, c: u32) -> i16
    requires h { h ≤ MAX_SIDE }
    requires inside { c ≤ MAX_SIDE }
    ensures value { result ≡ pos c -ℤ pos h }
    ensures near { IsInReach result }
{
    c as i16 - h as i16
}

/// Returns the greater of two numbers of cells.
fn greater(a: i16, b: i16) -> i16
    requires a { IsInReach a }
    requires b { IsInReach b }
    ensures value { result ≡ int_max a b }
    ensures near { IsInReach result }
{
    a.max(b)
}
