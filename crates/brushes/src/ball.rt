//! Balls, whose values are looked up by the square of the distance from the centre.

ghost use Rattle.std.specs.Prelude.{refl, ◌≡◌, ℕ, ◌+◌, ◌-◌, ◌*◌, ◌<◌, ◌≤◌, ◌-ℤ◌, neg_ℤ, pos, min, length, IfOk, IsTrue, slice_index_or};
ghost use Rattle.lattice.specs.declared.point.Point.{Point as PointOf};
ghost use Rattle.lattice.specs.declared.settings.TheConstants.{MAX_DEPTH};
ghost use Rattle.lattice.specs.Point.{IsInWorld};
ghost use Rattle.lattice.specs.Settings.{world_side};
ghost use Rattle.terrain.specs.declared.brush.Brush.TheVariants.{Ball};
ghost use Rattle.terrain.specs.Brushes.{IsBall, ball_value, floor_root};
ghost use Rattle.terrain.specs.Samples.{IsSample, clamped_sample};
ghost use Rattle.brushes.specs.BallValues.{row_square};
ghost use Rattle.brushes.specs.Values.{value_at_square};
ghost use Rattle.brushes.specs.declared.shape.TheConstants.{FAR};

use crate::shape::{FAR, Shape, clamped_sample};
use field_laws::root_meets_both_bounds;
use field_pages::SIDE;
use lattice::{MAX_DEPTH, MAX_SIDE, Point, Region};
use std::alloc::{AllocError, Global};
use std::marker::Model;
use terrain::{MAX_SAMPLE, SUBCELLS};

/// The greatest root that is taken.
const MAX_ROOT: u32 = 1 << 15;

/// The greatest number of which roots are taken.
const MAX_SQUARE: u32 = MAX_ROOT * MAX_ROOT;

/// The greatest value, in units, that is not clamped.
const MAX_VALUE: u32 = MAX_SAMPLE as u32;

/// How far from a centre, in units, the values of the largest ball are the greatest.
const MAX_UNITS: u32 = SUBCELLS * MAX_SIDE + MAX_VALUE;

/// A ball about a point.
#[derive(Drop)]
pub(crate) struct BallShape {
    at: Point,
    values: BallValues,
}

impl BallShape {
    /// Returns the ball about a point, of radius `r`.
    pub(crate) fn new(alloc: Global, at: Point, r: u32) -> Result<BallShape, AllocError>
        requires { r ≤ MAX_SIDE }
        ensures { IfOk result (λ shape. shape ≡ record { at = at; values = r }) }
    {
        let values = BallValues::new(alloc, r)?;
        Ok(BallShape { at, values })
    }
}

impl Shape for BallShape {
    ghost brush = { λ shape mode. Ball mode shape.at shape.values };

    ghost value_at = { λ shape p. ball_value shape.at shape.values p };

    ghost fits = { λ shape. IsBall MAX_DEPTH shape.at shape.values };

    ghost shapes = { λ shape mode depth field p. refl };

    ghost of_lawful = { λ shape mode lawful. lawful };

    fn values(&self, from: Point, values: &mut [i8]) {
        let at = self.at;
        let across = square_apart(from.y, at.y) + square_apart(from.z, at.z);
        self.values.write_row(across, from.x, at.x, values);
    }

    fn is_inside(&self, region: Region) -> bool {
        let (at, Region { lo, hi }) = (self.at, region);
        let furthest = furthest_square(lo.x, hi.x, at.x)
            + furthest_square(lo.y, hi.y, at.y)
            + furthest_square(lo.z, hi.z, at.z);
        self.values.are_least_to(furthest)
    }

    fn is_outside(&self, region: Region) -> bool {
        let (at, Region { lo, hi }) = (self.at, region);
        let nearest = nearest_square(lo.x, hi.x, at.x)
            + nearest_square(lo.y, hi.y, at.y)
            + nearest_square(lo.z, hi.z, at.z);
        self.values.are_greatest_from(nearest)
    }
}

/// A ball's values by the square of the distance from its centre, each clamped to the range of
/// samples.
#[derive(Drop)]
struct BallValues {
    r: u32,
    /// The square distance up to which the values are all the same.
    first: u32,
    /// The values at this square distance and on, up to where they are all the same again.
    by_square: Vec<i8>,
}

impl Model for BallValues {
    ghost use Rattle.std.specs.Prelude.{ℕ};
    ghost use Rattle.brushes.specs.BallValues.{AreBallValues};

    ghost Value = { ℕ };

    ghost view = { λ values. values.r };

    ghost invariant = { λ values. AreBallValues values.r values.first values.by_square.items };
}

impl BallValues {
    /// Returns the values of a ball of radius `r`.
    fn new(alloc: Global, r: u32) -> Result<BallValues, AllocError>
        requires { r ≤ MAX_SIDE }
        ensures { IfOk result (λ values. values ≡ r) }
    {
        root_meets_both_bounds();
        let units = SUBCELLS * r;
        let inner = units.saturating_sub(MAX_VALUE);
        let outer = units + MAX_VALUE;
        let first = square(inner) / (SUBCELLS * SUBCELLS);
        let last = square(outer) / (SUBCELLS * SUBCELLS) + 1;
        let mut by_square = Vec::with_capacity(alloc, (last - first + 1) as usize)?;
        let mut root = 0;
        for apart in first..last + 1 {
            root = root_from(root, SUBCELLS * SUBCELLS * apart);
            by_square.push(clamped_difference(root, units))?;
        }
        Ok(BallValues {
            r,
            first,
            by_square,
        })
    }

    /// Writes the values at points along x, from `x` on, of a ball whose centre has its x at `centre`, and which the
    /// square distance `across` parts from the points along y and z.
    fn write_row(&self, across: u32, x: u32, centre: u32, values: &mut [i8])
        requires across { across ≤ 2 * (FAR * FAR) }
        requires x { x ≤ MAX_SIDE }
        requires centre { centre ≤ MAX_SIDE }
        requires row { length values.old ≤ SIDE }
        ensures { (t : ℕ) → t < length values.old →
            slice_index_or values.new t MAX_SAMPLE
            ≡ clamped_sample (value_at_square self.now (row_square across x centre t)) }
    {
        let by_square = self.by_square.as_slice();
        let last = (by_square.len() - 1) as u32;
        let places = row_places(across, x, centre, self.first, last);
        look_up_row(by_square, &places, values);
    }

    /// Returns whether the values at this square distance and at all nearer ones are the least.
    fn are_least_to(&self, square: u32) -> bool
        ensures { IsTrue result → (n : ℕ) → n ≤ square →
            clamped_sample (value_at_square self.now n) ≡ neg_ℤ MAX_SAMPLE }
    {
        square <= self.first && self.by_square[0] == -MAX_SAMPLE
    }

    /// Returns whether the values at this square distance and at all further ones are the greatest.
    fn are_greatest_from(&self, square: u32) -> bool
        ensures { IsTrue result → (n : ℕ) → square ≤ n →
            clamped_sample (value_at_square self.now n) ≡ MAX_SAMPLE }
    {
        self.first as usize + self.by_square.len() <= square as usize + 1
    }
}

/// Returns the root of a number, rounded down, by steps from a number that is at most the root.
fn root_from(least: u32, n: u32) -> u32
    requires least { least * least ≤ n }
    requires fits { n ≤ MAX_SQUARE }
    ensures value { result ≡ floor_root n }
    ensures most { result ≤ MAX_ROOT }
{
    root_meets_both_bounds();
    let mut root = least;
    while (root + 1) * (root + 1) <= n {
        root += 1;
    }
    root
}

/// Returns the clamped difference of a root and a number of units.
fn clamped_difference(root: u32, units: u32) -> i8
    requires root { root ≤ MAX_ROOT }
    requires units { units ≤ MAX_UNITS }
    ensures value { result ≡ clamped_sample (pos root -ℤ pos units) }
    ensures range { IsSample result }
{
    clamped_sample(root as i32 - units as i32)
}

/// Returns the square of a number of units.
fn square(units: u32) -> u32
    requires { units ≤ MAX_UNITS }
    ensures value { result ≡ units * units }
    ensures most { result ≤ MAX_UNITS * MAX_UNITS }
{
    units * units
}

/// Returns the places of the values at a row of points in a list that begins with that at the square distance `first`,
/// and ends at the place `last`. All lanes are made at once, whether the row has so many points or not.
fn row_places(across: u32, x: u32, centre: u32, first: u32, last: u32) -> [u32; SIDE as usize]
    requires across { across ≤ 2 * (FAR * FAR) }
    requires x { x ≤ MAX_SIDE }
    requires centre { centre ≤ MAX_SIDE }
    ensures { (t : ℕ) → t < SIDE → slice_index_or result t 0
        ≡ min (row_square across x centre t - first) last }
{
    let mut places = [0; SIDE as usize];
    for (t, place) in places.iter_mut().enumerate() {
        let square = across + square_apart(x + t as u32, centre);
        *place = square.saturating_sub(first).min(last);
    }
    places
}

/// Looks up the items at the places of a row. A whole row of a page is told apart, so that its length is known where
/// `look_up` is put in place of its call.
fn look_up_row(items: &[i8], places: &[u32; SIDE as usize], values: &mut [i8])
    requires row { length values.old ≤ SIDE }
    requires within { (t : ℕ) → t < SIDE → slice_index_or places.now t 0 < length items.now }
    ensures { (t : ℕ) → t < length values.old → slice_index_or values.new t MAX_SAMPLE
        ≡ slice_index_or items.now (slice_index_or places.now t 0) MAX_SAMPLE }
{
    let whole = SIDE as usize;
    if values.len() == whole {
        look_up(items, places, &mut values[..whole]);
    } else {
        look_up(items, places, values);
    }
}

/// Looks up the items at the first places of a row.
fn look_up(items: &[i8], places: &[u32; SIDE as usize], values: &mut [i8])
    requires row { length values.old ≤ SIDE }
    requires within { (t : ℕ) → t < SIDE → slice_index_or places.now t 0 < length items.now }
    ensures { (t : ℕ) → t < length values.old → slice_index_or values.new t MAX_SAMPLE
        ≡ slice_index_or items.now (slice_index_or places.now t 0) MAX_SAMPLE }
{
    for (t, value) in values.iter_mut().enumerate() {
        *value = items[places[t] as usize];
    }
}

/// Returns the square of how far two coordinates are apart.
fn square_apart(a: u32, b: u32) -> u32
    requires a { a ≤ FAR }
    requires b { b ≤ MAX_SIDE }
    ensures value { result ≡ ((a - b) + (b - a)) * ((a - b) + (b - a)) }
    ensures most { result ≤ FAR * FAR }
{
    let apart = a.abs_diff(b);
    apart * apart
}

/// Returns the square of how far the nearest coordinate from `low` to `high` is from `c`.
fn nearest_square(low: u32, high: u32, c: u32) -> u32
    requires low { low ≤ MAX_SIDE }
    requires c { c ≤ MAX_SIDE }
    ensures least { (d : ℕ) → low ≤ d → d ≤ high →
        result ≤ ((d - c) + (c - d)) * ((d - c) + (c - d)) }
    ensures most { result ≤ MAX_SIDE * MAX_SIDE }
{
    let apart = low.saturating_sub(c).max(c.saturating_sub(high));
    apart * apart
}

/// Returns the square of how far the furthest coordinate from `low` to `high` is from `c`.
fn furthest_square(low: u32, high: u32, c: u32) -> u32
    requires low { low ≤ MAX_SIDE }
    requires high { high ≤ FAR }
    requires c { c ≤ MAX_SIDE }
    ensures greatest { (d : ℕ) → low ≤ d → d ≤ high →
        ((d - c) + (c - d)) * ((d - c) + (c - d)) ≤ result }
    ensures most { result ≤ FAR * FAR }
{
    let apart = low.abs_diff(c).max(high.abs_diff(c));
    apart * apart
}
