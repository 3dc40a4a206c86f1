//! What is asserted of the samples of versions.

ghost use Rattle.lattice.specs.Point.{IsInWorld};

use crate::asserts::{expect, rely_on};
use field_pages::Version;
use lattice::{Point, Settings};
use std::fmt::Debug;
use std::process::Abort;

/// Asserts that a point is in the world of a version.
fn expect_in_world(rt: &impl Abort, version: &Version, at: Point)
    ensures { IsInWorld version.now.depth at }
{
    let settings = Settings {
        depth: version.depth(),
        reach: 0,
    };
    rely_on(rt, at, at.is_in_world(&settings));
}

/// Asserts which sample a version has at a point.
pub(crate) fn expect_sample<C: Copy + Debug>(
    rt: &impl Abort,
    case: C,
    version: &Version,
    at: Point,
    sample: i8,
) {
    expect_in_world(rt, version, at);
    expect(rt, (case, at), version.sample(at), sample);
}

/// Asserts the samples of a version at some points, each after its x, y and z.
pub(crate) fn expect_samples<C: Copy + Debug>(
    rt: &impl Abort,
    case: C,
    version: &Version,
    samples: &[([u32; 3], i8)],
) {
    for ([x, y, z], sample) in samples {
        expect_sample(rt, case, version, Point::new(*x, *y, *z), *sample);
    }
}

/// Asserts which samples a row of a version has from a point on.
pub(crate) fn expect_row(rt: &impl Abort, version: &Version, from: Point, samples: &[i8]) {
    let (page, first) = (from.x / 16, (from.x % 16) as usize);
    expect_in_world(rt, version, Point::new(16 * page, from.y, from.z));
    let row = &version.row(page, from.y, from.z)[first..];
    expect(rt, from, &row[..samples.len().min(row.len())], samples);
}

/// Asserts which samples are at the low corners of the first pages in the row along x in which a point lies.
pub(crate) fn expect_corners(rt: &impl Abort, version: &Version, at: Point, samples: &[i8]) {
    expect_in_world(rt, version, at);
    let corners = version.corners(at);
    expect(
        rt,
        at,
        &corners[..samples.len().min(corners.len())],
        samples,
    );
}

/// Asserts whether the page in which a point lies has the sample of the point alone.
pub(crate) fn expect_even(rt: &impl Abort, version: &Version, at: Point, is_even: bool) {
    expect_in_world(rt, version, at);
    expect(rt, at, version.has_alone(at, version.sample(at)), is_even);
}
