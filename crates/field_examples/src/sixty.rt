//! Sixty edits about the middle of the largest world, with the samples of 500 points after them.

ghost use Rattle.std.specs.Prelude.{◌<◌};

use crate::asserts::expect_made;
use crate::fields::{LARGEST, brushed};
use crate::samples::expect_sample;
use brushes::{Brush, Mode};
use field_pages::Version;
use lattice::Point;
use std::alloc::Global;
use std::process::Abort;

/// The samples of the points, each at its place.
static SAMPLES: [i8; 500] = [
    -127, 127, 127, 127, 127, 127, -19, 127, -11, 8, -88, -127, -127, -127, -127, -127, -127, -127,
    127, 127, 127, 127, 127, 127, 127, 120, 24, -56, -127, -127, -127, -127, -127, -127, 51, 127,
    92, 127, 127, 127, 97, 127, 127, 40, -56, -127, -127, -127, -127, -127, -127, -127, 127, 88,
    127, 21, 127, 127, 127, 127, 56, -40, -127, -127, -127, -127, -38, -127, -127, 127, 127, 127,
    127, 127, 127, 127, -63, 72, -24, -120, -127, -104, -127, -127, -127, -127, 127, 127, 127, 83,
    127, 127, 1, 127, 88, -8, -104, -127, -127, -127, -120, -127, -127, -127, 127, 127, 127, 127,
    127, 85, 40, 104, 8, -72, -127, 15, -127, -127, -127, -127, -127, 127, 127, 127, 127, 89, 121,
    127, 120, 24, -72, -127, -127, -127, -127, -127, -127, -127, 127, 127, 127, -84, 127, 127, 32,
    127, 40, -56, -127, -127, -127, -127, -127, -127, -127, 127, 127, 81, 127, 127, 88, 127, 127,
    56, -40, -127, -127, -127, -127, -127, 3, -127, 127, 127, 127, 78, 127, 127, 73, 127, 72, -24,
    -120, -119, -127, -127, -72, -127, -127, 127, 127, 127, 127, 127, 103, 127, 11, 0, -8, -104,
    -127, -64, -127, -127, -127, -127, -127, 127, 127, 127, 127, 127, 1, 127, 104, 8, -88, -127,
    -127, -127, -127, -127, -127, -127, 127, 127, 127, 56, 127, 127, -4, 120, 24, -72, -127, -127,
    -127, -127, -127, -127, -127, 127, 127, 88, 127, 127, 88, 127, 127, 40, -56, -127, -127, -127,
    -127, -127, -96, -127, 127, 127, 127, 72, 107, 127, 115, 127, 56, -100, -127, -127, -127, -127,
    -127, -127, -127, 127, 127, 127, 127, 127, 127, 127, 127, -127, -24, -119, -127, -127, -120,
    -127, -98, -127, 127, 127, 127, 127, 127, 127, 104, 66, 88, -8, -104, -100, -127, -127, -127,
    -127, -127, -127, 127, 124, 127, 127, 127, 127, 0, 104, 8, -88, -127, -127, -32, -127, -127,
    -127, -127, 127, 127, 45, 127, 127, -7, 127, 120, 24, -72, -127, -127, -127, -127, -127, -127,
    -127, 127, 127, 127, 127, -91, 127, 96, 127, 40, -56, -127, -127, -127, -127, -127, -127, -127,
    127, 127, 127, 127, 127, 127, 127, 127, 40, -40, -127, -127, -127, -127, -127, -43, -93, 127,
    127, 127, 127, 0, 127, 127, 127, 72, -24, -120, -127, -127, -127, -127, -127, -127, 72, 127,
    109, 127, 127, 127, 127, 127, -24, -8, -104, -127, -127, 51, -127, -127, -127, -127, 127, 127,
    127, 127, 127, 16, 39, 104, 8, -88, -127, -127, -127, -127, -127, -127, -127, 127, 127, 127,
    127, -68, 127, 127, -55, 24, -72, -127, -127, -127, -127, -127, -127, -127, 127, 127, 127, 127,
    127, 127, 127, 127, 40, -56, -105, -127, -127, -127, -127, -127, -29, 127, 127, 127, 127, 120,
    127, 127, 96, 56, -40, -127, -127, -127, -127, -127, -127, -127, 127, 127, 40, 127, 127, 127,
    127, 127, 72, -24, -120, -127, -127, -127, -127, -127, -127, 127, 102,
];

/// Returns the edit of a number: a ground at first, and then balls, boxes and smoothings across pages.
fn edit(number: u32) -> Brush
    requires { number < 60 }
{
    let at = Point::new(
        460 + number * 37 % 97,
        460 + number * 53 % 101,
        460 + number * 71 % 103,
    );
    let mode = if number % 3 == 1 {
        Mode::Carve
    } else {
        Mode::Fill
    };
    match number % 4 {
        _ if number == 0 => Brush::Ground { mode, h: 512 },
        0 => Brush::Ball {
            mode,
            at,
            r: 5 + number % 12,
        },
        1 => Brush::Cuboid {
            mode,
            lo: at,
            hi: Point::new(at.x + number % 14, at.y + number % 11, at.z + number % 9),
        },
        2 => Brush::Smooth {
            lo: at,
            hi: Point::new(at.x + 12, at.y + 9, at.z + 15),
        },
        _ => Brush::Ball {
            mode,
            at,
            r: 1 + number % 7,
        },
    }
}

/// Returns the point of a number.
fn point(number: u32) -> Point
    requires { number < 500 }
{
    Point::new(
        462 + number * 29 % 109,
        463 + number * 61 % 107,
        464 + number * 97 % 103,
    )
}

/// Adds the sixty edits to a version.
fn add_edits(rt: &impl Abort, alloc: Global, version: &mut Version) {
    for number in 0..60 {
        *version = brushed(rt, alloc, &LARGEST, version, &edit(number));
    }
}

/// Asserts the samples of a version at the points.
fn expect_points(rt: &impl Abort, version: &Version) {
    for number in 0..500 {
        let (at, sample) = (point(number), SAMPLES[number as usize]);
        expect_sample(rt, "sixty edits", version, at, sample);
    }
}

/// Asserts these of the opening version of the largest world once it has the sixty edits.
fn expect_sixty(rt: &impl Abort, alloc: Global, version: &mut Version) {
    add_edits(rt, alloc, version);
    expect_points(rt, version);
}

#[test]
fn has_the_samples_of_sixty_edits_of_the_largest_world(rt: HostRuntime) {
    let mut version = expect_made(&rt, Version::new(rt.alloc(), LARGEST.depth));
    expect_sixty(&rt, rt.alloc(), &mut version);
    drop(version);
}
