//! Samples after brushes, which brushes a world takes, and their regions, compared with worked examples.

ghost use Rattle.lattice.specs.Settings.{IsSettings};

use crate::asserts::{expect, expect_made, rely_on};
use crate::samples::{expect_even, expect_row, expect_sample, expect_samples};
use brushes::{Brush, Mode, apply, lawful, region};
use field_pages::Version;
use lattice::{MAX_DEPTH, MAX_REACH, Point, Region, Settings};
use std::alloc::Global;
use std::process::Abort;

/// The settings of the smallest world.
const SMALL: Settings = Settings { depth: 0, reach: 0 };

/// The settings of a world of side 256.
const LARGE: Settings = Settings { depth: 4, reach: 0 };

/// The settings of the largest world.
pub(crate) const LARGEST: Settings = Settings { depth: 6, reach: 0 };

/// The middle of the smallest world.
const MIDDLE: Point = Point { x: 8, y: 8, z: 8 };

const FILL_MIDDLE: Brush = Brush::Cuboid {
    mode: Mode::Fill,
    lo: MIDDLE,
    hi: MIDDLE,
};

/// Two balls that touch at a point, and a box of one point between them.
const TWO_BALLS: [Brush; 3] = [
    Brush::Ball {
        mode: Mode::Fill,
        at: MIDDLE,
        r: 1,
    },
    Brush::Ball {
        mode: Mode::Fill,
        at: Point { x: 9, y: 9, z: 8 },
        r: 1,
    },
    Brush::Cuboid {
        mode: Mode::Fill,
        lo: Point { x: 8, y: 9, z: 8 },
        hi: Point { x: 8, y: 9, z: 8 },
    },
];

const BOX: Brush = Brush::Cuboid {
    mode: Mode::Fill,
    lo: Point { x: 3, y: 5, z: 7 },
    hi: Point { x: 6, y: 9, z: 12 },
};

const HOLE: Brush = Brush::Ball {
    mode: Mode::Carve,
    at: Point { x: 5, y: 8, z: 10 },
    r: 3,
};

const LOW_GROUND: Brush = Brush::Ground {
    mode: Mode::Fill,
    h: 4,
};

const HIGH_GROUND: Brush = Brush::Ground {
    mode: Mode::Fill,
    h: 250,
};

const SMOOTHING: Brush = Brush::Smooth {
    lo: Point { x: 0, y: 0, z: 0 },
    hi: Point { x: 16, y: 9, z: 11 },
};

const HIGHEST_GROUND: Brush = Brush::Ground {
    mode: Mode::Fill,
    h: 1018,
};

/// A ball about the last point of a page along x, which is the first one of a page along y.
const BALL_IN_FOUR_PAGES: Brush = Brush::Ball {
    mode: Mode::Fill,
    at: Point {
        x: 511,
        y: 512,
        z: 513,
    },
    r: 5,
};

/// A box up to the far corner of the largest world.
const BOX_AT_THE_FAR_CORNER: Brush = Brush::Cuboid {
    mode: Mode::Fill,
    lo: Point {
        x: 1020,
        y: 1021,
        z: 1022,
    },
    hi: Point {
        x: 1024,
        y: 1024,
        z: 1024,
    },
};

/// A ground, and two smoothings of pages that are all solid or all empty but near it.
const SMOOTHED_PAGES: [Brush; 3] = [
    Brush::Ground {
        mode: Mode::Fill,
        h: 512,
    },
    SMOOTHING_OF_PAGES,
    SMOOTHING_OF_PAGES,
];

const SMOOTHING_OF_PAGES: Brush = Brush::Smooth {
    lo: Point {
        x: 500,
        y: 500,
        z: 490,
    },
    hi: Point {
        x: 530,
        y: 530,
        z: 530,
    },
};

/// A ball in a page of the largest world.
const BALL_IN_A_PAGE: Brush = Brush::Ball {
    mode: Mode::Fill,
    at: IN_A_PAGE,
    r: 4,
};

const IN_A_PAGE: Point = Point {
    x: 520,
    y: 520,
    z: 520,
};

/// A box about that page that leaves nothing of the ball.
const HOLE_ABOUT_A_PAGE: Brush = Brush::Cuboid {
    mode: Mode::Carve,
    lo: Point {
        x: 500,
        y: 500,
        z: 500,
    },
    hi: Point {
        x: 540,
        y: 540,
        z: 540,
    },
};

/// Brushes that a new world takes one after another, and some of its samples then, each after its x, y and z.
struct Case {
    name: &'static str,
    settings: Settings,
    brushes: &'static [Brush],
    samples: &'static [([u32; 3], i8)],
}

static CASES: [Case; 11] = [
    Case {
        name: "a filled point has Chebyshev distances",
        settings: SMALL,
        brushes: &[FILL_MIDDLE],
        samples: &[
            ([8, 8, 8], -8),
            ([10, 8, 7], 24),
            ([6, 6, 6], 24),
            ([0, 0, 0], 120),
        ],
    },
    Case {
        name: "a filled point is carved",
        settings: SMALL,
        brushes: &[
            FILL_MIDDLE,
            Brush::Cuboid {
                mode: Mode::Carve,
                lo: MIDDLE,
                hi: MIDDLE,
            },
        ],
        samples: &[([8, 8, 8], 8)],
    },
    Case {
        name: "a filled point is smoothed",
        settings: SMALL,
        brushes: &[
            FILL_MIDDLE,
            Brush::Smooth {
                lo: MIDDLE,
                hi: MIDDLE,
            },
        ],
        samples: &[([8, 8, 8], 4), ([8, 8, 9], 8)],
    },
    Case {
        name: "two balls touch at a point",
        settings: SMALL,
        brushes: &TWO_BALLS,
        samples: &[
            ([8, 8, 8], -16),
            ([9, 9, 8], -16),
            ([8, 9, 8], -8),
            ([9, 8, 8], 0),
        ],
    },
    Case {
        name: "a box with a hole on a ground",
        settings: SMALL,
        brushes: &[BOX, HOLE, LOW_GROUND],
        samples: &[([5, 8, 10], 48), ([6, 9, 12], 9), ([0, 0, 0], -72)],
    },
    Case {
        name: "smoothing reads the samples before it",
        settings: SMALL,
        brushes: &[BOX, HOLE, LOW_GROUND, SMOOTHING],
        samples: &[
            ([0, 0, 0], -70),
            ([16, 0, 0], -70),
            ([16, 9, 11], 104),
            ([16, 9, 12], 120),
            ([5, 8, 10], 36),
            ([3, 5, 7], -2),
            ([16, 10, 5], 8),
        ],
    },
    Case {
        name: "a ground fills a large world",
        settings: LARGE,
        brushes: &[HIGH_GROUND],
        samples: &[
            ([256, 256, 250], -8),
            ([0, 256, 256], 88),
            ([256, 0, 0], -127),
        ],
    },
    Case {
        name: "a ground fills the largest world",
        settings: LARGEST,
        brushes: &[HIGHEST_GROUND],
        samples: &[
            ([1024, 1024, 1018], -8),
            ([0, 1024, 1024], 88),
            ([1024, 0, 0], -127),
        ],
    },
    Case {
        name: "a ball lies across four pages",
        settings: LARGEST,
        brushes: &[BALL_IN_FOUR_PAGES],
        samples: &[
            ([511, 512, 513], -80),
            ([512, 512, 513], -64),
            ([511, 511, 513], -64),
            ([512, 511, 511], -41),
            ([506, 512, 513], 0),
            ([517, 512, 513], 16),
            ([511, 512, 507], 16),
            ([511, 506, 513], 16),
            ([519, 520, 521], 127),
        ],
    },
    Case {
        name: "a box goes to the far corner",
        settings: LARGEST,
        brushes: &[BOX_AT_THE_FAR_CORNER],
        samples: &[
            ([1024, 1024, 1024], -8),
            ([1022, 1023, 1023], -24),
            ([1019, 1021, 1022], 8),
            ([1024, 1020, 1024], 8),
            ([1012, 1024, 1024], 120),
            ([1011, 1024, 1024], 127),
        ],
    },
    Case {
        name: "smoothing goes across pages of one value",
        settings: LARGEST,
        brushes: &SMOOTHED_PAGES,
        samples: &[
            ([512, 512, 503], -127),
            ([512, 512, 504], -126),
            ([512, 512, 505], -119),
            ([512, 512, 512], -8),
            ([512, 512, 520], 117),
            ([512, 512, 521], 125),
            ([512, 512, 522], 126),
            ([499, 512, 504], -127),
            ([530, 530, 520], 117),
            ([531, 530, 520], 120),
        ],
    },
];

/// Asserts that the settings are a world's.
fn expect_settings(rt: &impl Abort, settings: &Settings)
    ensures { IsSettings settings.now }
{
    assert!(rt; settings.depth <= MAX_DEPTH && settings.reach <= MAX_REACH);
}

/// Returns the version after one more brush, which the world has to take.
pub(crate) fn brushed(
    rt: &impl Abort,
    alloc: Global,
    settings: &Settings,
    version: &Version,
    brush: &Brush,
) -> Version {
    expect_settings(rt, settings);
    rely_on(rt, *brush, version.depth() == settings.depth);
    rely_on(rt, *brush, lawful(brush, settings));
    expect_made(rt, apply(alloc, version, brush, settings))
}

/// Returns the version of a new world.
fn opening(rt: &impl Abort, alloc: Global, settings: &Settings) -> Version {
    expect_settings(rt, settings);
    expect_made(rt, Version::new(alloc, settings.depth))
}

/// Changes a version by one more brush after another.
fn brush_all(
    rt: &impl Abort,
    alloc: Global,
    settings: &Settings,
    version: &mut Version,
    brushes: &[Brush],
) {
    for brush in brushes {
        *version = brushed(rt, alloc, settings, version, brush);
    }
}

/// Asserts samples of a version after the brushes of a case.
fn expect_case_of(rt: &impl Abort, alloc: Global, version: &mut Version, case: &Case) {
    brush_all(rt, alloc, &case.settings, version, case.brushes);
    expect_samples(rt, case.name, version, case.samples);
}

/// Asserts the same of a new world.
fn expect_case(rt: &impl Abort, alloc: Global, case: &Case) {
    let mut version = opening(rt, alloc, &case.settings);
    expect_case_of(rt, alloc, &mut version, case);
    drop(version);
}

#[test]
fn has_the_samples_of_the_rules(rt: HostRuntime) {
    for case in &CASES {
        expect_case(&rt, rt.alloc(), case);
    }
}

/// Brushes that a new world takes one after another, and some of its rows then, each from a point on.
struct RowCase {
    settings: Settings,
    brushes: &'static [Brush],
    rows: &'static [(Point, &'static [i8])],
}

static ROW_CASES: [RowCase; 2] = [
    RowCase {
        settings: SMALL,
        brushes: &[FILL_MIDDLE],
        rows: &[
            (Point { x: 7, y: 8, z: 8 }, &[8, -8, 8]),
            (Point { x: 16, y: 8, z: 8 }, &[120]),
            (Point { x: 17, y: 8, z: 8 }, &[127; 15]),
        ],
    },
    RowCase {
        settings: LARGEST,
        brushes: &[HIGHEST_GROUND],
        rows: &[(
            Point {
                x: 1024,
                y: 0,
                z: 0,
            },
            &[-127, 127],
        )],
    },
];

/// Asserts some rows of a version.
fn expect_rows(rt: &impl Abort, version: &Version, rows: &[(Point, &[i8])]) {
    for (from, samples) in rows {
        expect_row(rt, version, *from, samples);
    }
}

/// Asserts rows of a version after the brushes of a case.
fn expect_rows_of(rt: &impl Abort, alloc: Global, version: &mut Version, case: &RowCase) {
    brush_all(rt, alloc, &case.settings, version, case.brushes);
    expect_rows(rt, version, case.rows);
}

/// Asserts the same of a new world.
fn expect_row_case(rt: &impl Abort, alloc: Global, case: &RowCase) {
    let mut version = opening(rt, alloc, &case.settings);
    expect_rows_of(rt, alloc, &mut version, case);
    drop(version);
}

#[test]
fn has_rows_that_go_on_past_the_world(rt: HostRuntime) {
    for case in &ROW_CASES {
        expect_row_case(&rt, rt.alloc(), case);
    }
}

/// Asserts that a page is even once the ball in it is carved.
fn expect_carved(rt: &impl Abort, alloc: Global, filled: &Version) {
    let carved = brushed(rt, alloc, &LARGEST, filled, &HOLE_ABOUT_A_PAGE);
    expect_even(rt, &carved, IN_A_PAGE, true);
    expect_sample(rt, "after the carve", &carved, IN_A_PAGE, 127);
    drop(carved);
}

/// Asserts that a page isn't even once a ball in it is filled, and is again once that is carved.
fn expect_filled(rt: &impl Abort, alloc: Global, opening: &Version) {
    let filled = brushed(rt, alloc, &LARGEST, opening, &BALL_IN_A_PAGE);
    expect_even(rt, &filled, IN_A_PAGE, false);
    expect_carved(rt, alloc, &filled);
    drop(filled);
}

#[test]
fn has_an_even_page_again_where_a_carve_undoes_a_fill(rt: HostRuntime) {
    let opening = expect_made(&rt, Version::new(rt.alloc(), LARGEST.depth));
    expect_filled(&rt, rt.alloc(), &opening);
    drop(opening);
}

/// Brushes, each with a world and whether the world takes it.
static LAWFUL: [(Brush, Settings, bool); 7] = [
    (
        Brush::Ball {
            mode: Mode::Fill,
            at: Point { x: 16, y: 0, z: 16 },
            r: 16,
        },
        SMALL,
        true,
    ),
    (
        Brush::Ball {
            mode: Mode::Fill,
            at: MIDDLE,
            r: 0,
        },
        SMALL,
        false,
    ),
    (
        Brush::Ball {
            mode: Mode::Fill,
            at: MIDDLE,
            r: 17,
        },
        SMALL,
        false,
    ),
    (
        Brush::Ball {
            mode: Mode::Fill,
            at: Point { x: 17, y: 8, z: 8 },
            r: 1,
        },
        SMALL,
        false,
    ),
    (
        Brush::Cuboid {
            mode: Mode::Carve,
            lo: Point { x: 3, y: 2, z: 1 },
            hi: Point { x: 3, y: 1, z: 1 },
        },
        SMALL,
        false,
    ),
    (CARVED_GROUND, SMALL, false),
    (CARVED_GROUND, LARGE, true),
];

const CARVED_GROUND: Brush = Brush::Ground {
    mode: Mode::Carve,
    h: 17,
};

#[test]
fn a_world_takes_lawful_brushes_alone(rt: HostRuntime) {
    for (brush, settings, is_lawful) in &LAWFUL {
        expect_settings(&rt, settings);
        expect(&rt, *brush, lawful(brush, settings), *is_lawful);
    }
}

/// Brushes, each with its region in a world of side 256.
static REGIONS: [(Brush, Region); 2] = [
    (
        Brush::Cuboid {
            mode: Mode::Fill,
            lo: Point { x: 20, y: 3, z: 10 },
            hi: Point {
                x: 30,
                y: 3,
                z: 250,
            },
        },
        Region {
            lo: Point { x: 12, y: 0, z: 2 },
            hi: Point {
                x: 38,
                y: 11,
                z: 256,
            },
        },
    ),
    (
        Brush::Ball {
            mode: Mode::Fill,
            at: Point {
                x: 100,
                y: 5,
                z: 256,
            },
            r: 4,
        },
        Region {
            lo: Point {
                x: 88,
                y: 0,
                z: 244,
            },
            hi: Point {
                x: 112,
                y: 17,
                z: 256,
            },
        },
    ),
];

#[test]
fn regions_grow_and_stay_in_the_world(rt: HostRuntime) {
    for (brush, grown) in &REGIONS {
        rely_on(&rt, *brush, lawful(brush, &LARGE));
        expect(&rt, *brush, region(brush, &LARGE), *grown);
    }
}
