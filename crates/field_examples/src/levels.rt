//! Leaves, rims and equality, against counts from a reference that shares no code with this crate.

use crate::asserts::{expect, expect_made, rely_on};
use lattice::{MAX_DEPTH, MAX_REACH, Node, Point, Settings};
use octree::{Levels, choose, leaf_change};
use std::alloc::Global;
use std::fmt::Debug;
use std::process::Abort;

const ORIGIN: Point = Point { z: 0, y: 0, x: 0 };

/// The middle of a world of depth 2.
const CENTRE: Point = Point {
    z: 64,
    y: 64,
    x: 64,
};

/// The depth and the reach of a world, the x, y and z of a camera, and how many leaves there are then.
static LEAF_COUNTS: [(u8, u8, [u32; 3], usize); 10] = [
    (2, 1, [0, 0, 0], 15),
    // Balance across faces alone would leave 57.
    (3, 1, [32, 32, 16], 64),
    // The node of level 2 from x 64 on is 32 cells away, so it isn't wanted split; it is split for balance.
    (3, 1, [32, 16, 16], 36),
    (3, 2, [17, 90, 128], 78),
    // At the greatest reach a world of depth 3 is split all over, and one of depth 4 near the camera.
    (3, 8, [128, 0, 64], 512),
    (4, 8, [0, 256, 131], 1408),
    (4, 5, [200, 16, 77], 925),
    // Seven leaves of each level from 5 to 1, and eight of level 0.
    (6, 1, [0, 0, 0], 43),
    (5, 2, [511, 512, 17], 120),
    (6, 2, [511, 512, 513], 568),
];

/// The corners of a world of side 256.
const CORNERS: [Point; 8] = [
    Point { z: 0, y: 0, x: 0 },
    Point { z: 0, y: 0, x: 256 },
    Point { z: 0, y: 256, x: 0 },
    Point {
        z: 0,
        y: 256,
        x: 256,
    },
    Point { z: 256, y: 0, x: 0 },
    Point {
        z: 256,
        y: 0,
        x: 256,
    },
    Point {
        z: 256,
        y: 256,
        x: 0,
    },
    Point {
        z: 256,
        y: 256,
        x: 256,
    },
];

/// The depth and the reach of a world, the points from which it is seen, and how many leaves there are then.
static LEAF_COUNTS_OF_MANY: [(u8, u8, &[Point], usize); 5] = [
    (2, 1, &[ORIGIN, CENTRE], 22),
    // A point that is there twice counts as one.
    (2, 1, &[CENTRE, ORIGIN, CENTRE], 22),
    (
        3,
        2,
        &[
            Point {
                z: 128,
                y: 90,
                x: 17,
            },
            Point {
                z: 64,
                y: 3,
                x: 100,
            },
            Point {
                z: 64,
                y: 64,
                x: 64,
            },
        ],
        204,
    ),
    (4, 1, &CORNERS, 176),
    (4, 3, &CORNERS, 960),
];

/// The depth and the reach of a world, the x, y and z of a camera before and after a move, and how many leaves are new
/// or have another rim then, and how many are none any more.
static MOVES: [(u8, u8, [u32; 3], [u32; 3], usize, usize); 9] = [
    (2, 1, [0, 0, 0], [64, 64, 64], 15, 9),
    (3, 1, [32, 32, 16], [32, 16, 16], 16, 32),
    (3, 1, [32, 16, 16], [32, 32, 16], 44, 4),
    // Nodes of two levels are split by a step of one cell, and are whole again by the step back.
    (4, 2, [128, 129, 129], [129, 129, 129], 190, 18),
    (4, 2, [129, 129, 129], [128, 129, 129], 64, 144),
    (4, 5, [200, 16, 77], [40, 16, 77], 492, 525),
    // A step within what both want split changes nothing.
    (4, 2, [100, 100, 100], [101, 100, 100], 0, 0),
    (6, 2, [511, 512, 513], [515, 512, 513], 424, 216),
    (6, 1, [0, 0, 0], [1024, 1024, 1024], 43, 37),
];

/// Returns the point with these x, y and z.
fn point([x, y, z]: [u32; 3]) -> Point {
    Point::new(x, y, z)
}

/// Returns the settings of this depth and reach.
fn settings(depth: u8, reach: u8) -> Settings {
    Settings { depth, reach }
}

/// Returns the level map of a world for cameras, which have to be in it.
fn levels(rt: &impl Abort, alloc: Global, settings: Settings, cameras: &[Point]) -> Levels {
    assert!(rt; settings.depth <= MAX_DEPTH && settings.reach <= MAX_REACH);
    let are_in_world = cameras.iter().all(|camera| camera.is_in_world(&settings));
    rely_on(rt, cameras, are_in_world);
    expect_made(rt, choose(alloc, &settings, cameras))
}

/// Returns the level map of a world of depth 2 and reach 1 for a camera, which has to be in it.
fn small_levels(rt: &impl Abort, alloc: Global, camera: Point) -> Levels {
    levels(rt, alloc, Settings { depth: 2, reach: 1 }, &[camera])
}

/// Asserts how many leaves a level map has.
pub(crate) fn expect_count<C: Copy + Debug>(
    rt: &impl Abort,
    alloc: Global,
    case: C,
    levels: &Levels,
    count: usize,
) {
    let leaves = expect_made(rt, levels.leaves(alloc));
    expect(rt, case, leaves.len(), count);
    drop(leaves);
}

/// Asserts how many leaves a world has for cameras, which have to be in it.
fn expect_leaves(
    rt: &impl Abort,
    alloc: Global,
    settings: Settings,
    cameras: &[Point],
    count: usize,
) {
    let found = levels(rt, alloc, settings, cameras);
    expect_count(rt, alloc, (settings, cameras), &found, count);
    drop(found);
}

#[test]
fn counts_the_leaves_round_cameras(rt: HostRuntime) {
    for (depth, reach, camera, count) in &LEAF_COUNTS {
        let settings = settings(*depth, *reach);
        expect_leaves(&rt, rt.alloc(), settings, &[point(*camera)], *count);
    }
}

#[test]
fn counts_the_leaves_round_many_cameras(rt: HostRuntime) {
    for (depth, reach, cameras, count) in &LEAF_COUNTS_OF_MANY {
        let settings = settings(*depth, *reach);
        expect_leaves(&rt, rt.alloc(), settings, cameras, *count);
    }
}

/// Asserts the rim of the leaf from x 32 on for a camera.
fn expect_rim(rt: &impl Abort, alloc: Global, camera: Point, rim: u32) {
    let leaf = Node {
        level: 1,
        k: 0,
        j: 0,
        i: 1,
    };
    let found = small_levels(rt, alloc, camera);
    rely_on(rt, camera, found.is_leaf(leaf));
    expect(rt, camera, found.rim(leaf), rim);
    drop(found);
}

#[test]
fn gives_the_rim_beside_a_split_node(rt: HostRuntime) {
    expect_rim(&rt, rt.alloc(), ORIGIN, 4096);
    expect_rim(&rt, rt.alloc(), CENTRE, 16_777_216);
}

/// Nodes of level 1, each with whether it is split for a camera in the middle. The second one lies out of the world.
static SPLIT: [(Node, bool); 2] = [
    (
        Node {
            level: 1,
            k: 1,
            j: 1,
            i: 1,
        },
        true,
    ),
    (
        Node {
            level: 1,
            k: 2,
            j: 0,
            i: 0,
        },
        false,
    ),
];

/// Asserts this of a level map.
fn expect_split(rt: &impl Abort, levels: &Levels) {
    for (node, is_split) in &SPLIT {
        expect(rt, *node, levels.is_split(*node), *is_split);
    }
    expect(rt, "the depth", levels.depth(), 2);
}

#[test]
fn knows_which_nodes_are_split(rt: HostRuntime) {
    let found = small_levels(&rt, rt.alloc(), CENTRE);
    expect_split(&rt, &found);
    drop(found);
}

/// Asserts that the root is the one leaf of a level map of the largest world.
fn expect_root(rt: &impl Abort, alloc: Global, levels: &Levels) {
    let leaves = expect_made(rt, levels.leaves(alloc));
    expect(rt, "the root", leaves.as_slice(), &[Node::root(MAX_DEPTH)]);
    drop(leaves);
}

#[test]
fn has_one_leaf_without_a_camera(rt: HostRuntime) {
    let settings = Settings {
        depth: MAX_DEPTH,
        reach: MAX_REACH,
    };
    let found = expect_made(&rt, choose(rt.alloc(), &settings, &[]));
    expect_root(&rt, rt.alloc(), &found);
    drop(found);
}

/// Asserts whether the level map for a camera is the same as another one.
fn expect_equal(rt: &impl Abort, alloc: Global, one: &Levels, camera: Point, is_equal: bool) {
    let other = small_levels(rt, alloc, camera);
    expect(rt, camera, *one == other, is_equal);
    drop(other);
}

/// Asserts for which cameras the level map is that of one at the origin.
fn expect_like(rt: &impl Abort, alloc: Global, near: &Levels) {
    expect_equal(rt, alloc, near, Point::new(1, 2, 3), true);
    expect_equal(rt, alloc, near, Point::new(64, 0, 0), false);
}

#[test]
fn is_equal_where_a_camera_changes_no_split(rt: HostRuntime) {
    let near = small_levels(&rt, rt.alloc(), ORIGIN);
    expect_like(&rt, rt.alloc(), &near);
    drop(near);
}

/// Returns how many leaves are new or have another rim after a level map comes in the place of another one of the same
/// depth, and how many are none any more.
fn changes(rt: &impl Abort, alloc: Global, before: &Levels, after: &Levels) -> (usize, usize) {
    rely_on(rt, "one depth", before.depth() == after.depth());
    let change = expect_made(rt, leaf_change(alloc, before, after));
    let counts = (change.changed.len(), change.lost.len());
    drop(change);
    counts
}

/// Asserts these counts of a move of a camera from where it has a level map.
fn expect_moved(
    rt: &impl Abort,
    alloc: Global,
    settings: Settings,
    before: &Levels,
    to: Point,
    counts: (usize, usize),
) {
    let after = levels(rt, alloc, settings, &[to]);
    let found = changes(rt, alloc, before, &after);
    expect(rt, (settings, to), found, counts);
    drop(after);
}

/// Asserts these counts of a move of a camera.
fn expect_move(
    rt: &impl Abort,
    alloc: Global,
    settings: Settings,
    from: Point,
    to: Point,
    counts: (usize, usize),
) {
    let before = levels(rt, alloc, settings, &[from]);
    expect_moved(rt, alloc, settings, &before, to, counts);
    drop(before);
}

#[test]
fn tells_which_leaves_come_and_go(rt: HostRuntime) {
    for (depth, reach, from, to, changed, lost) in &MOVES {
        let settings = settings(*depth, *reach);
        let counts = (*changed, *lost);
        expect_move(&rt, rt.alloc(), settings, point(*from), point(*to), counts);
    }
}
