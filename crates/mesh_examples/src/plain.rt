//! Leaves that no surface crosses, as their pages tell.

use crate::asserts::{expect, rely_on};
use crate::meshes::field;
use bricks::is_plain_leaf;
use brushes::{Brush, Mode};
use field_pages::Version;
use lattice::Node;
use std::process::Abort;

/// The ground up to the height 34, in the third of five layers of pages. The samples of the second differ, as its
/// highest points are near the surface, and all are solid.
const GROUND: Brush = Brush::Ground {
    mode: Mode::Fill,
    h: 34,
};

/// The lowest leaf of level 0, in the first two layers of pages.
const IN_THE_GROUND: Node = Node {
    level: 0,
    k: 0,
    j: 0,
    i: 0,
};

/// The leaf from the height 32 to 48, whose low corner is solid and whose high one isn't.
const CROSSED: Node = Node {
    level: 0,
    k: 2,
    j: 0,
    i: 0,
};

/// The highest leaf, in the last two layers, of which the very last has points past the world's end.
const IN_THE_AIR: Node = Node {
    level: 0,
    k: 3,
    j: 0,
    i: 0,
};

/// Leaves, each with whether its pages tell that no surface crosses it.
static LEAVES: [(Node, bool); 3] = [(IN_THE_GROUND, true), (CROSSED, false), (IN_THE_AIR, true)];

/// Returns whether the pages of a leaf tell that no surface crosses it. The leaf has to be in the world.
fn is_told(rt: &impl Abort, version: &Version, leaf: Node) -> bool {
    rely_on(rt, leaf, leaf.is_in_world(version.depth()));
    is_plain_leaf(version, leaf)
}

/// Asserts what is told of all these leaves.
fn expect_leaves(rt: &impl Abort, version: &Version) {
    for (leaf, expected) in &LEAVES {
        expect(rt, *leaf, is_told(rt, version, *leaf), *expected);
    }
}

#[test]
fn tells_leaves_that_no_surface_crosses(rt: HostRuntime) {
    let version = field(&rt, rt.alloc(), &[GROUND]);
    expect_leaves(&rt, &version);
    drop(version);
}
