//! The opening frame.

ghost use Rattle.snapshots.specs.Frame.{IsSound};

use crate::asserts::{expect, expect_made};
use block_mesh::BlockView;
use cells::Cases;
use lattice::{Node, Settings};
use snapshots::{Frame, Stats};
use std::process::Abort;

/// The world of depth 1 in which no camera is near.
const SMALL: Settings = Settings { depth: 1, reach: 0 };

/// A node of the lowest level of that world.
const LOWEST: Node = Node {
    level: 0,
    k: 0,
    j: 0,
    i: 1,
};

/// The root, and the node above it, which isn't in that world.
const ROOT: Node = Node {
    level: 1,
    k: 0,
    j: 0,
    i: 0,
};

const ABOVE: Node = Node {
    level: 2,
    k: 0,
    j: 0,
    i: 0,
};

/// Nodes, and how many keys and triangles the block of each has, if there is one.
static BLOCKS: [(Node, Option<(usize, usize)>); 3] = [
    (ROOT, Some((0, 0))),
    (LOWEST, None),
    (ABOVE, None),
];

/// What that frame's meshes come to.
const STATS: Stats = Stats {
    leaves: 1,
    triangles: 0,
    keys: 0,
};

/// Returns how many keys and triangles a block has.
fn lengths(block: BlockView<'_>) -> (usize, usize) {
    (block.keys.len(), block.triangles.len())
}

/// Asserts what the blocks of the opening frame have, and the frame's counts.
fn expect_blocks(rt: &impl Abort, frame: &Frame)
    requires { IsSound frame.now }
{
    for (node, expected) in &BLOCKS {
        expect(rt, *node, frame.block(*node).map(lengths), *expected);
    }
    expect(rt, "the stats", frame.stats(), STATS);
}

/// Asserts what else the opening frame has.
fn expect_world(rt: &impl Abort, frame: &Frame)
    requires { IsSound frame.now }
{
    expect(rt, "the settings", *frame.settings(), SMALL);
    expect(rt, "the events", frame.events().len(), 0);
    expect(rt, "the depth", frame.version().depth(), 1);
    let is_leaf = frame.levels().is_leaf(ROOT);
    expect(rt, "the root is a leaf", is_leaf, true);
}

#[test]
fn opens_with_the_root_as_its_one_leaf(rt: HostRuntime) {
    let cases = expect_made(&rt, Cases::new(rt.alloc()));
    let frame = expect_made(&rt, Frame::opening(rt.alloc(), &cases, SMALL));
    expect_world(&rt, &frame);
    expect_blocks(&rt, &frame);
    drop((cases, frame));
}
