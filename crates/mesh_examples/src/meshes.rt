//! Meshes of leaves beside finer ones, against worked examples.

ghost use Rattle.std.specs.Prelude.{◌≡◌};
ghost use Rattle.terrain.specs.Levels.{IsBalanced};
ghost use Rattle.octree.specs.SplitBits.{split_at};

use crate::asserts::{expect, expect_made, rely_on};
use block_mesh::{Block, BlockView, Brick, Done, gather};
use brushes::{Brush, Mode, apply, lawful};
use cells::Cases;
use field_pages::Version;
use lattice::{Axis, Key, Node, Point, Pos, Settings};
use octree::{Levels, choose};
use std::alloc::Global;
use std::process::Abort;
use std::sync::Arc;

/// The world of depth 2 whose levels are chosen near the camera alone.
const WORLD: Settings = Settings { depth: 2, reach: 1 };

/// A camera for which there are eight leaves of level 0 and seven of level 1.
const ORIGIN: Point = Point { z: 0, y: 0, x: 0 };

/// A camera in the middle of the world.
const CENTRE: Point = Point {
    z: 64,
    y: 64,
    x: 64,
};

/// The leaf of level 0 in the low corner of the world, for a camera at the origin.
const CORNER: Node = Node {
    level: 0,
    k: 0,
    j: 0,
    i: 0,
};

/// The leaf of level 0 that lies before `COARSE` on the axis X.
const FINE: Node = Node {
    level: 0,
    k: 0,
    j: 0,
    i: 1,
};

/// The leaf of level 1 that meets finer leaves across its face at x 32 alone.
const COARSE: Node = Node {
    level: 1,
    k: 0,
    j: 0,
    i: 1,
};

/// The ground up to the height 8.
const GROUND: Brush = Brush::Ground {
    mode: Mode::Fill,
    h: 8,
};

/// Returns a box of one point, filled.
fn one_point(x: u32, y: u32, z: u32) -> Brush {
    let at = Point::new(x, y, z);
    Brush::Cuboid {
        mode: Mode::Fill,
        lo: at,
        hi: at,
    }
}

/// Returns the field after one more brush, which the world has to take.
fn brushed(rt: &impl Abort, alloc: Global, version: &Version, brush: &Brush) -> Version {
    rely_on(rt, *brush, version.depth() == WORLD.depth);
    rely_on(rt, *brush, lawful(brush, &WORLD));
    expect_made(rt, apply(alloc, version, brush, &WORLD))
}

/// Returns the field after some brushes.
pub(crate) fn field(rt: &impl Abort, alloc: Global, brushes: &[Brush]) -> Version
    ensures { result.depth ≡ 2 }
{
    let mut version = expect_made(rt, Version::new(alloc, WORLD.depth));
    for brush in brushes {
        version = brushed(rt, alloc, &version, brush);
    }
    rely_on(rt, "the depth", version.depth() == WORLD.depth);
    version
}

/// Returns the levels for a camera, which has to be in the world.
fn seen_from(rt: &impl Abort, alloc: Global, camera: Point) -> Levels
    ensures depth { result.depth ≡ 2 }
    ensures balanced { IsBalanced 2 (split_at result) }
{
    rely_on(rt, camera, camera.is_in_world(&WORLD));
    expect_made(rt, choose(alloc, &WORLD, &[camera]))
}

/// Returns the brick of a node, which has to be a leaf.
fn brick_of(rt: &impl Abort, alloc: Global, version: &Version, levels: &Levels, leaf: Node) -> Brick
    requires field { version.now.depth ≡ 2 }
    requires depth { levels.now.depth ≡ 2 }
    requires balanced { IsBalanced 2 (split_at levels.now) }
{
    rely_on(rt, leaf, levels.is_leaf(leaf));
    expect_made(rt, gather(alloc, version, levels, leaf))
}

/// Returns that brick with its block.
fn made_of(rt: &impl Abort, alloc: Global, version: &Version, levels: &Levels, leaf: Node) -> Done
    requires field { version.now.depth ≡ 2 }
    requires depth { levels.now.depth ≡ 2 }
    requires balanced { IsBalanced 2 (split_at levels.now) }
{
    let cases = expect_made(rt, Cases::new(alloc));
    let brick = brick_of(rt, alloc, version, levels, leaf);
    let made = expect_made(rt, Done::make(alloc, &cases, brick));
    drop(cases);
    expect(rt, "the node", made.block().node(), leaf);
    made
}

/// Returns the brick of a leaf with its block, after some brushes and for a camera.
fn made(rt: &impl Abort, alloc: Global, brushes: &[Brush], camera: Point, leaf: Node) -> Done {
    let version = field(rt, alloc, brushes);
    let levels = seen_from(rt, alloc, camera);
    let made = made_of(rt, alloc, &version, &levels, leaf);
    drop((version, levels));
    made
}

/// Returns how many keys and triangles the mesh of a leaf has.
fn count(
    rt: &impl Abort,
    alloc: Global,
    version: &Version,
    levels: &Levels,
    leaf: Node,
) -> (usize, usize)
    requires field { version.now.depth ≡ 2 }
    requires depth { levels.now.depth ≡ 2 }
    requires balanced { IsBalanced 2 (split_at levels.now) }
{
    let made = made_of(rt, alloc, version, levels, leaf);
    let view = made.block().view();
    let counts = (view.keys.len(), view.triangles.len());
    drop(made);
    counts
}

/// Returns how many keys and triangles the meshes of some leaves have together.
fn count_all(
    rt: &impl Abort,
    alloc: Global,
    version: &Version,
    levels: &Levels,
    leaves: &[Node],
) -> (usize, usize)
    requires field { version.now.depth ≡ 2 }
    requires depth { levels.now.depth ≡ 2 }
    requires balanced { IsBalanced 2 (split_at levels.now) }
{
    let (mut keys, mut triangles) = (0_usize, 0_usize);
    for leaf in leaves {
        let (more_keys, more_triangles) = count(rt, alloc, version, levels, *leaf);
        keys = keys.saturating_add(more_keys);
        triangles = triangles.saturating_add(more_triangles);
    }
    (keys, triangles)
}

/// Returns how many keys and triangles the meshes of all leaves have together.
fn count_leaves(
    rt: &impl Abort,
    alloc: Global,
    version: &Version,
    levels: &Levels,
) -> (usize, usize)
    requires field { version.now.depth ≡ 2 }
    requires depth { levels.now.depth ≡ 2 }
    requires balanced { IsBalanced 2 (split_at levels.now) }
{
    let leaves = expect_made(rt, levels.leaves(alloc));
    let counts = count_all(rt, alloc, version, levels, &leaves);
    drop(leaves);
    counts
}

/// Asserts how many keys and triangles the meshes of all leaves have on the ground for a camera.
fn expect_ground(rt: &impl Abort, alloc: Global, camera: Point, counts: (usize, usize)) {
    let version = field(rt, alloc, &[GROUND]);
    let levels = seen_from(rt, alloc, camera);
    let found = count_leaves(rt, alloc, &version, &levels);
    drop((version, levels));
    expect(rt, camera, found, counts);
}

fn key(level: u8, x: u32, y: u32, z: u32, axis: Axis) -> Key {
    Key {
        level,
        at: Point::new(x, y, z),
        axis,
    }
}

fn position(x: u32, y: u32, z: u32) -> Pos {
    Pos { x, y, z }
}

/// Asserts the keys and the triangles of a mesh.
fn expect_mesh(rt: &impl Abort, block: BlockView<'_>, keys: &[Key], triangles: &[[u32; 3]]) {
    expect(rt, "the keys", block.keys, keys);
    expect(rt, "the triangles", block.triangles, triangles);
}

/// Asserts the position of a key of a mesh.
fn expect_position(rt: &impl Abort, block: BlockView<'_>, key: Key, position: Pos) {
    let place = block
        .keys
        .iter()
        .position(|k| *k == key)
        .unwrap_or(usize::MAX);
    let found = block.positions.get(place).copied();
    expect(rt, key, found, Some(position));
}

/// Asserts the rim of a leaf, and how many keys and triangles its mesh has.
fn expect_counts(rt: &impl Abort, made: &Done, rim: u32, keys: usize, triangles: usize) {
    let view = made.block().view();
    let counts = (made.brick().rim(), view.keys.len(), view.triangles.len());
    expect(rt, made.block().node(), counts, (rim, keys, triangles));
}

/// A point in the middle of an edge of the coarse leaf.
fn point_on_edge() -> Brush {
    one_point(32, 9, 8)
}

/// Asserts the mesh of the fine leaf beside that point, which has all keys.
fn expect_fine(rt: &impl Abort, alloc: Global, keys: &[Key; 5]) {
    let fine = made(rt, alloc, &[point_on_edge()], ORIGIN, FINE);
    let triangles = [[0, 1, 2], [0, 2, 3], [1, 4, 2], [2, 4, 3]];
    expect_mesh(rt, fine.block().view(), keys, &triangles);
    drop(fine);
}

/// Asserts the keys, the triangles and the positions of the coarse leaf: no edge of it is crossed, so that its two
/// triangles are those of transition cells.
fn expect_transitions(rt: &impl Abort, coarse: BlockView<'_>, keys: &[Key; 5]) {
    let [first, second, _, fourth, fifth] = *keys;
    let triangles = [[0, 1, 2], [2, 1, 3]];
    expect_mesh(rt, coarse, &[first, fourth, second, fifth], &triangles);
    let positions = [
        position(8192, 2304, 1920),
        position(8192, 2432, 2048),
        position(8192, 2176, 2048),
        position(8192, 2304, 2176),
    ];
    expect(rt, "the positions", coarse.positions, &positions);
}

/// Asserts the mesh of the coarse leaf at that point, by the keys of the fine one.
fn expect_coarse(rt: &impl Abort, alloc: Global, keys: &[Key; 5]) {
    let coarse = made(rt, alloc, &[point_on_edge()], ORIGIN, COARSE);
    expect_transitions(rt, coarse.block().view(), keys);
    drop(coarse);
}

#[test]
fn meshes_the_middle_of_a_coarse_edge(rt: HostRuntime) {
    let keys = [
        key(0, 32, 9, 7, Axis::Z),
        key(0, 32, 8, 8, Axis::Y),
        key(0, 31, 9, 8, Axis::X),
        key(0, 32, 9, 8, Axis::Y),
        key(0, 32, 9, 8, Axis::Z),
    ];
    expect_fine(&rt, rt.alloc(), &keys);
    expect_coarse(&rt, rt.alloc(), &keys);
}

/// Asserts where two keys of the coarse leaf lie on the ground: beside finer leaves a key moves by a quarter of its
/// cell; where a finer leaf meets three coarse ones it stays.
fn expect_moves(rt: &impl Abort, coarse: BlockView<'_>) {
    let beside = key(1, 32, 16, 8, Axis::Z);
    expect_position(rt, coarse, beside, position(8320, 4096, 2176));
    let between = key(1, 32, 32, 8, Axis::Z);
    expect_position(rt, coarse, between, position(8192, 8192, 2176));
}

#[test]
fn meshes_the_ground_across_two_levels(rt: HostRuntime) {
    expect_ground(&rt, rt.alloc(), ORIGIN, (2089, 3680));
    let coarse = made(&rt, rt.alloc(), &[GROUND], ORIGIN, COARSE);
    expect_moves(&rt, coarse.block().view());
    drop(coarse);
}

/// Returns whether a mesh begins with the keys and the triangles of another.
fn begins_with(one: BlockView<'_>, other: BlockView<'_>) -> bool {
    one.keys.starts_with(other.keys) && one.triangles.starts_with(other.triangles)
}

/// Asserts that the coarse leaf has no transition cells on the ground for a camera in the middle, and that its mesh for
/// another one begins alike.
fn expect_left_off(rt: &impl Abort, alloc: Global, near: &Done) {
    let far = made(rt, alloc, &[GROUND], CENTRE, COARSE);
    expect_counts(rt, &far, 16_777_216, 289, 512);
    let is_same = begins_with(near.block().view(), far.block().view());
    drop(far);
    expect(rt, "begins alike", is_same, true);
}

#[test]
fn leaves_off_transition_cells_where_the_rim_changes(rt: HostRuntime) {
    let near = made(&rt, rt.alloc(), &[GROUND], ORIGIN, COARSE);
    expect_counts(&rt, &near, 4096, 289 + 33, 512 + 48);
    expect_left_off(&rt, rt.alloc(), &near);
    drop(near);
    expect_ground(&rt, rt.alloc(), CENTRE, (1156, 2048));
}

/// Asserts whether a brick is still its leaf's after some brushes and for a camera.
fn expect_match(
    rt: &impl Abort,
    alloc: Global,
    brick: &Brick,
    brushes: &[Brush],
    camera: Point,
    is_same: bool,
) {
    let version = field(rt, alloc, brushes);
    let levels = seen_from(rt, alloc, camera);
    let found = brick.matches(&version, &levels);
    drop((version, levels));
    expect(rt, (brushes, camera), found, is_same);
}

/// Asserts that the brick of the coarse leaf on the ground is not its own for a camera in the middle.
fn expect_other_rim(rt: &impl Abort, alloc: Global) {
    let near = made(rt, alloc, &[GROUND], ORIGIN, COARSE);
    expect_match(rt, alloc, near.brick(), &[GROUND], CENTRE, false);
    drop(near);
}

/// Asserts whether the brick of the leaf in the corner is still its own: after a point in the leaf, after one off it,
/// and for a camera for which it is no leaf.
fn expect_corner(rt: &impl Abort, alloc: Global) {
    let corner = made(rt, alloc, &[], ORIGIN, CORNER);
    let brick = corner.brick();
    expect_match(rt, alloc, brick, &[one_point(8, 8, 8)], ORIGIN, false);
    expect_match(rt, alloc, brick, &[one_point(48, 48, 48)], ORIGIN, true);
    expect_match(rt, alloc, brick, &[], CENTRE, false);
    drop(corner);
}

#[test]
fn a_brick_matches_until_its_leaf_changes(rt: HostRuntime) {
    expect_other_rim(&rt, rt.alloc());
    expect_corner(&rt, rt.alloc());
}

/// Threads share what is done.
fn is_shared<T: Send + Sync>() {}

#[test]
fn threads_share_bricks_with_their_meshes() {
    is_shared::<Arc<Block>>();
}
