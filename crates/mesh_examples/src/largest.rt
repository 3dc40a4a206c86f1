//! The largest meshes of a leaf: as many keys, and as many triangles, as its regular cells can have.

ghost use Rattle.std.specs.Prelude.{◌≡◌};
ghost use Rattle.octree.specs.SplitBits.{split_at};
ghost use Rattle.terrain.specs.Levels.{IsBalanced};

use crate::asserts::{expect, expect_made, rely_on};
use block_mesh::{Block, Brick, gather};
use brushes::{Brush, Mode, apply, lawful};
use cells::Cases;
use field_pages::Version;
use lattice::{CELLS, Node, Point, Settings};
use octree::{Levels, choose};
use std::alloc::Global;
use std::process::Abort;

/// The world of one leaf.
const WORLD: Settings = Settings { depth: 0, reach: 0 };

/// A field that repeats after two cells on each axis, and how many keys and triangles its mesh has.
struct Pattern {
    /// The corners of a regular cell whose points are solid, where all coordinates of the cell's low corner are even.
    solid: &'static [u32],
    keys: usize,
    triangles: usize,
}

/// Points that are solid and not in turn: the ends of each of 3 * 16 * 17^2 edges differ, so that each has a key, and
/// each of 16^3 cells has a triangle at each of four corners.
const IN_TURN: Pattern = Pattern {
    solid: &[0, 3, 5, 6],
    keys: 13_872,
    triangles: 16_384,
};

/// Each cell has five triangles, and none can have more. The ends of the edges differ on 81 lines along x, and on 208
/// along y and along z, of 16 edges each.
const MOST_TRIANGLES: Pattern = Pattern {
    solid: &[0, 2, 3, 4, 5],
    keys: 7952,
    triangles: 20_480,
};

/// Returns the field with this point filled too.
fn filled(rt: &impl Abort, alloc: Global, version: &Version, point: Point) -> Version {
    let brush = Brush::Cuboid {
        mode: Mode::Fill,
        lo: point,
        hi: point,
    };
    rely_on(rt, point, version.depth() == WORLD.depth);
    rely_on(rt, point, lawful(&brush, &WORLD));
    expect_made(rt, apply(alloc, version, &brush, &WORLD))
}

/// Fills the points of a row along x that are solid in a pattern.
fn fill_row(rt: &impl Abort, alloc: Global, version: &mut Version, solid: &[u32], y: u32, z: u32) {
    for x in 0..=CELLS {
        let corner = (x & 1) | ((y & 1) << 1) | ((z & 1) << 2);
        if solid.contains(&corner) {
            *version = filled(rt, alloc, version, Point::new(x, y, z));
        }
    }
}

/// Fills the points that are solid in a pattern.
fn fill_rows(rt: &impl Abort, alloc: Global, version: &mut Version, solid: &[u32]) {
    for z in 0..=CELLS {
        for y in 0..=CELLS {
            fill_row(rt, alloc, version, solid, y, z);
        }
    }
}

/// Returns the field of which these corners are solid in each cell of even coordinates.
fn patterned(rt: &impl Abort, alloc: Global, solid: &[u32]) -> Version
    ensures { result.depth ≡ 0 }
{
    let mut version = expect_made(rt, Version::new(alloc, WORLD.depth));
    fill_rows(rt, alloc, &mut version, solid);
    rely_on(rt, "the depth", version.depth() == WORLD.depth);
    version
}

/// Returns the levels of that world.
fn levels(rt: &impl Abort, alloc: Global) -> Levels
    ensures depth { result.depth ≡ 0 }
    ensures balanced { IsBalanced 0 (split_at result) }
{
    expect_made(rt, choose(alloc, &WORLD, &[]))
}

/// Returns the brick of the one leaf.
fn brick_of(rt: &impl Abort, alloc: Global, version: &Version, levels: &Levels) -> Brick
    requires field { version.now.depth ≡ 0 }
    requires depth { levels.now.depth ≡ 0 }
    requires balanced { IsBalanced 0 (split_at levels.now) }
{
    let root = Node::root(WORLD.depth);
    rely_on(rt, root, levels.is_leaf(root));
    expect_made(rt, gather(alloc, version, levels, root))
}

/// Returns the brick of such a field.
fn patterned_brick(rt: &impl Abort, alloc: Global, solid: &[u32]) -> Brick {
    let version = patterned(rt, alloc, solid);
    let levels = levels(rt, alloc);
    let brick = brick_of(rt, alloc, &version, &levels);
    drop((version, levels));
    brick
}

static PATTERNS: [Pattern; 2] = [IN_TURN, MOST_TRIANGLES];

/// Asserts how many keys and triangles the mesh of a pattern has.
fn expect_pattern(rt: &impl Abort, alloc: Global, cases: &Cases, pattern: &Pattern) {
    let brick = patterned_brick(rt, alloc, pattern.solid);
    let block = expect_made(rt, Block::of(alloc, cases, brick));
    let view = block.view();
    let counts = (view.keys.len(), view.positions.len(), view.triangles.len());
    let expected = (pattern.keys, pattern.keys, pattern.triangles);
    drop(block);
    expect(rt, pattern.solid, counts, expected);
}

#[test]
fn meshes_a_leaf_of_the_most_keys_and_triangles(rt: HostRuntime) {
    let cases = expect_made(&rt, Cases::new(rt.alloc()));
    for pattern in &PATTERNS {
        expect_pattern(&rt, rt.alloc(), &cases, pattern);
    }
    drop(cases);
}
