//! The bytes of fields: points, nodes, vertices, triangles, and the counts before lists.

ghost use Rattle.std.specs.Prelude.{◌≡◌, ℕ, ◌∷◌, ◌++◌, ◌^◌, ◌<◌};
ghost use Rattle.replicas.specs.Fits.{FitsKey, FitsNode, FitsPoint};
ghost use Rattle.replicas.specs.Grammar.{axis_byte, four, head_bytes, mode_byte, node_bytes, patch_tag, point_bytes, triangle_bytes, vertex_bytes};

use lattice::{Axis, Key, Node, Point, Pos, Settings};
use replicas::PATCH_TAG;
use terrain::Mode;

/// Returns the head of a wire in a world of these settings.
#[tactic(auto, unfolding(replicas::specs::Grammar::head_bytes))]
pub(crate) fn head_bytes(settings: &Settings) -> [u8; 10]
    ensures { result ≡ head_bytes settings.now }
{
    let [t, e, r, r2, a, p, w, one] = *b"TERRAPW1";
    [t, e, r, r2, a, p, w, one, settings.depth, settings.reach]
}

/// Returns the head of a patch: its tag, its base, and how many events, gone nodes and blocks it has.
#[tactic(auto, unfolding(replicas::specs::Grammar::four))]
pub(crate) fn counts_bytes(base: u32, events: u32, gone: u32, blocks: u32) -> [u8; 17]
    ensures { result ≡ patch_tag ∷ four base ++ four events ++ four gone ++ four blocks }
{
    let [base0, base1, base2, base3] = base.to_le_bytes();
    let [events0, events1, events2, events3] = events.to_le_bytes();
    let [gone0, gone1, gone2, gone3] = gone.to_le_bytes();
    let [blocks0, blocks1, blocks2, blocks3] = blocks.to_le_bytes();
    [
        PATCH_TAG, base0, base1, base2, base3, events0, events1, events2, events3, gone0, gone1,
        gone2, gone3, blocks0, blocks1, blocks2, blocks3,
    ]
}

/// Returns the bytes of a point.
#[tactic(auto, unfolding(replicas::specs::Grammar::point_bytes, replicas::specs::Grammar::two))]
pub(crate) fn point_bytes(p: Point) -> [u8; 6]
    requires { FitsPoint p }
    ensures { result ≡ point_bytes p }
{
    let [x0, x1] = (p.x as u16).to_le_bytes();
    let [y0, y1] = (p.y as u16).to_le_bytes();
    let [z0, z1] = (p.z as u16).to_le_bytes();
    [x0, x1, y0, y1, z0, z1]
}

/// Returns the bytes of a node.
#[tactic(auto, unfolding(replicas::specs::Grammar::node_bytes, replicas::specs::Grammar::two))]
pub(crate) fn node_bytes(n: Node) -> [u8; 7]
    requires { FitsNode n }
    ensures { result ≡ node_bytes n }
{
    let [i0, i1] = (n.i as u16).to_le_bytes();
    let [j0, j1] = (n.j as u16).to_le_bytes();
    let [k0, k1] = (n.k as u16).to_le_bytes();
    [n.level, i0, i1, j0, j1, k0, k1]
}

/// Returns the head of a block: its node, and how many keys and triangles it has.
#[tactic(auto, unfolding(replicas::specs::Grammar::four))]
pub(crate) fn block_head_bytes(n: Node, keys: u32, triangles: u32) -> [u8; 15]
    requires { FitsNode n }
    ensures { result ≡ node_bytes n ++ four keys ++ four triangles }
{
    let [level, i0, i1, j0, j1, k0, k1] = node_bytes(n);
    let [keys0, keys1, keys2, keys3] = keys.to_le_bytes();
    let [triangles0, triangles1, triangles2, triangles3] = triangles.to_le_bytes();
    [
        level, i0, i1, j0, j1, k0, k1, keys0, keys1, keys2, keys3, triangles0, triangles1,
        triangles2, triangles3,
    ]
}

/// Returns the bytes of a key and the position of its vertex.
#[inline(always)]
#[tactic(auto, unfolding(replicas::specs::Grammar::vertex_bytes, replicas::specs::Grammar::four))]
pub(crate) fn vertex_bytes(key: &Key, at: &Pos) -> [u8; 20]
    requires { FitsKey key.now }
    ensures { result ≡ vertex_bytes (key.now, at.now) }
{
    let [kx0, kx1, ky0, ky1, kz0, kz1] = point_bytes(key.at);
    let [x0, x1, x2, x3] = at.x.to_le_bytes();
    let [y0, y1, y2, y3] = at.y.to_le_bytes();
    let [z0, z1, z2, z3] = at.z.to_le_bytes();
    [
        key.level,
        axis_byte(key.axis),
        kx0,
        kx1,
        ky0,
        ky1,
        kz0,
        kz1,
        x0,
        x1,
        x2,
        x3,
        y0,
        y1,
        y2,
        y3,
        z0,
        z1,
        z2,
        z3,
    ]
}

/// Returns the bytes of a triangle.
#[inline(always)]
#[tactic(auto, unfolding(replicas::specs::Grammar::triangle_bytes, replicas::specs::Grammar::four))]
pub(crate) fn triangle_bytes(places: &[u32; 3]) -> [u8; 12]
    ensures { result ≡ triangle_bytes places.now }
{
    let [a, b, c] = *places;
    let [a0, a1, a2, a3] = a.to_le_bytes();
    let [b0, b1, b2, b3] = b.to_le_bytes();
    let [c0, c1, c2, c3] = c.to_le_bytes();
    [a0, a1, a2, a3, b0, b1, b2, b3, c0, c1, c2, c3]
}

/// Returns the byte of an axis.
fn axis_byte(axis: Axis) -> u8
    ensures { result ≡ axis_byte axis }
{
    match axis {
        Axis::X => 0,
        Axis::Y => 1,
        Axis::Z => 2,
    }
}

/// Returns the byte of a mode.
pub(crate) fn mode_byte(mode: Mode) -> u8
    ensures { result ≡ mode_byte mode }
{
    match mode {
        Mode::Fill => 0,
        Mode::Carve => 1,
    }
}
