//! Plain data as C sees it.

ghost use Rattle.std.specs.Prelude.{◌≡◌};
ghost use Rattle.terra_c.specs.Shapes.{brush_of_c, c_audit, c_node, c_normal, c_point, c_stats, hit_of_c, mode_of_c, node_of_c, point_of_c};
ghost use Rattle.frame_surface.specs.Scan.{IsSmallHit};

use terra_world::{Audit, Brush, Hit, Mode, Node, Normal, Point, Stats};

/// A point, in fine cells.
#[repr(C)]
#[derive(Clone, Copy, Drop)]
pub struct TerraPoint {
    pub x: u32,
    pub y: u32,
    pub z: u32,
}

/// A brush as numbers: what it is, whether it fills (0) or carves (1), its two corners or its centre, and its radius or
/// its height.
#[repr(C)]
#[derive(Clone, Copy, Drop)]
pub struct TerraBrush {
    /// 0: a box from `lo` to `hi`; 1: a ball at `lo` of radius `size`; 2: the ground up to the height `size`; 3:
    /// smoothing of the points from `lo` to `hi`.
    pub kind: u32,
    pub mode: u32,
    pub lo: TerraPoint,
    pub hi: TerraPoint,
    pub size: u32,
}

/// A node: a cube of side `16 * 2^level` fine cells, whose low corner is (i, j, k) times that side.
#[repr(C)]
#[derive(Clone, Copy, Drop)]
pub struct TerraNode {
    pub i: u32,
    pub j: u32,
    pub k: u32,
    pub level: u8,
}

/// A position, in 1/256 fine cells.
#[repr(C)]
#[derive(Clone, Copy, Drop)]
pub struct TerraVertex {
    pub x: u32,
    pub y: u32,
    pub z: u32,
}

/// A position, in fine cells: exactly that of `TerraVertex`.
#[repr(C)]
#[derive(Clone, Copy, Drop)]
pub struct TerraFloats {
    pub x: f32,
    pub y: f32,
    pub z: f32,
}

/// A normal of a vertex: it is meant to lead to the empty side, has any length, and may be 0.
#[repr(C)]
#[derive(Clone, Copy, Drop)]
pub struct TerraNormal {
    pub x: i32,
    pub y: i32,
    pub z: i32,
}

/// What a pick finds: a leaf, the number of a triangle in its block, from 0, and the height of the highest point, which
/// is `num / den` in 1/256 fine cells.
#[repr(C)]
#[derive(Clone, Copy, Drop)]
pub struct TerraHit {
    pub node: TerraNode,
    pub triangle: u32,
    pub num: u64,
    pub den: u64,
}

/// A triangle: the indices of its vertices, counter-clockwise as seen from the empty side.
#[repr(C)]
#[derive(Clone, Copy, Drop)]
pub struct TerraTriangle {
    pub a: u32,
    pub b: u32,
    pub c: u32,
}

/// A triangle of a block of at most 65,536 vertices.
#[repr(C)]
#[derive(Clone, Copy, Drop)]
pub struct TerraTriangle16 {
    pub a: u16,
    pub b: u16,
    pub c: u16,
}

/// How many vertices and triangles a block has, and where its low corner is, in fine cells.
#[repr(C)]
#[derive(Clone, Copy, Drop)]
pub struct TerraBlock {
    pub vertices: usize,
    pub triangles: usize,
    pub origin: TerraPoint,
}

/// How many events the journal of a frame has, and how many leaves, triangles and keys its blocks have.
#[repr(C)]
#[derive(Clone, Copy, Drop)]
pub struct TerraStats {
    pub events: u64,
    pub leaves: u64,
    pub triangles: u64,
    pub keys: u64,
}

/// How many directed edges the triangles of a frame have, and how many pairs of keys they leave open within the world
/// and on its border.
#[repr(C)]
#[derive(Clone, Copy, Drop)]
pub struct TerraAudit {
    pub edges: u64,
    pub cracks: u64,
    pub border: u64,
}

impl TerraPoint {
    /// Returns a point as C sees it.
    pub(crate) fn of(at: Point) -> TerraPoint
        ensures { result ≡ c_point at }
    {
        TerraPoint {
            x: at.x,
            y: at.y,
            z: at.z,
        }
    }

    /// Returns the point.
    pub(crate) fn point(&self) -> Point
        ensures { result ≡ point_of_c self.now }
    {
        Point::new(self.x, self.y, self.z)
    }
}

impl TerraBrush {
    /// Returns the brush, if the numbers name one.
    pub(crate) fn brush(&self) -> Option<Brush>
        ensures { result ≡ brush_of_c self.now }
    {
        let (lo, hi) = (self.lo.point(), self.hi.point());
        if self.kind == 3 {
            return Some(Brush::Smooth { lo, hi });
        }
        let mode = mode_of(self.mode)?;
        match self.kind {
            0 => Some(Brush::Cuboid { mode, lo, hi }),
            1 => Some(Brush::Ball {
                mode,
                at: lo,
                r: self.size,
            }),
            2 => Some(Brush::Ground { mode, h: self.size }),
            _ => None,
        }
    }
}

/// Returns the mode that a number names.
fn mode_of(number: u32) -> Option<Mode>
    ensures { result ≡ mode_of_c number }
{
    match number {
        0 => Some(Mode::Fill),
        1 => Some(Mode::Carve),
        _ => None,
    }
}

impl TerraNode {
    /// Returns the node.
    pub(crate) fn node(&self) -> Node
        ensures { result ≡ node_of_c self.now }
    {
        Node {
            level: self.level,
            k: self.k,
            j: self.j,
            i: self.i,
        }
    }

    /// Returns a node as C sees it.
    pub(crate) fn of(node: &Node) -> TerraNode
        ensures { result ≡ c_node node.now }
    {
        TerraNode {
            i: node.i,
            j: node.j,
            k: node.k,
            level: node.level,
        }
    }
}

impl TerraNormal {
    /// Returns a normal as C sees it.
    pub(crate) fn of(normal: Normal) -> TerraNormal
        ensures { result ≡ c_normal normal }
    {
        let Normal { x, y, z } = normal;
        TerraNormal { x, y, z }
    }
}

impl TerraHit {
    /// Returns a hit as C sees it.
    pub(crate) fn of(hit: Hit) -> TerraHit
        requires { IsSmallHit hit }
        ensures { hit_of_c result ≡ hit }
    {
        TerraHit {
            node: TerraNode::of(&hit.node),
            triangle: hit.triangle,
            num: hit.num as u64,
            den: hit.den as u64,
        }
    }
}

impl TerraStats {
    /// Returns stats as C sees them.
    pub(crate) fn of(events: usize, stats: Stats) -> TerraStats
        ensures { result ≡ c_stats events stats }
    {
        let Stats {
            leaves,
            triangles,
            keys,
        } = stats;
        TerraStats {
            events: events as u64,
            leaves,
            triangles,
            keys,
        }
    }
}

impl TerraAudit {
    /// Returns an audit as C sees it.
    pub(crate) fn of(audit: Audit) -> TerraAudit
        ensures { result ≡ c_audit audit }
    {
        let Audit {
            edges,
            cracks,
            border,
        } = audit;
        TerraAudit {
            edges,
            cracks,
            border,
        }
    }
}
