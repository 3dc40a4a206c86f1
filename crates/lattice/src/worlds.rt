//! The laws of how large worlds, nodes and rows of nodes are.

ghost use Rattle.std.specs.Prelude.{ℕ, ◌^◌, ◌≤◌};
ghost use Rattle.lattice.specs.declared.point.Point.{Point};
ghost use Rattle.lattice.specs.declared.region.Region.{Region};
ghost use Rattle.lattice.specs.declared.settings.TheConstants.{MAX_DEPTH, MAX_SIDE};
ghost use Rattle.lattice.specs.Laws.{CornersAreInWorld, NodesAreOfTheDeepest, NodesAreTested, PointsAreOfTheDeepest, PointsAreTested};
ghost use Rattle.lattice.specs.Node.{node_side, nodes_across};
ghost use Rattle.lattice.specs.Point.{IsInWorld};
ghost use Rattle.lattice.specs.Region.{IsRegion, IsWithin};
ghost use Rattle.lattice.specs.Settings.{IsDepth, world_side};

/// The law that no world, node or row of nodes is larger than in a world of the greatest depth.
pub fn sizes_of_worlds()
    ensures side { (depth : ℕ) → IsDepth depth → world_side depth ≤ MAX_SIDE }
    ensures node_side { (level : ℕ) → IsDepth level → node_side level ≤ MAX_SIDE }
    ensures across { (depth level : ℕ) → IsDepth depth → nodes_across depth level ≤ 2 ^ MAX_DEPTH }
    ensures power { (depth : ℕ) → IsDepth depth → 2 ^ depth ≤ 2 ^ MAX_DEPTH }
{}

/// The law that a node or a point of a world is one of a world of the greatest depth, and that a node's corners are
/// points of the world.
pub fn nodes_of_worlds()
    ensures node { NodesAreOfTheDeepest }
    ensures point { PointsAreOfTheDeepest }
    ensures corner { CornersAreInWorld }
    ensures test { NodesAreTested }
{}

/// The law that the test of a point in a box agrees with the fact, and that the points in a box of the world are points
/// of the world.
pub fn points_of_regions()
    ensures test { PointsAreTested }
    ensures world { (depth : ℕ) (box : Region) (p : Point) →
        IsRegion depth box → IsWithin box p → IsInWorld depth p }
{}
