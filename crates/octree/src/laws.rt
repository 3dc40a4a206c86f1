//! The laws of the level maps of viewpoints.

ghost use Rattle.std.specs.Prelude.{List};
ghost use Rattle.lattice.specs.declared.point.Point.{Point};
ghost use Rattle.lattice.specs.declared.settings.Settings.{Settings};
ghost use Rattle.terrain.specs.Levels.{IsBalanced, split};
ghost use Rattle.octree.specs.Choice.{SameWantsSplitSame};

/// The law that the level map of viewpoints at any points, and of none, is balanced.
pub fn maps_of_viewpoints_are_balanced()
    ensures { (settings : Settings) (points : List Point)
        → IsBalanced settings.depth (split settings points) }
{}

/// The law that viewpoints which want the same nodes split have the same level map.
pub fn viewpoints_that_want_the_same_split_the_same()
    ensures { SameWantsSplitSame }
{}
