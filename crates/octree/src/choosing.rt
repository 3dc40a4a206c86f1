//! The choice of the level map for viewpoints, level by level from below.

ghost use Rattle.std.specs.Prelude.{◌≡◌, ◌+◌, ◌<◌, ◌≤◌, All, IfOk};
ghost use Rattle.lattice.specs.declared.node.Node.{Node as NodeOf};
ghost use Rattle.lattice.specs.Settings.{IsDepth, IsSettings};
ghost use Rattle.lattice.specs.Node.{nodes_across};
ghost use Rattle.lattice.specs.Point.{IsInWorld};
ghost use Rattle.terrain.specs.Levels.{split, IsBalanced};
ghost use Rattle.octree.specs.SplitBits.{split_at};
ghost use Rattle.octree.specs.Choice.{SplitsWanted, IsLeast};
ghost use Rattle.octree.specs.Growing.{Gains, IsGrown, IsNeeded};
ghost use Rattle.octree.specs.WantedNodes.{IsWantedAt, IsWantedOf, IsInPlane};

use crate::above::above_row;
use crate::indices::Indices;
use crate::levels::Levels;
use crate::rows::bits_among;
use crate::wanted::near_indices;
use lattice::{Point, Settings, nodes_across};
use std::alloc::{AllocError, Global};

/// Returns the level map for viewpoints at these points: the nodes that are wanted split, and those that balance needs
/// split beside them.
///
/// A node is wanted split where its level is at least 1 and twice its distance from one of the points is below reach
/// times its side; without a point no node is. Out of memory is the only error.
pub fn choose(alloc: Global, settings: &Settings, cameras: &[Point]) -> Result<Levels, AllocError>
    requires settings { IsSettings settings.now }
    requires cameras { All (IsInWorld settings.now.depth) cameras.now }
    ensures depth { IfOk result (λ levels. levels.depth ≡ settings.now.depth) }
    ensures split { IfOk result (λ levels.
        (n : NodeOf) → split_at levels n ≡ split settings.now cameras.now n) }

    // The map is balanced, it splits the wanted nodes, and each balanced one that does splits all that it splits.
    ensures balanced { IfOk result (λ levels. IsBalanced settings.now.depth (split_at levels)) }
    ensures wanted { IfOk result (λ levels.
        SplitsWanted settings.now cameras.now (split_at levels)) }
    ensures least { IfOk result (λ levels. IsLeast settings.now cameras.now (split_at levels)) }
{
    let mut levels = Levels::whole(alloc, settings.depth)?;
    for level in 1..settings.depth + 1 {
        split_level(&mut levels, settings, level, cameras);
    }
    Ok(levels)
}

/// Splits the nodes of a level, given the map up to the level below.
fn split_level(levels: &mut Levels, settings: &Settings, level: u8, cameras: &[Point])
    requires settings { IsSettings settings.now }
    requires cameras { All (IsInWorld settings.now.depth) cameras.now }
    requires low { 1 ≤ level }
    requires high { level ≤ settings.now.depth }
    requires grown { IsGrown settings.now cameras.now level levels.old }
    ensures { IsGrown settings.now cameras.now (level + 1) levels.new }
{
    split_above(levels, level);
    split_wanted(levels, settings, level, cameras);
}

/// Splits the nodes of a level that are above split nodes of the level below.
fn split_above(levels: &mut Levels, level: u8)
    requires low { 1 ≤ level }
    requires high { level ≤ levels.old.depth }
    ensures { Gains (IsNeeded levels.old level) levels.old levels.new }
{
    if level == 1 {
        return;
    }
    for k in 0..nodes_across(levels.depth(), level) {
        split_above_plane(levels, level, k);
    }
}

/// Splits the nodes of a plane of a level that are above split nodes of the level below.
fn split_above_plane(levels: &mut Levels, level: u8, k: u32)
    requires low { 1 ≤ level }
    requires high { level ≤ levels.old.depth }
    requires k { k < nodes_across levels.old.depth level }
    ensures { Gains (λ n. IsNeeded levels.old level n × (n.k ≡ k)) levels.old levels.new }
{
    for j in 0..nodes_across(levels.depth(), level) {
        let bits = above_row(&levels.layer(level - 1), k, j);
        levels.split_row(level, k, j, bits);
    }
}

/// Splits the nodes of a level that are wanted split for one of these cameras.
fn split_wanted(levels: &mut Levels, settings: &Settings, level: u8, cameras: &[Point])
    requires settings { IsSettings settings.now }
    requires cameras { All (IsInWorld settings.now.depth) cameras.now }
    requires low { 1 ≤ level }
    requires high { level ≤ settings.now.depth }
    requires depth { levels.old.depth ≡ settings.now.depth }
    ensures { Gains (IsWantedOf settings.now level cameras.now) levels.old levels.new }
{
    for camera in cameras {
        split_near(levels, settings, level, *camera);
    }
}

/// Splits the nodes of a level that are wanted split for a camera.
fn split_near(levels: &mut Levels, settings: &Settings, level: u8, camera: Point)
    requires settings { IsSettings settings.now }
    requires camera { IsInWorld settings.now.depth camera }
    requires low { 1 ≤ level }
    requires high { level ≤ settings.now.depth }
    requires depth { levels.old.depth ≡ settings.now.depth }
    ensures { Gains (IsWantedAt settings.now level camera) levels.old levels.new }
{
    let ks = near_indices(settings, level, camera.z);
    let js = near_indices(settings, level, camera.y);
    let is = near_indices(settings, level, camera.x);
    for k in ks.low..ks.end {
        split_plane(levels, level, k, js, is);
    }
}

/// Splits the nodes of a plane of a level whose j and i are among some indices.
fn split_plane(levels: &mut Levels, level: u8, k: u32, js: Indices, is: Indices)
    requires depth { IsDepth levels.old.depth }
    requires low { 1 ≤ level }
    requires high { level ≤ levels.old.depth }
    requires k { k < nodes_across levels.old.depth level }
    requires j { js.end ≤ nodes_across levels.old.depth level }
    requires i { is.end ≤ nodes_across levels.old.depth level }
    ensures { Gains (IsInPlane level k js is) levels.old levels.new }
{
    let bits = bits_among(is);
    for j in js.low..js.end {
        levels.split_row(level, k, j, bits);
    }
}
