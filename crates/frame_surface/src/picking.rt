//! Picks: the highest point of a frame's surface over a place.
//!
//! Only the column of nodes over the place is looked at, level by level in the order of nodes, so that the first of
//! several triangles that have the highest point is found first. All other leaves lie beside the place
//! (`surfaces_stand_over_their_nodes`).

ghost use Rattle.std.specs.Prelude.{◌≡◌, ◌+◌, ◌*◌, ◌<◌, ◌≤◌, ℕ, IfNone, IfSome};
ghost use Rattle.lattice.specs.Node.{IsNode, nodes_across};
ghost use Rattle.lattice.specs.Settings.{IsDepth, world_side};
ghost use Rattle.lattice.specs.declared.point.TheConstants.{UNITS};
ghost use Rattle.snapshots.specs.Frame.{IsSound};
ghost use Rattle.frame_surface.specs.Best.{IsBare, IsEarliest, IsHighest, IsReached};
ghost use Rattle.frame_surface.specs.Columns.{HoldsPlace, IsColumn, IsIndex};
ghost use Rattle.frame_surface.specs.Scan.{IsBestBefore, IsSmallHit};
ghost use Rattle.frame_surface.specs.Surface.{surface_after};
ghost use Rattle.frame_surface.specs.Turns.{IsSpot};

use crate::hit::Hit;
use crate::laws::surfaces_stand_over_their_nodes;
use crate::scanning::scan;
use crate::spot::Spot;
use block_mesh::fine_points_stay;
use cell_laws::{keys_are_told_apart, triangles_are_few};
use lattice::{Node, UNITS, node_side, nodes_across};
use octree::{Indices, maps_of_viewpoints_are_balanced};
use snapshots::Frame;

/// Returns the highest point of the frame's surface over the place (x, y), in units of 1/256 fine cell, and the first
/// triangle that has it, in the order of nodes and of each leaf's mesh; `None` where no triangle covers any height
/// there.
///
/// Triangles that stand upright and those without area count as all others, and each with its border. It takes no
/// memory.
pub fn pick(frame: &Frame, x: u32, y: u32) -> Option<Hit>
    requires sound { IsSound frame.now }
    requires x { x ≤ UNITS * world_side frame.now.settings.depth }
    requires y { y ≤ UNITS * world_side frame.now.settings.depth }
    ensures reached { IfSome result
        (IsReached (surface_after frame.now.settings frame.now.events) x y) }
    ensures highest { IfSome result
        (IsHighest (surface_after frame.now.settings frame.now.events) x y) }
    ensures first { IfSome result
        (IsEarliest (surface_after frame.now.settings frame.now.events) x y) }
    ensures none { IfNone result
        (IsBare (surface_after frame.now.settings frame.now.events) x y) }
    ensures small { IfSome result IsSmallHit }
{
    surfaces_stand_over_their_nodes();
    let at = Spot { x, y };
    let mut best = None;
    for level in 0..frame.settings().depth + 1 {
        best = scan_level(frame, at, level, best);
    }
    best
}

/// The nodes of a level over a place, by their indices along y and x.
#[derive(Clone, Copy)]
struct Column {
    level: u8,
    js: Indices,
    is: Indices,
}

/// Returns the best hit among all triangles of leaves up to a level, by that among those below it.
fn scan_level(frame: &Frame, at: Spot, level: u8, best: Option<Hit>) -> Option<Hit>
    requires sound { IsSound frame.now }
    requires at { IsSpot at }
    requires level { level ≤ frame.now.settings.depth }
    requires small { IfSome best IsSmallHit }
    requires best { IsBestBefore (surface_after frame.now.settings frame.now.events) at.x at.y
        (record { level = level; k = 0; j = 0; i = 0 }) 0 best }
    ensures best { IsBestBefore (surface_after frame.now.settings frame.now.events) at.x at.y
        (record { level = level + 1; k = 0; j = 0; i = 0 }) 0 result }
    ensures small { IfSome result IsSmallHit }
{
    surfaces_stand_over_their_nodes();
    let depth = frame.settings().depth;
    let column = Column {
        level,
        js: indices_over(depth, level, at.y),
        is: indices_over(depth, level, at.x),
    };
    let mut best = best;
    for k in 0..nodes_across(depth, level) {
        best = scan_layer(frame, at, column, k, best);
    }
    best
}

/// Returns the best hit among all triangles of leaves up to a layer of nodes of a level, by that among those before it.
fn scan_layer(frame: &Frame, at: Spot, column: Column, k: u32, best: Option<Hit>) -> Option<Hit>
    requires sound { IsSound frame.now }
    requires at { IsSpot at }
    requires column { IsColumn frame.now.settings.depth at column }
    requires k { k < nodes_across frame.now.settings.depth column.level }
    requires small { IfSome best IsSmallHit }
    requires best { IsBestBefore (surface_after frame.now.settings frame.now.events) at.x at.y
        (record { level = column.level; k = k; j = 0; i = 0 }) 0 best }
    ensures best { IsBestBefore (surface_after frame.now.settings frame.now.events) at.x at.y
        (record { level = column.level; k = k + 1; j = 0; i = 0 }) 0 result }
    ensures small { IfSome result IsSmallHit }
{
    surfaces_stand_over_their_nodes();
    let mut best = best;
    for j in column.js.low..column.js.end {
        best = scan_row(frame, at, column, k, j, best);
    }
    best
}

/// Returns the best hit among all triangles of leaves up to a row of nodes of a level, by that among those before it.
fn scan_row(
    frame: &Frame,
    at: Spot,
    column: Column,
    k: u32,
    j: u32,
    best: Option<Hit>,
) -> Option<Hit>
    requires sound { IsSound frame.now }
    requires at { IsSpot at }
    requires column { IsColumn frame.now.settings.depth at column }
    requires k { k < nodes_across frame.now.settings.depth column.level }
    requires j { j < nodes_across frame.now.settings.depth column.level }
    requires small { IfSome best IsSmallHit }
    requires best { IsBestBefore (surface_after frame.now.settings frame.now.events) at.x at.y
        (record { level = column.level; k = k; j = j; i = 0 }) 0 best }
    ensures best { IsBestBefore (surface_after frame.now.settings frame.now.events) at.x at.y
        (record { level = column.level; k = k; j = j + 1; i = 0 }) 0 result }
    ensures small { IfSome result IsSmallHit }
{
    surfaces_stand_over_their_nodes();
    let mut best = best;
    for i in column.is.low..column.is.end {
        let level = column.level;
        best = scan_node(frame, at, Node { level, k, j, i }, best);
    }
    best
}

/// Returns the best hit among all triangles of leaves up to a node, by that among those before it.
fn scan_node(frame: &Frame, at: Spot, node: Node, best: Option<Hit>) -> Option<Hit>
    requires sound { IsSound frame.now }
    requires at { IsSpot at }
    requires node { IsNode frame.now.settings.depth node }
    requires small { IfSome best IsSmallHit }
    requires best { IsBestBefore (surface_after frame.now.settings frame.now.events) at.x at.y
        node 0 best }
    ensures best { IsBestBefore (surface_after frame.now.settings frame.now.events) at.x at.y
        (record node { i = node.i + 1 }) 0 result }
    ensures small { IfSome result IsSmallHit }
{
    keys_are_told_apart();
    fine_points_stay();
    maps_of_viewpoints_are_balanced();
    triangles_are_few();
    match frame.block(node) {
        None => best,
        Some(view) => scan(view, node, at, best),
    }
}

/// Returns the indices of the nodes of a level whose closed ranges hold a coordinate, on one axis.
fn indices_over(depth: u8, level: u8, at: u32) -> Indices
    requires depth { IsDepth depth }
    requires level { level ≤ depth }
    ensures within { result.end ≤ nodes_across depth level }
    ensures order { result.low ≤ result.end }
    ensures each { (index : ℕ) → index < nodes_across depth level → HoldsPlace level index at
        → IsIndex result index }
{
    let side = UNITS * node_side(level);
    let across = nodes_across(depth, level);
    let end = (at / side + 1).min(across);
    Indices {
        low: (at.saturating_sub(1) / side).min(end),
        end,
    }
}
