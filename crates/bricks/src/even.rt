//! Leaves all of whose points have one sample, or samples of one sign, as their pages tell.
//!
//! A leaf's cube meets a whole number of pages. `is_even_leaf` and `is_plain_leaf` go over them, layer by layer and row
//! by row, to the first one that lacks what all are asked to have in common (`Likeness`).

ghost use Rattle.std.specs.Prelude.{◌≡◌, ◌+◌, ◌-◌, ◌*◌, ◌%◌, ◌≤◌, ◌^◌, IsTrue};
ghost use Rattle.lattice.specs.declared.point.Point.{Point as PointOf};
ghost use Rattle.lattice.specs.declared.settings.TheConstants.{MAX_DEPTH};
ghost use Rattle.lattice.specs.Node.{IsNode, cube};
ghost use Rattle.lattice.specs.Point.{IsInWorld};
ghost use Rattle.lattice.specs.Region.{IsWithin};
ghost use Rattle.lattice.specs.Settings.{IsDepth};
ghost use Rattle.field_pages.specs.Pages.{sample_at};
ghost use Rattle.field_pages.specs.Places.{IsInSamePage};
ghost use Rattle.bricks.specs.Even.{HasLikeness, IsEvenLeaf, IsInPageLayer, IsInPageRow, IsPlainLeaf};

use crate::parts::MAX_PAGE_LEVEL;
use field_pages::{SIDE, Version};
use lattice::{Axis, Node, Point, nodes_of_worlds};

/// What samples have in common.
#[derive(Clone, Copy)]
enum Likeness {
    /// All are this one.
    Sample(i8),
    /// All are solid, or none is.
    Sign(bool),
}

/// Returns whether all pages that a leaf's cube meets are even, and have the same sample. Most leaves that a surface
/// crosses are told by two corners alone.
pub(crate) fn is_even_leaf(version: &Version, leaf: Node) -> bool
    requires depth { IsDepth version.now.depth }
    requires leaf { IsNode version.now.depth leaf }
    ensures { IsTrue result → IsEvenLeaf (sample_at version.now) leaf }
{
    nodes_of_worlds();
    let sample = version.sample(leaf.low_corner());
    sample == version.sample(leaf.high_corner())
        && has_alike_pages(version, leaf, Likeness::Sample(sample))
}

/// Returns whether all samples of the pages that a leaf's cube meets are solid, or none is, so that no surface crosses
/// the leaf. It reads the samples of two corners alone. Of a leaf whose points each have a page of their own it returns
/// false, since its pages tell no more than its samples.
pub fn is_plain_leaf(version: &Version, leaf: Node) -> bool
    requires depth { IsDepth version.now.depth }
    requires leaf { IsNode version.now.depth leaf }
    ensures { IsTrue result → IsPlainLeaf (sample_at version.now) leaf }
{
    if leaf.level >= MAX_PAGE_LEVEL {
        return false;
    }
    nodes_of_worlds();
    let solid = version.sample(leaf.low_corner()) < 0;
    solid == (version.sample(leaf.high_corner()) < 0)
        && has_alike_pages(version, leaf, Likeness::Sign(solid))
}

/// Returns whether all pages that a leaf's cube meets have a likeness.
fn has_alike_pages(version: &Version, leaf: Node, likeness: Likeness) -> bool
    requires depth { IsDepth version.now.depth }
    requires leaf { IsNode version.now.depth leaf }
    ensures { IsTrue result → (p : PointOf) → IsWithin (cube leaf) p
        → HasLikeness likeness (sample_at version.now p) }
{
    nodes_of_worlds();
    let low = leaf.low_corner();
    let pages = (1 << leaf.level) + 1;
    for page in 0..pages {
        let from = low.moved(Axis::Z, SIDE * page);
        if !is_alike_layer(version, from, pages, likeness) {
            return false;
        }
    }
    true
}

/// Returns whether so many pages along y and along x, the first of which begins at a point, have a likeness.
fn is_alike_layer(version: &Version, from: Point, pages: u32, likeness: Likeness) -> bool
    requires depth { IsDepth version.now.depth }
    requires some { 1 ≤ pages }
    requires few { pages ≤ 2 ^ MAX_DEPTH + 1 }
    requires y { from.y % SIDE ≡ 0 }
    requires x { from.x % SIDE ≡ 0 }
    requires last { IsInWorld version.now.depth (record {
      z = from.z;
      y = from.y + SIDE * pages - SIDE;
      x = from.x + SIDE * pages - SIDE;
    }) }
    ensures { IsTrue result → (p : PointOf) → IsInPageLayer from pages p
        → HasLikeness likeness (sample_at version.now p) }
{
    for page in 0..pages {
        if !is_alike_row(version, from.moved(Axis::Y, SIDE * page), pages, likeness) {
            return false;
        }
    }
    true
}

/// Returns whether so many pages along x, the first of which begins at a point, have a likeness.
fn is_alike_row(version: &Version, from: Point, pages: u32, likeness: Likeness) -> bool
    requires depth { IsDepth version.now.depth }
    requires some { 1 ≤ pages }
    requires few { pages ≤ 2 ^ MAX_DEPTH + 1 }
    requires x { from.x % SIDE ≡ 0 }
    requires last { IsInWorld version.now.depth (record {
      z = from.z;
      y = from.y;
      x = from.x + SIDE * pages - SIDE;
    }) }
    ensures { IsTrue result → (p : PointOf) → IsInPageRow from pages p
        → HasLikeness likeness (sample_at version.now p) }
{
    for page in 0..pages {
        let point = from.moved(Axis::X, SIDE * page);
        if !is_alike_page(version, point, likeness) {
            return false;
        }
    }
    true
}

/// Returns whether the page in which a point lies has a likeness.
fn is_alike_page(version: &Version, point: Point, likeness: Likeness) -> bool
    requires { IsInWorld version.now.depth point }
    ensures { IsTrue result → (p : PointOf) → IsInSamePage point p
        → HasLikeness likeness (sample_at version.now p) }
{
    match likeness {
        Likeness::Sample(sample) => version.has_alone(point, sample),
        Likeness::Sign(solid) => version.has_sign(point, solid),
    }
}
