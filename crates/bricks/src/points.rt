//! The samples of a leaf, one point after another: for leaves whose points lie each in a page of its own.

ghost use Rattle.std.specs.Prelude.{◌≡◌, ◌<◌, ◌≤◌, ◌↔◌, ℕ, IsTrue, length, pos, replicate, slice_index_or};
ghost use Rattle.lattice.specs.declared.node.Node.{Node as NodeOf};
ghost use Rattle.lattice.specs.Node.{IsNode};
ghost use Rattle.lattice.specs.Settings.{IsDepth};
ghost use Rattle.lattice.specs.Steps.{point_at};
ghost use Rattle.terrain.specs.Blocks.{leaf_samples};
ghost use Rattle.terrain.specs.Samples.{Field};
ghost use Rattle.field_pages.specs.Pages.{sample_at};
ghost use Rattle.bricks.specs.Parts.{FillsLines, IsLineAt};
ghost use Rattle.bricks.specs.declared.parts.TheConstants.{MAX_PAGE_LEVEL};
ghost use Rattle.bricks.specs.declared.points.TheConstants.{LINE};

use crate::brick::{LEAF_SAMPLES, POINTS};
use crate::parts::MAX_PAGE_LEVEL;
use field_pages::{SIDE, Version};
use lattice::{Node, Point, nodes_of_worlds, point_after};

/// How many samples a line of a leaf has.
pub(crate) const LINE: usize = POINTS as usize;

/// Fills a list with the samples of a leaf whose points lie at corners of pages.
pub(crate) fn fill_points(version: &Version, leaf: Node, samples: &mut [i8])
    requires depth { IsDepth version.now.depth }
    requires leaf { IsNode version.now.depth leaf }
    requires level { MAX_PAGE_LEVEL ≤ leaf.level }
    requires count { length samples.old ≡ LEAF_SAMPLES }
    ensures { samples.new ≡ leaf_samples (sample_at version.now) leaf }
{
    for z in 0..POINTS {
        fill_plane(version, leaf, z, samples);
    }
}

/// Fills the samples of a leaf that lie in one plane.
fn fill_plane(version: &Version, leaf: Node, z: u32, samples: &mut [i8])
    requires depth { IsDepth version.now.depth }
    requires leaf { IsNode version.now.depth leaf }
    requires level { MAX_PAGE_LEVEL ≤ leaf.level }
    requires count { length samples.old ≡ LEAF_SAMPLES }
    requires z { z < POINTS }
    ensures { FillsLines (sample_at version.now) leaf z 0 1 POINTS samples.old samples.new }
{
    for y in 0..POINTS {
        fill_line(version, leaf, z, y, samples);
    }
}

/// Fills one line of a leaf's samples along x.
fn fill_line(version: &Version, leaf: Node, z: u32, y: u32, samples: &mut [i8])
    requires depth { IsDepth version.now.depth }
    requires leaf { IsNode version.now.depth leaf }
    requires level { MAX_PAGE_LEVEL ≤ leaf.level }
    requires count { length samples.old ≡ LEAF_SAMPLES }
    requires z { z < POINTS }
    requires y { y < POINTS }
    ensures { FillsLines (sample_at version.now) leaf z y 1 1 samples.old samples.new }
{
    let line = line_of(version, leaf, z, y);
    put_line(&line, z, y, samples);
}

/// Puts a line of a leaf's samples along x into its place.
#[inline(always)]
pub(crate) fn put_line(line: &[i8; LINE], z: u32, y: u32, samples: &mut [i8])
    requires count { length samples.old ≡ LEAF_SAMPLES }
    requires z { z < POINTS }
    requires y { y < POINTS }
    ensures { (s : Field) (n : NodeOf) → IsLineAt s n z y line.now
        → FillsLines s n z y 1 1 samples.old samples.new }
{
    let to = ((z * POINTS + y) * POINTS) as usize;
    samples[to..to + LINE].copy_from_slice(line);
}

/// Returns one line of a leaf's samples along x, each of which is at the corner of a page.
#[inline(always)]
fn line_of(version: &Version, leaf: Node, z: u32, y: u32) -> [i8; LINE]
    requires depth { IsDepth version.now.depth }
    requires leaf { IsNode version.now.depth leaf }
    requires level { MAX_PAGE_LEVEL ≤ leaf.level }
    requires z { z < POINTS }
    requires y { y < POINTS }
    ensures len { length result ≡ LINE }
    ensures each { (x : ℕ) → x < LINE → slice_index_or result x (pos 0)
        ≡ sample_at version.now (point_at leaf.level leaf (record { z = z; y = y; x = x })) }
{
    nodes_of_worlds();
    let low = leaf.low_corner();
    let corners = version.corners(point_after(low, leaf.level, Point { z, y, x: 0 }));
    let mut line = [0; LINE];
    for x in 0..POINTS {
        let point = point_after(low, leaf.level, Point { z, y, x });
        line[x as usize] = corners[(point.x / SIDE) as usize];
    }
    line
}

/// Returns whether all samples of a leaf are this one. Its points lie at corners of pages.
pub(crate) fn has_even_points(version: &Version, leaf: Node, sample: i8) -> bool
    requires depth { IsDepth version.now.depth }
    requires leaf { IsNode version.now.depth leaf }
    requires level { MAX_PAGE_LEVEL ≤ leaf.level }
    ensures { IsTrue result
        ↔ (replicate LEAF_SAMPLES sample ≡ leaf_samples (sample_at version.now) leaf) }
{
    for line in 0..POINTS * POINTS {
        if !is_even_line(version, leaf, line / POINTS, line % POINTS, sample) {
            return false;
        }
    }
    true
}

/// Returns whether all samples of one line of a leaf along x are this one.
fn is_even_line(version: &Version, leaf: Node, z: u32, y: u32, sample: i8) -> bool
    requires depth { IsDepth version.now.depth }
    requires leaf { IsNode version.now.depth leaf }
    requires level { MAX_PAGE_LEVEL ≤ leaf.level }
    requires z { z < POINTS }
    requires y { y < POINTS }
    ensures { IsTrue result ↔ ((x : ℕ) → x < LINE → sample_at version.now
        (point_at leaf.level leaf (record { z = z; y = y; x = x })) ≡ sample) }
{
    is_all(&line_of(version, leaf, z, y), sample)
}

/// Returns whether all of these samples are this one. It reads them all, so that many are read at once.
fn is_all(samples: &[i8], sample: i8) -> bool
    ensures { IsTrue result ↔ ((k : ℕ) → k < length samples.now →
        slice_index_or samples.now k (pos 0) ≡ sample) }
{
    let mut is_all = true;
    for k in 0..samples.len() {
        is_all &= samples[k] == sample;
    }
    is_all
}
