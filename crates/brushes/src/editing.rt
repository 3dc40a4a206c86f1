//! Where a brush works, and the version after it.

ghost use Rattle.std.specs.Prelude.{◌≡◌, ◌≤◌, ◌+◌, ℤ, IfOk};
ghost use Rattle.lattice.specs.declared.point.Point.{Point as PointOf};
ghost use Rattle.lattice.specs.Point.{IsInWorld};
ghost use Rattle.lattice.specs.Region.{IsRegion, IsWithin};
ghost use Rattle.lattice.specs.Settings.{IsDepth, IsSettings};
ghost use Rattle.terrain.specs.declared.brush.Brush.TheVariants.{Smooth};
ghost use Rattle.terrain.specs.Brushes.{IsLawful, after_brush, grown, region};
ghost use Rattle.brushes.specs.Brushed.{IsBrushed};
ghost use Rattle.field_pages.specs.Kept.{AreChanged};
ghost use Rattle.field_pages.specs.Pages.{sample_at};

use crate::ball::BallShape;
use crate::fill_carve::FillCarve;
use crate::shape::{CuboidShape, GroundShape, Shape};
use crate::smoothing::Smoothing;
use field_laws::{brushes_keep_samples_off_their_region, brushes_read_only_the_world};
use field_pages::{Kept, Rule, SIDE, Version};
use lattice::{
    MAX_SIDE, Point, Region, Settings, node_side, nodes_of_worlds, points_of_regions,
    sizes_of_worlds,
};
use std::alloc::{AllocError, Global};
use terrain::{Brush, MARGIN, Mode};

/// Returns the box of points off which a brush changes no sample: a cuboid grown by `MARGIN` on
/// each side, a ball's centre grown by its radius and `MARGIN`, all points up to `MARGIN` above a
/// ground, and a smoothing's own box, each clamped to the world.
pub fn region(brush: &Brush, settings: &Settings) -> Region
    requires settings { IsSettings settings.now }
    requires lawful { IsLawful settings.now.depth brush.now }
    ensures { result ≡ region settings.now.depth brush.now }
{
    let side = settings.world_side();
    match *brush {
        Brush::Cuboid { lo, hi, .. } => grown_box(settings, MARGIN, lo, hi),
        Brush::Ball { at, r, .. } => grown_box(settings, r + MARGIN, at, at),
        Brush::Ground { h, .. } => Region {
            lo: Point::new(0, 0, 0),
            hi: Point::new(side, side, (h + MARGIN).min(side)),
        },
        Brush::Smooth { lo, hi } => Region { lo, hi },
    }
}

/// Returns a new version, to which a brush was applied; the old one stays as it is.
///
/// Out of memory is the only error.
pub fn apply(
    alloc: Global,
    version: &Version,
    brush: &Brush,
    settings: &Settings,
) -> Result<Version, AllocError>
    requires settings { IsSettings settings.now }
    requires lawful { IsLawful settings.now.depth brush.now }
    requires depth { version.now.depth ≡ settings.now.depth }
    ensures { IfOk result (IsBrushed brush.now version.now) }
{
    let (new, _kept) = apply_kept(alloc, version, brush, settings)?;
    Ok(new)
}

/// Does the same as `apply`, and keeps just the pages in which a sample changed, as they were. To restore them into the
/// new version makes the old one.
pub fn apply_kept(
    alloc: Global,
    version: &Version,
    brush: &Brush,
    settings: &Settings,
) -> Result<(Version, Kept), AllocError>
    requires settings { IsSettings settings.now }
    requires lawful { IsLawful settings.now.depth brush.now }
    requires depth { version.now.depth ≡ settings.now.depth }
    ensures brushed { IfOk result (λ made. IsBrushed brush.now version.now made.0) }
    ensures kept { IfOk result (λ made. AreChanged version.now made.0 made.1) }
{
    apply_kept_in(alloc, version, brush, region(brush, settings))
}

/// Does the same as `apply_kept` where the brush's region is known.
pub fn apply_kept_in(
    alloc: Global,
    version: &Version,
    brush: &Brush,
    area: Region,
) -> Result<(Version, Kept), AllocError>
    requires depth { IsDepth version.now.depth }
    requires lawful { IsLawful version.now.depth brush.now }
    requires area { area ≡ region version.now.depth brush.now }
    ensures brushed { IfOk result (λ made. IsBrushed brush.now version.now made.0) }
    ensures kept { IfOk result (λ made. AreChanged version.now made.0 made.1) }
{
    sizes_of_worlds();
    match *brush {
        Brush::Cuboid { mode, lo, hi } => {
            let shape = CuboidShape { lo, hi };
            fill_or_carve(alloc, version, brush, area, mode, &shape)
        }
        Brush::Ball { mode, at, r } => {
            let shape = BallShape::new(alloc, at, r)?;
            fill_or_carve(alloc, version, brush, area, mode, &shape)
        }
        Brush::Ground { mode, h } => {
            let shape = GroundShape { h };
            fill_or_carve(alloc, version, brush, area, mode, &shape)
        }
        Brush::Smooth { .. } => smooth(alloc, version, brush, area),
    }
}

/// Returns the version after a brush that fills or carves by a shape, and what it kept.
fn fill_or_carve<S: Shape>(
    alloc: Global,
    version: &Version,
    brush: &Brush,
    area: Region,
    mode: Mode,
    shape: &S,
) -> Result<(Version, Kept), AllocError>
    requires depth { IsDepth version.now.depth }
    requires lawful { IsLawful version.now.depth brush.now }
    requires area { area ≡ region version.now.depth brush.now }
    requires shape { brush.now ≡ S.brush shape.now mode }
    ensures brushed { IfOk result (λ made. IsBrushed brush.now version.now made.0) }
    ensures kept { IfOk result (λ made. AreChanged version.now made.0 made.1) }
{
    nodes_of_worlds();
    sizes_of_worlds();
    let rows = whole_rows(version.depth(), area);
    version_after(alloc, version, brush, rows, &FillCarve { mode, shape })
}

/// Returns the version after a brush that smooths a box, and what it kept.
fn smooth(
    alloc: Global,
    version: &Version,
    brush: &Brush,
    area: Region,
) -> Result<(Version, Kept), AllocError>
    requires depth { IsDepth version.now.depth }
    requires lawful { IsLawful version.now.depth brush.now }
    requires area { brush.now ≡ Smooth area.lo area.hi }
    ensures brushed { IfOk result (λ made. IsBrushed brush.now version.now made.0) }
    ensures kept { IfOk result (λ made. AreChanged version.now made.0 made.1) }
{
    points_of_regions();
    let side = node_side(version.depth());
    version_after(alloc, version, brush, area, &Smoothing { version, side })
}

/// Returns the version after a brush, by a rule that makes in some box about its region what the brush does, and what
/// it kept.
fn version_after<R: Rule>(
    alloc: Global,
    version: &Version,
    brush: &Brush,
    area: Region,
    rule: &R,
) -> Result<(Version, Kept), AllocError>
    requires depth { IsDepth version.now.depth }
    requires lawful { IsLawful version.now.depth brush.now }
    requires area { IsRegion version.now.depth area }
    requires whole { (p : PointOf) → IsWithin (region version.now.depth brush.now) p →
        IsWithin area p }
    requires takes { (p : PointOf) → IsInWorld version.now.depth p → R.takes rule.now p }
    requires gives { (p : PointOf) (new : ℤ) → IsWithin area p →
        R.gives rule.now p (sample_at version.now p) new →
        new ≡ after_brush version.now.depth brush.now (sample_at version.now) p }
    ensures brushed { IfOk result (λ made. IsBrushed brush.now version.now made.0) }
    ensures kept { IfOk result (λ made. AreChanged version.now made.0 made.1) }
{
    brushes_read_only_the_world();
    brushes_keep_samples_off_their_region();
    points_of_regions();
    version.revise_kept(alloc, area, rule)
}

/// Returns a region with all points of the world that lie in the same rows of pages along x. Beyond its region a brush
/// changes nothing, and a whole row of a page takes less time than a part of it.
fn whole_rows(depth: u8, area: Region) -> Region
    requires depth { IsDepth depth }
    requires area { IsRegion depth area }
    ensures region { IsRegion depth result }
    ensures whole { (p : PointOf) → IsWithin area p → IsWithin result p }
{
    let Region { lo, hi } = area;
    let side = node_side(depth);
    let first = lo.x / SIDE * SIDE;
    let last = (hi.x / SIDE * SIDE + (SIDE - 1)).min(side);
    Region {
        lo: Point { x: first, ..lo },
        hi: Point { x: last, ..hi },
    }
}

/// Returns a box grown by so many cells on each side and clamped to the world.
fn grown_box(settings: &Settings, by: u32, lo: Point, hi: Point) -> Region
    requires settings { IsSettings settings.now }
    requires by { by ≤ MAX_SIDE + MARGIN }
    requires hi { IsInWorld settings.now.depth hi }
    ensures { result ≡ grown settings.now.depth by lo hi }
{
    let side = settings.world_side();
    Region {
        lo: Point::new(
            lo.x.saturating_sub(by),
            lo.y.saturating_sub(by),
            lo.z.saturating_sub(by),
        ),
        hi: Point::new(
            (hi.x + by).min(side),
            (hi.y + by).min(side),
            (hi.z + by).min(side),
        ),
    }
}
