//! The finer samples of a leaf's face, page by page.
//!
//! What a face and one page have in common is a tile: so many lines of so many points, side by side. Each page is
//! looked up once, for all lines of its tile. Tiles that lie side by side are a band of whole lines. Where a tile's
//! lines begin rows of its page, their sizes are told apart, and each is copied at once (`copy_rows`).

ghost use Rattle.std.specs.Prelude.{◌≡◌, ℕ, ◌+◌, ◌*◌, ◌%◌, ◌≤◌, ◌<◌, ◌↔◌, All, length};
ghost use Rattle.lattice.specs.declared.settings.TheConstants.{MAX_DEPTH};
ghost use Rattle.lattice.specs.Node.{IsNode};
ghost use Rattle.lattice.specs.Settings.{IsDepth};
ghost use Rattle.terrain.specs.Samples.{IsSample};
ghost use Rattle.field_pages.specs.PageRows.{IsStepped, lent_samples};
ghost use Rattle.field_pages.specs.Pages.{sample_at};
ghost use Rattle.bricks.specs.declared.faces.TheConstants.{FACE_SAMPLES};
ghost use Rattle.bricks.specs.Brick.{fine_line};
ghost use Rattle.bricks.specs.Tiles.{AreInSamePages, FillsTile, FitsPage, fine_sample, face_tile, tile_sample};

use crate::line::{Line, fill_run, run_length, step_along};
use crate::parts::copy_run;
use field_pages::{PageRows, SIDE, Version, index_in_page};
use lattice::{Axis, CELLS, Face, Node, Point, nodes_of_worlds};

/// How many points of the level below a leaf's face has along an axis.
pub const FINE_POINTS: u32 = 2 * CELLS + 1;

/// How many finer samples a face of a leaf has.
pub const FACE_SAMPLES: usize = (FINE_POINTS * FINE_POINTS) as usize;

/// The finer points that a leaf's face and a page have in common, by their places in the page.
#[derive(Clone, Copy, Debug)]
struct Tile {
    /// The place of the first point.
    from: usize,
    /// How much further the place of a line's next point is.
    along: usize,
    /// How much further that of the next line is.
    across: usize,
    /// How many points a line has.
    run: usize,
    /// How many lines there are.
    lines: usize,
}

/// Fills the lines of a face's finer samples from the v-th on that lie in the same pages as it. It returns the number
/// of the line after them.
pub(crate) fn fill_band(
    version: &Version,
    leaf: Node,
    face: Face,
    v: u32,
    samples: &mut [i8],
) -> u32
    requires depth { IsDepth version.now.depth }
    requires leaf { IsNode version.now.depth leaf }
    requires level { 1 ≤ leaf.level }
    requires v { v < FINE_POINTS }
    requires count { length samples.old ≡ FACE_SAMPLES }
    ensures more { v < result }
    ensures few { result ≤ FINE_POINTS }
    ensures pages { (y : ℕ) → v ≤ y → y < FINE_POINTS
        → (y < result ↔ AreInSamePages leaf face v y) }
    ensures filled { FillsTile (fine_sample (sample_at version.now) leaf face)
        v result 0 FINE_POINTS samples.old samples.new }
{
    nodes_of_worlds();
    let line = fine_line(leaf, face, v);
    let axis = face.higher_axis();
    let most = run_length(line.from.coordinate(axis) % SIDE, line.stride);
    let lines = most.min(FINE_POINTS - v);
    let mut u = 0;
    while u < FINE_POINTS {
        let point = line.from.moved(line.axis, line.stride * u);
        let long = run_length(point.coordinate(line.axis) % SIDE, line.stride);
        let run = long.min(FINE_POINTS - u);
        let tile = face_tile(point, line.axis, axis, line.stride, run, lines);
        copy_tile(&version.page(point), tile, v as usize, u as usize, samples);
        u += run;
    }
    v + lines
}

/// Returns the tile with its first point here, which has lines along one axis, side by side on another.
fn face_tile(point: Point, lower: Axis, higher: Axis, stride: u32, run: u32, lines: u32) -> Tile
    ensures { result ≡ face_tile point lower higher stride run lines }
{
    Tile {
        from: index_in_page(point),
        along: step_along(lower) * stride as usize,
        across: step_along(higher) * stride as usize,
        run: run as usize,
        lines: lines as usize,
    }
}

/// Copies the samples of a tile from its page to those of its face, where the places of its first point are these. The
/// sizes of lines that begin rows of the page are told apart.
fn copy_tile(page: &PageRows<'_>, tile: Tile, v: usize, u: usize, samples: &mut [i8])
    requires range { All IsSample (lent_samples page.now) }
    requires tile { FitsPage tile }
    requires v { v + tile.lines ≤ FINE_POINTS }
    requires u { u + tile.run ≤ FINE_POINTS }
    requires count { length samples.old ≡ FACE_SAMPLES }
    ensures { FillsTile (tile_sample (lent_samples page.now) tile v u)
        v (v + tile.lines) u (u + tile.run) samples.old samples.new }
{
    if tile.from % SIDE as usize != 0 || !page.is_stepped() {
        return copy_runs(page, tile, v, u, samples);
    }
    match (tile.along, tile.run) {
        (_, 1) => copy_rows(page, tile, 1, 1, v, u, samples),
        (1, 16) => copy_rows(page, tile, 1, 16, v, u, samples),
        (2, 8) => copy_rows(page, tile, 2, 8, v, u, samples),
        (4, 4) => copy_rows(page, tile, 4, 4, v, u, samples),
        (8, 2) => copy_rows(page, tile, 8, 2, v, u, samples),
        _ => copy_runs(page, tile, v, u, samples),
    }
}

/// Copies the same, each line from the row of the page that it begins: so many of its samples, so far apart.
#[inline(always)]
fn copy_rows(
    page: &PageRows<'_>,
    tile: Tile,
    along: usize,
    run: usize,
    v: usize,
    u: usize,
    samples: &mut [i8],
)
    requires range { All IsSample (lent_samples page.now) }
    requires stepped { IsStepped page.now }
    requires tile { FitsPage tile }
    requires begins { tile.from % SIDE ≡ 0 }
    requires run { run ≡ tile.run }
    requires along { (k : ℕ) → k < run → along * k ≡ tile.along * k }
    requires some { 1 ≤ along }
    requires fits { along * run ≤ SIDE }
    requires v { v + tile.lines ≤ FINE_POINTS }
    requires u { u + tile.run ≤ FINE_POINTS }
    requires count { length samples.old ≡ FACE_SAMPLES }
    ensures { FillsTile (tile_sample (lent_samples page.now) tile v u)
        v (v + tile.lines) u (u + tile.run) samples.old samples.new }
{
    for line in 0..tile.lines {
        let at = (v + line) * FINE_POINTS as usize + u;
        let row = page.stepped_row(tile.from + tile.across * line);
        copy_run(row, along, run, at, samples);
    }
}

/// Copies the same run by run.
fn copy_runs(page: &PageRows<'_>, tile: Tile, v: usize, u: usize, samples: &mut [i8])
    requires range { All IsSample (lent_samples page.now) }
    requires tile { FitsPage tile }
    requires v { v + tile.lines ≤ FINE_POINTS }
    requires u { u + tile.run ≤ FINE_POINTS }
    requires count { length samples.old ≡ FACE_SAMPLES }
    ensures { FillsTile (tile_sample (lent_samples page.now) tile v u)
        v (v + tile.lines) u (u + tile.run) samples.old samples.new }
{
    for line in 0..tile.lines {
        let at = (v + line) * FINE_POINTS as usize + u;
        let taken = &mut samples[at..at + tile.run];
        fill_run(page, tile.from + tile.across * line, tile.along, taken);
    }
}

/// Returns the row of a face's finer points that is the v-th on the higher axis.
pub(crate) fn fine_line(leaf: Node, face: Face, v: u32) -> Line
    requires leaf { IsNode MAX_DEPTH leaf }
    requires level { 1 ≤ leaf.level }
    requires v { v < FINE_POINTS }
    ensures { result ≡ fine_line leaf face v }
{
    nodes_of_worlds();
    let stride = 1 << (leaf.level - 1);
    let off = if face.is_high() { leaf.side() } else { 0 };
    let low = leaf.low_corner().moved(face.axis_across(), off);
    Line {
        from: low.moved(face.higher_axis(), stride * v),
        axis: face.lower_axis(),
        stride,
        count: FINE_POINTS,
    }
}
