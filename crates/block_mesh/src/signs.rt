//! Which samples are solid, row by row.

ghost use Rattle.std.specs.Prelude.{◌≡◌, ◌≢◌, ℕ, ◌-◌, ◌<◌, ◌≤◌, ◌⊎◌, All, IsTrue, length, slice_index, take};
ghost use Rattle.std.specs.Int.{bit_at};
ghost use Rattle.lattice.specs.declared.node.Node.{Node};
ghost use Rattle.lattice.specs.declared.point.Face.{Face};
ghost use Rattle.terrain.specs.declared.cells.TheConstants.{REGULAR_CASES, TRANSITION_CASES};
ghost use Rattle.terrain.specs.Blocks.{cell_corner, square_corner};
ghost use Rattle.terrain.specs.Cells.{regular_signs, transition_signs};
ghost use Rattle.terrain.specs.Samples.{Field, IsSample};
ghost use Rattle.block_mesh.specs.Signs.{BoundCells, BoundSquares, have_one_sign, signs_of_samples};
ghost use Rattle.bricks.specs.declared.brick.TheConstants.{POINTS};
ghost use Rattle.bricks.specs.declared.faces.TheConstants.{FINE_POINTS};

use bricks::POINTS;
use field_pages::none_and_all_are_solid;
use lattice::CELLS;
use std::simd::prelude::*;

/// The signs of a row of a leaf's points that are all solid.
const LEAF_SOLID: u64 = (1 << POINTS) - 1;

/// Returns the number with a bit for each sample of a row of a leaf's points, set where it is solid.
#[inline(always)]
pub(crate) fn row_signs(row: &[i8]) -> u64
    requires count { length row.now ≡ POINTS }
    requires range { All IsSample row.now }
    ensures { result ≡ signs_of_samples row.now }
{
    sixteen_signs(row) + (u64::from(row[16] < 0) << 16)
}

/// Returns the number with a bit for each sample of a row of a face's finer points, set where it is solid.
#[inline(always)]
pub(crate) fn fine_row_signs(row: &[i8]) -> u64
    requires count { length row.now ≡ FINE_POINTS }
    requires range { All IsSample row.now }
    ensures { result ≡ signs_of_samples row.now }
{
    sixteen_signs(row) + (sixteen_signs(&row[16..]) << 16) + (u64::from(row[32] < 0) << 32)
}

/// Returns the same number of the first sixteen samples.
#[inline(always)]
fn sixteen_signs(row: &[i8]) -> u64
    requires count { 16 ≤ length row.now }
    requires range { All IsSample row.now }
    ensures { result ≡ signs_of_samples (take 16 row.now) }
{
    i8x16::from_slice(row).simd_lt(i8x16::splat(0)).to_bitmask()
}

/// Returns whether these rows of a leaf's points are all empty, or all solid, by their signs.
#[inline(always)]
pub(crate) fn are_plain(rows: &[u64]) -> bool
    requires { 0 < length rows.now }
    ensures same { IsTrue result → (k : ℕ) → k < length rows.now
        → slice_index rows.now k ≡ slice_index rows.now 0 }
    ensures plain { IsTrue result
        → (slice_index rows.now 0 ≡ 0) ⊎ (slice_index rows.now 0 ≡ LEAF_SOLID) }
{
    let first = rows[0];
    if first != 0 && first != LEAF_SOLID {
        return false;
    }
    for row in rows {
        if *row != first {
            return false;
        }
    }
    true
}

/// Returns whether no sample is solid, or all are.
pub(crate) fn have_one_sign(samples: &[i8]) -> bool
    ensures { result ≡ have_one_sign samples.now }
{
    let (none, all) = none_and_all_are_solid(samples);
    none || all
}

/// Returns the sign number of the x-th cell of a row, by the signs of the rows of points that bound it: those at the
/// low y and low z, at the high y and low z, at the low y and high z, and at the high y and high z.
pub(crate) fn regular_signs(rows: [u64; 4], x: u32) -> u8
    requires { x < CELLS }
    ensures { (s : Field) (n : Node) (z y : ℕ) → BoundCells s n z y rows
        → result ≡ regular_signs s n.level (cell_corner n z y x) }
{
    let [a, b, c, d] = rows;
    let signs = (a >> x) % 4 + 4 * ((b >> x) % 4) + 16 * ((c >> x) % 4) + 64 * ((d >> x) % 4);
    signs as u8
}

/// Returns the number with a bit for each cell of a row, set where its corners have two signs, by the same rows. The
/// bit after the last cell is set too.
#[inline(always)]
pub(crate) fn surface_cells(rows: [u64; 4]) -> u64
    ensures end { bit_at result CELLS ≡ 1 }
    ensures plain { (x : ℕ) → x < CELLS → bit_at result x ≡ 0 → (s : Field) (n : Node) (z y : ℕ)
        → BoundCells s n z y rows
        → (regular_signs s n.level (cell_corner n z y x) ≡ 0)
        ⊎ (regular_signs s n.level (cell_corner n z y x) ≡ REGULAR_CASES - 1) }
{
    let [a, b, c, d] = rows;
    let (any, all) = (a | b | c | d, a & b & c & d);
    ((any | (any >> 1)) ^ (all & (all >> 1))) | (1 << CELLS)
}

/// Returns the first place whose bit is set.
#[inline(always)]
pub(crate) fn first_set(bits: u64) -> u32
    requires { bit_at bits CELLS ≡ 1 }
    ensures within { result ≤ CELLS }
    ensures set { bit_at bits result ≡ 1 }
    ensures before { (k : ℕ) → k < result → bit_at bits k ≡ 0 }
{
    bits.trailing_zeros()
}

/// Returns the number without the bit at a place.
#[inline(always)]
pub(crate) fn without(bits: u64, place: u32) -> u64
    requires { place < CELLS }
    ensures gone { bit_at result place ≡ 0 }
    ensures kept { (k : ℕ) → k ≤ CELLS → k ≢ place → bit_at result k ≡ bit_at bits k }
{
    bits & !(1 << place)
}

/// Returns the sign number of the u-th transition cell of a row on a face, by the signs of the three rows of finer
/// points through it, in the order of the higher axis.
pub(crate) fn transition_signs(rows: [u64; 3], u: u32) -> u16
    requires { u < CELLS }
    ensures below { result < TRANSITION_CASES }
    ensures exact { (s : Field) (n : Node) (face : Face) (v : ℕ) → 1 ≤ n.level
        → BoundSquares s n face v rows
        → result ≡ transition_signs s n.level face (square_corner n face v u) }
{
    let [a, b, c] = rows;
    let first = 2 * u;
    let signs = (a >> first) % 8 + 8 * ((b >> first) % 8) + 64 * ((c >> first) % 8);
    signs as u16
}
