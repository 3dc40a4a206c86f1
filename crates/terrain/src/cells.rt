//! How many sign numbers and triangles cells have.

use lattice::CELLS;

/// How many sign numbers regular cells have: one for each set of solid corners.
pub const REGULAR_CASES: u16 = 256;

/// How many sign numbers transition cells have: one for each set of solid fine points.
pub const TRANSITION_CASES: u16 = 512;

/// No regular cell has more triangles.
pub const REGULAR_TRIANGLES: u32 = 5;

/// No transition cell has more triangles.
pub const TRANSITION_TRIANGLES: u32 = 9;

/// No leaf has more triangles: its regular cells fill a cube, and transition cells fill squares on at most six faces.
pub const LEAF_TRIANGLES: u32 = REGULAR_TRIANGLES * CELLS * CELLS * CELLS
    + TRANSITION_TRIANGLES * 6 * CELLS * CELLS;
