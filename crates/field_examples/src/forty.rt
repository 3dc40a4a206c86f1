//! Forty edits of a world of depth 1, with some samples after each.

use brushes::{Brush, Mode};
use lattice::Point;

/// Where the samples lie.
pub(crate) static POINTS: [Point; 3] = [
    Point {
        x: 15,
        y: 14,
        z: 12,
    },
    Point {
        x: 16,
        y: 16,
        z: 16,
    },
    Point { x: 20, y: 11, z: 9 },
];

/// The edits, each with the samples at these points after it and all before it.
pub(crate) static EDITS: [(Brush, [i8; 3]); 40] = [
    (
        Brush::Ground {
            mode: Mode::Carve,
            h: 11,
        },
        [127, 127, 127],
    ),
    (
        Brush::Cuboid {
            mode: Mode::Fill,
            lo: Point { x: 27, y: 14, z: 8 },
            hi: Point {
                x: 31,
                y: 20,
                z: 12,
            },
        },
        [127, 127, 104],
    ),
    (
        Brush::Ball {
            mode: Mode::Fill,
            at: Point {
                x: 20,
                y: 15,
                z: 21,
            },
            r: 6,
        },
        [69, 7, 104],
    ),
    (
        Brush::Cuboid {
            mode: Mode::Fill,
            lo: Point { x: 14, y: 6, z: 9 },
            hi: Point { x: 19, y: 8, z: 18 },
        },
        [69, 7, 40],
    ),
    (
        Brush::Smooth {
            lo: Point { x: 6, y: 5, z: 4 },
            hi: Point {
                x: 19,
                y: 18,
                z: 27,
            },
        },
        [69, 7, 40],
    ),
    (
        Brush::Ground {
            mode: Mode::Fill,
            h: 12,
        },
        [-8, 7, -56],
    ),
    (
        Brush::Cuboid {
            mode: Mode::Carve,
            lo: Point { x: 16, y: 6, z: 11 },
            hi: Point {
                x: 25,
                y: 14,
                z: 15,
            },
        },
        [-8, 7, -24],
    ),
    (
        Brush::Ball {
            mode: Mode::Fill,
            at: Point {
                x: 19,
                y: 17,
                z: 18,
            },
            r: 6,
        },
        [-8, -37, -24],
    ),
    (
        Brush::Cuboid {
            mode: Mode::Carve,
            lo: Point { x: 12, y: 7, z: 8 },
            hi: Point {
                x: 22,
                y: 13,
                z: 21,
            },
        },
        [-8, -37, 24],
    ),
    (
        Brush::Smooth {
            lo: Point { x: 8, y: 9, z: 4 },
            hi: Point {
                x: 28,
                y: 30,
                z: 18,
            },
        },
        [-2, -34, 24],
    ),
    (
        Brush::Ground {
            mode: Mode::Fill,
            h: 18,
        },
        [-104, -40, -127],
    ),
    (
        Brush::Cuboid {
            mode: Mode::Carve,
            lo: Point {
                x: 27,
                y: 17,
                z: 15,
            },
            hi: Point {
                x: 31,
                y: 25,
                z: 28,
            },
        },
        [-104, -40, -104],
    ),
    (
        Brush::Ball {
            mode: Mode::Fill,
            at: Point {
                x: 21,
                y: 16,
                z: 18,
            },
            r: 8,
        },
        [-104, -42, -104],
    ),
    (
        Brush::Cuboid {
            mode: Mode::Carve,
            lo: Point { x: 22, y: 4, z: 9 },
            hi: Point { x: 31, y: 9, z: 10 },
        },
        [-104, -42, -24],
    ),
    (
        Brush::Smooth {
            lo: Point { x: 2, y: 7, z: 7 },
            hi: Point {
                x: 26,
                y: 31,
                z: 26,
            },
        },
        [-100, -46, -28],
    ),
    (
        Brush::Ground {
            mode: Mode::Fill,
            h: 13,
        },
        [-100, -46, -72],
    ),
    (
        Brush::Cuboid {
            mode: Mode::Carve,
            lo: Point { x: 14, y: 6, z: 10 },
            hi: Point { x: 16, y: 8, z: 21 },
        },
        [-88, -46, -56],
    ),
    (
        Brush::Ball {
            mode: Mode::Carve,
            at: Point {
                x: 14,
                y: 18,
                z: 15,
            },
            r: 7,
        },
        [31, 64, -56],
    ),
    (
        Brush::Cuboid {
            mode: Mode::Fill,
            lo: Point {
                x: 17,
                y: 19,
                z: 14,
            },
            hi: Point {
                x: 19,
                y: 21,
                z: 24,
            },
        },
        [31, 40, -56],
    ),
    (
        Brush::Smooth {
            lo: Point { x: 1, y: 7, z: 1 },
            hi: Point {
                x: 32,
                y: 25,
                z: 20,
            },
        },
        [30, 39, -56],
    ),
    (
        Brush::Ground {
            mode: Mode::Fill,
            h: 14,
        },
        [-40, 24, -88],
    ),
    (
        Brush::Cuboid {
            mode: Mode::Fill,
            lo: Point { x: 5, y: 17, z: 17 },
            hi: Point {
                x: 17,
                y: 24,
                z: 27,
            },
        },
        [-40, 8, -88],
    ),
    (
        Brush::Ball {
            mode: Mode::Carve,
            at: Point {
                x: 19,
                y: 10,
                z: 17,
            },
            r: 4,
        },
        [-40, 8, -65],
    ),
    (
        Brush::Cuboid {
            mode: Mode::Carve,
            lo: Point { x: 18, y: 4, z: 12 },
            hi: Point {
                x: 24,
                y: 16,
                z: 24,
            },
        },
        [-40, 8, -40],
    ),
    (
        Brush::Smooth {
            lo: Point { x: 11, y: 8, z: 9 },
            hi: Point {
                x: 29,
                y: 20,
                z: 31,
            },
        },
        [-36, 10, -40],
    ),
    (
        Brush::Ground {
            mode: Mode::Fill,
            h: 15,
        },
        [-56, 8, -104],
    ),
    (
        Brush::Cuboid {
            mode: Mode::Carve,
            lo: Point {
                x: 14,
                y: 17,
                z: 14,
            },
            hi: Point {
                x: 23,
                y: 22,
                z: 16,
            },
        },
        [-40, 8, -88],
    ),
    (
        Brush::Ball {
            mode: Mode::Fill,
            at: Point {
                x: 19,
                y: 13,
                z: 19,
            },
            r: 5,
        },
        [-40, 3, -88],
    ),
    (
        Brush::Cuboid {
            mode: Mode::Carve,
            lo: Point { x: 21, y: 8, z: 9 },
            hi: Point { x: 25, y: 14, z: 9 },
        },
        [-40, 3, -8],
    ),
    (
        Brush::Smooth {
            lo: Point { x: 1, y: 4, z: 3 },
            hi: Point {
                x: 27,
                y: 25,
                z: 28,
            },
        },
        [-40, -1, -8],
    ),
    (
        Brush::Ground {
            mode: Mode::Carve,
            h: 17,
        },
        [88, 24, 127],
    ),
    (
        Brush::Cuboid {
            mode: Mode::Fill,
            lo: Point { x: 8, y: 11, z: 12 },
            hi: Point {
                x: 17,
                y: 11,
                z: 21,
            },
        },
        [40, 24, 40],
    ),
    (
        Brush::Ball {
            mode: Mode::Carve,
            at: Point {
                x: 17,
                y: 14,
                z: 15,
            },
            r: 4,
        },
        [40, 25, 40],
    ),
    (
        Brush::Cuboid {
            mode: Mode::Fill,
            lo: Point { x: 18, y: 9, z: 16 },
            hi: Point {
                x: 26,
                y: 14,
                z: 24,
            },
        },
        [40, 24, 40],
    ),
    (
        Brush::Smooth {
            lo: Point { x: 3, y: 3, z: 11 },
            hi: Point {
                x: 22,
                y: 24,
                z: 30,
            },
        },
        [40, 23, 40],
    ),
    (
        Brush::Ground {
            mode: Mode::Carve,
            h: 12,
        },
        [40, 23, 56],
    ),
    (
        Brush::Cuboid {
            mode: Mode::Fill,
            lo: Point { x: 14, y: 13, z: 6 },
            hi: Point { x: 27, y: 18, z: 7 },
        },
        [40, 23, 24],
    ),
    (
        Brush::Ball {
            mode: Mode::Carve,
            at: Point {
                x: 16,
                y: 13,
                z: 13,
            },
            r: 6,
        },
        [69, 29, 24],
    ),
    (
        Brush::Cuboid {
            mode: Mode::Fill,
            lo: Point { x: 20, y: 8, z: 10 },
            hi: Point {
                x: 27,
                y: 11,
                z: 17,
            },
        },
        [69, 29, 8],
    ),
    (
        Brush::Smooth {
            lo: Point { x: 1, y: 3, z: 7 },
            hi: Point {
                x: 18,
                y: 28,
                z: 27,
            },
        },
        [63, 28, 8],
    ),
];
