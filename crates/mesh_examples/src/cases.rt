//! The loops of some regular and transition cells, and the triangles that fill them.

use crate::asserts::{expect, expect_made};
use cells::Cases;
use face_curves::Loops;
use lattice::Face;
use std::process::Abort;

/// Asserts what the loops of a cell are.
fn expect_loops(rt: &impl Abort, found: &Loops, lists: &[&[u8]], signs: u16) {
    assert!(rt; found.len() == lists.len(), "{found:?} at {signs}");
    for (index, keys) in lists.iter().enumerate() {
        expect(rt, signs, found.keys_of(index), *keys);
    }
}

/// Asserts what the loops of a regular cell are, both as traced and as lent.
fn expect_regular(rt: &impl Abort, cases: &Cases, signs: u8, lists: &[&[u8]]) {
    expect_loops(rt, &cases.regular(signs), lists, signs.into());
    expect_loops(rt, cases.regular_ref(signs), lists, signs.into());
}

/// Asserts what the loops of a transition cell are, both as traced and as lent.
fn expect_transition(rt: &impl Abort, cases: &Cases, face: Face, signs: u16, lists: &[&[u8]]) {
    assert!(rt; signs < 512);
    expect_loops(rt, &cases.transition(face, signs), lists, signs);
    expect_loops(rt, cases.transition_ref(face, signs), lists, signs);
}

/// Sign numbers of regular cells, each with the cell's loops.
static REGULAR: [(u8, &[&[u8]]); 13] = [
    (0, &[]),
    (255, &[]),
    (1, &[&[0, 1, 2]]),
    (2, &[&[0, 4, 3]]),
    (4, &[&[1, 5, 6]]),
    (8, &[&[3, 7, 5]]),
    (16, &[&[2, 9, 8]]),
    (32, &[&[4, 8, 10]]),
    (64, &[&[6, 11, 9]]),
    (128, &[&[7, 10, 11]]),
    (9, &[&[0, 1, 2], &[3, 7, 5]]),
    (13, &[&[0, 3, 7, 6, 2]]),
    (105, &[&[0, 1, 2], &[3, 7, 5], &[4, 8, 10], &[6, 11, 9]]),
];

/// Asserts what the loops of all these cells are.
fn expect_all_regular(rt: &impl Abort, cases: &Cases) {
    for (signs, lists) in &REGULAR {
        expect_regular(rt, cases, *signs, lists);
    }
}

#[test]
fn traces_regular_cells(rt: HostRuntime) {
    let cases = expect_made(&rt, Cases::new(rt.alloc()));
    expect_all_regular(&rt, &cases);
    drop(cases);
}

/// Faces and sign numbers of transition cells, each with the cell's loops.
static TRANSITION: [(Face, u16, &[&[u8]]); 8] = [
    (Face::XLow, 0, &[]),
    (Face::XLow, 511, &[]),
    (Face::XLow, 2, &[&[0, 2, 3]]),
    (Face::XLow, 7, &[&[1, 13, 14, 4, 3]]),
    (Face::XLow, 128, &[&[8, 11, 10]]),
    (Face::XHigh, 7, &[&[1, 3, 4, 14, 13]]),
    (Face::YHigh, 7, &[&[1, 13, 14, 4, 3]]),
    (
        Face::ZHigh,
        273,
        &[&[0, 12, 13, 1], &[3, 5, 8, 7], &[9, 11, 15, 14]],
    ),
];

/// Asserts what the loops of all these cells are.
fn expect_all_transition(rt: &impl Abort, cases: &Cases) {
    for (face, signs, lists) in &TRANSITION {
        expect_transition(rt, cases, *face, *signs, lists);
    }
}

#[test]
fn traces_transition_cells(rt: HostRuntime) {
    let cases = expect_made(&rt, Cases::new(rt.alloc()));
    expect_all_transition(&rt, &cases);
    drop(cases);
}

/// Sign numbers of regular cells, each with the triangles that fill the cell's loops.
static REGULAR_TRIANGLES: [(u8, &[[u8; 3]]); 3] = [
    (1, &[[0, 1, 2]]),
    (13, &[[0, 3, 7], [0, 7, 6], [0, 6, 2]]),
    (105, &[[0, 1, 2], [3, 7, 5], [4, 8, 10], [6, 11, 9]]),
];

/// The same of transition cells on a low X face.
static TRANSITION_TRIANGLES: [(u16, &[[u8; 3]]); 2] = [
    (7, &[[1, 13, 14], [1, 14, 4], [1, 4, 3]]),
    (128, &[[8, 11, 10]]),
];

/// Asserts which triangles are lent for the regular cells.
fn expect_regular_triangles(rt: &impl Abort, cases: &Cases) {
    for (signs, triangles) in &REGULAR_TRIANGLES {
        expect(rt, *signs, cases.regular_triangles(*signs), *triangles);
    }
}

/// Asserts which triangles are lent for the transition cells.
fn expect_transition_triangles(rt: &impl Abort, cases: &Cases) {
    for (signs, triangles) in &TRANSITION_TRIANGLES {
        assert!(rt; *signs < 512);
        let found = cases.transition_triangles(Face::XLow, *signs);
        expect(rt, *signs, found, *triangles);
    }
}

#[test]
fn lends_triangles(rt: HostRuntime) {
    let cases = expect_made(&rt, Cases::new(rt.alloc()));
    expect_regular_triangles(&rt, &cases);
    expect_transition_triangles(&rt, &cases);
    drop(cases);
}
