//! The normals of a point's keys.

ghost use Rattle.snapshots.specs.Frame.{IsSound};

use crate::asserts::expect;
use crate::keys::normal_at;
use crate::stage::{new_cases, open_alone, shows};
use crate::surfaces::{CORNER, ONE_LEAF, POINT};
use frame_surface::Normal;
use snapshots::Frame;
use std::process::Abort;

/// The normals of the six keys around a filled point, in the order of its mesh: each leads away from the point.
static AROUND: [Option<Normal>; 7] = [
    Some(Normal {
        x: 0,
        y: 0,
        z: -256,
    }),
    Some(Normal {
        x: 0,
        y: -256,
        z: 0,
    }),
    Some(Normal {
        x: -256,
        y: 0,
        z: 0,
    }),
    Some(Normal { x: 256, y: 0, z: 0 }),
    Some(Normal { x: 0, y: 256, z: 0 }),
    Some(Normal { x: 0, y: 0, z: 256 }),
    None,
];

/// Asserts the normals of the point's keys in a frame.
fn expect_normals(rt: &impl Abort, frame: &Frame)
    requires { IsSound frame.now }
{
    for (place, expected) in AROUND.iter().enumerate() {
        expect(rt, place, normal_at(frame, CORNER, place), *expected);
    }
}

#[test]
fn lead_away_from_a_point(rt: HostRuntime) {
    let cases = new_cases(&rt, rt.alloc());
    let mut scene = open_alone(&rt, rt.alloc(), &cases, ONE_LEAF);
    shows(&rt, rt.alloc(), &mut scene, &[POINT]);
    expect_normals(&rt, scene.shown());
    scene.close(&rt);
}
