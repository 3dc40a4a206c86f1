//! The normals of keys by the pages of the field.

ghost use Rattle.std.specs.Prelude.{◌≡◌, ◌^◌, ◌<◌, ◌≤◌, ◌+ℤ◌, ◌-ℤ◌, ◌*ℤ◌, ℕ, pos, unsigned_abs};
ghost use Rattle.field_pages.specs.Pages.{sample_at};
ghost use Rattle.lattice.specs.declared.settings.TheConstants.{MAX_SIDE};
ghost use Rattle.lattice.specs.declared.key.Key.{Key as KeyOf};
ghost use Rattle.lattice.specs.Key.{IsKey};
ghost use Rattle.lattice.specs.Point.{IsInWorld, clamped, moved};
ghost use Rattle.lattice.specs.Settings.{world_side};
ghost use Rattle.surface_normals.specs.Ends.{AreKeyEnds, AreSmallEnds};
ghost use Rattle.surface_normals.specs.Normals.{moved_back, normal_of, normal_on, slope};
ghost use Rattle.terrain.specs.Samples.{IsSample};

use crate::vector::Normal;
use field_pages::Version;
use lattice::{Axis, Key, Point, node_side, sizes_of_worlds};

/// Returns the normal of a key of a version's world: the slopes of the field at the key's ends, weighed as the key's
/// vertex lies between them. It is meant to lead to where samples rise, so to the empty side, and may be 0; its length
/// says nothing.
pub fn normal(version: &Version, key: Key) -> Normal
    requires { IsKey version.now.depth key }
    ensures { result ≡ normal_of version.now.depth (sample_at version.now) key }
{
    // The axis is written out in each arm, so that what the points share is computed once.
    match key.axis {
        Axis::X => {
            let ends = ends_of(
                version,
                &Key {
                    axis: Axis::X,
                    ..key
                },
            );
            Normal {
                x: along(version, &ends, Axis::X),
                y: across(version, &ends, Axis::Y),
                z: across(version, &ends, Axis::Z),
            }
        }
        Axis::Y => {
            let ends = ends_of(
                version,
                &Key {
                    axis: Axis::Y,
                    ..key
                },
            );
            Normal {
                x: across(version, &ends, Axis::X),
                y: along(version, &ends, Axis::Y),
                z: across(version, &ends, Axis::Z),
            }
        }
        Axis::Z => {
            let ends = ends_of(
                version,
                &Key {
                    axis: Axis::Z,
                    ..key
                },
            );
            Normal {
                x: across(version, &ends, Axis::X),
                y: across(version, &ends, Axis::Y),
                z: along(version, &ends, Axis::Z),
            }
        }
    }
}

/// The ends of a key, the side of a cell of its level, and the samples at both ends.
#[derive(Clone, Copy)]
struct Ends {
    near: Point,
    far: Point,
    step: u32,
    a: i8,
    b: i8,
}

/// Returns the ends of a key.
#[inline(always)]
fn ends_of(version: &Version, key: &Key) -> Ends
    requires { IsKey version.now.depth key.now }
    ensures { AreKeyEnds version.now.depth (sample_at version.now) key.now result }
{
    sizes_of_worlds();
    let _depth = version.depth();
    let (near, far) = (key.at, key.far_end());
    Ends {
        near,
        far,
        step: 1 << key.level,
        a: version.sample(near),
        b: version.sample(far),
    }
}

/// Returns the normal of a key on the key's own axis, by the key's ends, each of which is a step from the other.
#[inline(always)]
fn along(version: &Version, ends: &Ends, axis: Axis) -> i32
    requires { AreSmallEnds version.now.depth ends.now }
    ensures { (key : KeyOf) → AreKeyEnds version.now.depth (sample_at version.now) key ends.now
        → key.axis ≡ axis
        → result ≡ normal_on version.now.depth (sample_at version.now) key axis }
{
    let side = node_side(version.depth());
    let before = version.sample(before(ends.near, ends.step, axis));
    let further = version.sample(further(ends.far, ends.step, axis, side));
    let (near, far) = (difference(ends.b, before), difference(further, ends.a));
    weighed_sum(ends.b, near, ends.a, far)
}

/// Returns the normal of a key on any axis, by the key's ends.
#[inline(always)]
fn across(version: &Version, ends: &Ends, axis: Axis) -> i32
    requires { AreSmallEnds version.now.depth ends.now }
    ensures { (key : KeyOf) → AreKeyEnds version.now.depth (sample_at version.now) key ends.now
        → result ≡ normal_on version.now.depth (sample_at version.now) key axis }
{
    let near = slope(version, ends.near, ends.step, axis);
    let far = slope(version, ends.far, ends.step, axis);
    weighed_sum(ends.b, near, ends.a, far)
}

/// Returns the sum of two slopes, each as often as the sample at the other end says without its sign.
#[inline(always)]
pub(crate) fn weighed_sum(b: i8, near: i32, a: i8, far: i32) -> i32
    requires b { IsSample b }
    requires near { unsigned_abs near ≤ 254 }
    requires a { IsSample a }
    requires far { unsigned_abs far ≤ 254 }
    ensures { result ≡ (pos (unsigned_abs b) *ℤ near) +ℤ (pos (unsigned_abs a) *ℤ far) }
{
    i32::from(b.unsigned_abs()) * near + i32::from(a.unsigned_abs()) * far
}

/// Returns one sample less another.
#[inline(always)]
pub(crate) fn difference(further: i8, before: i8) -> i32
    requires further { IsSample further }
    requires before { IsSample before }
    ensures value { result ≡ further -ℤ before }
    ensures small { unsigned_abs result ≤ 254 }
{
    i32::from(further) - i32::from(before)
}

/// Returns how steep the field is at a point along an axis: the sample a step further less the one a step before.
#[inline(always)]
fn slope(version: &Version, p: Point, step: u32, axis: Axis) -> i32
    requires point { IsInWorld version.now.depth p }
    requires step { step < 2 ^ 8 }
    ensures value { result ≡ slope version.now.depth (sample_at version.now) p step axis }
    ensures small { unsigned_abs result ≤ 254 }
{
    let side = node_side(version.depth());
    let further = version.sample(further(p, step, axis, side));
    let before = version.sample(before(p, step, axis));
    difference(further, before)
}

/// Returns the point a step further along an axis, or where the world ends.
#[inline(always)]
pub(crate) fn further(p: Point, step: u32, axis: Axis, side: u32) -> Point
    requires step { step < 2 ^ 8 }
    requires side { side ≤ MAX_SIDE }
    requires x { p.x ≤ side }
    requires y { p.y ≤ side }
    requires z { p.z ≤ side }
    ensures { (depth : ℕ) → side ≡ world_side depth → result ≡ clamped depth (moved axis step p) }
{
    match axis {
        Axis::X => Point {
            x: (p.x + step).min(side),
            ..p
        },
        Axis::Y => Point {
            y: (p.y + step).min(side),
            ..p
        },
        Axis::Z => Point {
            z: (p.z + step).min(side),
            ..p
        },
    }
}

/// Returns the point a step before along an axis, or where the world begins.
#[inline(always)]
pub(crate) fn before(p: Point, step: u32, axis: Axis) -> Point
    ensures value { result ≡ moved_back axis step p }
    ensures world { (depth : ℕ) → IsInWorld depth p → IsInWorld depth result
        × (clamped depth result ≡ result) }
{
    match axis {
        Axis::X => Point {
            x: p.x.saturating_sub(step),
            ..p
        },
        Axis::Y => Point {
            y: p.y.saturating_sub(step),
            ..p
        },
        Axis::Z => Point {
            z: p.z.saturating_sub(step),
            ..p
        },
    }
}
