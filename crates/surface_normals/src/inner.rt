//! The normals of keys by the samples of their leaf, which a brick has.
//!
//! Most samples that the normal of a key of a leaf's level is made from are the leaf's. Beyond it are at most one on
//! the key's own axis, and two on each axis across it on which the key lies on a side of the leaf; these are looked up
//! in the field's pages.

ghost use Rattle.std.specs.Prelude.{◌≡◌, ◌↔◌, ℕ, ◌+◌, ◌*◌, ◌^◌, ◌%◌, ◌<◌, ◌≤◌, All, false, IfSome, IsTrue, length, unsigned_abs};
ghost use Rattle.bricks.specs.Slots.{point_step};
ghost use Rattle.field_pages.specs.Pages.{sample_at};
ghost use Rattle.lattice.specs.declared.settings.TheConstants.{MAX_DEPTH};
ghost use Rattle.lattice.specs.Key.{IsKey, far_end};
ghost use Rattle.lattice.specs.Node.{IsNode, node_side};
ghost use Rattle.lattice.specs.Point.{clamped, is_same_axis, moved};
ghost use Rattle.lattice.specs.Steps.{AreAtMost};
ghost use Rattle.surface_normals.specs.Inner.{FitsAcross, HasLeafSamples, IsInLeaf, IsInner, IsLeafPoint, normal_on_slots, slope_at_slot};
ghost use Rattle.surface_normals.specs.Normals.{moved_back, normal_of, normal_on, slope};
ghost use Rattle.terrain.specs.Samples.{IsSample};

use crate::normals::{before, difference, further, normal, weighed_sum};
use crate::vector::Normal;
use bricks::{BrickView, LEAF_SAMPLES, POINTS};
use field_pages::Version;
use lattice::{Axis, CELLS, Key, Node, Point, node_side, sizes_of_worlds};

/// How far apart neighbours along y are among the samples of a leaf.
const ROW: usize = POINTS as usize;

/// How far apart neighbours along z are.
const PLANE: usize = ROW * ROW;

/// Where a key lies in a leaf: the slots of its ends among the leaf's samples, how many steps it begins behind the
/// leaf's low corner, and how many of them are along the key's axis.
#[derive(Clone, Copy)]
pub(crate) struct Slots {
    pub near: usize,
    pub far: usize,
    pub steps: Point,
    pub along: u32,
}

/// Returns the normal of a key of a version's world, as `normal` does: by the samples of a brick of the version, if
/// there is one and the key lies in its leaf.
#[inline(always)]
pub fn normal_beside(version: &Version, brick: Option<&BrickView<'_>>, key: Key) -> Normal
    requires key { IsKey version.now.depth key }
    requires brick { IfSome brick (λ lists. HasLeafSamples version.now.depth
        (sample_at version.now) lists.now) }
    ensures { result ≡ normal_of version.now.depth (sample_at version.now) key }
{
    let Some(lists) = brick else {
        return normal(version, key);
    };
    let Some(slots) = slots_in(lists.node(), &key) else {
        return normal(version, key);
    };
    let along = along_key(version, lists, slots, &key);
    match key.axis {
        Axis::X => Normal {
            x: along,
            y: across_key(version, lists, slots, &key, Axis::Y),
            z: across_key(version, lists, slots, &key, Axis::Z),
        },
        Axis::Y => Normal {
            x: across_key(version, lists, slots, &key, Axis::X),
            y: along,
            z: across_key(version, lists, slots, &key, Axis::Z),
        },
        Axis::Z => Normal {
            x: across_key(version, lists, slots, &key, Axis::X),
            y: across_key(version, lists, slots, &key, Axis::Y),
            z: along,
        },
    }
}

/// Returns where a key lies in a leaf, if it has the leaf's level and both its ends are points of the leaf.
#[inline(always)]
fn slots_in(leaf: Node, key: &Key) -> Option<Slots>
    requires { IsNode MAX_DEPTH leaf }
    ensures { IfSome result (λ slots.
        (depth : ℕ) → IsKey depth key.now → IsInLeaf leaf key.now slots) }
{
    sizes_of_worlds();
    if key.level != leaf.level {
        return None;
    }
    let steps = Point {
        z: steps_to(leaf.k, key.at.z, key.level)?,
        y: steps_to(leaf.j, key.at.y, key.level)?,
        x: steps_to(leaf.i, key.at.x, key.level)?,
    };
    let along = steps.coordinate(key.axis);
    if along >= CELLS || !is_in_leaf(steps) {
        return None;
    }
    let near = steps.z as usize * PLANE + steps.y as usize * ROW + steps.x as usize;
    Some(Slots {
        near,
        far: near + step_on(key.axis),
        steps,
        along,
    })
}

/// Returns how far apart neighbours on an axis are among the samples of a leaf.
#[inline(always)]
fn step_on(axis: Axis) -> usize
    ensures { result ≡ point_step axis }
{
    match axis {
        Axis::X => 1,
        Axis::Y => ROW,
        Axis::Z => PLANE,
    }
}

/// Returns whether so many steps from a leaf's low corner lead to a point of the leaf.
#[inline(always)]
fn is_in_leaf(steps: Point) -> bool
    ensures { IsTrue result → AreAtMost CELLS steps }
{
    steps.z <= CELLS && steps.y <= CELLS && steps.x <= CELLS
}

/// Returns whether so many steps on an axis from a leaf's low corner lead to neither side of it.
#[inline(always)]
fn is_inner(steps: u32) -> bool
    ensures { IsTrue result ↔ IsInner steps }
{
    1 <= steps && steps < CELLS
}

/// Returns how many cells of a level a coordinate is behind the low corner of the node of that level with this index on
/// the axis, rounded down, or `None` where it is before it.
#[inline(always)]
fn steps_to(index: u32, at: u32, level: u8) -> Option<u32>
    requires index { index < 2 ^ 8 }
    requires level { level ≤ MAX_DEPTH }
    ensures { IfSome result (λ steps. at % 2 ^ level ≡ 0
        → at ≡ index * node_side level + 2 ^ level * steps) }
{
    (at >> level).checked_sub(index * CELLS)
}

/// Returns the normal of a key on the key's own axis.
#[inline(always)]
fn along_key(version: &Version, brick: &BrickView<'_>, slots: Slots, key: &Key) -> i32
    requires key { IsKey version.now.depth key.now }
    requires brick { HasLeafSamples version.now.depth (sample_at version.now) brick.now }
    requires slots { IsInLeaf brick.now.node key.now slots }
    ensures { result ≡ normal_on version.now.depth (sample_at version.now) key.now key.now.axis }
{
    let samples = brick.samples();
    let (a, b) = (samples[slots.near], samples[slots.far]);
    let before = sample_before(version, brick, slots, key);
    let further = sample_further(version, brick, slots, key);
    weighed_sum(b, difference(b, before), a, difference(further, a))
}

/// Returns the sample a step before the near end of a key on its axis: the leaf's or, where the key begins on a side of
/// the leaf, the field's.
#[inline(always)]
fn sample_before(version: &Version, brick: &BrickView<'_>, slots: Slots, key: &Key) -> i8
    requires key { IsKey version.now.depth key.now }
    requires brick { HasLeafSamples version.now.depth (sample_at version.now) brick.now }
    requires slots { IsInLeaf brick.now.node key.now slots }
    ensures value { result ≡ sample_at version.now (clamped version.now.depth
        (moved_back key.now.axis (2 ^ key.now.level) key.now.at)) }
    ensures range { IsSample result }
{
    if slots.along == 0 {
        let _depth = version.depth();
        return version.sample(before(key.at, 1 << key.level, key.axis));
    }
    brick.samples()[slots.near - (slots.far - slots.near)]
}

/// Returns the sample a step further than the far end of a key on its axis: the leaf's or, where the key ends on a side
/// of the leaf, the field's.
#[inline(always)]
fn sample_further(version: &Version, brick: &BrickView<'_>, slots: Slots, key: &Key) -> i8
    requires key { IsKey version.now.depth key.now }
    requires brick { HasLeafSamples version.now.depth (sample_at version.now) brick.now }
    requires slots { IsInLeaf brick.now.node key.now slots }
    ensures value { result ≡ sample_at version.now (clamped version.now.depth
        (moved key.now.axis (2 ^ key.now.level) (far_end key.now))) }
    ensures range { IsSample result }
{
    if slots.along + 1 == CELLS {
        let side = node_side(version.depth());
        return version.sample(further(key.far_end(), 1 << key.level, key.axis, side));
    }
    brick.samples()[slots.far + (slots.far - slots.near)]
}

/// Returns the normal of a key on an axis across it.
#[inline(always)]
fn across_key(version: &Version, brick: &BrickView<'_>, slots: Slots, key: &Key, axis: Axis) -> i32
    requires key { IsKey version.now.depth key.now }
    requires brick { HasLeafSamples version.now.depth (sample_at version.now) brick.now }
    requires slots { IsInLeaf brick.now.node key.now slots }
    requires across { is_same_axis axis key.now.axis ≡ false }
    ensures { result ≡ normal_on version.now.depth (sample_at version.now) key.now axis }
{
    if is_inner(slots.steps.coordinate(axis)) {
        return across_slots(brick.samples(), slots, step_on(axis));
    }
    across_side(version, brick, slots, key, axis)
}

/// Returns the normal of a key on an axis across it, on which the key is on no side of the leaf and neighbours are so
/// many slots apart.
#[inline(always)]
fn across_slots(samples: &[i8], slots: Slots, step: usize) -> i32
    requires count { length samples.now ≡ LEAF_SAMPLES }
    requires range { All IsSample samples.now }
    requires fits { FitsAcross step slots }
    ensures { result ≡ normal_on_slots samples.now slots step }
{
    let near = slope_at(samples, slots.near, step);
    let far = slope_at(samples, slots.far, step);
    weighed_sum(samples[slots.far], near, samples[slots.near], far)
}

/// Returns how steep the samples of a leaf are at a slot along an axis, whose neighbours are so many slots apart.
#[inline(always)]
fn slope_at(samples: &[i8], slot: usize, step: usize) -> i32
    requires count { length samples.now ≡ LEAF_SAMPLES }
    requires range { All IsSample samples.now }
    requires before { step ≤ slot }
    requires further { slot + step < LEAF_SAMPLES }
    ensures value { result ≡ slope_at_slot samples.now slot step }
    ensures small { unsigned_abs result ≤ 254 }
{
    difference(samples[slot + step], samples[slot - step])
}

/// Returns the normal of a key on an axis across it, where the key is on a side of the leaf on that axis. It isn't
/// inlined, so that what most keys need is short.
#[inline(never)]
fn across_side(version: &Version, brick: &BrickView<'_>, slots: Slots, key: &Key, axis: Axis) -> i32
    requires key { IsKey version.now.depth key.now }
    requires brick { HasLeafSamples version.now.depth (sample_at version.now) brick.now }
    requires slots { IsInLeaf brick.now.node key.now slots }
    requires across { is_same_axis axis key.now.axis ≡ false }
    ensures { result ≡ normal_on version.now.depth (sample_at version.now) key.now axis }
{
    let samples = brick.samples();
    let (a, b) = (samples[slots.near], samples[slots.far]);
    let on = slots.steps.coordinate(axis);
    let near = slope_on_side(version, brick, key.at, slots.near, axis, on);
    let far = slope_on_side(version, brick, key.far_end(), slots.far, axis, on);
    weighed_sum(b, near, a, far)
}

/// Returns how steep the field is along an axis at a point of a leaf, by its slot and how many steps on this axis it is
/// behind the leaf's low corner. One of the two samples is the leaf's, and the other, beyond a side, the field's.
#[inline(always)]
fn slope_on_side(
    version: &Version,
    brick: &BrickView<'_>,
    p: Point,
    slot: usize,
    axis: Axis,
    on: u32,
) -> i32
    requires brick { HasLeafSamples version.now.depth (sample_at version.now) brick.now }
    requires point { IsLeafPoint brick.now.node axis p slot on }
    ensures value { result ≡ slope version.now.depth (sample_at version.now) p
        (2 ^ brick.now.node.level) axis }
    ensures small { unsigned_abs result ≤ 254 }
{
    sizes_of_worlds();
    let samples = brick.samples();
    let cell = 1 << brick.node().level;
    if on == 0 {
        let before = version.sample(before(p, cell, axis));
        return difference(samples[slot + step_on(axis)], before);
    }
    let side = node_side(version.depth());
    let further = version.sample(further(p, cell, axis, side));
    difference(further, samples[slot - step_on(axis)])
}
