//! The values of members, by their kinds.

ghost use Rattle.std.specs.Prelude.{◌≡◌, codes};
ghost use Rattle.serde_json.specs.View.{view, items_view, members_view};
ghost use Rattle.lattice.specs.Settings.{IsSettings, world_side};
ghost use Rattle.camera_script.specs.Values as spec;
ghost use Rattle.camera_script.specs.Values.{mode_of, number_from, point_of, place_from, three_numbers, truth_of, two_numbers, value_in, value_or};

use crate::members::{Object, member};
use lattice::{Point, Region, Settings, UNITS};
use serde_json::Value;
use terrain::Mode;

/// A place over the world: x and y, in units of 1/256 fine cell.
#[derive(Clone, Copy)]
pub(crate) struct Place {
    pub x: u32,
    pub y: u32,
}

/// Returns the whole number from `low` to `high` that a member is.
pub(crate) fn number_in(object: &Object, name: &str, low: u32, high: u32) -> Option<u32>
    ensures { result
        ≡ value_in (number_from low high) name.now (members_view object.now.entries) }
{
    number(member(object, name)?, low, high)
}

/// Returns the whole number from `low` to `high` that a member is, or `absent` where there is no such member.
pub(crate) fn number_or(
    object: &Object,
    name: &str,
    low: u32,
    high: u32,
    absent: u32,
) -> Option<u32>
    ensures { result
        ≡ value_or absent (number_from low high) name.now (members_view object.now.entries) }
{
    match member(object, name) {
        Some(value) => number(value, low, high),
        None => Some(absent),
    }
}

/// Returns the truth value that a member is, or `absent` where there is no such member.
pub(crate) fn truth_or(object: &Object, name: &str, absent: bool) -> Option<bool>
    ensures { result ≡ value_or absent truth_of name.now (members_view object.now.entries) }
{
    match member(object, name) {
        Some(value) => truth(value),
        None => Some(absent),
    }
}

/// Returns the place over the world that a member is.
pub(crate) fn place_in(object: &Object, name: &str, settings: &Settings) -> Option<Place>
    requires { IsSettings settings.now }
    ensures { result
        ≡ value_in (place_from settings.now.depth) name.now (members_view object.now.entries) }
{
    as_place(member(object, name)?, settings)
}

/// Returns the point of the world that a member is.
pub(crate) fn point_in(object: &Object, name: &str, settings: &Settings) -> Option<Point>
    requires { IsSettings settings.now }
    ensures { result
        ≡ value_in (point_of settings.now.depth) name.now (members_view object.now.entries) }
{
    point(member(object, name)?, settings)
}

/// Returns the mode that the member `mode` is.
pub(crate) fn mode_in(object: &Object) -> Option<Mode>
    ensures { result ≡ value_in mode_of (codes "mode") (members_view object.now.entries) }
{
    mode(member(object, "mode")?)
}

/// Returns the box of points in the members `lo` and `hi`.
#[tactic(auto, unfolding(crate::specs::Values::box_in))]
pub(crate) fn box_in(object: &Object, settings: &Settings) -> Option<Region>
    requires { IsSettings settings.now }
    ensures { result ≡ spec.box_in settings.now.depth (members_view object.now.entries) }
{
    let lo = point_in(object, "lo", settings)?;
    let hi = point_in(object, "hi", settings)?;
    if is_ordered(lo, hi) {
        Some(Region { lo, hi })
    } else {
        None
    }
}

/// Returns whether `lo` is at most `hi` on each axis.
fn is_ordered(lo: Point, hi: Point) -> bool
    ensures { result ≡ spec.is_ordered lo hi }
{
    lo.x <= hi.x && lo.y <= hi.y && lo.z <= hi.z
}

/// Returns the value as a whole number from `low` to `high`.
fn number(value: &Value, low: u32, high: u32) -> Option<u32>
    ensures { result ≡ number_from low high (view value.now) }
{
    let number = value.as_u64()?;
    if u64::from(low) <= number && number <= u64::from(high) {
        Some(number as u32)
    } else {
        None
    }
}

/// Returns the value as a truth value.
fn truth(value: &Value) -> Option<bool>
    ensures { result ≡ truth_of (view value.now) }
{
    value.as_bool()
}

/// Returns the value as a place: two coordinates of the world, in units of 1/256 fine cell.
fn as_place(value: &Value, settings: &Settings) -> Option<Place>
    requires { IsSettings settings.now }
    ensures { result ≡ place_from settings.now.depth (view value.now) }
{
    let side = UNITS * settings.world_side();
    coordinate_pair(value.as_array()?.as_slice(), side)
}

/// Returns two numbers up to the side, as x and y.
fn coordinate_pair(items: &[Value], side: u32) -> Option<Place>
    ensures { result ≡ two_numbers side (items_view items.now) }
{
    let [x, y] = items else {
        return None;
    };
    let x = number(x, 0, side)?;
    let y = number(y, 0, side)?;
    Some(Place { x, y })
}

/// Returns the value as a point: three coordinates of the world.
fn point(value: &Value, settings: &Settings) -> Option<Point>
    requires { IsSettings settings.now }
    ensures { result ≡ point_of settings.now.depth (view value.now) }
{
    coordinates(value.as_array()?.as_slice(), settings.world_side())
}

/// Returns three numbers up to the side, as x, y and z.
fn coordinates(items: &[Value], side: u32) -> Option<Point>
    ensures { result ≡ three_numbers side (items_view items.now) }
{
    let [x, y, z] = items else {
        return None;
    };
    let x = number(x, 0, side)?;
    let y = number(y, 0, side)?;
    let z = number(z, 0, side)?;
    Some(Point::new(x, y, z))
}

/// Returns the value as a mode.
fn mode(value: &Value) -> Option<Mode>
    ensures { result ≡ mode_of (view value.now) }
{
    match value.as_str()? {
        "fill" => Some(Mode::Fill),
        "carve" => Some(Mode::Carve),
        _ => None,
    }
}
