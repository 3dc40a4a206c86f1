//! Where the vertices of keys lie: the part `a / (a + b)` of the way from a key's near end to its far end, where `a`
//! and `b` are the two samples without their signs, rounded down on each axis.
//!
//! Most keys have ends that don't move. Their vertices lie on the key's own axis, and the way there is the side of a
//! cell (`still_position`). A division for each would take most of the time, so it is a product with a reciprocal from
//! a table, and a shift; the table's numbers are rounded up, and exact for all samples and levels, as `Reciprocals` of
//! the proofs shows. Where an end moves, all three axes are computed with a true division (`position`).

ghost use Rattle.std.specs.Prelude.{◌≡◌, ℕ, ◌+◌, ◌*◌, ◌/◌, ◌^◌, ◌<◌, ◌≤◌, ◌≤ℤ◌, pos, unsigned_abs};
ghost use Rattle.lattice.specs.declared.settings.TheConstants.{MAX_DEPTH};
ghost use Rattle.lattice.specs.Key.{IsKey, far_end};
ghost use Rattle.terrain.specs.declared.brush.TheConstants.{MAX_SAMPLE};
ghost use Rattle.terrain.specs.Blocks.{between, place};
ghost use Rattle.terrain.specs.Levels.{LevelMap};
ghost use Rattle.terrain.specs.Samples.{Field, IsSample};
ghost use Rattle.vertex_places.specs.Bounds.{MOST};
ghost use Rattle.vertex_places.specs.Places.{IsEnd, IsKeyEnd, IsStill, further, placed};

use crate::moves::{Move, one_on};
use lattice::{Axis, Key, Point, Pos, UNITS};

/// For each number of 1 to 254 the least number that is `2^29` or more when it is multiplied by it.
const RECIPROCALS: [u32; 255] = [
    0, 536870912, 268435456, 178956971, 134217728, 107374183, 89478486, 76695845, 67108864,
    59652324, 53687092, 48806447, 44739243, 41297763, 38347923, 35791395, 33554432, 31580642,
    29826162, 28256364, 26843546, 25565282, 24403224, 23342214, 22369622, 21474837, 20648882,
    19884108, 19173962, 18512791, 17895698, 17318417, 16777216, 16268816, 15790321, 15339169,
    14913081, 14510025, 14128182, 13765921, 13421773, 13094413, 12782641, 12485371, 12201612,
    11930465, 11671107, 11422786, 11184811, 10956550, 10737419, 10526881, 10324441, 10129640,
    9942054, 9761290, 9586981, 9418788, 9256396, 9099507, 8947849, 8801163, 8659209, 8521761,
    8388608, 8259553, 8134408, 8012999, 7895161, 7780738, 7669585, 7561563, 7456541, 7354397,
    7255013, 7158279, 7064091, 6972350, 6882961, 6795835, 6710887, 6628036, 6547207, 6468325,
    6391321, 6316129, 6242686, 6170931, 6100806, 6032258, 5965233, 5899681, 5835554, 5772806,
    5711393, 5651273, 5592406, 5534752, 5478275, 5422939, 5368710, 5315554, 5263441, 5212339,
    5162221, 5113057, 5064820, 5017486, 4971027, 4925422, 4880645, 4836675, 4793491, 4751071,
    4709394, 4668443, 4628198, 4588641, 4549754, 4511521, 4473925, 4436950, 4400582, 4364805,
    4329605, 4294968, 4260881, 4227331, 4194304, 4161791, 4129777, 4098252, 4067204, 4036624,
    4006500, 3976822, 3947581, 3918766, 3890369, 3862381, 3834793, 3807596, 3780782, 3754343,
    3728271, 3702559, 3677199, 3652184, 3627507, 3603161, 3579140, 3555437, 3532046, 3508961,
    3486175, 3463684, 3441481, 3419560, 3397918, 3376547, 3355444, 3334602, 3314018, 3293687,
    3273604, 3253764, 3234163, 3214796, 3195661, 3176751, 3158065, 3139596, 3121343, 3103301,
    3085466, 3067834, 3050403, 3033169, 3016129, 2999279, 2982617, 2966138, 2949841, 2933721,
    2917777, 2902005, 2886403, 2870968, 2855697, 2840587, 2825637, 2810843, 2796203, 2781715,
    2767376, 2753185, 2739138, 2725234, 2711470, 2697844, 2684355, 2671000, 2657777, 2644685,
    2631721, 2618883, 2606170, 2593580, 2581111, 2568761, 2556529, 2544412, 2532410, 2520521,
    2508743, 2497075, 2485514, 2474060, 2462711, 2451466, 2440323, 2429281, 2418338, 2407493,
    2396746, 2386093, 2375536, 2365071, 2354697, 2344415, 2334222, 2324117, 2314099, 2304168,
    2294321, 2284558, 2274877, 2265279, 2255761, 2246322, 2236963, 2227681, 2218475, 2209346,
    2200291, 2191310, 2182403, 2173567, 2164803, 2156109, 2147484, 2138928, 2130441, 2122020,
    2113666,
];

/// An end of a key: how far it moves, and its sample.
#[derive(Clone, Copy)]
pub(crate) struct End {
    pub by: Move,
    pub sample: i8,
}

impl End {
    ghost use Rattle.lattice.specs.Point.{IsInWorld};
    ghost use Rattle.vertex_places.specs.Places.{end_on};

    /// Returns where the end lies on an axis after its move, in units of 1/256 fine cell.
    fn on(&self, p: Point, axis: Axis) -> i32
        requires end { IsKeyEnd MAX_DEPTH self.now }
        requires point { IsInWorld MAX_DEPTH p }
        ensures value { result ≡ end_on axis p self.now }
        ensures small { unsigned_abs result ≤ MOST }
    {
        (UNITS * p.coordinate(axis)) as i32 + self.by.on(axis)
    }
}

/// Returns where the vertex of a key lies that has these ends: the samples, without their signs, divide the way between
/// the ends after their moves.
pub(crate) fn position(key: &Key, near: &End, far: &End) -> Pos
    requires key { IsKey MAX_DEPTH key.now }
    requires near { IsKeyEnd key.now.level near.now }
    requires far { IsKeyEnd key.now.level far.now }
    requires some { 0 < unsigned_abs near.now.sample + unsigned_abs far.now.sample }
    ensures value { result ≡ placed key.now near.now far.now }
    ensures place { (depth : ℕ) (s : Field) (m : LevelMap)
        → IsEnd depth s m key.now.level key.now.at near.now
        → IsEnd depth s m key.now.level (far_end key.now) far.now
        → result ≡ place depth s m key.now }
{
    let at = key.at;
    let end = key.far_end();
    let (a, b) = (near.sample.unsigned_abs(), far.sample.unsigned_abs());
    Pos {
        x: between(near.on(at, Axis::X), far.on(end, Axis::X), a, b),
        y: between(near.on(at, Axis::Y), far.on(end, Axis::Y), a, b),
        z: between(near.on(at, Axis::Z), far.on(end, Axis::Z), a, b),
    }
}

/// Returns where the vertex of a key lies whose ends don't move and have these samples.
pub(crate) fn still_position(key: &Key, near: i8, far: i8) -> Pos
    requires key { IsKey MAX_DEPTH key.now }
    requires near { IsSample near }
    requires far { IsSample far }
    requires some { 0 < unsigned_abs near + unsigned_abs far }
    ensures { (depth : ℕ) (s : Field) (m : LevelMap)
        → near ≡ s key.now.at → far ≡ s (far_end key.now)
        → IsStill depth m key.now.level key.now.at
        → IsStill depth m key.now.level (far_end key.now)
        → result ≡ place depth s m key.now }
{
    let along = part_of_side(key.level, near.unsigned_abs(), far.unsigned_abs());
    let Point { z, y, x } = key.at;
    let begin = Pos {
        x: UNITS * x,
        y: UNITS * y,
        z: UNITS * z,
    };
    further(begin, key.axis, along)
}

/// Returns the position that is so many units further on an axis than another one.
#[inline(always)]
fn further(from: Pos, axis: Axis, by: u32) -> Pos
    requires x { from.x + by < 2 ^ 32 }
    requires y { from.y + by < 2 ^ 32 }
    requires z { from.z + by < 2 ^ 32 }
    ensures { result ≡ further axis by from }
{
    // Three products with 0 or 1 take no branch: an axis can't be foreseen.
    Pos {
        x: from.x + by * one_on(axis, Axis::X),
        y: from.y + by * one_on(axis, Axis::Y),
        z: from.z + by * one_on(axis, Axis::Z),
    }
}

/// Returns the part `a / (a + b)` of the side of a cell of a level, rounded down, in units of 1/256 fine cell.
fn part_of_side(level: u8, a: u8, b: u8) -> u32
    requires level { level ≤ MAX_DEPTH }
    requires a { pos a ≤ℤ MAX_SAMPLE }
    requires b { pos b ≤ℤ MAX_SAMPLE }
    requires some { 0 < a + b }
    ensures value { result ≡ UNITS * 2 ^ level * a / (a + b) }
    ensures most { result ≤ UNITS * 2 ^ MAX_DEPTH }
{
    let reciprocal = RECIPROCALS[usize::from(a) + usize::from(b)];
    // The reciprocals are those of 2^29, and the side is 2^(8 + level) units. Rounded up, they still give each part of
    // a side up to level 6.
    let cells = u64::from(u32::from(a) << level);
    ((cells * u64::from(reciprocal)) >> 21) as u32
}

/// Returns the number that is `a / (a + b)` of the way from `p` to `q`, rounded down, without its sign.
fn between(p: i32, q: i32, a: u8, b: u8) -> u32
    requires p { unsigned_abs p ≤ MOST }
    requires q { unsigned_abs q ≤ MOST }
    requires a { pos a ≤ℤ MAX_SAMPLE }
    requires b { pos b ≤ℤ MAX_SAMPLE }
    requires some { 0 < a + b }
    ensures { result ≡ between p q a b }
{
    let (a, b) = (i32::from(a), i32::from(b));
    (p + ((q - p) * a).div_euclid(a + b)).unsigned_abs()
}
