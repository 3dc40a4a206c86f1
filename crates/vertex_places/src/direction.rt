//! Directions from a leaf, and the borders of a leaf on which a point lies.

ghost use Rattle.std.specs.Prelude.{◌≡◌, ◌<◌, ◌≤ℤ◌, min, max, pos};

use lattice::{Axis, CELLS};
use std::cmp::Ordering;

/// How many directions there are, with the one that stays.
pub(crate) const DIRECTIONS: usize = 27;

/// The number of the direction that stays among them all, by z, then y, then x.
const STAY: usize = 13;

/// A step on an axis: towards its low side, to neither side, or towards its high side.
#[derive(Clone, Copy)]
pub(crate) enum Step {
    Low,
    Stay,
    High,
}

/// A direction from a leaf, by a step on each axis. It names a place next to the leaf, and also the border of the leaf
/// that faces this place.
#[derive(Clone, Copy)]
pub(crate) struct Direction {
    pub z: Step,
    pub y: Step,
    pub x: Step,
}

impl Step {
    ghost use Rattle.vertex_places.specs.Directions.{border_at, inwards, step_of};

    /// Returns the border of a leaf on which a point lies on an axis, by its cells from the leaf's low corner.
    pub(crate) fn of_border(cells: u32) -> Step
        ensures { step_of result ≡ border_at cells }
    {
        if cells == 0 {
            Step::Low
        } else if cells == CELLS {
            Step::High
        } else {
            Step::Stay
        }
    }

    /// Returns the step of this number: 0 is towards the low side, 1 to neither side, 2 towards the high side.
    fn numbered(number: usize) -> Step
        requires { number < 3 }
        ensures { step_of result ≡ number }
    {
        match number {
            0 => Step::Low,
            1 => Step::Stay,
            _ => Step::High,
        }
    }

    /// Returns the step to the place on the low side of a point on this border.
    fn low_side(self) -> Step
        ensures { step_of result ≡ min (step_of self) 1 }
    {
        match self {
            Step::Low => Step::Low,
            Step::Stay | Step::High => Step::Stay,
        }
    }

    /// Returns the step to the place on the high side of a point on this border.
    fn high_side(self) -> Step
        ensures { step_of result ≡ max (step_of self) 1 }
    {
        match self {
            Step::Low | Step::Stay => Step::Stay,
            Step::High => Step::High,
        }
    }

    /// Returns how far this is into a leaf from its border: up from the low one, down from the high one.
    pub(crate) fn inwards(self, far: i32) -> i32
        requires { pos 0 ≤ℤ far }
        ensures { result ≡ inwards (step_of self) far }
    {
        match self {
            Step::Low => far,
            Step::Stay => 0,
            Step::High => -far,
        }
    }
}

impl Direction {
    ghost use Rattle.std.specs.Prelude.{map};
    ghost use Rattle.vertex_places.specs.Directions.{beyond, border_of, facing, high_side, low_side};
    ghost use Rattle.vertex_places.specs.Directions.{direction_numbered, number, rim_bit, step_of, step_on, as_direction};

    /// Returns the step on an axis.
    pub(crate) fn step(self, axis: Axis) -> Step
        ensures { step_of result ≡ step_on axis (as_direction self) }
    {
        match axis {
            Axis::X => self.x,
            Axis::Y => self.y,
            Axis::Z => self.z,
        }
    }

    /// Returns the direction across the face on which the border lies on an axis.
    pub(crate) fn facing(self, axis: Axis) -> Direction
        ensures { as_direction result ≡ facing axis (as_direction self) }
    {
        let mut facing = Direction {
            z: Step::Stay,
            y: Step::Stay,
            x: Step::Stay,
        };
        match axis {
            Axis::X => facing.x = self.x,
            Axis::Y => facing.y = self.y,
            Axis::Z => facing.z = self.z,
        }
        facing
    }

    /// Returns the four places beyond a leaf's border on an axis that meet at a point of this border.
    pub(crate) fn beyond(self, axis: Axis) -> [Direction; 4]
        ensures { map as_direction result ≡ beyond axis (as_direction self) }
    {
        let (low, high) = (self.low_side(), self.high_side());
        let at = |z, y, x| Direction { z, y, x };
        match axis {
            Axis::X => [
                at(low.z, low.y, self.x),
                at(low.z, high.y, self.x),
                at(high.z, low.y, self.x),
                at(high.z, high.y, self.x),
            ],
            Axis::Y => [
                at(low.z, self.y, low.x),
                at(low.z, self.y, high.x),
                at(high.z, self.y, low.x),
                at(high.z, self.y, high.x),
            ],
            Axis::Z => [
                at(self.z, low.y, low.x),
                at(self.z, low.y, high.x),
                at(self.z, high.y, low.x),
                at(self.z, high.y, high.x),
            ],
        }
    }

    /// Returns the direction to the place on the low side, on each axis, of a point on this border.
    fn low_side(self) -> Direction
        ensures { as_direction result ≡ low_side (as_direction self) }
    {
        Direction {
            z: self.z.low_side(),
            y: self.y.low_side(),
            x: self.x.low_side(),
        }
    }

    /// Returns the direction to the place on the high side, on each axis, of a point on this border.
    fn high_side(self) -> Direction
        ensures { as_direction result ≡ high_side (as_direction self) }
    {
        Direction {
            z: self.z.high_side(),
            y: self.y.high_side(),
            x: self.x.high_side(),
        }
    }

    /// Returns the border of a leaf on which a lattice point lies, by its cells from the leaf's low corner.
    pub(crate) fn of_border(z: u32, y: u32, x: u32) -> Direction
        ensures { as_direction result ≡ border_of z y x }
    {
        Direction {
            z: Step::of_border(z),
            y: Step::of_border(y),
            x: Step::of_border(x),
        }
    }

    /// Returns the direction of this number among them all, by z, then y, then x.
    pub(crate) fn numbered(number: usize) -> Direction
        requires { number < DIRECTIONS }
        ensures { as_direction result ≡ direction_numbered number }
    {
        Direction {
            z: Step::numbered(number / 9),
            y: Step::numbered(number / 3 % 3),
            x: Step::numbered(number % 3),
        }
    }

    /// Returns the direction's number among them all, by z, then y, then x.
    pub(crate) fn number(self) -> usize
        ensures { result ≡ number (as_direction self) }
    {
        9 * self.z as usize + 3 * self.y as usize + self.x as usize
    }

    /// Returns the number of the direction's bit in a rim, which the direction that stays doesn't have.
    pub(crate) fn rim_bit(self) -> Option<usize>
        ensures { result ≡ rim_bit (as_direction self) }
    {
        let number = self.number();
        match number.cmp(&STAY) {
            Ordering::Less => Some(number),
            Ordering::Equal => None,
            Ordering::Greater => Some(number - 1),
        }
    }
}
