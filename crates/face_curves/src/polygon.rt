//! The faces of a cell, and their curves.

ghost use Rattle.std.specs.Prelude.{◌≡◌, ◌%◌, ◌<◌, IsTrue};
ghost use Rattle.terrain.specs.Curves.{IsPolygon, is_solid_corner, side, before, begins_run, run_length, curve_at, curves, corner_count};

use arrayvec::ArrayVec;
use std::marker::Model;
use terrain::Curve;

/// How many corners a face of a cell has at most: those of a face between the two sides of a transition cell.
pub const MAX_CORNERS: usize = 5;

/// A face of a cell: its corners counter-clockwise as seen from outside the cell, and its sides.
///
/// Side `t` goes from corner `t` to the next one, and from the last corner to the first.
#[derive(Debug, Default, Drop, PartialEq, Eq)]
pub struct Polygon {
    /// Whether each corner is solid.
    pub solid: ArrayVec<bool, MAX_CORNERS>,
    /// The number that the cell gives each side; 255 names a side between two copies of one point.
    pub sides: ArrayVec<u8, MAX_CORNERS>,
}

impl Model for Polygon {
    ghost use Rattle.terrain.specs.Curves.{Polygon as Face};

    ghost Value = { Face };

    ghost view = { λ p. record { solid = p.solid.items; sides = p.sides.items } };

    ghost inverse = { λ face. record {
      solid = record { items = face.solid };
      sides = record { items = face.sides };
    } };
}

/// How many faces a cell has at most: those of a transition cell.
pub const MAX_FACES: usize = 9;

/// The faces of a cell.
pub type Faces = ArrayVec<Polygon, MAX_FACES>;

impl Polygon {
    /// Returns whether a run of solid corners begins at the corner.
    fn begins_run(&self, corner: usize) -> bool
        requires { corner < corner_count self.now }
        ensures { result ≡ begins_run self.now corner }
    {
        self.solid[corner] && !self.solid[self.before(corner)]
    }

    /// Returns the curve that cuts off the run which begins at the corner.
    fn curve_at(&self, corner: usize) -> Curve
        requires polygon { IsPolygon self.now }
        requires corner { corner < corner_count self.now }
        requires begins { IsTrue (begins_run self.now corner) }
        ensures { result ≡ curve_at self.now corner }
    {
        let last = corner + self.run_length(corner) - 1;
        Curve {
            start: self.sides[self.before(corner)],
            end: self.sides[last % self.sides.len()],
        }
    }

    /// Returns how many corners from this one on, counted round, are solid.
    fn run_length(&self, corner: usize) -> usize
        requires { corner < corner_count self.now }
        ensures { result ≡ run_length self.now corner }
    {
        let (before, from) = self.solid.split_at(corner);
        from.iter()
            .chain(before)
            .take_while(|solid| **solid)
            .count()
    }

    /// Returns the corner before this one, counted round.
    fn before(&self, corner: usize) -> usize
        requires { corner < corner_count self.now }
        ensures { result ≡ before self.now corner % corner_count self.now }
    {
        let corners = self.solid.len();
        (corner + corners - 1) % corners
    }
}

/// Returns the curves of a face: one for each run of solid corners that isn't the whole polygon, by the run's first
/// corner.
pub fn curves(polygon: &Polygon) -> ArrayVec<Curve, 2>
    requires { IsPolygon polygon.now }
    ensures { result.items ≡ curves polygon.now }
{
    let mut curves = ArrayVec::new();
    for corner in 0..polygon.solid.len() {
        if polygon.begins_run(corner) {
            curves.push(polygon.curve_at(corner));
        }
    }
    curves
}
