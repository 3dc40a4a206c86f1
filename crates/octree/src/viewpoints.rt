//! The viewpoints of a world, by their numbers.

ghost use Rattle.std.specs.Prelude.{◌≡◌, ℕ, ◌<◌, ◌++◌, None, IfOk, OnOk, length, option_to_list, slice_set};
ghost use Rattle.terrain.specs.declared.event.TheConstants.{MAX_VIEWS};
ghost use Rattle.octree.specs.Viewpoints.{place_of, points_in};

use lattice::Point;
use std::alloc::{AllocError, Global};
use terrain::MAX_VIEWS;

/// The viewpoints of a world: for each number where that viewpoint is, if it is anywhere.
#[derive(Clone, Copy, Debug)]
pub struct Viewpoints {
    pub places: [Option<Point>; MAX_VIEWS],
}

impl Viewpoints {
    /// Returns viewpoints of which none is anywhere.
    pub fn none() -> Viewpoints
        ensures count { length result.places ≡ MAX_VIEWS }
        ensures none { (view : ℕ) → view < MAX_VIEWS → place_of result view ≡ None }
    {
        Viewpoints {
            places: [None; MAX_VIEWS],
        }
    }

    /// Returns these with one of them put at a point, or nowhere.
    pub fn with(&self, view: u8, at: Option<Point>) -> Viewpoints
        requires { view < MAX_VIEWS }
        ensures { result.places ≡ slice_set self.now.places view at }
    {
        let mut places = self.places;
        places[usize::from(view)] = at;
        Viewpoints { places }
    }

    /// Returns the points at which they are, by their numbers. Out of memory is the only error.
    pub fn points(&self, alloc: Global) -> Result<Vec<Point>, AllocError>
        ensures { IfOk result (λ points. points.items ≡ points_in self.now) }
    {
        let mut points = Vec::new(alloc);
        for view in 0..MAX_VIEWS {
            push_place(&mut points, self.places[view])?;
        }
        Ok(points)
    }
}

/// Appends the point of a place, if it has one. Out of memory is the only error.
fn push_place(points: &mut Vec<Point>, place: Option<Point>) -> Result<(), AllocError>
    ensures { OnOk result (points.new.items ≡ points.old.items ++ option_to_list place) }
{
    match place {
        Some(at) => Ok(points.push(at)?),
        None => Ok(()),
    }
}
