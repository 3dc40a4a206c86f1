//! The table of followers, from which loops are read.

ghost use Rattle.std.specs.Prelude.{◌≡◌, ℕ, ◌<◌, ◌≤◌, List, ◌++◌, length, All};
ghost use Rattle.terrain.specs.declared.curve.Curve.{Curve as CurveOf};
ghost use Rattle.terrain.specs.Curves.{IsClosed, cell_curves, orbit};
ghost use Rattle.face_curves.specs.declared.loop_list.TheConstants.{KEYS};
ghost use Rattle.face_curves.specs.Followers.{EndsAreKeys};

use crate::loop_list::KEYS;
use crate::polygon::{Faces, curves};
use arrayvec::ArrayVec;
use terrain::Curve;

/// For each key of a cell the end of the curve that starts at it.
#[derive(Drop)]
pub(crate) struct Followers {
    ends: [Option<u8>; KEYS],
    ghost within: { EndsAreKeys ends },
}

impl Followers {
    ghost use Rattle.face_curves.specs.Followers.{Follows, StartApart, loop_from};

    /// Returns the followers of the keys of a cell with these faces.
    pub(crate) fn new(faces: &Faces) -> Followers
        requires { IsClosed faces.now.items }
        ensures { Follows (cell_curves faces.now.items) result.ends }
    {
        let mut followers = Followers { ends: [None; KEYS] };
        for face in faces.iter() {
            followers.insert(&curves(face));
        }
        followers
    }

    /// Enters the curves of a face.
    fn insert(&mut self, curves: &[Curve])
        requires { All (λ c. (c.start < KEYS) × (c.end < KEYS)) curves.now }
        ensures { (cs : List CurveOf) → Follows cs self.old.ends → StartApart (cs ++ curves.now)
            → Follows (cs ++ curves.now) self.new.ends }
    {
        for curve in curves {
            self.ends[usize::from(curve.start)] = Some(curve.end);
        }
    }

    /// Returns the loop that is listed from the key, its least one, if there is such a loop.
    pub(crate) fn loop_from(&self, key: u8) -> Option<ArrayVec<u8, KEYS>>
        requires { key < KEYS }
        ensures { (cs : List CurveOf) → Follows cs self.now.ends → length (orbit cs key) ≤ KEYS
            → result ≡ loop_from cs key }
    {
        let mut keys = ArrayVec::new();
        let mut at = key;
        // No loop has more keys than there are numbers for them.
        while !keys.is_full() {
            keys.push(at);
            at = self.ends[usize::from(at)]?;
            if at == key {
                return Some(keys);
            }
            if at < key {
                return None;
            }
        }
        None
    }
}
