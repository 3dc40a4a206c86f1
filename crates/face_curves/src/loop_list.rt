//! A list of the loops of a cell, which takes no memory.
ghost use Rattle.std.specs.Prelude.{◌≡◌, ◌+◌, ◌<◌, ◌≤◌, [], ◌∷◌, ◌++◌, length, slice_index_or, slice_range, ◌==◌};
ghost use Rattle.std.specs.List.{flat_map};
ghost use Rattle.face_curves.specs.declared.loop_list.TheConstants.{KEYS, MAX_LOOPS};
ghost use Rattle.face_curves.specs.Loops.{pieces, AreEnds};

use arrayvec::ArrayVec;
use std::alloc::AllocError;
use std::marker::Model;

/// How many numbers there are for the keys of a cell, from 0 on.
pub const KEYS: usize = 16;

/// How many loops a cell has at most.
pub const MAX_LOOPS: usize = 5;

/// The loops of a cell, each a list of the numbers that the cell gives its keys.
#[derive(Debug, Drop)]
pub struct Loops {
    /// The keys of the loops, one loop after another.
    keys: ArrayVec<u8, KEYS>,
    /// For each loop the place after its last key.
    ends: ArrayVec<u8, MAX_LOOPS>,
}

impl Model for Loops {
    ghost use Rattle.std.specs.Prelude.{List, ℕ};

    ghost Value = { List (List ℕ) };

    ghost use Rattle.face_curves.specs.declared.loop_list.TheConstants.{KEYS, MAX_LOOPS};
    ghost use Rattle.face_curves.specs.Loops.{pieces, AreEnds};

    ghost view = { λ loops. pieces loops.keys.items 0 loops.ends.items };

    ghost invariant = { λ loops. AreEnds loops.keys.items loops.ends.items };
}

impl Clone for Loops {
    ghost use Rattle.std.specs.Prelude.{◌≡◌, ⊤};

    ghost is_clone = { λ old new. new ≡ old };

    ghost is_infallible = { λ _. ⊤ };

    fn clone(&self) -> Result<Self, AllocError> {
        Ok(Loops {
            keys: self.keys.clone()?,
            ends: self.ends.clone()?,
        })
    }
}

impl Loops {
    /// Returns a list of no loops.
    pub(crate) fn new() -> Loops
        ensures { result ≡ [] }
    {
        Loops {
            keys: ArrayVec::new(),
            ends: ArrayVec::new(),
        }
    }

    /// Appends a loop.
    pub(crate) fn push(&mut self, keys: &[u8])
        requires some { 0 < length keys.now }
        requires room { length (flat_map (λ list. list) self.old) + length keys.now ≤ KEYS }
        requires few { length self.old < MAX_LOOPS }
        ensures { self.new ≡ self.old ++ keys.now ∷ [] }
    {
        // There is room, so this doesn't fail.
        let _fits = self.keys.try_extend_from_slice(keys);
        self.ends.push(self.keys.len() as u8);
    }

    /// Returns how many loops there are.
    pub fn len(&self) -> usize
        ensures value { result ≡ length self.now }
        ensures few { result ≤ MAX_LOOPS }
        ensures few_keys { length (flat_map (λ keys. keys) self.now) ≤ KEYS }
    {
        self.ends.len()
    }

    /// Returns whether there is no loop.
    pub fn is_empty(&self) -> bool
        ensures { result ≡ (length self.now == 0) }
    {
        self.ends.is_empty()
    }

    /// Returns the keys of one loop.
    pub fn keys_of(&self, index: usize) -> &[u8]
        requires { index < length self.now }
        ensures { result.now ≡ slice_index_or self.now index [] }
    {
        let (start, end) = bounds(&self.keys, &self.ends, index);
        &self.keys[start..end]
    }
}

/// Returns where a loop begins and ends among the keys, from the ends of all loops.
fn bounds(keys: &[u8], ends: &[u8], index: usize) -> (usize, usize)
    requires ends { AreEnds keys.now ends.now }
    requires index { index < length ends.now }
    ensures ordered { result.0 ≤ result.1 }
    ensures within { result.1 ≤ length keys.now }
    ensures piece { slice_range keys.now result.0 result.1
        ≡ slice_index_or (pieces keys.now 0 ends.now) index [] }
{
    let start = if index == 0 { 0 } else { ends[index - 1] };
    (usize::from(start), usize::from(ends[index]))
}
