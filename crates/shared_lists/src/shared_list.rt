//! Lists whose copies share their parts.

ghost use Rattle.std.specs.Prelude.{◌≡◌, ◌<◌, length, IfOk, OnErr, OnOk, replicate, slice_index_or, slice_set};

use std::alloc::{AllocError, Global};
use std::marker::Model;
use std::sync::Arc;

/// A list of parts, which its copies share.
#[derive(Debug, Drop)]
pub struct SharedList<T: Drop> {
    parts: Vec<Arc<T>>,
}

impl<T: Drop> Model for SharedList<T> {
    ghost use Rattle.std.specs.Prelude.{List, map};
    ghost use Rattle.std.specs.Arc.{arc_value};

    ghost Value = { List T };

    ghost view = { λ list. map arc_value list.parts.items };
}

impl<T: Drop> SharedList<T> {
    /// Returns the list of one part, so many times. Out of memory is the only error.
    pub fn new(alloc: Global, part: T, count: usize) -> Result<SharedList<T>, AllocError>
        ensures { IfOk result (λ list. list ≡ replicate count part) }
    {
        let part = Arc::new(alloc, part)?;
        let mut parts = Vec::with_capacity(alloc, count)?;
        for _ in 0..count {
            parts.push(Arc::try_clone(&part)?)?;
        }
        Ok(SharedList { parts })
    }

    /// Returns a copy, which shares all parts. Out of memory is the only error.
    pub fn try_clone(&self, alloc: Global) -> Result<SharedList<T>, AllocError>
        ensures { IfOk result (λ copy. copy ≡ self.now) }
    {
        let mut parts = Vec::with_capacity(alloc, self.parts.len())?;
        for part in self.parts.iter() {
            parts.push(Arc::try_clone(part)?)?;
        }
        Ok(SharedList { parts })
    }

    /// Lends the part at an index.
    pub fn part(&self, index: usize) -> &T
        requires { index < length self.now }
        ensures { (d : T) → slice_index_or self.now index d ≡ result.now }
    {
        &self.parts[index]
    }

    /// Puts another part at an index. Out of memory is the only error, and leaves the list as it was.
    pub fn replace(&mut self, alloc: Global, index: usize, part: T) -> Result<(), AllocError>
        requires { index < length self.old }
        ensures replaced { OnOk result (self.new ≡ slice_set self.old index part) }
        ensures unchanged { OnErr result (self.new ≡ self.old) }
    {
        self.parts[index] = Arc::new(alloc, part)?;
        Ok(())
    }

    /// Returns whether the part at an index is in no other list, and at no other index.
    pub fn is_own(&self, index: usize) -> bool
        requires { index < length self.now }
    {
        Arc::strong_count(&self.parts[index]) == 1
    }
}
