//! Boxes taken apart: a pointer that no box owns any more, and what it takes to make the box again.

ghost use Rattle.std.specs.Prelude.{◌≡◌};
ghost use Rattle.std.specs.Box.Ownership.{box_owns};

use std::alloc::Allocator;
use std::marker::Model;

/// A box taken apart: where its value lies, and the allocator that frees the place.
///
/// Contracts see the value.
pub(crate) struct Apart<T, A: Allocator> {
    pub(crate) at: *mut T,
    pub(crate) alloc: A,
    pub(crate) ghost value: { T },
}

impl<T, A: Allocator> Model for Apart<T, A> {
    ghost also_owns = { λ apart.
        box_owns (A.dealloc_token apart.alloc) T.row apart.at apart.value };
}

impl<T: Drop, A: Allocator> Apart<T, A> {
    /// Returns the parts of a box.
    pub(crate) fn of(whole: Box<T, A>) -> Apart<T, A>
        ensures { result.value ≡ whole.value }
    {
        let (at, alloc) = Box::into_raw_with_allocator(whole);
        Apart { at, alloc }
    }

    /// Returns the box of these parts.
    pub(crate) fn into_box(self) -> Box<T, A>
        ensures { result.value ≡ self.value }
    {
        let Apart { at, alloc } = self;
        unsafe { Box::from_raw(alloc, at) }
    }
}
