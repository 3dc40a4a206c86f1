//! Handles: what C keeps of a world, a job or a frame, a pointer that only this crate follows.

ghost use Rattle.std.specs.Prelude.{◌≡◌, Option, Some, None, MatchOption};
ghost use Rattle.terra_c.specs.declared.held.Held.{Held as HeldState};

use crate::apart::Apart;
use crate::held::Held;
use std::alloc::Global;
use std::marker::Model;

/// What is held, or nothing. C sets all its bytes to 0 before its first use, and changes none of them.
///
/// Contracts see what is held.
#[repr(C)]
pub struct TerraHandle {
    at: *mut u8,
    is_open: bool,
    pub ghost held: { Option HeldState },
}

impl Model for TerraHandle {
    ghost use Rattle.terra_c.specs.contracts.held.Held.{the_row};
    ghost use Rattle.terra_c.specs.Handle.{holds};

    ghost also_owns = { λ h. holds the_row h.is_open h.at h.held };
}

impl TerraHandle {
    /// Returns the handle that holds nothing.
    pub(crate) fn closed() -> TerraHandle
        ensures { result.held ≡ None }
    {
        TerraHandle {
            at: std::ptr::null_mut(),
            is_open: false,
        }
    }

    /// Returns the handle that holds this.
    pub(crate) fn hold(held: Apart<Held, Global>) -> TerraHandle
        ensures { result.held ≡ Some held.value }
    {
        let Apart { at, alloc: _ } = held;
        TerraHandle {
            at: at as *mut u8,
            is_open: true,
        }
    }

    /// Returns what is held.
    pub(crate) fn release(self, alloc: Global) -> Option<Apart<Held, Global>>
        ensures { MatchOption result (self.held ≡ None) (λ apart. self.held ≡ Some apart.value) }
    {
        let TerraHandle { at, is_open } = self;
        if is_open {
            Some(Apart {
                at: at as *mut Held,
                alloc,
            })
        } else {
            None
        }
    }
}

unsafe impl Send for TerraHandle {}
