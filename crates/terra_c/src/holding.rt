//! Taking what a handle holds out of it, putting it back, and reading it between the two.

ghost use Rattle.std.specs.Prelude.{◌≡◌, Some, None, IfOk, MatchOption};

use crate::apart::Apart;
use crate::handle::TerraHandle;
use crate::held::Held;
use std::alloc::{AllocError, Global};
use std::mem::replace;

/// Takes what the handle holds out of it.
pub(crate) fn take(alloc: Global, handle: &mut TerraHandle) -> Option<Box<Held>>
    ensures taken { MatchOption result (handle.old.held ≡ None)
        (λ held. handle.old.held ≡ Some held.value) }
    ensures closed { handle.new.held ≡ None }
{
    match replace(handle, TerraHandle::closed()).release(alloc) {
        Some(apart) => Some(apart.into_box()),
        None => None,
    }
}

/// Puts this into the handle, in the place of what it holds.
pub(crate) fn put(alloc: Global, handle: &mut TerraHandle, held: Box<Held>)
    ensures { handle.new.held ≡ Some held.value }
{
    free(alloc, replace(handle, TerraHandle::hold(Apart::of(held))));
}

/// Returns a box of what is to be held. Out of memory is the only error.
pub(crate) fn boxed(alloc: Global, held: Held) -> Result<Box<Held>, AllocError>
    ensures { IfOk result (λ boxed. boxed.value ≡ held) }
{
    Ok(Box::new(alloc, held)?)
}

/// Frees what a handle holds.
pub(crate) fn free(alloc: Global, handle: TerraHandle) {
    match handle.release(alloc) {
        Some(apart) => drop(apart.into_box()),
        None => (),
    }
}

/// What a call answers that reads what a handle holds: `read!(alloc, of.frame(), |frame| status)` lends the frame, as
/// `Held::frame` does, and is the status; where there is none it is `NOT_HELD`. The handle holds the same afterwards.
macro_rules! read {
    ($alloc:ident, $of:ident.$part:ident(), |$lent:ident| $status:expr) => {
        match take($alloc, $of) {
            Some(held) => {
                let status = match held.$part() {
                    Some($lent) => $status,
                    None => NOT_HELD,
                };
                put($alloc, $of, held);
                status
            }
            None => NOT_HELD,
        }
    };
}

pub(crate) use read;
