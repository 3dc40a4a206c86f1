//! How a publication begins: a publisher of the opening frame, and its viewers.

ghost use Rattle.std.specs.Prelude.{◌≡◌, ◌<◌, [], All, IfOk, IsErrOf, OnOk, vec_len};
ghost use Rattle.lattice.specs.Settings.{IsSettings};
ghost use Rattle.published_frames.specs.States.{viewer_of};
ghost use Rattle.snapshots.specs.Frame.{IsSound, StandsFor};
ghost use Rattle.snapshots.specs.Seamless.{HasNoCrack};
ghost use Rattle.fault_counts.specs.Counts.{HasRisen};

use crate::door::Door;
use crate::fault::BeginFault;
use crate::publisher::Publisher;
use crate::viewer::Viewer;
use cells::Cases;
use lattice::Settings;
use snapshots::Frame;
use std::alloc::Global;
use std::sync::Wait;

/// Returns a publisher that shows the opening frame, and exactly as many viewers as are asked for, which are its own
/// and have seen that frame; it has given no other. The error is `NoPlace` exactly where the door refused a viewer, and
/// else out of memory.
pub fn begin<D: Door, R: Wait>(
    rt: &R,
    alloc: Global,
    door: &mut D,
    cases: &Cases,
    settings: Settings,
    viewers: u8,
) -> Result<(Publisher, Vec<Viewer>), BeginFault>
    requires { IsSettings settings }
    ensures sound { IfOk result (λ begun. IsSound begun.0.frame) }
    ensures stands { IfOk result (λ begun. StandsFor begun.0.frame settings []) }
    ensures seamless { IfOk result (λ begun. HasNoCrack begun.0.frame) }
    ensures viewers { IfOk result (λ begun. vec_len begun.1 ≡ viewers) }
    ensures own { IfOk result (λ begun.
        All (λ viewer. viewer ≡ viewer_of begun.0) begun.1.items) }
    ensures given { IfOk result (λ begun. begun.0.viewers ≡ viewers) }
    ensures refused { IsErrOf result BeginFault.NoPlace → (0 < viewers)
        × HasRisen (D.refusals door.old) (D.refusals door.new) }
    ensures let_in { ¬ IsErrOf result BeginFault.NoPlace
        → D.refusals door.new ≡ D.refusals door.old }
{
    let frame = Frame::opening(alloc, cases, settings)?;
    let mut publisher = Publisher::open(rt, alloc, frame, viewers.max(1))?;
    match seat_all(alloc, door, &mut publisher, viewers) {
        Ok(viewers) => Ok((publisher, viewers)),
        Err(fault) => {
            publisher.close(rt);
            Err(fault)
        }
    }
}

/// Returns so many viewers of a publisher that has given none yet, each of which has seen the published frame.
fn seat_all<D: Door>(
    alloc: Global,
    door: &mut D,
    publisher: &mut Publisher,
    count: u8,
) -> Result<Vec<Viewer>, BeginFault>
    requires { publisher.old.viewers ≡ 0 }
    ensures given { OnOk result (publisher.new ≡ record publisher.old { viewers = count }) }
    ensures viewers { IfOk result (λ viewers. vec_len viewers ≡ count) }
    ensures own { IfOk result (λ viewers.
        All (λ viewer. viewer ≡ viewer_of publisher.old) viewers.items) }
    ensures refused { IsErrOf result BeginFault.NoPlace → (0 < count)
        × HasRisen (D.refusals door.old) (D.refusals door.new) }
    ensures let_in { ¬ IsErrOf result BeginFault.NoPlace
        → D.refusals door.new ≡ D.refusals door.old }
{
    let mut viewers = Vec::with_capacity(alloc, usize::from(count))?;
    for _ in 0..count {
        let Some(viewer) = door.seat(publisher) else {
            return Err(BeginFault::NoPlace);
        };
        if let Err(refused) = viewers.push(viewer) {
            drop(refused);
            return Err(BeginFault::NoMemory);
        }
    }
    Ok(viewers)
}
