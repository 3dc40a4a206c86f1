//! The calls for frames that several threads read while their world goes on.

ghost use Rattle.std.specs.Prelude.{◌≡◌, MatchOption, None, Some, length};
ghost use Rattle.snapshots.specs.Stats.{stats_of};
ghost use Rattle.terra_c.specs.Frames.{Audits, Lists};
ghost use Rattle.terra_c.specs.Held.{frame_in};
ghost use Rattle.terra_c.specs.Jobs.{Shares};
ghost use Rattle.terra_c.specs.Shapes.{c_stats};
ghost use Rattle.terrain.specs.Blocks.{scratch};

use crate::blocks::copy_list;
use crate::handle::TerraHandle;
use crate::held::Held;
use crate::holding::{boxed, put, read, take};
use crate::shapes::{TerraAudit, TerraNode, TerraStats};
use crate::status::{DONE, NO_MEMORY, NOT_HELD};
use std::alloc::Global;
use terra_world::Snapshot;

/// Makes another holder of a frame, which is a world's or one that is held, in the place of what `frame` holds. It
/// stays as it is while the world goes on, and may go to another thread.
#[unsafe(no_mangle)]
pub extern "C" fn terra_snapshot(alloc: Global, of: &mut TerraHandle, frame: &mut TerraHandle) -> u8
    ensures held { of.new.held ≡ of.old.held }
    ensures shared { MatchOption (frame_in of.old.held)
        ((result ≡ NOT_HELD) × (frame.new.held ≡ frame.old.held))
        (λ shown. Shares shown frame.old.held frame.new.held result) }
{
    read!(alloc, of.frame(), |shown| share(alloc, shown, frame))
}

/// Makes another holder of a frame.
fn share(alloc: Global, shown: &Snapshot, frame: &mut TerraHandle) -> u8
    ensures { Shares shown.now frame.old.held frame.new.held result }
{
    let Ok(shared) = shown.try_clone() else {
        return NO_MEMORY;
    };
    match boxed(alloc, Held::Frame(shared)) {
        Ok(held) => {
            put(alloc, frame, held);
            DONE
        }
        Err(_) => NO_MEMORY,
    }
}

/// Tells how many events the journal of a frame has, and how many leaves, triangles and keys it has.
#[unsafe(no_mangle)]
pub extern "C" fn terra_stats(alloc: Global, of: &mut TerraHandle, stats: &mut TerraStats) -> u8
    ensures held { of.new.held ≡ of.old.held }
    ensures told { MatchOption (frame_in of.old.held)
        ((result ≡ NOT_HELD) × (stats.new ≡ stats.old))
        (λ frame. (result ≡ DONE) × (stats.new ≡ c_stats (length frame.events)
        (stats_of (scratch frame.settings frame.events)))) }
{
    read!(alloc, of.frame(), |frame| {
        *stats = TerraStats::of(frame.events(), frame.stats());
        DONE
    })
}

/// Audits a frame: it counts what the triangles of its blocks leave open.
#[unsafe(no_mangle)]
pub extern "C" fn terra_audit(alloc: Global, of: &mut TerraHandle, audit: &mut TerraAudit) -> u8
    ensures held { of.new.held ≡ of.old.held }
    ensures told { MatchOption (frame_in of.old.held)
        ((result ≡ NOT_HELD) × (audit.new ≡ audit.old))
        (λ frame. Audits frame audit.old audit.new result) }
{
    read!(alloc, of.frame(), |frame| count_open(alloc, frame, audit))
}

/// Audits a frame.
fn count_open(alloc: Global, frame: &Snapshot, audit: &mut TerraAudit) -> u8
    ensures { Audits frame.now audit.old audit.new result }
{
    match frame.audit(alloc) {
        Ok(counted) => {
            *audit = TerraAudit::of(counted);
            DONE
        }
        Err(_) => NO_MEMORY,
    }
}

/// Copies the leaves of a frame, in the order of nodes, and tells how many there are.
#[unsafe(no_mangle)]
pub extern "C" fn terra_leaves(
    alloc: Global,
    of: &mut TerraHandle,
    nodes: &mut [TerraNode],
    count: &mut usize,
) -> u8
    ensures held { of.new.held ≡ of.old.held }
    ensures copied { MatchOption (frame_in of.old.held)
        ((result ≡ NOT_HELD) × ((nodes.new ≡ nodes.old) × (count.new ≡ count.old)))
        (λ frame. Lists frame nodes.old nodes.new count.old count.new result) }
{
    read!(alloc, of.frame(), |frame| list(alloc, frame, nodes, count))
}

/// Copies the leaves of a frame, and tells how many there are.
fn list(alloc: Global, frame: &Snapshot, nodes: &mut [TerraNode], count: &mut usize) -> u8
    ensures { Lists frame.now nodes.old nodes.new count.old count.new result }
{
    match frame.leaves(alloc) {
        Ok(leaves) => copy_list(&leaves, nodes, count),
        Err(_) => NO_MEMORY,
    }
}
