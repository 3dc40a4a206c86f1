//! Wires of boards on which events are played.

ghost use Rattle.lattice.specs.Settings.{IsSettings};

use crate::asserts::{expect_made, rely_on};
use cells::Cases;
use lattice::Settings;
use mesh_jobs::{Board, settle};
use patch_wire::{can_be_put, put_head, put_patch};
use snapshots::Patch;
use std::alloc::Global;
use std::process::Abort;
use terra_events::is_lawful;
use terra_io::MemSink;
use terrain::Event;

/// A sink has room for so many bytes.
const ROOM: usize = 1 << 16;

/// Returns the wire of a world on which these lists of events are played, each of which has a patch. The events have to
/// be lawful.
pub(crate) fn wire_of(
    rt: &impl Abort,
    alloc: Global,
    settings: Settings,
    lists: &[&[Event]],
) -> MemSink
    requires { IsSettings settings }
{
    let cases = expect_made(rt, Cases::new(alloc));
    let mut board = expect_made(rt, Board::new(alloc, &cases, settings));
    let mut sink = expect_made(rt, MemSink::new(alloc, ROOM, Vec::new(alloc)));
    write_wire(rt, alloc, &cases, &mut board, &mut sink, lists);
    drop((cases, board));
    sink
}

/// Writes the head of a board's wire, and then plays each of these lists of events and writes its patch.
fn write_wire(
    rt: &impl Abort,
    alloc: Global,
    cases: &Cases,
    board: &mut Board,
    sink: &mut MemSink,
    lists: &[&[Event]],
) {
    expect_made(rt, put_head(sink, board.world().settings()));
    for events in lists {
        apply_all(rt, alloc, board, events);
        write_patch(rt, alloc, cases, board, sink);
    }
}

/// Applies events to a board.
fn apply_all(rt: &impl Abort, alloc: Global, board: &mut Board, events: &[Event]) {
    for event in events {
        rely_on(rt, *event, is_lawful(event, board.world().settings()));
        expect_made(rt, board.apply(alloc, *event));
    }
}

/// Writes the patch of a board, and marks it.
fn write_patch(
    rt: &impl Abort,
    alloc: Global,
    cases: &Cases,
    board: &mut Board,
    sink: &mut MemSink,
) {
    let patch = settled_patch(rt, alloc, cases, board);
    put(rt, sink, &patch);
    drop(patch);
    board.mark_published();
}

/// Meshes all leaves of a board, and returns its patch.
fn settled_patch(rt: &impl Abort, alloc: Global, cases: &Cases, board: &mut Board) -> Patch {
    expect_made(rt, settle(alloc, cases, board));
    expect_made(rt, board.patch(alloc))
}

/// Writes a patch, which has to be one that a wire can have.
fn put(rt: &impl Abort, sink: &mut MemSink, patch: &Patch) {
    rely_on(rt, "a patch for wires", can_be_put(patch));
    expect_made(rt, put_patch(sink, patch));
}
