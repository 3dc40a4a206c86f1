//! A frame that stands, and absorbs the patches of a board.

ghost use Rattle.std.specs.Prelude.{◌≡◌, ◌++◌, ◌∷◌, [], drop, take};
ghost use Rattle.lattice.specs.Settings.{IsSettings};
ghost use Rattle.snapshots.specs.Absorbed.{StaysSound, absorbed};
ghost use Rattle.snapshots.specs.Blocks.{HasOwnMeshes};
ghost use Rattle.snapshots.specs.Frame.{FrameState, IsSound, StandsFor};
ghost use Rattle.snapshots.specs.Patch.{Fits};
ghost use Rattle.terrain.specs.History.{IsLawfulEvent};

use crate::asserts::{expect, expect_made};
use block_mesh::BlockView;
use cells::Cases;
use lattice::{Node, Point, Settings};
use mesh_jobs::{Board, settle};
use snapshots::{Frame, Patch, frames_absorb_patches, later_patches_suffice};
use std::alloc::Global;
use std::process::Abort;
use terra_events::{Brush, Event};
use terrain::Mode;

/// The node of level 0 in the low corner.
const CORNER: Node = Node {
    level: 0,
    k: 0,
    j: 0,
    i: 0,
};

const SMALL: Settings = Settings { depth: 2, reach: 1 };

/// A camera in the low corner, which makes the eight nodes of level 0 there leaves, and seven of level 1.
const SEE_LOW: Event = Event::Camera {
    view: 0,
    at: Point { z: 0, y: 0, x: 0 },
};

/// A point in the node in the corner.
const INSIDE: Point = Point { z: 8, y: 8, x: 8 };

/// Fills that point.
const FILL_INSIDE: Event = Event::Edit(Brush::Cuboid {
    mode: Mode::Fill,
    lo: INSIDE,
    hi: INSIDE,
});

/// What a frame has: how many events and leaves, how many keys and triangles the block of the node in the corner has,
/// and whether the root has one.
#[derive(Clone, Copy, Debug, PartialEq, Eq)]
struct Look {
    events: usize,
    leaves: u64,
    corner: Option<(usize, usize)>,
    root: bool,
}

/// The frame after the camera alone, and after both events: the block in the corner has the point's six keys then.
const ONE: Look = Look {
    events: 1,
    leaves: 15,
    corner: Some((0, 0)),
    root: false,
};

const BOTH: Look = Look {
    events: 2,
    leaves: 15,
    corner: Some((6, 8)),
    root: false,
};

/// Returns what a frame has.
fn look_at(frame: &Frame) -> Look
    requires { IsSound frame.now }
{
    let depth = frame.settings().depth;
    Look {
        events: frame.events().len(),
        leaves: frame.stats().leaves,
        corner: frame.block(CORNER).map(lengths),
        root: frame.block(Node::root(depth)).is_some(),
    }
}

/// Returns how many keys and triangles a block has.
fn lengths(block: BlockView<'_>) -> (usize, usize) {
    (block.keys.len(), block.triangles.len())
}

/// Applies an event to a board and meshes its leaves, and returns its patch.
fn patch_after(
    rt: &impl Abort,
    alloc: Global,
    cases: &Cases,
    board: &mut Board,
    event: Event,
) -> Patch
    requires { IsLawfulEvent board.old.world.settings.depth event }
    ensures settings { board.new.world.settings ≡ board.old.world.settings }
    ensures marked { board.new.marked ≡ board.old.marked }
    ensures journal { board.new.world.events ≡ board.old.world.events ++ event ∷ [] }
    ensures events { result.events.items ≡ drop board.new.marked board.new.world.events }
    ensures leads { (frame : FrameState) → StandsFor frame board.new.world.settings
        (take board.new.marked board.new.world.events) → Fits result frame }
{
    expect_made(rt, board.apply(alloc, event));
    expect_made(rt, settle(alloc, cases, board));
    expect_made(rt, board.patch(alloc))
}

/// Returns the board of a world before any event.
fn opened(rt: &impl Abort, alloc: Global, cases: &Cases, settings: Settings) -> Board
    requires { IsSettings settings }
    ensures settings { result.world.settings ≡ settings }
    ensures journal { result.world.events ≡ [] }
    ensures marked { result.marked ≡ 0 }
{
    expect_made(rt, Board::new(alloc, cases, settings))
}

/// Returns the patches of a board after one event and after another one, both from before any event.
fn patches(
    rt: &impl Abort,
    alloc: Global,
    cases: &Cases,
    settings: Settings,
    first: Event,
    second: Event,
) -> (Patch, Patch)
    requires allowed { IsSettings settings }
    requires first { IsLawfulEvent settings.depth first }
    requires second { IsLawfulEvent settings.depth second }
    ensures first { (frame : FrameState) → StandsFor frame settings [] → Fits result.0 frame }
    ensures second { (frame : FrameState) → StandsFor frame settings [] → Fits result.1 frame }
    ensures first_events { result.0.events.items ≡ first ∷ [] }
    ensures second_events { result.1.events.items ≡ first ∷ second ∷ [] }
{
    let mut board = opened(rt, alloc, cases, settings);
    let earlier = patch_after(rt, alloc, cases, &mut board, first);
    let later = patch_after(rt, alloc, cases, &mut board, second);
    drop(board);
    (earlier, later)
}

/// Returns the frame of a world before any event.
fn opening(rt: &impl Abort, alloc: Global, cases: &Cases, settings: Settings) -> Frame
    requires { IsSettings settings }
    ensures sound { IsSound result }
    ensures stands { StandsFor result settings [] }
{
    expect_made(rt, Frame::opening(alloc, cases, settings))
}

/// Has a frame absorb a patch.
fn absorb(rt: &impl Abort, alloc: Global, frame: &mut Frame, patch: &Patch)
    ensures absorbed { frame.new ≡ absorbed frame.old patch.now }
    ensures sound { StaysSound frame.old patch.now frame.new }
    ensures meshes { HasOwnMeshes frame.new.blocks }
{
    expect_made(rt, frame.absorb(alloc, patch))
}

/// Returns what an opening frame has that absorbs the patch of a board after one event, and then that of the same board
/// after another one, which wasn't marked between them.
fn absorb_one_after_another(
    rt: &impl Abort,
    alloc: Global,
    cases: &Cases,
    settings: Settings,
    first: Event,
    second: Event,
) -> (Look, Look)
    requires allowed { IsSettings settings }
    requires first { IsLawfulEvent settings.depth first }
    requires second { IsLawfulEvent settings.depth second }
{
    frames_absorb_patches();
    later_patches_suffice();
    let (earlier, later) = patches(rt, alloc, cases, settings, first, second);
    let mut frame = opening(rt, alloc, cases, settings);
    absorb(rt, alloc, &mut frame, &earlier);
    let one = look_at(&frame);
    absorb(rt, alloc, &mut frame, &later);
    let both = look_at(&frame);
    drop((earlier, later, frame));
    (one, both)
}

/// Returns what an opening frame has that absorbs the patch of a board after one event, and what a copy of it has then
/// that absorbs the one after another event.
fn absorb_in_a_copy(
    rt: &impl Abort,
    alloc: Global,
    cases: &Cases,
    settings: Settings,
    first: Event,
    second: Event,
) -> (Look, Look)
    requires allowed { IsSettings settings }
    requires first { IsLawfulEvent settings.depth first }
    requires second { IsLawfulEvent settings.depth second }
{
    frames_absorb_patches();
    later_patches_suffice();
    let (earlier, later) = patches(rt, alloc, cases, settings, first, second);
    let mut frame = opening(rt, alloc, cases, settings);
    absorb(rt, alloc, &mut frame, &earlier);
    let both = look_at_a_copy(rt, alloc, &frame, &later);
    let one = look_at(&frame);
    drop((earlier, later, frame));
    (one, both)
}

/// Returns a copy of a frame.
fn copy_of(rt: &impl Abort, alloc: Global, frame: &Frame) -> Frame
    ensures { result ≡ frame.now }
{
    expect_made(rt, frame.try_clone(alloc))
}

/// Returns what a copy of a frame has that absorbs a patch.
fn look_at_a_copy(rt: &impl Abort, alloc: Global, frame: &Frame, patch: &Patch) -> Look
    requires { HasOwnMeshes (absorbed frame.now patch.now).blocks
        → IsSound (absorbed frame.now patch.now) }
{
    let mut copy = copy_of(rt, alloc, frame);
    absorb(rt, alloc, &mut copy, patch);
    let look = look_at(&copy);
    drop(copy);
    look
}

/// The second patch goes on from before any event too, and is absorbed after the first one.
#[test]
fn absorbs_a_patch_after_one_that_it_goes_on_from(rt: HostRuntime) {
    let alloc = rt.alloc();
    let cases = expect_made(&rt, Cases::new(alloc));
    let looks = absorb_one_after_another(&rt, alloc, &cases, SMALL, SEE_LOW, FILL_INSIDE);
    drop(cases);
    expect(&rt, "a camera", looks.0, ONE);
    expect(&rt, "and a point", looks.1, BOTH);
}

/// What a copy absorbs doesn't change the frame.
#[test]
fn leaves_a_frame_whose_copy_absorbs_a_patch(rt: HostRuntime) {
    let alloc = rt.alloc();
    let cases = expect_made(&rt, Cases::new(alloc));
    let looks = absorb_in_a_copy(&rt, alloc, &cases, SMALL, SEE_LOW, FILL_INSIDE);
    drop(cases);
    expect(&rt, "the frame", looks.0, ONE);
    expect(&rt, "the copy", looks.1, BOTH);
}
